ghost use Rattle.std.specs.Prelude.{◌≡◌, ◌*◌, ◌∷◌, List, [], length, drop, IfOk, IfErr, OnOk, OnErr};
ghost use Rattle.big_info.specs.Schedule.{per_event_of, per_unit_of};
ghost use Rattle.big_info.specs.declared.info.BigInfo.{BigInfo};
ghost use Rattle.isoal_unframed.specs.Air.{unframed_air};
ghost use Rattle.isoal_unframed.specs.Calls.{Call, accept, lay, begun};
ghost use Rattle.isoal_base.specs.Air.{laid_in};
ghost use Rattle.isoal_unframed.specs.State.Sender.{MayWait, PutFaultIs, StandsFor, after_event, event_pdus, with_unit};

use crate::slots::lay_slots;
use bcast_base::{EventPdus, Memory, Octets, Times};
use big_info::Group;
use isoal_base::{EventLaid, LaidPdus, PutFault, SpareOctets};
use std::alloc::Global;
use std::collections::VecDeque;
use std::marker::Model;

/// The most units that wait for a slot.
const BACKLOG: usize = 16;

/// The sender of an unframed stream (Core 5.2, volume 6 part G, section 2.1). Each unit takes the next slot of an event
/// that is laid, and is cut into fragments of at most Max_PDU octets.
#[derive(Drop)]
pub struct UnframedOut {
    alloc: Global,
    group: Group,
    waiting: VecDeque<Octets>,
    spares: SpareOctets,
}

impl Model for UnframedOut {
    ghost use Rattle.isoal_unframed.specs.State.Sender.{IsSender, Sender};

    ghost Value = { Sender };

    ghost view = { λ s. record { info = s.group.info; waiting = s.waiting.items } };

    ghost invariant = { λ s. IsSender s.group.info s.waiting.items };
}

impl UnframedOut {
    /// A sender before its first event. It takes no memory.
    pub fn new(alloc: Global, group: &Group) -> UnframedOut
        requires { group.now.info.framing ≡ 0 }
        ensures empty { result ≡ record { info = group.now.info; waiting = [] } }
        ensures stands { StandsFor group.now.info [] result }
    {
        UnframedOut {
            alloc,
            group: *group,
            waiting: VecDeque::new(alloc),
            spares: SpareOctets::new(alloc),
        }
    }

    /// Gives a unit to the stream; it waits for its slot.
    ///
    /// It is refused as TooLong where it has more than Max_SDU octets, and else as Backlog where 16 units wait. A refused
    /// unit changes nothing.
    pub fn put(&mut self, octets: &[u8]) -> Result<(), PutFault>
        ensures may_wait { OnOk result (MayWait self.old octets.now) }
        ensures ok { OnOk result (self.new ≡ with_unit self.old octets.now) }
        ensures fault { IfErr result (λ fault. PutFaultIs self.old octets.now fault) }
        ensures err { OnErr result (self.new ≡ self.old) }
        ensures stands { OnOk result ((info : BigInfo) (calls : List Call) → StandsFor info calls self.old
            → StandsFor info (accept octets.now ∷ calls) self.new) }
    {
        self.put_unit(octets)
    }

    fn put_unit(&mut self, octets: &[u8]) -> Result<(), PutFault>
        ensures ok { OnOk result (MayWait self.old octets.now × (self.new ≡ with_unit self.old octets.now)) }
        ensures fault { IfErr result (λ fault. PutFaultIs self.old octets.now fault) }
        ensures err { OnErr result (self.new ≡ self.old) }
    {
        if octets.len() > usize::from(self.group.info.max_sdu) {
            return Err(PutFault::TooLong);
        }
        if self.waiting.len() >= BACKLOG {
            return Err(PutFault::Backlog);
        }
        let unit = self.spares.copy(octets)?;
        self.waiting.push_back(unit)?;
        Ok(())
    }

    /// Lays the next event: its slots take the units that wait, in order, and no unit is left out of it as stale. Want of
    /// memory changes nothing.
    pub fn lay_event(&mut self) -> Result<EventLaid, Memory>
        ensures ok { IfOk result (λ event. (laid_in event ≡ record { pdus = event_pdus self.old.info self.old.waiting; stale = [] })
            × (self.new ≡ after_event self.old)) }
        ensures err { OnErr result (self.new ≡ self.old) }
        ensures count { IfOk result (λ event. length event.pdus ≡ self.old.info.bn) }
        ensures stands { OnOk result ((info : BigInfo) (calls : List Call) → StandsFor info calls self.old
            → StandsFor info (lay ∷ calls) self.new) }
        ensures laid { IfOk result (λ event. (info : BigInfo) (calls : List Call) → StandsFor info calls self.old
            → unframed_air info (lay ∷ calls) ≡ record { event = laid_in event; begun = begun info (lay ∷ calls) } ∷ unframed_air
            info calls) }
    {
        self.lay_next()
    }

    /// Lays the next event as `lay_event` does, its PDUs in the place of others, and answers the times of the units that were left
    /// out of it: none. Want of memory changes nothing but the PDUs.
    pub fn lay_event_in(&mut self, pdus: &mut LaidPdus) -> Result<Times, Memory>
        ensures ok { IfOk result (λ stale. (pdus.new ≡ event_pdus self.old.info self.old.waiting) × (stale ≡ [])
            × (self.new ≡ after_event self.old)) }
        ensures err { OnErr result (self.new ≡ self.old) }
        ensures count { OnOk result (length pdus.new ≡ self.old.info.bn) }
        ensures stands { OnOk result ((info : BigInfo) (calls : List Call) → StandsFor info calls self.old
            → StandsFor info (lay ∷ calls) self.new) }
        ensures laid { IfOk result (λ stale. (info : BigInfo) (calls : List Call) → StandsFor info calls self.old
            → unframed_air info (lay ∷ calls) ≡ record {
              event = record { pdus = pdus.new; stale = stale };
              begun = begun info (lay ∷ calls);
            } ∷ unframed_air info calls) }
    {
        self.lay_next_in(pdus)
    }

    fn lay_next_in(&mut self, pdus: &mut LaidPdus) -> Result<Times, Memory>
        ensures whole { self.old.info.bn ≡ per_event_of self.old.info * per_unit_of self.old.info }
        ensures ok { IfOk result (λ stale. (pdus.new ≡ event_pdus self.old.info self.old.waiting) × (stale ≡ [])
            × (self.new ≡ after_event self.old)) }
        ensures err { OnErr result (self.new ≡ self.old) }
    {
        lay_slots(&self.group, &self.waiting, pdus)?;
        self.pop_slots();
        Ok(Times::new(self.alloc))
    }

    fn lay_next(&mut self) -> Result<EventLaid, Memory>
        ensures whole { self.old.info.bn ≡ per_event_of self.old.info * per_unit_of self.old.info }
        ensures ok { IfOk result (λ event. (laid_in event ≡ record { pdus = event_pdus self.old.info self.old.waiting; stale = [] })
            × (self.new ≡ after_event self.old)) }
        ensures err { OnErr result (self.new ≡ self.old) }
    {
        let pdus = self.laid_slots()?;
        self.pop_slots();
        Ok(EventLaid {
            pdus,
            stale: Times::new(self.alloc),
        })
    }

    /// The PDUs of the next event, whose slots take the units that wait.
    fn laid_slots(&self) -> Result<EventPdus, Memory>
        ensures whole { self.now.info.bn ≡ per_event_of self.now.info * per_unit_of self.now.info }
        ensures ok { IfOk result (λ pdus. pdus ≡ event_pdus self.now.info self.now.waiting) }
    {
        let mut laid = LaidPdus::new(self.alloc);
        lay_slots(&self.group, &self.waiting, &mut laid)?;
        laid.copied()
    }

    /// Takes the units out of the queue that the slots of an event took.
    fn pop_slots(&mut self)
        ensures { self.new ≡ after_event self.old }
    {
        pop_units(&mut self.waiting, self.group.per_event(), &mut self.spares);
    }
}

/// Takes the first `count` units out of the queue, or all where there are fewer, and keeps their memory.
fn pop_units(waiting: &mut VecDeque<Octets>, count: u32, spares: &mut SpareOctets)
    ensures { waiting.new.items ≡ drop count waiting.old.items }
{
    'units: for _ in 0..count {
        pop_unit(waiting, spares);
    }
}

/// Takes the first unit out of the queue, where there is one, and keeps its memory.
fn pop_unit(waiting: &mut VecDeque<Octets>, spares: &mut SpareOctets)
    ensures { waiting.new.items ≡ drop 1 waiting.old.items }
{
    if let Some(unit) = waiting.pop_front() {
        let _ = spares.keep(unit);
    }
}
