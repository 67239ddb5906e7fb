ghost use Rattle.std.specs.Prelude.{◌≡◌, ◌≤◌, ◌+◌, ◌^◌, ◌++◌, ◌∷◌, [], List, ℕ, IsTrue, ◌↔◌, length, drop, Some, None, IfOk, IfErr, OnOk, OnErr};
ghost use Rattle.big_info.specs.declared.info.BigInfo.{BigInfo};
ghost use Rattle.isoal_base.specs.Air.{Air, laid_in};
ghost use Rattle.isoal_framed.specs.Air.{IsEvent, event_of, IsFramedAir};
ghost use Rattle.isoal_framed.specs.Calls.{Call, Timed, accept, lay};
ghost use Rattle.isoal_framed.specs.Places.{Act, ends, done, sent as sent_by, room};
ghost use Rattle.isoal_framed.specs.State.Senders.{Above, InOrder, IsPartly, NotPast, MayWait, PutFaultIs, StandsFor, waiting, with_unit};

use crate::packing::{Packing, pack_pdus};
use bcast_base::{Memory, Times, Unit};
use big_info::Group;
use iso_pdu::FramedPdu;
use isoal_base::{EventLaid, LaidPdus, PutFault, SpareOctets};
use std::alloc::Global;
use std::collections::VecDeque;
use std::marker::Model;

/// The most units that wait for their start.
const BACKLOG: usize = 16;

/// The sender of a framed stream (Core 5.2, volume 6 part G, section 2.2). Its units fill the PDUs of the events that are
/// laid one behind the other, each with a TimeOffset from its time to the anchor of the event in which it starts.
#[derive(Drop)]
pub struct FramedOut {
    alloc: Global,
    group: Group,
    queue: VecDeque<Unit>,
    spares: SpareOctets,
    sent: usize,
    last: Option<u64>,
}

impl Model for FramedOut {
    ghost use Rattle.isoal_framed.specs.State.Senders.{Sender, IsSender};

    ghost Value = { Sender };

    ghost view = { λ s. record { info = s.group.info; last = s.last; units = s.queue.items; sent = s.sent } };

    ghost invariant = { λ s. IsSender s.group.info s.sent s.queue.items };
}

impl FramedOut {
    /// A sender before its first event. It takes no memory.
    pub fn new(alloc: Global, group: &Group) -> FramedOut
        requires { group.now.info.framing ≡ 1 }
        ensures empty { result ≡ record { info = group.now.info; last = None; units = []; sent = 0 } }
        ensures stands { StandsFor group.now.info [] [] result }
    {
        FramedOut {
            alloc,
            group: *group,
            queue: VecDeque::new(alloc),
            spares: SpareOctets::new(alloc),
            sent: 0,
            last: None,
        }
    }

    /// Gives a unit with its time in µs to the stream; it waits for its start.
    ///
    /// It is refused as TooLong where it has more than Max_SDU octets, else as TimeOrder where its time is not above that
    /// of the last accepted unit or is past the next anchor, and else as Backlog where 16 units wait. A refused unit
    /// changes nothing.
    pub fn put(&mut self, time: u64, next_anchor: u64, octets: &[u8]) -> Result<(), PutFault>
        ensures may_wait { OnOk result (MayWait self.old (Some next_anchor) time octets.now) }
        ensures ok { OnOk result (self.new ≡ with_unit self.old time octets.now) }
        ensures fault { IfErr result (λ fault. PutFaultIs self.old (Some next_anchor) time octets.now fault) }
        ensures err { OnErr result (self.new ≡ self.old) }
        ensures stands { OnOk result ((info : BigInfo) (calls : List Call) (air : Air) → StandsFor info calls air self.old
            → StandsFor info (accept time octets.now ∷ calls) air self.new) }
    {
        self.accept(time, Some(next_anchor), octets)
    }

    /// Gives a unit as `put` does, whose time may also be past the next anchor.
    pub fn put_ahead(&mut self, time: u64, octets: &[u8]) -> Result<(), PutFault>
        ensures may_wait { OnOk result (MayWait self.old None time octets.now) }
        ensures ok { OnOk result (self.new ≡ with_unit self.old time octets.now) }
        ensures fault { IfErr result (λ fault. PutFaultIs self.old None time octets.now fault) }
        ensures err { OnErr result (self.new ≡ self.old) }
        ensures stands { OnOk result ((info : BigInfo) (calls : List Call) (air : Air) → StandsFor info calls air self.old
            → StandsFor info (accept time octets.now ∷ calls) air self.new) }
    {
        self.accept(time, None, octets)
    }

    #[inline(always)]
    fn accept(&mut self, time: u64, limit: Option<u64>, octets: &[u8]) -> Result<(), PutFault>
        ensures may_wait { OnOk result (MayWait self.old limit time octets.now) }
        ensures ok { OnOk result (self.new ≡ with_unit self.old time octets.now) }
        ensures fault { IfErr result (λ fault. PutFaultIs self.old limit time octets.now fault) }
        ensures err { OnErr result (self.new ≡ self.old) }
    {
        self.check(time, limit, octets)?;
        let octets = self.spares.copy(octets)?;
        self.queue.push_back(Unit { time, octets })?;
        self.last = Some(time);
        Ok(())
    }

    /// Whether a unit may wait, or why it is refused.
    #[inline(always)]
    fn check(&self, time: u64, limit: Option<u64>, octets: &[u8]) -> Result<(), PutFault>
        ensures may_wait { OnOk result (MayWait self.now limit time octets.now) }
        ensures fault { IfErr result (λ fault. PutFaultIs self.now limit time octets.now fault) }
    {
        if octets.len() > usize::from(self.group.info.max_sdu) {
            return Err(PutFault::TooLong);
        }
        if !self.is_in_order(time, limit) {
            return Err(PutFault::TimeOrder);
        }
        if self.waiting() >= BACKLOG {
            return Err(PutFault::Backlog);
        }
        Ok(())
    }

    /// Whether a unit with this time in µs would be in order: above the time of the last accepted unit, and not past the limit, where
    /// there is one.
    pub fn is_in_order(&self, time: u64, limit: Option<u64>) -> bool
        ensures { IsTrue result ↔ InOrder self.now limit time }
    {
        is_above(self.last, time) && !is_past(limit, time)
    }

    /// How many units wait for their start.
    fn waiting(&self) -> usize
        ensures { result ≡ waiting self.now }
    {
        if self.sent == 0 {
            self.queue.len()
        } else {
            self.queue.len() - 1
        }
    }

    /// Lays the next event, which has this anchor in µs: its PDUs are filled one behind the other with the units that
    /// wait. A unit whose time is past the anchor doesn't start in it, and it and all behind it wait. A unit whose
    /// TimeOffset would pass 24 bits as its turn comes is left out as stale. Want of memory changes nothing.
    pub fn pack_event(&mut self, anchor: u64) -> Result<EventLaid, Memory>
        ensures info { self.new.info ≡ self.old.info }
        ensures err { OnErr result (self.new ≡ self.old) }
        ensures count { IfOk result (λ event. length event.pdus ≡ self.old.info.bn) }
        ensures laid { (info : BigInfo) (calls : List Call) (air : Air) → StandsFor info calls air self.old
            → IfOk result (λ event. (begun : ℕ) × StandsFor info (lay anchor ∷ calls)
            (record { event = laid_in event; begun = begun } ∷ air) self.new) }
    {
        self.pack_next(anchor)
    }

    /// Lays the next event as `pack_event` does, its PDUs in the place of others, and answers the times of the units that were left
    /// out of it as stale. Want of memory changes nothing but the PDUs.
    pub fn pack_event_in(&mut self, anchor: u64, pdus: &mut LaidPdus) -> Result<Times, Memory>
        ensures info { self.new.info ≡ self.old.info }
        ensures err { OnErr result (self.new ≡ self.old) }
        ensures count { OnOk result (length pdus.new ≡ self.old.info.bn) }
        ensures laid { (info : BigInfo) (calls : List Call) (air : Air) → StandsFor info calls air self.old
            → IfOk result (λ stale. (begun : ℕ) × StandsFor info (lay anchor ∷ calls)
            (record { event = record { pdus = pdus.new; stale = stale }; begun = begun } ∷ air) self.new) }
    {
        self.pack_next_in(anchor, pdus)
    }

    fn pack_next_in(&mut self, anchor: u64, pdus: &mut LaidPdus) -> Result<Times, Memory>
        ensures info { self.new.info ≡ self.old.info }
        ensures err { OnErr result (self.new ≡ self.old) }
        ensures count { OnOk result (length pdus.new ≡ self.old.info.bn) }
        ensures laid { (units : List Timed) (earlier : List Act) → self.old.units ≡ drop (done earlier) units
            → self.old.sent ≡ sent_by earlier
            → room self.old.info.max_pdu earlier ≡ self.old.info.max_pdu
            → IfOk result (λ stale. (own : List Act) × IsEvent self.old.info units anchor earlier own
            × (event_of units anchor earlier (ends ∷ own) ≡ record { pdus = pdus.new; stale = stale })
            × (self.new ≡ record self.old { units = drop (done (own ++ earlier)) units; sent = sent_by (own ++ earlier) })) }
    {
        let packing = self.packed(anchor, pdus)?;
        Ok(self.take_packed(packing))
    }

    fn pack_next(&mut self, anchor: u64) -> Result<EventLaid, Memory>
        ensures info { self.new.info ≡ self.old.info }
        ensures err { OnErr result (self.new ≡ self.old) }
        ensures count { IfOk result (λ event. length event.pdus ≡ self.old.info.bn) }
        ensures laid { (units : List Timed) (earlier : List Act) → self.old.units ≡ drop (done earlier) units
            → self.old.sent ≡ sent_by earlier
            → room self.old.info.max_pdu earlier ≡ self.old.info.max_pdu
            → IfOk result (λ event. (own : List Act) × IsEvent self.old.info units anchor earlier own
            × (laid_in event ≡ event_of units anchor earlier (ends ∷ own))
            × (self.new ≡ record self.old { units = drop (done (own ++ earlier)) units; sent = sent_by (own ++ earlier) })) }
    {
        let mut laid = LaidPdus::new(self.alloc);
        let packing = self.packed(anchor, &mut laid)?;
        let pdus = laid.copied()?;
        let stale = self.take_packed(packing);
        Ok(EventLaid { pdus, stale })
    }

    /// Takes what was laid out of the queue, and answers the times of the units that were left out.
    fn take_packed(&mut self, packing: Packing) -> Times
        requires { IsPartly packing.sent (drop packing.past self.old.units) }
        ensures stale { result ≡ packing.stale }
        ensures left { self.new ≡ record self.old { units = drop packing.past self.old.units; sent = packing.sent } }
    {
        pop_units(&mut self.queue, packing.past, &mut self.spares);
        self.sent = packing.sent;
        packing.stale
    }

    /// What the next event takes of the units that wait, and its PDUs in the place of others.
    fn packed(&self, anchor: u64, pdus: &mut LaidPdus) -> Result<Packing, Memory>
        ensures partly { IfOk result (λ packing. IsPartly packing.sent (drop packing.past self.now.units)) }
        ensures count { OnOk result (length pdus.new ≡ self.now.info.bn) }
        ensures laid { (units : List Timed) (earlier : List Act) → self.now.units ≡ drop (done earlier) units
            → self.now.sent ≡ sent_by earlier
            → room self.now.info.max_pdu earlier ≡ self.now.info.max_pdu
            → IfOk result (λ packing. (own : List Act) × IsEvent self.now.info units anchor earlier own
            × (record { pdus = pdus.new; stale = packing.stale } ≡ event_of units anchor earlier (ends ∷ own))
            × (drop packing.past self.now.units ≡ drop (done (own ++ earlier)) units)
            × (packing.sent ≡ sent_by (own ++ earlier))) }
    {
        let mut packing = Packing {
            pdu: FramedPdu::new(self.group.info.max_pdu),
            past: 0,
            sent: self.sent,
            stale: Times::new(self.alloc),
        };
        pack_pdus(&self.group, &self.queue, anchor, &mut packing, pdus)?;
        Ok(packing)
    }
}

/// Takes the first `count` units out of the queue, and keeps the memory of their octets.
fn pop_units(queue: &mut VecDeque<Unit>, count: usize, spares: &mut SpareOctets)
    ensures { queue.new.items ≡ drop count queue.old.items }
{
    'units: for _ in 0..count {
        pop_unit(queue, spares);
    }
}

/// Takes the first unit out of the queue, where there is one, and keeps the memory of its octets.
fn pop_unit(queue: &mut VecDeque<Unit>, spares: &mut SpareOctets)
    ensures { queue.new.items ≡ drop 1 queue.old.items }
{
    if let Some(unit) = queue.pop_front() {
        let _ = spares.keep(unit.octets);
    }
}

/// Whether a time is above the last one, if there is one.
fn is_above(last: Option<u64>, time: u64) -> bool
    ensures { IsTrue result ↔ Above last time }
{
    match last {
        Some(last) => last < time,
        None => true,
    }
}

/// Whether a time is past a limit, if there is one.
fn is_past(limit: Option<u64>, time: u64) -> bool
    ensures { IsTrue result ↔ (¬ NotPast limit time) }
{
    match limit {
        Some(limit) => limit < time,
        None => false,
    }
}
