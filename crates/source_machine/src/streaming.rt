ghost use Rattle.std.specs.Prelude.{◌≡◌, ◌≤◌, ◌<◌, ◌+◌, ◌-◌, ◌*◌, ◌%◌, ◌^◌, ◌∷◌, ◌↔◌, ℕ, List};
ghost use Rattle.std.specs.Prelude.{length, Option, Some, None, is_some, true, false, IfOk, IfErr, IsTrue, OnOk, OnErr};
ghost use Rattle.std.specs.Option.{option_map};
ghost use Rattle.announcement_train.specs.Layout.{IsTrain};
ghost use Rattle.announcement_train.specs.Told.{Tells};
ghost use Rattle.big_info.specs.Schedule.{horizon_of};
ghost use Rattle.big_info.specs.Time.{iso_us_of};
ghost use Rattle.big_info.specs.Widths.{FitsWidths};
ghost use Rattle.iso_pdu.specs.Control.{terminate};
ghost use Rattle.iso_pdu.specs.Layout.{control};
ghost use Rattle.iso_pdu.specs.Encoding.{pdu};
ghost use Rattle.sync_reference.specs.Reference.{anchor_of};
ghost use Rattle.isoal_base.specs.Air.{Air};
ghost use Rattle.source_machine.specs.Airs.{AreAirs};
ghost use Rattle.source_machine.specs.Calls.{Call, give as gives, next_anchor_of, next_of};
ghost use Rattle.source_machine.specs.Faults.{announce_fault, answer_of, give_fault, misfit_of, refused_train, refused_unit};
ghost use Rattle.source_machine.specs.Setups.{IsChecked};
ghost use Rattle.source_machine.specs.State.Sources.{StandsFor, anchor_in, configured_in, group_in};
ghost use Rattle.source_machine.specs.State.Streams.{IsAsSetUp, IsFit, LaysNext, MayPerform, Performs, Refuses, limit_of};
ghost use Rattle.source_machine.specs.declared.fault.AnnounceFault.TheVariants.{Memory as AnnounceMemory};
ghost use Rattle.source_machine.specs.declared.fault.GiveFault.TheVariants.{Memory as GiveMemory, NoSuchBis};

use crate::configured::SourceConfigured;
use crate::fault::{AnnounceFault, EventFault, GiveFault};
use crate::laying::Laying;
use crate::sent::{Sent, StaleList};
use crate::setup::{Identity, Plan};
use crate::stream::{Stream, lay_all, sent_pdus};
use announcement_train::{Train, an_announcement_is_read};
use bcast_base::{Bis, Memory};
use big_info::{BigInfo, Group};
use iso_pdu::write_terminate;
use std::alloc::Global;
use std::marker::Model;
use sync_reference::anchor;

/// The number that no payload reaches.
const COUNTER_END: u64 = 1 << 39;

/// A source between its start and its stop (Core 5.2, volume 6 part B, section 4.4.6, and part G, section 2): the units
/// that wait, and the events that are laid ahead.
///
/// After an event that wanted memory the source has failed: each later unit and event wants memory at once.
#[derive(Drop)]
pub struct SourceStreaming {
    pub(crate) alloc: Global,
    pub(crate) plan: Plan,
    pub(crate) first: u64,
    pub(crate) next: u64,
    pub(crate) streams: Vec<Stream>,
    pub(crate) has_failed: bool,
}

impl Model for SourceStreaming {
    ghost use Rattle.source_machine.specs.State.Sources.{Source};
    ghost use Rattle.source_machine.specs.State.Streams.{IsSource};

    ghost Value = { Source };

    ghost view = { λ s. record {
      identity = s.plan.identity;
      base = s.plan.base;
      cipher = s.plan.cipher;
      setup = record { info = s.plan.group.info; origin = s.plan.origin; delay = s.plan.base.delay; first = s.first; ahead = s.plan.ahead };
      next = s.next;
      streams = s.streams.items;
      failed = s.has_failed;
    } };

    ghost invariant = { λ s. IsSource (record {
      identity = s.plan.identity;
      base = s.plan.base;
      cipher = s.plan.cipher;
      setup = record { info = s.plan.group.info; origin = s.plan.origin; delay = s.plan.base.delay; first = s.first; ahead = s.plan.ahead };
      next = s.next;
      streams = s.streams.items;
      failed = s.has_failed;
    }) };
}

impl SourceStreaming {
    /// Gives a unit to a stream, where it waits for its slot or its start. In an unframed group it has no time of its own, in
    /// a framed one it has a time in µs.
    ///
    /// The first refusal that holds is answered: NoSuchBis where the group has no such stream, UnitTooLong above Max_SDU
    /// octets, TimeOrder where a time is given in an unframed group, or in a framed one where none is given, it isn't above
    /// that of the last unit of the stream, or it is past the next anchor without limits that let times be ahead, Backlog
    /// where 16 units of the stream wait. A refused unit changes nothing. A source that has failed answers Memory. A source
    /// of an encrypted group takes no unit.
    pub fn give(&mut self, bis: Bis, time: Option<u64>, octets: &[u8]) -> Result<(), GiveFault>
        requires { self.old.cipher ≡ None }
        ensures identity { self.new.identity ≡ self.old.identity }
        ensures announced { (self.new.base ≡ self.old.base) × (self.new.cipher ≡ self.old.cipher) }
        ensures setup { self.new.setup ≡ self.old.setup }
        ensures next { self.new.next ≡ self.old.next }
        ensures ok { OnOk result ((calls : List Call) → StandsFor calls self.old → StandsFor (gives bis time octets.now ∷ calls) self.new) }
        ensures accepted { OnOk result ((calls : List Call) (airs : List Air) → StandsFor calls self.old → AreAirs self.old.setup calls airs
            → give_fault self.old.setup calls airs bis time octets.now ≡ None) }
        ensures err { OnErr result (self.new ≡ self.old) }
        ensures cause { IfErr result (λ fault. (calls : List Call) (airs : List Air) → StandsFor calls self.old
            → AreAirs self.old.setup calls airs
            → give_fault self.old.setup calls airs bis time octets.now ≡ refused_unit fault) }
        // Of a stream of the group the answer is another than NoSuchBis.
        ensures stream { IfErr result (λ fault. fault ≡ NoSuchBis → self.old.setup.info.num_bis < bis) }
        ensures failed { self.old.failed ≡ true → IfErr result (λ fault. fault ≡ GiveMemory) }
        ensures works { OnOk result (self.old.failed ≡ false) }
        ensures checked { IsChecked self.old.setup.info }
    {
        if self.has_failed {
            return Err(GiveFault::Memory);
        }
        self.check_unit(bis, octets)?;
        let limit = self.limit();
        self.streams[usize::from(bis.get() - 1)].give(time, limit, octets)?;
        Ok(())
    }

    /// Why a unit would be refused however few wait: the first of NoSuchBis, UnitTooLong and TimeOrder that holds, as `give` has them.
    pub fn misfit(&self, bis: Bis, time: Option<u64>, octets: &[u8]) -> Option<GiveFault>
        ensures { (calls : List Call) → StandsFor calls self.now
            → result ≡ option_map answer_of (misfit_of self.now.setup calls bis time octets.now) }
    {
        match self.check_unit(bis, octets) {
            Ok(()) => {}
            Err(fault) => return Some(fault),
        }
        let limit = self.limit();
        if !self.streams[usize::from(bis.get() - 1)].has_time(time, limit) {
            return Some(GiveFault::TimeOrder);
        }
        None
    }

    /// Performs the next event: lays it and the H events behind it, as far as they aren't laid, and answers what it
    /// sends, and the units that were left out of the events that were laid: by rising index and in order.
    ///
    /// CounterEnds comes exactly where the payload numbers of these events would pass 2^39, and changes nothing. After
    /// want of memory the source has failed, and the next event is as before. A source that has failed answers Memory. A
    /// source of an encrypted group performs none.
    pub fn event(&mut self) -> Result<Sent, EventFault>
        requires { self.old.cipher ≡ None }
        ensures same { IsAsSetUp self.old self.new }
        ensures permitted { OnOk result (MayPerform self.old) }
        ensures performed { IfOk result (λ sent. Performs self.old self.new sent) }
        ensures refused { IfErr result (λ fault. Refuses self.old self.new fault) }
        ensures checked { IsChecked self.old.setup.info }
    {
        if self.has_failed {
            return Err(EventFault::Memory);
        }
        if !self.has_numbers() {
            return Err(EventFault::CounterEnds);
        }
        match self.perform() {
            Ok(sent) => Ok(sent),
            Err(Memory) => {
                self.has_failed = true;
                Err(EventFault::Memory)
            }
        }
    }

    /// Announces the next event: its Broadcast_ID, its BASE, and the BIGInfo of that event, 3,000 µs before its anchor
    /// (Basic Audio Profile 1.0, section 3.7.2, and Core 5.2, volume 6 part B, section 4.4.6.11).
    ///
    /// CounterEnds comes exactly where the payload count of the event, which is its number × BN, is 2^39 or more. A source
    /// that has failed answers Memory.
    pub fn announce(&self) -> Result<Train, AnnounceFault>
        ensures train { IfOk result (λ train. IsTrain self.now.identity.broadcast_id self.now.base (group_in self.now) self.now.next
            (anchor_in self.now) train) }
        ensures told { IfOk result (λ train. Tells train self.now.identity.broadcast_id self.now.base (group_in self.now) self.now.next
            (anchor_in self.now)) }
        ensures ok { OnOk result ((calls : List Call) → StandsFor calls self.now → announce_fault self.now.setup calls ≡ None) }
        ensures cause { IfErr result (λ fault. (calls : List Call) → StandsFor calls self.now
            → announce_fault self.now.setup calls ≡ refused_train fault) }
        ensures failed { self.now.failed ≡ true → IfErr result (λ fault. fault ≡ AnnounceMemory) }
    {
        an_announcement_is_read();
        if self.has_failed {
            return Err(AnnounceFault::Memory);
        }
        let info = self.group_info();
        let event = self.next;
        if event * u64::from(info.bn) >= COUNTER_END {
            return Err(AnnounceFault::CounterEnds);
        }
        let train = Train::of_event(
            self.alloc,
            self.plan.identity.broadcast_id,
            &self.plan.base,
            &info,
            event,
            self.next_anchor(),
        )?;
        Ok(train)
    }

    /// The numbers of the group, and its cipher.
    fn group_info(&self) -> BigInfo
        ensures info { result ≡ group_in self.now }
        ensures widths { FitsWidths result }
        ensures some { 1 ≤ result.bn }
    {
        BigInfo {
            cipher: self.plan.cipher,
            ..self.plan.group.info
        }
    }

    /// Whether the group is encrypted. Such a source is announced alone.
    pub fn is_ciphered(&self) -> bool
        ensures { result ≡ is_some self.now.cipher }
    {
        self.plan.cipher.is_some()
    }

    /// The PDU that ends the group for this reason at the next event (Core 5.2, volume 6 part B, section 2.6.3).
    pub fn terminate_pdu(&self, reason: u8) -> [u8; 6]
        ensures { result ≡ pdu (control (terminate reason (self.now.next % 2 ^ 16))) }
    {
        write_terminate(reason, (self.next % (1 << 16)) as u16)
    }

    /// Who the source is.
    pub fn identity(&self) -> Identity
        ensures { result ≡ self.now.identity }
    {
        self.plan.identity
    }

    /// The group.
    pub fn group(&self) -> &Group
        ensures { result.now.info ≡ self.now.setup.info }
    {
        &self.plan.group
    }

    /// The presentation delay in µs.
    pub fn delay(&self) -> u32
        ensures delay { result ≡ self.now.setup.delay }
        ensures within { result < 2 ^ 24 }
    {
        self.plan.base.delay()
    }

    /// The next event.
    pub fn next_event(&self) -> u64
        ensures next { result ≡ self.now.next }
        ensures calls { (calls : List Call) → StandsFor calls self.now → result ≡ next_of self.now.setup calls }
        ensures least { self.now.setup.first ≤ result }
        ensures greatest { result ≤ 2 ^ 39 }
    {
        self.next
    }

    /// The anchor of the next event, in µs.
    pub fn next_anchor(&self) -> u64
        ensures anchor { result ≡ anchor_of self.now.setup.origin self.now.setup.first self.now.next (iso_us_of self.now.setup.info) }
        ensures calls { (calls : List Call) → StandsFor calls self.now → result ≡ next_anchor_of self.now.setup calls }
        ensures greatest { result ≤ 2 ^ 61 }
    {
        anchor(
            self.plan.origin,
            self.first,
            self.next,
            self.plan.group.iso_us(),
        )
    }

    /// Stops the source, which keeps its group. It takes no memory.
    pub fn stop(self) -> SourceConfigured
        ensures { result ≡ configured_in self }
    {
        SourceConfigured {
            alloc: self.alloc,
            plan: self.plan,
        }
    }

    /// Lays the next event and the H events behind it, and counts it.
    fn perform(&mut self) -> Result<Sent, Memory>
        requires { self.old.next < 2 ^ 39 }
        ensures performed { IfOk result (λ sent. Performs self.old self.new sent) }
        ensures same { IsAsSetUp self.old self.new }
        ensures uncounted { OnErr result (self.new.next ≡ self.old.next) }
    {
        let laying = self.next_laying();
        let mut stale = StaleList::new(self.alloc);
        lay_all(&mut self.streams, laying, &mut stale)?;
        let plan = &self.plan;
        let pdus = sent_pdus(self.alloc, &plan.group, self.streams.as_slice())?;
        let event = self.next;
        self.next += 1;
        Ok(Sent { event, pdus, stale })
    }

    /// Tests the stream and the length of a unit.
    fn check_unit(&self, bis: Bis, octets: &[u8]) -> Result<(), GiveFault>
        ensures ok { OnOk result (IsFit self.now.setup bis octets.now) }
        ensures err { IfErr result (λ fault. (calls : List Call) (airs : List Air) (time : Option ℕ)
            → give_fault self.now.setup calls airs bis time octets.now ≡ refused_unit fault) }
        ensures misfit { IfErr result (λ fault. (calls : List Call) (time : Option ℕ)
            → Some fault ≡ option_map answer_of (misfit_of self.now.setup calls bis time octets.now)) }
        ensures stream { IfErr result (λ fault. fault ≡ NoSuchBis → self.now.setup.info.num_bis < bis) }
    {
        if bis.get() > self.plan.group.info.num_bis {
            return Err(GiveFault::NoSuchBis);
        }
        if octets.len() > usize::from(self.plan.group.info.max_sdu) {
            return Err(GiveFault::UnitTooLong);
        }
        Ok(())
    }

    /// The time that a unit's time may not pass, where there is one.
    fn limit(&self) -> Option<u64>
        ensures { result ≡ limit_of self.now }
    {
        if self.plan.ahead {
            None
        } else {
            Some(self.next_anchor())
        }
    }

    /// Whether the payload counter has numbers for the next event and the H events behind it.
    pub(crate) fn has_numbers(&self) -> bool
        ensures numbers { IsTrue result ↔ ((self.now.next + horizon_of self.now.setup.info + 1) * self.now.setup.info.bn ≤ 2 ^ 39) }
        ensures next { IsTrue result → self.now.next < 2 ^ 39 }
    {
        let laid = self.next + u64::from(self.plan.group.horizon()) + 1;
        laid * u64::from(self.plan.group.info.bn) <= COUNTER_END
    }

    /// The events that are laid with the next one.
    pub(crate) fn next_laying(&self) -> Laying
        requires { self.now.next < 2 ^ 39 }
        ensures { LaysNext self.now result }
    {
        let horizon = self.plan.group.horizon();
        let iso_us = self.plan.group.iso_us();
        if self.next == self.first {
            return Laying {
                count: horizon + 1,
                anchor: self.plan.origin,
                iso_us,
            };
        }
        Laying {
            count: 1,
            anchor: anchor(
                self.plan.origin,
                self.first,
                self.next + u64::from(horizon),
                iso_us,
            ),
            iso_us,
        }
    }
}
