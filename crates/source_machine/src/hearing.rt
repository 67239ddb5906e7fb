ghost use Rattle.std.specs.Prelude.{ℕ, ◌≡◌, ◌≢◌, ◌≤◌, ◌<◌, ◌-◌, ◌^◌, List, map, None, Some, false};
ghost use Rattle.std.specs.Prelude.{IfOk, IfErr, IfNone, IfSome, OnOk, OnErr, OnSome};
ghost use Rattle.std.specs.List.{range_with_len};
ghost use Rattle.isoal_base.specs.Air.{Air};
ghost use Rattle.source_machine.specs.Airs.{AreAirs, pdu_of};
ghost use Rattle.source_machine.specs.Calls.{Call, next_of};
ghost use Rattle.source_machine.specs.Faults.{air_fault};
ghost use Rattle.source_machine.specs.Setups.{IsChecked};
ghost use Rattle.source_machine.specs.State.Sources.{StandsFor};
ghost use Rattle.source_machine.specs.State.Streams.{Advances, IsAsSetUp, MayPerform, Refuses};

use crate::fault::EventFault;
use crate::sent::StaleList;
use crate::sent_stream::SentStream;
use crate::stream::lay_all;
use crate::streaming::SourceStreaming;
use bcast_base::{Bis, Memory};
use radio_schedule::AirFault;

impl SourceStreaming {
    /// Performs the next event as `event` does, and copies none of its PDUs, which `heard_at` lends. It answers the units that
    /// were left out of the events that were laid: by rising index and in order.
    ///
    /// CounterEnds and want of memory come as from `event`. A source of an encrypted group performs none.
    pub fn advance(&mut self) -> Result<StaleList, EventFault>
        requires { self.old.cipher ≡ None }
        ensures same { IsAsSetUp self.old self.new }
        ensures permitted { OnOk result (MayPerform self.old) }
        ensures advanced { IfOk result (λ stale. Advances self.old self.new stale) }
        ensures refused { IfErr result (λ fault. Refuses self.old self.new fault) }
        ensures checked { IsChecked self.old.setup.info }
    {
        if self.has_failed {
            return Err(EventFault::Memory);
        }
        if !self.has_numbers() {
            return Err(EventFault::CounterEnds);
        }
        match self.lay_next() {
            Ok(stale) => Ok(stale),
            Err(Memory) => {
                self.has_failed = true;
                Err(EventFault::Memory)
            }
        }
    }

    /// The PDU of a stream that was sent in a subevent, from 0, of the event `back` events before the last one
    /// (Core 5.2, volume 6 part B, section 4.4.6).
    ///
    /// The first refusal that holds is answered: NoSuchBis and NoSuchSubevent where the group has no such stream or
    /// subevent, NotOnAir where fewer than `back` + 1 events were performed, or the source has failed.
    pub fn heard_at(&self, back: u8, bis: Bis, subevent: u8) -> Result<&[u8], AirFault>
        requires { back ≤ 31 }
        ensures ok { IfOk result (λ pdu. (calls : List Call) (airs : List Air) → StandsFor calls self.now
            → AreAirs self.now.setup calls airs
            → (air_fault self.now.setup calls back bis subevent ≡ None)
            × (pdu_of self.now.setup airs (next_of self.now.setup calls - 1 - back) bis subevent ≡ Some pdu.now)) }
        ensures err { IfErr result (λ fault. (calls : List Call) → StandsFor calls self.now
            → air_fault self.now.setup calls back bis subevent ≡ Some fault) }
        ensures works { OnOk result (self.now.failed ≡ false) }
        ensures checked { IsChecked self.now.setup.info }
    {
        let info = &self.plan.group.info;
        if bis.get() > info.num_bis {
            return Err(AirFault::NoSuchBis);
        }
        if subevent >= info.nse {
            return Err(AirFault::NoSuchSubevent);
        }
        if self.has_failed || self.next - self.first <= u64::from(back) {
            return Err(AirFault::NotOnAir);
        }
        let stream = &self.streams[usize::from(bis.get() - 1)];
        Ok(stream.sent(&self.plan.group, back, subevent))
    }

    /// The PDUs that a stream sent in the subevents of the last event (Core 5.2, volume 6 part B, section 4.4.6).
    ///
    /// None comes exactly where `heard_at` refuses each place of that event and stream: where the group has no such stream, no event
    /// was performed, or the source has failed.
    #[inline(always)]
    pub fn sent_on(&self, bis: Bis) -> Option<SentStream<'_>>
        ensures sent { IfSome result (λ sent. (calls : List Call) (airs : List Air) → StandsFor calls self.now
            → AreAirs self.now.setup calls airs
            → map Some sent ≡ map (pdu_of self.now.setup airs (next_of self.now.setup calls - 1) bis)
            (range_with_len 0 self.now.setup.info.nse)) }
        ensures on_air { OnSome result ((calls : List Call) → StandsFor calls self.now
            → (s : ℕ) → s < self.now.setup.info.nse → air_fault self.now.setup calls 0 bis s ≡ None) }
        ensures none { IfNone result ((calls : List Call) → StandsFor calls self.now
            → (s : ℕ) → air_fault self.now.setup calls 0 bis s ≢ None) }
        ensures works { OnSome result (self.now.failed ≡ false) }
        ensures checked { IsChecked self.now.setup.info }
    {
        let group = &self.plan.group;
        if bis.get() > group.info.num_bis || self.has_failed || self.next == self.first {
            return None;
        }
        let stream = &self.streams[usize::from(bis.get() - 1)];
        Some(stream.sent_last(group, &self.plan.carried))
    }

    /// Lays the next event and the H events behind it, and counts it.
    fn lay_next(&mut self) -> Result<StaleList, Memory>
        requires { self.old.next < 2 ^ 39 }
        ensures advanced { IfOk result (λ stale. Advances self.old self.new stale) }
        ensures same { IsAsSetUp self.old self.new }
        ensures uncounted { OnErr result (self.new.next ≡ self.old.next) }
    {
        let laying = self.next_laying();
        let mut stale = StaleList::new(self.alloc);
        lay_all(&mut self.streams, laying, &mut stale)?;
        self.next += 1;
        Ok(stale)
    }
}
