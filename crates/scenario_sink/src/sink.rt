ghost use Rattle.std.specs.Prelude.{◌≡◌, ◌≤◌, ◌<◌, ◌^◌, IfOk, OnOk};
ghost use Rattle.delegator_machine.specs.State.Halves.{StandsFor};
ghost use Rattle.group_sink.specs.Calls as sinks;
ghost use Rattle.group_sink.specs.Handing.{handed_at};
ghost use Rattle.group_sink.specs.Hearings.{hearing_of};
ghost use Rattle.unit_outlets.specs.Handed.{HandsOver, Caused};
ghost use Rattle.multi_assist.specs.Mtus.{IsMtu};
ghost use Rattle.scenario_sink.specs.State.Untold.{its_mtu};

use bcast_base::{Bis, Memory};
use big_info::Limits;
use delegator_control::KeptBase;
use delegator_machine::Delegator;
use isoal_base::Hearing;
use multi_assist::Links;
use radio_schedule::StreamEvent;
use sink_history::a_step_notifies_each_link;
use std::alloc::Global;
use sync_reference::BigSync;
use unit_outlets::{TakerFault, UnitTaker};

/// A sink of a scenario: a Scan Delegator with the assistants on its four links, numbered from 0, and the source that it is of:
/// the one of the last line that synchronized it to a train or a BIG (Basic Audio Profile 1.0, section 6.5; Broadcast Audio Scan
/// Service 1.0, section 3). Between two calls every notice of the delegator waits on the links. Link 0 is always joined.
///
/// After want of memory nothing is said of it: it may be dropped, and the scenario in which it is ends.
#[derive(Drop)]
pub struct LinkedSink {
    pub(crate) alloc: Global,
    pub(crate) delegator: Delegator,
    pub(crate) links: Links,
    pub(crate) slots: u8,
    pub(crate) source: Option<u8>,
    /// The BASE of the last train.
    pub(crate) kept: KeptBase,
    ghost fits: { delegator.scan.setup.slots ≡ slots },
    ghost few: { slots ≤ 8 },
}

impl LinkedSink {
    ghost use Rattle.sink_history.specs.Calls.{Call};
    ghost use Rattle.scenario_sink.specs.SinkHistory.{SinkHistory, after_tuning, hearing_event, new_sink, receiving};
    ghost use Rattle.scenario_sink.specs.State.Stands.{HasStepped, IsSink, Stands, after_call};

    /// A sink that takes so many streams at once, 1 to 31, with so many slots, 1 to 8, that are empty, on groups that send a
    /// payload at most so many events ahead, up to 31, and this MTU on every link, 23 to 517, where it has one. It is idle and of
    /// no source, and an assistant is on link 0 alone.
    pub fn new(
        alloc: Global,
        streams: u8,
        slots: u8,
        horizon: u8,
        mtu: Option<u16>,
    ) -> Result<LinkedSink, Memory>
        requires least_streams { 1 ≤ streams }
        requires most_streams { streams ≤ 31 }
        requires least_slots { 1 ≤ slots }
        requires few { slots ≤ 8 }
        requires horizon { horizon ≤ 31 }
        requires mtu { IsMtu mtu }
        ensures { IfOk result (IsSink (new_sink (record {
          setup = record { streams = streams; slots = slots; horizon = horizon };
          mtu = mtu;
        }))) }
    {
        let limits = Limits {
            horizon,
            ahead: Limits::VERSION_1.ahead,
        };
        a_step_notifies_each_link();
        let links = Links::new(alloc, slots, mtu)?;
        let delegator = delegator_with(alloc, streams, slots, limits, mtu)?;
        Ok(LinkedSink {
            alloc,
            delegator,
            links,
            slots,
            source: None,
            kept: KeptBase::new(alloc),
        })
    }

    /// The source that it is of.
    pub fn source(&self) -> Option<u8>
        ensures { (history : SinkHistory) → IsSink history self.now → result ≡ history.source }
    {
        self.source
    }

    /// Puts the sink on the group of a source, of no slot. It leaves what it was on.
    pub fn tune(&mut self, source: u8, big_sync: &BigSync) -> Result<(), Memory>
        ensures { (history : SinkHistory) → IsSink history self.old → OnOk result (IsSink (after_tuning source big_sync.now history) self.new) }
    {
        self.delegator.sync_to_group(big_sync)?;
        self.gather()?;
        self.source = Some(source);
        Ok(())
    }

    /// Hears a PDU in a subevent, from 0, of an event of a stream (Core 5.2, volume 6 part B, section 4.4.6). It takes no memory.
    pub fn hear(&mut self, event: u64, bis: Bis, subevent: u8, pdu: &[u8]) -> Hearing
        requires { event ≤ 2 ^ 39 }
        ensures answer { (history : SinkHistory) → IsSink history self.old → result ≡ hearing_of history.received event bis subevent pdu.now }
        ensures lives { (history : SinkHistory) → IsSink history self.old → IsSink (receiving (sinks.hear event bis subevent pdu.now) history) self.new }
        ensures source { self.new.source ≡ self.old.source }
    {
        self.delegator.hear(event, bis, subevent, pdu)
    }

    /// Hears what the subevents of an event of a stream bring, from subevent 0 on, as `hear` does each PDU that isn't lost. It takes
    /// no memory.
    #[inline(always)]
    pub fn hear_event<E: StreamEvent>(&mut self, event: u64, bis: Bis, sent: &E)
        requires { event ≤ 2 ^ 39 }
        ensures lives { (history : SinkHistory) → IsSink history self.old
            → IsSink (hearing_event event bis (E.pdus sent.now) history) self.new }
        ensures source { self.new.source ≡ self.old.source }
    {
        self.delegator.hear_event(event, bis, sent);
    }

    /// What `hear` would answer. It changes nothing.
    pub fn would_answer(&self, event: u64, bis: Bis, subevent: u8, pdu: &[u8]) -> Hearing
        requires { event ≤ 2 ^ 39 }
        ensures { (history : SinkHistory) → IsSink history self.now → result ≡ hearing_of history.received event bis subevent pdu.now }
    {
        self.delegator.would_answer(event, bis, subevent, pdu)
    }

    /// All events up to this one are over: closes the open event of each stream where it is at most this event, and hands its
    /// units, the streams by rising index. After a fault of the taker no unit more is handed, and the event is closed for each
    /// stream. It takes no memory.
    pub fn tick<T: UnitTaker>(&mut self, event: u64, taker: &mut T) -> Result<(), TakerFault>
        requires { event < 2 ^ 39 }
        ensures hands { (history : SinkHistory) → IsSink history self.old
            → HandsOver (handed_at history.received event) (T.calls taker.old) (T.calls taker.new) result }
        ensures lives { (history : SinkHistory) → IsSink history self.old → IsSink (receiving (sinks.tick event) history) self.new }
        ensures cause { Caused (T.counts taker.old) (T.counts taker.new) result }
        ensures source { self.new.source ≡ self.old.source }
    {
        self.delegator.tick(event, taker)
    }

    // Every notice that waits at the delegator, all of one step, goes to the links.
    pub(crate) fn gather(&mut self) -> Result<(), Memory>
        ensures stands { (call : Call) (history : SinkHistory) → HasStepped call history self.old.delegator self.old.links
            → OnOk result (Stands (after_call call history) self.new.delegator self.new.links) }
        ensures source { self.new.source ≡ self.old.source }
    {
        a_step_notifies_each_link();
        self.links.gather(&mut self.delegator)
    }
}

/// A new delegator with an MTU, where it has one.
fn delegator_with(
    alloc: Global,
    streams: u8,
    slots: u8,
    limits: Limits,
    mtu: Option<u16>,
) -> Result<Delegator, Memory>
    requires least_streams { 1 ≤ streams }
    requires most_streams { streams ≤ 31 }
    requires least_slots { 1 ≤ slots }
    requires few { slots ≤ 8 }
    requires horizon { limits.horizon ≤ 31 }
    requires mtu { IsMtu mtu }
    ensures { IfOk result (StandsFor (record { streams = streams; slots = slots; horizon = limits.horizon }) (its_mtu mtu)) }
{
    let mut delegator = Delegator::within(alloc, streams, slots, limits)?;
    let Some(mtu) = mtu else {
        return Ok(delegator);
    };
    delegator.set_mtu(mtu);
    Ok(delegator)
}
