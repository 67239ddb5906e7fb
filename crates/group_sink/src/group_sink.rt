ghost use Rattle.std.specs.Prelude.{◌≡◌, ◌≤◌, ◌<◌, ◌^◌, List, [], ◌∷◌, MatchResult, OnOk, OnErr};
ghost use Rattle.unit_outlets.specs.Handed.{Caused, HandsOver};
ghost use Rattle.group_sink.specs.Calls.{Call, tune, hear, tick, leave, heard_calls};
ghost use Rattle.sync_reference.specs.BigSync.{BigSync};
ghost use Rattle.group_sink.specs.Handing.{handed_at};
ghost use Rattle.group_sink.specs.Hearings.{hearing_of};
ghost use Rattle.group_sink.specs.State.Sinks.{StandsFor};
ghost use Rattle.group_sink.specs.State.Steps.{AreFor};

use crate::group_receivers::GroupReceivers;
use bcast_base::{Bis, Memory};
use isoal_base::Hearing;
use radio_schedule::StreamEvent;
use std::alloc::Global;
use std::marker::Model;
use sync_reference::BigSync;
use unit_outlets::{TakerFault, UnitTaker};

/// A sink. It is idle, or on a group.
#[derive(Drop)]
pub struct GroupSink {
    alloc: Global,
    group: Option<GroupReceivers>,
}

impl Model for GroupSink {
    ghost use Rattle.std.specs.Prelude.{Option};
    ghost use Rattle.group_sink.specs.State.Sinks.{OnGroup};

    ghost Value = { Option OnGroup };

    ghost view = { λ a. a.group };
}

impl GroupSink {
    /// A sink that is on no group. It takes no memory.
    pub fn new(alloc: Global) -> GroupSink
        ensures { StandsFor [] result }
    {
        GroupSink { alloc, group: None }
    }

    /// The receivers of a group that the sink is to be put on. No streams take no memory.
    pub fn receivers(&self, big_sync: &BigSync) -> Result<GroupReceivers, Memory>
        ensures { MatchResult result (λ receivers. AreFor big_sync.now receivers) (λ _. 0 < big_sync.now.which) }
    {
        GroupReceivers::new(self.alloc, big_sync)
    }

    /// Puts the sink on the group that these receivers are for. It leaves what it was on, and what it held is dropped. It takes
    /// no memory.
    pub fn sync_to_group(&mut self, receivers: GroupReceivers)
        ensures { (big_sync : BigSync) (calls : List Call) → AreFor big_sync receivers → StandsFor (tune big_sync ∷ calls) self.new }
    {
        self.group = Some(receivers);
    }

    /// Takes the sink off the group that it is on, and what it held is dropped. It takes no memory.
    pub fn leave(&mut self)
        ensures { (calls : List Call) → StandsFor (leave ∷ calls) self.new }
    {
        self.group = None;
    }

    /// Puts the sink on a group. It leaves what it was on, and what it held is dropped.
    ///
    /// After want of memory the sink is as before. No streams take no memory.
    pub fn tune(&mut self, big_sync: &BigSync) -> Result<(), Memory>
        ensures stands { (calls : List Call) → OnOk result (StandsFor (tune big_sync.now ∷ calls) self.new) }
        ensures err { OnErr result (self.new ≡ self.old) }
        ensures some { OnErr result (0 < big_sync.now.which) }
    {
        let receivers = self.receivers(big_sync)?;
        self.sync_to_group(receivers);
        Ok(())
    }

    /// Hears a PDU in a subevent, from 0, of an event of a stream (Core 5.2, volume 6 part B, section 4.4.6), and answers
    /// the first that holds: the sink is on no group; it doesn't take the stream; the subevent carries no payload; else
    /// what the stream's receiver makes of it. It takes no memory.
    pub fn hear(&mut self, event: u64, bis: Bis, subevent: u8, pdu: &[u8]) -> Hearing
        requires { event ≤ 2 ^ 39 }
        ensures answer { (calls : List Call) → StandsFor calls self.old → result ≡ hearing_of calls event bis subevent pdu.now }
        ensures stands { (calls : List Call) → StandsFor calls self.old → StandsFor (hear event bis subevent pdu.now ∷ calls) self.new }
    {
        let Some(on) = &mut self.group else {
            return Hearing::NotOnGroup;
        };
        on.hear(event, bis, subevent, pdu)
    }

    /// Hears what the subevents of an event of a stream bring, from subevent 0 on, as `hear` does each PDU that isn't lost. It takes
    /// no memory.
    #[inline(always)]
    pub fn hear_event<E: StreamEvent>(&mut self, event: u64, bis: Bis, sent: &E)
        requires { event ≤ 2 ^ 39 }
        ensures { (calls : List Call) → StandsFor calls self.old → StandsFor (heard_calls event bis (E.pdus sent.now) calls) self.new }
    {
        let Some(on) = &mut self.group else {
            return;
        };
        on.hear_event(event, bis, sent);
    }

    /// What `hear` would answer. It changes nothing.
    pub fn would_answer(&self, event: u64, bis: Bis, subevent: u8, pdu: &[u8]) -> Hearing
        requires { event ≤ 2 ^ 39 }
        ensures { (calls : List Call) → StandsFor calls self.now → result ≡ hearing_of calls event bis subevent pdu.now }
    {
        let Some(on) = &self.group else {
            return Hearing::NotOnGroup;
        };
        on.would_answer(event, bis, subevent, pdu)
    }

    /// All events up to this one are over: closes the open event of each stream where it is at most this event, and hands
    /// its units, the streams by rising index. After a fault of the taker no unit more is handed, and the event is closed
    /// for each stream. It takes no memory.
    pub fn tick<T: UnitTaker>(&mut self, event: u64, taker: &mut T) -> Result<(), TakerFault>
        requires { event < 2 ^ 39 }
        ensures hands { (calls : List Call) → StandsFor calls self.old
            → HandsOver (handed_at calls event) (T.calls taker.old) (T.calls taker.new) result }
        ensures stands { (calls : List Call) → StandsFor calls self.old → StandsFor (tick event ∷ calls) self.new }
        ensures cause { Caused (T.counts taker.old) (T.counts taker.new) result }
    {
        let Some(on) = &mut self.group else {
            return Ok(());
        };
        on.tick(event, taker)
    }
}
