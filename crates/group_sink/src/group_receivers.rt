ghost use Rattle.std.specs.Prelude.{◌≡◌, ◌≤◌, ◌<◌, ◌^◌, ℕ, map, MatchResult};
ghost use Rattle.std.specs.Int.{bit_at};
ghost use Rattle.std.specs.List.{flat_map};
ghost use Rattle.big_info.specs.Bounds.{Bounds};
ghost use Rattle.unit_outlets.specs.Handed.{Caused, HandsOver};
ghost use Rattle.group_sink.specs.State.Steps.{answer_on, fresh_on, hear_all_on, hear_on, owed_by, owed_on, place_on, tick_at, tick_on};

use crate::numbers::Numbers;
use crate::receiver::Receiver;
use crate::streams::{answer_in, close_by, hear_event_in, hear_in, skip_by};
use bcast_base::{Bis, BisSet, Memory};
use isoal_base::Hearing;
use radio_schedule::StreamEvent;
use std::alloc::Global;
use std::marker::Model;
use sync_reference::BigSync;
use unit_outlets::{TakerFault, UnitTaker};

/// The receivers of a sink that is on a group: one for each stream that it takes, by rising index.
#[derive(Drop)]
pub struct GroupReceivers {
    numbers: Numbers,
    /// At n the place of the receiver of the stream of index n + 1: 31, where none stands, if the stream isn't taken.
    places: [u8; 31],
    streams: Vec<Receiver>,
}

impl Model for GroupReceivers {
    ghost use Rattle.group_sink.specs.State.Sinks.{OnGroup};

    ghost Value = { OnGroup };

    ghost view = { λ a. record { info = a.numbers.group.info; places = a.places; streams = a.streams.items } };
}

impl GroupReceivers {
    /// Receivers that heard nothing yet. No streams take no memory.
    pub(crate) fn new(alloc: Global, big_sync: &BigSync) -> Result<GroupReceivers, Memory>
        ensures { MatchResult result (λ on. on ≡ fresh_on big_sync.now) (λ _. 0 < big_sync.now.which) }
    {
        let mut places = [31; 31];
        let mut streams = Vec::with_capacity(alloc, big_sync.which.count() as usize)?;
        let end = last_of(big_sync.which) + 1;
        'indices: for index in 1..end {
            let Some(bis) = Bis::new(index) else {
                continue;
            };
            if !big_sync.which.has(bis) {
                continue;
            }
            places[usize::from(index - 1)] = streams.len() as u8;
            streams.push(Receiver::new(alloc, big_sync, bis)?)?;
        }
        Ok(GroupReceivers {
            numbers: Numbers::new(&big_sync.group),
            places,
            streams,
        })
    }

    /// Hears a PDU in a subevent of an event of a stream.
    pub(crate) fn hear(&mut self, event: u64, bis: Bis, subevent: u8, pdu: &[u8]) -> Hearing
        requires { event ≤ 2 ^ 39 }
        ensures answer { result ≡ answer_on event bis subevent pdu.now self.old }
        ensures step { self.new ≡ hear_on event bis subevent pdu.now self.old }
        ensures least { 1 ≤ bis }
        ensures greatest { bis ≤ 31 }
        ensures bounds { Bounds self.old.info }
    {
        let place = self.place(bis);
        let number = self.numbers.number(event, subevent);
        hear_in(&mut self.streams, place, number, pdu)
    }

    /// Hears what the subevents of an event of a stream bring.
    #[inline(always)]
    pub(crate) fn hear_event<E: StreamEvent>(&mut self, event: u64, bis: Bis, sent: &E)
        requires { event ≤ 2 ^ 39 }
        ensures step { self.new ≡ hear_all_on event bis (E.pdus sent.now) self.old }
        ensures least { 1 ≤ bis }
        ensures greatest { bis ≤ 31 }
        ensures bounds { Bounds self.old.info }
    {
        let place = self.place(bis);
        hear_event_in(&mut self.streams, place, &self.numbers, event, sent);
    }

    /// The place of the receiver of a stream.
    fn place(&self, bis: Bis) -> usize
        ensures { result ≡ place_on bis self.now }
    {
        usize::from(self.places[usize::from(bis.get() - 1)])
    }

    /// What would be answered to a PDU in a subevent of an event of a stream.
    pub(crate) fn would_answer(&self, event: u64, bis: Bis, subevent: u8, pdu: &[u8]) -> Hearing
        requires { event ≤ 2 ^ 39 }
        ensures answer { result ≡ answer_on event bis subevent pdu.now self.now }
        ensures least { 1 ≤ bis }
        ensures greatest { bis ≤ 31 }
    {
        let place = self.place(bis);
        let number = self.numbers.number(event, subevent);
        answer_in(&self.streams, place, number, pdu)
    }

    /// Closes the open event of each stream where it is at most this event.
    pub(crate) fn tick<T: UnitTaker>(&mut self, event: u64, taker: &mut T) -> Result<(), TakerFault>
        requires { event < 2 ^ 39 }
        ensures step { self.new ≡ tick_on event self.old }
        ensures hands { HandsOver (owed_on event self.old) (T.calls taker.old) (T.calls taker.new) result }
        ensures cause { Caused (T.counts taker.old) (T.counts taker.new) result }
        ensures bounds { Bounds self.old.info }
    {
        close_all(&mut self.streams, event, taker)
    }
}

/// The greatest index of a set; 0 where it is empty.
fn last_of(which: BisSet) -> u8
    ensures greatest { result ≤ 31 }
    ensures none_above { (i : ℕ) → result ≤ i → i < 31 → bit_at which i ≡ 0 }
{
    (32 - which.bits().leading_zeros()).min(31) as u8
}

/// Closes the open event of each stream where it is at most this event. The units are handed up to the first refusal.
fn close_all<T: UnitTaker>(
    streams: &mut Vec<Receiver>,
    event: u64,
    taker: &mut T,
) -> Result<(), TakerFault>
    requires { event < 2 ^ 39 }
    ensures step { streams.new.items ≡ map (tick_at event) streams.old.items }
    ensures hands { HandsOver (flat_map (owed_by event) streams.old.items) (T.calls taker.old) (T.calls taker.new) result }
    ensures cause { Caused (T.counts taker.old) (T.counts taker.new) result }
{
    let mut handed = Ok(());
    'streams: for stream in streams.iter_mut() {
        match handed {
            Ok(()) => handed = close_by(stream, event, taker),
            Err(_) => skip_by(stream, event),
        }
    }
    handed
}
