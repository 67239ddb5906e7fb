ghost use Rattle.std.specs.Prelude.{◌≡◌, ◌≤◌, ◌<◌, ◌^◌, ◌++◌, vec_len, IfOk, OnOk, List, map, replicate, slice_set, is_some, None, Option};
ghost use Rattle.std.specs.Option.{ForSome};

use crate::close::close_sinks;
use crate::entry::{answer_entry, hear_entry, hear_event_entry, state_of_entry, tune_entry};
use crate::gathered::{Gathered, HandedUnit};
use crate::sink::Sink;
use crate::sums::{put_sum_at, put_sums};
use bcast_base::{Bis, Memory, Octets};
use isoal_base::Hearing;
use radio_schedule::StreamEvent;
use scenario_sink::LinkedSink;
use std::alloc::Global;
use sync_reference::BigSync;
use transcript_text::{Refusal, Stop};
use unit_outlets::Outlet;

/// The sinks of a scenario, with the numbers 0 to 7.
#[derive(Drop)]
pub struct Sinks {
    alloc: Global,
    pub(crate) entries: Vec<Option<Sink>>,
    /// How many boxes of the list were taken.
    outlet_count: usize,
    gathered: Gathered,
    ghost eight: { vec_len entries ≡ 8 },
}

impl Sinks {
    ghost use Rattle.multi_assist.specs.Mtus.{IsMtu};
    ghost use Rattle.unit_outlets.specs.Handed.{Handed};
    ghost use Rattle.scenario_history.specs.Boxes.{sink_numbers};
    ghost use Rattle.sink_history.specs.Output.{state_where};
    ghost use Rattle.scenario_sinks.specs.Closing.{Closes, ClosesAt};
    ghost use Rattle.scenario_sinks.specs.Hearing.{Hears, hearing_where};
    ghost use Rattle.scenario_sinks.specs.Histories.{Histories, nothing, with_heard, with_sink, with_tuning, without};
    ghost use Rattle.scenario_sinks.specs.Refusals.{Answers, Tunes, not_living, not_made, not_tuned};
    ghost use Rattle.scenario_sinks.specs.State.Gathering.{handed_of};
    ghost use Rattle.scenario_sinks.specs.State.Standing.{SinksLend, SinksStand};
    ghost use Rattle.scenario_sinks.specs.Sums.{Puts, sum_where, sums_where};
    ghost use Rattle.scenario_sinks.specs.Unassigned.{UnassignedSame};

    /// No sinks yet.
    pub fn new(alloc: Global) -> Result<Sinks, Memory>
        ensures { IfOk result (λ sinks. SinksStand nothing sinks) }
    {
        Ok(Sinks {
            alloc,
            entries: no_sinks(alloc)?,
            outlet_count: 0,
            gathered: Gathered::new(alloc),
        })
    }

    /// Whether a sink of this number lives.
    pub fn lives(&self, sink: u8) -> bool
        requires { sink ≤ 7 }
        ensures { (past : Histories) → SinksStand past self.now → result ≡ is_some (past.boxes sink) }
    {
        self.entries[sink as usize].is_some()
    }

    /// Makes a sink with the next box, of so many. It takes so many streams at once, 1 to 31, has so many slots, 1 to 8, goes on
    /// groups that send a payload at most so many events ahead, and has this MTU on every link, where it has one. It is refused
    /// with SinkTwice where a sink of this number lives, else with NoOutlet where no box is left.
    pub fn make(
        &mut self,
        sink: u8,
        streams: u8,
        slots: u8,
        horizon: u8,
        mtu: Option<u16>,
        boxes: usize,
    ) -> Result<(), Stop>
        requires sink { sink ≤ 7 }
        requires least_streams { 1 ≤ streams }
        requires most_streams { streams ≤ 31 }
        requires least_slots { 1 ≤ slots }
        requires few { slots ≤ 8 }
        requires horizon { horizon ≤ 31 }
        requires mtu { IsMtu mtu }
        ensures { (past : Histories) → SinksStand past self.old
            → Answers (not_made (past.boxes sink) past.made boxes) past
            (with_sink sink (record { setup = record { streams = streams; slots = slots; horizon = horizon }; mtu = mtu }) past)
            self.new result }
    {
        let place = sink as usize;
        if self.entries[place].is_some() {
            return Err(Stop::Refused(Refusal::SinkTwice));
        }
        if self.outlet_count >= boxes {
            return Err(Stop::Refused(Refusal::NoOutlet));
        }
        let Ok(living) = LinkedSink::new(self.alloc, streams, slots, horizon, mtu) else {
            return Err(Stop::Memory);
        };
        let outlet = self.outlet_count;
        put_entry(&mut self.entries, place, Some(Sink { outlet, living }));
        self.outlet_count += 1;
        Ok(())
    }

    /// Ends a sink, and puts the sums of its box at the end of the text. It is refused with NoSuchSink where no sink of
    /// this number lives.
    pub fn end(
        &mut self,
        sink: u8,
        outlets: &Vec<Box<dyn Outlet>>,
        text: &mut Octets,
    ) -> Result<(), Stop>
        requires { sink ≤ 7 }
        ensures answer { (past : Histories) → SinksStand past self.old
            → Answers (not_living (past.boxes sink)) past (without sink past) self.new result }
        ensures text { (past : Histories) → SinksStand past self.old
            → Puts (sum_where (map account outlets.now.items) sink (past.boxes sink)) text.old text.new result }
    {
        let Some(entry) = &self.entries[sink as usize] else {
            return Err(Stop::Refused(Refusal::NoSuchSink));
        };
        match put_sum_at(sink, entry.outlet, outlets, text) {
            Ok(()) => {}
            Err(Memory) => return Err(Stop::Memory),
        }
        put_entry(&mut self.entries, sink as usize, None);
        Ok(())
    }

    /// Synchronizes a sink to the BIG of a source. It is refused with NoSuchSink where no sink of this number lives, else with
    /// NoSuchBis where a stream is above those of the group.
    pub fn tune(&mut self, sink: u8, source: u8, big_sync: &BigSync) -> Result<(), Stop>
        requires { sink ≤ 7 }
        ensures { (past : Histories) → SinksStand past self.old
            → Tunes (not_tuned (past.boxes sink) big_sync.now.info.num_bis big_sync.now.which) past
            (with_tuning sink source big_sync.now past) self.new result }
    {
        tune_entry(&mut self.entries[sink as usize], source, big_sync)
    }

    /// Hands a sink octets in the place of a PDU of a source: in a subevent, from 0, of an event of a stream. The answer is
    /// what the sink made of them, and none where no sink of this number lives. It takes no memory.
    #[inline(always)]
    pub fn hear(
        &mut self,
        sink: u8,
        source: u8,
        event: u64,
        bis: Bis,
        subevent: u8,
        octets: &[u8],
    ) -> Option<Hearing>
        requires sink { sink ≤ 7 }
        requires event { event ≤ 2 ^ 39 }
        ensures { (past : Histories) → SinksStand past self.old → Hears past sink source event bis subevent octets.now self.new result }
    {
        hear_entry(
            &mut self.entries[sink as usize],
            source,
            event,
            bis,
            subevent,
            octets,
        )
    }

    /// Hands a sink what the subevents of an event of a stream of a source bring, from subevent 0 on, as `hear` does each PDU that isn't
    /// lost. Where no sink of this number lives, nothing is handed. It takes no memory.
    #[inline(always)]
    pub fn hear_event<E: StreamEvent>(
        &mut self,
        sink: u8,
        source: u8,
        event: u64,
        bis: Bis,
        sent: &E,
    )
        requires sink { sink ≤ 7 }
        requires event { event ≤ 2 ^ 39 }
        ensures { (past : Histories) → SinksStand past self.old
            → SinksStand (with_heard sink source event bis (E.pdus sent.now) past) self.new }
    {
        hear_event_entry(&mut self.entries[sink as usize], source, event, bis, sent);
    }

    /// What a sink would answer in `hear`: none where no sink of this number lives. It changes nothing.
    pub fn would_answer(
        &self,
        sink: u8,
        source: u8,
        event: u64,
        bis: Bis,
        subevent: u8,
        octets: &[u8],
    ) -> Option<Hearing>
        requires sink { sink ≤ 7 }
        requires event { event ≤ 2 ^ 39 }
        ensures { (past : Histories) → SinksStand past self.now
            → result ≡ hearing_where (past.boxes sink) (past.sources sink) (past.received sink) source event bis subevent octets.now }
    {
        answer_entry(
            &self.entries[sink as usize],
            source,
            event,
            bis,
            subevent,
            octets,
        )
    }

    /// The octets of the state of a slot of a sink, which are none where the slot is empty (Broadcast Audio Scan Service 1.0, section
    /// 3.2): `None` where no sink of this number lives, or it has no such slot.
    pub fn state(&self, sink: u8, slot: u8) -> Result<Option<Octets>, Memory>
        requires { sink ≤ 7 }
        ensures { (past : Histories) → SinksStand past self.now
            → IfOk result (λ octets. octets ≡ state_where (past.mades sink) (past.lives sink) slot) }
    {
        state_of_entry(&self.entries[sink as usize], slot)
    }

    /// Closes the open event of a source, where one is open: the sinks of the source hand their units up, by rising number
    /// and then by rising stream, each valid unit to the box of its sink and then, as a line, to the end of the text. After a
    /// refusal of a box, or want of memory, a prefix of the units was handed. The boxes of no living sink stay the same.
    pub fn close(
        &mut self,
        source: u8,
        closed: Option<u64>,
        outlets: &mut Vec<Box<dyn Outlet>>,
        text: &mut Octets,
    ) -> Result<(), Stop>
        requires { ForSome closed (λ event. event < 2 ^ 39) }
        ensures closes { (past : Histories) → SinksStand past self.old
            → Closes past source closed self.new text.old text.new (map account outlets.old.items) (map account outlets.new.items) result }
        ensures others { (past : Histories) → SinksStand past self.old → UnassignedSame past outlets.old.items outlets.new.items }
    {
        let Some(event) = closed else {
            return Ok(());
        };
        close_sinks(
            &mut self.entries,
            0,
            8,
            source,
            event,
            false,
            &mut self.gathered,
            outlets,
            text,
        )
    }

    /// Closes an event of a source for the sink of a number, as `close` does for all of them, and lends its units until `forget`.
    pub fn close_at(
        &mut self,
        sink: u8,
        source: u8,
        event: u64,
        outlets: &mut Vec<Box<dyn Outlet>>,
        text: &mut Octets,
    ) -> Result<(), Stop>
        requires sink { sink ≤ 7 }
        requires event { event < 2 ^ 39 }
        ensures closes { (past : Histories) → SinksStand past self.old
            → ClosesAt past sink source event self.new text.old text.new (map account outlets.old.items)
            (map account outlets.new.items) result }
        ensures others { (past : Histories) → SinksStand past self.old → UnassignedSame past outlets.old.items outlets.new.items }
    {
        close_sinks(
            &mut self.entries,
            sink,
            sink + 1,
            source,
            event,
            true,
            &mut self.gathered,
            outlets,
            text,
        )
    }

    /// The units that the sink handed up which was closed last, until `forget`: in order.
    pub fn lent(&self) -> &[HandedUnit]
        ensures { (past : Histories) (units : List Handed) → SinksLend past units self.now → map handed_of result.now ≡ units }
    {
        self.gathered.as_slice()
    }

    /// Lends no units any more.
    pub fn forget(&mut self)
        ensures { (past : Histories) (units : List Handed) → SinksLend past units self.old → SinksStand past self.new }
    {
        self.gathered.clear();
    }

    /// Puts the sums of the boxes of the living sinks at the end of the text, by rising number.
    pub fn sums(&self, outlets: &Vec<Box<dyn Outlet>>, text: &mut Octets) -> Result<(), Memory>
        ensures { (past : Histories) → SinksStand past self.now
            → OnOk result (text.new ≡ text.old ++ sums_where (map account outlets.now.items) past.boxes sink_numbers) }
    {
        put_sums(&self.entries, outlets, text)
    }
}

/// Eight places for sinks, all empty.
fn no_sinks(alloc: Global) -> Result<Vec<Option<Sink>>, Memory>
    ensures { IfOk result (λ sinks. sinks.items ≡ replicate 8 None) }
{
    Ok(vec![in alloc; None, None, None, None, None, None, None, None]?)
}

/// Puts an entry in the place of another.
fn put_entry(entries: &mut Vec<Option<Sink>>, place: usize, entry: Option<Sink>)
    requires { place < vec_len entries.old }
    ensures entries { entries.new.items ≡ slice_set entries.old.items place entry }
    ensures count { vec_len entries.new ≡ vec_len entries.old }
{
    entries[place] = entry;
}
