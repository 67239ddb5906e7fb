ghost use Rattle.std.specs.Prelude.{◌≡◌, ◌<◌, ◌+◌, ◌*◌, ◌++◌, ◌↔◌, ℕ, [], ◌∷◌, length};
ghost use Rattle.std.specs.Prelude.{map, get_or, All, Some, IfOk, IfErr, IsTrue, OnOk, OnErr};
ghost use Rattle.std.specs.List.{AllZip, range_with_len};
ghost use Rattle.circular_buffer.specs.Buffer.{buffer, keep_last};
ghost use Rattle.source_machine.specs.Airs.{stale_on};
ghost use Rattle.source_machine.specs.State.Lent.{AheadsAre, PlacesAre};
ghost use Rattle.source_machine.specs.State.Senders.{HasTime, PutStops};
ghost use Rattle.source_machine.specs.State.Sources.{Stream as StreamState, StreamStands};
ghost use Rattle.source_machine.specs.State.Streams.{Accepts, AllTell, Grows, IsLaid, Lays, LaysOne, Tells, sent_at, sent_of};

use crate::carried::Carried;
use crate::laying::Laying;
use crate::sender::Sender;
use crate::sent::{Stale, StaleList};
use crate::sent_stream::SentStream;
use bcast_base::{Bis, EventPdus, Memory, Octets, Times};
use big_info::Group;
use circular_buffer::HeapCircularBuffer;
use isoal_base::{LaidPdus, PutFault};
use radio_schedule::events_ahead;
use std::alloc::Global;
use std::marker::Model;
use std::mem::replace;

/// How many events that were performed a stream keeps.
const EVENTS: u32 = 32;

/// A stream of a source: its sender, and the last 32 events that were performed with the H events laid behind them. The memory of
/// the event that was dropped last is kept for the next one.
#[derive(Drop)]
pub(crate) struct Stream {
    alloc: Global,
    bis: Bis,
    sender: Sender,
    laid: HeapCircularBuffer<LaidPdus>,
    dropped: LaidPdus,
}

impl Model for Stream {
    ghost use Rattle.source_machine.specs.State.Senders.{info_of};
    ghost use Rattle.source_machine.specs.State.Sources.{Stream};
    ghost use Rattle.source_machine.specs.State.Streams.{Keeps};

    ghost Value = { Stream };

    ghost view = { λ s. record { bis = s.bis; sender = s.sender; laid = s.laid.items } };

    ghost invariant = { λ s. Keeps (info_of s.sender) s.laid.capacity s.laid.items };
}

impl Stream {
    /// The stream of this index before its first event.
    pub(crate) fn new(alloc: Global, group: &Group, bis: Bis) -> Result<Stream, Memory>
        ensures { IfOk result (λ stream. StreamStands group.now.info bis [] [] stream) }
    {
        Ok(Stream {
            alloc,
            bis,
            sender: Sender::new(alloc, group),
            laid: HeapCircularBuffer::with_capacity(alloc, (group.horizon() + EVENTS) as usize)?,
            dropped: LaidPdus::new(alloc),
        })
    }

    /// Lays the next events, and tells the units that are left out of them.
    fn lay(&mut self, laying: Laying, stale: &mut StaleList) -> Result<(), Memory>
        ensures ok { OnOk result (Lays laying.anchor laying.iso_us laying.count self.old self.new) }
        ensures told { OnOk result (Tells laying.anchor laying.iso_us laying.count self.old stale.old stale.new) }
        ensures err { OnErr result (Grows self.old self.new) }
    {
        'events: for n in 0..laying.count {
            self.lay_one(laying.anchor_of(n), stale)?;
        }
        Ok(())
    }

    /// Lays the next event, whose anchor this is. Where H + 32 events are kept, the oldest is dropped.
    fn lay_one(&mut self, anchor: u64, stale: &mut StaleList) -> Result<(), Memory>
        ensures ok { OnOk result (LaysOne anchor self.old self.new stale.old stale.new) }
        ensures err { OnErr result (Grows self.old self.new) }
    {
        let times = self.sender.lay(anchor, &mut self.dropped)?;
        keep_event(self.alloc, &mut self.laid, &mut self.dropped);
        tell_stale(self.bis, &times, stale)
    }

    /// Gives a unit to the sender.
    pub(crate) fn give(
        &mut self,
        time: Option<u64>,
        limit: Option<u64>,
        octets: &[u8],
    ) -> Result<(), PutFault>
        ensures ok { OnOk result (Accepts time limit octets.now self.old self.new) }
        ensures err { OnErr result (self.new ≡ self.old) }
        ensures fault { IfErr result (λ fault. PutStops self.old.sender time limit octets.now fault) }
    {
        self.sender.put(time, limit, octets)
    }

    /// Whether a unit with this time would have the one that the framing wants, where there is a limit that it may not pass or none.
    pub(crate) fn has_time(&self, time: Option<u64>, limit: Option<u64>) -> bool
        ensures { IsTrue result ↔ HasTime self.now.sender time limit }
    {
        self.sender.has_time(time, limit)
    }

    /// The PDU that a subevent, from 0, carries in the event `back` events before the one that has the newest H events behind it.
    pub(crate) fn sent(&self, group: &Group, back: u8, subevent: u8) -> &[u8]
        requires laid { IsLaid group.now.info back self.now }
        requires subevent { subevent < group.now.info.nse }
        ensures { sent_of self.now back subevent ≡ Some result.now }
    {
        let horizon = self.laid.capacity() - EVENTS as usize;
        let past = self.laid.len() + events_ahead(group, subevent) as usize;
        let pdus = self
            .laid
            .get(past - (horizon + 1 + usize::from(back)))
            .unwrap();
        pdus.pdu(usize::from(subevent % group.info.bn))
    }

    /// The PDUs that the subevents carry in the event that has the newest H events behind it.
    #[inline(always)]
    pub(crate) fn sent_last<'a>(&'a self, group: &Group, carried: &'a Carried) -> SentStream<'a>
        requires laid { IsLaid group.now.info 0 self.now }
        requires aheads { AheadsAre group.now.info carried.now.aheads }
        requires places { PlacesAre group.now.info carried.now.places }
        ensures { map Some result ≡ map (sent_of self.now 0) (range_with_len 0 group.now.info.nse) }
    {
        let horizon = self.laid.capacity() - EVENTS as usize;
        SentStream {
            laid: &self.laid,
            place: self.laid.len() - (horizon + 1),
            carried,
            count: group.info.nse,
        }
    }
}

/// Puts an event behind those that are kept. Where there is no room the oldest goes, and comes in its place.
fn keep_event(alloc: Global, laid: &mut HeapCircularBuffer<LaidPdus>, pdus: &mut LaidPdus)
    ensures { laid.new ≡ buffer (keep_last laid.old.capacity (laid.old.items ++ pdus.old ∷ [])) laid.old.capacity }
{
    let event = replace(pdus, LaidPdus::new(alloc));
    if let Some(oldest) = laid.push_back(event) {
        *pdus = oldest;
    }
}

/// Tells the units of a stream that were left out, by their times.
fn tell_stale(bis: Bis, times: &Times, stale: &mut StaleList) -> Result<(), Memory>
    ensures { OnOk result (stale.new ≡ stale.old ++ stale_on bis times.now) }
{
    'times: for i in 0..times.count() {
        let time = *times.item(i);
        stale.push(Stale { bis, time })?;
    }
    Ok(())
}

/// Lays the next events of all streams, and tells the units that are left out of them, by rising index and in order.
pub(crate) fn lay_all(
    streams: &mut Vec<Stream>,
    laying: Laying,
    stale: &mut StaleList,
) -> Result<(), Memory>
    ensures ok { OnOk result (AllZip (Lays laying.anchor laying.iso_us laying.count) streams.old.items streams.new.items) }
    ensures told { OnOk result (AllTell laying.anchor laying.iso_us laying.count streams.old.items
        (length streams.old.items) stale.old stale.new) }
    ensures err { OnErr result (AllZip Grows streams.old.items streams.new.items) }
{
    lay_each(streams.as_mut_slice(), laying, stale)
}

/// Lays the next events of each stream.
fn lay_each(streams: &mut [Stream], laying: Laying, stale: &mut StaleList) -> Result<(), Memory>
    ensures ok { OnOk result (AllZip (Lays laying.anchor laying.iso_us laying.count) streams.old streams.new) }
    ensures told { OnOk result (AllTell laying.anchor laying.iso_us laying.count streams.old (length streams.old) stale.old stale.new) }
    ensures err { OnErr result (AllZip Grows streams.old streams.new) }
{
    'streams: for stream in streams.iter_mut() {
        stream.lay(laying, stale)?;
    }
    Ok(())
}

/// The PDUs of the event that has the newest H events behind it: that of stream b and subevent n stands at place (b - 1) × NSE + n.
pub(crate) fn sent_pdus(
    alloc: Global,
    group: &Group,
    streams: &[Stream],
) -> Result<EventPdus, Memory>
    requires count { length streams.now ≡ group.now.info.num_bis }
    requires laid { All (IsLaid group.now.info 0) streams.now }
    ensures { IfOk result (λ pdus. map Some pdus ≡ map (sent_at group.now.info streams.now)
        (range_with_len 0 (group.now.info.num_bis * group.now.info.nse))) }
{
    let nse = u16::from(group.info.nse);
    let count = u16::from(group.info.num_bis) * nse;
    let mut pdus = EventPdus::new(alloc);
    'places: for place in 0..count {
        let stream = &streams[usize::from(place / nse)];
        let pdu = stream.sent(group, 0, (place % nse) as u8);
        pdus.push(Octets::copy(alloc, pdu)?)?;
    }
    Ok(pdus)
}

/// The streams of a group before their first event.
pub(crate) fn new_streams(alloc: Global, group: &Group) -> Result<Vec<Stream>, Memory>
    ensures count { IfOk result (λ streams. length streams.items ≡ group.now.info.num_bis) }
    ensures new { IfOk result (λ streams. (k : ℕ) (none : StreamState) → k < length streams.items
        → StreamStands group.now.info (k + 1) [] [] (get_or streams.items k none)) }
{
    let mut streams = Vec::new(alloc);
    'streams: for n in 0..group.info.num_bis {
        let bis = Bis::new(n + 1).unwrap();
        streams.push(Stream::new(alloc, group, bis)?)?;
    }
    Ok(streams)
}
