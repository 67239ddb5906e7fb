//! The start that isn't decided yet, and the tokens that decide it.
ghost use Rattle.std.specs.Prelude.{◌≡◌, ◌≤◌, ◌<◌, ◌+◌, ◌^◌, ◌++◌, length, take, vec_len, Some, None, IfOk};
ghost use Rattle.std.specs.Option.{ForSome};
ghost use Rattle.iso_pdu.specs.State.Views.{part_of};
ghost use Rattle.isoal_framed.specs.Histories.{held_of};
ghost use Rattle.isoal_framed.specs.Tokens.{token_of, starts, goes_on, missing};
ghost use Rattle.isoal_framed.specs.State.Joining.{hands_at, hands_joined, run_at, run_joined};
ghost use Rattle.isoal_framed.specs.State.Streams.{stay_of};
ghost use Rattle.isoal_framed.specs.State.Windows.{HandsOn, CausedOn};

use crate::hand::{lost, valid};
use crate::stream::Stream;
use bcast_base::{Bis, Memory};
use iso_pdu::Segment;
use std::alloc::Global;
use unit_outlets::{TakerFault, UnitTaker};

/// A start that isn't decided: its time in µs, and how many octets its run has.
#[derive(Clone, Copy)]
pub(crate) struct Started {
    time: u64,
    count: usize,
}

/// The run of the start that isn't decided, joined at the front of a buffer of Max_SDU octets.
#[derive(Drop)]
pub(crate) struct UndecidedRun {
    started: Option<Started>,
    pub(crate) octets: Vec<u8>,
    ghost within: { ForSome started (λ started. started.count ≤ vec_len octets) },
}

impl UndecidedRun {
    ghost use Rattle.isoal_framed.specs.State.Buffers.{run_in};

    /// No start, and room for units of so many octets.
    pub(crate) fn new(alloc: Global, max_sdu: u16) -> Result<UndecidedRun, Memory>
        ensures room { IfOk result (λ undecided. vec_len undecided.octets ≡ max_sdu) }
        ensures run { IfOk result (λ undecided. run_in undecided ≡ None) }
    {
        Ok(UndecidedRun {
            started: None,
            octets: vec![in alloc; 0u8; usize::from(max_sdu)]?,
        })
    }

    /// Takes a number of which nothing is kept: it ends the run.
    pub(crate) fn miss<T: UnitTaker>(
        &mut self,
        bis: Bis,
        so_far: Result<(), TakerFault>,
        taker: &mut T,
    ) -> Result<(), TakerFault>
        ensures room { vec_len self.new.octets ≡ vec_len self.old.octets }
        ensures run { run_in self.new ≡ None }
        ensures hands { HandsOn (hands_at (vec_len self.old.octets) bis (run_in self.old) missing) so_far (T.calls taker.old)
            (T.calls taker.new) result }
        ensures cause { CausedOn so_far (T.counts taker.old) (T.counts taker.new) result }
    {
        match self.started {
            Some(started) => {
                self.started = None;
                lost(so_far, taker, bis, started.time)
            }
            None => so_far,
        }
    }

    /// Takes a further segment: it goes on with the run, where there is one.
    #[inline(always)]
    pub(crate) fn go_on<T: UnitTaker>(
        &mut self,
        bis: Bis,
        complete: bool,
        part: &[u8],
        so_far: Result<(), TakerFault>,
        taker: &mut T,
    ) -> Result<(), TakerFault>
        ensures room { vec_len self.new.octets ≡ vec_len self.old.octets }
        ensures run { run_in self.new ≡ run_at (vec_len self.old.octets) (run_in self.old) (goes_on complete part.now) }
        ensures hands { HandsOn (hands_at (vec_len self.old.octets) bis (run_in self.old) (goes_on complete part.now)) so_far
            (T.calls taker.old) (T.calls taker.new) result }
        ensures cause { CausedOn so_far (T.counts taker.old) (T.counts taker.new) result }
    {
        let Some(started) = self.started else {
            return so_far;
        };
        self.started = None;
        if part.len() > self.octets.len() - started.count {
            return lost(so_far, taker, bis, started.time);
        }
        let count = started.count + part.len();
        self.append(started.count, part);
        if complete {
            return valid(so_far, taker, bis, started.time, self.prefix(count));
        }
        self.started = Some(Started {
            time: started.time,
            count,
        });
        so_far
    }

    /// Puts a part behind the first `at` octets.
    fn append(&mut self, at: usize, part: &[u8])
        requires { at + length part.now ≤ vec_len self.old.octets }
        ensures room { vec_len self.new.octets ≡ vec_len self.old.octets }
        ensures started { self.new.started ≡ self.old.started }
        ensures octets { take (at + length part.now) self.new.octets.items ≡ take at self.old.octets.items ++ part.now }
    {
        self.octets[at..at + part.len()].copy_from_slice(part);
    }

    /// The first `count` octets.
    fn prefix(&self, count: usize) -> &[u8]
        requires { count ≤ vec_len self.now.octets }
        ensures { result.now ≡ take count self.now.octets.items }
    {
        &self.octets[..count]
    }

    /// Takes a start: it ends the run before it, and begins one.
    pub(crate) fn start<T: UnitTaker>(
        &mut self,
        bis: Bis,
        time: u64,
        complete: bool,
        part: &[u8],
        so_far: Result<(), TakerFault>,
        taker: &mut T,
    ) -> Result<(), TakerFault>
        ensures room { vec_len self.new.octets ≡ vec_len self.old.octets }
        ensures run { run_in self.new ≡ run_at (vec_len self.old.octets) (run_in self.old) (starts time complete part.now) }
        ensures hands { HandsOn (hands_at (vec_len self.old.octets) bis (run_in self.old) (starts time complete part.now)) so_far
            (T.calls taker.old) (T.calls taker.new) result }
        ensures cause { CausedOn so_far (T.counts taker.old) (T.counts taker.new) result }
    {
        let missed = self.miss(bis, so_far, taker);
        self.begin(bis, time, complete, part, missed, taker)
    }

    /// Begins a run with the segment of a start.
    fn begin<T: UnitTaker>(
        &mut self,
        bis: Bis,
        time: u64,
        complete: bool,
        part: &[u8],
        so_far: Result<(), TakerFault>,
        taker: &mut T,
    ) -> Result<(), TakerFault>
        ensures room { vec_len self.new.octets ≡ vec_len self.old.octets }
        ensures run { run_in self.new ≡ run_joined (vec_len self.old.octets) time complete part.now }
        ensures hands { HandsOn (hands_joined (vec_len self.old.octets) bis time complete part.now) so_far (T.calls taker.old)
            (T.calls taker.new) result }
        ensures cause { CausedOn so_far (T.counts taker.old) (T.counts taker.new) result }
    {
        self.started = Some(Started { time, count: 0 });
        self.go_on(bis, complete, part, so_far, taker)
    }

    /// Takes a segment of an event.
    pub(crate) fn take<T: UnitTaker>(
        &mut self,
        stream: &Stream,
        event: u64,
        segment: Segment<'_>,
        so_far: Result<(), TakerFault>,
        taker: &mut T,
    ) -> Result<(), TakerFault>
        requires first { stream.now.first ≤ event }
        requires event { event < 2 ^ 39 }
        ensures room { vec_len self.new.octets ≡ vec_len self.old.octets }
        ensures run { run_in self.new ≡ run_at (vec_len self.old.octets) (run_in self.old)
            (token_of (stay_of stream.now) event (part_of segment.entry)) }
        ensures hands { HandsOn (hands_at (vec_len self.old.octets) stream.now.bis (run_in self.old)
            (token_of (stay_of stream.now) event (part_of segment.entry)))
            so_far (T.calls taker.old) (T.calls taker.new) result }
        ensures cause { CausedOn so_far (T.counts taker.old) (T.counts taker.new) result }
    {
        match segment {
            Segment::Start {
                time_offset,
                complete,
                part,
            } => {
                let time = stream.time(event, time_offset);
                self.start(stream.bis, time, complete, part, so_far, taker)
            }
            Segment::More { complete, part } => {
                self.go_on(stream.bis, complete, part, so_far, taker)
            }
        }
    }

    /// How many octets the run has.
    pub(crate) fn held(&self) -> usize
        ensures held { result ≡ held_of (run_in self.now) }
        ensures bound { result ≤ vec_len self.now.octets }
    {
        match self.started {
            Some(started) => started.count,
            None => 0,
        }
    }
}
