ghost use Rattle.std.specs.Prelude.{◌≡◌, ◌≤◌, ◌<◌, ◌+◌, ◌*◌, ◌^◌, ◌%◌};
ghost use Rattle.big_info.specs.Schedule.{horizon_of, per_event_of, per_unit_of};
ghost use Rattle.isoal_base.specs.Stays.{window_of};
ghost use Rattle.isoal_unframed.specs.State.Windows.{time_of};

use bcast_base::Bis;
use big_info::Group;
use sync_reference::{anchor, render, unframed_reference};

/// The unframed stream that a sink takes, from its first event on.
#[derive(Clone, Copy)]
pub(crate) struct Stream {
    pub(crate) group: Group,
    pub(crate) bis: Bis,
    /// The first event, and its anchor in µs.
    pub(crate) first: u64,
    pub(crate) origin: u64,
    /// The presentation delay in µs.
    pub(crate) delay: u32,
    /// How many events the window has, H + 1, and how many numbers.
    pub(crate) events: u32,
    pub(crate) window: usize,
    /// k, and m: the slots of an event, and the numbers of a slot.
    pub(crate) slots: u32,
    pub(crate) places: u32,
    pub(crate) ghost unframed: { group.info.framing ≡ 0 },
    pub(crate) ghost first_event: { first ≤ 2 ^ 39 },
    pub(crate) ghost times: { origin ≤ 2 ^ 61 + 2 ^ 23 },
    pub(crate) ghost delays: { delay < 2 ^ 24 },
    pub(crate) ghost events_are: { events ≡ horizon_of group.info + 1 },
    pub(crate) ghost window_is: { window ≡ window_of group.info },
    pub(crate) ghost slots_are: { slots ≡ per_event_of group.info },
    pub(crate) ghost places_are: { places ≡ per_unit_of group.info },
}

/// An event that is open: its first payload number, and the place of this number in a ring of H + 1 events.
#[derive(Clone, Copy)]
pub(crate) struct OpenEvent {
    pub(crate) event: u64,
    pub(crate) number: u64,
    pub(crate) place: usize,
}

impl Stream {
    ghost use Rattle.isoal_unframed.specs.State.Opening.{IsOpen};
    ghost use Rattle.isoal_unframed.specs.State.Streams.{stay_of, place_of, place_at};

    /// How many numbers the H + 1 events of the window have.
    pub(crate) fn window(&self) -> usize
        ensures { result ≡ window_of self.now.group.info }
    {
        self.window
    }

    /// The place of an event's first number, in a ring of H + 1 events.
    #[tactic(auto, using(crate::proofs::Places::event_fits))]
    pub(crate) fn place(&self, event: u64) -> usize
        ensures exact { result ≡ place_of self.now.group.info event }
        ensures within { result + self.now.group.info.bn ≤ window_of self.now.group.info }
    {
        let turn = (event % u64::from(self.events)) as usize;
        turn * usize::from(self.group.info.bn)
    }

    /// An event, opened.
    pub(crate) fn opened(&self, event: u64) -> OpenEvent
        requires { event ≤ 2 ^ 39 }
        ensures is_open { IsOpen self.now.group.info result }
        ensures event { result.event ≡ event }
    {
        OpenEvent {
            event,
            number: event * u64::from(self.group.info.bn),
            place: self.place(event),
        }
    }

    /// The event behind an open one, opened.
    pub(crate) fn next(&self, current: OpenEvent) -> OpenEvent
        requires is_open { IsOpen self.now.group.info current }
        requires event { current.event < 2 ^ 39 }
        ensures is_open { IsOpen self.now.group.info result }
        ensures event { result.event ≡ current.event + 1 }
    {
        let event = current.event + 1;
        OpenEvent {
            event,
            number: event * u64::from(self.group.info.bn),
            place: self.place_behind(current),
        }
    }

    /// Where the event behind an open one begins.
    #[tactic(auto, using(crate::proofs::Windows::place_at_most))]
    fn place_behind(&self, current: OpenEvent) -> usize
        requires { IsOpen self.now.group.info current }
        ensures { result ≡ place_of self.now.group.info (current.event + 1) }
    {
        let behind = current.place + usize::from(self.group.info.bn);
        if behind < self.window() { behind } else { 0 }
    }

    /// The place of the number at this index of the window of an open event.
    #[tactic(auto, using(crate::proofs::Windows::place_at_most))]
    pub(crate) fn place_at(&self, current: OpenEvent, index: usize) -> usize
        requires is_open { IsOpen self.now.group.info current }
        requires index { index < window_of self.now.group.info }
        ensures exact { result ≡ place_at self.now.group.info current.event index }
        ensures within { result < window_of self.now.group.info }
    {
        let window = self.window();
        let place = current.place + index;
        if place < window {
            place
        } else {
            place - window
        }
    }

    /// k: the slots of an event.
    pub(crate) fn slots(&self) -> usize
        ensures { result ≡ per_event_of self.now.group.info }
    {
        self.slots as usize
    }

    /// m: the numbers of a slot.
    pub(crate) fn places(&self) -> usize
        ensures exact { result ≡ per_unit_of self.now.group.info }
        ensures all { per_event_of self.now.group.info * result ≡ self.now.group.info.bn }
    {
        self.places as usize
    }

    /// When the unit of a slot, from 0, is rendered, in µs.
    pub(crate) fn time(&self, event: u64, slot: usize) -> u64
        requires first { self.now.first ≤ event }
        requires event { event < 2 ^ 39 }
        requires slot { slot < per_event_of self.now.group.info }
        ensures { result ≡ time_of (stay_of self.now) event slot }
    {
        let anchor = anchor(self.origin, self.first, event, self.group.iso_us());
        render(
            unframed_reference(&self.group, anchor, slot as u8),
            self.delay,
        )
    }
}

/// How many numbers the H + 1 events of a window have.
pub(crate) fn numbers_of(group: &Group) -> usize
    ensures { result ≡ window_of group.now.info }
{
    (group.horizon() as usize + 1) * usize::from(group.info.bn)
}
