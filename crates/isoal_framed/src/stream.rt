ghost use Rattle.std.specs.Prelude.{◌≡◌, ◌≤◌, ◌<◌, ◌+◌, ◌^◌};
ghost use Rattle.isoal_base.specs.Stays.{window_of};
ghost use Rattle.isoal_framed.specs.Tokens.{time_of};

use bcast_base::Bis;
use big_info::Group;
use sync_reference::{anchor, framed_reference, render};

/// The framed stream that a sink takes, from its first event on.
#[derive(Clone, Copy)]
pub(crate) struct Stream {
    pub(crate) group: Group,
    pub(crate) bis: Bis,
    /// The first event, and its anchor in µs.
    pub(crate) first: u64,
    pub(crate) origin: u64,
    /// The presentation delay in µs.
    pub(crate) delay: u32,
    pub(crate) ghost framed: { group.info.framing ≡ 1 },
    pub(crate) ghost first_event: { first ≤ 2 ^ 39 },
    pub(crate) ghost times: { origin ≤ 2 ^ 61 + 2 ^ 23 },
    pub(crate) ghost delays: { delay < 2 ^ 24 },
}

impl Stream {
    ghost use Rattle.isoal_framed.specs.State.Streams.{stay_of};

    /// How many numbers the H + 1 events of the window have.
    pub(crate) fn window(&self) -> usize
        ensures { result ≡ window_of self.now.group.info }
    {
        (self.group.horizon() as usize + 1) * usize::from(self.group.info.bn)
    }

    /// When a unit is rendered that starts with this TimeOffset in this event, in µs.
    pub(crate) fn time(&self, event: u64, time_offset: u32) -> u64
        requires first { self.now.first ≤ event }
        requires event { event < 2 ^ 39 }
        ensures { result ≡ time_of (stay_of self.now) event time_offset }
    {
        let anchor = anchor(self.origin, self.first, event, self.group.iso_us());
        render(
            framed_reference(&self.group, anchor, time_offset),
            self.delay,
        )
    }
}
