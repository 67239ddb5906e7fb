//! The payload numbers of the subevents of an event.
ghost use Rattle.std.specs.Prelude.{ℕ, ◌≡◌, ◌<◌, ◌≤◌, ◌*◌, ◌^◌, slice_index};
ghost use Rattle.group_sink.specs.Streams.{number_of};
ghost use Rattle.radio_schedule.specs.PayloadNumber.{payload_number};

use big_info::Group;
use radio_schedule::events_ahead;

/// A group, and for each of its subevents, from 0, how far the number of its payload is above the first number of its event.
#[derive(Clone, Copy)]
pub(crate) struct Numbers {
    pub(crate) group: Group,
    pub(crate) offsets: [u8; 31],
    pub(crate) ghost are: { (s : ℕ) → s < group.info.nse → slice_index offsets s ≡ payload_number group.info 0 s },
}

impl Numbers {
    /// Those of a group.
    pub(crate) fn new(group: &Group) -> Numbers
        ensures { result.group.info ≡ group.now.info }
    {
        Numbers {
            group: *group,
            offsets: offsets_of(group),
        }
    }

    /// The first payload number of an event.
    #[inline(always)]
    pub(crate) fn first(&self, event: u64) -> u64
        requires { event ≤ 2 ^ 39 }
        ensures first { result ≡ event * self.now.group.info.bn }
        ensures bound { result < 2 ^ 63 }
    {
        event * u64::from(self.group.info.bn)
    }

    /// The payload number of a subevent of the event that begins with this number.
    #[inline(always)]
    #[tactic(auto, using(crate::proofs::Offsets::no_subevent))]
    pub(crate) fn behind(&self, first: u64, subevent: u8) -> Option<u64>
        requires { first < 2 ^ 63 }
        ensures { (event : ℕ) → first ≡ event * self.now.group.info.bn → result ≡ number_of self.now.group.info event subevent }
    {
        if subevent >= self.group.info.nse {
            return None;
        }
        let number = first + u64::from(self.offsets[usize::from(subevent)]);
        if number < 1 << 39 { Some(number) } else { None }
    }

    /// The payload number of a subevent of an event.
    pub(crate) fn number(&self, event: u64, subevent: u8) -> Option<u64>
        requires { event ≤ 2 ^ 39 }
        ensures { result ≡ number_of self.now.group.info event subevent }
    {
        self.behind(self.first(event), subevent)
    }
}

/// For each subevent of a group how far its payload number is above the first of its event.
fn offsets_of(group: &Group) -> [u8; 31]
    ensures { (s : ℕ) → s < group.now.info.nse → slice_index result s ≡ payload_number group.now.info 0 s }
{
    let mut offsets = [0; 31];
    'subevents: for subevent in 0..group.info.nse {
        offsets[usize::from(subevent)] = offset(group, subevent);
    }
    offsets
}

/// The same for one subevent.
#[tactic(auto, using(crate::proofs::Offsets::offset_fits))]
fn offset(group: &Group, subevent: u8) -> u8
    requires { subevent < group.now.info.nse }
    ensures { result ≡ payload_number group.now.info 0 subevent }
{
    let bn = group.info.bn;
    (events_ahead(group, subevent) * u64::from(bn) + u64::from(subevent % bn)) as u8
}
