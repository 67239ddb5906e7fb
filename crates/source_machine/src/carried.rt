//! Which PDU each subevent of an event carries.
ghost use Rattle.source_machine.specs.State.Lent.{AheadsAre, PlacesAre};

use big_info::Group;
use radio_schedule::events_ahead;

/// For each subevent of an event, from 0, how many events ahead its payload is, and the place of its PDU among those of that event.
#[derive(Clone, Copy)]
pub(crate) struct Carried {
    pub(crate) aheads: [u8; 31],
    pub(crate) places: [u8; 31],
}

impl Carried {
    /// Those of a group.
    pub(crate) fn new(group: &Group) -> Carried
        ensures aheads { AheadsAre group.now.info result.aheads }
        ensures places { PlacesAre group.now.info result.places }
    {
        let mut aheads = [0; 31];
        let mut places = [0; 31];
        'subevents: for subevent in 0..group.info.nse {
            aheads[usize::from(subevent)] = events_ahead(group, subevent) as u8;
            places[usize::from(subevent)] = subevent % group.info.bn;
        }
        Carried { aheads, places }
    }
}
