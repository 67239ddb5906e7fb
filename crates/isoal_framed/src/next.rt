ghost use Rattle.std.specs.Prelude.{◌≡◌};
ghost use Rattle.isoal_framed.specs.Greedy.{act_for};
ghost use Rattle.isoal_framed.specs.State.Nexts.{act_in};

use bcast_base::Unit;

/// The greatest TimeOffset, in µs.
const LAST_OFFSET: u64 = 16_777_215;

/// What comes next in a PDU.
#[derive(Clone, Copy)]
pub(crate) enum Next {
    /// So many octets of the due unit; `complete` says that they are its last ones.
    Carries { count: usize, complete: bool },
    /// The due unit is left out.
    LeavesOut,
    /// The PDU ends.
    Ends,
}

/// What comes next in an event with this anchor, where this unit is due, so many of its octets are sent, and so many are
/// left of the PDU.
pub(crate) fn next_act(unit: &Unit, sent: usize, anchor: u64, room: u8) -> Next
    ensures { act_in result ≡ act_for anchor room sent unit.now }
{
    let len = unit.octets.as_slice().len();
    let room = usize::from(room);
    let overhead = if sent == 0 { 5 } else { 2 };
    let least = if len == 0 { overhead } else { overhead + 1 };
    if room < least {
        return Next::Ends;
    }
    if sent == 0 && anchor < unit.time {
        return Next::Ends;
    }
    if sent == 0 && LAST_OFFSET < anchor.saturating_sub(unit.time) {
        return Next::LeavesOut;
    }
    let left = len.saturating_sub(sent);
    if left <= room - overhead {
        return Next::Carries {
            count: left,
            complete: true,
        };
    }
    Next::Carries {
        count: room - overhead,
        complete: false,
    }
}
