//! The player of the example keeps what is decided of its stream, with its octets or as lost.
ghost use Rattle.std.specs.Prelude.{◌≡◌, IfSome};
ghost use Rattle.example_player.specs.Played.{open_event_of};

use crate::framed_receivers::{SEGMENTS, START};
use bcast_base::Bis;
use big_info::check_group;
use example_player::Player;
use isoal_base::Heard;
use std::alloc::Global;

/// A whole unit of 3 octets. The end of the unit of 7 octets is in the event before, of which nothing is heard.
const WHOLE: [u8; 10] = [0x02, 0x08, 0x02, 0x06, 0x88, 0x13, 0x00, 0xe0, 0xe1, 0xe2];

/// A player from event 0 on; `None` where memory runs out.
fn player_in(alloc: Global) -> Option<Player>
    ensures { IfSome result (λ player. open_event_of player ≡ 0) }
{
    let Ok(group) = check_group(&SEGMENTS) else {
        return None;
    };
    Player::new(alloc, &group, Bis::new(1)?, 0, 20000, 40000).ok()
}

/// Whether the unit at a place has this time and these octets, or is lost.
fn has(player: &Player, place: usize, time: u64, octets: Option<&[u8]>) -> bool {
    let Some(entry) = player.playlist().entries.as_slice().get(place) else {
        return false;
    };
    let is_same = match (&entry.octets, octets) {
        (Some(own), Some(octets)) => own.as_slice() == octets,
        (None, None) => true,
        _ => false,
    };
    entry.time == time && is_same
}

/// Whether the first unit is kept as lost, and the second with its octets.
fn keeps_both(player: &mut Player) -> bool
    requires { open_event_of player.old ≡ 0 }
{
    player.hear(0, &START) == Heard::Kept
        && player.close().is_ok()
        && player.close().is_ok()
        && player.hear(2, &WHOLE) == Heard::Kept
        && player.close().is_ok()
        && player.playlist().entries.len() == 2
        && has(player, 0, 75968, None)
        && has(player, 1, 95968, Some(&[0xe0, 0xe1, 0xe2]))
}

#[test]
fn a_lost_unit_and_a_valid_one_are_kept_in_order(rt: HostRuntime) {
    let mut player = player_in(rt.alloc()).expect(&rt, "a player");
    assert!(rt; keeps_both(&mut player));
}
