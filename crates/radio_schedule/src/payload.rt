ghost use Rattle.std.specs.Prelude.{IfSome, ◌≡◌, ◌<◌, ◌≤◌, ◌/◌, ◌^◌};
ghost use Rattle.std.specs.Option.{SomeIff};
ghost use Rattle.big_info.specs.Schedule.{group_count, horizon_of};
ghost use Rattle.radio_schedule.specs.PayloadNumber.{InWindow, ahead_of, payload_number};

use big_info::Group;

/// The number of the payload that a subevent, from 0, of an event carries (Core 5.2, volume 6 part B, section 4.4.6).
/// `None` where the group has no such subevent or the number reaches 2^39.
pub fn payload_of(group: &Group, event: u64, subevent: u8) -> Option<u64>
    requires { event ≤ 2 ^ 39 }
    ensures number { let number = payload_number group.now.info event subevent in
        SomeIff result ((subevent < group.now.info.nse) × (number < 2 ^ 39)) number }
    ensures window { IfSome result (λ number. InWindow group.now.info event number) }
{
    let info = &group.info;
    if subevent >= info.nse {
        return None;
    }
    let ahead = events_ahead(group, subevent);
    let number = (event + ahead) * u64::from(info.bn) + u64::from(subevent % info.bn);
    if number < 1 << 39 { Some(number) } else { None }
}

/// How many events ahead the payload of a subevent, from 0, is.
pub fn events_ahead(group: &Group, subevent: u8) -> u64
    requires { subevent < group.now.info.nse }
    ensures ahead { result ≡ ahead_of group.now.info (subevent / group.now.info.bn) }
    ensures within { result ≤ horizon_of group.now.info }
{
    copies_ahead(group, subevent / group.info.bn)
}

/// How many events ahead the payloads of a group of subevents, from 0, are.
fn copies_ahead(group: &Group, copies: u8) -> u64
    requires { copies < group_count group.now.info }
    ensures ahead { result ≡ ahead_of group.now.info copies }
    ensures within { result ≤ horizon_of group.now.info }
{
    let info = &group.info;
    if copies < info.irc {
        return 0;
    }
    u64::from(info.pto) * u64::from(copies - info.irc + 1)
}
