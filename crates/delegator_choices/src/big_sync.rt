//! When a sink joins a group.
ghost use Rattle.std.specs.Prelude.{◌≡◌, ◌≤◌, ◌<◌, ◌+◌, ◌/◌, ◌^◌};
ghost use Rattle.big_info.specs.Widths.{FitsWidths};
ghost use Rattle.delegator_history.specs.Trains.{offset_of};

use bcast_base::BisSet;
use big_info::{BigInfo, Group};
use sync_reference::BigSync;

/// How a train that is heard at this time in µs synchronizes the sink to its BIG, with these streams and this presentation delay
/// in µs: from the event that the BIGInfo names, whose anchor it tells (Core 5.2, volume 6 part B, section 4.4.6.11).
pub fn big_sync_at(group: &Group, which: BisSet, delay: u32, heard_at: u64) -> BigSync
    requires delay { delay < 2 ^ 24 }
    requires time { heard_at ≤ 2 ^ 61 }
    ensures { result ≡ record {
      info = group.now.info;
      which = which;
      first = group.now.info.bis_payload_count / group.now.info.bn;
      anchor = heard_at + offset_of group.now.info;
      delay = delay;
    } }
{
    BigSync {
        group: *group,
        which,
        first: first_event(group),
        anchor: heard_at + offset(group),
        delay,
    }
}

/// The event of the payload that comes next.
fn first_event(group: &Group) -> u64
    ensures same { result ≡ group.now.info.bis_payload_count / group.now.info.bn }
    ensures bound { result ≤ 2 ^ 39 }
{
    group.info.bis_payload_count / u64::from(group.info.bn)
}

/// BIG_Offset in µs: it is in units of 30 or 300 µs.
fn offset(group: &Group) -> u64
    ensures same { result ≡ offset_of group.now.info }
    ensures bound { result ≤ 2 ^ 23 }
{
    let units = u64::from(group.info.big_offset);
    if group.info.big_offset_units == 1 {
        units * 300
    } else {
        units * 30
    }
}
