ghost use Rattle.std.specs.Prelude.{◌≡◌, ◌/◌};
ghost use Rattle.big_info.specs.Schedule.{group_count, horizon_of, per_event_of, per_unit_of};
ghost use Rattle.big_info.specs.Widths.{FitsWidths};

use crate::info::BigInfo;
use crate::time::iso_us;

/// The quotient rounded down, and 0 where the divisor is 0.
fn quotient(a: u32, b: u32) -> u32
    ensures { result ≡ a / b }
{
    if b == 0 { 0 } else { a / b }
}

/// GC: the groups of subevents of an event.
pub fn groups(info: &BigInfo) -> u32
    ensures { result ≡ group_count info.now }
{
    quotient(info.nse as u32, info.bn as u32)
}

/// H: how many events ahead the last group of an event is sent.
pub fn horizon(info: &BigInfo) -> u32
    requires { FitsWidths info.now }
    ensures { result ≡ horizon_of info.now }
{
    info.pto as u32 * groups(info).saturating_sub(info.irc as u32)
}

/// k: the whole units of an event.
pub fn per_event(info: &BigInfo) -> u32
    ensures { result ≡ per_event_of info.now }
{
    quotient(iso_us(info), info.sdu_interval)
}

/// m: the PDUs that the longest unit takes.
pub fn per_unit(info: &BigInfo) -> u32
    ensures { result ≡ per_unit_of info.now }
{
    let whole = quotient(info.max_sdu as u32, info.max_pdu as u32);
    if info.max_sdu.is_multiple_of(info.max_pdu as u16) {
        whole
    } else {
        whole + 1
    }
}
