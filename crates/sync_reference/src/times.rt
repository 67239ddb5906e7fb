ghost use Rattle.std.specs.Prelude.{◌≡◌, ◌<◌, ◌≤◌, ◌^◌};
ghost use Rattle.sync_reference.specs.Reference.{anchor_of, framed_reference_of, render_of, unframed_reference_of};

use big_info::Group;

/// The anchor in µs of an event, where event `first` has its anchor at `origin` and events are `iso_us` µs apart.
pub fn anchor(origin: u64, first: u64, event: u64, iso_us: u32) -> u64
    requires order { first ≤ event }
    requires sum { anchor_of origin first event iso_us < 2 ^ 63 }
    ensures { result ≡ anchor_of origin first event iso_us }
{
    origin + (event - first) * u64::from(iso_us)
}

/// The reference in µs of a slot, from 0, of the unframed event with this anchor.
pub fn unframed_reference(group: &Group, anchor: u64, slot: u8) -> u64
    requires { unframed_reference_of group.now.info anchor slot < 2 ^ 63 }
    ensures { result ≡ unframed_reference_of group.now.info anchor slot }
{
    let into_event = u64::from(slot) * u64::from(group.info.sdu_interval);
    anchor + u64::from(group.sync_delay()) + into_event
}

/// The reference in µs of a unit that starts with this TimeOffset, in µs, in the framed event with this anchor.
/// It is 0 where it would be below 0.
pub fn framed_reference(group: &Group, anchor: u64, time_offset: u32) -> u64
    requires { framed_reference_of group.now.info anchor time_offset < 2 ^ 63 }
    ensures { result ≡ framed_reference_of group.now.info anchor time_offset }
{
    let synchronised = anchor + u64::from(group.sync_delay());
    let latest = synchronised + u64::from(group.info.sdu_interval) + u64::from(group.iso_us());
    latest.saturating_sub(u64::from(time_offset))
}

/// When a unit is rendered, in µs: its reference and the presentation delay.
pub fn render(reference: u64, delay: u32) -> u64
    requires { render_of reference delay < 2 ^ 63 }
    ensures { result ≡ render_of reference delay }
{
    reference + u64::from(delay)
}
