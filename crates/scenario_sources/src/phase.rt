ghost use Rattle.std.specs.Prelude.{◌≡◌, ◌≤◌, ◌<◌, ◌^◌};
ghost use Rattle.big_info.specs.Widths.{FitsWidths};

use base_grammar::BaseDraft;
use big_info::BigInfo;
use multi_source::Broadcast;
use source_machine::Identity;

/// What the lines before `start` say of a source.
#[derive(Drop)]
pub(crate) struct Described {
    /// The numbers of the group, and its cipher where one was said.
    pub(crate) info: BigInfo,
    /// The anchor of the first event, in µs.
    pub(crate) origin: u64,
    /// The presentation delay in µs.
    pub(crate) delay: u32,
    pub(crate) identity: Option<Identity>,
    /// The BASE as far as it was said.
    pub(crate) base: BaseDraft,
    pub(crate) ghost widths: { FitsWidths info },
    pub(crate) ghost least: { 3000 ≤ origin },
    pub(crate) ghost greatest: { origin ≤ 2 ^ 48 },
    pub(crate) ghost delay_is: { delay < 2 ^ 24 },
}

/// Where a source stands.
#[derive(Drop)]
pub(crate) enum Phase {
    /// Nothing was said of it.
    Absent,
    /// It has a group.
    Described(Described),
    /// It is between its start and its end by `stop` or `terminate`.
    Sending(Broadcast),
    /// It was stopped. What it sent is still heard.
    Stopped(Broadcast),
}

/// Puts a source where it stands next.
pub(crate) fn put_phase(phase: &mut Phase, next: Phase)
    ensures { phase.new ≡ next }
{
    *phase = next;
}
