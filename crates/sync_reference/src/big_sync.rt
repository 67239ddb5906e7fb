use bcast_base::BisSet;
use big_info::Group;
use std::marker::Model;

/// How a sink is synchronized to a BIG.
#[derive(Drop)]
pub struct BigSync {
    pub group: Group,
    /// The streams that the sink takes.
    pub which: BisSet,
    /// The first event, at most 2^39.
    pub first: u64,
    /// Its anchor in µs, at most 2^61 + 2^23.
    pub anchor: u64,
    /// The presentation delay in µs, below 2^24.
    pub delay: u32,
}

impl Model for BigSync {
    ghost use Rattle.std.specs.Prelude.{◌≤◌, ◌<◌, ◌+◌, ◌^◌};
    ghost use Rattle.sync_reference.specs.BigSync.{BigSync};

    ghost Value = { BigSync };

    ghost view = { λ a. record {
      info = a.group.info;
      which = a.which;
      first = a.first;
      anchor = a.anchor;
      delay = a.delay;
    } };

    ghost invariant = { λ a. (a.first ≤ 2 ^ 39) × (a.anchor ≤ 2 ^ 61 + 2 ^ 23) × (a.delay < 2 ^ 24) };
}
