ghost use Rattle.std.specs.Prelude.{◌≡◌, ◌≤◌, ◌<◌, ◌^◌};
ghost use Rattle.source_machine.specs.State.Lent.{AheadsAre, PlacesAre};

use crate::carried::Carried;
use base_grammar::Base;
use big_info::{BigInfo, Cipher, Group};

/// Who a source is to its receivers (Basic Audio Profile 1.0, section 3.7.2, and Core 5.2, volume 6 part B).
#[derive(Clone, Copy, Debug, PartialEq, Eq)]
pub struct Identity {
    /// 0 for a public and 1 for a random address.
    pub address_type: u8,
    pub address: [u8; 6],
    /// The Advertising_SID, from 0 to 15.
    pub sid: u8,
    pub broadcast_id: [u8; 3],
}

impl Identity {
    ghost use Rattle.source_machine.specs.Setups.{are_twins};

    /// Whether two sources are the same to their receivers: they have the same address type, SID and Broadcast_ID.
    #[tactic(auto, unfolding(crate::specs::Setups::are_twins))]
    pub fn is_twin(self, other: Identity) -> bool
        ensures { result ≡ are_twins self other }
    {
        self.address_type == other.address_type
            && self.sid == other.sid
            && self.broadcast_id == other.broadcast_id
    }
}

/// What a source is configured with.
#[derive(Drop)]
pub struct Setup {
    pub identity: Identity,
    /// The numbers of the group, and its cipher where it is encrypted.
    pub info: BigInfo,
    /// The BASE, with the presentation delay.
    pub base: Base,
    /// The anchor of the first event, in µs.
    pub origin: u64,
}

/// A setup whose group was checked.
#[derive(Drop)]
pub(crate) struct Plan {
    pub(crate) identity: Identity,
    /// The group without its cipher.
    pub(crate) group: Group,
    /// Which PDU each subevent carries.
    pub(crate) carried: Carried,
    pub(crate) cipher: Option<Cipher>,
    pub(crate) base: Base,
    pub(crate) origin: u64,
    /// Whether the time of a framed unit may be past the next anchor.
    pub(crate) ahead: bool,
    ghost least: { 3000 ≤ origin },
    ghost greatest: { origin ≤ 2 ^ 48 },
    ghost delay_is: { base.delay < 2 ^ 24 },
    ghost aheads_are: { AheadsAre group.info carried.aheads },
    ghost places_are: { PlacesAre group.info carried.places },
}
