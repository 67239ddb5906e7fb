//! A train that is heard, and the octets that it carries.
ghost use Rattle.std.specs.Prelude.{◌≡◌};
ghost use Rattle.delegator_history.specs.Trains.{base_in, big_info_in};
ghost use Rattle.bcast_base.specs.Reading.{Gives};

use base_grammar::{service_data, structure};

/// The UUID of the Basic Audio Announcement Service.
const BASIC_AUDIO_ANNOUNCEMENT: u16 = 0x1851;

/// The AD type of a BIGInfo.
const BIG_INFO: u8 = 0x2c;

/// What is heard of a train: the data of its extended and its periodic advertising and of its additional controller data,
/// and the time in µs.
#[derive(Clone, Copy)]
pub(crate) struct Train<'a> {
    pub address_type: u8,
    pub sid: u8,
    pub ext: &'a [u8],
    pub adv: &'a [u8],
    pub acad: &'a [u8],
    pub heard_at: u64,
}

/// The octets that are announced as BASE.
pub(crate) fn base_octets(adv: &[u8]) -> Option<&[u8]>
    ensures { Gives (λ octets. octets.now) result (base_in adv.now) }
{
    match service_data(adv, BASIC_AUDIO_ANNOUNCEMENT) {
        Ok(found) => found,
        Err(_) => None,
    }
}

/// The octets of the structure of the BIGInfo.
pub(crate) fn big_info_octets(acad: &[u8]) -> Option<&[u8]>
    ensures { Gives (λ octets. octets.now) result (big_info_in acad.now) }
{
    match structure(acad, BIG_INFO) {
        Ok(found) => found,
        Err(_) => None,
    }
}
