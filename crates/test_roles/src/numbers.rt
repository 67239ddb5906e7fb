//! The numbers of the groups of the tests, and setups of their sources.
ghost use Rattle.std.specs.Prelude.{◌≡◌, IfSome};

use base_grammar::decode_base;
use big_info::BigInfo;
use source_machine::{Identity, Setup};
use std::alloc::Global;
pub(crate) use test_calls::numbers::SINGLE;

/// Units of at most 8 octets every 10 ms in two PDUs of at most 4 on LE 2M, each sent once.
pub(crate) const FRAGMENTS: BigInfo = BigInfo {
    nse: 2,
    bn: 2,
    sub_interval: 400,
    max_sdu: 8,
    ..SINGLE
};

/// A BASE of a presentation delay of 40 ms and one stream of a codec other than LC3.
const BASE: [u8; 14] = [0x40, 0x9c, 0, 1, 1, 0xff, 1, 0, 2, 0, 0, 0, 1, 0];

/// A setup of this group with this advertising SID and this first anchor; `None` where memory runs out.
pub(crate) fn setup_of(alloc: Global, info: BigInfo, sid: u8, origin: u64) -> Option<Setup>
    ensures info { IfSome result (λ setup. setup.info ≡ info) }
    ensures origin { IfSome result (λ setup. setup.origin ≡ origin) }
{
    let Ok(base) = decode_base(alloc, &BASE) else {
        return None;
    };
    Some(Setup {
        identity: Identity {
            address_type: 0,
            address: [sid; 6],
            sid,
            broadcast_id: [0x56, 0x34, 0x12],
        },
        info,
        base,
        origin,
    })
}
