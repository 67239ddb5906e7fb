ghost use Rattle.std.specs.Prelude.{◌≡◌};
ghost use Rattle.delegator_history.specs.Announced.{numbers_alone};
ghost use Rattle.delegator_machine.specs.Groups.{by_numbers};

use big_info::{BigInfo, Group};
use sync_reference::BigSync;

/// The same with the numbers of the group that a receiver goes by.
pub(crate) fn by_numbers(big_sync: &BigSync) -> BigSync
    ensures { result ≡ by_numbers big_sync.now }
{
    BigSync {
        group: alone(&big_sync.group),
        which: big_sync.which,
        first: big_sync.first,
        anchor: big_sync.anchor,
        delay: big_sync.delay,
    }
}

/// The group by these numbers.
fn alone(group: &Group) -> Group
    ensures { result.info ≡ numbers_alone group.now.info }
{
    Group {
        info: BigInfo {
            big_offset: 0,
            big_offset_units: 0,
            seed_access_address: 0,
            base_crc_init: 0,
            chm: 0,
            bis_payload_count: 0,
            ..group.info
        },
    }
}
