ghost use Rattle.std.specs.Prelude.{◌≡◌, ◌*◌, ◌↔◌, IsTrue};
ghost use Rattle.big_info.specs.Rows.{has_fault};
ghost use Rattle.big_info.specs.Schedule.{per_event_of, per_unit_of};
ghost use Rattle.big_info.specs.Widths.{FitsWidths};

use crate::fault::GroupFault;
use crate::info::BigInfo;
use crate::schedule::{groups, horizon, per_event, per_unit};
use crate::time::{iso_us, mpt, sync_delay};

/// All faults in the order of test.
pub const ORDER: [GroupFault; 14] = [
    GroupFault::RangeIso,
    GroupFault::RangeSdu,
    GroupFault::RangePdu,
    GroupFault::Bn,
    GroupFault::NseNotMultiple,
    GroupFault::Irc,
    GroupFault::PhyNotSupported,
    GroupFault::FramedPduSmall,
    GroupFault::UnframedMultiple,
    GroupFault::UnframedBn,
    GroupFault::Horizon,
    GroupFault::SubInterval,
    GroupFault::SyncDelay,
    GroupFault::Encrypted,
];

/// Whether this fault holds of the info, where the horizon of a group is at most `greatest`.
pub fn holds(info: &BigInfo, greatest: u8, fault: GroupFault) -> bool
    requires { FitsWidths info.now }
    ensures { result ≡ has_fault greatest info.now fault }
{
    match fault {
        GroupFault::RangeIso => {
            info.iso_interval < 4 || info.iso_interval > 3200 || info.num_bis == 0
        }
        GroupFault::RangeSdu => info.sdu_interval < 255 || info.max_sdu == 0,
        GroupFault::RangePdu => info.max_pdu == 0 || info.max_pdu > 251,
        GroupFault::Bn => info.bn == 0,
        GroupFault::NseNotMultiple => info.nse == 0 || !info.nse.is_multiple_of(info.bn),
        GroupFault::Irc => info.irc == 0 || info.irc as u32 > groups(info),
        GroupFault::PhyNotSupported => info.phy != 0 && info.phy != 1,
        GroupFault::FramedPduSmall => info.framing == 1 && info.max_pdu < 8,
        GroupFault::UnframedMultiple => {
            info.framing == 0 && !iso_us(info).is_multiple_of(info.sdu_interval)
        }
        GroupFault::UnframedBn => info.framing == 0 && !is_unframed_bn(info),
        GroupFault::Horizon => horizon(info) > greatest as u32,
        GroupFault::SubInterval => info.nse > 1 && info.sub_interval < mpt(info) + 150,
        GroupFault::SyncDelay => sync_delay(info) > iso_us(info),
        GroupFault::Encrypted => info.cipher.is_some(),
    }
}

/// Whether BN is the PDUs that the units of an event take.
fn is_unframed_bn(info: &BigInfo) -> bool
    ensures { IsTrue result ↔ (info.now.bn ≡ per_event_of info.now * per_unit_of info.now) }
{
    info.bn as u64 == per_event(info) as u64 * per_unit(info) as u64
}
