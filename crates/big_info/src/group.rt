ghost use Rattle.std.specs.Prelude.{◌≡◌, ◌≤◌, IfOk, IfErr, OnOk, IfNone, IfSome, Some, None};
ghost use Rattle.big_info.specs.Bounds.{Bounds};
ghost use Rattle.big_info.specs.Rows.{IsFirstFault, NoFault, first_fault};
ghost use Rattle.big_info.specs.Schedule.{horizon_of, per_event_of, per_unit_of};
ghost use Rattle.big_info.specs.Time.{iso_us_of, mpt_of, sync_delay_of};
ghost use Rattle.big_info.specs.Widths.{FitsWidths};

use crate::fault::GroupFault;
use crate::info::BigInfo;
use crate::limits::Limits;
use crate::rows::{ORDER, holds};
use crate::{schedule, time};

/// A group whose numbers were checked: no fault holds of its info, whatever the limits it was checked with.
#[derive(Clone, Copy)]
pub struct Group {
    pub info: BigInfo,
    pub ghost widths: { FitsWidths info },
    pub ghost no_fault: { NoFault 31 info },
    pub ghost bounds: { Bounds info },
}

impl Group {
    /// The info that was checked.
    pub fn info(&self) -> &BigInfo
        ensures { result.now ≡ self.now.info }
    {
        &self.info
    }

    /// H: how many events ahead the last group of subevents of an event is sent.
    pub fn horizon(&self) -> u32
        ensures { result ≡ horizon_of self.now.info }
    {
        schedule::horizon(&self.info)
    }

    /// MPT: the time in µs that the longest PDU takes on the air.
    pub fn mpt(&self) -> u32
        ensures { result ≡ mpt_of self.now.info }
    {
        time::mpt(&self.info)
    }

    /// BIG_Sync_Delay: from the anchor of an event to the end of its last PDU, in µs.
    pub fn sync_delay(&self) -> u32
        ensures { result ≡ sync_delay_of self.now.info }
    {
        time::sync_delay(&self.info)
    }

    /// The ISO interval in µs.
    pub fn iso_us(&self) -> u32
        ensures { result ≡ iso_us_of self.now.info }
    {
        time::iso_us(&self.info)
    }

    /// k: the whole units of an event.
    pub fn per_event(&self) -> u32
        ensures { result ≡ per_event_of self.now.info }
    {
        schedule::per_event(&self.info)
    }

    /// m: the PDUs that the longest unit takes.
    pub fn per_unit(&self) -> u32
        ensures { result ≡ per_unit_of self.now.info }
    {
        schedule::per_unit(&self.info)
    }
}

/// Checks the numbers of a group by the limits of version 1.
pub fn check_group(info: &BigInfo) -> Result<Group, GroupFault>
    requires { FitsWidths info.now }
    ensures ok { IfOk result (λ group. (group.info ≡ info.now) × (first_fault 15 info.now ≡ None)) }
    ensures err { IfErr result (λ fault. first_fault 15 info.now ≡ Some fault) }
    ensures none { OnOk result (NoFault 15 info.now) }
    ensures first { IfErr result (λ fault. IsFirstFault 15 info.now fault) }
{
    check_group_within(info, Limits::VERSION_1)
}

/// Checks the numbers of a group: the first fault that holds, or the group where none does.
pub fn check_group_within(info: &BigInfo, limits: Limits) -> Result<Group, GroupFault>
    requires widths { FitsWidths info.now }
    requires horizon { limits.horizon ≤ 31 }
    ensures ok { IfOk result (λ group. (group.info ≡ info.now) × (first_fault limits.horizon info.now ≡ None)) }
    ensures err { IfErr result (λ fault. first_fault limits.horizon info.now ≡ Some fault) }
    ensures none { OnOk result (NoFault limits.horizon info.now) }
    ensures first { IfErr result (λ fault. IsFirstFault limits.horizon info.now fault) }
{
    match first(info, limits.horizon) {
        Some(fault) => Err(fault),
        None => Ok(Group { info: *info }),
    }
}

/// The first fault that holds, where the horizon of a group is at most `greatest`.
fn first(info: &BigInfo, greatest: u8) -> Option<GroupFault>
    requires { FitsWidths info.now }
    ensures none { IfNone result (NoFault greatest info.now) }
    ensures first { IfSome result (λ fault. IsFirstFault greatest info.now fault) }
{
    for fault in ORDER {
        if holds(info, greatest, fault) {
            return Some(fault);
        }
    }
    None
}
