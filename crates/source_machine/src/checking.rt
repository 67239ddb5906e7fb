//! The check of the group that a source is configured with.
ghost use Rattle.std.specs.Prelude.{◌≡◌, ◌≤◌, IfOk, IfErr};
ghost use Rattle.big_info.specs.Rows.{IsFirstFault};
ghost use Rattle.big_info.specs.Widths.{FitsWidths};
ghost use Rattle.big_info.specs.declared.fault.GroupFault.TheVariants.{Encrypted};
ghost use Rattle.source_machine.specs.Ciphers.{IsBadFor, MayBeSent, without_cipher};

use big_info::{BigInfo, Group, GroupFault, Limits, check_group_within};

/// The group without its cipher, where no row of the group check holds but that of a cipher; else the first row.
pub(crate) fn check_numbers(info: &BigInfo, limits: Limits) -> Result<Group, GroupFault>
    requires widths { FitsWidths info.now }
    requires horizon { limits.horizon ≤ 31 }
    ensures group { IfOk result (λ group. group.info ≡ without_cipher info.now) }
    ensures ok { IfOk result (λ _. MayBeSent limits.horizon info.now) }
    ensures err { IfErr result (λ fault. IsBadFor limits.horizon info.now fault) }
{
    match check_group_within(info, limits) {
        Err(GroupFault::Encrypted) => Ok(plain_group(info, limits)),
        checked => checked,
    }
}

/// The group without its cipher, of which that is the one row that holds.
fn plain_group(info: &BigInfo, limits: Limits) -> Group
    requires widths { FitsWidths info.now }
    requires horizon { limits.horizon ≤ 31 }
    requires encrypted { IsFirstFault limits.horizon info.now Encrypted }
    ensures { result.info ≡ without_cipher info.now }
{
    let plain = BigInfo {
        cipher: None,
        ..*info
    };
    check_group_within(&plain, limits).unwrap()
}
