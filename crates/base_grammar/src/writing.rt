ghost use Rattle.std.specs.Prelude.{◌≡◌, ◌<◌, ◌≤◌, ◌++◌, ◌^◌, length, IfOk, OnOk};
ghost use Rattle.std.specs.List.{flat_map};
ghost use Rattle.base_grammar.specs.Layout.{endpoint, encoding, entry, subgroup, BaseIs};

use crate::base::Base;
use crate::subgroup::{BaseEntry, Subgroup};
use bcast_base::{Memory, Octets, put_counted, put_number};
use std::alloc::Global;

/// The octets of a BASE, at most 252.
pub fn encode_base(alloc: Global, base: &Base) -> Result<Octets, Memory>
    ensures { IfOk result (λ octets. BaseIs base.now octets) }
{
    encode_fields(alloc, base.delay(), base.as_slice())
}

/// Puts the octets of a BASE at the end, which `octet_count` counts.
pub fn put_base(out: &mut Octets, base: &Base) -> Result<(), Memory>
    ensures base { OnOk result (BaseIs base.now (encoding base.now)) }
    ensures put { OnOk result (out.new ≡ out.old ++ encoding base.now) }
{
    put_fields(out, base.delay(), base.as_slice())
}

// The octets of these fields, which are few enough for a BASE.
pub(crate) fn encode_fields(
    alloc: Global,
    delay: u32,
    subgroups: &[Subgroup],
) -> Result<Octets, Memory>
    requires delay { delay < 2 ^ 24 }
    requires few { length (flat_map subgroup subgroups.now) ≤ 248 }
    ensures { IfOk result (λ octets. octets ≡ encoding (endpoint delay subgroups.now)) }
{
    let mut out = Octets::new(alloc);
    put_fields(&mut out, delay, subgroups)?;
    Ok(out)
}

// Puts these octets at the end.
fn put_fields(out: &mut Octets, delay: u32, subgroups: &[Subgroup]) -> Result<(), Memory>
    requires delay { delay < 2 ^ 24 }
    requires few { length (flat_map subgroup subgroups.now) ≤ 248 }
    ensures { OnOk result (out.new ≡ out.old ++ encoding (endpoint delay subgroups.now)) }
{
    put_number(out, u64::from(delay), 3)?;
    out.push(subgroups.len() as u8)?;
    for subgroup in subgroups {
        put_subgroup(out, subgroup)?;
    }
    Ok(())
}

// Puts the octets of a subgroup at the end.
fn put_subgroup(out: &mut Octets, from: &Subgroup) -> Result<(), Memory>
    requires { length (subgroup from.now) ≤ 252 }
    ensures { OnOk result (out.new ≡ out.old ++ subgroup from.now) }
{
    let entries = from.entries.as_slice();
    out.push(entries.len() as u8)?;
    out.append(&from.codec)?;
    put_counted(out, from.config.as_slice())?;
    put_counted(out, from.metadata.as_slice())?;
    put_entries(out, entries)
}

// Puts the octets of entries at the end.
fn put_entries(out: &mut Octets, entries: &[BaseEntry]) -> Result<(), Memory>
    requires { length (flat_map entry entries.now) ≤ 252 }
    ensures { OnOk result (out.new ≡ out.old ++ flat_map entry entries.now) }
{
    for entry in entries {
        put_entry(out, entry)?;
    }
    Ok(())
}

// Puts the octets of an entry at the end.
fn put_entry(out: &mut Octets, from: &BaseEntry) -> Result<(), Memory>
    requires { length from.now.config < 256 }
    ensures { OnOk result (out.new ≡ out.old ++ entry from.now) }
{
    out.push(from.bis.get())?;
    put_counted(out, from.config.as_slice())
}
