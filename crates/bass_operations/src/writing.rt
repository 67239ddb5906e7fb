ghost use Rattle.std.specs.Prelude.{◌≡◌, ◌++◌, IfOk, OnOk};
ghost use Rattle.bcast_base.specs.Layout.{laid};
ghost use Rattle.bass_operations.specs.Layout.{AddFits, FitsWidths, IsLaid, MetadataFits, ModifyFits, WishesFit, add_fields, encoding, modify_fields, wishes_fields, wishes_of};

use crate::operation::{AddSource, ModifySource, Operation};
use crate::wishes::Wishes;
use bcast_base::{Memory, Octets, put_number, put_subgroup};
use std::alloc::Global;

/// The octets that are taken for an operation at once: more than most have.
const ROOM: usize = 64;

/// The octets of an operation (Broadcast Audio Scan Service 1.0, section 3.1.1), also where a field has a reserved value or
/// a stream stands in two subgroups. Each metadata has at most 255 octets.
pub fn encode_operation(alloc: Global, op: &Operation) -> Result<Octets, Memory>
    requires { MetadataFits (wishes_of op.now) }
    ensures { IfOk result (λ octets. IsLaid op.now octets) }
{
    let mut out = Octets::of(Vec::with_capacity(alloc, ROOM)?);
    put_operation(&mut out, op)?;
    Ok(out)
}

// Puts the octets of an operation at the end.
#[inline(always)]
fn put_operation(out: &mut Octets, op: &Operation) -> Result<(), Memory>
    requires { MetadataFits (wishes_of op.now) }
    ensures fields { OnOk result (out.new ≡ out.old ++ encoding op.now) }
    ensures widths { OnOk result (FitsWidths op.now) }
{
    match op {
        Operation::ScanStopped => out.push(0),
        Operation::ScanStarted => out.push(1),
        Operation::Add(add) => {
            out.push(2)?;
            put_add(out, add)
        }
        Operation::Modify(modify) => {
            out.push(3)?;
            put_modify(out, modify)
        }
        Operation::Code { source_id, code } => {
            out.append(&[4, *source_id])?;
            out.append(code)
        }
        Operation::Remove { source_id } => out.append(&[5, *source_id]),
    }
}

// Puts the fields of an Add Source at the end.
fn put_add(out: &mut Octets, add: &AddSource) -> Result<(), Memory>
    requires { MetadataFits add.now.wishes }
    ensures fields { OnOk result (out.new ≡ out.old ++ laid (add_fields add.now)) }
    ensures widths { OnOk result (AddFits add.now) }
{
    let address = add.address;
    let broadcast_id = add.broadcast_id;
    out.push(add.address_type)?;
    out.append(&address)?;
    out.push(add.sid)?;
    out.append(&broadcast_id)?;
    out.push(add.pa_sync)?;
    put_number(out, u64::from(add.pa_interval), 2)?;
    put_wishes(out, &add.wishes)
}

// Puts the fields of a Modify Source at the end.
fn put_modify(out: &mut Octets, modify: &ModifySource) -> Result<(), Memory>
    requires { MetadataFits modify.now.wishes }
    ensures fields { OnOk result (out.new ≡ out.old ++ laid (modify_fields modify.now)) }
    ensures widths { OnOk result (ModifyFits modify.now) }
{
    out.push(modify.source_id)?;
    out.push(modify.pa_sync)?;
    put_number(out, u64::from(modify.pa_interval), 2)?;
    put_wishes(out, &modify.wishes)
}

// Puts the number of wishes and the subgroups at the end.
fn put_wishes(out: &mut Octets, wishes: &Wishes) -> Result<(), Memory>
    requires { MetadataFits wishes.now }
    ensures fields { OnOk result (out.new ≡ out.old ++ laid (wishes_fields wishes.now)) }
    ensures widths { OnOk result (WishesFit wishes.now) }
{
    out.push(wishes.count() as u8)?;
    for wish in wishes.as_slice() {
        let bis_sync = wish.bis_sync;
        put_subgroup(out, bis_sync, wish.metadata.as_slice())?;
    }
    Ok(())
}
