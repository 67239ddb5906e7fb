ghost use Rattle.std.specs.Prelude.{◌≡◌, ◌≤◌, ◌++◌, length, IfOk, OnOk};
ghost use Rattle.ltv_codec.specs.Layout.{structure, IsLtvList};

use crate::ltvs::{Ltv, Ltvs};
use bcast_base::{Memory, Octets};
use std::alloc::Global;

/// The octets of a list: Length, Type and Value of each structure.
pub fn encode_ltvs(alloc: Global, list: &Ltvs) -> Result<Octets, Memory>
    ensures { IfOk result (λ octets. IsLtvList list.now octets) }
{
    let mut out = Octets::new(alloc);
    for ltv in list.as_slice() {
        put_ltv(&mut out, ltv)?;
    }
    Ok(out)
}

// Puts the octets of a structure at the end.
fn put_ltv(out: &mut Octets, ltv: &Ltv) -> Result<(), Memory>
    requires { length ltv.now.value ≤ 254 }
    ensures { OnOk result (out.new ≡ out.old ++ structure ltv.now) }
{
    let value = ltv.value.as_slice();
    out.push(value.len() as u8 + 1)?;
    out.push(ltv.kind)?;
    out.append(value)
}
