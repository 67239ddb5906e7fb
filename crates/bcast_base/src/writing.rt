ghost use Rattle.std.specs.Prelude.{◌≡◌, ◌<◌, ◌≤◌, ◌*◌, ◌^◌, ◌++◌, length, OnOk, OnErr};
ghost use Rattle.bcast_base.specs.Encoding.{number, counted};

use crate::{Memory, Octets};

/// Puts the `k` octets of a number at the end, the least octet first. `k` is at most 8, and the number has room in them.
#[tactic(auto, using(crate::proofs::Fields::prefix_of_eight))]
pub fn put_number(out: &mut Octets, value: u64, k: usize) -> Result<(), Memory>
    requires few { k ≤ 8 }
    requires room { value < 2 ^ (8 * k) }
    ensures ok { OnOk result (out.new ≡ out.old ++ number k value) }
    ensures err { OnErr result (out.new ≡ out.old) }
{
    out.append(&value.to_le_bytes()[..k])
}

/// Puts at most 255 octets at the end, behind one octet that counts them.
pub fn put_counted(out: &mut Octets, octets: &[u8]) -> Result<(), Memory>
    requires { length octets.now < 256 }
    ensures ok { OnOk result (out.new ≡ out.old ++ counted octets.now) }
    ensures err { OnErr result (out.new ≡ out.old) }
{
    let before = out.as_slice().len();
    out.push(octets.len() as u8)?;
    let put = out.append(octets);
    if put.is_err() {
        out.truncate(before);
    }
    put
}
