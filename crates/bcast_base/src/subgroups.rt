ghost use Rattle.std.specs.Prelude.{◌≡◌, ◌≤◌, ◌<◌, ◌++◌, length, IsTrue, OnOk, OnErr};
ghost use Rattle.bcast_base.specs.Reading.{Gives};
ghost use Rattle.bcast_base.specs.Subgroups.{Subgroup, subgroup, subgroup_in, reserved_in, is_reserved};

use crate::reading::{counted_at, number_at, place_of};
use crate::{Memory, Octets};

/// A subgroup of an operation or of a receive state, lent from the octets that encode it (Broadcast Audio Scan Service 1.0,
/// sections 3.1.1.4 and 3.2).
#[derive(Clone, Copy)]
pub struct LentSubgroup<'a> {
    /// Bit n stands for the stream index n + 1.
    pub bits: u32,
    pub metadata: &'a [u8],
}

/// The subgroup at the front, and the octets after it, or nothing where it isn't whole.
#[tactic(auto, unfolding(crate::specs::Subgroups::subgroup_in))]
pub fn subgroup_at(from: &[u8]) -> Option<(LentSubgroup<'_>, &[u8])>
    ensures { Gives (λ x. (record { bits = x.0.bits; metadata = x.0.metadata.now }, x.1.now)) result (subgroup_in from.now) }
{
    let (bits, rest) = number_at(from, 4)?;
    let (metadata, rest) = counted_at(rest)?;
    let bits = bits as u32;
    Some((LentSubgroup { bits, metadata }, rest))
}

/// Whether a bit field of streams has a reserved value: bit 31 is set, but not every bit.
pub fn are_reserved(bits: u32) -> bool
    ensures { result ≡ is_reserved bits }
{
    bits > 0x7fff_ffff && bits != u32::MAX
}

/// The place in `whole` of the first bit field with a reserved value, of so many subgroups at the front of `octets`, the
/// last octets of `whole`. It is `None` where a subgroup before it isn't whole.
pub fn reserved_subgroup(whole: &[u8], count: u8, octets: &[u8]) -> Option<usize>
    requires { length octets.now ≤ length whole.now }
    ensures { result ≡ reserved_in whole.now count octets.now }
{
    let mut rest = octets;
    'subgroups: for _ in 0..count {
        let Some((group, after)) = subgroup_at(rest) else {
            return None;
        };
        if are_reserved(group.bits) {
            return Some(place_of(whole, rest));
        }
        rest = after;
    }
    None
}

/// Puts a subgroup at the end. The metadata has at most 255 octets. `out` stays as it was where memory runs out.
pub fn put_subgroup(out: &mut Octets, bits: u32, metadata: &[u8]) -> Result<(), Memory>
    requires { length metadata.now < 256 }
    ensures ok { OnOk result (out.new ≡ out.old ++ subgroup (record { bits = bits; metadata = metadata.now })) }
    ensures err { OnErr result (out.new ≡ out.old) }
{
    let before = out.as_slice().len();
    let [a, b, c, d] = bits.to_le_bytes();
    out.append(&[a, b, c, d, metadata.len() as u8])?;
    let put = out.append(metadata);
    if put.is_err() {
        out.truncate(before);
    }
    put
}
