//! What is wanted of the subgroups of a source, as C says it.
ghost use Rattle.std.specs.Prelude.{◌≡◌, ◌≤◌, ◌↔◌, IfOk, IfSome, IsTrue, length};
ghost use Rattle.bass_operations.specs.Layout.{MetadataFits};
ghost use Rattle.bcast_base.specs.Reading.{Gives, counted_in};
ghost use Rattle.link_c.specs.Wishes.{are_free, octet_count, wishes_in};

use bass_operations::{Wish, Wishes};
use bcast_base::{Memory, Octets, are_reserved, octet_at, octets_at};
use std::alloc::Global;

/// The greatest count of octets of an attribute's value (Core 5.2, volume 3 part F, section 3.2.9).
const LONGEST: usize = 512;

/// Whether no bits have a reserved value: bit 31 is set only where all are.
pub(crate) fn are_free(bis_sync: &[u32]) -> bool
    ensures { result ≡ are_free bis_sync.now }
{
    bis_sync.iter().all(|bits| !are_reserved(*bits))
}

/// Whether an operation with so many octets before its subgroups has at most 512 octets.
pub(crate) fn is_short(prefix: usize, bis_sync: &[u32], metadata: &[u8]) -> bool
    requires { prefix ≤ 16 }
    ensures { IsTrue result ↔ (octet_count prefix bis_sync.now metadata.now ≤ 512) }
{
    bis_sync.len() <= LONGEST
        && metadata.len() <= LONGEST
        && prefix + 4 * bis_sync.len() + metadata.len() <= LONGEST
}

/// The metadata at the front, behind the octet that counts it, and the octets behind it; nothing where it isn't whole.
fn metadata_at(from: &[u8]) -> Option<(&[u8], &[u8])>
    ensures is { Gives (λ x. (x.0.now, x.1.now)) result (counted_in from.now) }
    ensures few { IfSome result (λ x. length x.0.now ≤ 255) }
{
    let (count, rest) = octet_at(from)?;
    octets_at(rest, usize::from(count))
}

/// What is wanted of each subgroup; nothing where the octets are the metadata of fewer subgroups, or of more.
pub(crate) fn wishes_of(
    alloc: Global,
    bis_sync: &[u32],
    metadata: &[u8],
) -> Result<Option<Wishes>, Memory>
    requires { length bis_sync.now ≤ 255 }
    ensures is { IfOk result (λ wishes. wishes ≡ wishes_in bis_sync.now metadata.now) }
    ensures fits { IfOk result (λ wishes. IfSome wishes MetadataFits) }
{
    let mut wishes = Wishes::new(alloc);
    let mut rest = metadata;
    'subgroups: for bits in bis_sync {
        let Some((octets, behind)) = metadata_at(rest) else {
            return Ok(None);
        };
        let Ok(metadata) = Octets::copy(alloc, octets) else {
            return Err(Memory);
        };
        let bis_sync = *bits;
        let Ok(()) = wishes.push(Wish { bis_sync, metadata }) else {
            return Err(Memory);
        };
        rest = behind;
    }
    if rest.is_empty() {
        Ok(Some(wishes))
    } else {
        Ok(None)
    }
}
