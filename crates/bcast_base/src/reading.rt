ghost use Rattle.std.specs.Prelude.{◌≡◌, ◌<◌, ◌≤◌, ◌*◌, ◌^◌, length, IfSome};
ghost use Rattle.bcast_base.specs.Reading.{Gives, octet_in, octets_in, number_in, counted_in, place_in};

use crate::read_le;

/// One octet and the octets after it, or nothing where there is none.
pub fn octet_at(from: &[u8]) -> Option<(u8, &[u8])>
    ensures { Gives (λ x. (x.0, x.1.now)) result (octet_in from.now) }
{
    match from {
        [] => None,
        [octet, rest @ ..] => Some((*octet, rest)),
    }
}

/// The first `k` octets and those after them, or nothing where there are fewer.
pub fn octets_at(from: &[u8], k: usize) -> Option<(&[u8], &[u8])>
    ensures { Gives (λ x. (x.0.now, x.1.now)) result (octets_in k from.now) }
{
    if from.len() < k {
        return None;
    }
    Some(from.split_at(k))
}

/// The first `N` octets as an array and those after them, or nothing where there are fewer.
pub fn array_at<const N: usize>(from: &[u8]) -> Option<([u8; N], &[u8])>
    ensures { Gives (λ x. (x.0, x.1.now)) result (octets_in N from.now) }
{
    let (octets, rest) = octets_at(from, N)?;
    let mut array = [0; N];
    array.copy_from_slice(octets);
    Some((array, rest))
}

/// The number that the first `k` octets encode, the least octet first, and the octets after them, or nothing where there
/// are fewer. `k` is at most 8.
pub fn number_at(from: &[u8], k: usize) -> Option<(u64, &[u8])>
    requires { k ≤ 8 }
    ensures number { Gives (λ x. (x.0, x.1.now)) result (number_in k from.now) }
    ensures below { IfSome result (λ x. x.0 < 2 ^ (8 * k)) }
{
    let (octets, rest) = octets_at(from, k)?;
    Some((read_le(octets), rest))
}

/// As many octets as the first octet counts, which stand behind it, and the octets after them. It is nothing where there
/// is no first octet, or fewer follow than it counts.
pub fn counted_at(from: &[u8]) -> Option<(&[u8], &[u8])>
    ensures { Gives (λ x. (x.0.now, x.1.now)) result (counted_in from.now) }
{
    let (count, rest) = octet_at(from)?;
    octets_at(rest, usize::from(count))
}

/// The place, in octets from 0, in `whole` at which `rest`, its last octets, begins.
pub fn place_of(whole: &[u8], rest: &[u8]) -> usize
    requires { length rest.now ≤ length whole.now }
    ensures { result ≡ place_in whole.now rest.now }
{
    whole.len() - rest.len()
}
