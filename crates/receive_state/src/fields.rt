//! Fields that are read behind each other, with the place of the one that passes the end.
ghost use Rattle.std.specs.Prelude.{◌≡◌, ◌≤◌, length, IfOk};
ghost use Rattle.bcast_base.specs.Reading.{octet_in, octets_in};
ghost use Rattle.bcast_base.specs.Tries.{ReadsAs};
ghost use Rattle.receive_state.specs.Steps.{field_in};

use crate::fault::StateFault;
use bcast_base::{octet_at, place_of};

// The place of a field that passes the end.
#[derive(Clone, Copy)]
pub(crate) struct ShortAt {
    pub place: usize,
}

impl From<ShortAt> for StateFault {
    ghost use Rattle.receive_state.specs.declared.fault.StateFault.TheVariants as faults;

    ghost from_gives = { λ short fault. fault ≡ faults.Short short.place };

    fn from(short: ShortAt) -> StateFault {
        StateFault::Short { place: short.place }
    }
}

// One octet at the front of `rest`, the last octets of `whole`, or the place of `rest`.
pub(crate) fn octet_of<'a>(whole: &[u8], rest: &'a [u8]) -> Result<(u8, &'a [u8]), ShortAt>
    requires { length rest.now ≤ length whole.now }
    ensures field { ReadsAs (λ x. (x.0, x.1.now)) (λ e. e.place) result (field_in whole.now octet_in rest.now) }
    ensures within { IfOk result (λ x. length x.1.now ≤ length whole.now) }
{
    match octet_at(rest) {
        Some((octet, after)) => Ok((octet, after)),
        None => Err(ShortAt {
            place: place_of(whole, rest),
        }),
    }
}

// So many octets there.
pub(crate) fn octets_of<'a>(
    whole: &[u8],
    rest: &'a [u8],
    k: usize,
) -> Result<(&'a [u8], &'a [u8]), ShortAt>
    requires { length rest.now ≤ length whole.now }
    ensures field { ReadsAs (λ x. (x.0.now, x.1.now)) (λ e. e.place) result (field_in whole.now (octets_in k) rest.now) }
    ensures width { IfOk result (λ x. length x.0.now ≡ k) }
    ensures within { IfOk result (λ x. length x.1.now ≤ length whole.now) }
{
    if rest.len() < k {
        return Err(ShortAt {
            place: place_of(whole, rest),
        });
    }
    Ok(rest.split_at(k))
}

// As many octets there as the array has.
pub(crate) fn array_of<'a, const N: usize>(
    whole: &[u8],
    rest: &'a [u8],
) -> Result<([u8; N], &'a [u8]), ShortAt>
    requires { length rest.now ≤ length whole.now }
    ensures field { ReadsAs (λ x. (x.0, x.1.now)) (λ e. e.place) result (field_in whole.now (octets_in N) rest.now) }
    ensures within { IfOk result (λ x. length x.1.now ≤ length whole.now) }
{
    let (octets, after) = octets_of(whole, rest, N)?;
    let mut array = [0; N];
    array.copy_from_slice(octets);
    Ok((array, after))
}
