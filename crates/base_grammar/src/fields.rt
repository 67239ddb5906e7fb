//! Reading one field of a BASE. `whole` is all that is read, and `rest` its last octets.
ghost use Rattle.std.specs.Prelude.{◌≡◌, ◌≤◌, ◌++◌, length, map, IfOk};
ghost use Rattle.bcast_base.specs.Reading.{place_in, octet_in, octets_in, number_in};
ghost use Rattle.base_grammar.specs.Layout.{indices, bis_of};
ghost use Rattle.bcast_base.specs.Tries.{Reads};
ghost use Rattle.base_grammar.specs.Reading.{field_at, run_at, index_at, streams_at, count_at};
ghost use Rattle.base_grammar.specs.declared.fault.BaseFault.TheVariants as faults;

use crate::fault::BaseFault;
use crate::subgroup::{BaseEntry, Subgroup, stands_before};
use bcast_base::{Bis, array_at, number_at, octet_at, octets_at, place_of};
use ltv_codec::check_ltvs;

// The next field is not whole.
fn short(whole: &[u8], rest: &[u8]) -> BaseFault
    requires { length rest.now ≤ length whole.now }
    ensures { result ≡ faults.Short (place_in whole.now rest.now) }
{
    BaseFault::Short {
        place: place_of(whole, rest),
    }
}

// One octet.
pub(crate) fn octet_field<'a>(whole: &[u8], rest: &'a [u8]) -> Result<(u8, &'a [u8]), BaseFault>
    requires { length rest.now ≤ length whole.now }
    ensures reads { Reads (λ x. (x.0, x.1.now)) result (field_at whole.now rest.now (octet_in rest.now)) }
    ensures shorter { IfOk result (λ x. length x.1.now ≤ length rest.now) }
{
    match octet_at(rest) {
        Some(field) => Ok(field),
        None => Err(short(whole, rest)),
    }
}

// Octets as they are.
pub(crate) fn octets_field<'a>(
    whole: &[u8],
    rest: &'a [u8],
    k: usize,
) -> Result<(&'a [u8], &'a [u8]), BaseFault>
    requires { length rest.now ≤ length whole.now }
    ensures reads { Reads (λ x. (x.0.now, x.1.now)) result (field_at whole.now rest.now (octets_in k rest.now)) }
    ensures shorter { IfOk result (λ x. length x.1.now ≤ length rest.now) }
{
    match octets_at(rest, k) {
        Some(field) => Ok(field),
        None => Err(short(whole, rest)),
    }
}

// A Codec_ID.
pub(crate) fn codec_field<'a>(
    whole: &[u8],
    rest: &'a [u8],
) -> Result<([u8; 5], &'a [u8]), BaseFault>
    requires { length rest.now ≤ length whole.now }
    ensures reads { Reads (λ x. (x.0, x.1.now)) result (field_at whole.now rest.now (octets_in 5 rest.now)) }
    ensures shorter { IfOk result (λ x. length x.1.now ≤ length rest.now) }
{
    match array_at(rest) {
        Some(field) => Ok(field),
        None => Err(short(whole, rest)),
    }
}

// Octets behind one that counts them, which may have to be an LTV list.
#[tactic(auto, unfolding(crate::specs::Reading::run_at))]
pub(crate) fn run_field<'a>(
    whole: &[u8],
    rest: &'a [u8],
    is_list: bool,
) -> Result<(&'a [u8], &'a [u8]), BaseFault>
    requires { length rest.now ≤ length whole.now }
    ensures reads { Reads (λ x. (x.0.now, x.1.now)) result (run_at whole.now is_list rest.now) }
    ensures shorter { IfOk result (λ x. length x.1.now ≤ length rest.now) }
{
    let (count, behind) = octet_field(whole, rest)?;
    let (run, after) = octets_field(whole, behind, usize::from(count))?;
    if is_list && let Err(fault) = check_ltvs(run) {
        let place = place_of(whole, behind);
        return Err(BaseFault::Ltv { place, fault });
    }
    Ok((run, after))
}

// The index of a stream, which stands neither in the subgroups before nor in the entries before.
#[tactic(auto, unfolding(crate::specs::Reading::index_at))]
pub(crate) fn index_field<'a>(
    whole: &[u8],
    rest: &'a [u8],
    subgroups: &[Subgroup],
    entries: &[BaseEntry],
) -> Result<(Bis, &'a [u8]), BaseFault>
    requires { length rest.now ≤ length whole.now }
    ensures reads { Reads (λ x. (x.0, x.1.now)) result (index_at whole.now (indices subgroups.now ++ map bis_of entries.now) rest.now) }
    ensures shorter { IfOk result (λ x. length x.1.now ≤ length rest.now) }
{
    let place = place_of(whole, rest);
    let (number, after) = octet_field(whole, rest)?;
    let Some(bis) = Bis::new(number) else {
        return Err(BaseFault::BadIndex { place });
    };
    if stands_before(subgroups, entries, number) {
        return Err(BaseFault::IndexTwice { place });
    }
    Ok((bis, after))
}

// How many entries a subgroup has.
#[tactic(auto, unfolding(crate::specs::Reading::streams_at))]
pub(crate) fn streams_field<'a>(whole: &[u8], rest: &'a [u8]) -> Result<(u8, &'a [u8]), BaseFault>
    requires { length rest.now ≤ length whole.now }
    ensures reads { Reads (λ x. (x.0, x.1.now)) result (streams_at whole.now rest.now) }
    ensures shorter { IfOk result (λ x. length x.1.now ≤ length rest.now) }
{
    let (count, after) = octet_field(whole, rest)?;
    if count == 0 {
        let place = place_of(whole, rest);
        return Err(BaseFault::NoBis { place });
    }
    Ok((count, after))
}

// How many subgroups there are.
#[tactic(auto, unfolding(crate::specs::Reading::count_at))]
pub(crate) fn count_field<'a>(whole: &[u8], rest: &'a [u8]) -> Result<(u8, &'a [u8]), BaseFault>
    requires { length rest.now ≤ length whole.now }
    ensures reads { Reads (λ x. (x.0, x.1.now)) result (count_at whole.now rest.now) }
    ensures shorter { IfOk result (λ x. length x.1.now ≤ length rest.now) }
{
    let (count, after) = octet_field(whole, rest)?;
    if count == 0 {
        return Err(BaseFault::NoSubgroup);
    }
    Ok((count, after))
}

// The presentation delay.
pub(crate) fn delay_field(whole: &[u8]) -> Result<(u32, &[u8]), BaseFault>
    ensures reads { Reads (λ x. (x.0, x.1.now)) result (field_at whole.now whole.now (number_in 3 whole.now)) }
    ensures shorter { IfOk result (λ x. length x.1.now ≤ length whole.now) }
{
    match number_at(whole, 3) {
        Some((delay, rest)) => Ok((delay as u32, rest)),
        None => Err(BaseFault::Short { place: 0 }),
    }
}
