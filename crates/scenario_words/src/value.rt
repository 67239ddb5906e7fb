ghost use Rattle.std.specs.Prelude.{◌≡◌, ◌≢◌, ◌≤◌, ◌<◌, ◌^◌, ◌↔◌, IsTrue, length, None};
ghost use Rattle.std.specs.List.{AllByRecursion};
ghost use Rattle.bcast_base.specs.Encoding.{IsOctets};
ghost use Rattle.ltv_codec.specs.Reading.{bad_of};
ghost use Rattle.scenario_words.specs.ValueFitting.{HasWishWords, LiesBetween};
ghost use Rattle.scenario_words.specs.Places.{most_wishes, wishes_octets};
ghost use Rattle.scenario_words.specs.Given.{ValueHasWords, AllGivenHaveWords};

use crate::octets_of_wishes;
use bass_operations::{Wish, Wishes};
use bcast_base::{Bis, BisSet, Octets};
use ltv_codec::check_ltvs;

/// The most pairs of words of a line.
const MOST_WISHES: usize = 31;

/// A value at a place of a line, with what the place asks of it.
#[derive(Clone, Copy)]
pub enum Value<'a> {
    /// `unframed` for 0, or `framed` for 1.
    Framing(u8),
    /// A number, from a least to a greatest.
    Number(u64, u64, u64),
    /// A sink, from 0 to 7.
    Sink(u8),
    /// A link of a sink, from 0 to 3.
    Link(u8),
    /// The index of a stream.
    Stream(Bis),
    /// A time, which may be missing, of at most so much.
    Time(Option<u64>, u64),
    /// A number that may be missing, from a least to a greatest.
    Perhaps(Option<u16>, u16, u16),
    /// A number in 2 octets.
    TwoOctets(u16),
    /// A number in 4 octets.
    FourOctets(u32),
    /// At most so many octets.
    Octets(&'a Octets, usize),
    /// Exactly so many octets.
    Exactly(&'a [u8], usize),
    /// An LTV list of at most so many octets.
    List(&'a Octets, usize),
    /// A set of streams.
    Streams(BisSet),
    /// Pairs of BIS_Sync and metadata, which make at most so many octets of an operation.
    Wishes(&'a Wishes, usize),
}

/// Whether a number lies from a least to a greatest.
fn lies_between(n: u64, least: u64, greatest: u64) -> bool
    ensures { IsTrue result ↔ ((least ≤ n) × (n ≤ greatest)) }
{
    least <= n && n <= greatest
}

/// Whether there is no number, or one from a least to a greatest.
fn perhaps_between(n: Option<u64>, least: u64, greatest: u64) -> bool
    ensures { IsTrue result ↔ LiesBetween least greatest n }
{
    match n {
        None => true,
        Some(n) => lies_between(n, least, greatest),
    }
}

/// Whether there is no number of 16 bits, or one from a least to a greatest.
fn perhaps_short_between(n: Option<u16>, least: u16, greatest: u16) -> bool
    ensures { IsTrue result ↔ LiesBetween least greatest n }
{
    match n {
        None => true,
        Some(n) => lies_between(n as u64, least as u64, greatest as u64),
    }
}

/// Whether a number stands for a framing.
fn is_framing(n: u8) -> bool
    ensures { IsTrue result ↔ n ≤ 1 }
{
    n <= 1
}

/// Each number of 16 bits has 2 octets.
fn is_two_octets(n: u16) -> bool
    ensures { IsTrue result ↔ n < 2 ^ 16 }
{
    n <= u16::MAX
}

/// Each number of 32 bits has 4 octets.
fn is_four_octets(n: u32) -> bool
    ensures { IsTrue result ↔ n < 2 ^ 32 }
{
    n <= u32::MAX
}

/// Whether there are at most so many octets.
fn are_few(octets: &[u8], most: usize) -> bool
    ensures { IsTrue result ↔ ((length octets.now ≤ most) × IsOctets octets.now) }
{
    octets.len() <= most
}

/// Whether there are exactly so many octets.
fn are_exactly(octets: &[u8], count: usize) -> bool
    ensures { IsTrue result ↔ ((length octets.now ≡ count) × IsOctets octets.now) }
{
    octets.len() == count
}

/// Whether octets are an LTV list of at most so many.
fn are_list(octets: &[u8], most: usize) -> bool
    ensures { IsTrue result ↔ ((length octets.now ≤ most) × IsOctets octets.now × (bad_of octets.now ≡ None)) }
{
    if !are_few(octets, most) {
        return false;
    }
    check_ltvs(octets).is_ok()
}

/// Whether a set has a stream.
fn is_some_stream(which: BisSet) -> bool
    ensures { IsTrue result ↔ ((which ≢ 0) × (which < 2 ^ 31)) }
{
    which != BisSet::new()
}

/// Whether a pair has words.
fn has_wish_words(wish: &Wish) -> bool
    ensures { IsTrue result ↔ HasWishWords wish.now }
{
    is_four_octets(wish.bis_sync) && are_few(wish.metadata.as_slice(), 255)
}

/// Whether all pairs have words.
fn all_have_wish_words(wishes: &Wishes) -> bool
    ensures { IsTrue result ↔ AllByRecursion HasWishWords wishes.now }
{
    'wishes: for i in 0..wishes.count() {
        if !has_wish_words(wishes.item(i)) {
            return false;
        }
    }
    true
}

/// Whether there are at most 31 pairs, which have words and make at most so many octets of an operation.
#[tactic(auto, using(crate::proofs::Given::metadata_fits))]
fn are_wishes(wishes: &Wishes, most: usize) -> bool
    ensures { IsTrue result ↔ ((length wishes.now ≤ most_wishes) × (wishes_octets wishes.now ≤ most)
        × AllByRecursion HasWishWords wishes.now) }
{
    if wishes.count() > MOST_WISHES {
        return false;
    }
    if !all_have_wish_words(wishes) {
        return false;
    }
    octets_of_wishes(wishes) <= most
}

/// Whether a value has words at its place.
fn has_words(value: &Value<'_>) -> bool
    ensures { IsTrue result ↔ ValueHasWords value.now }
{
    match value {
        Value::Framing(n) => is_framing(*n),
        Value::Number(n, least, greatest) => lies_between(*n, *least, *greatest),
        Value::Sink(sink) => lies_between(*sink as u64, 0, 7),
        Value::Link(link) => lies_between(*link as u64, 0, 3),
        Value::Stream(bis) => lies_between(bis.get() as u64, 1, 31),
        Value::Time(time, greatest) => perhaps_between(*time, 0, *greatest),
        Value::Perhaps(n, least, greatest) => perhaps_short_between(*n, *least, *greatest),
        Value::TwoOctets(n) => is_two_octets(*n),
        Value::FourOctets(n) => is_four_octets(*n),
        Value::Octets(octets, most) => are_few(octets.as_slice(), *most),
        Value::Exactly(octets, count) => are_exactly(octets, *count),
        Value::List(octets, most) => are_list(octets.as_slice(), *most),
        Value::Streams(which) => is_some_stream(*which),
        Value::Wishes(wishes, most) => are_wishes(wishes, *most),
    }
}

/// Whether all values have words at their places.
pub fn all_have_words(values: &[Value<'_>]) -> bool
    ensures { IsTrue result ↔ AllGivenHaveWords values.now }
{
    for value in values {
        if !has_words(value) {
            return false;
        }
    }
    true
}
