//! The first word of what is left of a line.
ghost use Rattle.std.specs.Prelude.{◌≡◌, ◌≤◌, ◌<◌, ◌∷◌, ◌↔◌, ℕ, IfSome, IsTrue, length, slice_index, take};
ghost use Rattle.std.specs.Prelude.{decimal as decimal_text, true};
ghost use Rattle.std.specs.List.{list_all};
ghost use Rattle.hex.specs.Hex.{is_hex_digit};
ghost use Rattle.std.specs.Int.{IsInRange};
ghost use Rattle.std.specs.Str.Parse.{digits_value};
ghost use Rattle.memchr.specs.Find.{IsFirstByte, is_byte};
ghost use Rattle.scenario_words.specs.Joined.{space};
ghost use Rattle.scenario_words.specs.Words.{words_of};
ghost use Rattle.scenario_words.specs.Rests.{words_after, octets_after};

use memchr::memchr;

/// The most octets that are looked at one by one for the end of a word: most words are short.
const NEAR: usize = 8;

/// Where the first space is.
fn first_space(line: &[u8]) -> Option<usize>
    ensures { IsFirstByte (is_byte space) line.now result }
{
    let near = line.len().min(NEAR);
    'near: for i in 0..near {
        if line[i] == b' ' {
            return Some(i);
        }
    }
    if near == line.len() {
        return None;
    }
    match memchr(b' ', &line[near..]) {
        None => None,
        Some(end) => Some(near + end),
    }
}

/// The octets up to the first space, and those after it where there is one.
pub(crate) fn split_word(line: &[u8]) -> (&[u8], Option<&[u8]>)
    ensures words { words_of line.now ≡ result.0.now ∷ words_after result.1 }
    ensures shorter { octets_after result.1 ≤ length line.now }
{
    match first_space(line) {
        None => (line, None),
        Some(end) => (&line[..end], Some(&line[end + 1..])),
    }
}

/// The number that the digits spell with which a line begins, at most so many of them, and how many they are.
#[inline(always)]
fn leading_number(line: &[u8], most: usize) -> (u64, usize)
    requires { most ≤ 18 }
    ensures value { result.0 ≡ digits_value 10 (take result.1 line.now) }
    ensures fits { result.1 ≤ length line.now }
    ensures digits { (k : ℕ) → k < result.1 → IsInRange 48 57 (slice_index line.now k) }
{
    let count = line.len().min(most);
    let mut value = 0u64;
    let mut end = 0;
    'digits: while end < count && line[end].is_ascii_digit() {
        value = value * 10 + u64::from(line[end] - b'0');
        end += 1;
    }
    (value, end)
}

/// Whether a zero stands before other digits, of so many with which a line begins.
#[inline(always)]
fn has_leading_zero(line: &[u8], digits: usize) -> bool
    requires { digits ≤ length line.now }
    ensures { IsTrue result ↔ ((1 < digits) × (slice_index line.now 0 ≡ 48)) }
{
    digits > 1 && line[0] == b'0'
}

/// The number of a first word of at most so many digits, up to 18, and what is left behind that word; `None` for any other first
/// word. The word is read in one pass.
#[inline(always)]
pub(crate) fn short_number(line: &[u8], most: usize) -> Option<(u64, Option<&[u8]>)>
    requires { most ≤ 18 }
    ensures word { IfSome result (λ found. words_of line.now ≡ decimal_text found.0 ∷ words_after found.1) }
    ensures shorter { IfSome result (λ found. octets_after found.1 ≤ length line.now) }
{
    let (n, end) = leading_number(line, most);
    if end == 0 || has_leading_zero(line, end) {
        return None;
    }
    if end == line.len() {
        return Some((n, None));
    }
    if line[end] == b' ' {
        Some((n, Some(&line[end + 1..])))
    } else {
        None
    }
}

/// The octets of a word of so many pairs of digits, where the line begins with one, and what is left behind that word; `None` where no
/// word of so many octets ends there.
#[inline(always)]
#[tactic(auto, using(crate::proofs::Arrays::digits_before_space, crate::proofs::Arrays::digits_alone))]
pub(crate) fn pairs_in_front(line: &[u8], pairs: usize) -> Option<(&[u8], Option<&[u8]>)>
    ensures word { IfSome result (λ found. list_all is_hex_digit found.0.now ≡ true
        → words_of line.now ≡ found.0.now ∷ words_after found.1) }
    ensures shorter { IfSome result (λ found. octets_after found.1 ≤ length line.now) }
{
    if line.len() / 2 < pairs {
        return None;
    }
    let end = 2 * pairs;
    if end == line.len() {
        return Some((line, None));
    }
    if line[end] == b' ' {
        Some((&line[..end], Some(&line[end + 1..])))
    } else {
        None
    }
}
