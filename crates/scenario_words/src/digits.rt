//! Pairs of hexadecimal digits. Each loop runs to its end, so that the compiler can take many digits at once.
ghost use Rattle.std.specs.Prelude.{◌≡◌, ◌<◌, ◌+◌, ◌*◌, ◌/◌, ◌%◌, true, Ok, Some, IsErr, IsTrue, OnOk, length};
ghost use Rattle.std.specs.List.{list_all};
ghost use Rattle.std.specs.Option.{unwrap_or};
ghost use Rattle.hex.specs.Hex.{decode_of, hex_digit_value, is_hex_digit};

use bcast_base::{Memory, Octets};

/// Whether an octet is a hexadecimal digit of either case. Letters of the two cases differ by 32.
fn is_digit(octet: u8) -> bool
    ensures { result ≡ is_hex_digit octet }
{
    let letter = octet / 64 * 64 + octet % 32;
    matches!(octet, b'0'..=b'9') | matches!(letter, b'A'..=b'F')
}

/// Whether all octets are digits.
fn are_digits(word: &[u8]) -> bool
    ensures { result ≡ list_all is_hex_digit word.now }
{
    let mut are = true;
    'digits: for octet in word {
        are &= is_digit(*octet);
    }
    are
}

/// The values of a pair of digits, those of the first in the low octet: the letters stand from 65 and from 97 on, and the figures
/// from 48 on.
fn values(pair: u16) -> u16
    requires first { is_hex_digit (pair % 256) ≡ true }
    requires second { is_hex_digit (pair / 256) ≡ true }
    ensures first { hex_digit_value (pair % 256) ≡ Some (result % 256) }
    ensures second { hex_digit_value (pair / 256) ≡ Some (result / 256) }
    ensures within { result % 256 < 16 }
{
    let letters = pair / 64 % 2 + pair / 16_384 % 2 * 256;
    pair % 16 + pair / 256 % 16 * 256 + letters * 9
}

/// A product with it is the number 12 bits to the left and the number itself.
const SHIFTED_AND_SAME: u16 = 4_097;

/// The octet that a pair of digits spells, the first of them in the low octet.
fn joined(pair: u16) -> u8
    requires first { is_hex_digit (pair % 256) ≡ true }
    requires second { is_hex_digit (pair / 256) ≡ true }
    ensures { result ≡ unwrap_or (hex_digit_value (pair % 256)) 0 * 16 + unwrap_or (hex_digit_value (pair / 256)) 0 }
{
    let values = values(pair);
    (values.wrapping_mul(SHIFTED_AND_SAME) / 256) as u8
}

/// Whether a word is pairs of hexadecimal digits.
pub(crate) fn are_pairs(word: &[u8]) -> bool
    ensures even { IsTrue result → length word.now % 2 ≡ 0 }
    ensures digits { IsTrue result → list_all is_hex_digit word.now ≡ true }
    ensures no { ¬ IsTrue result → IsErr (decode_of word.now) }
{
    if word.len() % 2 != 0 {
        return false;
    }
    are_digits(word)
}

/// Puts the octets that pairs of hexadecimal digits spell.
pub(crate) fn decode(word: &[u8], octets: &mut [u8])
    requires even { length word.now % 2 ≡ 0 }
    requires digits { list_all is_hex_digit word.now ≡ true }
    requires room { length octets.old ≡ length word.now / 2 }
    ensures { decode_of word.now ≡ Ok octets.new }
{
    let (pairs, _) = word.as_chunks::<2>();
    'pairs: for i in 0..octets.len() {
        octets[i] = joined(u16::from_le_bytes(pairs[i]));
    }
}

/// The octets that pairs of digits spell, in the place of others and in their memory.
pub(crate) fn decode_over(octets: &mut Octets, word: &[u8]) -> Result<(), Memory>
    requires even { length word.now % 2 ≡ 0 }
    requires digits { list_all is_hex_digit word.now ≡ true }
    ensures { OnOk result (decode_of word.now ≡ Ok octets.new) }
{
    octets.resize(word.len() / 2)?;
    decode(word, octets.as_mut_slice());
    Ok(())
}
