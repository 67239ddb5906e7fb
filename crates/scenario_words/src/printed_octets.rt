ghost use Rattle.std.specs.Prelude.{◌≡◌, ◌++◌, OnOk, OnErr, ◌<◌, ◌≤◌, ◌+◌, ◌*◌, ◌/◌, ◌%◌, length, slice_index, map};
ghost use Rattle.std.specs.Simd.Lanes.{Each1};
ghost use Rattle.hex.specs.Hex.{encode_lower, lower_digits};
ghost use Rattle.scenario_words.specs.Prefixes.{APrefix, PutUpTo};
ghost use Rattle.scenario_words.specs.Digits.{digits};

use crate::waiting::Waiting;
use bcast_base::{Memory, Octets};
use std::simd::prelude::*;

/// The most octets that are put at once as digits.
const CHUNK: usize = 128;

/// The two lower-case digits of an octet, the first of them in the low octet: the letters stand from 97 on, and the figures from 48 on.
fn digits_of(octet: u8) -> u16
    ensures first { result % 256 ≡ slice_index lower_digits (octet / 16) }
    ensures second { result / 256 ≡ slice_index lower_digits (octet % 16) }
{
    let values = u16::from(octet) / 16 + u16::from(octet) % 16 * 256;
    let letters = (values + 0x0606) / 16 % 2 + (values + 0x0606) / 4096 % 2 * 256;
    values + 0x3030 + letters * 39
}

/// Writes the two digits of each octet, one octet at a time.
fn write_few(octets: &[u8], digits: &mut [u8])
    requires { length digits.old ≡ 2 * length octets.now }
    ensures { digits.new ≡ encode_lower octets.now }
{
    'octets: for i in 0..octets.len() {
        digits[2 * i..2 * i + 2].copy_from_slice(&digits_of(octets[i]).to_le_bytes());
    }
}

/// The digit of each of sixteen values: the letters stand from 97 on, and the figures from 48 on.
fn sixteen_digits(values: u8x16) -> u8x16
    requires long { length values ≡ 16 }
    requires low { Each1 (λ value. value < 16) values }
    ensures { result ≡ map (λ value. slice_index lower_digits value) values }
{
    let letters = values
        .simd_gt(u8x16::splat(9))
        .select(u8x16::splat(39), u8x16::splat(0));
    values + u8x16::splat(48) + letters
}

/// Writes the two digits of each of sixteen octets.
fn write_sixteen(octets: &[u8], digits: &mut [u8])
    requires octets { length octets.now ≡ 16 }
    requires digits { length digits.old ≡ 32 }
    ensures { digits.new ≡ encode_lower octets.now }
{
    let octets = u8x16::from_slice(octets);
    let first = sixteen_digits(octets >> u8x16::splat(4));
    let second = sixteen_digits(octets & u8x16::splat(15));
    let (front, back) = first.interleave(second);
    front.copy_to_slice(&mut digits[..16]);
    back.copy_to_slice(&mut digits[16..]);
}

/// Writes the two digits of each octet: sixteen octets at a time, the last of them once more with those before where fewer are left.
pub(crate) fn write_digits(octets: &[u8], digits: &mut [u8])
    requires { length digits.old ≡ 2 * length octets.now }
    ensures { digits.new ≡ encode_lower octets.now }
{
    if octets.len() < 16 {
        return write_few(octets, digits);
    }
    let last = octets.len() - 16;
    let mut i = 0;
    'octets: while i < last {
        write_sixteen(&octets[i..i + 16], &mut digits[2 * i..2 * i + 32]);
        i += 16;
    }
    write_sixteen(&octets[last..], &mut digits[2 * last..]);
}

/// Puts octets in lower-case digits behind those that wait.
pub(crate) fn put_digits(
    text: &mut Octets,
    waiting: &mut Waiting,
    octets: &[u8],
) -> Result<(), Memory>
    ensures ok { OnOk result (PutUpTo text.old text.new (waiting.old ++ encode_lower octets.now) waiting.new) }
    ensures err { OnErr result (APrefix text.old text.new (waiting.old ++ encode_lower octets.now)) }
{
    let mut rest = octets;
    'chunks: while !rest.is_empty() {
        let (chunk, others) = rest.split_at(rest.len().min(CHUNK));
        waiting.put_chunk(text, chunk)?;
        rest = others;
    }
    Ok(())
}

/// Puts octets in lower-case digits, or `-` for none, behind those that wait.
pub(crate) fn put_octets(
    text: &mut Octets,
    waiting: &mut Waiting,
    octets: &[u8],
) -> Result<(), Memory>
    ensures ok { OnOk result (PutUpTo text.old text.new (waiting.old ++ digits octets.now) waiting.new) }
    ensures err { OnErr result (APrefix text.old text.new (waiting.old ++ digits octets.now)) }
{
    if octets.is_empty() {
        return waiting.put_octet(text, b'-');
    }
    put_digits(text, waiting, octets)
}
