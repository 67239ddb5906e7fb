use bcast_base::{Memory, Octets};
use std::alloc::Global;

/// The most octets of a text that a note shows.
const MOST: usize = 60;

/// A text that stood in an input as a note shows it: octets from 0x20 to 0x7E as they are, others as `\r`, `\t` or `\x` and two digits.
/// Of a long text the first 60 octets are shown, and `..`.
pub fn shown(alloc: Global, text: &[u8]) -> Result<Octets, Memory> {
    let mut octets = Octets::new(alloc);
    match put_shown(&mut octets, text) {
        Ok(()) => Ok(octets),
        Err(_) => Err(Memory),
    }
}

/// Puts a text as a note shows it.
fn put_shown(octets: &mut Octets, text: &[u8]) -> Result<(), Memory> {
    let count = text.len().min(MOST);
    for octet in &text[..count] {
        put_octet(octets, *octet)?;
    }
    if count < text.len() {
        octets.append(b"..")
    } else {
        Ok(())
    }
}

/// Puts an octet so that it is seen.
fn put_octet(octets: &mut Octets, octet: u8) -> Result<(), Memory> {
    match octet {
        b'\r' => octets.append(b"\\r"),
        b'\t' => octets.append(b"\\t"),
        0x20..=0x7e => octets.push(octet),
        _ => put_digits(octets, octet),
    }
}

/// Puts an octet as `\x` and its two digits.
fn put_digits(octets: &mut Octets, octet: u8) -> Result<(), Memory> {
    octets.append(b"\\x")?;
    octets.push(digit_of(octet / 16))?;
    octets.push(digit_of(octet % 16))
}

/// A number below 16 as a digit.
fn digit_of(number: u8) -> u8 {
    if number < 10 {
        b'0' + number
    } else if number < 16 {
        b'a' + (number - 10)
    } else {
        b'?'
    }
}
