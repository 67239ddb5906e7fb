ghost use Rattle.std.specs.Prelude.{◌≡◌, ◌<◌, ◌≤◌, ◌+◌, ◌*◌, [], ◌∷◌, ◌++◌, decimal, length, OnOk, OnErr};
ghost use Rattle.hex.specs.Hex.{encode_lower};
ghost use Rattle.scenario_words.specs.Prefixes.{APrefix, PutUpTo};

use crate::printed_number::{DIGITS, PrintedNumber};
use crate::printed_octets::write_digits;
use bcast_base::{Memory, Octets};
use std::marker::Model;

/// The most octets that wait.
const ROOM: usize = 256;

/// Octets of a line that wait to be put into a text together, at most 256.
#[derive(Drop)]
pub struct Waiting {
    room: [u8; ROOM],
    count: usize,
}

impl Model for Waiting {
    ghost use Rattle.std.specs.Prelude.{List, ℕ, ◌≤◌, take};

    ghost Value = { List ℕ };

    ghost view = { λ w. take w.count w.room };

    ghost invariant = { λ w. w.count ≤ 256 };
}

/// Puts octets at the end of a text. It stands apart, so that its calls are short.
#[inline(never)]
fn put_all(text: &mut Octets, octets: &[u8]) -> Result<(), Memory>
    ensures ok { OnOk result (text.new ≡ text.old ++ octets.now) }
    ensures err { OnErr result (text.new ≡ text.old) }
{
    text.append(octets)
}

impl Waiting {
    /// No octets.
    #[inline(always)]
    pub fn new() -> Waiting
        ensures { result ≡ [] }
    {
        Waiting {
            room: [0; ROOM],
            count: 0,
        }
    }

    /// Adds an octet.
    #[inline(always)]
    pub fn push(&mut self, octet: u8)
        requires { length self.old < 256 }
        ensures { self.new ≡ self.old ++ octet ∷ [] }
    {
        self.room[self.count] = octet;
        self.count += 1;
    }

    /// Adds octets.
    #[inline(always)]
    pub fn extend(&mut self, octets: &[u8])
        requires { length self.old + length octets.now ≤ 256 }
        ensures { self.new ≡ self.old ++ octets.now }
    {
        let end = self.count + octets.len();
        self.room[self.count..end].copy_from_slice(octets);
        self.count = end;
    }

    /// Adds a number of at most three digits in decimal.
    #[inline(always)]
    pub fn extend_small(&mut self, number: u16)
        requires small { number < 1000 }
        requires room { length self.old + 3 ≤ 256 }
        ensures puts { self.new ≡ self.old ++ decimal number }
        ensures short { length self.new ≤ length self.old + 3 }
    {
        if number >= 10 {
            if number >= 100 {
                self.push(b'0' + (number / 100) as u8);
            }
            self.push(b'0' + (number / 10 % 10) as u8);
        }
        self.push(b'0' + (number % 10) as u8);
    }

    /// Adds a number in decimal whose digits are at hand. The room behind them is written to.
    #[inline(always)]
    pub fn extend_number(&mut self, number: &PrintedNumber)
        requires { length self.old + 20 ≤ 256 }
        ensures puts { self.new ≡ self.old ++ decimal number.now }
        ensures short { length self.new ≤ length self.old + 20 }
    {
        self.room[self.count..self.count + DIGITS].copy_from_slice(&number.room);
        self.count += number.count;
    }

    /// Adds the two lower-case digits of each octet.
    #[inline(always)]
    pub fn extend_digits(&mut self, octets: &[u8])
        requires { length self.old + 2 * length octets.now ≤ 256 }
        ensures { self.new ≡ self.old ++ encode_lower octets.now }
    {
        let end = self.count + 2 * octets.len();
        write_digits(octets, &mut self.room[self.count..end]);
        self.count = end;
    }

    /// Puts the octets that wait into a text. After Memory they still wait.
    #[inline(always)]
    pub fn flush(&mut self, text: &mut Octets) -> Result<(), Memory>
        ensures ok { OnOk result (text.new ≡ text.old ++ self.old) }
        ensures none { OnOk result (self.new ≡ []) }
        ensures err { OnErr result (text.new ≡ text.old) }
        ensures kept { OnErr result (self.new ≡ self.old) }
    {
        put_all(text, &self.room[..self.count])?;
        self.count = 0;
        Ok(())
    }

    /// Makes room for so many octets more: where there isn't, those that wait are put into the text.
    #[inline(always)]
    fn make_room(&mut self, text: &mut Octets, more: usize) -> Result<(), Memory>
        requires { more ≤ 256 }
        ensures ok { OnOk result (PutUpTo text.old text.new self.old self.new) }
        ensures room { OnOk result (length self.new + more ≤ 256) }
        ensures err { OnErr result (text.new ≡ text.old) }
    {
        if more <= ROOM - self.count {
            return Ok(());
        }
        self.flush(text)
    }

    /// Puts an octet behind those that wait.
    #[inline(always)]
    pub(crate) fn put_octet(&mut self, text: &mut Octets, octet: u8) -> Result<(), Memory>
        ensures ok { OnOk result (PutUpTo text.old text.new (self.old ++ octet ∷ []) self.new) }
        ensures err { OnErr result (text.new ≡ text.old) }
    {
        self.make_room(text, 1)?;
        self.push(octet);
        Ok(())
    }

    /// Puts octets in lower-case digits behind those that wait.
    #[inline(always)]
    pub(crate) fn put_chunk(&mut self, text: &mut Octets, octets: &[u8]) -> Result<(), Memory>
        requires { length octets.now ≤ 128 }
        ensures ok { OnOk result (PutUpTo text.old text.new (self.old ++ encode_lower octets.now) self.new) }
        ensures err { OnErr result (text.new ≡ text.old) }
    {
        self.make_room(text, 2 * octets.len())?;
        self.extend_digits(octets);
        Ok(())
    }

    /// Puts octets that may be more than the room, with those that wait before them.
    fn put_many(&mut self, text: &mut Octets, octets: &[u8]) -> Result<(), Memory>
        ensures ok { OnOk result (PutUpTo text.old text.new (self.old ++ octets.now) self.new) }
        ensures err { OnErr result (APrefix text.old text.new (self.old ++ octets.now)) }
    {
        self.flush(text)?;
        put_all(text, octets)
    }

    /// Puts octets behind those that wait.
    #[inline(always)]
    pub(crate) fn put(&mut self, text: &mut Octets, octets: &[u8]) -> Result<(), Memory>
        ensures ok { OnOk result (PutUpTo text.old text.new (self.old ++ octets.now) self.new) }
        ensures err { OnErr result (APrefix text.old text.new (self.old ++ octets.now)) }
    {
        if octets.len() > ROOM {
            return self.put_many(text, octets);
        }
        self.make_room(text, octets.len())?;
        self.extend(octets);
        Ok(())
    }
}
