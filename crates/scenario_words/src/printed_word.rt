ghost use Rattle.std.specs.Prelude.{◌++◌, decimal, codes, OnOk, OnErr};
ghost use Rattle.scenario_words.specs.Prefixes.{APrefix, PutUpTo};
ghost use Rattle.scenario_words.specs.PrintedWords.{spelled};

use crate::printed_octets::{put_digits, put_octets};
use crate::waiting::Waiting;
use bcast_base::{Memory, Octets};
use itoa::Buffer;

/// A word of a line.
#[derive(Clone, Copy)]
pub enum Word<'a> {
    /// These octets as they are.
    Text(&'a [u8]),
    /// A number in decimal.
    Number(u64),
    /// A number in decimal with a colon behind it.
    Label(u64),
    /// Octets as lower-case hexadecimal digits, or `-` for none.
    Octets(&'a [u8]),
    /// Octets as lower-case hexadecimal digits, which are no octet for none.
    Digits(&'a [u8]),
}

/// Puts a number in decimal behind the octets that wait. One digit takes no buffer.
#[tactic(auto, using(crate::proofs::Putting::digit_put))]
#[inline(always)]
fn put_number(text: &mut Octets, waiting: &mut Waiting, number: u64) -> Result<(), Memory>
    ensures ok { OnOk result (PutUpTo text.old text.new (waiting.old ++ decimal number) waiting.new) }
    ensures err { OnErr result (APrefix text.old text.new (waiting.old ++ decimal number)) }
{
    if number < 10 {
        return waiting.put_octet(text, b'0' + number as u8);
    }
    let mut buffer = Buffer::new();
    waiting.put(text, buffer.format(number).as_bytes())
}

fn put_label(text: &mut Octets, waiting: &mut Waiting, number: u64) -> Result<(), Memory>
    ensures ok { OnOk result (PutUpTo text.old text.new (waiting.old ++ (decimal number ++ codes ":")) waiting.new) }
    ensures err { OnErr result (APrefix text.old text.new (waiting.old ++ (decimal number ++ codes ":"))) }
{
    put_number(text, waiting, number)?;
    waiting.put_octet(text, b':')
}

/// Puts a word behind the octets that wait.
pub(crate) fn put_word(
    text: &mut Octets,
    waiting: &mut Waiting,
    word: Word<'_>,
) -> Result<(), Memory>
    ensures ok { OnOk result (PutUpTo text.old text.new (waiting.old ++ spelled word.entry) waiting.new) }
    ensures err { OnErr result (APrefix text.old text.new (waiting.old ++ spelled word.entry)) }
{
    match word {
        Word::Text(octets) => waiting.put(text, octets),
        Word::Number(number) => put_number(text, waiting, number),
        Word::Label(number) => put_label(text, waiting, number),
        Word::Octets(octets) => put_octets(text, waiting, octets),
        Word::Digits(octets) => put_digits(text, waiting, octets),
    }
}
