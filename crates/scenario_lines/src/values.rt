//! The words of the values of a line.
ghost use Rattle.std.specs.Prelude.{◌≡◌, ◌++◌, ◌∷◌, [], OnOk};
ghost use Rattle.scenario_words.specs.Joined.{behind};
ghost use Rattle.scenario_words.specs.PrintedWords.{spelled};
ghost use Rattle.scenario_words.specs.Given.{at_place, given_words, words_at};
ghost use Rattle.scenario_words.specs.ValueWords.{perhaps_words};

use crate::numbers::{four_octets, framing_word, time_word, two_octets};
use crate::streams::put_streams;
use crate::wishes::put_wishes;
use bcast_base::{Memory, Octets};
use scenario_words::{Value, Word, put_words};

/// Puts a word behind a line.
fn put(line: &mut Octets, word: Word<'_>) -> Result<(), Memory>
    ensures { OnOk result (line.new ≡ line.old ++ behind (spelled word.entry ∷ [])) }
{
    put_words(line, b"", &[word])
}

/// Puts a number behind a line, where there is one.
fn put_perhaps(line: &mut Octets, number: Option<u16>) -> Result<(), Memory>
    ensures { OnOk result (line.new ≡ line.old ++ behind (perhaps_words number)) }
{
    match number {
        None => Ok(()),
        Some(number) => put(line, Word::Number(number as u64)),
    }
}

/// Puts the words of a value behind a line.
fn put_value(line: &mut Octets, value: &Value<'_>) -> Result<(), Memory>
    ensures { OnOk result (line.new ≡ line.old ++ behind (words_at (at_place value.now))) }
{
    match value {
        Value::Framing(n) => put(line, framing_word(*n)),
        Value::Number(n, _, _) => put(line, Word::Number(*n)),
        Value::Sink(sink) => put(line, Word::Number(*sink as u64)),
        Value::Link(link) => put(line, Word::Number(*link as u64)),
        Value::Stream(bis) => put(line, Word::Number(bis.get() as u64)),
        Value::Time(time, _) => put(line, time_word(*time)),
        Value::Perhaps(n, _, _) => put_perhaps(line, *n),
        Value::TwoOctets(n) => put(line, Word::Digits(&two_octets(*n))),
        Value::FourOctets(n) => put(line, Word::Digits(&four_octets(*n))),
        Value::Octets(octets, _) => put(line, Word::Octets(octets.as_slice())),
        Value::Exactly(octets, _) => put(line, Word::Digits(octets)),
        Value::List(octets, _) => put(line, Word::Octets(octets.as_slice())),
        Value::Streams(which) => put_streams(line, *which),
        Value::Wishes(wishes, _) => put_wishes(line, wishes),
    }
}

/// Puts the words of all values behind a line, in their order.
pub fn put_values(line: &mut Octets, values: &[Value<'_>]) -> Result<(), Memory>
    ensures { OnOk result (line.new ≡ line.old ++ behind (given_words values.now)) }
{
    'values: for value in values {
        put_value(line, value)?;
    }
    Ok(())
}
