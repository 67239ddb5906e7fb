ghost use Rattle.std.specs.Prelude.{◌≡◌, ◌<◌, ◌+◌, ◌++◌, ◌∷◌, [], IfOk, OnOk, cond, length, nat_eq};
ghost use Rattle.transcript_text.specs.CountedLines.{lines_of};
ghost use Rattle.transcript_text.specs.Summary.{begins_unit as begins_unit_in, ends_lost as ends_lost_in, is_sum_line, none_counted};
ghost use Rattle.transcript_text.specs.Summary.{summary_of, with_line, with_lines};

use crate::word::put_line;
use bcast_base::{Memory, Octets};
use memchr::memchr;
use scenario_words::Word;
use std::alloc::Global;

/// What the lines of a transcript say of its units.
#[derive(Drop)]
pub struct Counts {
    /// How many of them tell of a valid unit.
    pub valid: u64,
    /// How many of them tell of a lost unit.
    pub lost: u64,
    /// Those that tell the sums of a sink.
    pub sums: Octets,
}

impl Counts {
    /// Of no lines.
    pub fn new(alloc: Global) -> Counts
        ensures { result ≡ none_counted }
    {
        Counts {
            valid: 0,
            lost: 0,
            sums: Octets::new(alloc),
        }
    }

    /// Counts the lines of a text beside those that were counted before.
    ///
    /// `Memory` comes also where a count would pass 2^64 - 1.
    pub fn add(&mut self, text: &[u8]) -> Result<(), Memory>
        ensures { OnOk result (self.new ≡ with_lines self.old (lines_of text.now)) }
    {
        let mut left = text;
        'lines: while !left.is_empty() {
            let (line, others) = split_line(left);
            self.add_line(line)?;
            left = others;
        }
        Ok(())
    }

    /// Counts a line.
    fn add_line(&mut self, line: &[u8]) -> Result<(), Memory>
        ensures { OnOk result (self.new ≡ with_line self.old line.now) }
    {
        let lost = ends_lost(line);
        let unit = begins_unit(line);
        self.valid = one_more_if(self.valid, unit && !lost)?;
        self.lost = one_more_if(self.lost, unit && lost)?;
        put_if(&mut self.sums, line, begins_sum(line))
    }

    /// The summary of a run of so many events.
    pub fn summary(&self, alloc: Global, events: u32) -> Result<Octets, Memory>
        ensures { IfOk result (λ text. text ≡ summary_of events self.now) }
    {
        let mut text = Octets::new(alloc);
        put_line(&mut text, b"events", &[Word::Number(u64::from(events))])?;
        put_line(
            &mut text,
            b"units",
            &[
                Word::Number(self.valid),
                Word::Text(b"lost"),
                Word::Number(self.lost),
            ],
        )?;
        text.append(self.sums.as_slice())?;
        Ok(text)
    }
}

/// The first line of a text that has octets, with its end, and what follows it.
fn split_line(text: &[u8]) -> (&[u8], &[u8])
    requires { 0 < length text.now }
    ensures lines { lines_of text.now ≡ result.0.now ∷ lines_of result.1.now }
    ensures shorter { length result.1.now < length text.now }
{
    match memchr(b'\n', text) {
        None => (text, &text[text.len()..]),
        Some(end) => (&text[..end + 1], &text[end + 1..]),
    }
}

/// Whether a line tells of a unit.
fn begins_unit(line: &[u8]) -> bool
    ensures { result ≡ begins_unit_in line.now }
{
    line.starts_with(b"unit ")
}

/// Whether a line of a unit says that it was lost.
fn ends_lost(line: &[u8]) -> bool
    ensures { result ≡ ends_lost_in line.now }
{
    line.ends_with(b" lost\n")
}

/// Whether a line tells the sums of a sink.
fn begins_sum(line: &[u8]) -> bool
    ensures { result ≡ is_sum_line line.now }
{
    line.starts_with(b"sum ")
}

/// The count with one more, where there is one.
fn one_more_if(count: u64, more: bool) -> Result<u64, Memory>
    ensures { IfOk result (λ n. n ≡ count + cond more 1 0) }
{
    if more {
        count.checked_add(1).ok_or(Memory)
    } else {
        Ok(count)
    }
}

/// Puts octets at the end of a text, where they are to be put.
fn put_if(text: &mut Octets, octets: &[u8], put: bool) -> Result<(), Memory>
    ensures { OnOk result (text.new ≡ text.old ++ cond put octets.now []) }
{
    if put { text.append(octets) } else { Ok(()) }
}
