ghost use Rattle.std.specs.Prelude.{◌≡◌, ◌≢◌, ◌<◌, ◌≤◌, ◌+◌, ℕ, [], true, drop, length, slice_index, take, IfErr, IfOk, MatchResult, OnErr, OnOk};
ghost use Rattle.std.specs.Io.{WritesAtMost};
ghost use Rattle.std.specs.Io.KnownBytes.{Appends, Keeps, WriteAppends};
ghost use Rattle.bcast_io.specs.Causes.{SinkCause};
ghost use Rattle.bcast_io.specs.Writing.{AppendsPrefix, AppendsShort};
ghost use Rattle.explained_rows.specs.Rows.{lines_at, lines_told, newline, place_after, takes, told, told_at};

use crate::place::{Place, are_lines, opening};
use bcast_io::{ByteSink, SinkFault};
use memchr::memchr;
use std::marker::Model;

/// A sink for a transcript, which goes to another sink as rows of an explanation: each row of the transcript stands behind two
/// blanks, other rows may stand between them, and its contents are the rows of the transcript alone.
#[derive(Drop)]
pub struct ExplainedRows<W: ByteSink + Drop> {
    inner: W,
    place: Place,
}

impl<W: ByteSink + Drop> Model for ExplainedRows<W> {
    ghost use Rattle.explained_rows.specs.Rows.{Rows};

    ghost Value = { Rows W };

    ghost view = { λ a. record { inner = a.inner; place = a.place } };
}

impl<W: ByteSink + Drop> ExplainedRows<W> {
    ghost use Rattle.explained_rows.specs.declared.place.Place.TheVariants.{Start};

    /// An explanation that goes to this sink, at the start of a row.
    pub fn new(inner: W) -> ExplainedRows<W>
        ensures { result ≡ record { inner = inner; place = Start } }
    {
        ExplainedRows {
            inner,
            place: Place::Start,
        }
    }

    /// Writes rows that tell neither the transcript nor lines, each with its newline. Octets that would be taken for some of these are
    /// not written. A refusal leaves a prefix of them, which may end in a row. The faults are those of the sink that they go to.
    pub fn tell(&mut self, rows: &[u8]) -> Result<(), SinkFault>
        ensures kept { Keeps (told_at self.old.place (W.contents self.old.inner)) (told_at self.new.place (W.contents self.new.inner)) }
        ensures lines { Keeps (lines_at self.old.place (W.contents self.old.inner)) (lines_at self.new.place (W.contents self.new.inner)) }
        ensures whole { told self.old.place rows.now ≡ [] → lines_told self.old.place rows.now ≡ []
            → OnOk result (Appends (W.contents self.old.inner) (W.contents self.new.inner) rows.now) }
        ensures ok { OnOk result (W.faults self.new.inner ≡ W.faults self.old.inner) }
        ensures cause { IfErr result (SinkCause (W.faults self.old.inner) (W.faults self.new.inner)) }
    {
        if !self.place.is_beside(rows) {
            return Ok(());
        }
        self.pass(rows)
    }

    /// Writes a row that tells a line behind rows that tell neither the transcript nor lines: of `rows` the row is what stands behind
    /// the first `beside` octets. A refusal leaves a prefix of all. The faults are those of the sink that they go to. `Memory` comes
    /// also where the rows would be taken for others; nothing is written then.
    pub fn tell_line(&mut self, rows: &[u8], beside: usize) -> Result<(), SinkFault>
        requires { beside ≤ length rows.now }
        ensures kept { Keeps (told_at self.old.place (W.contents self.old.inner)) (told_at self.new.place (W.contents self.new.inner)) }
        ensures lines { MatchResult result
            (λ _. Appends (lines_at self.old.place (W.contents self.old.inner)) (lines_at self.new.place (W.contents self.new.inner)) (drop beside rows.now))
            (λ _. AppendsPrefix (lines_at self.old.place (W.contents self.old.inner)) (lines_at self.new.place (W.contents self.new.inner)) (drop beside rows.now)) }
        ensures whole { OnOk result (Appends (W.contents self.old.inner) (W.contents self.new.inner) rows.now) }
        ensures ok { OnOk result (W.faults self.new.inner ≡ W.faults self.old.inner) }
        ensures cause { IfErr result (SinkCause (W.faults self.old.inner) (W.faults self.new.inner)) }
    {
        if !self.place.ends_beside(&rows[..beside]) || !are_lines(&rows[beside..]) {
            return Err(SinkFault::Memory);
        }
        self.pass(rows)
    }

    /// Writes octets of the transcript. After a refusal a prefix of them was written, and not all. The faults are those of the sink that
    /// they go to. `Memory` comes also within a row that tells a line.
    pub fn write_all(&mut self, octets: &[u8]) -> Result<(), SinkFault>
        ensures ok { OnOk result (Appends (told_at self.old.place (W.contents self.old.inner)) (told_at self.new.place (W.contents self.new.inner)) octets.now) }
        ensures short { OnErr result (AppendsShort (told_at self.old.place (W.contents self.old.inner)) (told_at self.new.place (W.contents self.new.inner)) octets.now) }
        ensures lines { Keeps (lines_at self.old.place (W.contents self.old.inner)) (lines_at self.new.place (W.contents self.new.inner)) }
        ensures none_failed { OnOk result (W.faults self.new.inner ≡ W.faults self.old.inner) }
        ensures cause { IfErr result (SinkCause (W.faults self.old.inner) (W.faults self.new.inner)) }
    {
        let mut done = 0;
        while done < octets.len() {
            done += self.write_row(&octets[done..])?;
        }
        Ok(())
    }

    /// Writes octets that are none of the transcript.
    fn pass(&mut self, octets: &[u8]) -> Result<(), SinkFault>
        requires { told self.old.place octets.now ≡ [] }
        ensures kept { Keeps (told_at self.old.place (W.contents self.old.inner)) (told_at self.new.place (W.contents self.new.inner)) }
        ensures lines { MatchResult result
            (λ _. Appends (lines_at self.old.place (W.contents self.old.inner)) (lines_at self.new.place (W.contents self.new.inner)) (lines_told self.old.place octets.now))
            (λ _. AppendsPrefix (lines_at self.old.place (W.contents self.old.inner)) (lines_at self.new.place (W.contents self.new.inner)) (lines_told self.old.place octets.now)) }
        ensures passed { OnOk result (self.new.place ≡ place_after self.old.place octets.now) }
        ensures whole { OnOk result (Appends (W.contents self.old.inner) (W.contents self.new.inner) octets.now) }
        ensures ok { OnOk result (W.faults self.new.inner ≡ W.faults self.old.inner) }
        ensures cause { IfErr result (SinkCause (W.faults self.old.inner) (W.faults self.new.inner)) }
    {
        let mut done = 0;
        while done < octets.len() {
            let rest = &octets[done..];
            let count = self.inner.write(rest)?;
            self.place = self.place.after(&rest[..count]);
            done += count;
        }
        Ok(())
    }

    /// Writes octets of the transcript, up to the end of a row at most.
    fn write_row(&mut self, from: &[u8]) -> Result<usize, SinkFault>
        ensures bound { WritesAtMost result from.now }
        ensures some { 0 < length from.now → IfOk result (λ n. 1 ≤ n) }
        ensures bytes { WriteAppends (told_at self.old.place (W.contents self.old.inner))
            (told_at self.new.place (W.contents self.new.inner)) result from.now }
        ensures lines { Keeps (lines_at self.old.place (W.contents self.old.inner)) (lines_at self.new.place (W.contents self.new.inner)) }
        ensures ok { OnOk result (W.faults self.new.inner ≡ W.faults self.old.inner) }
        ensures cause { IfErr result (SinkCause (W.faults self.old.inner) (W.faults self.new.inner)) }
    {
        if from.is_empty() {
            return Ok(0);
        }
        self.open(from[0])?;
        self.put(from)
    }

    /// Comes to a place where an octet of the transcript may stand.
    fn open(&mut self, first: u8) -> Result<(), SinkFault>
        ensures kept { Keeps (told_at self.old.place (W.contents self.old.inner)) (told_at self.new.place (W.contents self.new.inner)) }
        ensures lines { Keeps (lines_at self.old.place (W.contents self.old.inner)) (lines_at self.new.place (W.contents self.new.inner)) }
        ensures opened { OnOk result (takes self.new.place first ≡ true) }
        ensures ok { OnOk result (W.faults self.new.inner ≡ W.faults self.old.inner) }
        ensures cause { IfErr result (SinkCause (W.faults self.old.inner) (W.faults self.new.inner)) }
    {
        match opening(self.place, first) {
            Some(octets) => self.pass(octets),
            None => Err(SinkFault::Memory),
        }
    }

    /// Writes octets of the transcript up to the end of a row, of which the first may stand here.
    fn put(&mut self, from: &[u8]) -> Result<usize, SinkFault>
        requires some { 0 < length from.now }
        requires opened { takes self.old.place (slice_index from.now 0) ≡ true }
        ensures bound { WritesAtMost result from.now }
        ensures some { IfOk result (λ n. 1 ≤ n) }
        ensures bytes { WriteAppends (told_at self.old.place (W.contents self.old.inner))
            (told_at self.new.place (W.contents self.new.inner)) result from.now }
        ensures lines { Keeps (lines_at self.old.place (W.contents self.old.inner)) (lines_at self.new.place (W.contents self.new.inner)) }
        ensures ok { OnOk result (W.faults self.new.inner ≡ W.faults self.old.inner) }
        ensures cause { IfErr result (SinkCause (W.faults self.old.inner) (W.faults self.new.inner)) }
    {
        let row = first_row(from);
        let count = self.inner.write(row)?;
        self.place = self.place.after(&row[..count]);
        Ok(count)
    }
}

impl<W: ByteSink + Drop> ByteSink for ExplainedRows<W> {
    ghost contents = { λ s. told_at s.place (W.contents s.inner) };

    ghost faults = { λ s. W.faults s.inner };

    fn write(&mut self, from: &[u8]) -> Result<usize, SinkFault> {
        self.write_row(from)
    }
}

/// The octets up to the first newline, and this.
fn first_row(from: &[u8]) -> &[u8]
    ensures prefix { result.now ≡ take (length result.now) from.now }
    ensures within { length result.now ≤ length from.now }
    ensures some { 0 < length from.now → 1 ≤ length result.now }
    ensures apart { (k : ℕ) → k + 1 < length result.now → slice_index result.now k ≢ newline }
{
    match memchr(b'\n', from) {
        Some(end) => &from[..=end],
        None => from,
    }
}
