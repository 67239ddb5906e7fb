ghost use Rattle.std.specs.Prelude.{◌≡◌, ◌<◌, ◌≤◌, ◌+◌, ◌-◌, min, false, true, [], ◌++◌, None, Some, Ok, length, take, drop, slice_index, IfOk, OnOk, OnErr, IsSome, IfSome, IfNone};
ghost use Rattle.std.specs.Io.KnownBytes.{IsAtEnd};
ghost use Rattle.bcast_base.specs.Counts.{Rose};
ghost use Rattle.bcast_io.specs.TextLines.{NoNewline, line_of, line_limit, newline, text_limit};
ghost use Rattle.bcast_io.specs.State.Reading.{IsSound, IsReady, IsPast, Reads, Took, BreaksOff};
ghost use Rattle.bcast_io.specs.State.Answering.{Names, Finds, Ends, GoesOn, Anew, Answers};

use crate::line_buffer::LineBuffer;
use crate::read_ahead::ReadAhead;
use crate::source::{ByteSource, Failed};
use bcast_base::Memory;
use memchr::memchr;
use std::alloc::Global;
use std::marker::Model;
use std::mem;

/// The most octets of a text.
pub const TEXT_LIMIT: usize = 67_108_864;

/// The most octets of a line without its end.
pub const LINE_LIMIT: usize = 9_000;

/// The octet that ends a line.
const NEWLINE: u8 = b'\n';

/// What was read.
#[derive(Clone, Copy, Debug, PartialEq, Eq)]
pub enum LineRead {
    /// A line, which `line` lends.
    Line,
    /// A line of more than 9,000 octets without its end. It was read to its end and not kept.
    LineTooLong,
    /// The line holds octet 67,108,865 of the text.
    TextTooLong,
    /// No octet is left.
    End,
}

/// Where the last line stands.
#[derive(Clone, Copy)]
pub(crate) enum Place {
    /// There is none.
    Nowhere,
    /// It stands where it was read.
    Ahead,
    /// It was put together of what several reads gave.
    Apart,
}

/// Reads a text line by line.
#[derive(Drop)]
pub struct LineReader {
    ahead: ReadAhead,
    part: LineBuffer,
    line: LineBuffer,
    taken: usize,
    is_over: bool,
    place: Place,
}

impl Model for LineReader {
    ghost use Rattle.std.specs.Prelude.{◌≡◌, ◌≤◌, true, [], length, IfSome};
    ghost use Rattle.bcast_io.specs.TextLines.{text_limit, line_limit};
    ghost use Rattle.bcast_io.specs.State.Reading.{Reading, held};

    ghost Value = { Reading };

    ghost view = { λ a. record {
      ahead = a.ahead.octets;
      part = a.part;
      taken = a.taken;
      over = a.is_over;
      line = held a.place a.ahead.line a.line;
    } };

    ghost invariant = { λ a. (length a.ahead.octets ≤ 65536) × (a.taken ≤ text_limit)
        × IfSome (held a.place a.ahead.line a.line) (λ octets. length octets ≤ line_limit)
        × (a.is_over ≡ true → (a.ahead.octets ≡ []) × (a.part ≡ [])) };
}

impl LineReader {
    /// Nothing read yet, with all the space that it will need.
    pub fn new(alloc: Global) -> Result<LineReader, Memory>
        ensures { IfOk result (λ reader. reader ≡ record {
          ahead = [];
          part = [];
          taken = 0;
          over = false;
          line = None;
        }) }
    {
        Ok(LineReader {
            ahead: ReadAhead::new(alloc)?,
            part: LineBuffer::new(alloc)?,
            line: LineBuffer::new(alloc)?,
            taken: 0,
            is_over: false,
            place: Place::Nowhere,
        })
    }

    /// The last line without its end. Condition: the last answer was `Line`.
    pub fn line(&self) -> &[u8]
        requires { IsSome self.now.line }
        ensures value { self.now.line ≡ Some result.now }
        ensures least { length result.now ≤ line_limit }
    {
        match self.place {
            Place::Ahead => self.ahead.line(),
            Place::Nowhere | Place::Apart => self.line.as_slice(),
        }
    }

    // Ends the line so far.
    fn end_line(&mut self) -> LineRead
        ensures names { Names result self.new.line (line_of self.old.part) }
        ensures part { self.new.part ≡ [] }
        ensures ahead { self.new.ahead ≡ self.old.ahead }
        ensures taken { self.new.taken ≡ self.old.taken }
        ensures over { self.new.over ≡ self.old.over }
        ensures sound { IsSound self.new }
    {
        if self.part.len() > LINE_LIMIT {
            self.part.clear();
            self.place = Place::Nowhere;
            return LineRead::LineTooLong;
        }
        mem::swap(&mut self.part, &mut self.line);
        self.part.clear();
        self.place = Place::Apart;
        LineRead::Line
    }

    // Moves the first octets ahead to the line so far.
    fn take_part(&mut self, n: usize)
        requires going { self.old.over ≡ false }
        requires within { n ≤ length self.old.ahead }
        requires fits { self.old.taken + n ≤ text_limit }
        ensures part { self.new.part ≡ take 9001 (self.old.part ++ take n self.old.ahead) }
        ensures ahead { self.new.ahead ≡ drop n self.old.ahead }
        ensures taken { self.new.taken ≡ self.old.taken + n }
        ensures over { self.new.over ≡ false }
        ensures line { self.new.line ≡ None }
    {
        self.part.append(&self.ahead.as_slice()[..n]);
        self.ahead.consume(n);
        self.taken += n;
        self.place = Place::Nowhere;
    }

    // Passes over the end of a line.
    fn skip_end(&mut self)
        requires some { 0 < length self.old.ahead }
        requires fits { self.old.taken < text_limit }
        ensures part { self.new.part ≡ self.old.part }
        ensures ahead { self.new.ahead ≡ drop 1 self.old.ahead }
        ensures taken { self.new.taken ≡ self.old.taken + 1 }
        ensures over { self.new.over ≡ self.old.over }
    {
        self.ahead.consume(1);
        self.taken += 1;
    }

    // Takes a line that is ahead from its first octet to its end.
    fn take_whole(&mut self, at: usize)
        requires going { self.old.over ≡ false }
        requires within { at < length self.old.ahead }
        requires fits { self.old.taken + at < text_limit }
        requires short { at ≤ line_limit }
        ensures line { self.new.line ≡ Some (take at self.old.ahead) }
        ensures part { self.new.part ≡ self.old.part }
        ensures ahead { self.new.ahead ≡ drop (at + 1) self.old.ahead }
        ensures taken { self.new.taken ≡ self.old.taken + at + 1 }
        ensures over { self.new.over ≡ false }
    {
        self.ahead.pass_line(at);
        self.taken += at + 1;
        self.place = Place::Ahead;
    }

    // Takes the line whose end is at this place ahead. Where all of it is ahead, as mostly, its octets stay there.
    fn take_line(&mut self, at: usize) -> LineRead
        requires going { self.old.over ≡ false }
        requires within { at < length self.old.ahead }
        requires fits { self.old.taken + at < text_limit }
        requires end { slice_index self.old.ahead at ≡ newline }
        requires before { NoNewline (take at self.old.ahead) }
        ensures found { Finds result self.old self.new }
        ensures anew { Anew result self.new }
        ensures over { self.new.over ≡ false }
        ensures sound { IsSound self.new }
    {
        if self.part.len() == 0 {
            if at <= LINE_LIMIT {
                self.take_whole(at);
                return LineRead::Line;
            }
        }
        self.take_rest(at)
    }

    // Takes the rest of a line of which a part was taken, or that is too long. It is not inlined, since it comes seldom.
    #[inline(never)]
    fn take_rest(&mut self, at: usize) -> LineRead
        requires going { self.old.over ≡ false }
        requires within { at < length self.old.ahead }
        requires fits { self.old.taken + at < text_limit }
        requires end { slice_index self.old.ahead at ≡ newline }
        requires before { NoNewline (take at self.old.ahead) }
        ensures found { Finds result self.old self.new }
        ensures anew { Anew result self.new }
        ensures over { self.new.over ≡ false }
        ensures sound { IsSound self.new }
    {
        self.take_part(at);
        self.skip_end();
        self.end_line()
    }

    // The answer that the octets ahead have, where there is one. Else they all go to the line so far.
    fn line_ahead(&mut self) -> Option<LineRead>
        requires { self.old.over ≡ false }
        ensures found { IfSome result (λ read. Finds read self.old self.new) }
        ensures anew { IfSome result (λ read. Anew read self.new) }
        ensures none { IfNone result (Reads self.old self.new [] []) }
        ensures all { IfNone result (self.new.ahead ≡ []) }
        ensures taken { IfNone result (self.new.taken ≡ self.old.taken + length self.old.ahead) }
        ensures over { self.new.over ≡ false }
        ensures sound { IsSound self.new }
    {
        let ahead = self.ahead.as_slice();
        let count = ahead.len().min(TEXT_LIMIT - self.taken);
        match find_newline(&ahead[..count]) {
            Some(at) => Some(self.take_line(at)),
            None => self.take_prefix(count),
        }
    }

    // Takes all that may be taken of a line whose end is not ahead. It is not inlined, since it comes seldom.
    #[inline(never)]
    fn take_prefix(&mut self, n: usize) -> Option<LineRead>
        requires going { self.old.over ≡ false }
        requires most { n ≡ min (length self.old.ahead) (text_limit - self.old.taken) }
        requires fits { self.old.taken ≤ text_limit }
        requires none { NoNewline (take n self.old.ahead) }
        ensures found { IfSome result (λ read. Finds read self.old self.new) }
        ensures anew { IfSome result (λ read. Anew read self.new) }
        ensures none { IfNone result (Reads self.old self.new [] []) }
        ensures all { IfNone result (self.new.ahead ≡ []) }
        ensures taken { IfNone result (self.new.taken ≡ self.old.taken + length self.old.ahead) }
        ensures over { self.new.over ≡ false }
        ensures sound { IsSound self.new }
    {
        self.take_part(n);
        if self.ahead.as_slice().is_empty() {
            return None;
        }
        Some(LineRead::TextTooLong)
    }

    // One read where nothing is ahead. It gives how many octets came, which take the place of a line that stands there.
    fn fill<S: ByteSource>(&mut self, source: &mut S) -> Result<usize, Failed>
        requires empty { self.old.ahead ≡ [] }
        requires going { self.old.over ≡ false }
        ensures took { Took self.old self.new (S.left source.old) (S.left source.new) [] }
        ensures count { IfOk result (λ n. n ≡ length self.new.ahead) }
        ensures end { IfOk result (λ n. n ≡ 0 → IsAtEnd (S.left source.new)) }
        ensures none_failed { OnOk result (S.faults source.new ≡ S.faults source.old) }
        ensures kept { OnErr result (self.new.ahead ≡ []) }
        ensures failed { OnErr result (Rose (S.faults source.old) (S.faults source.new)) }
        ensures taken { self.new.taken ≡ self.old.taken }
        ensures line { self.new.line ≡ None }
        ensures over { self.new.over ≡ false }
        ensures sound { IsSound self.new }
    {
        self.place = Place::Nowhere;
        self.ahead.fill(source)
    }

    // The answer at the end of the input.
    fn last_line(&mut self) -> LineRead
        requires empty { self.old.ahead ≡ [] }
        requires going { self.old.over ≡ false }
        ensures ends { Ends result self.old self.new }
        ensures anew { Anew result self.new }
        ensures over { self.new.over ≡ true }
        ensures sound { IsSound self.new }
    {
        if self.part.len() == 0 {
            self.is_over = true;
            self.place = Place::Nowhere;
            return LineRead::End;
        }
        let read = self.end_line();
        self.is_over = true;
        read
    }

    // Reads on, where nothing is ahead and the line isn't whole.
    fn read_on<S: ByteSource>(&mut self, source: &mut S) -> Result<LineRead, Failed>
        requires empty { self.old.ahead ≡ [] }
        requires going { self.old.over ≡ false }
        requires fits { self.old.taken ≤ text_limit }
        ensures answer { IfOk result (λ read. Answers read self.old self.new (S.left source.old) (S.left source.new)) }
        ensures failed { OnErr result (BreaksOff self.old self.new (S.left source.old) (S.left source.new)) }
        ensures none_failed { OnOk result (S.faults source.new ≡ S.faults source.old) }
        ensures cause { OnErr result (Rose (S.faults source.old) (S.faults source.new)) }
        ensures end { self.new.over ≡ true → IsAtEnd (S.left source.new) }
        ensures anew { IfOk result (λ read. Anew read self.new) }
        ensures sound { IsSound self.new }
    {
        'reads: loop {
            if self.fill(source)? == 0 {
                return Ok(self.last_line());
            }
            match self.line_ahead() {
                Some(read) => return Ok(read),
                None => continue 'reads,
            }
        }
    }

    /// Reads one line. It takes no memory, and no call of the source follows once the octets that were
    /// read give the answer. After `Failed` the next call goes on with the line, and after `End` and
    /// `TextTooLong` each later call answers the same without a read.
    pub fn next_line<S: ByteSource>(&mut self, source: &mut S) -> Result<LineRead, Failed>
        ensures answer { IfOk result (λ read. Answers read self.old self.new (S.left source.old) (S.left source.new)) }
        ensures failed { OnErr result (BreaksOff self.old self.new (S.left source.old) (S.left source.new)) }
        ensures none_failed { OnOk result (S.faults source.new ≡ S.faults source.old) }
        ensures cause { OnErr result (Rose (S.faults source.old) (S.faults source.new)) }

        // At most 65,536 octets past those of the lines so far were taken.
        ensures sound { IsSound self.new }

        // No read is made where the octets ahead give the answer, nor after the end.
        ensures unread { IsReady self.old → source.new ≡ source.old }
        ensures over { self.old.over ≡ true
            → (result ≡ Ok LineRead.End) × (self.new.over ≡ true) × (source.new ≡ source.old) }
        ensures past { IsPast self.old → (result ≡ Ok LineRead.TextTooLong) × (source.new ≡ source.old) }
        ensures end { self.old.over ≡ false → self.new.over ≡ true → IsAtEnd (S.left source.new) }

        // There are no more lines than this number, which falls with each of them.
        ensures goes_on { IfOk result (λ read. GoesOn read self.old self.new) }

        // No octet of the next line was passed.
        ensures anew { IfOk result (λ read. Anew read self.new) }
    {
        if self.is_over {
            self.place = Place::Nowhere;
            return Ok(LineRead::End);
        }
        match self.line_ahead() {
            Some(read) => Ok(read),
            None => self.read_on(source),
        }
    }
}

// The place of the first end of a line.
fn find_newline(from: &[u8]) -> Option<usize>
    ensures none { IfNone result (NoNewline from.now) }
    ensures within { IfSome result (λ i. i < length from.now) }
    ensures at { IfSome result (λ i. slice_index from.now i ≡ newline) }
    ensures before { IfSome result (λ i. NoNewline (take i from.now)) }
{
    memchr(NEWLINE, from)
}
