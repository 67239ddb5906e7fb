ghost use Rattle.std.specs.Prelude.{◌≡◌, ◌<◌, ◌≤◌, ◌+◌, [], length, drop, take, IfOk, OnOk, OnErr};
ghost use Rattle.std.specs.Io.KnownBytes.{Consumes, IsAtEnd, Keeps};
ghost use Rattle.bcast_base.specs.Counts.{Rose};

use crate::source::{ByteSource, Failed};
use bcast_base::Memory;
use std::alloc::Global;
use std::marker::Model;

/// The most octets that are read ahead.
pub const AHEAD_LIMIT: usize = 65_536;

/// The octets that one read asks for. They take their room, which is set to 0, before the first line.
const PIECE: usize = 8_192;

/// Octets that were read ahead, and the last line that was passed over whole, which stays where it was read until the next
/// read.
#[derive(Drop)]
pub(crate) struct ReadAhead {
    buffer: Vec<u8>,
    start: usize,
    end: usize,
    line_start: usize,
    line_end: usize,
}

impl Model for ReadAhead {
    ghost use Rattle.std.specs.Prelude.{◌≡◌, ◌≤◌, slice_range, length};
    ghost use Rattle.bcast_io.specs.State.Reading.{Window};

    ghost Value = { Window };

    ghost view = { λ a. record {
      octets = slice_range a.buffer.items a.start a.end;
      line = slice_range a.buffer.items a.line_start a.line_end;
    } };

    ghost invariant = { λ a. (length a.buffer.items ≡ 8192) × (a.start ≤ a.end) × (a.end ≤ 8192)
        × (a.line_start ≤ a.line_end) × (a.line_end ≤ 8192) };
}

impl ReadAhead {
    /// Nothing read yet, with all the space that it will need.
    pub(crate) fn new(alloc: Global) -> Result<ReadAhead, Memory>
        ensures { IfOk result (λ ahead. ahead ≡ record { octets = []; line = [] }) }
    {
        Ok(ReadAhead {
            buffer: vec![in alloc; 0u8; PIECE]?,
            start: 0,
            end: 0,
            line_start: 0,
            line_end: 0,
        })
    }

    /// The octets, in order.
    pub(crate) fn as_slice(&self) -> &[u8]
        ensures value { result.now ≡ self.now.octets }
        ensures least { length self.now.octets ≤ 65536 }
    {
        &self.buffer[self.start..self.end]
    }

    /// The last line that was passed over whole.
    pub(crate) fn line(&self) -> &[u8]
        ensures { result.now ≡ self.now.line }
    {
        &self.buffer[self.line_start..self.line_end]
    }

    /// Lets the first `n` octets go.
    pub(crate) fn consume(&mut self, n: usize)
        requires { n ≤ length self.old.octets }
        ensures octets { self.new.octets ≡ drop n self.old.octets }
        ensures line { self.new.line ≡ self.old.line }
    {
        self.start += n;
    }

    /// Passes over a line and its end, which is at this place.
    pub(crate) fn pass_line(&mut self, at: usize)
        requires { at < length self.old.octets }
        ensures octets { self.new.octets ≡ drop (at + 1) self.old.octets }
        ensures line { self.new.line ≡ take at self.old.octets }
    {
        self.line_start = self.start;
        self.line_end = self.start + at;
        self.start += at + 1;
    }

    /// One read where nothing is ahead. It gives how many octets came, which take the place of the line.
    pub(crate) fn fill<S: ByteSource>(&mut self, source: &mut S) -> Result<usize, Failed>
        requires { self.old.octets ≡ [] }
        ensures count { IfOk result (λ n. n ≡ length self.new.octets) }
        ensures least { length self.new.octets ≤ 65536 }
        ensures ok { OnOk result (Consumes (S.left source.old) (S.left source.new) self.new.octets) }
        ensures end { IfOk result (λ n. n ≡ 0 → IsAtEnd (S.left source.new)) }
        ensures none_failed { OnOk result (S.faults source.new ≡ S.faults source.old) }
        ensures err { OnErr result (Keeps (S.left source.old) (S.left source.new)) }
        ensures kept { OnErr result (self.new.octets ≡ []) }
        ensures failed { OnErr result (Rose (S.faults source.old) (S.faults source.new)) }
    {
        self.start = 0;
        self.end = 0;
        self.end = source.read(&mut self.buffer)?;
        Ok(self.end)
    }
}
