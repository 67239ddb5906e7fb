ghost use Rattle.std.specs.Prelude.{◌≡◌, ◌+◌, ◌-◌, ◌%◌, ◌<◌, ◌≤◌, None, IsOk, IfOk, length, min, take, drop};
ghost use Rattle.std.specs.Io.{ReadsAtMost};
ghost use Rattle.std.specs.Io.KnownBytes.{ReadConsumes};

use crate::faithful::give;
use crate::source::{ByteSource, Failed};
use bcast_base::Octets;
use std::marker::Model;

/// A source that repeats a line for ever and tells no content. A call gives at most `piece` octets,
/// and none past the end of the line.
#[derive(Drop)]
pub struct EndlessSource {
    line: Octets,
    at: usize,
    piece: usize,
}

impl Model for EndlessSource {
    ghost use Rattle.std.specs.Prelude.{◌≤◌, ◌<◌, length};
    ghost use Rattle.bcast_io.specs.Stores.{Loop};

    ghost Value = { Loop };

    ghost view = { λ a. record { line = a.line; at = a.at; piece = a.piece } };

    ghost invariant = { λ a. (a.at < length a.line) × (1 ≤ a.piece) };
}

impl EndlessSource {
    /// Begins at the front of the line. Conditions: the line isn't empty, and `piece` is at least 1.
    pub fn new(line: Octets, piece: usize) -> EndlessSource
        requires some { 0 < length line }
        requires least { 1 ≤ piece }
        ensures { result ≡ record { line = line; at = 0; piece = piece } }
    {
        EndlessSource { line, at: 0, piece }
    }
}

impl ByteSource for EndlessSource {
    ghost faults = { λ _. 0 };

    fn read(&mut self, into: &mut [u8]) -> Result<usize, Failed>
        ensures bound { ReadsAtMost result into.new }
        ensures bytes { ReadConsumes None None result into.new }
        ensures never { IsOk result }
        ensures count { IfOk result (λ n.
            n ≡ min (min self.old.piece (length into.old)) (length self.old.line - self.old.at)) }
        ensures given { IfOk result (λ n. take n into.new ≡ take n (drop self.old.at self.old.line)) }
        ensures next { IfOk result (λ n. self.new.at ≡ (self.old.at + n) % length self.old.line) }
        ensures line { self.new.line ≡ self.old.line }
        ensures piece { self.new.piece ≡ self.old.piece }
    {
        let left = &self.line.as_slice()[self.at..];
        let n = give(left, self.piece, into);
        self.at = (self.at + n) % self.line.as_slice().len();
        Ok(n)
    }
}
