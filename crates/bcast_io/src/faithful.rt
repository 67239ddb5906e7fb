ghost use Rattle.std.specs.Prelude.{◌≡◌, ◌<◌, ◌≤◌, [], Ok, Some, IfOk, IfErr, OnErr, length, min, take, drop};
ghost use Rattle.std.specs.Io.{ReadsAtMost, WritesAtMost};
ghost use Rattle.std.specs.Io.KnownBytes.{ReadConsumes, WriteAppends};

use crate::sink::{ByteSink, SinkFault};
use crate::source::{ByteSource, Failed};
use bcast_base::{Memory, Octets};
use std::alloc::Global;
use std::marker::Model;

/// A source over octets in memory that never fails. It gives at most `piece` octets a call.
#[derive(Drop)]
pub struct FaithfulSource {
    octets: Octets,
    at: usize,
    piece: usize,
}

impl Model for FaithfulSource {
    ghost use Rattle.std.specs.Prelude.{◌≤◌, drop, length};
    ghost use Rattle.bcast_io.specs.Stores.{Supply};

    ghost Value = { Supply };

    ghost view = { λ a. record { left = drop a.at a.octets; piece = a.piece } };

    ghost invariant = { λ a. (a.at ≤ length a.octets) × (1 ≤ a.piece) };
}

impl FaithfulSource {
    /// All of these octets are left. Condition: `piece` is at least 1.
    pub fn new(octets: Octets, piece: usize) -> FaithfulSource
        requires { 1 ≤ piece }
        ensures { result ≡ record { left = octets; piece = piece } }
    {
        FaithfulSource {
            octets,
            at: 0,
            piece,
        }
    }
}

impl ByteSource for FaithfulSource {
    ghost left = { λ s. Some s.left };

    ghost faults = { λ _. 0 };

    fn read(&mut self, into: &mut [u8]) -> Result<usize, Failed>
        ensures bound { ReadsAtMost result into.new }
        ensures bytes { ReadConsumes (Some self.old.left) (Some self.new.left) result into.new }
        ensures count { result ≡ Ok (min (min self.old.piece (length into.old)) (length self.old.left)) }
        ensures piece { self.new.piece ≡ self.old.piece }
    {
        let left = &self.octets.as_slice()[self.at..];
        let n = give(left, self.piece, into);
        self.at += n;
        Ok(n)
    }
}

/// Copies the first octets, at most `piece` of them and no more than there is room for.
pub(crate) fn give(left: &[u8], piece: usize, into: &mut [u8]) -> usize
    ensures count { result ≡ min (min piece (length into.old)) (length left.now) }
    ensures copied { take result into.new ≡ take result left.now }
{
    let n = piece.min(into.len()).min(left.len());
    into[..n].copy_from_slice(&left[..n]);
    n
}

/// A sink into memory that never fails but for want of memory. No octets take none.
#[derive(Drop)]
pub struct FaithfulSink {
    taken: Octets,
}

impl Model for FaithfulSink {
    ghost use Rattle.std.specs.Prelude.{List, ℕ};

    ghost Value = { List ℕ };

    ghost view = { λ a. a.taken };
}

impl FaithfulSink {
    /// Nothing taken yet. It takes no memory.
    pub fn new(alloc: Global) -> FaithfulSink
        ensures { result ≡ [] }
    {
        FaithfulSink {
            taken: Octets::new(alloc),
        }
    }

    /// The octets taken.
    pub fn taken(&self) -> &[u8]
        ensures { result.now ≡ self.now }
    {
        self.taken.as_slice()
    }
}

impl ByteSink for FaithfulSink {
    ghost contents = { λ s. Some s };

    ghost faults = { λ _. 0 };

    fn write(&mut self, from: &[u8]) -> Result<usize, SinkFault>
        ensures bound { WritesAtMost result from.now }
        ensures some { 0 < length from.now → IfOk result (λ n. 1 ≤ n) }
        ensures bytes { WriteAppends (Some self.old) (Some self.new) result from.now }
        ensures all { IfOk result (λ n. n ≡ length from.now) }
        ensures memory { IfErr result (λ fault. fault ≡ SinkFault.Memory) }
        ensures none { OnErr result (0 < length from.now) }
    {
        match self.taken.append(from) {
            Ok(()) => Ok(from.len()),
            Err(Memory) => Err(SinkFault::Memory),
        }
    }
}
