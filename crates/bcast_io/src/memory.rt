ghost use Rattle.std.specs.Prelude.{◌≡◌, ◌≢◌, ◌↔◌, ◌<◌, ◌≤◌, [], Some, Err, IsErr, OnOk, OnErr, IfOk, length, min};
ghost use Rattle.std.specs.Io.{ReadsAtMost, WritesAtMost};
ghost use Rattle.std.specs.Io.KnownBytes.{ReadConsumes, WriteAppends};
ghost use Rattle.bcast_io.specs.Scripts.{FailsNext, after_pass, after_fail};

use crate::faithful::FaithfulSource;
use crate::script::Script;
use crate::sink::{ByteSink, SinkFault};
use crate::source::{ByteSource, Failed};
use bcast_base::{Calls, Memory, Octets};
use std::alloc::Global;
use std::marker::Model;

/// A source over octets in memory. It gives at most `piece` octets a call, and fails exactly at the
/// listed calls.
#[derive(Drop)]
pub struct MemorySource {
    supply: FaithfulSource,
    script: Script,
}

impl Model for MemorySource {
    ghost use Rattle.bcast_io.specs.Stores.{ScriptedSupply};

    ghost Value = { ScriptedSupply };

    ghost view = { λ a. record { left = a.supply.left; piece = a.supply.piece; script = a.script } };
}

impl MemorySource {
    /// All of these octets are left, and no call was made. Condition: `piece` is at least 1.
    pub fn new(octets: Octets, piece: usize, failing: Calls) -> MemorySource
        requires { 1 ≤ piece }
        ensures { result ≡ record {
          left = octets;
          piece = piece;
          script = record { failing = failing; calls = 0; faults = 0 };
        } }
    {
        MemorySource {
            supply: FaithfulSource::new(octets, piece),
            script: Script::new(failing),
        }
    }
}

impl ByteSource for MemorySource {
    ghost left = { λ s. Some s.left };

    ghost faults = { λ s. s.script.faults };

    fn read(&mut self, into: &mut [u8]) -> Result<usize, Failed>
        ensures bound { ReadsAtMost result into.new }
        ensures bytes { ReadConsumes (Some self.old.left) (Some self.new.left) result into.new }
        ensures never_falls { self.old.script.faults ≤ self.new.script.faults }
        ensures fails { IsErr result ↔ FailsNext self.old.script }
        ensures ok { OnOk result (self.new.script ≡ after_pass self.old.script) }
        ensures err { OnErr result (self.new.script ≡ after_fail self.old.script) }
        ensures count { IfOk result (λ n.
            n ≡ min (min self.old.piece (length into.old)) (length self.old.left)) }
        ensures piece { self.new.piece ≡ self.old.piece }
    {
        if self.script.next_fails() {
            return Err(Failed);
        }
        self.supply.read(into)
    }
}

/// A sink into memory. It takes at most `piece` octets a call, and fails exactly at the listed calls. No octets take no
/// memory.
#[derive(Drop)]
pub struct MemorySink {
    taken: Octets,
    piece: usize,
    script: Script,
}

impl Model for MemorySink {
    ghost use Rattle.std.specs.Prelude.{◌≤◌};
    ghost use Rattle.bcast_io.specs.Stores.{ScriptedStore};

    ghost Value = { ScriptedStore };

    ghost view = { λ a. record { taken = a.taken; piece = a.piece; script = a.script } };

    ghost invariant = { λ a. 1 ≤ a.piece };
}

impl MemorySink {
    /// Nothing taken, and no call made. It takes no memory. Condition: `piece` is at least 1.
    pub fn new(alloc: Global, piece: usize, failing: Calls) -> MemorySink
        requires { 1 ≤ piece }
        ensures { result ≡ record {
          taken = [];
          piece = piece;
          script = record { failing = failing; calls = 0; faults = 0 };
        } }
    {
        MemorySink {
            taken: Octets::new(alloc),
            piece,
            script: Script::new(failing),
        }
    }

    /// The octets taken.
    pub fn taken(&self) -> &[u8]
        ensures { result.now ≡ self.now.taken }
    {
        self.taken.as_slice()
    }
}

impl ByteSink for MemorySink {
    ghost contents = { λ s. Some s.taken };

    ghost faults = { λ s. s.script.faults };

    fn write(&mut self, from: &[u8]) -> Result<usize, SinkFault>
        ensures bound { WritesAtMost result from.now }
        ensures some { 0 < length from.now → IfOk result (λ n. 1 ≤ n) }
        ensures bytes { WriteAppends (Some self.old.taken) (Some self.new.taken) result from.now }
        ensures never_falls { self.old.script.faults ≤ self.new.script.faults }
        ensures fails { (result ≡ Err SinkFault.Failed) ↔ FailsNext self.old.script }
        ensures none { result ≡ Err SinkFault.Memory → 0 < length from.now }
        ensures pass { result ≢ Err SinkFault.Failed → self.new.script ≡ after_pass self.old.script }
        ensures fail { result ≡ Err SinkFault.Failed → self.new.script ≡ after_fail self.old.script }
        ensures count { IfOk result (λ n. n ≡ min self.old.piece (length from.now)) }
        ensures piece { self.new.piece ≡ self.old.piece }
    {
        if self.script.next_fails() {
            return Err(SinkFault::Failed);
        }
        let n = self.piece.min(from.len());
        match self.taken.append(&from[..n]) {
            Ok(()) => Ok(n),
            Err(Memory) => Err(SinkFault::Memory),
        }
    }
}
