ghost use Rattle.std.specs.Prelude.{◌≡◌, ◌<◌, ◌≤◌, ℕ, List, Option, None, length, IfOk, OnOk, IfErr};
ghost use Rattle.std.specs.Io.{WritesAtMost};
ghost use Rattle.std.specs.Io.KnownBytes.{WriteAppends};
ghost use Rattle.bcast_io.specs.Causes.{SinkCause};

/// Why a sink refused.
#[derive(Clone, Copy, Debug, PartialEq, Eq)]
pub enum SinkFault {
    Failed,
    Memory,
}

/// Where octets go.
pub trait ByteSink {
    // The octets taken, where the sink tells them.
    ghost contents: { Self → Option (List ℕ) } = { λ _. None };

    // How many faults there were. The count stops at 2^64 - 1.
    ghost faults: { Self → ℕ };

    /// Takes the first octets of `from`, at least one where there are any. A refusal leaves what was
    /// taken. `Failed` comes only where the count of faults rose, and `Memory` leaves it.
    fn write(&mut self, from: &[u8]) -> Result<usize, SinkFault>
        ensures bound { WritesAtMost result from.now }
        ensures some { 0 < length from.now → IfOk result (λ n. 1 ≤ n) }
        ensures bytes { WriteAppends (contents self.old) (contents self.new) result from.now }
        ensures ok { OnOk result (faults self.new ≡ faults self.old) }
        ensures cause { IfErr result (SinkCause (faults self.old) (faults self.new)) }
        ensures never_falls { faults self.old ≤ faults self.new };
}
