ghost use Rattle.std.specs.Prelude.{◌≡◌, ◌≤◌, ℕ, List, Option, None, OnOk, OnErr};
ghost use Rattle.std.specs.Io.{ReadsAtMost};
ghost use Rattle.std.specs.Io.KnownBytes.{ReadConsumes};
ghost use Rattle.bcast_base.specs.Counts.{Rose};

/// A read from the outside failed.
#[derive(Clone, Copy, Debug, PartialEq, Eq)]
pub struct Failed;

/// Where octets come from.
pub trait ByteSource {
    // The octets left, where the source tells them.
    ghost left: { Self → Option (List ℕ) } = { λ _. None };

    // How many faults there were. The count stops at 2^64 - 1.
    ghost faults: { Self → ℕ };

    /// Gives the first octets that are left. With room in `into`, none come only at the end of the
    /// input. `Failed` leaves the octets, and comes only where the count of faults rose.
    fn read(&mut self, into: &mut [u8]) -> Result<usize, Failed>
        ensures bound { ReadsAtMost result into.new }
        ensures bytes { ReadConsumes (left self.old) (left self.new) result into.new }
        ensures ok { OnOk result (faults self.new ≡ faults self.old) }
        ensures failed { OnErr result (Rose (faults self.old) (faults self.new)) }
        ensures never_falls { faults self.old ≤ faults self.new };
}
