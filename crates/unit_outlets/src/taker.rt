ghost use Rattle.std.specs.Prelude.{◌≡◌, List, [], ◌∷◌, ◌++◌, OnOk, OnErr};
ghost use Rattle.unit_outlets.specs.Handed.{Handed, valid, lost, Counts, Caused};

use crate::fault::TakerFault;
use bcast_base::Bis;

/// What a receiver hands its units to, each with its stream and its time in µs.
///
/// `Failed` comes only where the count of faults rose, and `Memory` only where the count of wants of memory rose; a
/// count that stands at its last value, 2^64 - 1, stays there.
pub trait UnitTaker {
    /// The calls that answered `Ok`, in order.
    ghost calls: { Self → List Handed };

    /// How many faults there were, and how many wants of memory.
    ghost counts: { Self → Counts };

    /// Hands over a unit that is valid.
    fn valid(&mut self, bis: Bis, time: u64, octets: &[u8]) -> Result<(), TakerFault>
        ensures ok { OnOk result (calls self.new ≡ calls self.old ++ valid bis time octets.now ∷ []) }
        ensures err { OnErr result (calls self.new ≡ calls self.old) }
        ensures cause { Caused (counts self.old) (counts self.new) result };

    /// Tells that a unit is lost.
    fn lost(&mut self, bis: Bis, time: u64) -> Result<(), TakerFault>
        ensures ok { OnOk result (calls self.new ≡ calls self.old ++ lost bis time ∷ []) }
        ensures err { OnErr result (calls self.new ≡ calls self.old) }
        ensures cause { Caused (counts self.old) (counts self.new) result };
}
