//! Which octets are an operation, and what is wrong with all others.
ghost use Rattle.std.specs.Prelude.{◌≡◌, ◌≢◌, ◌↔◌, ℕ, List, Ok, Err, Some, None};
ghost use Rattle.bcast_base.specs.Encoding.{IsOctets};
ghost use Rattle.bass_operations.specs.Faults.{IsFault};
ghost use Rattle.bass_operations.specs.Layout.{OpIs};
ghost use Rattle.bass_operations.specs.Reading.{op_of};
ghost use Rattle.bass_operations.specs.Twice.{IsLowestTwice, NoneTwice, twice_of};
ghost use Rattle.bass_operations.specs.declared.fault.OpFault.{OpFault};
ghost use Rattle.bass_operations.specs.declared.fault.OpFault.TheVariants.{Memory};
ghost use Rattle.bass_operations.specs.declared.operation.Operation.{Operation};
ghost use Rattle.bass_operations.specs.declared.wishes.Wish.{Wish};

/// Octets are read as an operation if and only if they have its layout, so no octets are those of two operations.
pub fn read_is_operation()
    ensures { (op : Operation) (octets : List ℕ) → IsOctets octets → (op_of octets ≡ Ok op) ↔ OpIs op octets }
{}

/// Octets are refused with a fault if and only if it is their first one, so no octets have two.
pub fn fault_is_cause()
    ensures { (fault : OpFault) (octets : List ℕ) → fault ≢ Memory → IsOctets octets → (op_of octets ≡ Err fault) ↔ IsFault fault octets }
{}

/// The stream that is found first is the lowest one that stands in two subgroups.
pub fn twice_is_lowest()
    ensures lowest { (bis : ℕ) (wishes : List Wish) → (twice_of wishes ≡ Some bis) ↔ IsLowestTwice bis wishes }
    ensures none { (wishes : List Wish) → (twice_of wishes ≡ None) ↔ NoneTwice wishes }
{}
