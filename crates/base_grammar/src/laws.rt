//! Which octets are a BASE, and what is wrong with all others.
ghost use Rattle.std.specs.Prelude.{◌≡◌, ◌↔◌, ℕ, List, Ok, Err};
ghost use Rattle.bcast_base.specs.Encoding.{IsOctets};
ghost use Rattle.base_grammar.specs.Faults.{IsBad};
ghost use Rattle.base_grammar.specs.Layout.{Endpoint, BaseIs};
ghost use Rattle.base_grammar.specs.Reading.{base_of};
ghost use Rattle.base_grammar.specs.declared.fault.BaseFault.{BaseFault};

/// Octets are read as a BASE if and only if they are its encoding, so no octets encode two: what is encoded is decoded,
/// and what was decoded is encoded to the same octets.
pub fn read_is_base()
    ensures { (v : Endpoint) (octets : List ℕ) → IsOctets octets → (base_of octets ≡ Ok v) ↔ BaseIs v octets }
{}

/// What is wrong with octets is what stands at the cut.
pub fn fault_is_at_cut()
    ensures { (fault : BaseFault) (octets : List ℕ) → (base_of octets ≡ Err fault) ↔ IsBad fault octets }
{}
