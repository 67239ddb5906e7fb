//! Which octets are a receive state, what is wrong with all others, and which state has octets.
ghost use Rattle.std.specs.Prelude.{◌≡◌, ◌≢◌, ◌↔◌, ℕ, List, Option, Some, Ok, Err};
ghost use Rattle.bcast_base.specs.Encoding.{IsOctets};
ghost use Rattle.receive_state.specs.Faults.{IsFault};
ghost use Rattle.receive_state.specs.Layout.{HasEncoding, HasTypes, StateIs};
ghost use Rattle.receive_state.specs.Reading.{state_of};
ghost use Rattle.receive_state.specs.declared.fault.StateFault.{StateFault};
ghost use Rattle.receive_state.specs.declared.fault.StateFault.TheVariants.{Memory};
ghost use Rattle.receive_state.specs.declared.state.ReceiveState.{ReceiveState};

/// Octets are read as a value if and only if they have its layout, so no octets are those of two values.
pub fn read_is_state()
    ensures { (state : Option ReceiveState) (octets : List ℕ) → IsOctets octets → (state_of octets ≡ Ok state) ↔ StateIs state octets }
{}

/// Octets are refused with a fault if and only if it is their first one, so no octets have two.
pub fn fault_is_cause()
    ensures { (fault : StateFault) (octets : List ℕ) → fault ≢ Memory → IsOctets octets
        → (state_of octets ≡ Err fault) ↔ IsFault fault octets }
{}

/// A state fits if and only if some octets have its layout.
pub fn fits_is_encoded()
    ensures { (state : ReceiveState) → HasTypes state → HasEncoding state ↔ ((octets : List ℕ) × StateIs (Some state) octets) }
{}
