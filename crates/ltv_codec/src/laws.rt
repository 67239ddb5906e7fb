//! Which octets are an LTV list, and what is wrong with all others.
ghost use Rattle.std.specs.Prelude.{◌≡◌, ◌↔◌, ℕ, List, Ok, Err};
ghost use Rattle.bcast_base.specs.Encoding.{IsOctets};
ghost use Rattle.ltv_codec.specs.Faults.{IsBad};
ghost use Rattle.ltv_codec.specs.Layout.{IsLtvList};
ghost use Rattle.ltv_codec.specs.Reading.{ltvs_of};
ghost use Rattle.ltv_codec.specs.declared.fault.LtvBad.{LtvBad};
ghost use Rattle.ltv_codec.specs.declared.ltvs.Ltv.{Ltv};

/// Octets are read as a list if and only if they are its encoding, so no octets encode two lists.
pub fn read_is_list()
    ensures { (ltvs : List Ltv) (octets : List ℕ) → IsOctets octets → (ltvs_of octets ≡ Ok ltvs) ↔ IsLtvList ltvs octets }
{}

/// What is wrong with octets is the length octet that stands behind the whole structures.
pub fn bad_is_at_cut()
    ensures { (bad : LtvBad) (octets : List ℕ) → IsOctets octets → (ltvs_of octets ≡ Err bad) ↔ IsBad bad octets }
{}
