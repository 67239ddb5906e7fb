//! Which octets are an AD list, and where all others pass their end.
ghost use Rattle.std.specs.Prelude.{◌≡◌, ◌↔◌, ℕ, List, Ok, Err};
ghost use Rattle.base_grammar.specs.Ad.{IsAdList, IsAdShort};
ghost use Rattle.base_grammar.specs.AdReading.{ads_of};
ghost use Rattle.ltv_codec.specs.declared.ltvs.Ltv.{Ltv};
ghost use Rattle.bcast_base.specs.Encoding.{IsOctets};

/// Octets are read as an AD list if and only if they are its structures, up to the end or to a length octet of 0.
pub fn ad_list_is_read()
    ensures { (ads : List Ltv) (octets : List ℕ) → IsOctets octets → (ads_of octets ≡ Ok ads) ↔ IsAdList ads octets }
{}

/// All other octets have a length octet behind whole structures that passes the end, and its place is told.
pub fn ad_short_is_cut()
    ensures { (place : ℕ) (octets : List ℕ) → IsOctets octets → (ads_of octets ≡ Err place) ↔ IsAdShort place octets }
{}
