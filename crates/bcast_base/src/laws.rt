//! What is read of each kind of field is encoded so, and what is encoded so is read, whatever follows.
ghost use Rattle.std.specs.Prelude.{◌≡◌, ◌↔◌, ◌<◌, ◌*◌, ◌^◌, ◌++◌, List, ℕ, length, Some, None};
ghost use Rattle.std.specs.List.{flat_map, AllByRecursion};
ghost use Rattle.bcast_base.specs.Layout.{Field, FirstReserved, NoneReserved, reserved_from};
ghost use Rattle.bcast_base.specs.Reading.{octet_in, octets_in, number_in, counted_in, place_in, Takes};
ghost use Rattle.bcast_base.specs.Encoding.{IsOctets, octet, number, counted};
ghost use Rattle.bcast_base.specs.Subgroups.{Subgroup, Fits, subgroup, subgroups_in};

/// Each item of a slice of octets is one.
pub fn are_octets(octets: &[u8])
    ensures { IsOctets octets.now }
{}

/// What is read is encoded so, each octet of it.
#[tactic(auto, using(crate::proofs::Fields::octet_takes))]
pub fn read_is_encoded()
    ensures octet { (from : List ℕ) (value : ℕ) (rest : List ℕ) → octet_in from ≡ Some (value, rest) → Takes from (octet value) rest }
    ensures octets { (k : ℕ) (from value rest : List ℕ) → octets_in k from ≡ Some (value, rest) → Takes from value rest
        × (length value ≡ k) }
    ensures number { (k : ℕ) (from : List ℕ) (value : ℕ) (rest : List ℕ)
        → IsOctets from
        → number_in k from ≡ Some (value, rest)
        → Takes from (number k value) rest × (value < 2 ^ (8 * k)) }
    ensures counted { (from value rest : List ℕ) → counted_in from ≡ Some (value, rest) → Takes from (counted value) rest }
{}

/// What is encoded so is read, whatever follows.
#[tactic(auto, using(crate::proofs::Fields::number_again))]
pub fn encoded_is_read()
    ensures octet { (value : ℕ) (rest : List ℕ) → octet_in (octet value ++ rest) ≡ Some (value, rest) }
    ensures octets { (value rest : List ℕ) → octets_in (length value) (value ++ rest) ≡ Some (value, rest) }
    ensures number { (k value : ℕ) (rest : List ℕ) → value < 2 ^ (8 * k) → number_in k (number k value ++ rest) ≡ Some (value, rest) }
    ensures counted { (value rest : List ℕ) → counted_in (counted value ++ rest) ≡ Some (value, rest) }
{}

/// The place of the octets that are left is that of the cut behind those in front of them.
pub fn place_is_cut()
    ensures { (prefix rest : List ℕ) → place_in (prefix ++ rest) rest ≡ length prefix }
{}

/// The place that is counted field by field is that of the first field with a reserved value.
pub fn reserved_is_first()
    ensures first { (place : ℕ) (fields : List Field) → (reserved_from 0 fields ≡ Some place) ↔ FirstReserved place fields }
    ensures none { (fields : List Field) → (reserved_from 0 fields ≡ None) ↔ NoneReserved fields }
{}

/// Subgroups that are read are encoded so, and those that are encoded so are read, whatever follows.
pub fn subgroups_are_encoded()
    ensures taken { (count : ℕ) (from : List ℕ) (x : List Subgroup × List ℕ)
        → IsOctets from
        → subgroups_in count from ≡ Some x
        → Takes from (flat_map subgroup x.0) x.1 × AllByRecursion Fits x.0 × (length x.0 ≡ count) }
    ensures again { (groups : List Subgroup) (rest : List ℕ) → AllByRecursion Fits groups
        → subgroups_in (length groups) (flat_map subgroup groups ++ rest) ≡ Some (groups, rest) }
{}
