//! What holds of every stay, whatever its PDUs are read as.
ghost use Rattle.std.specs.Prelude.{◌≡◌, ◌≤◌, ◌+◌, ◌↔◌, ℕ, List, [], ◌∷◌, ◌++◌, drop, replicate, Option, Some, None};
ghost use Rattle.iso_pdu.specs.Layout.{Content};
ghost use Rattle.isoal_base.specs.Hearing.{read_as, kept_after};
ghost use Rattle.isoal_base.specs.Stays.{Stay, Call, hear, close, heard, FirstHeard, NoneEnters, StandsFor, window_of};

/// What is kept of a number is its first PDU that meets all conditions, and nothing where none does.
pub fn heard_is_first<A>()
    ensures first { (read : List ℕ → Option A) (stay : Stay) (number : ℕ) (part : A) (calls : List Call)
        → (heard read stay calls number ≡ Some part) ↔ FirstHeard read stay number part calls }
    ensures none { (read : List ℕ → Option A) (stay : Stay) (number : ℕ) (calls : List Call)
        → (heard read stay calls number ≡ None) ↔ NoneEnters read stay number calls }
{}

/// A receiver that begins empty, answers each PDU by the first answer that holds and moves its window by an event at
/// each close stands for its calls.
pub fn receiver_stands<A>()
    ensures new { (read : List ℕ → Option A) (stay : Stay) → StandsFor read stay [] stay.first (replicate (window_of stay.info) None) }
    ensures hear { (takes : Content → Option A) (stay : Stay) (calls : List Call) (event : ℕ) (kept : List (Option A)) (number : ℕ)
        (octets : List ℕ)
        → 1 ≤ stay.info.bn → StandsFor (read_as takes stay.info.max_pdu) stay calls event kept
        → StandsFor (read_as takes stay.info.max_pdu) stay (hear number octets ∷ calls) event
        (kept_after takes stay.info event kept number octets) }
    ensures close { (read : List ℕ → Option A) (stay : Stay) (calls : List Call) (event : ℕ) (kept : List (Option A))
        → 1 ≤ stay.info.bn → StandsFor read stay calls event kept
        → StandsFor read stay (close ∷ calls) (event + 1) (drop stay.info.bn kept ++ replicate stay.info.bn None) }
{}
