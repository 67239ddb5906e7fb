//! What holds of the units of framed streams, whoever joins them.
ghost use Rattle.std.specs.Prelude.{◌≡◌, ◌≤◌, ◌↔◌, ◌∷◌, ◌++◌, ℕ, Bool, List};
ghost use Rattle.isoal_base.specs.Stays.{Stay, Call, close};
ghost use Rattle.isoal_framed.specs.Histories.{decided, gained};
ghost use Rattle.isoal_framed.specs.Struck.{Fit, FromSource, InOrder, Sent, closed_end, struck};
ghost use Rattle.isoal_framed.specs.Units.{Piece, Fate, FateIs, fate_of};

/// What becomes of a start, from left to right, is what its run and what follows it say.
pub fn fate_is_decided()
    ensures { (max_sdu : ℕ) (run : List Piece) (followed : Bool) (fate : Fate)
        → (fate_of max_sdu run followed ≡ fate) ↔ FateIs max_sdu run followed fate }
{}

/// A close adds to the units that are decided those that it hands.
pub fn a_close_gains_units()
    ensures { (stay : Stay) (calls : List Call) → decided stay (close ∷ calls) ≡ decided stay calls ++ gained stay calls }
{}

/// The framed units law of one stay: where each PDU that is heard is the source's own at its number, the units that its
/// closed events decide have one entry for each unit whose start is heard, in order: the unit, valid, where it is wholly
/// laid and all numbers that carry it were heard and closed; lost where the first that wasn't heard is closed. The stay may
/// begin inside a unit.
pub fn framed_units_are_struck()
    ensures { (stay : Stay) (units : List Sent) (laid : ℕ) (calls : List Call) → 1 ≤ stay.info.bn → InOrder 0 laid units
        → closed_end stay calls ≤ laid
        → Fit stay.info.max_sdu units → FromSource stay units calls → decided stay calls ≡ struck stay units calls }
{}
