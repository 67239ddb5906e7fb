//! What the boxes of a scenario took.
ghost use Rattle.std.specs.Prelude.{List};
ghost use Rattle.unit_outlets.specs.Account.{Account};
ghost use Rattle.scenario_history.specs.Boxes.{SinkUnit, accounts_after, Took};

/// Boxes that take units one after the other, each valid one going to the box of its sink, took all of them: the sums of
/// each box grow by the number and the octets of its units, and it keeps the newest.
#[tactic(auto, using(crate::proofs::BoxLaws::took_all))]
pub fn boxes_take_their_units()
    ensures { (starts : List Account) (units : List SinkUnit) → Took starts (accounts_after starts units) units }
{}
