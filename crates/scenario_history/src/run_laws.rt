//! What holds of every run.
ghost use Rattle.std.specs.Prelude.{◌≡◌, List, [], ◌++◌, reverse};
ghost use Rattle.scenario_history.specs.Runs.{Rules, out, end_of, brought, Accepted, accepted_of};

/// Where no line of a history was refused, a run over its lines and others brings what the history brought and then what
/// the others bring after it, ends as they do, and accepts first the lines of the history.
#[tactic(auto, using(crate::proofs::RunLaws::out_accepted, crate::proofs::RunLaws::end_accepted, crate::proofs::RunLaws::accepted_accepted))]
pub fn an_accepted_history_goes_first<L, R>()
    ensures out { (rules : Rules L R) (history lines : List L) → Accepted rules history
        → out rules [] (reverse history ++ lines) ≡ brought rules history ++ out rules history lines }
    ensures end { (rules : Rules L R) (history lines : List L) → Accepted rules history
        → end_of rules [] (reverse history ++ lines) ≡ end_of rules history lines }
    ensures accepted { (rules : Rules L R) (history lines : List L) → Accepted rules history
        → accepted_of rules [] (reverse history ++ lines) ≡ accepted_of rules history lines }
{}
