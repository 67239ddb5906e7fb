//! What looking back finds, and where bits of streams stand.
ghost use Rattle.std.specs.Prelude.{◌≡◌, ◌↔◌, ◌∷◌, ◌++◌, drop, ℕ, List, Option, Some};
ghost use Rattle.delegator_history.specs.LastGiven.{last_given, IsLastGiven};
ghost use Rattle.delegator_history.specs.Notices.{changes, is_told, waiting};
ghost use Rattle.delegator_history.specs.Snapshots.{Snapshot, on_group};
ghost use Rattle.delegator_history.specs.States.{Step, done_by, snapshot_of};
ghost use Rattle.delegator_history.specs.Steps.{after};
ghost use Rattle.delegator_history.specs.Trains.{Setup};
ghost use Rattle.delegator_history.specs.Values.{state_at, HasBit};
ghost use Rattle.receive_state.specs.declared.state.ReceiveState.{ReceiveState};

/// What the last step that gives something gives is what some step gives behind which none gives anything.
pub fn last_given_is_last<S, A>()
    ensures { (gives : S → Option A) (steps : List S) (given : A) → (last_given gives steps ≡ Some given) ↔ IsLastGiven gives steps given }
{}

/// What a sink has after a step is what the step makes of what it had, and the notices that wait are those that waited, but
/// for one that was handed out, and those of the step.
pub fn a_step_goes_on()
    ensures snapshot { (setup : Setup) (step : Step) (steps : List Step)
        → snapshot_of setup (step ∷ steps) ≡ after (done_by setup (snapshot_of setup steps) step) (snapshot_of setup steps) }
    ensures waiting { (setup : Setup) (step : Step) (steps : List Step)
        → waiting setup (step ∷ steps) ≡ drop (is_told step) (waiting setup steps) ++ changes setup.slots (snapshot_of setup steps)
        (snapshot_of setup (step ∷ steps)) }
{}

/// A set bit of a stream stands only in the slot whose group the sink is on.
pub fn bits_stand_on_the_group()
    ensures { (snapshot : Snapshot) (slot : ℕ) (state : ReceiveState) → state_at snapshot slot ≡ Some state → HasBit state
        → snapshot.place ≡ on_group (Some slot) }
{}
