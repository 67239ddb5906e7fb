ghost use Rattle.std.specs.Prelude.{◌≡◌, List};
ghost use Rattle.scenario_text.specs.declared.step.Step.{Step};
ghost use Rattle.scenario_history.specs.Source.{identity_of};
ghost use Rattle.scenario_sources.specs.Described.{identity_or_none};
ghost use Rattle.scenario_sources.specs.State.Phases.{PhaseIs};

use crate::phase::Phase;
use source_machine::Identity;

/// The identity of a source, all 0 where none was said.
pub(crate) fn identity_or(said: Option<Identity>) -> Identity
    ensures { result ≡ identity_or_none said }
{
    match said {
        Some(identity) => identity,
        None => Identity {
            address_type: 0,
            address: [0; 6],
            sid: 0,
            broadcast_id: [0; 3],
        },
    }
}

/// The identity of a source, as far as it was said.
pub(crate) fn identity_in(phase: &Phase) -> Identity
    ensures { (own : List Step) → PhaseIs own phase.now → result ≡ identity_of own }
{
    match phase {
        Phase::Absent => identity_or(None),
        Phase::Described(described) => identity_or(described.identity),
        Phase::Sending(started) => started.identity(),
        Phase::Stopped(started) => started.identity(),
    }
}
