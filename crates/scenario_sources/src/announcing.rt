//! What a source announces.
ghost use Rattle.std.specs.Prelude.{◌≤◌, ◌^◌, List, IfOk};
ghost use Rattle.scenario_text.specs.declared.step.Step.{Step};
ghost use Rattle.scenario_sources.specs.Answers.{AnnouncesAs};
ghost use Rattle.scenario_sources.specs.State.Phases.{PhaseIs};

use crate::phase::Phase;
use announcement_train::Train;
use bcast_base::are_octets;
use delegator_history::a_source_has_one_train;
use source_machine::AnnounceFault;
use transcript_text::{Refusal, Stop};

/// `announce`: the train of a source for its next event.
pub(crate) fn announce(phase: &Phase) -> Result<Train, Stop>
    ensures announces { (own : List Step) → PhaseIs own phase.now → AnnouncesAs own result }
    ensures within { IfOk result (λ train. train.time ≤ 2 ^ 61) }
{
    let Phase::Sending(started) = phase else {
        return Err(Stop::Refused(Refusal::Order));
    };
    a_source_has_one_train();
    match started.announce() {
        Ok(train) => {
            are_octets(train.acad.as_slice());
            Ok(train)
        }
        Err(AnnounceFault::CounterEnds) => Err(Stop::Refused(Refusal::CounterEnds)),
        Err(AnnounceFault::Memory) => Err(Stop::Memory),
    }
}
