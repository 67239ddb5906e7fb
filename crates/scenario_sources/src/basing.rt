//! What the lines before `start` say of the BASE of a source (Basic Audio Profile 1.0, section 3.7.2.2).
ghost use Rattle.std.specs.Prelude.{◌≡◌, ℕ, List, None, is_some};
ghost use Rattle.base_grammar.specs.Draft.{is_empty_last, last_of};
ghost use Rattle.ltv_codec.specs.Reading.{bad_of};
ghost use Rattle.scenario_text.specs.declared.step.Step.{Step};
ghost use Rattle.scenario_text.specs.declared.step.Step.TheVariants.{Subgroup as SubgroupStep, Meta as MetaStep, Bis as BisStep};
ghost use Rattle.scenario_sources.specs.Bases.{is_bare as is_bare_fault, is_missing as is_missing_fault, stop_of};
ghost use Rattle.scenario_sources.specs.State.Phases.{Becomes, PhaseIs};

use crate::phase::Phase;
use base_grammar::{BaseDraft, DraftFault};
use bcast_base::Bis;
use transcript_text::{Refusal, Stop};

/// `subgroup`: opens a subgroup.
pub(crate) fn open_subgroup(phase: &mut Phase, codec: [u8; 5], config: &[u8]) -> Result<(), Stop>
    requires { bad_of config.now ≡ None }
    ensures { (version : ℕ) (own : List Step) → PhaseIs own phase.old
        → Becomes version own (SubgroupStep codec config.now) phase.new result }
{
    let Phase::Described(described) = phase else {
        return Err(Stop::Refused(Refusal::Order));
    };
    match described.base.subgroup(codec, config) {
        Ok(()) => Ok(()),
        Err(fault) => Err(draft_stop(fault)),
    }
}

/// `meta`: gives the last subgroup its metadata.
pub(crate) fn give_metadata(phase: &mut Phase, metadata: &[u8]) -> Result<(), Stop>
    requires { bad_of metadata.now ≡ None }
    ensures { (version : ℕ) (own : List Step) → PhaseIs own phase.old → Becomes version own (MetaStep metadata.now) phase.new result }
{
    let Phase::Described(described) = phase else {
        return Err(Stop::Refused(Refusal::Order));
    };
    match described.base.metadata(metadata) {
        Ok(()) => Ok(()),
        Err(fault) => Err(draft_stop(fault)),
    }
}

/// `bis`: adds a stream to the last subgroup.
pub(crate) fn add_stream(phase: &mut Phase, bis: Bis, config: &[u8]) -> Result<(), Stop>
    requires { bad_of config.now ≡ None }
    ensures { (version : ℕ) (own : List Step) → PhaseIs own phase.old → Becomes version own (BisStep bis config.now) phase.new result }
{
    let Phase::Described(described) = phase else {
        return Err(Stop::Refused(Refusal::Order));
    };
    if !has_subgroup(&described.base) {
        return Err(Stop::Refused(Refusal::Order));
    }
    let is_beyond = bis.get() > described.info.num_bis;
    if is_beyond {
        return Err(Stop::Refused(Refusal::NoSuchBis));
    }
    match described.base.bis(bis, config) {
        Ok(()) => Ok(()),
        Err(fault) => Err(draft_stop(fault)),
    }
}

/// Whether a subgroup was opened.
pub(crate) fn has_subgroup(base: &BaseDraft) -> bool
    ensures { result ≡ is_some (last_of base.now.subgroups) }
{
    !is_missing(base.check())
}

/// Whether the last subgroup has no stream yet.
pub(crate) fn is_last_bare(base: &BaseDraft) -> bool
    ensures { result ≡ is_empty_last (last_of base.now.subgroups) }
{
    is_bare(base.check())
}

/// Whether it is that there is no subgroup.
fn is_missing(fault: Option<DraftFault>) -> bool
    ensures { result ≡ is_missing_fault fault }
{
    matches!(fault, Some(DraftFault::NoSubgroup))
}

/// Whether it is that the last subgroup has no stream.
fn is_bare(fault: Option<DraftFault>) -> bool
    ensures { result ≡ is_bare_fault fault }
{
    matches!(fault, Some(DraftFault::NoBis))
}

/// What a refusal of a BASE that is put together means to a scenario.
pub(crate) fn draft_stop(fault: DraftFault) -> Stop
    ensures { result ≡ stop_of fault }
{
    match fault {
        DraftFault::NoSubgroup => Stop::Refused(Refusal::Order),
        DraftFault::NoBis => Stop::Refused(Refusal::Order),
        DraftFault::IndexTwice => Stop::Refused(Refusal::NoSuchBis),
        DraftFault::TooLong => Stop::Refused(Refusal::BaseTooLong),
        DraftFault::Memory => Stop::Memory,
    }
}
