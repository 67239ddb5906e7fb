//! The start of a source.
ghost use Rattle.std.specs.Prelude.{◌≡◌, ◌≤◌, ◌<◌, ◌^◌, ◌&&◌, ℕ, List, true, IfErr, IfNone, IfOk, OnOk};
ghost use Rattle.base_grammar.specs.Draft.{finish_fault};
ghost use Rattle.big_info.specs.Rows.{first_fault};
ghost use Rattle.big_info.specs.Widths.{FitsWidths};
ghost use Rattle.source_machine.specs.Setups.{are_twins};
ghost use Rattle.scenario_text.specs.declared.step.Step.{Step};
ghost use Rattle.scenario_text.specs.declared.step.Step.TheVariants.{Start as StartStep};
ghost use Rattle.scenario_history.specs.Refusals.{group_refusal};
ghost use Rattle.sink_history.specs.History.{horizon_in};
ghost use Rattle.scenario_history.specs.Source.{identity_of, is_ahead_in, is_started};
ghost use Rattle.scenario_history.specs.Steps.{running, stage_of};
ghost use Rattle.scenario_sources.specs.Bases.{is_long as is_long_fault};
ghost use Rattle.scenario_sources.specs.State.Phases.{Becomes, Begins, IsReady, MayStart, PhaseIs, is_described};
ghost use Rattle.scenario_sources.specs.State.Stops.{FinishStops, Finishes, StartStops};
ghost use Rattle.scenario_sources.specs.declared.phase.Phase.TheVariants.{Described as DescribedPhase};

use crate::basing::{draft_stop, has_subgroup, is_last_bare};
use crate::identity::identity_or;
use crate::phase::{Described, Phase, put_phase};
use announcement_train::plain_base;
use base_grammar::{Base, BaseDraft, DraftFault};
use bcast_base::Memory;
use big_info::{BigInfo, GroupFault, Limits, check_group_within};
use multi_source::Broadcast;
use source_machine::{ConfigureFault, Identity, Setup, SourceIdle};
use std::alloc::Global;
use std::mem::replace;
use transcript_text::{Refusal, Stop};

/// What is known of a source that may be started.
#[derive(Drop)]
pub(crate) struct Ready {
    pub(crate) identity: Identity,
    /// The BASE, where no line said one.
    pub(crate) plain: Option<Base>,
}

/// Whether a source may be started, but for its identity.
pub(crate) fn check_start(alloc: Global, phase: &Phase, limits: Limits) -> Result<Ready, Stop>
    requires { limits.horizon ≤ 31 }
    ensures ready { (version first : ℕ) (own : List Step) → limits.horizon ≡ horizon_in version → PhaseIs own phase.now
        → IsReady version first own result }
    ensures described { OnOk result (is_described phase.now ≡ true) }
{
    let Phase::Described(described) = phase else {
        return Err(Stop::Refused(Refusal::Order));
    };
    if is_last_bare(&described.base) {
        return Err(Stop::Refused(Refusal::Order));
    }
    match group_fault(&described.info, limits) {
        Some(reason) => return Err(Stop::Refused(reason)),
        None => {}
    }
    if is_too_long(&described.base) {
        return Err(Stop::Refused(Refusal::BaseTooLong));
    }
    let identity = identity_or(described.identity);
    if has_subgroup(&described.base) {
        return Ok(Ready {
            identity,
            plain: None,
        });
    }
    match plain_base(alloc, described.delay, described.info.num_bis) {
        Ok(base) => Ok(Ready {
            identity,
            plain: Some(base),
        }),
        Err(Memory) => Err(Stop::Memory),
    }
}

/// Why a group is none of a source, where a payload may be sent so many events ahead.
fn group_fault(info: &BigInfo, limits: Limits) -> Option<Refusal>
    requires widths { FitsWidths info.now }
    requires horizon { limits.horizon ≤ 31 }
    ensures refusal { result ≡ group_refusal (first_fault limits.horizon info.now) }
    ensures some { IfNone result (1 ≤ info.now.num_bis) }
{
    match check_group_within(info, limits) {
        Ok(_) => None,
        Err(GroupFault::Encrypted) => None,
        Err(fault) => Some(Refusal::BadGroup { fault }),
    }
}

/// Whether the BASE that was said has more than 252 octets.
fn is_too_long(base: &BaseDraft) -> bool
    ensures { result ≡ is_long_fault (finish_fault base.now) }
{
    is_long(base.check())
}

/// Whether it is that there are too many octets.
fn is_long(fault: Option<DraftFault>) -> bool
    ensures { result ≡ is_long_fault fault }
{
    matches!(fault, Some(DraftFault::TooLong))
}

/// Whether a source was started with an identity like this one.
pub(crate) fn is_twice(own: Identity, phase: &Phase) -> bool
    ensures { (steps : List Step) → PhaseIs steps phase.now
        → result ≡ (is_started steps && are_twins own (identity_of steps)) }
{
    match phase {
        Phase::Sending(started) => own.is_twin(started.identity()),
        Phase::Stopped(started) => own.is_twin(started.identity()),
        _ => false,
    }
}

/// `start`: starts a source that may be started.
pub(crate) fn begin(
    alloc: Global,
    phase: &mut Phase,
    ready: Ready,
    limits: Limits,
    first: u64,
) -> Result<(), Stop>
    requires limits { limits.horizon ≤ 31 }
    requires first { first < 2 ^ 39 }
    requires described { is_described phase.old ≡ true }
    ensures { (version : ℕ) (own : List Step) → limits.horizon ≡ horizon_in version → limits.ahead ≡ is_ahead_in version
        → stage_of own ≡ running version
        → MayStart version first own ready.plain → PhaseIs own phase.old → Becomes version own (StartStep first) phase.new result }
{
    let Phase::Described(described) = replace(phase, Phase::Absent) else {
        unreachable!()
    };
    match begin_with(alloc, described, ready.plain, limits, first) {
        Ok(started) => put_phase(phase, Phase::Sending(started)),
        Err(stop) => return Err(stop),
    }
    Ok(())
}

/// Starts a source as it was described, with the BASE that no line said where that is given.
fn begin_with(
    alloc: Global,
    described: Described,
    plain: Option<Base>,
    limits: Limits,
    first: u64,
) -> Result<Broadcast, Stop>
    requires limits { limits.horizon ≤ 31 }
    requires first { first < 2 ^ 39 }
    ensures { (version : ℕ) (own : List Step) → limits.horizon ≡ horizon_in version → limits.ahead ≡ is_ahead_in version
        → stage_of own ≡ running version
        → MayStart version first own plain → PhaseIs own (DescribedPhase described) → Begins first own result }
{
    let Described {
        info,
        origin,
        delay: _,
        identity,
        base,
    } = described;
    let base = match finished(base, plain) {
        Ok(base) => base,
        Err(stop) => return Err(stop),
    };
    let setup = Setup {
        identity: identity_or(identity),
        info,
        base,
        origin,
    };
    let configured = match SourceIdle::new(alloc).configure_within(setup, limits) {
        Ok(configured) => configured,
        Err(kept) => return Err(start_stop(kept.fault)),
    };
    match Broadcast::start(configured, first) {
        Ok(started) => Ok(started),
        Err(Memory) => Err(Stop::Memory),
    }
}

/// The BASE of a source: that which no line said where it is given, else the one that the lines said.
fn finished(said: BaseDraft, plain: Option<Base>) -> Result<Base, Stop>
    ensures ok { IfOk result (λ base. Finishes said plain base) }
    ensures err { IfErr result (λ stop. FinishStops said plain stop) }
{
    match plain {
        Some(base) => Ok(base),
        None => match said.finish() {
            Ok(base) => Ok(base),
            Err(kept) => Err(draft_stop(kept.fault)),
        },
    }
}

/// What the refusal of a group means to a scenario.
fn start_stop(fault: ConfigureFault) -> Stop
    ensures { StartStops fault result }
{
    match fault {
        ConfigureFault::BadGroup(fault) => Stop::Refused(Refusal::BadGroup { fault }),
        ConfigureFault::Memory => Stop::Memory,
    }
}
