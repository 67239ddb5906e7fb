//! A source between its start and its end.
ghost use Rattle.std.specs.Prelude.{◌≡◌, ◌≤◌, ◌<◌, ◌^◌, ℕ, List, Option, None, Some, false, true, IfOk};
ghost use Rattle.std.specs.Option.{ForSome};
ghost use Rattle.scenario_text.specs.declared.step.Step.{Step};
ghost use Rattle.scenario_text.specs.declared.step.Step.TheVariants.{Unit as UnitStep, Stop as StopStep};
ghost use Rattle.scenario_history.specs.Steps.{is_over};
ghost use Rattle.scenario_history.specs.Refusals.{relayed_or};
ghost use Rattle.scenario_history.specs.Source.{is_sending, open_event};
ghost use Rattle.scenario_sources.specs.State.Phases.{Becomes, Closes, Performs, PhaseIs, Terminates};
ghost use Rattle.scenario_sources.specs.Answers.{JoinsAs, TakesAs};
ghost use Rattle.scenario_sources.specs.Faults.{fault_in, misfit_refusal_of};
ghost use Rattle.scenario_sources.specs.State.Stops.{GiveStops, GivesTo};
ghost use Rattle.scenario_sources.specs.declared.phase.Phase.TheVariants.{Sending as SendingPhase, Stopped as StoppedPhase};
ghost use Rattle.source_machine.specs.State.Sources.{Source};

use crate::performed::Performed;
use crate::phase::{Phase, put_phase};
use crate::terminated::Terminated;
use bcast_base::{Bis, BisSet};
use big_info::Group;
use multi_source::Broadcast;
use source_machine::{EventFault, GiveFault};
use std::mem::replace;
use sync_reference::BigSync;
use transcript_text::{Refusal, Stop};

/// `unit`: gives a source a unit of a stream.
#[inline(always)]
pub(crate) fn give(
    phase: &mut Phase,
    bis: Bis,
    time: Option<u64>,
    octets: &[u8],
) -> Result<(), Stop>
    ensures { (version : ℕ) (own : List Step) → PhaseIs own phase.old
        → Becomes version own (UnitStep bis time octets.now) phase.new result }
{
    let Phase::Sending(started) = phase else {
        return Err(Stop::Refused(Refusal::Order));
    };
    if started.is_ciphered() {
        return Err(Stop::Refused(Refusal::Order));
    }
    give_to(started, bis, time, octets)
}

/// Gives a source that was started a unit of a stream.
#[inline(always)]
fn give_to(started: &mut Broadcast, bis: Bis, time: Option<u64>, octets: &[u8]) -> Result<(), Stop>
    requires { started.old.cipher ≡ None }
    ensures identity { started.new.identity ≡ started.old.identity }
    ensures announced { (started.new.base ≡ started.old.base) × (started.new.cipher ≡ started.old.cipher) }
    ensures source { GivesTo started.old bis time octets.now started.new result }
{
    match started.give(bis, time, octets) {
        Ok(()) => Ok(()),
        Err(fault) => Err(give_stop(fault)),
    }
}

/// What the refusal of a unit means to a scenario.
fn give_stop(fault: GiveFault) -> Stop
    ensures { GiveStops fault result }
{
    match fault {
        GiveFault::NoSuchBis => Stop::Refused(Refusal::NoSuchBis),
        GiveFault::UnitTooLong => Stop::Refused(Refusal::UnitTooLong),
        GiveFault::TimeOrder => Stop::Refused(Refusal::TimeOrder),
        GiveFault::Backlog => Stop::Refused(Refusal::Backlog),
        GiveFault::Memory => Stop::Memory,
    }
}

/// Why a source refuses a unit of a stream that has had a relay: the first reason that holds, where Backlog is none, and Relayed
/// where no other does.
pub(crate) fn relayed_in(phase: &Phase, bis: Bis, time: Option<u64>, octets: &[u8]) -> Refusal
    ensures { (version : ℕ) (own : List Step) → PhaseIs own phase.now
        → relayed_or true (fault_in version own (UnitStep bis time octets.now)) ≡ Some result }
{
    let Phase::Sending(started) = phase else {
        return Refusal::Order;
    };
    if started.is_ciphered() {
        return Refusal::Order;
    }
    misfit_refusal(started.misfit(bis, time, octets))
}

/// What a unit is refused for that doesn't fit a source, and Relayed where it fits.
fn misfit_refusal(fault: Option<GiveFault>) -> Refusal
    ensures { result ≡ misfit_refusal_of fault }
{
    match fault {
        Some(GiveFault::NoSuchBis) => Refusal::NoSuchBis,
        Some(GiveFault::UnitTooLong) => Refusal::UnitTooLong,
        Some(GiveFault::TimeOrder) => Refusal::TimeOrder,
        _ => Refusal::Relayed,
    }
}

/// `event`: performs the next event of a source, and answers the one that it closes, and the units that it left out.
pub(crate) fn perform(phase: &mut Phase) -> Result<Performed, Stop>
    ensures performs { (version : ℕ) (own : List Step) → PhaseIs own phase.old → Performs version own phase.new result }
    ensures within { IfOk result (λ performed. ForSome performed.closed (λ event. event < 2 ^ 39)) }
{
    let Phase::Sending(started) = phase else {
        return Err(Stop::Refused(Refusal::Order));
    };
    if started.is_ciphered() {
        return Err(Stop::Refused(Refusal::Order));
    }
    let closed = started.last_event();
    match started.event() {
        Ok(stale) => return Ok(Performed { closed, stale }),
        Err(EventFault::CounterEnds) => return Err(Stop::Refused(Refusal::CounterEnds)),
        Err(EventFault::Memory) => return Err(Stop::Memory),
    }
}

/// `stop`: stops a source, and answers the event that it closes.
pub(crate) fn stop(phase: &mut Phase) -> Result<Option<u64>, Stop>
    ensures closes { (version : ℕ) (own : List Step) → PhaseIs own phase.old → Closes version own StopStep phase.new result }
    ensures within { IfOk result (λ closed. ForSome closed (λ event. event < 2 ^ 39)) }
{
    let Phase::Sending(started) = &*phase else {
        return Err(Stop::Refused(Refusal::Order));
    };
    let closed = started.last_event();
    stop_sending(phase);
    Ok(closed)
}

/// Stops a source that is between its start and its end, and no other.
fn stop_sending(phase: &mut Phase)
    ensures { (started : Source) → phase.old ≡ SendingPhase started → phase.new ≡ StoppedPhase started }
{
    match replace(phase, Phase::Absent) {
        Phase::Sending(started) => put_phase(phase, Phase::Stopped(started)),
        other => put_phase(phase, other),
    }
}

/// `terminate`: ends the group of a source for this reason, and answers the event that it closes, and the PDU that says so.
pub(crate) fn terminate(phase: &mut Phase, reason: u8) -> Result<Terminated, Stop>
    ensures ends { (version : ℕ) (own : List Step) → PhaseIs own phase.old → Terminates version own reason phase.new result }
    ensures within { IfOk result (λ terminated. ForSome terminated.closed (λ event. event < 2 ^ 39)) }
{
    let Phase::Sending(started) = &*phase else {
        return Err(Stop::Refused(Refusal::Order));
    };
    let closed = started.last_event();
    let pdu = started.terminate_pdu(reason);
    stop_sending(phase);
    Ok(Terminated { closed, pdu })
}

/// Whether a source is between its start and its end.
pub(crate) fn is_sending_in(phase: &Phase) -> bool
    ensures { (own : List Step) → PhaseIs own phase.now → result ≡ is_sending own }
{
    matches!(phase, Phase::Sending(_))
}

/// The event of a source that is open.
pub(crate) fn open(phase: &Phase) -> Option<u64>
    ensures event { (own : List Step) → PhaseIs own phase.now → is_over own ≡ false → result ≡ open_event own }
    ensures within { ForSome result (λ event. event < 2 ^ 39) }
{
    match phase {
        Phase::Sending(started) => started.last_event(),
        _ => None,
    }
}

/// The group of a source that takes units.
pub(crate) fn taking_in(phase: &Phase) -> Option<Group>
    ensures { (own : List Step) → PhaseIs own phase.now → TakesAs own result }
{
    let Phase::Sending(started) = phase else {
        return None;
    };
    if started.is_ciphered() {
        return None;
    }
    Some(*started.group())
}

/// How a source that takes units puts a sink on these streams of its group.
pub(crate) fn big_sync_in(phase: &Phase, which: BisSet) -> Option<BigSync>
    ensures { (own : List Step) → PhaseIs own phase.now → JoinsAs own which result }
{
    let Phase::Sending(started) = phase else {
        return None;
    };
    if started.is_ciphered() {
        return None;
    }
    Some(BigSync {
        group: *started.group(),
        which,
        first: started.next_event(),
        anchor: started.next_anchor(),
        delay: started.delay(),
    })
}
