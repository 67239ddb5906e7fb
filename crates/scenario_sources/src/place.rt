//! The places on the air of a source.
ghost use Rattle.std.specs.Prelude.{◌≡◌, ◌≤◌, ◌<◌, ◌^◌, List, IfErr, IfOk, None, true};
ghost use Rattle.std.specs.Option.{ForSome};
ghost use Rattle.source_machine.specs.Airs.{airs_of};
ghost use Rattle.scenario_text.specs.declared.step.Step.{Step};
ghost use Rattle.scenario_history.specs.Refusals.{air_refusal, no_place};
ghost use Rattle.scenario_history.specs.Source.{event_back, is_heard, is_started, pdu_in};
ghost use Rattle.scenario_sources.specs.Answers.{GroupIs, LastIs, NoPlace, SentIs};
ghost use Rattle.scenario_sources.specs.State.Phases.{PhaseIs, StartedIs};

use crate::phase::Phase;
use bcast_base::Bis;
use big_info::Group;
use multi_source::Broadcast;
use radio_schedule::AirFault;
use source_machine::SentStream;
use transcript_text::{Refusal, Stop};

/// A place on the air: the event `back` before the last one, a stream and a subevent from 0.
#[derive(Clone, Copy)]
pub struct Place {
    pub back: u8,
    pub bis: Bis,
    pub subevent: u8,
}

/// What the fault of a place on the air means to a scenario.
fn place_refusal(fault: AirFault) -> Refusal
    ensures { result ≡ air_refusal fault }
{
    match fault {
        AirFault::NoSuchBis => Refusal::NoSuchBis,
        AirFault::NoSuchSubevent => Refusal::NoSuchSubevent,
        AirFault::NotOnAir => Refusal::NotOnAir,
    }
}

/// The PDU at a place on the air of a source that was started.
#[inline(always)]
fn heard_from(started: &Broadcast, place: Place) -> Result<&[u8], Stop>
    requires { place.back ≤ 31 }
    ensures ok { IfOk result (λ pdu. (own : List Step) → StartedIs own started.now
        → (no_place own place.back place.bis place.subevent ≡ None)
        × (pdu.now ≡ pdu_in airs_of own (event_back own place.back) place.bis place.subevent)) }
    ensures err { IfErr result (λ stop. (own : List Step) → StartedIs own started.now
        → NoPlace own place.back place.bis place.subevent stop) }
{
    match started.heard_at(place.back, place.bis, place.subevent) {
        Ok(pdu) => Ok(pdu),
        Err(fault) => Err(Stop::Refused(place_refusal(fault))),
    }
}

/// The PDU at a place on the air of a source.
#[inline(always)]
pub(crate) fn heard_in(phase: &Phase, place: Place) -> Result<&[u8], Stop>
    requires { place.back ≤ 31 }
    ensures ok { IfOk result (λ pdu. (own : List Step) → PhaseIs own phase.now
        → (no_place own place.back place.bis place.subevent ≡ None)
        × (pdu.now ≡ pdu_in airs_of own (event_back own place.back) place.bis place.subevent)) }
    ensures err { IfErr result (λ stop. (own : List Step) → PhaseIs own phase.now → is_heard own ≡ true
        → NoPlace own place.back place.bis place.subevent stop) }
{
    match phase {
        Phase::Sending(started) => heard_from(started, place),
        Phase::Stopped(started) => heard_from(started, place),
        _ => Err(Stop::Refused(Refusal::Order)),
    }
}

/// The PDUs that a stream of a source that was started sent in its last event.
#[inline(always)]
fn sent_from(started: &Broadcast, bis: Bis) -> Option<SentStream<'_>>
    ensures { (own : List Step) → StartedIs own started.now → SentIs own bis result }
{
    started.sent_on(bis)
}

/// The PDUs that a stream of a source sent in its last event.
#[inline(always)]
pub(crate) fn sent_in(phase: &Phase, bis: Bis) -> Option<SentStream<'_>>
    ensures { (own : List Step) → PhaseIs own phase.now → is_heard own ≡ true → SentIs own bis result }
{
    match phase {
        Phase::Sending(started) => sent_from(started, bis),
        Phase::Stopped(started) => sent_from(started, bis),
        _ => None,
    }
}

/// The event `back` events before the last one of a source that was started.
fn event_before(started: &Broadcast, back: u8) -> u64
    ensures event { (own : List Step) → StartedIs own started.now → result ≡ event_back own back }
    ensures within { result ≤ 2 ^ 39 }
{
    started
        .next_event()
        .saturating_sub(1)
        .saturating_sub(u64::from(back))
}

/// The event `back` events before the last one of a source; 0 where it wasn't started.
pub(crate) fn event_in(phase: &Phase, back: u8) -> u64
    ensures event { (own : List Step) → PhaseIs own phase.now → is_heard own ≡ true → result ≡ event_back own back }
    ensures within { result ≤ 2 ^ 39 }
{
    match phase {
        Phase::Sending(started) => event_before(started, back),
        Phase::Stopped(started) => event_before(started, back),
        _ => 0,
    }
}

/// The last event of a source that was started.
fn last_from(started: &Broadcast) -> Option<u64>
    ensures last { (own : List Step) → StartedIs own started.now → LastIs own result }
    ensures within { ForSome result (λ event. event < 2 ^ 39) }
{
    started.last_event()
}

/// The last event of a source, where it performed one.
pub(crate) fn last_in(phase: &Phase) -> Option<u64>
    ensures last { (own : List Step) → PhaseIs own phase.now → is_heard own ≡ true → LastIs own result }
    ensures within { ForSome result (λ event. event < 2 ^ 39) }
{
    match phase {
        Phase::Sending(started) => last_from(started),
        Phase::Stopped(started) => last_from(started),
        _ => None,
    }
}

/// The group of a source that was started, unless it is encrypted.
fn group_from(started: &Broadcast) -> Option<Group>
    ensures { (own : List Step) → StartedIs own started.now → is_started own ≡ true → GroupIs own result }
{
    if started.is_ciphered() {
        return None;
    }
    Some(*started.group())
}

/// The group of a source that may be heard.
pub(crate) fn group_in(phase: &Phase) -> Option<Group>
    ensures { (own : List Step) → PhaseIs own phase.now → GroupIs own result }
{
    match phase {
        Phase::Sending(started) => group_from(started),
        Phase::Stopped(started) => group_from(started),
        _ => None,
    }
}
