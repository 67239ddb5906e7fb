//! The step of a line.
ghost use Rattle.std.specs.Prelude.{◌≡◌, ℕ, List, map};
ghost use Rattle.unit_outlets.specs.Account.{Account};
ghost use Rattle.scenario_text.specs.Ranges.{IsInRange};
ghost use Rattle.scenario_text.specs.declared.step.Step.{Step as Said};
ghost use Rattle.scenario_history.specs.Steps.{running, stage_of};
ghost use Rattle.replay_steps.specs.Machines.{Stands};
ghost use Rattle.replay_steps.specs.Meets.{BoxesStand, Meets, StepMeets};
ghost use Rattle.replay_steps.specs.Rare.{IsRare};
ghost use Rattle.replay_steps.specs.Unassigned.{UnassignedSame};
ghost use Rattle.replay_steps.specs.Versions.{number_of};
ghost use Rattle.replay_steps.specs.declared.version.Stage.TheVariants.{Running};
ghost use Rattle.replay_steps.specs.declared.version.Version.{Version as Edition};

use crate::machine::Machine;
use crate::version::{Stage, Version};
use bcast_base::Octets;
use big_info::{BigInfo, Cipher};
use scenario_sources::Place;
use scenario_text::Step;
use source_machine::Identity;
use transcript_text::{Refusal, Stop};
use unit_outlets::Outlet;

impl Machine {
    /// Makes a step that is not the first, and follows no `end`. Those that come again and again stand here alone, so that they
    /// take no room for the others.
    #[inline(always)]
    fn later_step(
        &mut self,
        version: Version,
        step: Step,
        outlets: &mut Vec<Box<dyn Outlet>>,
        text: &mut Octets,
    ) -> Result<(), Stop>
        requires { IsInRange step }
        ensures meets { (starts : List Account) (steps : List Said) → Stands steps self.old → stage_of steps ≡ running (number_of version)
            → BoxesStand starts steps (map account outlets.old.items)
            → Meets starts steps step self.new text.old text.new (map account outlets.old.items) (map account outlets.new.items) result }
        ensures unassigned { (steps : List Said) → Stands steps self.old → UnassignedSame steps outlets.old.items outlets.new.items }
    {
        match step {
            Step::Unit { bis, time, octets } => {
                let given = self.unit(bis, time, octets.as_slice());
                self.spare = octets;
                given
            }
            Step::Event => self.event(outlets, text),
            Step::Hear {
                sink,
                back,
                bis,
                subevent,
            } => self.hear(
                sink,
                Place {
                    back,
                    bis,
                    subevent,
                },
            ),
            Step::Air { sink, lose } => self.air(sink, lose),
            Step::Announce { sink } => self.announce(sink, text),
            Step::Pac { .. }
            | Step::Locate { .. }
            | Step::Context { .. }
            | Step::Train { .. }
            | Step::Write { .. }
            | Step::Add { .. }
            | Step::Modify { .. }
            | Step::Remove { .. }
            | Step::Code { .. }
            | Step::Serve { .. }
            | Step::Tell { .. }
            | Step::Read { .. }
            | Step::Drain { .. }
            | Step::Show { .. }
            | Step::Lose { .. }
            | Step::Control { .. }
            | Step::Forge { .. }
            | Step::Assist { .. }
            | Step::Apart { .. }
            | Step::AWrite { .. }
            | Step::AServe { .. }
            | Step::ATell { .. }
            | Step::ARead { .. }
            | Step::ADrain { .. }
            | Step::AShow { .. } => self.sink_line(step, text),
            Step::Scenario { .. }
            | Step::Group { .. }
            | Step::Ident { .. }
            | Step::Subgroup { .. }
            | Step::Meta { .. }
            | Step::Bis { .. }
            | Step::Cipher { .. }
            | Step::Start { .. }
            | Step::Sink { .. }
            | Step::Tuned { .. }
            | Step::Inject { .. }
            | Step::Sniff { .. }
            | Step::Drop { .. }
            | Step::Stop
            | Step::Terminate { .. }
            | Step::End
            | Step::Source { .. }
            | Step::Relay { .. } => self.rare_step(version, step, outlets, text),
        }
    }

    /// Makes such a step that a scenario says seldom.
    #[inline(never)]
    fn rare_step(
        &mut self,
        version: Version,
        step: Step,
        outlets: &mut Vec<Box<dyn Outlet>>,
        text: &mut Octets,
    ) -> Result<(), Stop>
        requires range { IsInRange step }
        requires rare { IsRare step }
        ensures meets { (starts : List Account) (steps : List Said) → Stands steps self.old → stage_of steps ≡ running (number_of version)
            → BoxesStand starts steps (map account outlets.old.items)
            → Meets starts steps step self.new text.old text.new (map account outlets.old.items) (map account outlets.new.items) result }
        ensures unassigned { (steps : List Said) → Stands steps self.old → UnassignedSame steps outlets.old.items outlets.new.items }
    {
        match step {
            Step::Scenario { .. } => Err(Stop::Refused(Refusal::Order)),
            Step::Group {
                framing,
                origin,
                delay,
                iso,
                sdu,
                max_sdu,
                max_pdu,
                num_bis,
                bn,
                nse,
                irc,
                pto,
                sub,
                spacing,
                phy,
            } => self.group(
                BigInfo {
                    big_offset: 0,
                    big_offset_units: 0,
                    iso_interval: iso,
                    num_bis,
                    nse,
                    bn,
                    sub_interval: sub,
                    pto,
                    bis_spacing: spacing,
                    irc,
                    max_pdu,
                    seed_access_address: 0,
                    sdu_interval: sdu,
                    max_sdu,
                    base_crc_init: 0,
                    chm: 0,
                    phy,
                    bis_payload_count: 0,
                    framing,
                    cipher: None,
                },
                origin,
                delay,
            ),
            Step::Ident {
                address_type,
                address,
                sid,
                broadcast_id,
            } => self.ident(Identity {
                address_type,
                address,
                sid,
                broadcast_id,
            }),
            Step::Subgroup { codec, config } => self.subgroup(codec, config.as_slice()),
            Step::Meta { metadata } => self.meta(metadata.as_slice()),
            Step::Bis { bis, config } => self.bis(bis, config.as_slice()),
            Step::Cipher { giv, gskd } => self.cipher(Cipher { giv, gskd }),
            Step::Start { first } => self.start(version, first),
            Step::Sink {
                sink,
                streams,
                slots,
                mtu,
            } => self.sink(version, sink, streams, slots, mtu, outlets.len()),
            Step::Tuned { sink, which } => self.tuned(sink, which),
            Step::Inject {
                sink,
                back,
                bis,
                subevent,
                octets,
            } => {
                let place = Place {
                    back,
                    bis,
                    subevent,
                };
                self.inject(sink, place, octets.as_slice(), text)
            }
            Step::Sniff {
                back,
                bis,
                subevent,
            } => {
                let place = Place {
                    back,
                    bis,
                    subevent,
                };
                self.sniff(place, text)
            }
            Step::Drop { sink } => self.drop_sink(sink, outlets, text),
            Step::Stop => self.stop(outlets, text),
            Step::Terminate { reason } => self.terminate(reason, outlets, text),
            Step::End => self.end(version, outlets, text),
            Step::Source { source } => self.choose(source),
            Step::Relay { sink, bis, to } => self.relay(sink, bis, to),
            Step::Unit { .. }
            | Step::Event
            | Step::Hear { .. }
            | Step::Air { .. }
            | Step::Announce { .. }
            | Step::Pac { .. }
            | Step::Locate { .. }
            | Step::Context { .. }
            | Step::Train { .. }
            | Step::Write { .. }
            | Step::Add { .. }
            | Step::Modify { .. }
            | Step::Remove { .. }
            | Step::Code { .. }
            | Step::Serve { .. }
            | Step::Tell { .. }
            | Step::Read { .. }
            | Step::Drain { .. }
            | Step::Show { .. }
            | Step::Lose { .. }
            | Step::Control { .. }
            | Step::Forge { .. }
            | Step::Assist { .. }
            | Step::Apart { .. }
            | Step::AWrite { .. }
            | Step::AServe { .. }
            | Step::ATell { .. }
            | Step::ARead { .. }
            | Step::ADrain { .. }
            | Step::AShow { .. } => unreachable!(),
        }
    }

    /// Makes a step. It stands in each of its two callers, so that no step is copied for a call.
    #[inline(always)]
    pub(crate) fn step(
        &mut self,
        step: Step,
        outlets: &mut Vec<Box<dyn Outlet>>,
        text: &mut Octets,
    ) -> Result<(), Stop>
        requires { IsInRange step }
        ensures meets { (starts : List Account) (steps : List Said) → Stands steps self.old
            → BoxesStand starts steps (map account outlets.old.items)
            → StepMeets starts steps step self.new text.old text.new (map account outlets.old.items)
            (map account outlets.new.items) result }
        ensures unassigned { (steps : List Said) → Stands steps self.old → UnassignedSame steps outlets.old.items outlets.new.items }
    {
        match self.stage {
            Stage::Running(version) => self.later_step(version, step, outlets, text),
            _ => self.begin(&step),
        }
    }

    /// Makes the first step, and refuses each other one there, and each that follows `end`.
    #[inline(always)]
    fn begin(&mut self, step: &Step) -> Result<(), Stop>
        requires range { IsInRange step.now }
        requires still { (version : Edition) → self.old.stage ≡ Running version → ⊥ }
        ensures { (starts accounts : List Account) (steps : List Said) (said : List ℕ) → Stands steps self.old
            → StepMeets starts steps step.now self.new said said accounts accounts result }
    {
        match self.stage {
            Stage::Unbegun => match step {
                Step::Scenario { version } => {
                    self.stage = Stage::Running(Version::of(*version));
                    Ok(())
                }
                _ => Err(Stop::Refused(Refusal::Order)),
            },
            Stage::Over(_) => Err(Stop::Refused(Refusal::AfterEnd)),
            Stage::Running(_) => unreachable!(),
        }
    }
}
