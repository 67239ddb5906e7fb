//! The steps of the sources alone.
ghost use Rattle.std.specs.Prelude.{◌≡◌, ◌≤◌, ◌<◌, ◌^◌, ◌==◌, ◌&&◌, ℕ, List, None};
ghost use Rattle.ltv_codec.specs.Reading.{bad_of};
ghost use Rattle.big_info.specs.Widths.{FitsWidths};
ghost use Rattle.scenario_text.specs.declared.step.Step.{Step};
ghost use Rattle.scenario_text.specs.declared.step.Step.TheVariants.{Ident as IdentStep, Subgroup as SubgroupStep, Meta as MetaStep};
ghost use Rattle.scenario_text.specs.declared.step.Step.TheVariants.{Bis as BisStep, Cipher as CipherStep};
ghost use Rattle.scenario_text.specs.declared.step.Step.TheVariants.{Start as StartStep, Unit as UnitStep, Source as SourceStep};
ghost use Rattle.scenario_history.specs.Relays.{had_relay};
ghost use Rattle.scenario_history.specs.Steps.{chosen_of, running, stage_of};
ghost use Rattle.scenario_sources.specs.Described.{IsPlain, group_step};
ghost use Rattle.scenario_sources.specs.State.Standing.{SourcesStand};
ghost use Rattle.scenario_sinks.specs.State.RelaysStand.{RelaysStand};
ghost use Rattle.replay_steps.specs.declared.machine.Machine.{Machine as Scenario};
ghost use Rattle.replay_steps.specs.Machines.{Stands, relay_histories};
ghost use Rattle.replay_steps.specs.Meets.{Quiet};
ghost use Rattle.replay_steps.specs.Versions.{number_of};

use crate::machine::Machine;
use crate::version::Version;
use bcast_base::Bis;
use big_info::{BigInfo, Cipher};
use scenario_sinks::Relays;
use scenario_sources::Sources;
use source_machine::Identity;
use transcript_text::Stop;

impl Machine {
    /// `group`: describes the chosen source. Origin and delay are in µs.
    #[inline(never)]
    pub(crate) fn group(&mut self, info: BigInfo, origin: u64, delay: u32) -> Result<(), Stop>
        requires widths { FitsWidths info }
        requires least { 3000 ≤ origin }
        requires greatest { origin ≤ 2 ^ 48 }
        requires delay { delay < 2 ^ 24 }
        ensures { (boxes version : ℕ) (steps : List Step) → IsPlain info → Stands steps self.old → stage_of steps ≡ running version
            → Quiet boxes steps (group_step info origin delay) self.new result }
    {
        self.sources.describe(info, origin, delay)
    }

    /// `ident`: names the chosen source.
    #[inline(never)]
    pub(crate) fn ident(&mut self, identity: Identity) -> Result<(), Stop>
        ensures { (boxes version : ℕ) (steps : List Step) → Stands steps self.old → stage_of steps ≡ running version
            → Quiet boxes steps (IdentStep identity.address_type identity.address identity.sid identity.broadcast_id) self.new result }
    {
        self.sources.identify(identity)
    }

    /// `subgroup`: opens a subgroup of the chosen source's BASE.
    #[inline(never)]
    pub(crate) fn subgroup(&mut self, codec: [u8; 5], config: &[u8]) -> Result<(), Stop>
        requires { bad_of config.now ≡ None }
        ensures { (boxes version : ℕ) (steps : List Step) → Stands steps self.old → stage_of steps ≡ running version
            → Quiet boxes steps (SubgroupStep codec config.now) self.new result }
    {
        self.sources.open_subgroup(codec, config)
    }

    /// `meta`: gives the last subgroup its metadata.
    #[inline(never)]
    pub(crate) fn meta(&mut self, metadata: &[u8]) -> Result<(), Stop>
        requires { bad_of metadata.now ≡ None }
        ensures { (boxes version : ℕ) (steps : List Step) → Stands steps self.old → stage_of steps ≡ running version
            → Quiet boxes steps (MetaStep metadata.now) self.new result }
    {
        self.sources.give_metadata(metadata)
    }

    /// `bis`: adds a stream to the last subgroup.
    #[inline(never)]
    pub(crate) fn bis(&mut self, bis: Bis, config: &[u8]) -> Result<(), Stop>
        requires { bad_of config.now ≡ None }
        ensures { (boxes version : ℕ) (steps : List Step) → Stands steps self.old → stage_of steps ≡ running version
            → Quiet boxes steps (BisStep bis config.now) self.new result }
    {
        self.sources.add_stream(bis, config)
    }

    /// `cipher`: encrypts the group of the chosen source.
    #[inline(never)]
    pub(crate) fn cipher(&mut self, cipher: Cipher) -> Result<(), Stop>
        ensures { (boxes version : ℕ) (steps : List Step) → Stands steps self.old → stage_of steps ≡ running version
            → Quiet boxes steps (CipherStep cipher.giv cipher.gskd) self.new result }
    {
        self.sources.encrypt(cipher)
    }

    /// `start`: starts the chosen source.
    #[inline(never)]
    pub(crate) fn start(&mut self, version: Version, first: u64) -> Result<(), Stop>
        requires { first < 2 ^ 39 }
        ensures { (boxes : ℕ) (steps : List Step) → Stands steps self.old → stage_of steps ≡ running (number_of version)
            → Quiet boxes steps (StartStep first) self.new result }
    {
        self.sources.start(version.limits(), first)
    }

    /// `unit`: gives the chosen source a unit of a stream. A stream of source 1 that has had a relay takes none.
    pub(crate) fn unit(&mut self, bis: Bis, time: Option<u64>, octets: &[u8]) -> Result<(), Stop>
        ensures { (boxes version : ℕ) (steps : List Step) → Stands steps self.old → stage_of steps ≡ running version
            → Quiet boxes steps (UnitStep bis time octets.now) self.new result }
    {
        give(&mut self.sources, &mut self.relays, bis, time, octets)
    }

    /// `source`: chooses the source that later lines mean.
    pub(crate) fn choose(&mut self, source: u8) -> Result<(), Stop>
        requires { source ≤ 1 }
        ensures { (boxes version : ℕ) (steps : List Step) → Stands steps self.old → stage_of steps ≡ running version
            → Quiet boxes steps (SourceStep source) self.new result }
    {
        self.sources.choose(source);
        Ok(())
    }
}

/// Gives the chosen source a unit of a stream, as `Machine::unit` does. The octets may stand in another part of the scenario.
pub(crate) fn give(
    sources: &mut Sources,
    relays: &mut Relays,
    bis: Bis,
    time: Option<u64>,
    octets: &[u8],
) -> Result<(), Stop>
    ensures { (boxes version : ℕ) (steps : List Step) (machine : Scenario) → Stands steps machine → machine.sources ≡ sources.old
        → machine.relays ≡ relays.old → stage_of steps ≡ running version
        → Quiet boxes steps (UnitStep bis time octets.now) (record machine { sources = sources.new; relays = relays.new }) result }
{
    let chosen = sources.chosen();
    if is_relayed(sources, relays, bis) {
        return Err(Stop::Refused(sources.relayed(bis, time, octets)));
    }
    match sources.give(bis, time, octets) {
        Ok(()) => {}
        Err(stop) => return Err(stop),
    }
    if chosen != 1 {
        return Ok(());
    }
    relays.give(bis);
    Ok(())
}

/// Whether source 1 is chosen and this stream of it has had a relay.
fn is_relayed(sources: &Sources, relays: &Relays, bis: Bis) -> bool
    ensures { (steps : List Step) → SourcesStand steps sources.now → RelaysStand (relay_histories steps) relays.now
        → result ≡ ((chosen_of steps == 1) && had_relay bis steps) }
{
    if sources.chosen() != 1 {
        return false;
    }
    relays.had_relay(bis)
}
