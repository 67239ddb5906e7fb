//! The steps that close an event.
ghost use Rattle.std.specs.Prelude.{◌≡◌, ℕ, List, map};
ghost use Rattle.unit_outlets.specs.Account.{Account};
ghost use Rattle.scenario_text.specs.declared.step.Step.{Step};
ghost use Rattle.scenario_text.specs.declared.step.Step.TheVariants.{Event as EventStep, Stop as StopStep};
ghost use Rattle.scenario_text.specs.declared.step.Step.TheVariants.{Terminate as TerminateStep, End as EndStep};
ghost use Rattle.scenario_history.specs.Steps.{running, stage_of};
ghost use Rattle.replay_steps.specs.Machines.{Stands};
ghost use Rattle.replay_steps.specs.Meets.{BoxesStand, Meets};
ghost use Rattle.replay_steps.specs.Unassigned.{UnassignedSame};
ghost use Rattle.replay_steps.specs.Versions.{number_of};

use crate::machine::Machine;
use crate::stale::put_stale_units;
use crate::version::{Stage, Version};
use bcast_base::{Memory, Octets};
use transcript_text::{Stop, put_control};
use unit_outlets::Outlet;

impl Machine {
    /// `event`: closes the open event of the chosen source, performs the next one, and prints the units that it left out.
    #[inline(always)]
    pub(crate) fn event(
        &mut self,
        outlets: &mut Vec<Box<dyn Outlet>>,
        text: &mut Octets,
    ) -> Result<(), Stop>
        ensures meets { (starts : List Account) (version : ℕ) (steps : List Step) → Stands steps self.old → stage_of steps ≡ running version
            → Meets starts steps EventStep self.new text.old text.new (map account outlets.old.items)
            (map account outlets.new.items) result }
        ensures unassigned { (steps : List Step) → Stands steps self.old → UnassignedSame steps outlets.old.items outlets.new.items }
    {
        let performed = match self.sources.perform() {
            Ok(performed) => performed,
            Err(stop) => return Err(stop),
        };
        let chosen = self.sources.chosen();
        match self.close(chosen, performed.closed, outlets, text) {
            Ok(()) => {}
            Err(stop) => return Err(stop),
        }
        match put_stale_units(text, performed.stale.as_slice()) {
            Ok(()) => Ok(()),
            Err(Memory) => Err(Stop::Memory),
        }
    }

    /// `stop`: closes the open event of the chosen source, and stops it.
    #[inline(never)]
    pub(crate) fn stop(
        &mut self,
        outlets: &mut Vec<Box<dyn Outlet>>,
        text: &mut Octets,
    ) -> Result<(), Stop>
        ensures meets { (starts : List Account) (version : ℕ) (steps : List Step) → Stands steps self.old → stage_of steps ≡ running version
            → Meets starts steps StopStep self.new text.old text.new (map account outlets.old.items)
            (map account outlets.new.items) result }
        ensures unassigned { (steps : List Step) → Stands steps self.old → UnassignedSame steps outlets.old.items outlets.new.items }
    {
        let closed = match self.sources.stop() {
            Ok(closed) => closed,
            Err(stop) => return Err(stop),
        };
        let chosen = self.sources.chosen();
        self.close(chosen, closed, outlets, text)
    }

    /// `terminate`: closes the open event of the chosen source, ends its group for this reason, and prints the PDU that says
    /// so.
    #[inline(never)]
    pub(crate) fn terminate(
        &mut self,
        reason: u8,
        outlets: &mut Vec<Box<dyn Outlet>>,
        text: &mut Octets,
    ) -> Result<(), Stop>
        ensures meets { (starts : List Account) (version : ℕ) (steps : List Step) → Stands steps self.old → stage_of steps ≡ running version
            → Meets starts steps (TerminateStep reason) self.new text.old text.new (map account outlets.old.items)
            (map account outlets.new.items) result }
        ensures unassigned { (steps : List Step) → Stands steps self.old → UnassignedSame steps outlets.old.items outlets.new.items }
    {
        let terminated = match self.sources.terminate(reason) {
            Ok(terminated) => terminated,
            Err(stop) => return Err(stop),
        };
        let chosen = self.sources.chosen();
        match self.close(chosen, terminated.closed, outlets, text) {
            Ok(()) => {}
            Err(stop) => return Err(stop),
        }
        match put_control(text, &terminated.pdu) {
            Ok(()) => Ok(()),
            Err(Memory) => Err(Stop::Memory),
        }
    }

    /// `end`: closes the open event of each source, that of source 0 first, and prints the sums of the living sinks by rising
    /// number.
    #[inline(never)]
    pub(crate) fn end(
        &mut self,
        version: Version,
        outlets: &mut Vec<Box<dyn Outlet>>,
        text: &mut Octets,
    ) -> Result<(), Stop>
        ensures meets { (starts : List Account) (steps : List Step) → Stands steps self.old → stage_of steps ≡ running (number_of version)
            → BoxesStand starts steps (map account outlets.old.items)
            → Meets starts steps EndStep self.new text.old text.new (map account outlets.old.items) (map account outlets.new.items) result }
        ensures unassigned { (steps : List Step) → Stands steps self.old → UnassignedSame steps outlets.old.items outlets.new.items }
    {
        let first = self.sources.open(0);
        let second = self.sources.open(1);
        self.stage = Stage::Over(version);
        match self.close(0, first, outlets, text) {
            Ok(()) => {}
            Err(stop) => return Err(stop),
        }
        match self.close(1, second, outlets, text) {
            Ok(()) => {}
            Err(stop) => return Err(stop),
        }
        match self.sinks.sums(outlets, text) {
            Ok(()) => Ok(()),
            Err(Memory) => Err(Stop::Memory),
        }
    }
}
