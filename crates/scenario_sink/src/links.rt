//! Who is on the links of a sink.
ghost use Rattle.std.specs.Prelude.{ℕ, ◌≤◌};
ghost use Rattle.scenario_text.specs.declared.step.Step.TheVariants.{Apart, Assist};
ghost use Rattle.sink_history.specs.History.{Source};
ghost use Rattle.scenario_sink.specs.Making.{Does};
ghost use Rattle.scenario_sink.specs.SinkHistory.{SinkHistory};
ghost use Rattle.scenario_sink.specs.State.Stands.{IsSink};

use crate::sink::LinkedSink;
use multi_assist::LinkFault;
use sink_history::links_law;
use transcript_text::{Refusal, Stop};

impl LinkedSink {
    /// `assist`: an assistant joins a link.
    pub(crate) fn assist(&mut self, link: u8) -> Result<(), Stop>
        requires { link ≤ 3 }
        ensures { (source : Source) (sink : ℕ) (history : SinkHistory) → IsSink history self.old
            → Does source (Assist sink link) history self.new result }
    {
        links_law();
        match self.links.assist(link) {
            Ok(()) => Ok(()),
            Err(LinkFault::LinkTwice) => Err(Stop::Refused(Refusal::LinkTwice)),
            Err(LinkFault::Memory) => Err(Stop::Memory),
        }
    }

    /// `apart`: the assistant leaves a link.
    pub(crate) fn apart(&mut self, link: u8) -> Result<(), Stop>
        requires least { 1 ≤ link }
        requires most { link ≤ 3 }
        ensures { (source : Source) (sink : ℕ) (history : SinkHistory) → IsSink history self.old
            → Does source (Apart sink link) history self.new result }
    {
        links_law();
        if !self.links.is_joined(link) {
            return Err(Stop::Refused(Refusal::NoSuchLink));
        }
        self.links.part(link);
        Ok(())
    }
}
