//! The lines of a sink that come again and again, without a step.
ghost use Rattle.sink_history.specs.History.{Source};
ghost use Rattle.scenario_sink.specs.Making.{LineMakes};
ghost use Rattle.scenario_sink.specs.SinkCalls.{call_step};
ghost use Rattle.scenario_sink.specs.SinkHistory.{SinkHistory};
ghost use Rattle.scenario_sink.specs.State.Stands.{IsSink};

use crate::sink::LinkedSink;
use bcast_base::Octets;
use transcript_text::{Label, Stop};

/// A line of a sink that comes again and again: of its first link, or of the loss of its train.
#[derive(Clone, Copy)]
pub enum SinkCall {
    /// The first write that waits on the link is served.
    Serve,
    /// The first notice that waits on the link is delivered.
    Tell,
    /// The link is drained.
    Drain,
    /// The train is lost.
    Lose,
}

impl LinkedSink {
    /// Runs such a line of the sink, which has this number, as `line` does.
    pub fn call(&mut self, call: SinkCall, sink: u8, text: &mut Octets) -> Result<(), Stop>
        ensures { (source : Source) (history : SinkHistory) → IsSink history self.old
            → LineMakes source (call_step call sink) history text.old text.new self.new result }
    {
        match call {
            SinkCall::Serve => self.serve(0, Label::Plain { sink }, text),
            SinkCall::Tell => self.tell(0, Label::Plain { sink }, text),
            SinkCall::Drain => self.drain(0, Label::Plain { sink }, text),
            SinkCall::Lose => self.lose(sink, text),
        }
    }
}
