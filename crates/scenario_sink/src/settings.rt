//! The lines of a sink's capability.
ghost use Rattle.std.specs.Prelude.{ℕ, ◌≡◌, ◌≤◌, length, None};
ghost use Rattle.ltv_codec.specs.Reading.{bad_of};
ghost use Rattle.scenario_text.specs.declared.step.Step.TheVariants.{Context, Locate, Pac};
ghost use Rattle.sink_history.specs.History.{Source};
ghost use Rattle.scenario_sink.specs.Making.{Does};
ghost use Rattle.scenario_sink.specs.SinkHistory.{SinkHistory};
ghost use Rattle.scenario_sink.specs.State.Stands.{IsSink};

use crate::sink::LinkedSink;
use bcast_base::{Octets, are_octets};
use pacs_records::{PacRecord, PushFault};
use sink_history::a_step_notifies_each_link;
use transcript_text::{Refusal, Stop};

impl LinkedSink {
    /// `pac`: adds a record of capabilities (Published Audio Capabilities Service 1.0, section 3.1).
    pub(crate) fn pac(&mut self, codec: [u8; 5], caps: Octets, metadata: Octets) -> Result<(), Stop>
        requires caps_count { length caps ≤ 255 }
        requires metadata_count { length metadata ≤ 255 }
        requires caps { bad_of caps ≡ None }
        requires metadata { bad_of metadata ≡ None }
        ensures { (source : Source) (sink : ℕ) (history : SinkHistory) → IsSink history self.old
            → Does source (Pac sink codec caps metadata) history self.new result }
    {
        a_step_notifies_each_link();
        are_octets(caps.as_slice());
        are_octets(metadata.as_slice());
        match self.delegator.add_pac(PacRecord {
            codec,
            caps,
            metadata,
        }) {
            Ok(()) => Ok(()),
            Err(PushFault::TooLong) => Err(Stop::Refused(Refusal::RecordsTooLong)),
            Err(PushFault::Memory) => Err(Stop::Memory),
        }
    }

    /// `locate`: sets the Sink Audio Locations (Published Audio Capabilities Service 1.0, section 3.2).
    pub(crate) fn locate(&mut self, bits: u32) -> Result<(), Stop>
        ensures { (source : Source) (sink : ℕ) (history : SinkHistory) → IsSink history self.old
            → Does source (Locate sink bits) history self.new result }
    {
        a_step_notifies_each_link();
        self.delegator.set_locations(bits);
        Ok(())
    }

    /// `context`: sets the Available Sink Contexts (Published Audio Capabilities Service 1.0, section 3.5).
    pub(crate) fn context(&mut self, bits: u16) -> Result<(), Stop>
        ensures { (source : Source) (sink source_bits : ℕ) (history : SinkHistory) → IsSink history self.old
            → Does source (Context sink bits source_bits) history self.new result }
    {
        a_step_notifies_each_link();
        self.delegator.set_contexts(bits);
        Ok(())
    }
}
