//! The lines of a sink's control and of its links.
ghost use Rattle.scenario_text.specs.Ranges.{IsInRange};
ghost use Rattle.sink_history.specs.History.{Source};
ghost use Rattle.scenario_sink.specs.Making.{LineMakes};
ghost use Rattle.scenario_sink.specs.Origins.{IsFrom};
ghost use Rattle.scenario_sink.specs.SinkHistory.{SinkHistory};
ghost use Rattle.scenario_sink.specs.SinkLines.{IsLent, IsLinkLine, IsSinkLine};
ghost use Rattle.scenario_sink.specs.State.Stands.{IsSink};

use crate::origin::Origin;
use crate::sink::LinkedSink;
use bass_operations::Operation;
use bcast_base::Octets;
use scenario_text::Step;
use transcript_text::{Label, Stop};

impl LinkedSink {
    /// Runs a line that names the sink, and puts what it prints at the end of the text. It is refused by the first reason that
    /// holds: NoSuchLink, LinkTwice, NothingWaiting, RecordsTooLong. A refused line changes nothing, and wants no memory; nor
    /// do `locate`, `context` and `apart`, and a drain of a link on which nothing waits.
    pub fn line(&mut self, step: Step, origin: Origin, text: &mut Octets) -> Result<(), Stop>
        requires range { IsInRange step }
        requires line { IsSinkLine step }
        ensures { (source : Source) (history : SinkHistory) → IsFrom origin source → IsSink history self.old
            → LineMakes source step history text.old text.new self.new result }
    {
        match step {
            Step::Pac {
                codec,
                caps,
                metadata,
                ..
            } => self.pac(codec, caps, metadata),
            Step::Write { octets, .. } => self.write(0, octets),
            Step::AWrite { link, octets, .. } => self.write(link, octets),
            Step::Add { op, .. } => self.operate(Operation::Add(op)),
            Step::Modify { op, .. } => self.operate(Operation::Modify(op)),
            other => self.lent_line(other, origin, text),
        }
    }

    /// The same of a line of which nothing is kept.
    fn lent_line(&mut self, step: Step, origin: Origin, text: &mut Octets) -> Result<(), Stop>
        requires range { IsInRange step }
        requires line { IsSinkLine step }
        requires lent { IsLent step }
        ensures { (source : Source) (history : SinkHistory) → IsFrom origin source → IsSink history self.old
            → LineMakes source step history text.old text.new self.new result }
    {
        match step {
            Step::Locate { bits, .. } => self.locate(bits),
            Step::Context { sink_bits, .. } => self.context(sink_bits),
            Step::Train {
                sink,
                time,
                ext,
                adv,
                acad,
            } => self.train(
                sink,
                origin,
                time,
                ext.as_slice(),
                adv.as_slice(),
                acad.as_slice(),
                text,
            ),
            Step::Remove { source_id, .. } => self.operate(Operation::Remove { source_id }),
            Step::Code {
                source_id,
                code,
                ..
            } => self.operate(Operation::Code { source_id, code }),
            Step::Show { sink } => self.show(sink, text),
            Step::Lose { sink } => self.lose(sink, text),
            Step::Control { sink, octets } => self.control(sink, octets.as_slice(), text),
            Step::Forge { sink, slot, octets } => {
                self.forge(sink, slot, octets.as_slice(), text)
            }
            Step::Assist { link, .. } => self.assist(link),
            Step::Apart { link, .. } => self.apart(link),
            other => self.link_line(other, text),
        }
    }

    /// The same of a line of what waits on a link or is known there.
    fn link_line(&mut self, step: Step, text: &mut Octets) -> Result<(), Stop>
        requires { IsLinkLine step }
        ensures { (source : Source) (history : SinkHistory) → IsSink history self.old
            → LineMakes source step history text.old text.new self.new result }
    {
        match step {
            Step::Serve { sink } => self.serve(0, Label::Plain { sink }, text),
            Step::Tell { sink } => self.tell(0, Label::Plain { sink }, text),
            Step::Read { sink } => self.read(0, Label::Plain { sink }, text),
            Step::Drain { sink } => self.drain(0, Label::Plain { sink }, text),
            Step::AServe { sink, link } => self.serve(link, Label::OnLink { sink, link }, text),
            Step::ATell { sink, link } => self.tell(link, Label::OnLink { sink, link }, text),
            Step::ARead { sink, link } => self.read(link, Label::OnLink { sink, link }, text),
            Step::ADrain { sink, link } => self.drain(link, Label::OnLink { sink, link }, text),
            Step::AShow { sink, link } => self.show_on(sink, link, text),
            _ => unreachable!(),
        }
    }
}
