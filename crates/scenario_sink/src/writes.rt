//! What is put behind the writes that wait on a link.
ghost use Rattle.std.specs.Prelude.{◌≡◌, ◌∷◌, ℕ, List, true, None, Some, IfOk, OnOk};
ghost use Rattle.std.specs.Option.{option_or};
ghost use Rattle.bass_operations.specs.Layout.{IsLaid, MetadataFits, encoding, wishes_of};
ghost use Rattle.scenario_text.specs.declared.step.Step.{Step};
ghost use Rattle.sink_history.specs.Calls.{asked, is_joined};
ghost use Rattle.sink_history.specs.History.{Source};
ghost use Rattle.sink_history.specs.Refusals.{no_link};
ghost use Rattle.scenario_sink.specs.Making.{LineMakes, Quietly, stayed};
ghost use Rattle.scenario_sink.specs.Operates.{Operates};
ghost use Rattle.scenario_sink.specs.SinkHistory.{SinkHistory};
ghost use Rattle.scenario_sink.specs.State.Stands.{IsSink};

use crate::on_link::put;
use crate::sink::LinkedSink;
use bass_operations::{Operation, encode_operation};
use bcast_base::{Memory, Octets, are_octets};
use sink_history::links_law;
use std::alloc::Global;
use transcript_text::{Refusal, Stop};

impl LinkedSink {
    /// Puts octets behind the writes that wait on a joined link, whatever they are.
    fn put_write(&mut self, link: u8, octets: Octets) -> Result<(), Memory>
        ensures { (history : SinkHistory) → IsSink history self.old → is_joined link history.calls_made ≡ true
            → OnOk result (IsSink (stayed (asked link octets ∷ history.calls_made) history) self.new) }
    {
        links_law();
        are_octets(octets.as_slice());
        put(&mut self.links, link, octets)
    }

    /// `add`, `modify`, `remove` and `code`: puts an operation behind the writes that wait on link 0 (Broadcast Audio Scan Service
    /// 1.0, section 3.1.1).
    pub(crate) fn operate(&mut self, op: Operation) -> Result<(), Stop>
        requires { MetadataFits (wishes_of op) }
        ensures { (history : SinkHistory) → IsSink history self.old
            → Quietly None (Unit {0}) history (stayed (asked 0 (encoding op) ∷ history.calls_made) history) self.new result }
    {
        let octets = octets_of(self.alloc, op)?;
        self.put_write(0, octets)?;
        Ok(())
    }

    /// Runs a line that says the operation of these octets, `add`, `modify`, `remove` or `code`, as `line` does: puts the octets behind
    /// the writes that wait on link 0. It is never refused.
    pub fn put_operation(&mut self, octets: &[u8]) -> Result<(), Stop>
        ensures { (source : Source) (step : Step) (history : SinkHistory) (text : List ℕ) → Operates step octets.now → IsSink history self.old
            → LineMakes source step history text text self.new result }
    {
        self.put_copy(octets)
    }

    /// Puts the same octets behind the writes that wait on link 0.
    fn put_copy(&mut self, octets: &[u8]) -> Result<(), Stop>
        ensures { (history : SinkHistory) → IsSink history self.old
            → Quietly None (Unit {0}) history (stayed (asked 0 octets.now ∷ history.calls_made) history) self.new result }
    {
        let octets = Octets::copy(self.alloc, octets)?;
        self.put_write(0, octets)?;
        Ok(())
    }

    /// `write` and `awrite`: puts octets behind the writes that wait on a link, whatever they are.
    pub(crate) fn write(&mut self, link: u8, octets: Octets) -> Result<(), Stop>
        ensures { (history : SinkHistory) → IsSink history self.old
            → Quietly (option_or (no_link history.calls_made (Some link)) None) (Unit {0}) history (stayed (asked link octets ∷ history.calls_made) history)
            self.new result }
    {
        if !self.links.is_joined(link) {
            return Err(Stop::Refused(Refusal::NoSuchLink));
        }
        self.put_write(link, octets)?;
        Ok(())
    }
}

/// The octets of an operation, which is given away.
fn octets_of(alloc: Global, op: Operation) -> Result<Octets, Memory>
    requires { MetadataFits (wishes_of op) }
    ensures { IfOk result (λ octets. IsLaid op octets) }
{
    encode_operation(alloc, &op)
}
