//! The first write, notice or read that waits on a link.
ghost use Rattle.std.specs.Prelude.{◌≡◌, ◌∷◌, true, None, slice_get};
ghost use Rattle.std.specs.Option.{option_or};
ghost use Rattle.sink_history.specs.Calls as calls;
ghost use Rattle.sink_history.specs.Calls.{is_joined, writes_waiting};
ghost use Rattle.sink_history.specs.Links.{notices_waiting, reads_waiting};
ghost use Rattle.sink_history.specs.Output.{read_line, serve_line, tell_line};
ghost use Rattle.sink_history.specs.Refusals.{no_notice, no_read, no_write};
ghost use Rattle.transcript_text.specs.Labels.{label_of};
ghost use Rattle.scenario_sink.specs.Making.{Goes, LinkMakes, Stays, Turns, answer_if};
ghost use Rattle.scenario_sink.specs.SinkHistory.{SinkHistory};
ghost use Rattle.scenario_sink.specs.State.Stands.{IsSink};

use crate::on_link::{deliver, next_read, take_value, take_write};
use crate::sink::LinkedSink;
use bcast_base::{Memory, Octets};
use delegator_history::Notice;
use sink_history::{a_read_gives_the_state, a_step_notifies_each_link, links_law};
use transcript_text::{Label, Refusal, Stop, put_notice, put_read, put_reply};

impl LinkedSink {
    /// Serves the first write that waits on a joined link, and puts its reply behind the text (Broadcast Audio Scan Service 1.0,
    /// section 3.1.1). It answers whether one waited.
    pub(crate) fn serve_next(
        &mut self,
        link: u8,
        label: Label,
        text: &mut Octets,
    ) -> Result<bool, Memory>
        ensures { (history : SinkHistory) → IsSink history self.old → is_joined link history.calls_made ≡ true
            → Turns (slice_get (writes_waiting link history.calls_made) 0)
            (Goes history (calls.served link ∷ history.calls_made) (serve_line (label_of label) history.made link history.calls_made) text.old)
            (Stays history text.old) text.new self.new result }
    {
        a_step_notifies_each_link();
        let Some(write) = take_write(&mut self.links, link) else {
            return Ok(false);
        };
        let reply = self.delegator.serve(write.as_slice())?;
        self.gather()?;
        put_reply(text, label, reply)?;
        Ok(true)
    }

    /// Delivers the first notice that waits on a joined link, and puts it behind the text (Broadcast Audio Scan Service 1.0,
    /// section 3.2). It answers whether one waited.
    pub(crate) fn tell_next(
        &mut self,
        link: u8,
        label: Label,
        text: &mut Octets,
    ) -> Result<bool, Memory>
        ensures { (history : SinkHistory) → IsSink history self.old → is_joined link history.calls_made ≡ true
            → Turns (slice_get (notices_waiting history.made.setup history.made.mtu link history.calls_made) 0)
            (Goes history (calls.notified link ∷ history.calls_made) (tell_line (label_of label) history.made link history.calls_made) text.old)
            (Stays history text.old) text.new self.new result }
    {
        links_law();
        let Some(notice) = self.links.next_notice(link) else {
            return Ok(false);
        };
        deliver(&mut self.links, link, notice.slot, notice.value.as_slice())?;
        put_notice(text, label, &notice)?;
        Ok(true)
    }

    /// Serves the read that waits on a joined link of the lowest slot, and puts the slot and its value behind the text (Broadcast
    /// Audio Scan Service 1.0, section 3.2). It answers whether one waited.
    pub(crate) fn read_next(
        &mut self,
        link: u8,
        label: Label,
        text: &mut Octets,
    ) -> Result<bool, Memory>
        ensures { (history : SinkHistory) → IsSink history self.old → is_joined link history.calls_made ≡ true
            → Turns (slice_get (reads_waiting history.made.setup history.made.mtu link history.calls_made) 0)
            (Goes history (calls.read link ∷ history.calls_made) (read_line (label_of label) history.made link history.calls_made) text.old)
            (Stays history text.old) text.new self.new result }
    {
        links_law();
        a_read_gives_the_state();
        let Some(slot) = next_read(&mut self.links, link) else {
            return Ok(false);
        };
        if slot >= self.slots {
            return Ok(false);
        }
        let value = self.delegator.read_state(slot)?;
        take_value(&mut self.links, link, slot, value.as_slice())?;
        put_read(text, label, &Notice { slot, value })?;
        Ok(true)
    }

    /// `serve` and `aserve`: serves the first write that waits on a link.
    pub(crate) fn serve(&mut self, link: u8, label: Label, text: &mut Octets) -> Result<(), Stop>
        ensures { (history : SinkHistory) → IsSink history self.old
            → LinkMakes link (option_or (no_write link history.calls_made) None) (Unit {0}) (serve_line (label_of label) history.made link history.calls_made)
            (calls.served link ∷ history.calls_made) history text.old text.new self.new result }
    {
        if !self.links.is_joined(link) {
            return Err(Stop::Refused(Refusal::NoSuchLink));
        }
        let waited = self.serve_next(link, label, text)?;
        refuse_unless(waited)
    }

    /// `tell` and `atell`: delivers the first notice that waits on a link.
    pub(crate) fn tell(&mut self, link: u8, label: Label, text: &mut Octets) -> Result<(), Stop>
        ensures { (history : SinkHistory) → IsSink history self.old
            → LinkMakes link (option_or (no_notice history.made link history.calls_made) None) (Unit {0})
            (tell_line (label_of label) history.made link history.calls_made) (calls.notified link ∷ history.calls_made) history text.old text.new self.new result }
    {
        if !self.links.is_joined(link) {
            return Err(Stop::Refused(Refusal::NoSuchLink));
        }
        let waited = self.tell_next(link, label, text)?;
        refuse_unless(waited)
    }

    /// `read` and `aread`: serves the read that waits on a link of the lowest slot.
    pub(crate) fn read(&mut self, link: u8, label: Label, text: &mut Octets) -> Result<(), Stop>
        ensures { (history : SinkHistory) → IsSink history self.old
            → LinkMakes link (option_or (no_read history.made link history.calls_made) None) (Unit {0})
            (read_line (label_of label) history.made link history.calls_made) (calls.read link ∷ history.calls_made) history text.old text.new self.new result }
    {
        if !self.links.is_joined(link) {
            return Err(Stop::Refused(Refusal::NoSuchLink));
        }
        let waited = self.read_next(link, label, text)?;
        refuse_unless(waited)
    }
}

/// What a line answers that takes the first that waits.
fn refuse_unless(waited: bool) -> Result<(), Stop>
    ensures { result ≡ answer_if waited }
{
    if !waited {
        return Err(Stop::Refused(Refusal::NothingWaiting));
    }
    Ok(())
}
