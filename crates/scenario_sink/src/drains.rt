//! A drain of a link: all writes that wait are served, then all notices that wait are delivered, then all reads are served.
ghost use Rattle.std.specs.Prelude.{◌≡◌, ◌<◌, true, length, None, OnErr, OnOk};
ghost use Rattle.sink_history.specs.Calls.{is_joined, writes_waiting};
ghost use Rattle.sink_history.specs.Drains.{drained, read_out, served_out, notified_out};
ghost use Rattle.sink_history.specs.Links.{notices_waiting, reads_waiting};
ghost use Rattle.sink_history.specs.Output.{drain_lines, read_lines, serve_lines, tell_lines};
ghost use Rattle.transcript_text.specs.Labels.{label_of};
ghost use Rattle.scenario_sink.specs.Making.{Goes, LinkMakes};
ghost use Rattle.scenario_sink.specs.SinkHistory.{SinkHistory};
ghost use Rattle.scenario_sink.specs.State.Stands.{IsSink};

use crate::sink::LinkedSink;
use bcast_base::{Memory, Octets};
use transcript_text::{Label, Refusal, Stop};

impl LinkedSink {
    /// Serves all writes that wait on a joined link, and puts their replies behind the text. Memory is wanted only where
    /// one waits.
    fn serve_all(&mut self, link: u8, label: Label, text: &mut Octets) -> Result<(), Memory>
        ensures goes { (history : SinkHistory) → IsSink history self.old → is_joined link history.calls_made ≡ true
            → OnOk result (Goes history (served_out link history.calls_made)
            (serve_lines (label_of label) history.made link (length (writes_waiting link history.calls_made)) history.calls_made) text.old text.new self.new) }
        ensures memory { (history : SinkHistory) → IsSink history self.old → is_joined link history.calls_made ≡ true
            → OnErr result (0 < length (writes_waiting link history.calls_made)) }
    {
        'writes: for _ in 0..u64::MAX {
            let waited = self.serve_next(link, label, text)?;
            if !waited {
                return Ok(());
            }
        }
        Err(Memory)
    }

    /// Delivers all notices that wait on a joined link, in order, and puts them behind the text. Memory is wanted only
    /// where one waits.
    fn tell_all(&mut self, link: u8, label: Label, text: &mut Octets) -> Result<(), Memory>
        ensures goes { (history : SinkHistory) → IsSink history self.old → is_joined link history.calls_made ≡ true
            → OnOk result (Goes history (notified_out history.made.setup history.made.mtu link history.calls_made) (tell_lines (label_of label) history.made link
            (length (notices_waiting history.made.setup history.made.mtu link history.calls_made)) history.calls_made) text.old text.new self.new) }
        ensures memory { (history : SinkHistory) → IsSink history self.old → is_joined link history.calls_made ≡ true
            → OnErr result (0 < length (notices_waiting history.made.setup history.made.mtu link history.calls_made)) }
    {
        'notices: for _ in 0..u64::MAX {
            let waited = self.tell_next(link, label, text)?;
            if !waited {
                return Ok(());
            }
        }
        Err(Memory)
    }

    /// Serves all reads that wait on a joined link, the slots by rising number, and puts what they give behind the text.
    /// Memory is wanted only where one waits.
    fn read_all(&mut self, link: u8, label: Label, text: &mut Octets) -> Result<(), Memory>
        ensures goes { (history : SinkHistory) → IsSink history self.old → is_joined link history.calls_made ≡ true
            → OnOk result (Goes history (read_out history.made.setup history.made.mtu link history.calls_made) (read_lines (label_of label) history.made link
            (length (reads_waiting history.made.setup history.made.mtu link history.calls_made)) history.calls_made) text.old text.new self.new) }
        ensures memory { (history : SinkHistory) → IsSink history self.old → is_joined link history.calls_made ≡ true
            → OnErr result (0 < length (reads_waiting history.made.setup history.made.mtu link history.calls_made)) }
    {
        'reads: for _ in 0..u64::MAX {
            let waited = self.read_next(link, label, text)?;
            if !waited {
                return Ok(());
            }
        }
        Err(Memory)
    }

    /// Drains a joined link, and puts what becomes of all that waited behind the text. Memory is wanted only
    /// where something does.
    fn drain_link(&mut self, link: u8, label: Label, text: &mut Octets) -> Result<(), Memory>
        ensures goes { (history : SinkHistory) → IsSink history self.old → is_joined link history.calls_made ≡ true
            → OnOk result (Goes history (drained history.made.setup history.made.mtu link history.calls_made)
            (drain_lines (label_of label) history.made link history.calls_made) text.old text.new self.new) }
        ensures memory { (history : SinkHistory) → IsSink history self.old → is_joined link history.calls_made ≡ true
            → OnErr result (0 < length (drain_lines (label_of label) history.made link history.calls_made)) }
    {
        self.serve_all(link, label, text)?;
        self.tell_all(link, label, text)?;
        self.read_all(link, label, text)?;
        Ok(())
    }

    /// `drain` and `adrain`: drains a link.
    pub(crate) fn drain(&mut self, link: u8, label: Label, text: &mut Octets) -> Result<(), Stop>
        ensures { (history : SinkHistory) → IsSink history self.old
            → LinkMakes link None (0 < length (drain_lines (label_of label) history.made link history.calls_made))
            (drain_lines (label_of label) history.made link history.calls_made) (drained history.made.setup history.made.mtu link history.calls_made) history
            text.old text.new self.new result }
    {
        if !self.links.is_joined(link) {
            return Err(Stop::Refused(Refusal::NoSuchLink));
        }
        self.drain_link(link, label, text)?;
        Ok(())
    }
}
