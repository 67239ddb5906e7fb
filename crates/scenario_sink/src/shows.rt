//! The states of a sink, and what its assistants know of them.
ghost use Rattle.std.specs.Prelude.{◌≡◌, ◌<◌, ◌++◌, ◌∷◌, [], true, codes, decimal, None, Some, IfOk, OnOk};
ghost use Rattle.std.specs.List.{concat};
ghost use Rattle.delegator_history.specs.Values.{value};
ghost use Rattle.sink_history.specs.Calls.{is_joined};
ghost use Rattle.sink_history.specs.Links.{view};
ghost use Rattle.scenario_text.specs.declared.step.Step.TheVariants.{Show};
ghost use Rattle.sink_history.specs.History.{Source};
ghost use Rattle.sink_history.specs.Output.{show_lines, state_where, view_lines, viewed};
ghost use Rattle.transcript_text.specs.SinkLines.{value_line};
ghost use Rattle.scenario_sink.specs.Making.{LineMakes, LinkMakes, slot_lines};
ghost use Rattle.scenario_sink.specs.SinkHistory.{SinkHistory};
ghost use Rattle.scenario_sink.specs.State.Stands.{IsSink};

use crate::on_link::view_on;
use crate::sink::LinkedSink;
use bcast_base::{Memory, Octets};
use receive_state::read_is_state;
use transcript_text::{Refusal, Stop, put_link_view, put_state, put_view};

impl LinkedSink {
    /// The octets of the state of a slot, which are none where it is empty (Broadcast Audio Scan Service 1.0, section 3.2): `None`
    /// where the sink has no such slot.
    pub fn state(&self, slot: u8) -> Result<Option<Octets>, Memory>
        ensures { (history : SinkHistory) → IsSink history self.now → IfOk result (λ octets. octets ≡ state_where (Some history.made) history.calls_made slot) }
    {
        if slot >= self.slots {
            return Ok(None);
        }
        let state = self.delegator.read_state(slot)?;
        Ok(Some(state))
    }

    /// The octets of what the assistant of a joined link takes for the state of a slot; none where it takes the slot for empty
    /// (Broadcast Audio Scan Service 1.0, section 3.2).
    fn view(&mut self, link: u8, slot: u8) -> Result<Octets, Memory>
        requires { slot < self.old.slots }
        ensures answer { (history : SinkHistory) → IsSink history self.old → is_joined link history.calls_made ≡ true
            → IfOk result (λ octets. octets ≡ value (view history.made.setup history.made.mtu link slot history.calls_made)) }
        ensures lives { (history : SinkHistory) → IsSink history self.old → IsSink history self.new }
        ensures slots { self.new.slots ≡ self.old.slots }
    {
        read_is_state();
        view_on(self.alloc, &mut self.links, link, slot)
    }

    /// Puts the state of a slot behind the text, and what the assistant on link 0 takes for it (Broadcast Audio Scan Service 1.0,
    /// section 3.2).
    fn show_slot(&mut self, sink: u8, slot: u8, text: &mut Octets) -> Result<(), Memory>
        requires { slot < self.old.slots }
        ensures shows { (history : SinkHistory) → IsSink history self.old
            → OnOk result (IsSink history self.new × (text.new ≡ text.old ++ concat (slot_lines sink history slot))) }
        ensures slots { self.new.slots ≡ self.old.slots }
    {
        let state = self.delegator.read_state(slot)?;
        put_state(text, sink, slot, state.as_slice())?;
        let view = self.view(0, slot)?;
        put_view(text, sink, slot, view.as_slice())?;
        Ok(())
    }

    /// The same of all slots, rising.
    fn show_slots(&mut self, sink: u8, text: &mut Octets) -> Result<(), Memory>
        ensures { (history : SinkHistory) → IsSink history self.old
            → OnOk result (IsSink history self.new × (text.new ≡ text.old ++ concat (show_lines sink history.made history.calls_made))) }
    {
        'each: for slot in 0..self.slots {
            self.show_slot(sink, slot, text)?;
        }
        Ok(())
    }

    /// Puts what the assistant of a joined link takes for the state of a slot behind the text.
    fn show_view(&mut self, sink: u8, link: u8, slot: u8, text: &mut Octets) -> Result<(), Memory>
        requires { slot < self.old.slots }
        ensures shows { (history : SinkHistory) → IsSink history self.old → is_joined link history.calls_made ≡ true
            → OnOk result (IsSink history self.new × (text.new
            ≡ text.old ++ value_line (codes "aview") (decimal sink ∷ decimal link ∷ []) (viewed history.made link history.calls_made slot))) }
        ensures slots { self.new.slots ≡ self.old.slots }
    {
        let view = self.view(link, slot)?;
        put_link_view(text, sink, link, slot, view.as_slice())?;
        Ok(())
    }

    /// The same of all slots, rising.
    fn show_views(&mut self, sink: u8, link: u8, text: &mut Octets) -> Result<(), Memory>
        ensures { (history : SinkHistory) → IsSink history self.old → is_joined link history.calls_made ≡ true
            → OnOk result (IsSink history self.new × (text.new ≡ text.old ++ concat (view_lines sink link history.made history.calls_made))) }
    {
        'each: for slot in 0..self.slots {
            self.show_view(sink, link, slot, text)?;
        }
        Ok(())
    }

    /// `show`: shows the states of the slots, and what the assistant on link 0 takes for them.
    pub(crate) fn show(&mut self, sink: u8, text: &mut Octets) -> Result<(), Stop>
        ensures { (source : Source) (history : SinkHistory) → IsSink history self.old
            → LineMakes source (Show sink) history text.old text.new self.new result }
    {
        self.show_slots(sink, text)?;
        Ok(())
    }

    /// `ashow`: shows what the assistant on a link takes for the states of the slots.
    pub(crate) fn show_on(&mut self, sink: u8, link: u8, text: &mut Octets) -> Result<(), Stop>
        ensures { (history : SinkHistory) → IsSink history self.old
            → LinkMakes link None (Unit {0}) (view_lines sink link history.made history.calls_made) history.calls_made history text.old text.new self.new result }
    {
        if !self.links.is_joined(link) {
            return Err(Stop::Refused(Refusal::NoSuchLink));
        }
        self.show_views(sink, link, text)?;
        Ok(())
    }
}
