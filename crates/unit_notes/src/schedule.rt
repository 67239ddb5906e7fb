//! What a source sends in which subevent, and when its units are rendered, as its lines said it.
use note_parts::{NONE, Numbers, numbers_of, quotient};
use scenario_text::Step;

/// A source, with its times in µs.
#[derive(Clone, Copy)]
pub(crate) struct Schedule {
    pub(crate) numbers: Numbers,
    pub(crate) is_framed: bool,
    origin: u64,
    pub(crate) delay: u64,
    first: u64,
    /// How many events were performed, and whether the last one is open.
    performed: u64,
    is_open: bool,
    /// How many units each stream was given before the first event, by its index.
    given: [u64; 32],
}

/// A source of which no line was said.
pub(crate) const UNSAID: Schedule = Schedule {
    numbers: NONE,
    is_framed: false,
    origin: 0,
    delay: 0,
    first: 0,
    performed: 0,
    is_open: false,
    given: [0; 32],
};

impl Schedule {
    /// Notes a step of this source that was made.
    pub(crate) fn made(&mut self, step: &Step) {
        match step {
            Step::Group {
                framing,
                origin,
                delay,
                ..
            } => {
                self.is_framed = *framing == 1;
                self.origin = *origin;
                self.delay = u64::from(*delay);
                if let Some(numbers) = numbers_of(step) {
                    self.numbers = numbers;
                }
            }
            Step::Start { first } => self.first = *first,
            Step::Unit { bis, .. } => self.give(bis.get()),
            Step::Event => {
                self.performed = self.performed.saturating_add(1);
                self.is_open = true;
            }
            Step::Stop | Step::Terminate { .. } => self.is_open = false,
            _ => {}
        }
    }

    /// A stream is given a unit.
    fn give(&mut self, bis: u8) {
        if self.performed == 0 && bis < 32 {
            let given = self.given[bis as usize];
            self.given[bis as usize] = given.saturating_add(1);
        }
    }

    /// How many units a stream was given before the first event.
    pub(crate) fn given(&self, bis: u8) -> u64 {
        if bis < 32 {
            self.given[bis as usize]
        } else {
            0
        }
    }

    /// How many events a payload is sent ahead at most.
    pub(crate) fn horizon(&self) -> u64 {
        let groups = quotient(self.numbers.nse, self.numbers.bn);
        self.numbers
            .pto
            .saturating_mul(groups.saturating_sub(self.numbers.irc))
    }

    /// Whether an event is one of those whose units go into the first one.
    pub(crate) fn is_early(&self, event: u64) -> bool {
        event <= self.first.saturating_add(self.horizon())
    }

    /// The event `back` events before the last one, where it was performed.
    pub(crate) fn event(&self, back: u8) -> Option<u64> {
        let back = u64::from(back);
        if back >= self.performed {
            return None;
        }
        let after = self.performed.saturating_sub(back).saturating_sub(1);
        Some(self.first.saturating_add(after))
    }

    /// The open event.
    pub(crate) fn open(&self) -> Option<u64> {
        if self.is_open { self.event(0) } else { None }
    }

    /// How many events before that of its payload a subevent is.
    pub(crate) fn ahead(&self, subevent: u64) -> u64 {
        let group = quotient(subevent, self.numbers.bn);
        if group < self.numbers.irc {
            return 0;
        }
        self.numbers
            .pto
            .saturating_mul(group.saturating_sub(self.numbers.irc).saturating_add(1))
    }

    /// The place of the payload of a subevent among those of its event.
    pub(crate) fn place(&self, subevent: u64) -> u64 {
        subevent.saturating_sub(quotient(subevent, self.numbers.bn).saturating_mul(self.numbers.bn))
    }

    /// The payload number of a place of an event.
    pub(crate) fn payload(&self, event: u64, place: u64) -> u64 {
        event.saturating_mul(self.numbers.bn).saturating_add(place)
    }

    /// The event in which a subevent has a payload of this event, where there is one.
    pub(crate) fn sent_in(&self, event: u64, subevent: u64) -> Option<u64> {
        let ahead = self.ahead(subevent);
        if event < self.first.saturating_add(ahead) {
            return None;
        }
        Some(event.saturating_sub(ahead))
    }

    /// The slots of an event, and the payload numbers of each.
    pub(crate) fn slots(&self) -> u64 {
        quotient(self.numbers.interval(), self.numbers.sdu)
    }

    pub(crate) fn places(&self) -> u64 {
        quotient(self.numbers.bn, self.slots())
    }

    /// The anchor of an event.
    pub(crate) fn anchor(&self, event: u64) -> u64 {
        self.origin.saturating_add(
            event
                .saturating_sub(self.first)
                .saturating_mul(self.numbers.interval()),
        )
    }

    /// When the unit of a slot is rendered.
    pub(crate) fn slot_time(&self, event: u64, slot: u64) -> u64 {
        self.anchor(event)
            .saturating_add(self.numbers.delay(false))
            .saturating_add(slot.saturating_mul(self.numbers.sdu))
            .saturating_add(self.delay)
    }

    /// How long behind its own time a framed unit is rendered.
    pub(crate) fn unit_delay(&self) -> u64 {
        self.numbers
            .delay(false)
            .saturating_add(self.numbers.sdu)
            .saturating_add(self.numbers.interval())
            .saturating_add(self.delay)
    }

    /// When a unit is rendered that begins in this event with this offset.
    pub(crate) fn unit_time(&self, event: u64, offset: u32) -> u64 {
        self.anchor(event)
            .saturating_add(self.unit_delay())
            .saturating_sub(u64::from(offset))
    }
}
