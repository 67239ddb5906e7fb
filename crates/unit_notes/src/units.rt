//! What is kept of the units and PDUs of a scenario for its notes.
ghost use Rattle.std.specs.Prelude.{◌<◌, vec_len, IfOk, IfSome};

use crate::asking::{answer, sent};
use crate::closing::foretell;
use crate::fate::Foretold;
use crate::ledger::{Ledger, Start, Stream};
use crate::marks::{has, with, without};
use crate::schedule::{Schedule, UNSAID};
use bcast_base::{Bis, Memory};
use isoal_base::{Heard, Hearing};
use note_parts::Numbers;
use replay_steps::Machine;
use scenario_text::Step;
use std::alloc::Global;

/// The schedules of the two sources, the counts of each stream at each sink, and what the line that is run now makes of units. Lines are
/// told in their order: each by `begin` before it is run, and by `put_units` and `made` then.
#[derive(Drop)]
pub struct Units {
    first: Schedule,
    second: Schedule,
    pub(crate) ledgers: Vec<Ledger>,
    pub(crate) foretold: Vec<Foretold>,
    /// The sinks on a group that a `train` line gave, which may have other numbers than its source.
    are_odd: u32,
    /// The sinks whose units are of source 1.
    pub(crate) are_second: u32,
}

impl Units {
    /// Nothing was said.
    pub fn new(alloc: Global) -> Units {
        Units {
            first: UNSAID,
            second: UNSAID,
            ledgers: Vec::new(alloc),
            foretold: Vec::new(alloc),
            are_odd: 0,
            are_second: 0,
        }
    }

    /// The schedule of a source.
    pub(crate) fn schedule(&self, source: u8) -> &Schedule {
        if source == 0 {
            &self.first
        } else {
            &self.second
        }
    }

    /// The numbers of the group of a source.
    pub fn numbers(&self, source: u8) -> &Numbers {
        &self.schedule(source).numbers
    }

    /// Notes what a line will do that means this source, before it is run.
    pub fn begin(&mut self, machine: &Machine, source: u8, step: &Step) -> Result<(), Memory> {
        self.foretold.clear();
        match step {
            Step::Event | Step::Stop | Step::Terminate { .. } => self.close(machine, source),
            Step::End => {
                self.close(machine, 0)?;
                self.close(machine, 1)
            }
            Step::Hear {
                sink,
                back,
                bis,
                subevent,
            } => self.hear(
                machine,
                source,
                *sink,
                *back,
                *bis,
                u64::from(*subevent),
                None,
            ),
            Step::Inject {
                sink,
                back,
                bis,
                subevent,
                octets,
            } => self.hear(
                machine,
                source,
                *sink,
                *back,
                *bis,
                u64::from(*subevent),
                Some(octets.as_slice()),
            ),
            Step::Air { sink, lose } => self.air(machine, source, *sink, u64::from(*lose)),
            _ => Ok(()),
        }
    }

    /// The open event of a source will be closed.
    fn close(&mut self, machine: &Machine, source: u8) -> Result<(), Memory> {
        let schedule = *self.schedule(source);
        let Some(event) = schedule.open() else {
            return Ok(());
        };
        'sinks: for sink in 0..8u8 {
            'streams: for index in 1..32u8 {
                if u64::from(index) > schedule.numbers.num_bis {
                    break 'streams;
                }
                if let Some(bis) = Bis::new(index) {
                    self.close_stream(machine, &schedule, source, event, sink, bis)?;
                }
            }
        }
        Ok(())
    }

    /// The open event of a stream at a sink will be closed.
    fn close_stream(
        &mut self,
        machine: &Machine,
        schedule: &Schedule,
        source: u8,
        event: u64,
        sink: u8,
        bis: Bis,
    ) -> Result<(), Memory> {
        let missing = match missing_of(machine, schedule, source, event, sink, bis) {
            Missing::NotOn => return Ok(()),
            Missing::Unknown => None,
            Missing::Places(missing) => Some(missing),
        };
        self.comes_of(sink, source);
        let Some(missing) = missing else {
            return Ok(());
        };
        if has(self.are_odd, u64::from(sink)) {
            return Ok(());
        }
        let stream = Stream {
            sink,
            source,
            bis: bis.get(),
        };
        let place = self.place_for(stream)?;
        let start = self.ledgers[place].start;
        let start = foretell(
            machine,
            schedule,
            stream,
            bis,
            event,
            missing,
            start,
            &mut self.foretold,
        )?;
        self.start_at(place, start);
        Ok(())
    }

    /// The start that isn't decided.
    fn start_at(&mut self, place: usize, start: Option<Start>) {
        if let Some(ledger) = self.ledgers.get_mut(place) {
            ledger.start = start;
        }
    }

    /// The units of a sink are of this source.
    fn comes_of(&mut self, sink: u8, source: u8) {
        self.are_second = if source == 1 {
            with(self.are_second, u64::from(sink))
        } else {
            without(self.are_second, u64::from(sink))
        };
    }

    /// Where the counts of a stream stand.
    pub(crate) fn place_of(&self, stream: Stream) -> Option<usize>
        ensures { IfSome result (λ place. place < vec_len self.now.ledgers) }
    {
        self.ledgers
            .iter()
            .position(|ledger| ledger.stream == stream)
    }

    /// The same, from now on.
    pub(crate) fn place_for(&mut self, stream: Stream) -> Result<usize, Memory>
        ensures { IfOk result (λ place. place < vec_len self.new.ledgers) }
    {
        if let Some(place) = self.place_of(stream) {
            return Ok(place);
        }
        let place = self.ledgers.len();
        match self.ledgers.push(Ledger::new(stream)) {
            Ok(()) => Ok(place),
            Err(_) => Err(Memory),
        }
    }

    /// Notes a step that was made while this source was chosen, and whether its rows say that a sink is on a group.
    pub fn made(
        &mut self,
        machine: &Machine,
        source: u8,
        step: &Step,
        is_joined: bool,
    ) -> Result<(), Memory> {
        if source == 0 {
            self.first.made(step);
        } else {
            self.second.made(step);
        }
        match step {
            Step::Event => self.begin_event(machine, source),
            Step::Tuned { sink, .. } => {
                self.joins(*sink, false);
                Ok(())
            }
            Step::Announce { sink } if is_joined => {
                self.joins(*sink, false);
                Ok(())
            }
            Step::Train { sink, .. } if is_joined => {
                self.joins(*sink, true);
                Ok(())
            }
            _ => Ok(()),
        }
    }

    /// A sink joined a group.
    fn joins(&mut self, sink: u8, is_odd: bool) {
        self.are_odd = if is_odd {
            with(self.are_odd, u64::from(sink))
        } else {
            without(self.are_odd, u64::from(sink))
        };
        for ledger in self.ledgers.iter_mut() {
            if ledger.stream.sink == sink {
                ledger.start = None;
            }
        }
    }
}

/// What a sink lacks of an event of a stream.
#[derive(Clone, Copy)]
enum Missing {
    /// It is not on the stream.
    NotOn,
    /// It keeps none of the event any more.
    Unknown,
    /// The payload numbers at these places.
    Places(u32),
}

/// What a sink lacks of the open event of a stream.
fn missing_of(
    machine: &Machine,
    schedule: &Schedule,
    source: u8,
    event: u64,
    sink: u8,
    bis: Bis,
) -> Missing {
    let mut missing = 0;
    'places: for place in 0..8u64 {
        if place >= schedule.numbers.bn {
            break 'places;
        }
        let Some(pdu) = sent(machine, source, 0, bis, place) else {
            return Missing::NotOn;
        };
        match answer(machine, sink, source, event, bis, place, pdu) {
            Some(Hearing::Heard(Heard::Repeat)) => {}
            Some(Hearing::Heard(Heard::Kept)) => missing = with(missing, place),
            Some(Hearing::Heard(_)) => return Missing::Unknown,
            _ => return Missing::NotOn,
        }
    }
    Missing::Places(missing)
}
