//! What each sink can take, as its lines said it, and why it takes no stream of a BASE.
ghost use Rattle.std.specs.Prelude.{◌<◌, vec_len, IfSome};

use crate::bases::put_base_fault;
use crate::compared::{is_list, put_fitting, put_values};
use crate::trains::{Identity, Train};
use crate::unwanted::put_unwanted;
use crate::wishes::Wants;
use base_grammar::{Base, decode_base};
use bass_operations::Wishes;
use bcast_base::{Bis, BisSet, Memory, Octets};
use note_parts::put_note;
use pacs_records::{Capability, NotTaken, PacRecord, PushFault, Records, takes};
use replay_steps::Machine;
use scenario_text::Step;
use scenario_words::{Word, put_words};
use std::alloc::Global;

/// The contexts that are available at first: all.
const ALL_CONTEXTS: u16 = 0xffff;

/// A sink.
#[derive(Drop)]
struct Ear {
    sink: u8,
    capability: Capability,
    /// The train by which it came where it is, unless that was `tuned`.
    followed: Option<Identity>,
}

/// What the streams of a BASE are tested by, and which of them are taken.
#[derive(Clone, Copy)]
pub(crate) struct Asked<'a> {
    capability: &'a Capability,
    base: &'a Base,
    /// What the slot wants, where it is known.
    pub(crate) wishes: Option<&'a Wishes>,
    pub(crate) num_bis: u8,
    taken: BisSet,
}

/// The sinks that live.
#[derive(Drop)]
pub struct Ears {
    alloc: Global,
    ears: Vec<Ear>,
    wants: Wants,
}

impl Ears {
    /// None.
    pub fn new(alloc: Global) -> Ears {
        Ears {
            alloc,
            ears: Vec::new(alloc),
            wants: Wants::new(alloc),
        }
    }

    /// Where a sink stands.
    fn place_of(&self, sink: u8) -> Option<usize>
        ensures { IfSome result (λ place. place < vec_len self.now.ears) }
    {
        self.ears.iter().position(|ear| ear.sink == sink)
    }

    /// Notes a step that was made.
    pub fn made(&mut self, step: Step) -> Result<(), Memory> {
        match step {
            Step::Sink { sink, .. } => self.add(sink),
            Step::Drop { sink } => {
                self.remove(sink);
                self.wants.drop_sink(sink);
                Ok(())
            }
            Step::Tuned { sink, .. } => {
                self.follow(sink, None);
                Ok(())
            }
            Step::Pac {
                sink,
                codec,
                caps,
                metadata,
            } => self.pac(
                sink,
                PacRecord {
                    codec,
                    caps,
                    metadata,
                },
            ),
            Step::Locate { sink, bits } => {
                if let Some(place) = self.place_of(sink) {
                    self.ears[place].capability.locations = bits;
                }
                Ok(())
            }
            Step::Context {
                sink,
                sink_bits,
                ..
            } => {
                if let Some(place) = self.place_of(sink) {
                    self.ears[place].capability.contexts = sink_bits;
                }
                Ok(())
            }
            step => self.wants.made(step),
        }
    }

    /// Notes that a write was served, where a row of the transcript says so.
    pub fn served(&mut self, machine: &Machine, row: &[u8]) -> Result<(), Memory> {
        self.wants.served(machine, row)
    }

    /// Puts how many writes wait on each link of a sink.
    pub fn put_waiting(&self, rows: &mut Octets, sink: u8) -> Result<(), Memory> {
        self.wants.put_waiting(rows, sink)
    }

    /// A new sink.
    fn add(&mut self, sink: u8) -> Result<(), Memory> {
        let capability = Capability {
            entries: Records::new(self.alloc),
            locations: 0,
            contexts: ALL_CONTEXTS,
        };
        match self.ears.push(Ear {
            sink,
            capability,
            followed: None,
        }) {
            Ok(()) => Ok(()),
            Err(_) => Err(Memory),
        }
    }

    /// A sink that lives no more.
    fn remove(&mut self, sink: u8) {
        if let Some(place) = self.place_of(sink) {
            drop(self.ears.remove(place));
        }
    }

    /// A record of a sink.
    fn pac(&mut self, sink: u8, record: PacRecord) -> Result<(), Memory> {
        let Some(place) = self.place_of(sink) else {
            return Ok(());
        };
        push_record(&mut self.ears[place].capability.entries, record)
    }

    /// The train by which a sink came where it is.
    pub(crate) fn followed(&self, sink: u8) -> Option<Identity> {
        let place = self.place_of(sink)?;
        self.ears[place].followed
    }

    /// A sink is where this train put it, or where `tuned` did.
    pub fn follow(&mut self, sink: u8, train: Option<Identity>) {
        if let Some(place) = self.place_of(sink) {
            self.ears[place].followed = train;
        }
    }

    /// Puts why a sink takes these streams of the BASE that some octets are: for each other stream the first row of the match that
    /// its last record doesn't meet (Published Audio Capabilities Service 1.0). Where the octets are no BASE, puts their fault.
    pub(crate) fn put_reasons(
        &self,
        rows: &mut Octets,
        sink: u8,
        train: &Train,
        octets: &[u8],
        taken: BisSet,
    ) -> Result<(), Memory> {
        let Some(place) = self.place_of(sink) else {
            return Ok(());
        };
        match decode_base(self.alloc, octets) {
            Ok(base) => {
                let asked = Asked {
                    capability: &self.ears[place].capability,
                    base: &base,
                    wishes: self.wants.wanted(sink, train.identity),
                    num_bis: train.num_bis(),
                    taken,
                };
                put_streams(rows, &asked)
            }
            Err(fault) => put_base_fault(rows, fault),
        }
    }
}

/// Adds a record that fits.
fn push_record(records: &mut Records, record: PacRecord) -> Result<(), Memory> {
    if !is_list(record.caps.as_slice()) {
        return Ok(());
    }
    if !is_list(record.metadata.as_slice()) {
        return Ok(());
    }
    match records.push(record) {
        Err(PushFault::Memory) => Err(Memory),
        Ok(()) | Err(PushFault::TooLong) => Ok(()),
    }
}

/// Puts a note for each stream of a BASE.
fn put_streams(rows: &mut Octets, asked: &Asked<'_>) -> Result<(), Memory> {
    if asked.capability.entries.count() == 0 {
        return put_note(
            rows,
            &[Word::Text(b"the sink has no record: no `pac` line names it, so no stream fits")],
        );
    }
    'streams: for number in 1..32u8 {
        if let Some(bis) = Bis::new(number) {
            put_stream(rows, asked, bis)?;
        }
    }
    Ok(())
}

/// Puts the note of a stream.
fn put_stream(rows: &mut Octets, asked: &Asked<'_>, bis: Bis) -> Result<(), Memory> {
    let Some(effective) = asked.base.effective(bis) else {
        return Ok(());
    };
    let is_taken = asked.taken.has(bis);
    let unmet = takes(asked.capability, asked.base, bis).err();
    let row = match unmet {
        None if is_taken => "is taken: a record fits, and the slot wants it",
        None => "is not taken: a record fits, but",
        Some(reason) => row_of(reason),
    };
    put_words(
        rows,
        b"  # stream",
        &[
            Word::Number(u64::from(bis.get())),
            Word::Text(b"of subgroup"),
            Word::Number(effective.subgroup as u64),
            Word::Text(row.as_bytes()),
        ],
    )?;
    match unmet {
        Some(reason) => put_values(rows, reason, &effective, asked.capability)?,
        None if is_taken => put_fitting(rows, &effective, asked.capability)?,
        None => put_unwanted(rows, asked, bis, effective.subgroup)?,
    }
    rows.push(b'\n')
}

/// The row of the match that is not met.
fn row_of(reason: NotTaken) -> &'static str {
    match reason {
        NotTaken::Codec => "is not taken: Codec: CODEC of its subgroup is not that of the record",
        NotTaken::Frequency =>
            "is not taken: Frequency: its sampling frequency is left out, or not among those of the record",
        NotTaken::Duration =>
            "is not taken: Duration: its frame duration is left out, or not among those of the record",
        NotTaken::FrameOctets =>
            "is not taken: FrameOctets: the octets of a frame are left out, or not from the least to the greatest of the record",
        NotTaken::Channels =>
            "is not taken: Channels: its number of channels is not among those of the record",
        NotTaken::FramesPerSdu =>
            "is not taken: FramesPerSdu: blocks x channels is above the frames of the record",
        NotTaken::Location =>
            "is not taken: Location: its locations and those of `locate` share no bit: another ear",
        NotTaken::Context =>
            "is not taken: Context: the contexts of `meta` and those of `context` share no bit",
    }
}
