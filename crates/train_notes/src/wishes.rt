//! The writes that wait on the links of sinks, and which streams the slots want.
ghost use Rattle.std.specs.Prelude.{◌<◌, vec_len, IfSome};

use crate::slots::identity_of;
use crate::trains::Identity;
use crate::words::digit_of;
use bass_operations::{AddSource, ModifySource, OpFault, Operation, Wishes, decode_operation};
use bcast_base::{Memory, Octets};
use note_parts::put_note;
use refusal_notes::word_at;
use replay_steps::Machine;
use scenario_text::Step;
use scenario_words::Word;
use std::alloc::Global;

/// What a write is for.
#[derive(Clone, Copy)]
enum Meant {
    /// An Add Source: a train.
    Train(Identity),
    /// A Modify Source: the slot with this Source_ID.
    Source(u8),
}

/// What a write wants.
#[derive(Drop)]
struct Asked {
    of: Meant,
    wishes: Wishes,
}

/// A write that waits on a link of a sink.
#[derive(Drop)]
struct Waiting {
    sink: u8,
    link: u8,
    asked: Option<Asked>,
}

/// What a slot of a sink wants of a train.
#[derive(Drop)]
struct Wanted {
    sink: u8,
    train: Identity,
    wishes: Wishes,
}

/// What waits and what is wanted, by the lines that were run.
#[derive(Drop)]
pub(crate) struct Wants {
    alloc: Global,
    waiting: Vec<Waiting>,
    wanted: Vec<Wanted>,
}

impl Wants {
    /// Nothing.
    pub(crate) fn new(alloc: Global) -> Wants {
        Wants {
            alloc,
            waiting: Vec::new(alloc),
            wanted: Vec::new(alloc),
        }
    }

    /// Where the first write that waits on a link stands.
    fn place_of(&self, sink: u8, link: u8) -> Option<usize>
        ensures { IfSome result (λ place. place < vec_len self.now.waiting) }
    {
        self.waiting
            .iter()
            .position(|write| write.sink == sink && write.link == link)
    }

    /// Where that stands which a sink wants of a train.
    fn place_for(&self, sink: u8, train: Identity) -> Option<usize>
        ensures { IfSome result (λ place. place < vec_len self.now.wanted) }
    {
        self.wanted
            .iter()
            .position(|wanted| wanted.sink == sink && wanted.train.is(train))
    }

    /// What a sink wants of a train, where a slot does.
    pub(crate) fn wanted(&self, sink: u8, train: Identity) -> Option<&Wishes> {
        let place = self.place_for(sink, train)?;
        Some(&self.wanted[place].wishes)
    }

    /// Notes a step that was made.
    pub(crate) fn made(&mut self, step: Step) -> Result<(), Memory> {
        match step {
            Step::Add { sink, op } => self.wait(sink, 0, Some(asked_by_add(op))),
            Step::Modify { sink, op } => self.wait(sink, 0, Some(asked_by_modify(op))),
            Step::Remove { sink, .. } | Step::Code { sink, .. } => self.wait(sink, 0, None),
            Step::Write { sink, octets } => self.write(sink, 0, octets.as_slice()),
            Step::AWrite { sink, link, octets } => self.write(sink, link, octets.as_slice()),
            Step::Apart { sink, link } => {
                self.part(sink, link);
                Ok(())
            }
            _ => Ok(()),
        }
    }

    /// A write waits.
    fn wait(&mut self, sink: u8, link: u8, asked: Option<Asked>) -> Result<(), Memory> {
        match self.waiting.push(Waiting { sink, link, asked }) {
            Ok(()) => Ok(()),
            Err(_) => Err(Memory),
        }
    }

    /// A write of these octets waits.
    fn write(&mut self, sink: u8, link: u8, octets: &[u8]) -> Result<(), Memory> {
        match decode_operation(self.alloc, octets) {
            Ok(Operation::Add(op)) => self.wait(sink, link, Some(asked_by_add(op))),
            Ok(Operation::Modify(op)) => self.wait(sink, link, Some(asked_by_modify(op))),
            Ok(_) => self.wait(sink, link, None),
            Err(OpFault::Memory) => Err(Memory),
            Err(_) => self.wait(sink, link, None),
        }
    }

    /// Nothing waits on a link any more.
    fn part(&mut self, sink: u8, link: u8) {
        'writes: for _ in 0..self.waiting.len() {
            match self.place_of(sink, link) {
                Some(place) => drop(self.waiting.remove(place)),
                None => break 'writes,
            }
        }
    }

    /// A sink lives no more.
    pub(crate) fn drop_sink(&mut self, sink: u8) {
        'links: for link in 0..4u8 {
            self.part(sink, link);
        }
        'wanted: for _ in 0..self.wanted.len() {
            match self.wanted.iter().position(|wanted| wanted.sink == sink) {
                Some(place) => drop(self.wanted.remove(place)),
                None => break 'wanted,
            }
        }
    }
}

impl Wants {
    /// Notes that a write was served, where a row of the transcript says so: what it wants counts from then on.
    pub(crate) fn served(&mut self, machine: &Machine, row: &[u8]) -> Result<(), Memory> {
        let Some(reply) = reply_in(row) else {
            return Ok(());
        };
        let Some(place) = self.place_of(reply.sink, reply.link) else {
            return Ok(());
        };
        let write = self.waiting.remove(place);
        match write.asked {
            Some(asked) if reply.is_ok => self.want(machine, reply.sink, asked),
            _ => Ok(()),
        }
    }

    /// A sink wants this from now on.
    fn want(&mut self, machine: &Machine, sink: u8, asked: Asked) -> Result<(), Memory> {
        let train = match asked.of {
            Meant::Train(train) => train,
            Meant::Source(source_id) => {
                match identity_of(self.alloc, machine, sink, source_id)? {
                    Some(train) => train,
                    None => return Ok(()),
                }
            }
        };
        if let Some(place) = self.place_for(sink, train) {
            drop(self.wanted.remove(place));
        }
        let wanted = Wanted {
            sink,
            train,
            wishes: asked.wishes,
        };
        match self.wanted.push(wanted) {
            Ok(()) => Ok(()),
            Err(_) => Err(Memory),
        }
    }

    /// Puts how many writes wait on each link of a sink.
    pub(crate) fn put_waiting(&self, rows: &mut Octets, sink: u8) -> Result<(), Memory> {
        'links: for link in 0..4u8 {
            let count = self.count_of(sink, link);
            if count > 0 {
                put_count(rows, count, link)?;
            }
        }
        Ok(())
    }

    /// How many writes wait on a link.
    fn count_of(&self, sink: u8, link: u8) -> u64 {
        let mut count: u64 = 0;
        for write in &self.waiting {
            if write.sink == sink && write.link == link {
                count = count.saturating_add(1);
            }
        }
        count
    }
}

/// Puts that so many writes wait.
fn put_count(rows: &mut Octets, count: u64, link: u8) -> Result<(), Memory> {
    let wait: &'static [u8] = if count == 1 {
        b"write waits on link"
    } else {
        b"writes wait on link"
    };
    let taken: &'static [u8] = if link == 0 {
        b"for `serve` or `drain`"
    } else {
        b"for `aserve` or `adrain`"
    };
    put_note(
        rows,
        &[
            Word::Number(count),
            Word::Text(wait),
            Word::Number(u64::from(link)),
            Word::Text(taken),
        ],
    )
}

/// What an Add Source asks for.
fn asked_by_add(op: AddSource) -> Asked {
    Asked {
        of: Meant::Train(Identity::of(op.address_type, op.sid, op.broadcast_id)),
        wishes: op.wishes,
    }
}

/// What a Modify Source asks for.
fn asked_by_modify(op: ModifySource) -> Asked {
    Asked {
        of: Meant::Source(op.source_id),
        wishes: op.wishes,
    }
}

/// What a row tells of a write that was served.
#[derive(Clone, Copy)]
struct Reply {
    sink: u8,
    link: u8,
    is_ok: bool,
}

/// The reply of a row that tells one: `reply N ok`, or `areply N L ok`.
fn reply_in(row: &[u8]) -> Option<Reply> {
    let (link, place) = if row.starts_with(b"reply ") {
        (0, 2)
    } else if row.starts_with(b"areply ") {
        (digit_of(word_at(row, 2)?), 3)
    } else {
        return None;
    };
    Some(Reply {
        sink: digit_of(word_at(row, 1)?),
        link,
        is_ok: word_at(row, place) == Some(b"ok".as_slice()),
    })
}
