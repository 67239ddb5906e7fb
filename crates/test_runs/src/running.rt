//! A run of each kind, and how it ended.

use bcast_base::{Calls, Octets};
use bcast_io::{ByteSink, ByteSource, FaithfulSink, FaithfulSource};
use replay_generated::{Outcome, run_generated};
use replay_lines::{Cause, Ending, run_text, run_toml};
use replay_migration::{Migration, run_migration};
use std::alloc::Global;
use unit_outlets::{FailingTally, Outlet, Tally};

/// What is run.
#[derive(Clone, Copy)]
pub enum Kind {
    /// The lines of the text.
    Lines,
    /// The lines that the text stands for, a document in TOML.
    Document,
    /// The text is migrated.
    Migration,
    /// The lines of the generator, of seed 1 and five events.
    Generated,
}

/// How a run ended.
#[derive(Clone, Copy, PartialEq, Eq)]
pub enum Ended {
    Done,
    Refused,
    ReadFault,
    WriteFault,
    OutletFault,
    Memory,
}

fn of_lines(ending: Ending) -> Ended {
    match ending {
        Ending::Done => Ended::Done,
        Ending::Refused { .. } => Ended::Refused,
        Ending::ReadFault => Ended::ReadFault,
        Ending::WriteFault => Ended::WriteFault,
        Ending::OutletFault => Ended::OutletFault,
        Ending::Memory => Ended::Memory,
    }
}

fn of_document(ended: Result<Ending, Cause>) -> Ended {
    match ended {
        Ok(ending) => of_lines(ending),
        Err(_) => Ended::Refused,
    }
}

fn of_migration(migration: Migration) -> Ended {
    match migration {
        Migration::Done => Ended::Done,
        Migration::TooLong { .. } => Ended::Refused,
        Migration::ReadFault => Ended::ReadFault,
        Migration::WriteFault => Ended::WriteFault,
        Migration::Memory => Ended::Memory,
    }
}

fn of_generator(outcome: Outcome) -> Ended {
    match outcome {
        Outcome::Done => Ended::Done,
        Outcome::Refused { .. } => Ended::Refused,
        Outcome::OutletFault => Ended::OutletFault,
        Outcome::WriteFault => Ended::WriteFault,
        Outcome::Memory => Ended::Memory,
    }
}

/// Runs what the source gives, or the generator, for tests that ask only what it does.
pub fn run_with<S: ByteSource, K: ByteSink>(
    alloc: Global,
    kind: Kind,
    source: &mut S,
    sink: &mut K,
    outlets: &mut Vec<Box<dyn Outlet>>,
) -> Ended {
    match kind {
        Kind::Lines => of_lines(run_text(alloc, source, sink, outlets)),
        Kind::Document => of_document(run_toml(alloc, source, sink, outlets)),
        Kind::Migration => of_migration(run_migration(alloc, source, sink)),
        Kind::Generated => of_generator(run_generated(alloc, 1, 5, sink, outlets)),
    }
}

/// Puts a box that takes each unit behind the others: whether there was memory for it.
pub fn put_tally(alloc: Global, outlets: &mut Vec<Box<dyn Outlet>>) -> bool {
    match Box::new(alloc, Tally::new()) {
        Ok(tally) => outlets.push(tally).is_ok(),
        Err(_) => false,
    }
}

/// Lists this call where it is to fail: whether there was memory for it.
pub fn is_listed(calls: &mut Calls, fails: bool, call: u64) -> bool {
    !fails || calls.push(call).is_ok()
}

/// Puts a box behind the others that fails at this call, or never where it isn't to fail.
pub fn put_failing(
    alloc: Global,
    outlets: &mut Vec<Box<dyn Outlet>>,
    fails: bool,
    call: u64,
) -> bool {
    let mut takes = Calls::new(alloc);
    if !is_listed(&mut takes, fails, call) {
        return false;
    }
    match Box::new(alloc, FailingTally::new(takes)) {
        Ok(tally) => outlets.push(tally).is_ok(),
        Err(_) => false,
    }
}

/// A run: its kind and its text, how it ends, and what it writes.
pub struct Run {
    pub kind: Kind,
    pub text: &'static str,
    pub ended: Ended,
    pub transcript: &'static str,
}

/// Whether a run over these boxes ends so.
pub fn ends_so(alloc: Global, run: &Run, outlets: &mut Vec<Box<dyn Outlet>>) -> bool {
    let Ok(octets) = Octets::copy(alloc, run.text.as_bytes()) else {
        return false;
    };
    let mut source = FaithfulSource::new(octets, 64);
    let mut sink = FaithfulSink::new(alloc);
    let ended = run_with(alloc, run.kind, &mut source, &mut sink, outlets);
    ended == run.ended && sink.taken() == run.transcript.as_bytes()
}
