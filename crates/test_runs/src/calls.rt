//! How often the outside is called, and when no more: at each end of a run, over a source that gives an octet a read. No read has
//! no room, none follows the end of the input or a fault, and none goes past what the answer needs. A sink or a box that refused
//! isn't called again.

ghost use Rattle.std.specs.Prelude.{◌-◌, ◌^◌, false, None};

use crate::running::{Ended, Kind, run_with};
use bcast_io::{ByteSink, ByteSource, Failed, SinkFault};
use std::alloc::Global;
use std::process::Abort;
use std::test::*;
use unit_outlets::{Outlet, OutletFault};

/// Two events, the first of which is heard: its unit is handed up and printed at line 9.
const TEXT: &str =
    "scenario 1\ngroup unframed 20000 40000 8 10000 4 4 1 1 1 1 0 0 0 1\nsink 0 1 1\nstart 0\ntuned 0 1\nunit 1 - 0a0b0c\nevent\nhear 0 0 1 0\nevent\nend\n";

/// What is refused: the read of this number, from 1, or the first write or unit, for this fault.
enum Refused {
    Nothing,
    Read(u64),
    Write(SinkFault),
    Take(OutletFault),
}

/// What is run, what is refused, how the run ends, how many reads are made, and how many units the box has then.
struct Run {
    name: &'static str,
    kind: Kind,
    text: &'static str,
    refused: Refused,
    ended: Ended,
    reads: u64,
    units: u64,
}

static RUNS: [Run; 14] = [
    Run {
        name: "to its end",
        kind: Kind::Lines,
        text: TEXT,
        refused: Refused::Nothing,
        ended: Ended::Done,
        reads: 141,
        units: 1,
    },
    Run {
        name: "a last line without its end",
        kind: Kind::Lines,
        text: "scenario 1\nend",
        refused: Refused::Nothing,
        ended: Ended::Done,
        reads: 15,
        units: 0,
    },
    Run {
        name: "no octet",
        kind: Kind::Lines,
        text: "",
        refused: Refused::Nothing,
        ended: Ended::Refused,
        reads: 1,
        units: 0,
    },
    Run {
        name: "without `end`",
        kind: Kind::Lines,
        text: "scenario 1\n",
        refused: Refused::Nothing,
        ended: Ended::Refused,
        reads: 12,
        units: 0,
    },
    Run {
        name: "refused at line 2",
        kind: Kind::Lines,
        text: "scenario 1\nscenario 1\nend\n",
        refused: Refused::Nothing,
        ended: Ended::Refused,
        reads: 22,
        units: 0,
    },
    Run {
        name: "refused at the first word",
        kind: Kind::Lines,
        text: "x\nscenario 1\nend\n",
        refused: Refused::Nothing,
        ended: Ended::Refused,
        reads: 2,
        units: 0,
    },
    Run {
        name: "a read fails",
        kind: Kind::Lines,
        text: TEXT,
        refused: Refused::Read(20),
        ended: Ended::ReadFault,
        reads: 20,
        units: 0,
    },
    Run {
        name: "the last read fails",
        kind: Kind::Lines,
        text: TEXT,
        refused: Refused::Read(141),
        ended: Ended::ReadFault,
        reads: 141,
        units: 1,
    },
    Run {
        name: "a write fails",
        kind: Kind::Lines,
        text: TEXT,
        refused: Refused::Write(SinkFault::Failed),
        ended: Ended::WriteFault,
        reads: 136,
        units: 1,
    },
    Run {
        name: "a write wants memory",
        kind: Kind::Lines,
        text: TEXT,
        refused: Refused::Write(SinkFault::Memory),
        ended: Ended::Memory,
        reads: 136,
        units: 1,
    },
    Run {
        name: "a box fails",
        kind: Kind::Lines,
        text: TEXT,
        refused: Refused::Take(OutletFault::Failed),
        ended: Ended::OutletFault,
        reads: 136,
        units: 0,
    },
    Run {
        name: "a box wants memory",
        kind: Kind::Lines,
        text: TEXT,
        refused: Refused::Take(OutletFault::Memory),
        ended: Ended::Memory,
        reads: 136,
        units: 0,
    },
    Run {
        name: "migrated",
        kind: Kind::Migration,
        text: TEXT,
        refused: Refused::Nothing,
        ended: Ended::Done,
        reads: 141,
        units: 0,
    },
    Run {
        name: "migrated until a read fails",
        kind: Kind::Migration,
        text: TEXT,
        refused: Refused::Read(20),
        ended: Ended::ReadFault,
        reads: 20,
        units: 0,
    },
];

/// A source that gives a text, an octet a read, and fails at one read. It counts its reads, and those that have no room or come
/// behind its end or a fault. It tells no content, and its count of faults stands at its last value.
#[derive(Clone, Copy)]
struct WatchedSource {
    text: &'static str,
    fails_at: u64,
    given: usize,
    reads: u64,
    misplaced: u64,
    is_over: bool,
}

impl WatchedSource {
    fn new(text: &'static str, refused: &Refused) -> WatchedSource {
        let fails_at = match refused {
            Refused::Read(call) => *call,
            _ => 0,
        };
        WatchedSource {
            text,
            fails_at,
            given: 0,
            reads: 0,
            misplaced: 0,
            is_over: false,
        }
    }

    /// Counts a read.
    fn count(&mut self, has_room: bool) {
        self.reads = self.reads.saturating_add(1);
        if self.is_over || !has_room {
            self.misplaced = self.misplaced.saturating_add(1);
        }
    }

    /// The next octet; `None` at the end.
    fn next(&mut self) -> Option<u8> {
        let octet = self.text.as_bytes().get(self.given).copied();
        self.is_over = octet.is_none();
        self.given = self.given.saturating_add(1);
        octet
    }
}

impl ByteSource for WatchedSource {
    ghost faults = { λ _. 2 ^ 64 - 1 };

    fn read(&mut self, into: &mut [u8]) -> Result<usize, Failed> {
        self.count(!into.is_empty());
        if self.reads == self.fails_at {
            self.is_over = true;
            return Err(Failed);
        }
        let Some(place) = into.first_mut() else {
            return Ok(0);
        };
        match self.next() {
            Some(octet) => {
                *place = octet;
                Ok(1)
            }
            None => Ok(0),
        }
    }
}

/// A sink that counts its calls, and refuses the first one for this fault, where there is one. It tells no content, and its count of
/// faults stands at its last value.
#[derive(Clone, Copy)]
struct WatchedSink {
    refuses: Option<SinkFault>,
    calls: u64,
}

impl WatchedSink {
    fn new(refused: &Refused) -> WatchedSink {
        let refuses = match refused {
            Refused::Write(fault) => Some(*fault),
            _ => None,
        };
        WatchedSink { refuses, calls: 0 }
    }
}

impl ByteSink for WatchedSink {
    ghost faults = { λ _. 2 ^ 64 - 1 };

    fn write(&mut self, from: &[u8]) -> Result<usize, SinkFault> {
        self.calls = self.calls.saturating_add(1);
        match self.refuses {
            Some(fault) if self.calls == 1 => Err(fault),
            _ => Ok(from.len()),
        }
    }
}

/// A box that refuses its first unit for this fault, where there is one, and takes each later one: so its count tells whether it is
/// called again. Its count of faults stands at its last value.
#[derive(Drop)]
struct WatchedBox {
    refuses: Option<OutletFault>,
    calls: u64,
    units: u64,
    octets: u64,
}

impl WatchedBox {
    fn new(refused: &Refused) -> WatchedBox {
        let refuses = match refused {
            Refused::Take(fault) => Some(*fault),
            _ => None,
        };
        WatchedBox {
            refuses,
            calls: 0,
            units: 0,
            octets: 0,
        }
    }
}

impl Outlet for WatchedBox {
    ghost account = { λ b. record {
      units = b.units;
      octets = b.octets;
      faults = 2 ^ 64 - 1;
      is_sound = false;
      greatest = 0;
      kept = None;
    } };

    fn take(&mut self, octets: &[u8]) -> Result<(), OutletFault> {
        self.calls = self.calls.saturating_add(1);
        let (Some(units), Some(sum)) = (
            self.units.checked_add(1),
            self.octets.checked_add(octets.len() as u64),
        ) else {
            return Err(OutletFault::Failed);
        };
        match self.refuses {
            Some(fault) if self.calls == 1 => Err(fault),
            _ => {
                self.units = units;
                self.octets = sum;
                Ok(())
            }
        }
    }

    fn units(&self) -> u64 {
        self.units
    }

    fn octets(&self) -> u64 {
        self.octets
    }
}

/// Whether the only box took so many units.
fn has_units(outlets: &Vec<Box<dyn Outlet>>, units: u64) -> bool {
    match outlets.as_slice() {
        [watched] => watched.units() == units,
        _ => false,
    }
}

/// Whether a run over these boxes ends as it is to, calls what it is to call, and nothing behind that.
fn ends_into(alloc: Global, run: &Run, outlets: &mut Vec<Box<dyn Outlet>>) -> bool {
    let mut source = WatchedSource::new(run.text, &run.refused);
    let mut sink = WatchedSink::new(&run.refused);
    let ended = run_with(alloc, run.kind, &mut source, &mut sink, outlets);
    ended == run.ended
        && source.reads == run.reads
        && source.misplaced == 0
        && (sink.refuses.is_none() || sink.calls == 1)
        && has_units(outlets, run.units)
}

/// The same with a box of its own.
fn ends_so(alloc: Global, run: &Run) -> bool {
    let mut outlets: Vec<Box<dyn Outlet>> = Vec::new(alloc);
    match Box::new(alloc, WatchedBox::new(&run.refused)) {
        Ok(watched) => outlets.push(watched).is_ok() && ends_into(alloc, run, &mut outlets),
        Err(_) => false,
    }
}

#[test]
fn each_run_reads_what_its_end_needs_and_calls_nothing_that_refused(rt: HostRuntime) {
    for run in &RUNS {
        assert!(rt; ends_so(rt.alloc(), run), "{}", run.name);
    }
}
