//! Each call of the outside fails in turn, in a whole life of a sink.

use crate::running::{Ended, Kind, Run, ends_so, is_listed, put_failing, put_tally, run_with};
use bcast_base::{Calls, Octets};
use bcast_io::{MemorySink, MemorySource};
use std::alloc::Global;
use unit_outlets::Outlet;

/// A source is announced, added, followed, heard, ended and removed.
const WHOLE_LIFE: &str =
    "scenario 1\ngroup unframed 20000 40000 8 10000 4 4 1 1 1 1 0 0 0 1\nident 0 665544332211 3 563412\nsubgroup ff01000200 -\nbis 1 -\nsink 0 1 1\npac 0 ff01000200 - -\nstart 0\nadd 0 0 665544332211 3 563412 2 65535 ffffffff -\nserve 0\nannounce 0\nremove 0 0\nserve 0\nunit 1 - aa\nevent\nair 0 0\nterminate 19\ncontrol 0 030401130100\ndrain 0\nshow 0\nmodify 0 0 0 65535\nremove 0 0\ndrain 0\nshow 0\ndrop 0\nend\n";

/// Its transcript.
const WHOLE_LIFE_TRANSCRIPT: &str =
    "reply 0 ok\ntrain 0 17000 06165218563412 11165118409c000101ff0100020000000100 222c6400040821000000000010040000000000102740000000ffffffff3f0000000000\nsink 0 OnGroup 1\nreply 0 fc StillSynced\nunit 0 1 at 60060 valid 1 aa\ncontrol 030401130100\nsink 0 Left\nnotice 0 0 0000665544332211035634120000010000000000\nnotice 0 0 0000665544332211035634120200010100000000\nnotice 0 0 0000665544332211035634120200010000000000\nstate 0 0 0000665544332211035634120200010000000000\nview 0 0 0000665544332211035634120200010000000000\nreply 0 ok\nreply 0 ok\nnotice 0 0 000066554433221103563412000000\nnotice 0 0 -\nstate 0 0 -\nview 0 0 -\nsum 0 1 1\n";

/// Sink 0 relays a stream of source 0 to one of source 1 that takes no unit of more than two octets, and sink 1 hears the stream too. The
/// box of sink 1 refuses its unit; what comes before that is written.
static DROPPED: Run = Run {
    kind: Kind::Lines,
    text: "scenario 2\ngroup unframed 20000 40000 8 10000 4 4 1 1 1 1 0 0 0 1\nsource 1\ngroup framed 70000 40000 8 10884 2 10 1 2 2 1 0 400 0 1\nident 0 000000000000 1 000000\nstart 0\nsource 0\nstart 0\nsink 0 1 1\nsink 1 1 1\ntuned 0 1\ntuned 1 1\nrelay 0 1 1\nunit 1 - aabbcc\nevent\nair 0 0\nair 1 0\nevent\nevent\nend\n",
    ended: Ended::OutletFault,
    transcript: "unit 0 1 at 60060 valid 3 aabbcc\nrelay 0 1 dropped UnitTooLong\n",
};

/// More calls than a whole life makes.
const MANY: u64 = 100;

/// What fails.
#[derive(Clone, Copy, PartialEq, Eq)]
enum Failing {
    Reads,
    Writes,
    Takes,
}

/// Whether a run may end so with what was written: a prefix of the transcript, and all of it at the end.
fn may_end(ended: Ended, written: &[u8]) -> bool {
    let transcript = WHOLE_LIFE_TRANSCRIPT.as_bytes();
    if ended == Ended::Done {
        written == transcript
    } else {
        transcript.starts_with(written)
    }
}

/// How the whole life ends between a source and a sink. `None` where something else was written.
fn end_between(
    alloc: Global,
    source: &mut MemorySource,
    sink: &mut MemorySink,
    outlets: &mut Vec<Box<dyn Outlet>>,
) -> Option<Ended> {
    let ended = run_with(alloc, Kind::Lines, source, sink, outlets);
    if may_end(ended, sink.taken()) {
        Some(ended)
    } else {
        None
    }
}

/// The same where this call fails, by the source and the sink.
fn end_into(
    alloc: Global,
    failing: Failing,
    call: u64,
    outlets: &mut Vec<Box<dyn Outlet>>,
) -> Option<Ended> {
    let mut octets = Octets::new(alloc);
    let mut reads = Calls::new(alloc);
    let mut writes = Calls::new(alloc);
    if octets.append(WHOLE_LIFE.as_bytes()).is_err()
        || !is_listed(&mut reads, failing == Failing::Reads, call)
        || !is_listed(&mut writes, failing == Failing::Writes, call)
    {
        return None;
    }
    let mut source = MemorySource::new(octets, 64, reads);
    let mut sink = MemorySink::new(alloc, 16, writes);
    end_between(alloc, &mut source, &mut sink, outlets)
}

/// The same, by the box too.
fn end_of(alloc: Global, failing: Failing, call: u64) -> Option<Ended> {
    let mut outlets: Vec<Box<dyn Outlet>> = Vec::new(alloc);
    if !put_failing(alloc, &mut outlets, failing == Failing::Takes, call) {
        return None;
    }
    end_into(alloc, failing, call, &mut outlets)
}

/// Whether the run ends so where the first call fails, the second, and so on until one makes no such call.
fn each_ends_with(alloc: Global, failing: Failing, end: Ended) -> bool {
    'calls: for call in 1..MANY {
        match end_of(alloc, failing, call) {
            Some(Ended::Done) => return call > 1,
            Some(ended) if ended == end => continue 'calls,
            _ => return false,
        }
    }
    false
}

#[test]
fn each_call_that_fails_is_a_fault_of_its_own(rt: HostRuntime) {
    assert!(rt;
        each_ends_with(rt.alloc(), Failing::Reads, Ended::ReadFault)
            && each_ends_with(rt.alloc(), Failing::Writes, Ended::WriteFault)
            && each_ends_with(rt.alloc(), Failing::Takes, Ended::OutletFault)
    );
}

/// Whether the unit of sink 1 is refused behind what the relay dropped.
fn is_refused_behind_the_relay(alloc: Global) -> bool {
    let mut outlets: Vec<Box<dyn Outlet>> = Vec::new(alloc);
    put_tally(alloc, &mut outlets)
        && put_failing(alloc, &mut outlets, true, 1)
        && ends_so(alloc, &DROPPED, &mut outlets)
}

#[test]
fn what_a_relay_drops_comes_before_a_refused_unit(rt: HostRuntime) {
    assert!(rt; is_refused_behind_the_relay(rt.alloc()));
}
