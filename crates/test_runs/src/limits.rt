//! How often a source without an end is read.

ghost use Rattle.std.specs.Prelude.{◌≤◌};

use crate::running::{Ended, Kind, run_with};
use bcast_base::Octets;
use bcast_io::{ByteSource, EndlessSource, Failed, FaithfulSink};
use std::alloc::Global;
use unit_outlets::Outlet;

/// A source without an end that counts its reads.
#[derive(Drop)]
struct Counting {
    source: EndlessSource,
    reads: u64,
}

impl ByteSource for Counting {
    ghost faults = { λ _. 0 };

    fn read(&mut self, into: &mut [u8]) -> Result<usize, Failed> {
        self.reads = self.reads.saturating_add(1);
        self.source.read(into)
    }
}

/// Puts a comment of 8,191 octets, without its end, behind these: whether there was memory for it.
fn put_comment(line: &mut Octets) -> bool {
    if line.push(b'#').is_err() {
        return false;
    }
    'octets: for _ in 0..8_190 {
        if line.push(b'x').is_err() {
            return false;
        }
    }
    true
}

/// How often a text of such lines, which has no end, is read, so many octets a call, until the run refuses them so.
fn reads_of(alloc: Global, kind: Kind, piece: usize, refused: &str) -> Option<u64>
    requires { 1 ≤ piece }
{
    let mut line = Octets::new(alloc);
    if !put_comment(&mut line) {
        return None;
    }
    let Ok(()) = line.push(b'\n') else {
        return None;
    };
    let mut source = Counting {
        source: EndlessSource::new(line, piece),
        reads: 0,
    };
    let mut sink = FaithfulSink::new(alloc);
    let mut outlets: Vec<Box<dyn Outlet>> = Vec::new(alloc);
    let ended = run_with(alloc, kind, &mut source, &mut sink, &mut outlets);
    if ended == Ended::Refused && sink.taken() == refused.as_bytes() {
        Some(source.reads)
    } else {
        None
    }
}

#[test]
fn a_text_without_end_is_read_up_to_its_limit(rt: HostRuntime) {
    let refused = "line 8193: TextTooLong\n";
    assert!(rt; reads_of(rt.alloc(), Kind::Lines, 4_096, refused) == Some(16_385));
    assert!(rt; reads_of(rt.alloc(), Kind::Lines, 1, refused) == Some(67_108_865));
}

#[test]
fn a_document_is_read_in_as_few_reads_as_its_source_allows(rt: HostRuntime) {
    assert!(rt; reads_of(rt.alloc(), Kind::Document, 4_096, "line 0: TextTooLong\n") == Some(257));
}
