//! Sources and sinks that fail at one call and go on behind it.
use bcast_base::{Calls, Octets};
use bcast_io::{Failed, LineRead, LineReader, MemorySink, MemorySource, SinkFault, write_whole};
use std::alloc::Global;

/// The list of this call alone.
fn calls(alloc: Global, number: u64) -> Option<Calls> {
    let mut calls = Calls::new(alloc);
    match calls.push(number) {
        Ok(()) => Some(calls),
        Err(_) => None,
    }
}

/// Whether the third write of a sink fails, and the next one is taken.
fn fails_once(sink: &mut MemorySink) -> bool {
    write_whole(sink, b"abcd") == Ok(())
        && write_whole(sink, b"ef") == Err(SinkFault::Failed)
        && write_whole(sink, b"gh") == Ok(())
        && sink.taken() == &b"abcdgh"[..]
}

#[test]
fn a_memory_sink_fails_at_its_call_alone(rt: HostRuntime) {
    let calls = calls(rt.alloc(), 3).expect(&rt, "the calls");
    let mut sink = MemorySink::new(rt.alloc(), 3, calls);
    assert!(rt; fails_once(&mut sink));
}

/// Whether the next line is this one.
fn reads(reader: &mut LineReader, source: &mut MemorySource, line: &[u8]) -> bool {
    match reader.next_line(source) {
        Ok(LineRead::Line) => reader.line() == line,
        _ => false,
    }
}

/// Whether the lines of a text come in order, a call that fails among them.
fn reads_its_lines(reader: &mut LineReader, source: &mut MemorySource) -> bool {
    reads(reader, source, b"one")
        && reader.next_line(source) == Err(Failed)
        && reads(reader, source, b"two")
        && reads(reader, source, b"three")
        && reader.next_line(source) == Ok(LineRead::End)
}

#[test]
fn a_line_that_a_fault_cut_goes_on(rt: HostRuntime) {
    let octets = Octets::copy(rt.alloc(), b"one\ntwo\nthree").expect(&rt, "the octets");
    let calls = calls(rt.alloc(), 3).expect(&rt, "the calls");
    let mut source = MemorySource::new(octets, 3, calls);
    let mut reader = LineReader::new(rt.alloc()).expect(&rt, "a reader");
    assert!(rt; reads_its_lines(&mut reader, &mut source));
}
