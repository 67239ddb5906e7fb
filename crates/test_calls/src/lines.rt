//! Lines that are read and written.
use scenario_lines::{LineFault, read_line, read_line_in, write_line};
use scenario_text::Step;
use std::alloc::Global;

// A line of each kind, out of the worked scenarios, and lines of more words. Pairs stand in their order.
static LINES: [&[u8]; 49] = [
    b"scenario 2",
    b"group unframed 20000 40000 8 10000 100 100 2 1 3 2 1 600 1800 1",
    b"ident 0 000000000000 1 000000",
    b"subgroup ff01000200 -",
    b"meta 03020400",
    b"bis 1 -",
    b"cipher 0102030405060708 11111111111111111111111111111111",
    b"start 0",
    b"sink 0 1 1",
    b"pac 0 ff01000200 - -",
    b"locate 0 01000000",
    b"context 0 0400 0000",
    b"tuned 0 1 2",
    b"unit 1 - 00",
    b"event",
    b"hear 0 0 1 0",
    b"air 0 0",
    b"inject 0 0 1 0 00",
    b"sniff 0 1 0",
    b"announce 0",
    b"train 0 17000 - - -",
    b"write 0 -",
    b"add 0 0 665544332211 3 563412 2 65535 ffffffff -",
    b"modify 0 0 0 65535",
    b"remove 0 0",
    b"code 0 0 00000000000000000000000000000000",
    b"serve 0",
    b"tell 0",
    b"read 0",
    b"drain 0",
    b"show 0",
    b"lose 0",
    b"drop 0",
    b"terminate 19",
    b"control 0 030401130100",
    b"forge 0 0 -",
    b"end",
    b"assist 0 1",
    b"apart 0 1",
    b"awrite 0 1 0200",
    b"aserve 0 1",
    b"atell 0 1",
    b"aread 0 1",
    b"adrain 0 1",
    b"ashow 0 1",
    b"source 0",
    b"relay 0 1 1",
    b"sink 7 31 8 517",
    b"modify 0 255 2 0 01000000 - 06000000 0304aa",
];

/// What a line is to be read as: a step that is written so, or a unit of these octets.
#[derive(Clone, Copy)]
enum Wanted<'a> {
    Text(&'a [u8]),
    Unit(&'a [u8]),
}

fn is_written(alloc: Global, step: &Step, wanted: &[u8]) -> bool {
    if !step.fits() {
        return false;
    }
    match write_line(alloc, step) {
        Ok(text) => text.as_slice() == wanted,
        Err(_) => false,
    }
}

fn is_unit(step: &Step, wanted: &[u8]) -> bool {
    match step {
        Step::Unit { bis, time, octets } => {
            bis.get() == 31 && *time == Some(60_060) && octets.as_slice() == wanted
        }
        _ => false,
    }
}

impl Wanted<'_> {
    fn is_met(&self, alloc: Global, step: &Step) -> bool {
        match self {
            Wanted::Text(text) => is_written(alloc, step, text),
            Wanted::Unit(octets) => is_unit(step, octets),
        }
    }
}

fn is_wanted(alloc: Global, read: Result<Option<Step>, LineFault>, wanted: &Wanted) -> bool {
    match &read {
        Ok(Some(step)) => wanted.is_met(alloc, step),
        _ => false,
    }
}

// Digits of either case are written in lower case.
#[test]
fn a_line_that_is_read_is_written_back(rt: HostRuntime) {
    for line in &LINES {
        assert!(rt;
            is_wanted(
                rt.alloc(),
                read_line_in(rt.alloc(), 2, line),
                &Wanted::Text(line)
            )
        );
    }
    let read = read_line_in(rt.alloc(), 2, b"unit 31 60060 0A0b");
    assert!(rt; is_wanted(rt.alloc(), read, &Wanted::Text(b"unit 31 60060 0a0b")));
}

// A unit is read in version 1.
#[test]
fn a_unit_is_read_with_ample_memory(rt: HostRuntime) {
    let read = read_line(rt.alloc(), b"unit 31 60060 0A0b");
    assert!(rt; is_wanted(rt.alloc(), read, &Wanted::Unit(&[0x0a, 0x0b])));
}
