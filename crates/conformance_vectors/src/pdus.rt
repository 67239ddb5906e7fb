//! PDUs: a framed unit over two of them, fragments, faults and control payloads.
use iso_pdu::{
    Control, ControlFault, FramedPdu, Pdu, PduFault, Segment, read_control, read_pdu, write_end,
    write_fragment, write_terminate,
};

// A unit of 8 octets, 5000 µs before its event, over two PDUs with room for 10 octets.
const START: [u8; 12] = [2, 10, 0, 8, 0x88, 0x13, 0, 0xd0, 0xd1, 0xd2, 0xd3, 0xd4];

const REST: [u8; 7] = [2, 5, 3, 3, 0xd5, 0xd6, 0xd7];

// Whether a PDU has one segment alone, the start of a unit that goes on.
fn starts(octets: &[u8], offset: u32, octets_of_unit: &[u8]) -> bool {
    let Ok(Pdu::Framed(mut segments)) = read_pdu(octets, 10) else {
        return false;
    };
    match segments.next() {
        Some(
            Segment::Start {
                time_offset,
                complete: false,
                part,
            },
        ) => time_offset == offset && part == octets_of_unit && segments.next().is_none(),
        _ => false,
    }
}

// Whether a PDU has one segment alone, the end of a unit.
fn ends(octets: &[u8], octets_of_unit: &[u8]) -> bool {
    let Ok(Pdu::Framed(mut segments)) = read_pdu(octets, 10) else {
        return false;
    };
    match segments.next() {
        Some(
            Segment::More {
                complete: true,
                part,
            },
        ) => { part == octets_of_unit && segments.next().is_none() }
        _ => false,
    }
}

#[test]
fn segments_of_a_unit_over_two_pdus(rt: HostRuntime) {
    assert!(rt; starts(&START, 5000, &[0xd0, 0xd1, 0xd2, 0xd3, 0xd4]));
    assert!(rt; ends(&REST, &[0xd5, 0xd6, 0xd7]));
}

#[test]
fn a_unit_over_two_pdus_is_written(rt: HostRuntime) {
    let mut into = [0; 253];
    let mut first = FramedPdu::new(10);
    first.put_start(5000, false, &[0xd0, 0xd1, 0xd2, 0xd3, 0xd4]);
    let len = first.write(&mut into);
    assert!(rt; &into[..len] == START.as_slice());

    let mut second = FramedPdu::new(10);
    second.put_more(true, &[0xd5, 0xd6, 0xd7]);
    let len = second.write(&mut into);
    assert!(rt; &into[..len] == REST.as_slice());
}

#[test]
fn fragments_are_written(rt: HostRuntime) {
    let mut into = [0; 253];
    let len = write_fragment(&[0x11, 0x12, 0x13, 0x14], &mut into);
    assert!(rt; &into[..len] == [1, 4, 0x11, 0x12, 0x13, 0x14].as_slice());
    let len = write_end(&[0xee], &mut into);
    assert!(rt; &into[..len] == [0, 1, 0xee].as_slice());
}

// Octets that are no PDU of at most so many octets, and the fault of each.
static REFUSED: [(&[u8], u8, PduFault); 7] = [
    (&[0], 4, PduFault::Short),
    (&[0, 2, 0xee], 4, PduFault::LengthDiffers),
    (&[2, 5, 0xaa], 10, PduFault::LengthDiffers),
    (
        &[2, 11, 0, 0, 0, 0, 0, 0, 0, 0, 0, 0, 0],
        10,
        PduFault::TooLong,
    ),
    (&[2, 1, 0], 10, PduFault::SegmentShort { place: 0 }),
    (&[2, 2, 1, 5], 10, PduFault::SegmentShort { place: 0 }),
    (
        &[2, 4, 0, 2, 0xaa, 0xbb],
        10,
        PduFault::SegmentNoOffset { place: 0 },
    ),
];

fn has_fault(octets: &[u8], max_pdu: u8, wanted: PduFault) -> bool {
    match read_pdu(octets, max_pdu) {
        Ok(_) => false,
        Err(fault) => fault == wanted,
    }
}

#[test]
fn octets_that_are_no_pdu_have_their_fault(rt: HostRuntime) {
    for (octets, max_pdu, fault) in &REFUSED {
        assert!(rt; has_fault(octets, *max_pdu, *fault));
    }
}

// Control payloads, and what they are read as.
static PAYLOADS: [(&[u8], Result<Control, ControlFault>); 6] = [
    (
        &[0x01, 0x13, 0x01, 0x00],
        Ok(Control::Terminate {
            reason: 19,
            instant: 1,
        }),
    ),
    (&[0, 0, 0, 0, 0, 0, 0, 0], Ok(Control::ChannelMap)),
    (&[], Err(ControlFault::Opcode)),
    (&[0x02], Err(ControlFault::Opcode)),
    (&[0x01, 0x13, 0x01], Err(ControlFault::ControlLength)),
    (
        &[0, 0, 0, 0, 0, 0, 0, 0, 0],
        Err(ControlFault::ControlLength),
    ),
];

#[test]
fn control_payloads_are_read(rt: HostRuntime) {
    for (octets, answer) in &PAYLOADS {
        assert!(rt; read_control(octets) == *answer);
    }
}

// Reason 19 at event 1.
#[test]
fn a_group_that_ends_is_written(rt: HostRuntime) {
    assert!(rt; write_terminate(19, 1) == [0x03, 0x04, 0x01, 0x13, 0x01, 0x00]);
}
