//! A Scan Delegator by itself, with no receivers.
use delegator_control::ScanDelegator;
use delegator_history::{Notice, Reply};
use delegator_machine::Delegator;

/// An Add Source that wants the train, and any stream of one subgroup.
const ADD: [u8; 21] = [
    0x02, 0x00, 0x66, 0x55, 0x44, 0x33, 0x22, 0x11, 0x03, 0x56, 0x34, 0x12, 0x02, 0xff, 0xff, 0x01,
    0xff, 0xff, 0xff, 0xff, 0x00,
];

/// The state of the source that is added.
const ADDED: [u8; 20] = [
    0x00, 0x00, 0x66, 0x55, 0x44, 0x33, 0x22, 0x11, 0x03, 0x56, 0x34, 0x12, 0x00, 0x00, 0x01, 0x00,
    0x00, 0x00, 0x00, 0x00,
];

/// A Remove Source of the first Source_ID.
const REMOVE: [u8; 2] = [0x05, 0x00];

/// Whether the notice is that of slot 0 with this value.
fn tells(notice: Option<Notice>, value: &[u8]) -> bool {
    match notice {
        Some(notice) => notice.slot == 0 && notice.value.as_slice() == value,
        None => false,
    }
}

/// Whether a source that comes and goes nine times is told of each time, by notices that all wait.
fn eighteen_wait(sink: &mut ScanDelegator) -> bool {
    'writes: for _ in 0..9 {
        if sink.serve(&ADD) != Ok(Reply::Accepted) || sink.serve(&REMOVE) != Ok(Reply::Accepted) {
            return false;
        }
    }
    'notices: for _ in 0..9 {
        if !tells(sink.next_notice(), &ADDED) || !tells(sink.next_notice(), &[]) {
            return false;
        }
    }
    sink.next_notice().is_none()
}

#[test]
fn eighteen_notices_wait_at_a_delegator(rt: HostRuntime) {
    let mut sink = ScanDelegator::new(rt.alloc(), 1, 1).expect(&rt, "a delegator");
    assert!(rt; eighteen_wait(&mut sink));
}

#[test]
fn a_delegator_is_made_where_there_is_memory(rt: HostRuntime) {
    assert!(rt; Delegator::new(rt.alloc(), 1, 1).is_ok());
}
