use crate::numbers::SINGLE;
use big_info::{BigInfo, check_group};
use radio_schedule::payload_of;

/// Each unit of 4 octets every 10 ms is sent twice, and then twice an event later.
const LATER: BigInfo = BigInfo {
    nse: 4,
    irc: 2,
    pto: 1,
    sub_interval: 400,
    ..SINGLE
};

// An event, a subevent, and the payload number that is sent there: of the first event and of the last.
static NUMBERS: [(u64, u8, Option<u64>); 7] = [
    (0, 1, Some(0)),
    (0, 2, Some(1)),
    (0, 3, Some(2)),
    (0, 4, None),
    (549755813887, 1, Some(549755813887)),
    (549755813887, 2, None),
    (549755813887, 3, None),
];

fn are_numbers(info: &BigInfo) -> bool {
    if !info.fits() {
        return false;
    }
    let Ok(group) = check_group(info) else {
        return false;
    };
    for (event, subevent, number) in &NUMBERS {
        if 549755813888 < *event || payload_of(&group, *event, *subevent) != *number {
            return false;
        }
    }
    true
}

#[test]
fn numbers_the_worked_payloads(rt: HostRuntime) {
    assert!(rt; are_numbers(&LATER));
}
