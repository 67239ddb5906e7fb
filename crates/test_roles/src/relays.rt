//! Relays: what they copy of the units that a taker is handed, and what a source takes of these.
ghost use Rattle.std.specs.Prelude.{◌≡◌, None, IfOk, true};
ghost use Rattle.relay_role.specs.State.Flushing.{MayTake};

use crate::numbers::{SINGLE, setup_of};
use crate::refusing::Refusing;
use bcast_base::Bis;
use big_info::{BigInfo, Limits};
use relay_role::{DropName, DroppedUnit, Relay, RelayTaker};
use source_machine::{SourceIdle, SourceStreaming};
use std::alloc::Global;
use unit_outlets::{TakerFault, UnitTaker};

/// Two streams of framed units of at most 8 octets every 10.884 ms, in two PDUs of at most 10 octets an event.
const HALL: BigInfo = BigInfo {
    num_bis: 2,
    nse: 2,
    bn: 2,
    sub_interval: 400,
    bis_spacing: 800,
    max_pdu: 10,
    sdu_interval: 10884,
    max_sdu: 8,
    framing: 1,
    ..SINGLE
};

/// More octets than a unit of the source may have.
const LONG: [u8; 9] = [0; 9];

/// Units of a stream: 17 at rising times, one that comes too late, and one that is too long.
static MANY: [(u64, &[u8]); 19] = [
    (1, &[1]),
    (2, &[2]),
    (3, &[3]),
    (4, &[4]),
    (5, &[5]),
    (6, &[6]),
    (7, &[7]),
    (8, &[8]),
    (9, &[9]),
    (10, &[10]),
    (11, &[11]),
    (12, &[12]),
    (13, &[13]),
    (14, &[14]),
    (15, &[15]),
    (16, &[16]),
    (17, &[17]),
    (16, &[18]),
    (18, &LONG),
];

/// A source of that group, whose first event is at 70,000 µs and which takes times that are ahead.
fn hall(alloc: Global) -> Result<SourceStreaming, &'static str>
    ensures plain { IfOk result (λ source. source.cipher ≡ None) }
    ensures framed { IfOk result (λ source. source.setup.info.framing ≡ 1) }
    ensures streams { IfOk result (λ source. source.setup.info.num_bis ≡ 2) }
    ensures ahead { IfOk result (λ source. source.setup.ahead ≡ true) }
{
    if !HALL.fits() {
        return Err("too wide");
    }
    let Some(setup) = setup_of(alloc, HALL, 1, 70000) else {
        return Err("no memory");
    };
    let Ok(configured) = SourceIdle::new(alloc).configure_within(setup, Limits::VERSION_2) else {
        return Err("no group");
    };
    let Ok(source) = configured.start(0) else {
        return Err("no memory");
    };
    Ok(source)
}

/// Hands units of a stream to a taker, each at its time in µs.
fn hands(taker: &mut RelayTaker<Refusing>, bis: Bis, units: &[(u64, &[u8])]) -> bool
    ensures { taker.new.relay.to ≡ taker.old.relay.to }
{
    'units: for (time, octets) in units {
        if taker.valid(bis, *time, octets).is_err() {
            return false;
        }
    }
    true
}

/// A relay from stream 1 to this one, in which these units wait.
fn relay_of(alloc: Global, to: Bis, units: &[(u64, &[u8])]) -> Result<Relay, &'static str>
    ensures { IfOk result (λ relay. relay.to ≡ to) }
{
    let Some(one) = Bis::new(1) else {
        return Err("no stream");
    };
    let mut taker = RelayTaker::new(Relay::new(alloc, one, to), Refusing::new(alloc));
    if !hands(&mut taker, one, units) {
        return Err("no memory");
    }
    let (relay, _) = taker.parts();
    Ok(relay)
}

/// Whether a flush to a source drops these units and no others.
fn drops(relay: &mut Relay, source: &mut SourceStreaming, units: &[DroppedUnit]) -> bool
    requires { MayTake relay.old.to source.old }
    ensures plain { source.new.cipher ≡ source.old.cipher }
    ensures setup { source.new.setup ≡ source.old.setup }
{
    match relay.flush(Some(source)) {
        Ok(dropped) => dropped.as_slice() == units,
        Err(_) => false,
    }
}

/// Whether a flush to a source that has stopped drops so many units.
fn drops_all(relay: &mut Relay, count: usize) -> bool {
    let Ok(dropped) = relay.flush(None) else {
        return false;
    };
    'units: for (place, unit) in dropped.as_slice().iter().enumerate() {
        if unit.number != place as u64 || unit.name != DropName::NotStreaming {
            return false;
        }
    }
    dropped.count() == count
}

/// A unit that was dropped, by its place and the reason.
fn dropped(number: u64, name: DropName) -> DroppedUnit {
    DroppedUnit { number, name }
}

/// Hands a unit of each of two streams, a lost one, one that is refused, and one of no octets.
fn is_handed_each(taker: &mut RelayTaker<Refusing>, one: Bis, two: Bis) -> bool {
    taker.valid(one, 100, &[0xaa]).is_ok()
        && taker.valid(two, 100, &[0xbb]).is_ok()
        && taker.lost(one, 200).is_ok()
        && taker.valid(one, 300, &[0xcc]) == Err(TakerFault::Failed)
        && taker.valid(one, 400, &[]).is_ok()
}

#[test]
fn a_relay_copies_what_its_stream_hands_and_the_taker_takes(rt: HostRuntime) {
    let (Some(one), Some(two)) = (Bis::new(1), Bis::new(2)) else {
        return assert!(rt; false);
    };
    let mut refusing = Refusing::new(rt.alloc());
    refusing.refuse(4, TakerFault::Failed);
    let mut taker = RelayTaker::new(Relay::new(rt.alloc(), one, two), refusing);
    assert!(rt; is_handed_each(&mut taker, one, two));
    let (mut relay, taken) = taker.parts();
    assert!(rt; taken.has_counts(5, 4) && drops_all(&mut relay, 2) && drops_all(&mut relay, 0));
}

/// Whether a flush to a source of that group drops the last three of these units.
fn drops_the_last(alloc: Global, relay: &mut Relay) -> bool
    requires { relay.old.to ≡ 1 }
{
    let Ok(mut source) = hall(alloc) else {
        return false;
    };
    let units = [
        dropped(16, DropName::Backlog),
        dropped(17, DropName::TimeOrder),
        dropped(18, DropName::UnitTooLong),
    ];
    drops(relay, &mut source, &units)
}

#[test]
fn no_more_than_16_units_of_a_relay_wait(rt: HostRuntime) {
    let Some(one) = Bis::new(1) else {
        return assert!(rt; false);
    };
    let Ok(mut relay) = relay_of(rt.alloc(), one, &MANY) else {
        return assert!(rt; false);
    };
    assert!(rt; drops_the_last(rt.alloc(), &mut relay));
}
