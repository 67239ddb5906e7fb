//! The calls of a source.
ghost use Rattle.std.specs.Prelude.{◌≡◌, ◌≢◌, ◌∷◌, ◌≤◌, ◌<◌, ◌^◌, ◌-◌, ◌%◌, [], List, length, take, IsSome, IsSomeAnd, Some, None};
ghost use Rattle.c_values.specs.Statuses.{ok, range, memory, encrypted, no_room, empty};
ghost use Rattle.isoal_base.specs.Air.{Air};
ghost use Rattle.radio_schedule.specs.PayloadNumber.{payload_number};
ghost use Rattle.iso_pdu.specs.Control.{terminate};
ghost use Rattle.iso_pdu.specs.Layout.{control};
ghost use Rattle.iso_pdu.specs.Encoding.{pdu};
ghost use Rattle.source_machine.specs.Airs.{AreAirs, pdu_of, stale_of};
ghost use Rattle.source_machine.specs.Calls.{Call, event as performed, give, next_anchor_of, next_of};
ghost use Rattle.source_machine.specs.Faults.{air_fault, event_fault, give_fault, refused_unit};
ghost use Rattle.source_c.specs.Sources.{Source, Stands, ended_c, heard_c, refused_c, stale_in, time_c};

use crate::handle::VmSource;
use bcast_base::Bis;
use big_info::Group;
use c_values::put;
use c_values::status::{
    BACKLOG, COUNTER_ENDS, EMPTY, ENCRYPTED, MEMORY, NO_BIS, NO_SUBEVENT, NOT_ON_AIR, OK, RANGE,
    ROOM, TIME_ORDER, TOO_LONG,
};
use radio_schedule::{AirFault, events_ahead};
use source_machine::{EventFault, GiveFault};

/// A unit of a stream; of a framed group with its time.
#[unsafe(no_mangle)]
pub extern "C" fn vm_source_give(
    source: &mut VmSource,
    bis: u8,
    has_time: bool,
    time: u64,
    octets: &[u8],
) -> u32
    requires { IsSome source.old.kept }
    ensures stands { (it : Source) (calls : List Call) → Stands it calls source.old → result ≡ ok
        → Stands it (give bis (time_c has_time time) octets.now ∷ calls) source.new }
    ensures answer { (it : Source) (calls : List Call) (airs : List Air) → Stands it calls source.old → AreAirs it.setup calls airs
        → result ≢ range → result ≢ memory → result ≢ encrypted
        → result ≡ refused_c (give_fault it.setup calls airs bis (time_c has_time time) octets.now) }
    ensures same { result ≢ ok → source.new.kept ≡ source.old.kept }
    ensures stale { stale_in source.new ≡ stale_in source.old }
    ensures in_range { 1 ≤ bis → bis ≤ 31 → result ≢ range }
    ensures bounds { result ≢ range → (1 ≤ bis) × (bis ≤ 31) }
    ensures sends { (it : Source) (calls : List Call) → Stands it calls source.old → it.cipher ≡ None → result ≢ encrypted }
    ensures ciphered { (it : Source) (calls : List Call) → Stands it calls source.old → IsSome it.cipher → result ≢ range
        → result ≡ encrypted }
{
    let Some(bis) = Bis::new(bis) else {
        return RANGE;
    };
    let machine = source.lend();
    if machine.source.is_ciphered() {
        return ENCRYPTED;
    }
    let time = if has_time { Some(time) } else { None };
    match machine.source.give(bis, time, octets) {
        Ok(()) => OK,
        Err(fault) => refusal_for_c(fault),
    }
}

/// Why a unit is refused, for C.
fn refusal_for_c(fault: GiveFault) -> u32
    ensures named { result ≢ memory → result ≡ refused_c (refused_unit fault) }
    ensures refused { (result ≢ ok) × (result ≢ range) × (result ≢ encrypted) }
{
    match fault {
        GiveFault::NoSuchBis => NO_BIS,
        GiveFault::UnitTooLong => TOO_LONG,
        GiveFault::TimeOrder => TIME_ORDER,
        GiveFault::Backlog => BACKLOG,
        GiveFault::Memory => MEMORY,
    }
}

/// The next event and its anchor, in µs.
#[unsafe(no_mangle)]
pub extern "C" fn vm_source_next(source: &mut VmSource, event: &mut u64, anchor: &mut u64)
    requires { IsSome source.old.kept }
    ensures event { (it : Source) (calls : List Call) → Stands it calls source.old → event.new ≡ next_of it.setup calls }
    ensures anchor { (it : Source) (calls : List Call) → Stands it calls source.old → anchor.new ≡ next_anchor_of it.setup calls }
    ensures same { source.new.kept ≡ source.old.kept }
{
    let machine = source.lend();
    *event = machine.source.next_event();
    *anchor = machine.source.next_anchor();
}

/// Performs the next event. The units that it leaves out wait for C until the next event. After want of memory the source has failed.
#[unsafe(no_mangle)]
pub extern "C" fn vm_source_event(source: &mut VmSource) -> u32
    requires { IsSome source.old.kept }
    ensures stands { (it : Source) (calls : List Call) → Stands it calls source.old → result ≡ ok
        → Stands it (performed ∷ calls) source.new }
    ensures stale { (it : Source) (calls : List Call) (airs : List Air) → Stands it calls source.old
        → AreAirs it.setup (performed ∷ calls) airs → result ≡ ok → stale_in source.new ≡ stale_of it.setup calls airs }
    ensures answer { (it : Source) (calls : List Call) → Stands it calls source.old → result ≢ memory → result ≢ encrypted
        → result ≡ ended_c (event_fault it.setup calls) }
    ensures same { result ≢ ok → result ≢ memory → source.new.kept ≡ source.old.kept }
    ensures sends { (it : Source) (calls : List Call) → Stands it calls source.old → it.cipher ≡ None → result ≢ encrypted }
    ensures ciphered { (it : Source) (calls : List Call) → Stands it calls source.old → IsSome it.cipher → result ≡ encrypted }
{
    let machine = source.lend();
    if machine.source.is_ciphered() {
        return ENCRYPTED;
    }
    match machine.source.advance() {
        Ok(stale) => {
            machine.stale = stale;
            machine.told = 0;
            OK
        }
        Err(EventFault::CounterEnds) => COUNTER_ENDS,
        Err(EventFault::Memory) => MEMORY,
    }
}

/// Takes the first of the units that the last event left out: its stream, and the time that it was given with, in µs.
#[unsafe(no_mangle)]
pub extern "C" fn vm_source_next_stale(source: &mut VmSource, bis: &mut u8, time: &mut u64) -> u32
    requires { IsSome source.old.kept }
    ensures taken { result ≡ ok → stale_in source.old ≡ record { bis = bis.new; time = time.new } ∷ stale_in source.new }
    ensures none { result ≡ empty → stale_in source.old ≡ [] }
    ensures stands { (it : Source) (calls : List Call) → Stands it calls source.old → Stands it calls source.new }
    ensures same { result ≢ ok → (source.new.kept ≡ source.old.kept) × (bis.new ≡ bis.old) × (time.new ≡ time.old) }
    ensures either { result ≢ ok → result ≡ empty }
{
    let machine = source.lend();
    if machine.told >= machine.stale.count() {
        return EMPTY;
    }
    let stale = *machine.stale.item(machine.told);
    *bis = stale.bis.get();
    *time = stale.time;
    machine.told += 1;
    OK
}

/// The number of the payload in a subevent, from 0, of an event.
fn number_of(group: &Group, event: u64, subevent: u8) -> u64
    requires { event ≤ 2 ^ 39 }
    ensures { subevent < group.now.info.nse → result ≡ payload_number group.now.info event subevent }
{
    if subevent >= group.info.nse {
        return 0;
    }
    let ahead = events_ahead(group, subevent);
    (event + ahead) * u64::from(group.info.bn) + u64::from(subevent % group.info.bn)
}

/// The PDU in a subevent, from 0, of the event that came `back` before the last, at the front of the room, and the number of
/// its payload.
#[unsafe(no_mangle)]
pub extern "C" fn vm_source_pdu(
    source: &mut VmSource,
    back: u8,
    bis: u8,
    subevent: u8,
    room: &mut [u8],
    count: &mut usize,
    number: &mut u64,
) -> u32
    requires { IsSome source.old.kept }
    ensures pdu { (it : Source) (calls : List Call) (airs : List Air) → Stands it calls source.old → AreAirs it.setup calls airs
        → result ≡ ok → pdu_of it.setup airs (next_of it.setup calls - 1 - back) bis subevent ≡ Some (take count.new room.new) }
    ensures count { result ≡ ok → count.new ≤ length room.new }
    ensures number { (it : Source) (calls : List Call) (airs : List Air) → Stands it calls source.old → AreAirs it.setup calls airs
        → result ≡ ok → number.new ≡ payload_number it.setup.info (next_of it.setup calls - 1 - back) subevent }
    ensures answer { (it : Source) (calls : List Call) (airs : List Air) → Stands it calls source.old → AreAirs it.setup calls airs
        → result ≢ range → result ≢ no_room → result ≡ heard_c (air_fault it.setup calls back bis subevent) }
    ensures same { source.new.kept ≡ source.old.kept }
    ensures quiet { result ≢ ok → (room.new ≡ room.old) × (count.new ≡ count.old) × (number.new ≡ number.old) }
    ensures in_range { back ≤ 31 → 1 ≤ bis → bis ≤ 31 → result ≢ range }
    ensures bounds { result ≢ range → (back ≤ 31) × (1 ≤ bis) × (bis ≤ 31) }
    ensures heard { (it : Source) (calls : List Call) (airs : List Air) → Stands it calls source.old → AreAirs it.setup calls airs
        → result ≡ no_room → air_fault it.setup calls back bis subevent ≡ None }
    ensures room { (it : Source) (calls : List Call) (airs : List Air) → Stands it calls source.old → AreAirs it.setup calls airs
        → result ≡ no_room
        → IsSomeAnd (pdu_of it.setup airs (next_of it.setup calls - 1 - back) bis subevent) (λ pdu. length room.old < length pdu) }
    ensures enough { (it : Source) (calls : List Call) → Stands it calls source.old → 253 ≤ length room.old → result ≢ no_room }
{
    if back > 31 {
        return RANGE;
    }
    let Some(bis) = Bis::new(bis) else {
        return RANGE;
    };
    let machine = source.lend();
    let event = machine
        .source
        .next_event()
        .saturating_sub(1 + u64::from(back));
    let payload = number_of(machine.source.group(), event, subevent);
    match machine.source.heard_at(back, bis, subevent) {
        Ok(pdu) => {
            if put(pdu, room) {
                *count = pdu.len();
                *number = payload;
                OK
            } else {
                ROOM
            }
        }
        Err(fault) => place_for_c(fault),
    }
}

/// Why there is no PDU at a place, for C.
fn place_for_c(fault: AirFault) -> u32
    ensures named { result ≡ heard_c (Some fault) }
    ensures refused { (result ≢ ok) × (result ≢ range) × (result ≢ no_room) }
{
    match fault {
        AirFault::NoSuchBis => NO_BIS,
        AirFault::NoSuchSubevent => NO_SUBEVENT,
        AirFault::NotOnAir => NOT_ON_AIR,
    }
}

/// The control PDU that ends the group for this reason at the next event.
#[unsafe(no_mangle)]
pub extern "C" fn vm_source_terminate(source: &mut VmSource, reason: u8, into: &mut [u8; 6])
    requires { IsSome source.old.kept }
    ensures pdu { (it : Source) (calls : List Call) → Stands it calls source.old
        → into.new ≡ pdu (control (terminate reason (next_of it.setup calls % 2 ^ 16))) }
    ensures same { source.new.kept ≡ source.old.kept }
{
    *into = source.lend().source.terminate_pdu(reason);
}
