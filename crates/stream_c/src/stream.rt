//! The calls of a stream.
ghost use Rattle.std.specs.Prelude.{◌≡◌, ◌≢◌, ◌≤◌, ◌<◌, ◌^◌, ◌∷◌, ◌++◌, [], ℕ, List, length, take, IfOk, IsSome, None, false};
ghost use Rattle.big_info.specs.Rows.{first_fault};
ghost use Rattle.big_info.specs.Widths.{FitsWidths};
ghost use Rattle.c_values.specs.Infos.{big_info, row_of};
ghost use Rattle.c_values.specs.Kept.{HasRoom, IsWithin, greatest_unit};
ghost use Rattle.c_values.specs.Numbers.{kept_c};
ghost use Rattle.c_values.specs.Statuses.{counter_ends, empty, group, memory, no_room, ok, range};
ghost use Rattle.c_values.specs.Units.{unit_in};
ghost use Rattle.group_sink.specs.Handing.{units_at_close};
ghost use Rattle.group_sink.specs.Hearings.{heard_on};
ghost use Rattle.isoal_base.specs.Stays.{Call, Stay, close, hear, opened};
ghost use Rattle.unit_outlets.specs.Handed.{Handed};
ghost use Rattle.stream_c.specs.Streams.{Stands, held_by, most_held, room_in, waiting_in};

use crate::handle::VmStream;
use crate::machine::StreamMachine;
use crate::receiver::Receiver;
use bcast_base::{Bis, Memory};
use big_info::{Group, Limits, check_group_within};
use c_handles::Loose;
use c_values::status::{COUNTER_ENDS, GROUP, MEMORY, OK, RANGE};
use c_values::{AirBigInfo, Units, VmHeard, VmUnit, info_in, kept_for_c};
use std::alloc::Global;

/// A stay on a stream: the first event, its anchor and the presentation delay in µs, and the stream.
#[repr(C)]
#[derive(Clone, Copy)]
pub struct VmStay {
    pub first_event: u64,
    pub anchor: u64,
    pub delay: u32,
    pub bis: u8,
}

/// The handle of a new receiver.
fn made(alloc: Global, group: &Group, bis: Bis, stay: &VmStay) -> Result<VmStream, Memory>
    requires event { stay.now.first_event ≤ 2 ^ 39 }
    requires anchor { stay.now.anchor ≤ 2 ^ 61 }
    requires delay { stay.now.delay < 2 ^ 24 }
    ensures stands { IfOk result (Stands (record { info = group.now.info; bis = bis; first = stay.now.first_event; origin = stay.now.anchor; delay = stay.now.delay }) []) }
    ensures units { IfOk result (λ stream. (waiting_in stream ≡ []) × (room_in stream ≡ record { units = 0; octets = 0 })) }
{
    let machine = StreamMachine {
        receiver: Receiver::new(alloc, group, bis, stay.first_event, stay.anchor, stay.delay)?,
        units: Units::new(alloc),
    };
    match Box::new(alloc, machine) {
        Ok(whole) => Ok(VmStream::of(Loose::of(whole))),
        Err(_) => Err(Memory),
    }
}

/// The receiver of one stream of a group, from its first event on.
#[unsafe(no_mangle)]
pub extern "C" fn vm_stream_new(
    alloc: Global,
    stream: &mut VmStream,
    info: &AirBigInfo,
    stay: &VmStay,
    row: &mut u8,
) -> u32
    ensures stands { result ≡ ok → Stands (record { info = big_info info.now; bis = stay.now.bis; first = stay.now.first_event; origin = stay.now.anchor; delay = stay.now.delay }) [] stream.new }
    ensures units { result ≡ ok → (waiting_in stream.new ≡ []) × (room_in stream.new ≡ record { units = 0; octets = 0 }) }
    ensures group { result ≡ group → row.new ≡ row_of (first_fault 31 (big_info info.now)) }
    ensures same { result ≢ ok → stream.new ≡ stream.old }
    ensures quiet { result ≢ group → row.new ≡ row.old }
    ensures in_range { FitsWidths (big_info info.now) → 1 ≤ stay.now.bis → stay.now.bis ≤ info.now.num_bis → stay.now.first_event ≤ 2 ^ 39
        → stay.now.anchor ≤ 2 ^ 61 → stay.now.delay < 2 ^ 24 → result ≢ range }
    ensures bounds { result ≢ range → FitsWidths (big_info info.now) × (stay.now.first_event ≤ 2 ^ 39) × (stay.now.anchor ≤ 2 ^ 61)
        × (stay.now.delay < 2 ^ 24) }
    ensures stream { result ≢ range → result ≢ group → (1 ≤ stay.now.bis) × (stay.now.bis ≤ info.now.num_bis) }
    ensures fault { result ≡ group → IsSome (first_fault 31 (big_info info.now)) }
    ensures sound { result ≢ range → result ≢ group → first_fault 31 (big_info info.now) ≡ None }
    ensures either { result ≢ ok → result ≢ range → result ≢ group → result ≡ memory }
{
    let read = info_in(info);
    if stay.first_event > 1 << 39
        || stay.anchor > 1 << 61
        || stay.delay >= 1 << 24
        || !read.fits()
    {
        return RANGE;
    }
    let group = match check_group_within(&read, Limits::VERSION_2) {
        Ok(group) => group,
        Err(fault) => {
            *row = fault.number();
            return GROUP;
        }
    };
    let Some(bis) = Bis::new(stay.bis) else {
        return RANGE;
    };
    if bis.get() > info.num_bis {
        return RANGE;
    }
    match made(alloc, &group, bis, stay) {
        Ok(made) => {
            *stream = made;
            OK
        }
        Err(_) => MEMORY,
    }
}

/// Frees the receiver.
#[unsafe(no_mangle)]
pub extern "C" fn vm_stream_drop(alloc: Global, stream: VmStream)
    requires { IsSome stream.kept }
{
    drop(stream.into_loose(alloc).into_box());
}

/// Hears a PDU under its payload number. It takes no memory.
#[unsafe(no_mangle)]
pub extern "C" fn vm_stream_hear(
    stream: &mut VmStream,
    number: u64,
    pdu: &[u8],
    heard: &mut VmHeard,
)
    requires { IsSome stream.old.kept }
    ensures stands { (stay : Stay) (calls : List Call) → Stands stay calls stream.old → Stands stay (hear number pdu.now ∷ calls) stream.new }
    ensures answer { (stay : Stay) (calls : List Call) → Stands stay calls stream.old → heard.new ≡ kept_c (heard_on stay calls number pdu.now) }
    ensures units { waiting_in stream.new ≡ waiting_in stream.old }
    ensures room { room_in stream.new ≡ room_in stream.old }
{
    *heard = kept_for_c(stream.lend().receiver.hear(number, pdu));
}

/// The open event.
#[unsafe(no_mangle)]
pub extern "C" fn vm_stream_open_event(stream: &mut VmStream, event: &mut u64)
    requires { IsSome stream.old.kept }
    ensures event { (stay : Stay) (calls : List Call) → Stands stay calls stream.old → event.new ≡ opened stay calls }
    ensures same { stream.new.kept ≡ stream.old.kept }
{
    *event = stream.lend().receiver.open_event();
}

/// How many octets are held of units that aren't handed up yet: of the slots of the open event of an unframed stream, or of the unit of a
/// framed one that the closed events don't decide. The units that wait don't count. It takes no memory.
#[unsafe(no_mangle)]
pub extern "C" fn vm_stream_held(stream: &mut VmStream, octets: &mut usize)
    requires { IsSome stream.old.kept }
    ensures held { (stay : Stay) (calls : List Call) → Stands stay calls stream.old → octets.new ≡ held_by stay calls }
    ensures bound { (stay : Stay) (calls : List Call) → Stands stay calls stream.old → octets.new ≤ most_held stay.info }
    ensures same { stream.new.kept ≡ stream.old.kept }
{
    *octets = stream.lend().receiver.held();
}

/// Room for so many units, 1 to 1,024, of so many octets each, 1 to 4,095, taken once and in place of the room that there was. What waits
/// stays. From then on a close takes no memory while no more units wait than there is room for, and none is longer.
#[unsafe(no_mangle)]
pub extern "C" fn vm_stream_reserve(stream: &mut VmStream, units: usize, octets: usize) -> u32
    requires { IsSome stream.old.kept }
    ensures stands { (stay : Stay) (calls : List Call) → Stands stay calls stream.old → Stands stay calls stream.new }
    ensures units { waiting_in stream.new ≡ waiting_in stream.old }
    ensures room { result ≡ ok → room_in stream.new ≡ record { units = units; octets = octets } }
    ensures same { result ≢ ok → stream.new.kept ≡ stream.old.kept }
    ensures in_range { 1 ≤ units → units ≤ 1024 → 1 ≤ octets → octets ≤ greatest_unit → result ≢ range }
    ensures bounds { result ≢ range → (1 ≤ units) × (units ≤ 1024) × (1 ≤ octets) × (octets ≤ greatest_unit) }
    ensures either { result ≢ ok → result ≢ range → result ≡ memory }
{
    if units < 1 || units > 1024 || octets < 1 || octets > 4095 {
        return RANGE;
    }
    match stream.lend().units.reserve(units, octets) {
        Ok(()) => OK,
        Err(_) => MEMORY,
    }
}

/// The open event is over. Its units wait behind those that wait. After want of memory it is over too, and a prefix of the units waits. It
/// never wants memory where there is room for those that wait and those of the event.
#[unsafe(no_mangle)]
pub extern "C" fn vm_stream_close(stream: &mut VmStream) -> u32
    requires { IsSome stream.old.kept }
    ensures stands { (stay : Stay) (calls : List Call) → Stands stay calls stream.old → result ≢ counter_ends
        → Stands stay (close ∷ calls) stream.new }
    ensures units { (stay : Stay) (calls : List Call) → Stands stay calls stream.old → result ≡ ok
        → waiting_in stream.new ≡ waiting_in stream.old ++ units_at_close stay calls }
    ensures part { (stay : Stay) (calls : List Call) → Stands stay calls stream.old → result ≡ memory
        → (n : ℕ) × (n < length (units_at_close stay calls))
        × (waiting_in stream.new ≡ waiting_in stream.old ++ take n (units_at_close stay calls)) }
    ensures served { (stay : Stay) (calls : List Call) → Stands stay calls stream.old
        → HasRoom (room_in stream.old) (length (waiting_in stream.old)) (units_at_close stay calls) → result ≢ memory }
    ensures room { (stay : Stay) (calls : List Call) → Stands stay calls stream.old → room_in stream.new ≡ room_in stream.old }
    ensures same { result ≡ counter_ends → stream.new.kept ≡ stream.old.kept }
    ensures ends { (stay : Stay) (calls : List Call) → Stands stay calls stream.old → opened stay calls < 2 ^ 39 → result ≢ counter_ends }
    ensures bounds { (stay : Stay) (calls : List Call) → Stands stay calls stream.old → result ≢ counter_ends → opened stay calls < 2 ^ 39 }
    ensures either { result ≢ ok → result ≢ counter_ends → result ≡ memory }
{
    let machine = stream.lend();
    if machine.receiver.open_event() >= 1 << 39 {
        return COUNTER_ENDS;
    }
    machine.units.begin();
    let handed = machine.receiver.close(&mut machine.units);
    if machine.units.end(handed) {
        OK
    } else {
        MEMORY
    }
}

/// Takes the first unit that waits, its octets at the front of the room, where they fit. A room of 4,095 octets is always enough.
#[unsafe(no_mangle)]
pub extern "C" fn vm_stream_next_unit(
    stream: &mut VmStream,
    room: &mut [u8],
    unit: &mut VmUnit,
) -> u32
    requires { IsSome stream.old.kept }
    ensures taken { result ≡ ok → waiting_in stream.old ≡ unit_in unit.new room.new ∷ waiting_in stream.new }
    ensures carried { (taken all : List Handed) → result ≡ ok → taken ++ waiting_in stream.old ≡ all
        → (taken ++ unit_in unit.new room.new ∷ []) ++ waiting_in stream.new ≡ all }
    ensures none { result ≡ empty → waiting_in stream.old ≡ [] }
    ensures stands { (stay : Stay) (calls : List Call) → Stands stay calls stream.old → Stands stay calls stream.new }
    ensures same { result ≢ ok → (stream.new.kept ≡ stream.old.kept) × (unit.new ≡ unit.old) × (room.new ≡ room.old) }
    ensures room { room_in stream.new ≡ room_in stream.old }
    ensures enough { greatest_unit ≤ length room.old → result ≢ no_room }
    ensures within { (first : Handed) (others : List Handed) → waiting_in stream.old ≡ first ∷ others → IsWithin (length room.old) first
        → result ≢ no_room }
    ensures waits { waiting_in stream.old ≢ [] → result ≢ empty }
    ensures count { result ≡ ok → unit.new.count ≤ length room.new }
    ensures lost { result ≡ ok → unit.new.is_valid ≡ false → unit.new.count ≡ 0 }
    ensures either { result ≢ ok → result ≢ empty → result ≡ no_room }
{
    stream.lend().units.take_into(room, unit)
}
