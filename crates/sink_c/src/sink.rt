//! The calls of a sink.
ghost use Rattle.std.specs.Prelude.{◌≡◌, ◌≢◌, ◌∷◌, ◌≤◌, ◌<◌, ◌^◌, [], List, length, take, IfOk, IsSome, Some, None, true};
ghost use Rattle.bass_operations.specs.Reading.{op_of};
ghost use Rattle.delegator_control.specs.Following.{is_followed};
ghost use Rattle.delegator_control.specs.Serving.{wants_memory};
ghost use Rattle.delegator_history.specs.Controls.{control_heard};
ghost use Rattle.delegator_history.specs.declared.train_heard.ControlHeard.TheVariants.{Left};
ghost use Rattle.delegator_history.specs.Snapshots.{entry_at, slot_of};
ghost use Rattle.delegator_history.specs.States.{control_heard as controlled, snapshot_of, notified, train_heard, train_lost, written};
ghost use Rattle.delegator_history.specs.Trains.{Setup, Train, answer_of, outcome_by};
ghost use Rattle.delegator_history.specs.Writes.{reply_of};
ghost use Rattle.delegator_machine.specs.Calls.{Call, control, hear, steps_of};
ghost use Rattle.delegator_machine.specs.Groups.{group_calls};
ghost use Rattle.delegator_machine.specs.Trains.{train_of};
ghost use Rattle.delegator_history.specs.Values.{value_at};
ghost use Rattle.group_sink.specs.Hearings.{hearing_of};
ghost use Rattle.c_values.specs.Numbers.{control_c, heard_c, reply_c, streams_c, train_c};
ghost use Rattle.sink_c.specs.Sinks.{Stands, notices_of, room_in, waiting_in};
ghost use Rattle.c_values.specs.Statuses.{empty, ok, range, no_room, no_slot, memory};

use crate::handle::VmSink;
use crate::machine::SinkMachine;
use bcast_base::{Bis, Memory};
use big_info::Limits;
use c_handles::Loose;
use c_values::status::{EMPTY, MEMORY, NO_SLOT, OK, RANGE, ROOM};
use c_values::{
    Units, VmHeard, VmReply, VmTrainHeard, control_for_c, heard_for_c, put, reply_for_c,
    train_for_c,
};
use delegator_machine::Delegator;
use std::alloc::Global;

/// The handle of a new sink.
fn made(alloc: Global, streams: u8, slots: u8) -> Result<VmSink, Memory>
    requires least_streams { 1 ≤ streams }
    requires most_streams { streams ≤ 31 }
    requires least_slots { 1 ≤ slots }
    requires few { slots ≤ 8 }
    ensures stands { IfOk result (Stands (record { streams = streams; slots = slots; horizon = 31 }) []) }
    ensures units { IfOk result (λ sink. (waiting_in sink ≡ []) × (room_in sink ≡ record { units = 0; octets = 0 })) }
{
    let machine = SinkMachine {
        delegator: Delegator::within(alloc, streams, slots, Limits::VERSION_2)?,
        units: Units::new(alloc),
    };
    match Box::new(alloc, machine) {
        Ok(whole) => Ok(VmSink::of(Loose::of(whole))),
        Err(_) => Err(Memory),
    }
}

/// A new sink, that takes so many streams at once, 1 to 31, and has so many slots, 1 to 8.
#[unsafe(no_mangle)]
pub extern "C" fn vm_sink_new(alloc: Global, sink: &mut VmSink, streams: u8, slots: u8) -> u32
    ensures stands { result ≡ ok → Stands (record { streams = streams; slots = slots; horizon = 31 }) [] sink.new }
    ensures units { result ≡ ok → (waiting_in sink.new ≡ []) × (room_in sink.new ≡ record { units = 0; octets = 0 }) }
    ensures same { result ≢ ok → sink.new ≡ sink.old }
    ensures in_range { 1 ≤ streams → streams ≤ 31 → 1 ≤ slots → slots ≤ 8 → result ≢ range }
    ensures bounds { result ≢ range → (1 ≤ streams) × (streams ≤ 31) × (1 ≤ slots) × (slots ≤ 8) }
    ensures either { result ≢ ok → result ≢ range → result ≡ memory }
{
    if streams < 1 || streams > 31 || slots < 1 || slots > 8 {
        return RANGE;
    }
    match made(alloc, streams, slots) {
        Ok(made) => {
            *sink = made;
            OK
        }
        Err(_) => MEMORY,
    }
}

/// Frees the sink.
#[unsafe(no_mangle)]
pub extern "C" fn vm_sink_drop(alloc: Global, sink: VmSink)
    requires { IsSome sink.kept }
{
    drop(sink.into_loose(alloc).into_box());
}

/// Serves a write to the control point.
#[unsafe(no_mangle)]
pub extern "C" fn vm_sink_write(sink: &mut VmSink, write: &[u8], reply: &mut VmReply) -> u32
    requires { IsSome sink.old.kept }
    ensures stands { (setup : Setup) (calls : List Call) → Stands setup calls sink.old → result ≡ ok
        → Stands setup (control (written write.now) ∷ calls) sink.new }
    ensures answer { (setup : Setup) (calls : List Call) → Stands setup calls sink.old → result ≡ ok
        → reply.new ≡ reply_c (reply_of (snapshot_of setup (steps_of calls)) write.now) }
    ensures units { waiting_in sink.new ≡ waiting_in sink.old }
    ensures room { room_in sink.new ≡ room_in sink.old }
    ensures same { result ≢ ok → (sink.new.kept ≡ sink.old.kept) × (reply.new ≡ reply.old) }
    ensures either { result ≢ ok → result ≡ memory }
    ensures wants { (setup : Setup) (calls : List Call) → Stands setup calls sink.old → result ≡ memory
        → wants_memory (snapshot_of setup (steps_of calls)) (op_of write.now) ≡ true }
{
    match sink.lend().delegator.serve(write) {
        Ok(answer) => {
            *reply = reply_for_c(answer);
            OK
        }
        Err(_) => MEMORY,
    }
}

/// Hears a train.
#[unsafe(no_mangle)]
pub extern "C" fn vm_sink_train(
    sink: &mut VmSink,
    address_type: u8,
    sid: u8,
    ext: &[u8],
    adv: &[u8],
    acad: &[u8],
    now: u64,
    heard: &mut VmTrainHeard,
) -> u32
    requires { IsSome sink.old.kept }
    ensures stands { let train : Train = train_of address_type sid ext.now adv.now acad.now now in
        (setup : Setup) (calls : List Call) → Stands setup calls sink.old → result ≡ ok
        → Stands setup (control (train_heard train) ∷ calls) sink.new }
    ensures answer { let train : Train = train_of address_type sid ext.now adv.now acad.now now in
        (setup : Setup) (calls : List Call) → Stands setup calls sink.old → result ≡ ok
        → heard.new.answer ≡ (train_c (answer_of (outcome_by setup (snapshot_of setup (steps_of calls)) train))).0 }
    ensures fault { let train : Train = train_of address_type sid ext.now adv.now acad.now now in
        (setup : Setup) (calls : List Call) → Stands setup calls sink.old → result ≡ ok
        → heard.new.fault ≡ (train_c (answer_of (outcome_by setup (snapshot_of setup (steps_of calls)) train))).1 }
    ensures streams { let train : Train = train_of address_type sid ext.now adv.now acad.now now in
        (setup : Setup) (calls : List Call) → Stands setup calls sink.old → result ≡ ok
        → heard.new.streams ≡ streams_c (answer_of (outcome_by setup (snapshot_of setup (steps_of calls)) train)) }
    ensures units { waiting_in sink.new ≡ waiting_in sink.old }
    ensures room { room_in sink.new ≡ room_in sink.old }
    ensures same { result ≢ ok → (sink.new.kept ≡ sink.old.kept) × (heard.new ≡ heard.old) }
    ensures in_range { now ≤ 2 ^ 61 → result ≢ range }
    ensures bounds { result ≢ range → now ≤ 2 ^ 61 }
    ensures either { result ≢ ok → result ≢ range → result ≡ memory }
    ensures wants { let train : Train = train_of address_type sid ext.now adv.now acad.now now in
        (setup : Setup) (calls : List Call) → Stands setup calls sink.old → result ≡ memory
        → is_followed (outcome_by setup (snapshot_of setup (steps_of calls)) train) ≡ true }
{
    if now > 1 << 61 {
        return RANGE;
    }
    match sink
        .lend()
        .delegator
        .train(address_type, sid, ext, adv, acad, now)
    {
        Ok(answer) => {
            *heard = train_for_c(answer);
            OK
        }
        Err(_) => MEMORY,
    }
}

/// Hears a PDU in a subevent, from 0, of an event of a stream.
#[unsafe(no_mangle)]
pub extern "C" fn vm_sink_hear(
    sink: &mut VmSink,
    event: u64,
    bis: u8,
    subevent: u8,
    pdu: &[u8],
    heard: &mut VmHeard,
) -> u32
    requires { IsSome sink.old.kept }
    ensures stands { (setup : Setup) (calls : List Call) → Stands setup calls sink.old → result ≡ ok
        → Stands setup (hear event bis subevent pdu.now ∷ calls) sink.new }
    ensures answer { (setup : Setup) (calls : List Call) → Stands setup calls sink.old → result ≡ ok
        → heard.new ≡ heard_c (hearing_of (group_calls setup calls) event bis subevent pdu.now) }
    ensures units { waiting_in sink.new ≡ waiting_in sink.old }
    ensures room { room_in sink.new ≡ room_in sink.old }
    ensures same { result ≢ ok → (sink.new.kept ≡ sink.old.kept) × (heard.new ≡ heard.old) }
    ensures in_range { event ≤ 2 ^ 39 → 1 ≤ bis → bis ≤ 31 → result ≡ ok }
    ensures bounds { result ≢ range → (event ≤ 2 ^ 39) × (1 ≤ bis) × (bis ≤ 31) }
    ensures either { result ≢ ok → result ≡ range }
{
    if event > 1 << 39 {
        return RANGE;
    }
    let Some(bis) = Bis::new(bis) else {
        return RANGE;
    };
    let hearing = sink.lend().delegator.hear(event, bis, subevent, pdu);
    *heard = heard_for_c(hearing);
    OK
}

/// Hears a PDU as a control PDU.
#[unsafe(no_mangle)]
pub extern "C" fn vm_sink_control(sink: &mut VmSink, pdu: &[u8], heard: &mut VmHeard) -> u32
    requires { IsSome sink.old.kept }
    ensures stands { (setup : Setup) (calls : List Call) → Stands setup calls sink.old → result ≡ ok
        → Stands setup (control (controlled pdu.now) ∷ calls) sink.new }
    ensures answer { (setup : Setup) (calls : List Call) → Stands setup calls sink.old → result ≡ ok
        → heard.new ≡ control_c (control_heard (snapshot_of setup (steps_of calls)).place pdu.now) }
    ensures units { waiting_in sink.new ≡ waiting_in sink.old }
    ensures room { room_in sink.new ≡ room_in sink.old }
    ensures same { result ≢ ok → (sink.new.kept ≡ sink.old.kept) × (heard.new ≡ heard.old) }
    ensures either { result ≢ ok → result ≡ memory }
    ensures wants { (setup : Setup) (calls : List Call) → Stands setup calls sink.old → result ≡ memory
        → (control_heard (snapshot_of setup (steps_of calls)).place pdu.now ≡ Left)
        × IsSome (slot_of (snapshot_of setup (steps_of calls)).place) }
{
    match sink.lend().delegator.control(pdu) {
        Ok(answer) => {
            *heard = control_for_c(answer);
            OK
        }
        Err(_) => MEMORY,
    }
}

/// The train is lost.
#[unsafe(no_mangle)]
pub extern "C" fn vm_sink_lost(sink: &mut VmSink) -> u32
    requires { IsSome sink.old.kept }
    ensures stands { (setup : Setup) (calls : List Call) → Stands setup calls sink.old → result ≡ ok
        → Stands setup (control train_lost ∷ calls) sink.new }
    ensures units { waiting_in sink.new ≡ waiting_in sink.old }
    ensures room { room_in sink.new ≡ room_in sink.old }
    ensures same { result ≢ ok → sink.new.kept ≡ sink.old.kept }
    ensures either { result ≢ ok → result ≡ memory }
    ensures wants { (setup : Setup) (calls : List Call) → Stands setup calls sink.old → result ≡ memory
        → IsSome (slot_of (snapshot_of setup (steps_of calls)).place) }
{
    match sink.lend().delegator.lost() {
        Ok(()) => OK,
        Err(_) => MEMORY,
    }
}

/// Takes the first notice that waits: its slot, and its value at the front of the room. 3 where the room has fewer than 512 octets, 4
/// where none waits.
#[unsafe(no_mangle)]
pub extern "C" fn vm_sink_next_notice(
    sink: &mut VmSink,
    room: &mut [u8],
    slot: &mut u8,
    count: &mut usize,
) -> u32
    requires { IsSome sink.old.kept }
    ensures taken { (setup : Setup) (calls : List Call) → Stands setup calls sink.old → result ≡ ok
        → notices_of setup (steps_of calls) ≡ Some (record { slot = slot.new; value = take count.new room.new }) }
    ensures none { (setup : Setup) (calls : List Call) → Stands setup calls sink.old → result ≡ empty
        → notices_of setup (steps_of calls) ≡ None }
    ensures stands { (setup : Setup) (calls : List Call) → Stands setup calls sink.old → result ≢ range
        → Stands setup (control notified ∷ calls) sink.new }
    ensures units { waiting_in sink.new ≡ waiting_in sink.old }
    ensures room { room_in sink.new ≡ room_in sink.old }
    ensures same { result ≡ range → sink.new.kept ≡ sink.old.kept }
    ensures quiet { result ≢ ok → (room.new ≡ room.old) × (slot.new ≡ slot.old) × (count.new ≡ count.old) }
    ensures count { result ≡ ok → count.new ≤ length room.new }
    ensures in_range { 512 ≤ length room.old → result ≢ range }
    ensures bounds { result ≢ range → 512 ≤ length room.old }
    ensures either { (setup : Setup) (calls : List Call) → Stands setup calls sink.old → result ≢ ok → result ≢ range → result ≡ empty }
{
    if room.len() < 512 {
        return RANGE;
    }
    let Some(notice) = sink.lend().delegator.next_notice() else {
        return EMPTY;
    };
    if put(notice.value.as_slice(), room) {
        *slot = notice.slot;
        *count = notice.value.as_slice().len();
        OK
    } else {
        ROOM
    }
}

/// What hear would answer. The sink stays as it is.
#[unsafe(no_mangle)]
pub extern "C" fn vm_sink_would_hear(
    sink: &mut VmSink,
    event: u64,
    bis: u8,
    subevent: u8,
    pdu: &[u8],
    heard: &mut VmHeard,
) -> u32
    requires { IsSome sink.old.kept }
    ensures answer { (setup : Setup) (calls : List Call) → Stands setup calls sink.old → result ≡ ok
        → heard.new ≡ heard_c (hearing_of (group_calls setup calls) event bis subevent pdu.now) }
    ensures kept { sink.new.kept ≡ sink.old.kept }
    ensures same { result ≢ ok → heard.new ≡ heard.old }
    ensures in_range { event ≤ 2 ^ 39 → 1 ≤ bis → bis ≤ 31 → result ≡ ok }
    ensures bounds { result ≢ range → (event ≤ 2 ^ 39) × (1 ≤ bis) × (bis ≤ 31) }
    ensures either { result ≢ ok → result ≡ range }
{
    if event > 1 << 39 {
        return RANGE;
    }
    let Some(bis) = Bis::new(bis) else {
        return RANGE;
    };
    let hearing = sink
        .lend()
        .delegator
        .would_answer(event, bis, subevent, pdu);
    *heard = heard_for_c(hearing);
    OK
}

/// The value of a slot, at the front of the room.
#[unsafe(no_mangle)]
pub extern "C" fn vm_sink_read_state(
    sink: &mut VmSink,
    slot: u8,
    room: &mut [u8],
    count: &mut usize,
) -> u32
    requires { IsSome sink.old.kept }
    ensures exists { (setup : Setup) (calls : List Call) → Stands setup calls sink.old → slot < setup.slots → result ≢ no_slot }
    ensures none { (setup : Setup) (calls : List Call) → Stands setup calls sink.old → setup.slots ≤ slot → result ≡ no_slot }
    ensures value { (setup : Setup) (calls : List Call) → Stands setup calls sink.old → result ≡ ok
        → take count.new room.new ≡ value_at (snapshot_of setup (steps_of calls)) slot }
    ensures kept { sink.new.kept ≡ sink.old.kept }
    ensures quiet { result ≢ ok → (room.new ≡ room.old) × (count.new ≡ count.old) }
    ensures count { result ≡ ok → count.new ≤ length room.new }
    ensures fits { (setup : Setup) (calls : List Call) → Stands setup calls sink.old
        → length (value_at (snapshot_of setup (steps_of calls)) slot) ≤ length room.old → result ≢ no_room }
    ensures enough { (setup : Setup) (calls : List Call) → Stands setup calls sink.old → 512 ≤ length room.old → result ≢ no_room }
    ensures either { result ≢ ok → result ≢ no_slot → result ≢ no_room → result ≡ memory }
    ensures wants { (setup : Setup) (calls : List Call) → Stands setup calls sink.old → result ≡ memory
        → IsSome (entry_at (snapshot_of setup (steps_of calls)).slots slot) }
{
    let machine = sink.lend();
    if slot >= machine.delegator.slot_count() {
        return NO_SLOT;
    }
    match machine.delegator.read_state(slot) {
        Ok(value) => {
            if put(value.as_slice(), room) {
                *count = value.as_slice().len();
                OK
            } else {
                ROOM
            }
        }
        Err(_) => MEMORY,
    }
}
