//! The units that a sink hands up.
ghost use Rattle.std.specs.Prelude.{◌≡◌, ◌≢◌, ◌∷◌, ◌++◌, ◌≤◌, ◌<◌, ◌^◌, [], ℕ, List, length, take, IsSome, false};
ghost use Rattle.delegator_history.specs.Trains.{Setup};
ghost use Rattle.delegator_machine.specs.Calls.{Call, tick};
ghost use Rattle.delegator_machine.specs.Groups.{group_calls};
ghost use Rattle.group_sink.specs.Handing.{handed_at};
ghost use Rattle.unit_outlets.specs.Handed.{Handed};
ghost use Rattle.c_values.specs.Kept.{HasRoom, IsWithin, greatest_unit};
ghost use Rattle.c_values.specs.Statuses.{empty, memory, no_room, ok, range};
ghost use Rattle.c_values.specs.Units.{unit_in};
ghost use Rattle.sink_c.specs.Sinks.{Stands, all_handed, room_in, waiting_in};

use crate::handle::VmSink;
use c_values::VmUnit;
use c_values::status::{MEMORY, OK, RANGE};

/// Room for so many units, 1 to 1,024, of so many octets each, 1 to 4,095, taken once and in place of the room that there was. What waits
/// stays. From then on a tick takes no memory while no more units wait than there is room for, and none is longer.
#[unsafe(no_mangle)]
pub extern "C" fn vm_sink_reserve(sink: &mut VmSink, units: usize, octets: usize) -> u32
    requires { IsSome sink.old.kept }
    ensures stands { (setup : Setup) (calls : List Call) → Stands setup calls sink.old → Stands setup calls sink.new }
    ensures units { waiting_in sink.new ≡ waiting_in sink.old }
    ensures room { result ≡ ok → room_in sink.new ≡ record { units = units; octets = octets } }
    ensures same { result ≢ ok → sink.new.kept ≡ sink.old.kept }
    ensures in_range { 1 ≤ units → units ≤ 1024 → 1 ≤ octets → octets ≤ greatest_unit → result ≢ range }
    ensures bounds { result ≢ range → (1 ≤ units) × (units ≤ 1024) × (1 ≤ octets) × (octets ≤ greatest_unit) }
    ensures either { result ≢ ok → result ≢ range → result ≡ memory }
{
    if units < 1 || units > 1024 || octets < 1 || octets > 4095 {
        return RANGE;
    }
    match sink.lend().units.reserve(units, octets) {
        Ok(()) => OK,
        Err(_) => MEMORY,
    }
}

/// All events up to this one are over. The units that this hands up wait behind those that wait. After want of memory the events are
/// over too, and a prefix of the units waits. It never wants memory where there is room for those that wait and those that it hands up.
#[unsafe(no_mangle)]
pub extern "C" fn vm_sink_tick(sink: &mut VmSink, event: u64) -> u32
    requires { IsSome sink.old.kept }
    ensures stands { (setup : Setup) (calls : List Call) → Stands setup calls sink.old → result ≢ range
        → Stands setup (tick event ∷ calls) sink.new }
    ensures units { (setup : Setup) (calls : List Call) → Stands setup calls sink.old → result ≡ ok
        → waiting_in sink.new ≡ waiting_in sink.old ++ handed_at (group_calls setup calls) event }
    ensures part { (setup : Setup) (calls : List Call) → Stands setup calls sink.old → result ≡ memory
        → (n : ℕ) × (n < length (handed_at (group_calls setup calls) event))
        × (waiting_in sink.new ≡ waiting_in sink.old ++ take n (handed_at (group_calls setup calls) event)) }
    ensures carried { (setup : Setup) (calls : List Call) (taken : List Handed) → Stands setup calls sink.old → result ≡ ok
        → taken ++ waiting_in sink.old ≡ all_handed setup calls → taken ++ waiting_in sink.new ≡ all_handed setup (tick event ∷ calls) }
    ensures served { (setup : Setup) (calls : List Call) → Stands setup calls sink.old
        → HasRoom (room_in sink.old) (length (waiting_in sink.old)) (handed_at (group_calls setup calls) event) → result ≢ memory }
    ensures room { (setup : Setup) (calls : List Call) → Stands setup calls sink.old → room_in sink.new ≡ room_in sink.old }
    ensures same { result ≡ range → sink.new.kept ≡ sink.old.kept }
    ensures in_range { event < 2 ^ 39 → result ≢ range }
    ensures bounds { result ≢ range → event < 2 ^ 39 }
    ensures either { result ≢ ok → result ≢ range → result ≡ memory }
{
    if event >= 1 << 39 {
        return RANGE;
    }
    let machine = sink.lend();
    machine.units.begin();
    let handed = machine.delegator.tick(event, &mut machine.units);
    if machine.units.end(handed) {
        OK
    } else {
        MEMORY
    }
}

/// Takes the first unit that waits. ROOM where the room is too small for its octets, and it still waits; EMPTY where none waits. A room of
/// 4,095 octets is always enough.
#[unsafe(no_mangle)]
pub extern "C" fn vm_sink_next_unit(sink: &mut VmSink, room: &mut [u8], unit: &mut VmUnit) -> u32
    requires { IsSome sink.old.kept }
    ensures taken { result ≡ ok → waiting_in sink.old ≡ unit_in unit.new room.new ∷ waiting_in sink.new }
    ensures carried { (taken all : List Handed) → result ≡ ok → taken ++ waiting_in sink.old ≡ all
        → (taken ++ unit_in unit.new room.new ∷ []) ++ waiting_in sink.new ≡ all }
    ensures none { result ≡ empty → waiting_in sink.old ≡ [] }
    ensures stands { (setup : Setup) (calls : List Call) → Stands setup calls sink.old → Stands setup calls sink.new }
    ensures same { result ≢ ok → (sink.new.kept ≡ sink.old.kept) × (unit.new ≡ unit.old) × (room.new ≡ room.old) }
    ensures room { room_in sink.new ≡ room_in sink.old }
    ensures enough { greatest_unit ≤ length room.old → result ≢ no_room }
    ensures within { (first : Handed) (others : List Handed) → waiting_in sink.old ≡ first ∷ others → IsWithin (length room.old) first
        → result ≢ no_room }
    ensures waits { waiting_in sink.old ≢ [] → result ≢ empty }
    ensures count { result ≡ ok → unit.new.count ≤ length room.new }
    ensures lost { result ≡ ok → unit.new.is_valid ≡ false → unit.new.count ≡ 0 }
    ensures either { result ≢ ok → result ≢ empty → result ≡ no_room }
{
    sink.lend().units.take_into(room, unit)
}
