//! What a device says of a sink: its records, locations, contexts and MTU.
ghost use Rattle.std.specs.Prelude.{◌≤◌, ◌≡◌, ◌≢◌, ◌∷◌, ◌++◌, ◌<◌, [], List, length, IfOk, IfErr, IsSome, OnOk};
ghost use Rattle.pacs_records.specs.Layout.{Fits, greatest_value, value};
ghost use Rattle.delegator_history.specs.States.{contexts_set, locations_set, mtu_set, record_added, snapshot_of};
ghost use Rattle.delegator_history.specs.Trains.{Setup};
ghost use Rattle.delegator_machine.specs.Calls.{Call, control, steps_of};
ghost use Rattle.sink_c.specs.Sinks.{Stands, room_in, waiting_in};
ghost use Rattle.c_values.specs.Statuses.{layout, memory, ok, range, too_long};

use crate::handle::VmSink;
use base_grammar::is_lc3_codec;
use bcast_base::Octets;
use c_values::status::{LAYOUT, MEMORY, OK, RANGE, TOO_LONG};
use ltv_codec::check_ltvs;
use pacs_records::{PacRecord, PushFault};
use std::alloc::Global;

/// A record from octets, where they have the layout.
fn record_of(alloc: Global, codec: &[u8], caps: &[u8], metadata: &[u8]) -> Result<PacRecord, u32>
    ensures record { IfOk result (λ entry. entry ≡ record { codec = codec.now; caps = caps.now; metadata = metadata.now }) }
    ensures fits { OnOk result (Fits (record { codec = codec.now; caps = caps.now; metadata = metadata.now })) }
    ensures layout { IfErr result (λ status. status ≡ layout → ¬ Fits (record { codec = codec.now; caps = caps.now; metadata = metadata.now })) }
    ensures memory { IfErr result (λ status. status ≢ layout → (status ≡ memory) × Fits (record { codec = codec.now; caps = caps.now; metadata = metadata.now })) }
{
    let Ok(codec) = <[u8; 5]>::try_from(codec) else {
        return Err(LAYOUT);
    };
    if caps.len() > 255 || metadata.len() > 255 {
        return Err(LAYOUT);
    }
    if check_ltvs(metadata).is_err() {
        return Err(LAYOUT);
    }
    if is_lc3_codec(&codec) && check_ltvs(caps).is_err() {
        return Err(LAYOUT);
    }
    let Ok(caps) = Octets::copy(alloc, caps) else {
        return Err(MEMORY);
    };
    let Ok(metadata) = Octets::copy(alloc, metadata) else {
        return Err(MEMORY);
    };
    Ok(PacRecord {
        codec,
        caps,
        metadata,
    })
}

/// Adds a record of capabilities.
#[unsafe(no_mangle)]
pub extern "C" fn vm_sink_add_pac(
    alloc: Global,
    sink: &mut VmSink,
    codec: &[u8],
    caps: &[u8],
    metadata: &[u8],
) -> u32
    requires { IsSome sink.old.kept }
    ensures stands { (setup : Setup) (calls : List Call) → Stands setup calls sink.old → result ≡ ok
        → Stands setup (control (record_added (record { codec = codec.now; caps = caps.now; metadata = metadata.now })) ∷ calls) sink.new }
    ensures units { waiting_in sink.new ≡ waiting_in sink.old }
    ensures room { room_in sink.new ≡ room_in sink.old }
    ensures same { result ≢ ok → sink.new.kept ≡ sink.old.kept }
    ensures layout { Fits (record { codec = codec.now; caps = caps.now; metadata = metadata.now }) → result ≢ layout }
    ensures fits { result ≢ layout → Fits (record { codec = codec.now; caps = caps.now; metadata = metadata.now }) }
    ensures long { (setup : Setup) (calls : List Call) → Stands setup calls sink.old → result ≡ too_long
        → greatest_value < length (value ((snapshot_of setup (steps_of calls)).capability.entries ++ record { codec = codec.now; caps = caps.now; metadata = metadata.now } ∷ [])) }
    ensures short { (setup : Setup) (calls : List Call) → Stands setup calls sink.old → result ≡ ok
        → length (value ((snapshot_of setup (steps_of calls)).capability.entries ++ record { codec = codec.now; caps = caps.now; metadata = metadata.now } ∷ [])) ≤ greatest_value }
    ensures either { result ≢ ok → result ≢ layout → result ≢ too_long → result ≡ memory }
{
    let entry = match record_of(alloc, codec, caps, metadata) {
        Ok(entry) => entry,
        Err(status) => return status,
    };
    match sink.lend().delegator.add_pac(entry) {
        Ok(()) => OK,
        Err(PushFault::TooLong) => TOO_LONG,
        Err(PushFault::Memory) => MEMORY,
    }
}

/// Sets the Sink Audio Locations.
#[unsafe(no_mangle)]
pub extern "C" fn vm_sink_set_locations(sink: &mut VmSink, bits: u32)
    requires { IsSome sink.old.kept }
    ensures stands { (setup : Setup) (calls : List Call) → Stands setup calls sink.old
        → Stands setup (control (locations_set bits) ∷ calls) sink.new }
    ensures units { waiting_in sink.new ≡ waiting_in sink.old }
    ensures room { room_in sink.new ≡ room_in sink.old }
{
    sink.lend().delegator.set_locations(bits);
}

/// Sets the Available Sink Contexts.
#[unsafe(no_mangle)]
pub extern "C" fn vm_sink_set_contexts(sink: &mut VmSink, bits: u16)
    requires { IsSome sink.old.kept }
    ensures stands { (setup : Setup) (calls : List Call) → Stands setup calls sink.old
        → Stands setup (control (contexts_set bits) ∷ calls) sink.new }
    ensures units { waiting_in sink.new ≡ waiting_in sink.old }
    ensures room { room_in sink.new ≡ room_in sink.old }
{
    sink.lend().delegator.set_contexts(bits);
}

/// Sets the MTU, from 23 to 517.
#[unsafe(no_mangle)]
pub extern "C" fn vm_sink_set_mtu(sink: &mut VmSink, mtu: u16) -> u32
    requires { IsSome sink.old.kept }
    ensures stands { (setup : Setup) (calls : List Call) → Stands setup calls sink.old → result ≡ ok
        → Stands setup (control (mtu_set mtu) ∷ calls) sink.new }
    ensures units { waiting_in sink.new ≡ waiting_in sink.old }
    ensures room { room_in sink.new ≡ room_in sink.old }
    ensures same { result ≢ ok → sink.new.kept ≡ sink.old.kept }
    ensures in_range { 23 ≤ mtu → mtu ≤ 517 → result ≡ ok }
    ensures bounds { result ≢ range → (23 ≤ mtu) × (mtu ≤ 517) }
    ensures either { result ≢ ok → result ≡ range }
{
    if mtu < 23 || mtu > 517 {
        return RANGE;
    }
    sink.lend().delegator.set_mtu(mtu);
    OK
}
