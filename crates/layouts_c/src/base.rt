//! A BASE: its streams, what holds for one, and whether a device takes it.
ghost use Rattle.std.specs.Prelude.{◌≡◌, ◌≢◌, ◌≤◌, ◌<◌, ◌^◌, ◌↔◌, ℕ, List, IsTrue, IsOk, Ok, None, false};
ghost use Rattle.base_grammar.specs.Effective.{effective_of};
ghost use Rattle.base_grammar.specs.Layout.{Endpoint, indices, stands_in};
ghost use Rattle.base_grammar.specs.Reading.{base_of};
ghost use Rattle.bcast_base.specs.Bis.{Has};
ghost use Rattle.c_values.specs.Statuses.{empty, layout, memory, no_bis, ok, range};
ghost use Rattle.layouts_c.specs.Bases.{IsToldOf, RefusedAs, capability, effective_c};
ghost use Rattle.pacs_records.specs.Match.{TakesStream, number};
ghost use Rattle.pacs_records.specs.Reading.{value_in};
ghost use Rattle.pacs_records.specs.declared.record.PacRecord.{PacRecord};

use base_grammar::{Base, BaseFault, Effective, decode_base};
use bcast_base::{Bis, BisSet};
use c_values::status::{EMPTY, LAYOUT, MEMORY, NO_BIS, OK, RANGE};
use pacs_records::{Capability, NotTaken, PacFault, Records, decode_pacs, takes};
use std::alloc::Global;

/// What holds for a stream of a BASE; a value that it hasn't is 0. The place of its subgroup counts from 0.
#[repr(C)]
#[derive(Clone, Copy)]
pub struct AirEffective {
    pub subgroup: usize,
    pub allocation: u32,
    pub contexts: u16,
    pub frame_octets: u16,
    pub frequency: u8,
    pub duration: u8,
    pub blocks: u8,
    pub has_allocation: bool,
    pub has_contexts: bool,
    pub has_frame_octets: bool,
    pub has_frequency: bool,
    pub has_duration: bool,
    pub has_blocks: bool,
    pub codec: [u8; 5],
}

fn effective_for_c(it: &Effective) -> AirEffective
    ensures { result ≡ effective_c it.now }
{
    let config = it.config;
    AirEffective {
        subgroup: it.subgroup,
        allocation: config.allocation.unwrap_or(0),
        contexts: it.contexts.unwrap_or(0),
        frame_octets: config.frame_octets.unwrap_or(0),
        frequency: config.frequency.unwrap_or(0),
        duration: config.duration.unwrap_or(0),
        blocks: config.blocks.unwrap_or(0),
        has_allocation: config.allocation.is_some(),
        has_contexts: it.contexts.is_some(),
        has_frame_octets: config.frame_octets.is_some(),
        has_frequency: config.frequency.is_some(),
        has_duration: config.duration.is_some(),
        has_blocks: config.blocks.is_some(),
        codec: it.codec,
    }
}

/// What holds for a stream of a BASE (Basic Audio Profile 1.0, section 3.7.2.2).
#[unsafe(no_mangle)]
pub extern "C" fn air_base_effective(
    alloc: Global,
    from: &[u8],
    bis: u8,
    into: &mut AirEffective,
) -> u32
    ensures found { (base : Endpoint) → base_of from.now ≡ Ok base → result ≡ ok → IsToldOf (effective_of base bis) into.new }
    ensures none { (base : Endpoint) → base_of from.now ≡ Ok base → result ≡ no_bis → effective_of base bis ≡ None }
    ensures is_base { result ≢ range → result ≢ layout → result ≢ memory → IsOk (base_of from.now) }
    ensures layout { IsOk (base_of from.now) → result ≢ layout }
    ensures same { result ≢ ok → into.new ≡ into.old }
    ensures in_range { 1 ≤ bis → bis ≤ 31 → result ≢ range }
    ensures bounds { result ≢ range → (1 ≤ bis) × (bis ≤ 31) }
    ensures either { result ≢ ok → result ≢ range → result ≢ layout → result ≢ no_bis → result ≡ memory }
{
    let Some(bis) = Bis::new(bis) else {
        return RANGE;
    };
    let base = match decode_base(alloc, from) {
        Ok(base) => base,
        Err(BaseFault::Memory) => return MEMORY,
        Err(_) => return LAYOUT,
    };
    match base.effective(bis) {
        Some(it) => {
            *into = effective_for_c(&it);
            OK
        }
        None => NO_BIS,
    }
}

/// Whether the BASE has a stream of this index.
fn has_stream(base: &Base, bis: Bis) -> bool
    ensures { result ≡ stands_in (indices base.now.subgroups) bis }
{
    base.effective(bis).is_some()
}

/// The stream of this index, which is from 1 to 31.
pub(crate) fn stream(n: u8) -> Bis
    requires least { 1 ≤ n }
    requires greatest { n ≤ 31 }
    ensures { result ≡ n }
{
    Bis::new(n).unwrap()
}

/// The streams of a BASE.
fn streams_of(base: &Base) -> BisSet
    ensures { (bis : ℕ) → 1 ≤ bis → bis ≤ 31 → Has result bis ↔ IsTrue (stands_in (indices base.now.subgroups) bis) }
{
    let mut streams = BisSet::new();
    'streams: for n in 1..32u8 {
        let bis = stream(n);
        if has_stream(base, bis) {
            streams = streams.with(bis);
        }
    }
    streams
}

/// The streams of a BASE: bit n for index n + 1.
#[unsafe(no_mangle)]
pub extern "C" fn air_base_streams(alloc: Global, from: &[u8], streams: &mut u32) -> u32
    ensures streams { (base : Endpoint) (bis : ℕ) → base_of from.now ≡ Ok base → result ≡ ok → 1 ≤ bis → bis ≤ 31
        → Has streams.new bis ↔ IsTrue (stands_in (indices base.subgroups) bis) }
    ensures few { result ≡ ok → streams.new < 2 ^ 31 }
    ensures is_base { result ≡ ok → IsOk (base_of from.now) }
    ensures layout { IsOk (base_of from.now) → result ≢ layout }
    ensures same { result ≢ ok → streams.new ≡ streams.old }
    ensures either { result ≢ ok → result ≢ layout → result ≡ memory }
{
    match decode_base(alloc, from) {
        Ok(base) => {
            *streams = streams_of(&base).bits();
            OK
        }
        Err(BaseFault::Memory) => MEMORY,
        Err(_) => LAYOUT,
    }
}

/// The number of a requirement that isn't met.
fn reason_number(reason: NotTaken) -> u8
    ensures { result ≡ number reason }
{
    match reason {
        NotTaken::Codec => 1,
        NotTaken::Frequency => 2,
        NotTaken::Duration => 3,
        NotTaken::FrameOctets => 4,
        NotTaken::Channels => 5,
        NotTaken::FramesPerSdu => 6,
        NotTaken::Location => 7,
        NotTaken::Context => 8,
    }
}

/// Whether a device with these records, audio locations and available contexts takes a stream of a BASE: its status, and the
/// number of the reason where it doesn't.
fn taking(
    entries: Records,
    locations: u32,
    contexts: u16,
    base: &Base,
    bis: Bis,
    reason: &mut u8,
) -> u32
    ensures taken { result ≡ ok → TakesStream (capability entries locations contexts) base.now bis }
    ensures refused { result ≡ empty → RefusedAs (capability entries locations contexts) base.now bis reason.new }
    ensures none { result ≡ no_bis → stands_in (indices base.now.subgroups) bis ≡ false }
    ensures same { result ≢ empty → reason.new ≡ reason.old }
    ensures either { result ≢ ok → result ≢ empty → result ≡ no_bis }
{
    if !has_stream(base, bis) {
        return NO_BIS;
    }
    let capability = Capability {
        entries,
        locations,
        contexts,
    };
    match takes(&capability, base, bis) {
        Ok(()) => OK,
        Err(found) => {
            *reason = reason_number(found);
            EMPTY
        }
    }
}

/// Whether a device with these records, audio locations and available contexts (Published Audio Capabilities Service 1.0,
/// sections 3.1, 3.2 and 3.5) takes a stream of a BASE, and else the number of the first requirement that isn't met.
#[unsafe(no_mangle)]
pub extern "C" fn air_takes(
    alloc: Global,
    records: &[u8],
    locations: u32,
    contexts: u16,
    base: &[u8],
    bis: u8,
    reason: &mut u8,
) -> u32
    ensures taken { (list : List PacRecord) (it : Endpoint) → value_in records.now ≡ Ok list → base_of base.now ≡ Ok it → result ≡ ok
        → TakesStream (capability list locations contexts) it bis }
    ensures refused { (list : List PacRecord) (it : Endpoint) → value_in records.now ≡ Ok list → base_of base.now ≡ Ok it → result ≡ empty
        → RefusedAs (capability list locations contexts) it bis reason.new }
    ensures none { (it : Endpoint) → base_of base.now ≡ Ok it → result ≡ no_bis → stands_in (indices it.subgroups) bis ≡ false }
    ensures are_records { result ≢ range → result ≢ layout → result ≢ memory → IsOk (value_in records.now) }
    ensures is_base { result ≢ range → result ≢ layout → result ≢ memory → IsOk (base_of base.now) }
    ensures layout { IsOk (value_in records.now) → IsOk (base_of base.now) → result ≢ layout }
    ensures same { result ≢ empty → reason.new ≡ reason.old }
    ensures in_range { 1 ≤ bis → bis ≤ 31 → result ≢ range }
    ensures bounds { result ≢ range → (1 ≤ bis) × (bis ≤ 31) }
    ensures either { result ≢ ok → result ≢ range → result ≢ layout → result ≢ no_bis → result ≢ empty → result ≡ memory }
{
    let Some(bis) = Bis::new(bis) else {
        return RANGE;
    };
    let entries = match decode_pacs(alloc, records) {
        Ok(entries) => entries,
        Err(PacFault::Memory) => return MEMORY,
        Err(_) => return LAYOUT,
    };
    let base = match decode_base(alloc, base) {
        Ok(base) => base,
        Err(BaseFault::Memory) => return MEMORY,
        Err(_) => return LAYOUT,
    };
    taking(entries, locations, contexts, &base, bis, reason)
}
