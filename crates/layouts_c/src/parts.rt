//! A BASE that is written by its parts.
ghost use Rattle.std.specs.Prelude.{◌≡◌, ◌≢◌, ◌<◌, ◌≤◌, ◌^◌, ℕ, IfErr, IfOk, IsTrue, length, map, take, true};
ghost use Rattle.std.specs.List.{AllByRecursion, list_all};
ghost use Rattle.base_grammar.specs.Layout.{BaseIs, HasCodec, IsBase, encoding};
ghost use Rattle.base_grammar.specs.Reading.{base_of, told};
ghost use Rattle.bcast_base.specs.Tries.{FindsOrWants};
ghost use Rattle.std.specs.Option.{option_map};
ghost use Rattle.c_values.specs.Faults.{base_fault_c};
ghost use Rattle.c_values.specs.Statuses.{layout, memory, no_room, ok, range};
ghost use Rattle.layouts_c.specs.BaseParts.{ToldAs, base_in, entry_in, is_within, parts_fit, run_in, stream_fits, streams_at, subgroup_fits, subgroup_in, subgroups_in};

use crate::base::stream;
use base_grammar::{BaseEntry, BaseFault, Entries, Subgroup, encode_parts};
use bcast_base::{Memory, Octets};
use c_values::status::{LAYOUT, MEMORY, OK, RANGE, ROOM};
use c_values::{AirFault, base_fault_for_c, put};
use std::alloc::Global;

/// A subgroup of a BASE: its Codec_ID, and where its configuration and its metadata stand among the octets beside it.
#[repr(C)]
#[derive(Clone, Copy)]
pub struct AirBaseSubgroup {
    pub config_place: usize,
    pub config_count: usize,
    pub metadata_place: usize,
    pub metadata_count: usize,
    pub codec: [u8; 5],
}

/// A stream of a BASE: the place of its subgroup, from 0, its index, and where its own configuration stands among the octets.
#[repr(C)]
#[derive(Clone, Copy)]
pub struct AirBaseStream {
    pub config_place: usize,
    pub config_count: usize,
    pub subgroup: u8,
    pub bis: u8,
}

/// Whether so many octets stand from a place on.
fn is_within(octets: &[u8], place: usize, count: usize) -> bool
    ensures { result ≡ is_within (length octets.now) place count }
{
    if octets.len() < place {
        return false;
    }
    count <= octets.len() - place
}

/// Whether the runs of a subgroup stand among the octets.
fn subgroup_fits(octets: &[u8], it: &AirBaseSubgroup) -> bool
    ensures { result ≡ subgroup_fits (length octets.now) it.now }
{
    is_within(octets, it.config_place, it.config_count)
        && is_within(octets, it.metadata_place, it.metadata_count)
}

/// Whether a stream has an index, one of so many subgroups, and a run among the octets.
fn stream_fits(octets: &[u8], subgroups: usize, it: &AirBaseStream) -> bool
    ensures { result ≡ stream_fits (length octets.now) subgroups it.now }
{
    1 <= it.bis
        && it.bis <= 31
        && usize::from(it.subgroup) < subgroups
        && is_within(octets, it.config_place, it.config_count)
}

/// Whether all subgroups have their runs.
fn all_subgroups_fit(octets: &[u8], subgroups: &[AirBaseSubgroup]) -> bool
    ensures { result ≡ list_all (subgroup_fits (length octets.now)) subgroups.now }
{
    subgroups.iter().all(|it| subgroup_fits(octets, it))
}

/// Whether all streams have their numbers and their runs.
fn all_streams_fit(octets: &[u8], subgroups: usize, streams: &[AirBaseStream]) -> bool
    ensures { result ≡ list_all (stream_fits (length octets.now) subgroups) streams.now }
{
    streams.iter().all(|it| stream_fits(octets, subgroups, it))
}

/// Whether all parts have their ranges.
fn parts_fit(
    delay: u32,
    subgroups: &[AirBaseSubgroup],
    streams: &[AirBaseStream],
    octets: &[u8],
) -> bool
    ensures { result ≡ parts_fit delay subgroups.now streams.now octets.now }
{
    delay < 1 << 24
        && all_subgroups_fit(octets, subgroups)
        && all_streams_fit(octets, subgroups.len(), streams)
}

/// So many octets from a place on, in new memory.
fn run_of(alloc: Global, octets: &[u8], place: usize, count: usize) -> Result<Octets, Memory>
    requires { IsTrue (is_within (length octets.now) place count) }
    ensures { IfOk result (λ run. run ≡ run_in octets.now place count) }
{
    Octets::copy(alloc, &octets[place..][..count])
}

/// The entry of a stream.
fn entry_of(
    alloc: Global,
    octets: &[u8],
    it: &AirBaseStream,
    subgroups: usize,
) -> Result<BaseEntry, Memory>
    requires { IsTrue (stream_fits (length octets.now) subgroups it.now) }
    ensures { IfOk result (λ entry. entry ≡ entry_in octets.now it.now) }
{
    let bis = stream(it.bis);
    let config = run_of(alloc, octets, it.config_place, it.config_count)?;
    Ok(BaseEntry { bis, config })
}

/// The entries of the subgroup at a place.
fn entries_of(
    alloc: Global,
    octets: &[u8],
    streams: &[AirBaseStream],
    subgroups: usize,
    place: usize,
) -> Result<Entries, Memory>
    requires { list_all (stream_fits (length octets.now) subgroups) streams.now ≡ true }
    ensures { IfOk result (λ entries. entries ≡ map (entry_in octets.now) (streams_at place streams.now)) }
{
    let mut entries = Entries::new(alloc);
    for it in streams {
        if usize::from(it.subgroup) == place {
            match entry_of(alloc, octets, it, subgroups) {
                Ok(entry) => entries.push(entry)?,
                Err(_) => return Err(Memory),
            }
        }
    }
    Ok(entries)
}

/// The subgroup at a place.
fn subgroup_of(
    alloc: Global,
    octets: &[u8],
    streams: &[AirBaseStream],
    subgroups: usize,
    place: usize,
    it: &AirBaseSubgroup,
) -> Result<Subgroup, Memory>
    requires streams { list_all (stream_fits (length octets.now) subgroups) streams.now ≡ true }
    requires fits { IsTrue (subgroup_fits (length octets.now) it.now) }
    ensures subgroup { IfOk result (λ subgroup. subgroup ≡ subgroup_in octets.now streams.now place it.now) }
    ensures codec { IfOk result HasCodec }
{
    let codec = it.codec;
    let config = run_of(alloc, octets, it.config_place, it.config_count)?;
    let metadata = run_of(alloc, octets, it.metadata_place, it.metadata_count)?;
    let entries = entries_of(alloc, octets, streams, subgroups, place)?;
    Ok(Subgroup {
        codec,
        config,
        metadata,
        entries,
    })
}

/// All subgroups.
fn subgroups_of(
    alloc: Global,
    octets: &[u8],
    streams: &[AirBaseStream],
    subgroups: &[AirBaseSubgroup],
) -> Result<Vec<Subgroup>, Memory>
    requires streams { list_all (stream_fits (length octets.now) (length subgroups.now)) streams.now ≡ true }
    requires fits { list_all (subgroup_fits (length octets.now)) subgroups.now ≡ true }
    ensures subgroups { IfOk result (λ made. made.items ≡ subgroups_in octets.now streams.now 0 subgroups.now) }
    ensures codecs { IfOk result (λ made. AllByRecursion HasCodec made.items) }
{
    let mut made = Vec::new(alloc);
    'subgroups: for place in 0..subgroups.len() {
        match subgroup_of(
            alloc,
            octets,
            streams,
            subgroups.len(),
            place,
            &subgroups[place],
        ) {
            Ok(subgroup) => made.push(subgroup)?,
            Err(_) => return Err(Memory),
        }
    }
    Ok(made)
}

/// The octets of the BASE, or what is wrong with it.
fn octets_of(
    alloc: Global,
    delay: u32,
    subgroups: &[AirBaseSubgroup],
    streams: &[AirBaseStream],
    octets: &[u8],
) -> Result<Octets, BaseFault>
    requires { IsTrue (parts_fit delay subgroups.now streams.now octets.now) }
    ensures base { IfOk result (BaseIs (base_in delay subgroups.now streams.now octets.now)) }
    ensures fault { IfErr result (λ fault. FindsOrWants (told fault) (base_of (encoding (base_in delay subgroups.now streams.now octets.now)))) }
{
    match subgroups_of(alloc, octets, streams, subgroups) {
        Ok(made) => encode_parts(alloc, delay, &made),
        Err(_) => Err(BaseFault::Memory),
    }
}

/// The fault of parts that are no BASE for C; none where memory ran out.
fn fault_in(found: BaseFault) -> Option<AirFault>
    ensures { result ≡ option_map base_fault_c (told found) }
{
    match found {
        BaseFault::Memory => None,
        found => Some(base_fault_for_c(found)),
    }
}

/// Writes a BASE (Basic Audio Profile 1.0, section 3.7.2.2) at the front of the room: its presentation delay in µs, its subgroups, and the
/// streams of each in their order. Their configurations and metadata stand among the octets, each from its place on, and may be shared.
#[unsafe(no_mangle)]
pub extern "C" fn air_base_write(
    alloc: Global,
    delay: u32,
    subgroups: &[AirBaseSubgroup],
    streams: &[AirBaseStream],
    octets: &[u8],
    room: &mut [u8],
    count: &mut usize,
    fault: &mut AirFault,
) -> u32
    ensures written { result ≡ ok → BaseIs (base_in delay subgroups.now streams.now octets.now) (take count.new room.new) }
    ensures count { result ≡ ok → count.new ≤ length room.new }
    ensures fault { result ≡ layout → ToldAs (base_of (encoding (base_in delay subgroups.now streams.now octets.now))) fault.new }
    ensures base { IsBase (base_in delay subgroups.now streams.now octets.now) → result ≢ layout }
    ensures quiet { result ≢ layout → fault.new ≡ fault.old }
    ensures in_range { IsTrue (parts_fit delay subgroups.now streams.now octets.now) → result ≢ range }
    ensures bounds { result ≢ range → IsTrue (parts_fit delay subgroups.now streams.now octets.now) }
    ensures room { length (encoding (base_in delay subgroups.now streams.now octets.now)) ≤ length room.old → result ≢ no_room }
    ensures enough { 252 ≤ length room.old → result ≢ no_room }
    ensures same { result ≢ ok → (room.new ≡ room.old) × (count.new ≡ count.old) }
    ensures either { result ≢ ok → result ≢ range → result ≢ layout → result ≢ no_room → result ≡ memory }
{
    if !parts_fit(delay, subgroups, streams, octets) {
        return RANGE;
    }
    let encoded = match octets_of(alloc, delay, subgroups, streams, octets) {
        Ok(encoded) => encoded,
        Err(found) => match fault_in(found) {
            None => return MEMORY,
            Some(found) => {
                *fault = found;
                return LAYOUT;
            }
        },
    };
    if !put(encoded.as_slice(), room) {
        return ROOM;
    }
    *count = encoded.as_slice().len();
    OK
}
