ghost use Rattle.std.specs.Prelude.{◌≡◌, ◌<◌, ◌≤◌, List, length, get_or, IfOk, IfErr, IsOk, OnErr, Ok, Err};
ghost use Rattle.std.specs.Result.{result_err};
ghost use Rattle.pacs_records.specs.Layout.{PacIs};
ghost use Rattle.pacs_records.specs.Faults.{IsFault};
ghost use Rattle.bcast_base.specs.Tries.{Answers, Reads};
ghost use Rattle.pacs_records.specs.Reading.{told, codec_in, run_in, record_in, records_in, list_of, rest_of, value_in};
ghost use Rattle.pacs_records.specs.declared.fault.PacFault.TheVariants.{Memory as NoMemory};
ghost use Rattle.pacs_records.specs.declared.record.PacRecord.{PacRecord};

use crate::fault::PacFault;
use crate::record::PacRecord;
use crate::records::Records;
use base_grammar::is_lc3_codec;
use bcast_base::{Items, Memory, Octets, array_at, octet_at, octets_at, place_of};
use ltv_codec::check_ltvs;
use std::alloc::Global;

/// The most octets of a value: those of an attribute.
const GREATEST_VALUE: usize = 512;

// A record, lent from the octets that encode it.
#[derive(Clone, Copy)]
struct LentRecord<'a> {
    codec: [u8; 5],
    caps: &'a [u8],
    metadata: &'a [u8],
}

/// The records of a Sink PAC value (Published Audio Capabilities Service 1.0, section 3.1).
///
/// TooLong comes first, where there are more than 512 octets. Else it is the first fault from the left: Short where a
/// field is not whole, Ltv where the capabilities of LC3 or the metadata are no LTV list, Trailing where octets follow
/// the last record. Want of memory comes only for octets that are a value. No records take none.
pub fn decode_pacs(alloc: Global, from: &[u8]) -> Result<Records, PacFault>
    ensures exact { Answers told result (value_in from.now) }
    ensures value { IfOk result (λ records. PacIs records from.now) }
    ensures only { (records : List PacRecord) → PacIs records from.now → Answers told result (Ok records) }
    ensures cut { IfErr result (λ fault. IsFault fault from.now) }
{
    decode_records(alloc, from)
}

// The list of the records.
fn decode_records(alloc: Global, from: &[u8]) -> Result<Records, PacFault>
    ensures exact { Answers told result (value_in from.now) }
    ensures memory { result ≡ Err NoMemory → 0 < get_or from.now 0 0 }
{
    check_value(from)?;
    let list = own_value(alloc, from)?;
    Ok(Records::of(list, from.len()))
}

// What is wrong with the octets, which are looked through before any memory is taken.
#[tactic(auto, unfolding(crate::specs::Reading::value_in))]
fn check_value(from: &[u8]) -> Result<(), PacFault>
    ensures { result_err result ≡ result_err (value_in from.now) }
{
    if GREATEST_VALUE < from.len() {
        return Err(PacFault::TooLong);
    }
    let Some((count, rest)) = octet_at(from) else {
        return Err(PacFault::Short { place: 0 });
    };
    let rest = records_end(from, rest, count)?;
    if !rest.is_empty() {
        return Err(PacFault::Trailing {
            place: place_of(from, rest),
        });
    }
    Ok(())
}

// The octets after so many records.
fn records_end<'a>(whole: &[u8], from: &'a [u8], count: u8) -> Result<&'a [u8], PacFault>
    requires { length from.now ≤ length whole.now }
    ensures exact { Reads (λ rest. rest.now) result (rest_of (records_in whole.now count from.now)) }
    ensures within { IfOk result (λ rest. length rest.now ≤ length whole.now) }
{
    let mut rest = from;
    for _ in 0..count {
        let (_record, after) = record_at(whole, rest)?;
        rest = after;
    }
    Ok(rest)
}

// The records of octets that are a value, in memory of their own.
fn own_value(alloc: Global, from: &[u8]) -> Result<Items<PacRecord>, Memory>
    requires { IsOk (value_in from.now) }
    ensures ok { IfOk result (λ records. value_in from.now ≡ Ok records) }
    ensures err { OnErr result (0 < get_or from.now 0 0) }
{
    let Some((count, rest)) = octet_at(from) else {
        unreachable!()
    };
    own_records(alloc, from, rest, count)
}

// So many records in memory of their own.
fn own_records(
    alloc: Global,
    whole: &[u8],
    from: &[u8],
    count: u8,
) -> Result<Items<PacRecord>, Memory>
    requires within { length from.now ≤ length whole.now }
    requires read { IsOk (records_in whole.now count from.now) }
    ensures ok { IfOk result (λ records. list_of (records_in whole.now count from.now) ≡ Ok records) }
    ensures err { OnErr result (0 < count) }
{
    let mut records = Items::new(alloc);
    let mut rest = from;
    for _ in 0..count {
        let Ok((lent, after)) = record_at(whole, rest) else {
            unreachable!()
        };
        let record = own_record(alloc, &lent)?;
        records.push(record)?;
        rest = after;
    }
    Ok(records)
}

// A record in memory of its own.
fn own_record(alloc: Global, lent: &LentRecord<'_>) -> Result<PacRecord, Memory>
    ensures { IfOk result (λ x. x ≡ record { codec = lent.now.codec; caps = lent.now.caps.now; metadata = lent.now.metadata.now }) }
{
    Ok(PacRecord {
        codec: lent.codec,
        caps: Octets::copy(alloc, lent.caps)?,
        metadata: Octets::copy(alloc, lent.metadata)?,
    })
}

// A record and the octets after it.
#[tactic(auto, unfolding(crate::specs::Reading::record_in))]
fn record_at<'a>(whole: &[u8], from: &'a [u8]) -> Result<(LentRecord<'a>, &'a [u8]), PacFault>
    requires { length from.now ≤ length whole.now }
    ensures exact { Reads (λ x. (record { codec = x.0.codec; caps = x.0.caps.now; metadata = x.0.metadata.now }, x.1.now)) result
        (record_in whole.now from.now) }
    ensures within { IfOk result (λ x. length x.1.now ≤ length whole.now) }
{
    let (codec, rest) = codec_at(whole, from)?;
    let (caps, rest) = run_at(whole, rest, is_lc3_codec(&codec))?;
    let (metadata, rest) = run_at(whole, rest, true)?;
    let record = LentRecord {
        codec,
        caps,
        metadata,
    };
    Ok((record, rest))
}

// The Codec_ID and the octets after it.
fn codec_at<'a>(whole: &[u8], from: &'a [u8]) -> Result<([u8; 5], &'a [u8]), PacFault>
    requires { length from.now ≤ length whole.now }
    ensures exact { Reads (λ x. (x.0, x.1.now)) result (codec_in whole.now from.now) }
    ensures within { IfOk result (λ x. length x.1.now ≤ length whole.now) }
{
    match array_at(from) {
        Some(field) => Ok(field),
        None => Err(PacFault::Short {
            place: place_of(whole, from),
        }),
    }
}

// A run of octets behind their count, and the octets after it. Where `listed`, the run is an LTV list.
#[tactic(auto, unfolding(crate::specs::Reading::run_in))]
fn run_at<'a>(whole: &[u8], from: &'a [u8], listed: bool) -> Result<(&'a [u8], &'a [u8]), PacFault>
    requires { length from.now ≤ length whole.now }
    ensures exact { Reads (λ x. (x.0.now, x.1.now)) result (run_in listed whole.now from.now) }
    ensures within { IfOk result (λ x. length x.1.now ≤ length whole.now) }
{
    let place = place_of(whole, from);
    let Some((count, behind)) = octet_at(from) else {
        return Err(PacFault::Short { place });
    };
    let place = place_of(whole, behind);
    let Some((run, after)) = octets_at(behind, usize::from(count)) else {
        return Err(PacFault::Short { place });
    };
    if listed && let Err(fault) = check_ltvs(run) {
        return Err(PacFault::Ltv { place, fault });
    }
    Ok((run, after))
}
