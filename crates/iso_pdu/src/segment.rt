ghost use Rattle.std.specs.Prelude.{◌≡◌, ◌<◌, ◌≤◌, ◌-◌, length, take, drop, slice_index, ℕ, List, Some, None, Ok, IfOk, IfErr};
ghost use Rattle.iso_pdu.specs.Layout.{Part, framed};
ghost use Rattle.std.specs.Result.{result_err};
ghost use Rattle.bcast_base.specs.Numbers.{sum_from};
ghost use Rattle.iso_pdu.specs.Reading.{part_at, fault_at, parts_from, parts_of, read_of, IsPassed};
ghost use Rattle.iso_pdu.specs.State.Views.{part_of};

use crate::fault::PduFault;
use bcast_base::read_le;
use std::marker::Model;

/// A segment of a unit (Core 5.2, volume 6 part G, section 2).
#[derive(Clone, Copy)]
pub enum Segment<'a> {
    /// The first of its unit, with the offset of the unit's time in µs. `complete` says that it is also the last.
    Start {
        time_offset: u32,
        complete: bool,
        part: &'a [u8],
    },
    /// A further one. `complete` says that it is the last.
    More {
        complete: bool,
        part: &'a [u8],
    },
}

/// The segments of a payload that has no fault. Each part is lent from the payload.
#[derive(Drop)]
pub struct Segments<'a> {
    rest: &'a [u8],
}

impl<'a> Model for Segments<'a> {
    ghost use Rattle.std.specs.Prelude.{◌≡◌, List, Ok};
    ghost use Rattle.iso_pdu.specs.Layout.{Part};
    ghost use Rattle.iso_pdu.specs.Reading.{parts_of, parts_in};

    ghost Value = { List Part };

    ghost view = { λ s. parts_in s.rest.now };

    ghost invariant = { λ s. parts_of s.rest.now ≡ Ok (parts_in s.rest.now) };
}

impl<'a> Segments<'a> {
    /// The segments of a payload, or its first fault.
    pub(crate) fn of(payload: &'a [u8]) -> Result<Segments<'a>, PduFault>
        ensures { result ≡ parts_of payload.now }
    {
        check_segments(payload)?;
        Ok(Segments { rest: payload })
    }

    /// The segments of a framed PDU that was read before. Its faults are not looked for again.
    pub fn of_read(pdu: &'a [u8]) -> Segments<'a>
        requires { (max_pdu : ℕ) × (parts : List Part) × (read_of max_pdu pdu.now ≡ Ok (framed parts)) }
        ensures { (max_pdu : ℕ) (parts : List Part) → read_of max_pdu pdu.now ≡ Ok (framed parts) → result ≡ parts }
    {
        Segments {
            rest: behind_header(pdu),
        }
    }
}

impl<'a> Iterator for Segments<'a> {
    type Item = Segment<'a>;

    ghost use Rattle.std.specs.Iterator.{YieldsFirstBy, item_count};
    ghost use Rattle.iso_pdu.specs.State.Views.{part_of};

    ghost next_gives = { YieldsFirstBy part_of (λ s. s) };

    ghost remaining = { item_count (λ s. s) };

    fn next(&mut self) -> Option<Segment<'a>> {
        let rest = self.rest;
        if rest.is_empty() {
            return None;
        }
        let (segment, others) = split_segment(rest);
        self.rest = others;
        Some(segment)
    }
}

// What stands behind the header and the Length of a PDU.
fn behind_header(pdu: &[u8]) -> &[u8]
    requires { 2 ≤ length pdu.now }
    ensures { result.now ≡ drop 2 pdu.now }
{
    &pdu[2..]
}

// The first fault of the segments.
fn check_segments(payload: &[u8]) -> Result<(), PduFault>
    ensures { result_err result ≡ result_err (parts_of payload.now) }
{
    let mut place = 0usize;
    'segments: while place < payload.len() {
        place += segment_len(place, &payload[place..])?;
    }
    Ok(())
}

// How many octets the first segment has, or its fault.
fn segment_len(place: usize, from: &[u8]) -> Result<usize, PduFault>
    requires { 0 < length from.now }
    ensures ok { IfOk result (IsPassed place from.now) }
    ensures err { IfErr result (λ fault. result_err (parts_from place 0 from.now) ≡ Some fault) }
{
    if from.len() < 2 {
        return Err(PduFault::SegmentShort { place });
    }
    let count = usize::from(from[1]);
    match segment_fault(place, from[0], count, from.len() - 2) {
        Some(fault) => Err(fault),
        None => Ok(2 + count),
    }
}

// What is wrong with a segment of this header and Length, that so many octets follow.
fn segment_fault(place: usize, header: u8, count: usize, left: usize) -> Option<PduFault>
    ensures { result ≡ fault_at place header count left }
{
    if left < count {
        return Some(PduFault::SegmentShort { place });
    }
    if header % 2 == 0 && count < 3 {
        return Some(PduFault::SegmentNoOffset { place });
    }
    None
}

// The first segment, and the octets behind it.
fn split_segment(from: &[u8]) -> (Segment<'_>, &[u8])
    requires header { 2 ≤ length from.now }
    requires whole { fault_at 0 (slice_index from.now 0) (slice_index from.now 1) (length from.now - 2) ≡ None }
    ensures segment { part_of result.0 ≡ part_at (slice_index from.now 0) (take (slice_index from.now 1) (drop 2 from.now)) }
    ensures others { result.1.now ≡ drop (slice_index from.now 1) (drop 2 from.now) }
{
    let header = from[0];
    let complete = header / 2 % 2 == 1;
    let (body, others) = from[2..].split_at(usize::from(from[1]));
    if header % 2 == 1 {
        return (
            Segment::More {
                complete,
                part: body,
            },
            others,
        );
    }
    let time_offset = read_offset(body);
    let part = &body[3..];
    (
        Segment::Start {
            time_offset,
            complete,
            part,
        },
        others,
    )
}

// The time offset that a start's octets begin with.
fn read_offset(body: &[u8]) -> u32
    requires { 3 ≤ length body.now }
    ensures { result ≡ sum_from 0 (take 3 body.now) }
{
    read_le(&body[..3]) as u32
}
