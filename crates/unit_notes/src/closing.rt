//! What the close of an event makes of the units of a stream at a sink, by the PDUs that were sent and those of them that were heard.
use crate::asking::sent;
use crate::fate::{At, Fate, Foretold};
use crate::ledger::{Start, Stream};
use crate::marks::{has, with};
use crate::schedule::Schedule;
use bcast_base::{Bis, Memory};
use iso_pdu::{Pdu, Segment, Segments, read_pdu};
use replay_steps::Machine;

/// No PDU of a source is longer.
const MOST: u8 = 251;

/// What is closed: an event of a stream, of whose payload numbers those at these places weren't heard.
#[derive(Clone, Copy)]
struct Closed<'a> {
    machine: &'a Machine,
    schedule: &'a Schedule,
    stream: Stream,
    bis: Bis,
    event: u64,
    missing: u32,
}

/// Puts what becomes of each unit of a stream, in order, where this start isn't decided before; and answers the start that isn't decided
/// then.
pub(crate) fn foretell(
    machine: &Machine,
    schedule: &Schedule,
    stream: Stream,
    bis: Bis,
    event: u64,
    missing: u32,
    start: Option<Start>,
    foretold: &mut Vec<Foretold>,
) -> Result<Option<Start>, Memory> {
    let closed = Closed {
        machine,
        schedule,
        stream,
        bis,
        event,
        missing,
    };
    if schedule.is_framed {
        return segments_of(&closed, start, foretold);
    }
    slots_of(&closed, foretold)?;
    Ok(None)
}

/// Puts a unit.
fn put(
    closed: &Closed<'_>,
    start: Start,
    at: At,
    fate: Fate,
    missing: u32,
    foretold: &mut Vec<Foretold>,
) -> Result<(), Memory> {
    let unit = Foretold {
        stream: closed.stream,
        time: start.time,
        event: start.event,
        at,
        fate,
        closed: closed.event,
        missing,
    };
    match foretold.push(unit) {
        Ok(()) => Ok(()),
        Err(_) => Err(Memory),
    }
}

/// The slots of an unframed stream.
fn slots_of(closed: &Closed<'_>, foretold: &mut Vec<Foretold>) -> Result<(), Memory> {
    'slots: for slot in 0..8u64 {
        if slot >= closed.schedule.slots() {
            break 'slots;
        }
        let start = Start {
            event: closed.event,
            place: 0,
            time: closed.schedule.slot_time(closed.event, slot),
        };
        let (fate, missing) = fate_of(closed, slot);
        put(closed, start, At::Slot(slot), fate, missing, foretold)?;
    }
    Ok(())
}

/// What becomes of the unit of a slot, and those of its places that weren't heard.
fn fate_of(closed: &Closed<'_>, slot: u64) -> (Fate, u32) {
    match carriers_of(closed, slot) {
        None => (Fate::Empty, 0),
        Some(carriers) if carriers & closed.missing == 0 => (Fate::Valid, 0),
        Some(carriers) => (Fate::Lost, carriers & closed.missing),
    }
}

/// The places that carry the unit of a slot, where it has one.
fn carriers_of(closed: &Closed<'_>, slot: u64) -> Option<u32> {
    let mut carriers = 0;
    let places = closed.schedule.places();
    'places: for step in 0..8u64 {
        if step >= places {
            break 'places;
        }
        let place = slot.saturating_mul(places).saturating_add(step);
        let pdu = sent(closed.machine, closed.stream.source, 0, closed.bis, place)?;
        match read_pdu(pdu, MOST) {
            Ok(Pdu::End(_)) => return Some(with(carriers, place)),
            Ok(Pdu::Fragment(part)) if !part.is_empty() => carriers = with(carriers, place),
            _ => return None,
        }
    }
    None
}

/// The segments of a framed stream.
fn segments_of(
    closed: &Closed<'_>,
    start: Option<Start>,
    foretold: &mut Vec<Foretold>,
) -> Result<Option<Start>, Memory> {
    let mut start = start;
    'places: for place in 0..8u64 {
        if place >= closed.schedule.numbers.bn {
            break 'places;
        }
        let Some(segments) = segments_at(closed, place) else {
            return Ok(None);
        };
        if has(closed.missing, place) {
            not_heard(closed, place, start, segments, foretold)?;
            start = None;
        } else {
            start = heard(closed, place, start, segments, foretold)?;
        }
    }
    Ok(start)
}

/// The segments of a payload number.
fn segments_at<'a>(closed: &Closed<'a>, place: u64) -> Option<Segments<'a>> {
    let pdu = sent(closed.machine, closed.stream.source, 0, closed.bis, place)?;
    match read_pdu(pdu, MOST) {
        Ok(Pdu::Framed(segments)) => Some(segments),
        _ => None,
    }
}

/// The start of a unit.
fn start_of(closed: &Closed<'_>, place: u64, offset: u32) -> Start {
    Start {
        event: closed.event,
        place,
        time: closed.schedule.unit_time(closed.event, offset),
    }
}

/// A PDU that wasn't heard: the unit before it is lost, and those that begin in it are never begun.
fn not_heard(
    closed: &Closed<'_>,
    place: u64,
    start: Option<Start>,
    segments: Segments<'_>,
    foretold: &mut Vec<Foretold>,
) -> Result<(), Memory> {
    let missing = with(0, place);
    if let Some(start) = start {
        put(
            closed,
            start,
            At::Start(start.place),
            Fate::Lost,
            missing,
            foretold,
        )?;
    }
    'segments: for segment in segments {
        if let Segment::Start { time_offset, .. } = segment {
            let start = start_of(closed, place, time_offset);
            put(
                closed,
                start,
                At::Start(place),
                Fate::Unbegun,
                missing,
                foretold,
            )?;
        }
    }
    Ok(())
}

/// A PDU that was heard: answers the start that isn't decided behind it.
fn heard(
    closed: &Closed<'_>,
    place: u64,
    start: Option<Start>,
    segments: Segments<'_>,
    foretold: &mut Vec<Foretold>,
) -> Result<Option<Start>, Memory> {
    let mut start = start;
    'segments: for segment in segments {
        let is_complete = match segment {
            Segment::Start {
                time_offset,
                complete,
                ..
            } => {
                start = Some(start_of(closed, place, time_offset));
                complete
            }
            Segment::More { complete, .. } => complete,
        };
        if is_complete {
            if let Some(unit) = start {
                put(
                    closed,
                    unit,
                    At::Start(unit.place),
                    Fate::Valid,
                    0,
                    foretold,
                )?;
            }
            start = None;
        }
    }
    Ok(start)
}
