//! How the PDUs of an event are filled.
ghost use Rattle.std.specs.Prelude.{◌≡◌, ◌≤◌, ◌<◌, ◌+◌, ◌-◌, ◌^◌, ◌∷◌, [], List, true, false, length, drop, slice_get, option_copied, IsSome, IfOk, OnOk};
ghost use Rattle.iso_pdu.specs.State.Packing.{room_in};
ghost use Rattle.isoal_framed.specs.Air.{pdus_ended};
ghost use Rattle.isoal_framed.specs.Calls.{Timed};
ghost use Rattle.isoal_framed.specs.Places.{Act, ends, done, overhead};
ghost use Rattle.isoal_framed.specs.State.Packings.{Carried, Placed};
ghost use Rattle.isoal_framed.specs.State.Senders.{Going, IsPartly};

use crate::next::{Next, next_act};
use bcast_base::{Memory, Times, Unit};
use big_info::Group;
use iso_pdu::FramedPdu;
use isoal_base::LaidPdus;
use std::collections::VecDeque;

/// How many octets every segment takes besides those of its unit, at the least.
const LEAST_OVERHEAD: u8 = 2;

/// An event that is being laid: the PDU that is filled, how many units of the queue are wholly sent or left out, how many
/// octets of the next one are sent, and the times of the units left out.
#[derive(Drop)]
pub(crate) struct Packing {
    pub(crate) pdu: FramedPdu,
    pub(crate) past: usize,
    pub(crate) sent: usize,
    pub(crate) stale: Times,
}

/// Puts what comes next into the PDU, and answers whether it goes on; else it ends.
fn put_next(queue: &VecDeque<Unit>, anchor: u64, packing: &mut Packing) -> Result<bool, Memory>
    requires within { packing.old.past ≤ length queue.now.items }
    requires partly { IsPartly packing.old.sent (drop packing.old.past queue.now.items) }
    ensures within { packing.new.past ≤ length queue.now.items }
    ensures partly { IsPartly packing.new.sent (drop packing.new.past queue.now.items) }
    ensures placed { IfOk result (λ goes_on. Placed anchor queue.now.items packing.old packing.new goes_on) }
    ensures nearer { IfOk result (λ goes_on. goes_on ≡ true
        → length queue.now.items - packing.new.past + room_in packing.new.pdu < length queue.now.items - packing.old.past + room_in
        packing.old.pdu) }
{
    let room = packing.pdu.room();
    if room < LEAST_OVERHEAD {
        return Ok(false);
    }
    let Some(unit) = due(queue, packing.past) else {
        return Ok(false);
    };
    match next_act(unit, packing.sent, anchor, room) {
        Next::Ends => Ok(false),
        Next::LeavesOut => {
            packing.stale.push(unit.time)?;
            packing.past += 1;
            Ok(true)
        }
        Next::Carries { count, complete } => {
            carry(unit, anchor, count, complete, packing);
            Ok(true)
        }
    }
}

/// The unit at this place of the queue.
fn due(queue: &VecDeque<Unit>, place: usize) -> Option<&Unit>
    ensures item { option_copied result ≡ slice_get queue.now.items place }
    ensures within { IsSome result → place < length queue.now.items }
{
    queue.get(place)
}

/// Puts a segment of so many octets of the unit into the PDU.
fn carry(unit: &Unit, anchor: u64, count: usize, complete: bool, packing: &mut Packing)
    requires within { packing.old.sent + count ≤ length unit.now.octets }
    requires room { overhead packing.old.sent + count ≤ room_in packing.old.pdu }
    requires offset { packing.old.sent ≡ 0 → anchor - unit.now.time < 2 ^ 24 }
    requires ready { packing.old.sent ≡ 0 → unit.now.time ≤ anchor }
    requires past { packing.old.past < 2 ^ 63 }
    ensures { Carried anchor unit.now count complete packing.old packing.new }
{
    let part = &unit.octets.as_slice()[packing.sent..packing.sent + count];
    if packing.sent == 0 {
        let offset = (anchor - unit.time) as u32;
        packing.pdu.put_start(offset, complete, part);
    } else {
        packing.pdu.put_more(complete, part);
    }
    if complete {
        packing.past += 1;
        packing.sent = 0;
    } else {
        packing.sent += count;
    }
}

/// Fills a PDU, and puts it behind the others.
pub(crate) fn pack_pdu(
    max_pdu: u8,
    queue: &VecDeque<Unit>,
    anchor: u64,
    packing: &mut Packing,
    pdus: &mut LaidPdus,
) -> Result<(), Memory>
    requires max_pdu { max_pdu ≤ 251 }
    requires within { packing.old.past ≤ length queue.now.items }
    requires partly { IsPartly packing.old.sent (drop packing.old.past queue.now.items) }
    ensures within { packing.new.past ≤ length queue.now.items }
    ensures partly { IsPartly packing.new.sent (drop packing.new.past queue.now.items) }
    ensures count { OnOk result (length pdus.new ≡ length pdus.old + 1) }
    ensures packed { (units : List Timed) (earlier acts : List Act) → queue.now.items ≡ drop (done earlier) units
        → Going max_pdu units anchor earlier acts packing.old.past packing.old.sent max_pdu [] pdus.old packing.old.stale
        → OnOk result ((own : List Act) × (pdus_ended own ≡ pdus_ended acts)
        × Going max_pdu units anchor earlier (ends ∷ own) packing.new.past packing.new.sent max_pdu [] pdus.new packing.new.stale) }
{
    packing.pdu.restart(max_pdu);
    'acts: while put_next(queue, anchor, packing)? {}
    pdus.push(packing.pdu.as_slice())
}

/// Fills the PDUs of an event, one behind the other, in the place of others.
pub(crate) fn pack_pdus(
    group: &Group,
    queue: &VecDeque<Unit>,
    anchor: u64,
    packing: &mut Packing,
    pdus: &mut LaidPdus,
) -> Result<(), Memory>
    requires within { packing.old.past ≤ length queue.now.items }
    requires partly { IsPartly packing.old.sent (drop packing.old.past queue.now.items) }
    ensures within { packing.new.past ≤ length queue.now.items }
    ensures partly { IsPartly packing.new.sent (drop packing.new.past queue.now.items) }
    ensures count { OnOk result (length pdus.new ≡ group.now.info.bn) }
    ensures packed { (units : List Timed) (earlier : List Act) → queue.now.items ≡ drop (done earlier) units
        → Going group.now.info.max_pdu units anchor earlier [] packing.old.past packing.old.sent group.now.info.max_pdu [] []
        packing.old.stale
        → OnOk result ((own : List Act) × (pdus_ended (ends ∷ own) ≡ group.now.info.bn)
        × Going group.now.info.max_pdu units anchor earlier
        (ends ∷ own) packing.new.past packing.new.sent group.now.info.max_pdu [] pdus.new packing.new.stale) }
{
    pdus.clear();
    'pdus: for _ in 0..group.info.bn {
        pack_pdu(group.info.max_pdu, queue, anchor, packing, pdus)?;
    }
    Ok(())
}
