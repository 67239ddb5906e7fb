//! The PDUs of the slots of an event.
ghost use Rattle.std.specs.Prelude.{◌≡◌, ◌≤◌, ◌++◌, slice_get, option_copied, OnOk};
ghost use Rattle.big_info.specs.Schedule.{per_unit_of};
ghost use Rattle.isoal_unframed.specs.State.Sender.{Begins, event_pdus, slot_pdus};

use bcast_base::{Memory, Octets};
use big_info::Group;
use iso_pdu::{end_header, fragment_header};
use isoal_base::LaidPdus;
use std::collections::VecDeque;

/// Lays the PDUs of the next event in the place of others: each of its slots takes the next unit that waits.
pub(crate) fn lay_slots(
    group: &Group,
    waiting: &VecDeque<Octets>,
    pdus: &mut LaidPdus,
) -> Result<(), Memory>
    ensures { OnOk result (pdus.new ≡ event_pdus group.now.info waiting.now.items) }
{
    pdus.clear();
    'slots: for slot in 0..group.per_event() as usize {
        lay_slot(group, unit_of(waiting, slot), pdus)?;
    }
    Ok(())
}

/// The unit that waits at this place of the queue.
fn unit_of(waiting: &VecDeque<Octets>, place: usize) -> Option<&[u8]>
    ensures { option_copied result ≡ slice_get waiting.now.items place }
{
    Some(waiting.get(place)?.as_slice())
}

/// Lays the PDUs of a slot: full fragments, the end, and then padding; padding alone where there is no unit.
fn lay_slot(group: &Group, unit: Option<&[u8]>, pdus: &mut LaidPdus) -> Result<(), Memory>
    ensures { OnOk result (pdus.new ≡ pdus.old ++ slot_pdus group.now.info.max_pdu (per_unit_of group.now.info)
        (option_copied unit.entry)) }
{
    let mut left = unit;
    'places: for _ in 0..group.per_unit() {
        let next = next_pdu(group.info.max_pdu, left);
        pdus.push_payload(next.header, next.payload)?;
        left = next.rest;
    }
    Ok(())
}

/// A PDU of a slot, and what isn't laid yet behind it.
#[derive(Drop)]
struct NextPdu<'a> {
    header: [u8; 2],
    payload: &'a [u8],
    rest: Option<&'a [u8]>,
}

/// The next PDU of a slot of which `left` isn't laid yet.
fn next_pdu<'a>(max_pdu: u8, left: Option<&'a [u8]>) -> NextPdu<'a>
    requires least { 1 ≤ max_pdu }
    requires greatest { max_pdu ≤ 251 }
    ensures { Begins max_pdu (option_copied left.entry) (result.header ++ result.payload.now) (option_copied result.rest) }
{
    let Some(octets) = left else {
        return NextPdu {
            header: fragment_header(0),
            payload: &[],
            rest: None,
        };
    };
    let most = usize::from(max_pdu);
    if octets.len() <= most {
        return NextPdu {
            header: end_header(octets.len() as u8),
            payload: octets,
            rest: None,
        };
    }
    let (payload, rest) = octets.split_at(most);
    NextPdu {
        header: fragment_header(max_pdu),
        payload,
        rest: Some(rest),
    }
}
