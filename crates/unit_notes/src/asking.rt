//! What the machine is asked between two lines.
use bcast_base::Bis;
use isoal_base::Hearing;
use replay_steps::Machine;

/// No event of a source has a greater number.
const LAST_EVENT: u64 = 549755813888;

/// The PDU that a source sent in a subevent of the event `back` before the last one.
pub(crate) fn sent(
    machine: &Machine,
    source: u8,
    back: u8,
    bis: Bis,
    subevent: u64,
) -> Option<&[u8]> {
    if source > 1 || back > 31 || subevent > 31 {
        return None;
    }
    machine.sent_at(source, back, bis, subevent as u8)
}

/// What a sink would answer octets in the place of a PDU of a source.
pub(crate) fn answer(
    machine: &Machine,
    sink: u8,
    source: u8,
    event: u64,
    bis: Bis,
    subevent: u64,
    pdu: &[u8],
) -> Option<Hearing> {
    if sink > 7 || event > LAST_EVENT || subevent > 31 {
        return None;
    }
    machine.would_answer(sink, source, event, bis, subevent as u8, pdu)
}
