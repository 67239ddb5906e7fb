//! What a PDU is answered that is heard as a control PDU.
ghost use Rattle.std.specs.Prelude.{◌≡◌, if◌then◌else◌};
ghost use Rattle.iso_pdu.specs.Control.{control_of};
ghost use Rattle.delegator_history.specs.Controls.{control_heard, done_heard, told_by};
ghost use Rattle.delegator_history.specs.Steps.{left, nothing};
ghost use Rattle.delegator_control.specs.State.Places.{place_of};

use crate::place::Place;
use delegator_history::ControlHeard;
use iso_pdu::{Control, ControlFault, Pdu, read_control, read_pdu};

/// The most octets of a payload.
const GREATEST_PAYLOAD: u8 = 251;

/// The first answer that holds.
pub(crate) fn heard_control(place: &Place, pdu: &[u8]) -> ControlHeard
    ensures { result ≡ control_heard (place_of place.now) pdu.now }
{
    let Place::OnGroup(_) = place else {
        return ControlHeard::NotOnGroup;
    };
    match read_pdu(pdu, GREATEST_PAYLOAD) {
        Err(fault) => ControlHeard::Malformed(fault),
        Ok(Pdu::Control(payload)) => told(payload),
        Ok(_) => ControlHeard::NotControl,
    }
}

/// What a control payload tells.
fn told(payload: &[u8]) -> ControlHeard
    ensures { result ≡ told_by (control_of payload.now) }
{
    match read_control(payload) {
        Ok(Control::ChannelMap) => ControlHeard::MapIgnored,
        Ok(
            Control::Terminate {
                reason: _,
                instant: _,
            },
        ) => ControlHeard::Left,
        Err(ControlFault::Opcode) => ControlHeard::UnknownOpcode,
        Err(ControlFault::ControlLength) => ControlHeard::ControlLength,
    }
}

/// Whether it takes the sink off its group.
pub(crate) fn leaves(heard: ControlHeard) -> bool
    ensures { done_heard heard ≡ (if result then left else nothing) }
{
    match heard {
        ControlHeard::Left => true,
        ControlHeard::NotOnGroup
        | ControlHeard::Malformed(_)
        | ControlHeard::NotControl
        | ControlHeard::UnknownOpcode
        | ControlHeard::ControlLength
        | ControlHeard::MapIgnored => false,
    }
}
