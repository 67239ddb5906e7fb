ghost use Rattle.std.specs.Prelude.{◌≡◌, ◌≤◌, ◌↔◌, ℕ, List, Ok, Err, IfOk, IfErr};
ghost use Rattle.iso_pdu.specs.Control.{ControlIs, ControlFaultIs, control_of, control_number, terminate, terminate_of};
ghost use Rattle.iso_pdu.specs.Layout.{control};
ghost use Rattle.iso_pdu.specs.Reading.{read_of};
ghost use Rattle.iso_pdu.specs.Encoding.{pdu};
ghost use Rattle.iso_pdu.specs.declared.control.Control.{Control};
ghost use Rattle.iso_pdu.specs.declared.control.Control.TheVariants.{Terminate};
ghost use Rattle.iso_pdu.specs.declared.control.ControlFault.{ControlFault};

/// What a control payload tells (Core 5.2, volume 6 part B, section 2.6.3).
#[derive(Clone, Copy, Debug, PartialEq, Eq)]
pub enum Control {
    /// BIG_CHANNEL_MAP_IND: the channels change.
    ChannelMap,
    /// BIG_TERMINATE_IND: the group ends for this reason at the event whose number has these low 16 bits.
    Terminate { reason: u8, instant: u16 },
}

/// Why octets are no control payload.
#[derive(Clone, Copy, Debug, PartialEq, Eq)]
pub enum ControlFault {
    /// There is no octet, or the first is no opcode.
    Opcode = 1,
    /// The payload hasn't the length of its opcode.
    ControlLength,
}

impl ControlFault {
    /// The number of the fault, 1 or 2.
    pub fn number(self) -> u8
        ensures { result ≡ control_number self }
    {
        self as u8
    }
}

/// Reads a control payload.
///
/// Else it is the fault: Opcode where there is no octet or the first is neither 0x00 nor 0x01, and ControlLength where the
/// payload hasn't 8 octets for 0x00 or 4 for 0x01.
pub fn read_control(from: &[u8]) -> Result<Control, ControlFault>
    ensures exact { result ≡ control_of from.now }
    ensures layout { IfOk result (λ told. ControlIs told from.now) }
    ensures fault { IfErr result (λ fault. ControlFaultIs fault from.now) }
{
    read_fields(from)
}

// Reads the opcode and its fields.
#[tactic(auto, unfolding(crate::specs::Control::control_of))]
fn read_fields(from: &[u8]) -> Result<Control, ControlFault>
    ensures { result ≡ control_of from.now }
{
    let [opcode, fields @ ..] = from else {
        return Err(ControlFault::Opcode);
    };
    match *opcode {
        0 => match fields.len() {
            7 => Ok(Control::ChannelMap),
            _ => Err(ControlFault::ControlLength),
        },
        1 => read_terminate(fields),
        _ => Err(ControlFault::Opcode),
    }
}

// Reads Reason and Instant.
fn read_terminate(fields: &[u8]) -> Result<Control, ControlFault>
    ensures { result ≡ terminate_of fields.now }
{
    let [reason, low, high] = fields else {
        return Err(ControlFault::ControlLength);
    };
    Ok(Control::Terminate {
        reason: *reason,
        instant: u16::from(*low) + 256 * u16::from(*high),
    })
}

/// The whole PDU of BIG_TERMINATE_IND. `instant` is the low 16 bits of the number of the event at which the group ends.
pub fn write_terminate(reason: u8, instant: u16) -> [u8; 6]
    ensures encoded { result ≡ pdu (control (terminate reason instant)) }
    ensures layout { ControlIs (Terminate reason instant) (terminate reason instant) }
    ensures payload { (max_pdu : ℕ) → 4 ≤ max_pdu → read_of max_pdu result ≡ Ok (control (terminate reason instant)) }
    ensures read { control_of (terminate reason instant) ≡ Ok (Terminate reason instant) }
{
    let low = (instant % 256) as u8;
    let high = (instant / 256) as u8;
    [0b11, 4, 0x01, reason, low, high]
}

/// A payload is read if and only if it has a layout, as what has this layout. Any other has the fault that is answered.
pub fn control_is_layout()
    ensures layout { (told : Control) (octets : List ℕ) → (control_of octets ≡ Ok told) ↔ ControlIs told octets }
    ensures fault { (fault : ControlFault) (octets : List ℕ) → (control_of octets ≡ Err fault) ↔ ControlFaultIs fault octets }
{}
