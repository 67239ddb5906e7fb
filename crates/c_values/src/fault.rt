//! A fault of octets as a struct of C.
ghost use Rattle.std.specs.Prelude.{◌≡◌};
ghost use Rattle.c_values.specs.Faults.{base_fault_c, operation_fault_c, pac_fault_c, pdu_fault_c, state_fault_c};

use base_grammar::BaseFault;
use bass_operations::OpFault;
use iso_pdu::PduFault;
use pacs_records::PacFault;
use receive_state::StateFault;

/// A fault of octets: its number, and the place of an octet, from 0.
#[repr(C)]
#[derive(Clone, Copy)]
pub struct AirFault {
    pub place: usize,
    pub number: u8,
}

/// A fault of a BASE for C.
pub fn base_fault_for_c(fault: BaseFault) -> AirFault
    ensures { result ≡ base_fault_c fault }
{
    match fault {
        BaseFault::Short { place } => AirFault { place, number: 1 },
        BaseFault::NoSubgroup => AirFault {
            place: 3,
            number: 2,
        },
        BaseFault::NoBis { place } => AirFault { place, number: 3 },
        BaseFault::BadIndex { place } => AirFault { place, number: 4 },
        BaseFault::IndexTwice { place } => AirFault { place, number: 5 },
        BaseFault::Ltv { place, .. } => AirFault { place, number: 6 },
        BaseFault::Trailing { place } => AirFault { place, number: 7 },
        BaseFault::TooLong => AirFault {
            place: 252,
            number: 8,
        },
        BaseFault::Memory => AirFault {
            place: 0,
            number: 0,
        },
    }
}

fn at(place: usize, number: u8) -> AirFault
    ensures { result ≡ record { place = place; number = number } }
{
    AirFault { place, number }
}

/// A fault of a PDU for C.
pub fn pdu_fault_for_c(fault: PduFault) -> AirFault
    ensures { result ≡ pdu_fault_c fault }
{
    match fault {
        PduFault::SegmentShort { place } => at(place, 4),
        PduFault::SegmentNoOffset { place } => at(place, 5),
        PduFault::Short | PduFault::LengthDiffers | PduFault::TooLong => at(0, fault.number()),
    }
}

/// A fault of a Sink PAC value for C.
pub fn pac_fault_for_c(fault: PacFault) -> AirFault
    ensures { result ≡ pac_fault_c fault }
{
    match fault {
        PacFault::TooLong => at(512, 1),
        PacFault::Short { place } => at(place, 2),
        PacFault::Ltv { place, .. } => at(place, 3),
        PacFault::Trailing { place } => at(place, 4),
        PacFault::Memory => at(0, 0),
    }
}

/// A fault of an operation for C: of a stream that stands twice the place is its index.
pub fn operation_fault_for_c(fault: OpFault) -> AirFault
    ensures { result ≡ operation_fault_c fault }
{
    match fault {
        OpFault::Empty => at(0, 1),
        OpFault::Opcode => at(0, 2),
        OpFault::Length => at(0, 3),
        OpFault::Rfu { place } => at(place, 4),
        OpFault::BisTwice { bis } => at(usize::from(bis), 5),
        OpFault::Memory => at(0, 0),
    }
}

/// A fault of a receive state for C.
pub fn state_fault_for_c(fault: StateFault) -> AirFault
    ensures { result ≡ state_fault_c fault }
{
    match fault {
        StateFault::Short { place } => at(place, 1),
        StateFault::Rfu { place } => at(place, 2),
        StateFault::Trailing { place } => at(place, 3),
        StateFault::Memory => at(0, 0),
    }
}
