//! How writes are refused.
ghost use Rattle.std.specs.Prelude.{◌≡◌, Some};
ghost use Rattle.delegator_history.specs.Writes.{cause_of_fault, reply_by};

use bass_operations::OpFault;
use delegator_history::{Cause, Reply};

/// Opcode Not Supported.
const NOT_SUPPORTED: u8 = 0x80;

/// Invalid Source_ID.
const INVALID_SOURCE_ID: u8 = 0x81;

/// Write Request Rejected.
const REJECTED: u8 = 0xfc;

/// The refusal of a write for this cause, with its code: Opcode Not Supported, Invalid Source_ID, or Write Request Rejected
/// (Broadcast Audio Scan Service 1.0, section 3.1.1).
pub fn refused(cause: Cause) -> Reply
    ensures { result ≡ reply_by (Some cause) }
{
    let code = match cause {
        Cause::Opcode | Cause::NoDecrypt => NOT_SUPPORTED,
        Cause::SourceUnknown => INVALID_SOURCE_ID,
        _ => REJECTED,
    };
    Reply::Refused { code, cause }
}

/// The cause by which octets are refused that are no operation; `None` for want of memory.
pub fn cause_of(fault: OpFault) -> Option<Cause>
    ensures { result ≡ cause_of_fault fault }
{
    match fault {
        OpFault::Empty => Some(Cause::Empty),
        OpFault::Opcode => Some(Cause::Opcode),
        OpFault::Length => Some(Cause::Length),
        OpFault::Rfu { place: _ } => Some(Cause::Rfu),
        OpFault::BisTwice { bis: _ } => Some(Cause::BisTwice),
        OpFault::Memory => None,
    }
}
