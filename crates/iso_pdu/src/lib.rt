//! Isochronous PDUs: fragments and ends of unframed streams, segments of framed ones.
#![tactic(auto)]

mod control;
mod fault;
mod framed_pdu;
mod laws;
mod pdu;
mod segment;

pub use control::{Control, ControlFault, control_is_layout, read_control, write_terminate};
pub use fault::PduFault;
pub use framed_pdu::FramedPdu;
pub use laws::{fault_is_at_cut, read_is_layout, written_is_read};
pub use pdu::{Pdu, end_header, fragment_header, read_pdu, write_end, write_fragment};
pub use segment::{Segment, Segments};
