//! Operations that a client writes to the Broadcast Audio Scan Control Point.
#![tactic(auto)]

mod fault;
mod laws;
mod operation;
mod reading;
mod scanning;
mod wishes;
mod writing;

pub use fault::OpFault;
pub use laws::{fault_is_cause, read_is_operation, twice_is_lowest};
pub use operation::{AddSource, ModifySource, Operation};
pub use reading::{decode_operation, decode_operation_over};
pub use wishes::{Wish, Wishes};
pub use writing::encode_operation;
