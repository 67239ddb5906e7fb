//! What lies behind the handle of a stream.
use crate::receiver::Receiver;
use c_values::Units;

/// The receiver of a stream, and the units that wait for C.
#[derive(Drop)]
pub struct StreamMachine {
    pub receiver: Receiver,
    pub units: Units,
}
