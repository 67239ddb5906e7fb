//! What lies behind the handle of a sink.
use c_values::Units;
use delegator_machine::Delegator;

/// A Scan Delegator, and the units that wait for C.
#[derive(Drop)]
pub struct SinkMachine {
    pub delegator: Delegator,
    pub units: Units,
}
