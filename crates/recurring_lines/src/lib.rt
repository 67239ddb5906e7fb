//! The lines that come again and again, read without a step: those of units, events and sinks, of operations, and of trains.
#![tactic(auto)]

mod frequent;
mod operations;
mod sink_lines;
mod trains;

pub use frequent::{Frequent, read_frequent};
pub use operations::{OperationRoom, read_operation};
pub use sink_lines::{SinkLine, read_sink_line};
pub use trains::{TrainHead, TrainRoom, read_train};
