//! A sink: the group that it is on, the streams that it takes of it, and the units that it hands up.
#![tactic(auto)]

mod group_receivers;
mod group_sink;
mod hearing;
mod laws;
mod numbers;
mod receiver;
mod refuser;
mod streams;

pub use group_receivers::GroupReceivers;
pub use group_sink::GroupSink;
pub use laws::{each_stream_hands_its_units, one_event_is_open, streams_rise};
