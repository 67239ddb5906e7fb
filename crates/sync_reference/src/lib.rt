//! When the events of a group are sent and its units are due (Core 5.2, volume 6 part G, section 3.2), and how a sink is put on it.
#![tactic(auto)]

mod big_sync;
mod times;

pub use big_sync::BigSync;
pub use times::{anchor, framed_reference, render, unframed_reference};
