//! Notes that say what a sink compared where it answers a train, and why it takes which streams. No contract says what they say; tests do.
#![tactic(auto)]

mod bases;
mod compared;
mod ears;
mod slots;
mod trains;
mod unwanted;
mod wishes;
mod words;

pub use ears::Ears;
pub use slots::put_slots;
pub use trains::{Identity, Train, is_ignored, put_compared};
pub use words::{digit_of, streams_at};
