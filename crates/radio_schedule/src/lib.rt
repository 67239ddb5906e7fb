//! Which payload each subevent of an event carries, and the events that were sent last.
#![tactic(auto)]

mod air;
mod losses;
mod payload;
mod stream_event;

pub use air::{Air, AirFault};
pub use losses::{Grid, Losses};
pub use payload::{events_ahead, payload_of};
pub use stream_event::StreamEvent;
