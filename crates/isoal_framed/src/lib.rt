//! The sender and the receiver of a framed stream: units and their segments.
#![tactic(auto)]

mod air_laws;
mod close;
mod framed_in;
mod framed_out;
mod hand;
mod keep;
mod laws;
mod next;
mod packing;
mod place;
mod store;
mod stream;
mod undecided;

pub use air_laws::{
    a_framed_air_is_there, a_framed_air_sends_units, a_sender_lays_a_framed_air, one_framed_air,
    worked_events,
};
pub use framed_in::FramedIn;
pub use framed_out::FramedOut;
pub use laws::{a_close_gains_units, fate_is_decided, framed_units_are_struck};
