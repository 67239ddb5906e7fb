//! What the receivers and senders of both framings share.
#![tactic(auto)]

mod heard;
mod hearing;
mod laid;
mod laid_pdus;
mod laws;
mod spare;

pub use heard::Heard;
pub use hearing::Hearing;
pub use laid::{EventLaid, PutFault};
pub use laid_pdus::LaidPdus;
pub use laws::{heard_is_first, receiver_stands};
pub use spare::SpareOctets;
