//! The source of a broadcast isochronous group: what it takes, and what each of its events sends.
#![tactic(auto)]

mod carried;
mod checking;
mod configured;
mod fault;
mod hearing;
mod laws;
mod laying;
mod sender;
mod sent;
mod sent_stream;
mod setup;
mod stream;
mod streaming;

pub use announcement_train::Train;
pub use configured::{SourceConfigured, SourceIdle};
pub use fault::{AnnounceFault, ConfigureFault, EventFault, GiveFault};
pub use laws::{air_is_by_division, one_air, units_keep_their_order, what_was_sent_stays};
pub use sent::{Sent, Stale, StaleList};
pub use sent_stream::SentStream;
pub use setup::{Identity, Setup};
pub use streaming::SourceStreaming;
