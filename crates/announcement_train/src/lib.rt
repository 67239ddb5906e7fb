//! What a broadcast source announces of itself for each event: the Broadcast_ID, the BASE and the BIGInfo.
#![tactic(auto)]

mod laws;
mod plain;
mod train;

pub use laws::an_announcement_is_read;
pub use plain::plain_base;
pub use train::Train;
