//! What a client is told over a link of the values of a server; and a Broadcast Assistant on one link: its writes to a server, and
//! what it knows of the server's slots.
#![tactic(auto)]

mod apart;
mod fault;
mod joined;
mod laws;

pub use apart::AssistApart;
pub use fault::{NoticeFault, NoticeTaken};
pub use joined::AssistJoined;
pub use laws::{a_drained_link_agrees, where_nothing_waits_both_agree};
