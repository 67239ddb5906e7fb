//! An example of how the crates are used: a player that stays on one framed stream and keeps, in order, what it hears.
#![tactic(auto)]

mod player;
mod playlist;

pub use player::Player;
pub use playlist::{Entry, Playlist};
