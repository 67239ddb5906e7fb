//! The lines of a transcript, each put at the end of a text, and what they say of units and sums.
#![tactic(auto)]

mod counts;
mod forged;
mod heard;
mod hearing;
mod label;
mod line;
mod refusal;
mod reply;
mod stop;
mod streams;
mod train;
mod value;
mod word;

pub use counts::Counts;
pub use forged::put_forged;
pub use heard::{put_control_heard, put_idle, put_train_heard};
pub use hearing::put_heard;
pub use label::Label;
pub use line::{put_control, put_dropped, put_lost, put_pdu, put_stale, put_sum, put_valid};
pub use refusal::{Refusal, put_refusal};
pub use reply::put_reply;
pub use stop::Stop;
pub use train::put_train;
pub use value::{put_link_view, put_notice, put_read, put_state, put_view};
pub use word::{put_line, put_named};
