//! Published audio capabilities, and which stream a sink takes.
#![tactic(auto)]

mod capability;
mod fault;
mod laws;
mod matching;
mod not_taken;
mod reading;
mod record;
mod records;
mod requirements;
mod writing;

pub use capability::Capability;
pub use fault::{PacFault, PushFault};
pub use laws::{fault_is_at_cut, match_is_some_record, read_is_value};
pub use matching::takes;
pub use not_taken::NotTaken;
pub use reading::decode_pacs;
pub use record::PacRecord;
pub use records::Records;
pub use writing::encode_pacs;
