//! The BIGInfo of a broadcast isochronous group, and the check of its numbers.
#![tactic(auto)]

mod big_fault;
mod decode;
mod encode;
mod fault;
mod group;
mod info;
mod laws;
mod limits;
mod rows;
mod schedule;
mod time;
mod word;

pub use big_fault::BigFault;
pub use decode::decode_big_info;
pub use encode::encode_big_info;
pub use fault::GroupFault;
pub use group::{Group, check_group, check_group_within};
pub use info::{BigInfo, Cipher};
pub use laws::{info_has_one_encoding, octets_are_of_one_info};
pub use limits::Limits;
