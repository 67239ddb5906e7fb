//! The BASE of a broadcast: its octets, its draft, and what holds for each of its streams; and the AD lists around it.
#![tactic(auto)]

mod ad;
mod ad_laws;
mod base;
mod checking;
mod draft;
mod draft_steps;
mod effective;
mod fault;
mod fields;
mod head;
mod laws;
mod parts;
mod reading;
mod room;
mod subgroup;
mod writing;

pub use ad::{AdShort, broadcast_id, service_data, structure, write_ad};
pub use ad_laws::{ad_list_is_read, ad_short_is_cut};
pub use base::Base;
pub use draft::BaseDraft;
pub use effective::Effective;
pub use fault::{BaseFault, DraftFault};
pub use laws::{fault_is_at_cut, read_is_base};
pub use parts::encode_parts;
pub use reading::decode_base;
pub use subgroup::{BaseEntry, Entries, Subgroup, is_lc3_codec};
pub use writing::{encode_base, put_base};
