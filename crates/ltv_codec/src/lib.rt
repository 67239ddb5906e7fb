//! LTV lists: codec configurations, codec capabilities and metadata.
#![tactic(auto)]

mod caps;
mod config;
mod contexts;
mod fault;
mod laws;
mod ltvs;
mod reading;
mod values;
mod writing;

pub use caps::Caps;
pub use config::Config;
pub use contexts::contexts_of;
pub use fault::{LtvBad, LtvFault};
pub use laws::{bad_is_at_cut, read_is_list};
pub use ltvs::{Ltv, Ltvs};
pub use reading::{check_ltvs, decode_ltvs, first_value};
pub use writing::encode_ltvs;
