//! The control half of a Scan Delegator: the sources in its slots, the train or the group that it is on, and the notices
//! that wait.
#![tactic(auto)]

mod control;
mod following;
mod kept_base;
mod operations;
mod place;
mod scan_delegator;
mod settings;
mod train;
mod trains;
mod values;
mod whereabouts;

pub use kept_base::KeptBase;
pub use scan_delegator::ScanDelegator;
