//! Octets, lists, numbers and stream indices that every crate above uses.
#![tactic(auto)]

mod bis;
mod items;
mod laws;
mod memory;
mod numbers;
mod octets;
mod reading;
mod subgroups;
mod unit;
mod writing;

pub use bis::{Bis, BisSet};
pub use items::{Calls, EventPdus, Items, Times};
pub use laws::{
    are_octets, encoded_is_read, place_is_cut, read_is_encoded, reserved_is_first,
    subgroups_are_encoded,
};
pub use memory::{Kept, Memory};
pub use numbers::{read_le, write_le};
pub use octets::Octets;
pub use reading::{array_at, counted_at, number_at, octet_at, octets_at, place_of};
pub use subgroups::{LentSubgroup, are_reserved, put_subgroup, reserved_subgroup, subgroup_at};
pub use unit::Unit;
pub use writing::{put_counted, put_number};
