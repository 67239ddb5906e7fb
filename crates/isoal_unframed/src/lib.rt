//! The sender and the receiver of an unframed stream: units and their fragments.
#![tactic(auto)]

mod air_laws;
mod cell;
mod laws;
mod parts;
mod ring;
mod slots;
mod stream;
mod unframed_in;
mod unframed_out;
mod window;

pub use air_laws::{a_slot_carries_its_unit, each_number_is_laid, slots_add_up, the_rest_waits};
pub use laws::{longest_prefix_is_held, unit_is_assembled, units_are_struck};
pub use unframed_in::UnframedIn;
pub use unframed_out::UnframedOut;
