//! The links of one sink: on each an assistant, and the notices that wait for it.
#![tactic(auto)]

mod fault;
mod links;
mod place;
mod terms;

pub use fault::LinkFault;
pub use links::Links;
