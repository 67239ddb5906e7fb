//! One sink of a scenario, a Scan Delegator with the assistants on its four links: what each line that names it makes of it, and
//! what it prints.
#![tactic(auto)]

mod drains;
mod line;
mod links;
mod on_link;
mod origin;
mod served;
mod settings;
mod shows;
mod sink;
mod sink_call;
mod trains;
mod writes;

pub use origin::Origin;
pub use sink::LinkedSink;
pub use sink_call::SinkCall;
