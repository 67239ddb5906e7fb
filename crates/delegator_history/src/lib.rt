//! What a Scan Delegator means: the answer to each call, and what it has after all calls, looked back for; and what a source
//! announces to it.
#![tactic(auto)]

mod announced_laws;
mod laws;
mod notice;
mod replies;
mod source;
mod train_heard;

pub use announced_laws::{a_sink_is_put_where_its_source_is, a_source_has_one_train};
pub use laws::{a_step_goes_on, bits_stand_on_the_group, last_given_is_last};
pub use notice::Notice;
pub use replies::{Cause, Reply};
pub use source::Source;
pub use train_heard::{ControlHeard, TrainHeard};
