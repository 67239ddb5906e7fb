//! What a program in C is told: statuses, answers, units and BIGInfos as structs of C.
#![tactic(auto)]

mod answers;
mod fault;
mod info;
mod rooms;
pub mod status;
mod taking;
mod told;
mod units;

pub use answers::{
    VmHeard, VmReply, VmTrainHeard, control_for_c, heard_for_c, kept_for_c, reply_for_c,
    train_for_c,
};
pub use fault::{
    AirFault, base_fault_for_c, operation_fault_for_c, pac_fault_for_c, pdu_fault_for_c,
    state_fault_for_c,
};
pub use info::{AirBigInfo, info_for_c, info_in};
pub use taking::{VmUnit, put};
pub use told::Told;
pub use units::{Entry, Missed, Round, Units};
