//! What C is told.
ghost use Rattle.std.specs.Prelude.{◌≡◌};
ghost use Rattle.c_values.specs.Numbers.{cause_number, reply_c, kept_c, heard_c, control_c, streams_c, train_c};

use delegator_history::{Cause, ControlHeard, Reply, TrainHeard};
use isoal_base::{Heard, Hearing};

/// The answer to a write: the error code, 0 where it is accepted, and the number of its cause.
#[repr(C)]
#[derive(Clone, Copy)]
pub struct VmReply {
    pub code: u8,
    pub cause: u8,
}

/// What a PDU brought, and the number of its fault.
#[repr(C)]
#[derive(Clone, Copy)]
pub struct VmHeard {
    pub answer: u8,
    pub fault: u8,
}

/// What a train brought, the number of its group's fault, and the streams taken: bit n for the index n + 1.
#[repr(C)]
#[derive(Clone, Copy)]
pub struct VmTrainHeard {
    pub streams: u32,
    pub answer: u8,
    pub fault: u8,
}

fn cause_number(cause: Cause) -> u8
    ensures { result ≡ cause_number cause }
{
    match cause {
        Cause::Empty => 1,
        Cause::Opcode => 2,
        Cause::Length => 3,
        Cause::Rfu => 4,
        Cause::BisTwice => 5,
        Cause::SourceUnknown => 6,
        Cause::NoDecrypt => 7,
        Cause::Known => 8,
        Cause::NoRoom => 9,
        Cause::ValueTooLong => 10,
        Cause::StillSynced => 11,
    }
}

/// The answer to a write, with the code of the error and the number of the cause; both are 0 where the write was accepted.
pub fn reply_for_c(reply: Reply) -> VmReply
    ensures { result ≡ reply_c reply }
{
    match reply {
        Reply::Accepted => VmReply { code: 0, cause: 0 },
        Reply::Refused { code, cause } => VmReply {
            code,
            cause: cause_number(cause),
        },
    }
}

fn heard_as(answer: u8, fault: u8) -> VmHeard
    ensures { result ≡ record { answer = answer; fault = fault } }
{
    VmHeard { answer, fault }
}

/// What became of a PDU that the receiver of a stream was given.
pub fn kept_for_c(heard: Heard) -> VmHeard
    ensures { result ≡ kept_c heard }
{
    match heard {
        Heard::Malformed(fault) => heard_as(0, fault.number()),
        Heard::WrongKind => heard_as(1, 0),
        Heard::Late => heard_as(2, 0),
        Heard::Beyond => heard_as(3, 0),
        Heard::Repeat => heard_as(4, 0),
        Heard::Kept => heard_as(5, 0),
    }
}

/// What became of a PDU that a sink heard.
pub fn heard_for_c(hearing: Hearing) -> VmHeard
    ensures { result ≡ heard_c hearing }
{
    match hearing {
        Hearing::NotOnGroup => heard_as(6, 0),
        Hearing::NotTaken => heard_as(7, 0),
        Hearing::NoNumber => heard_as(8, 0),
        Hearing::Heard(heard) => kept_for_c(heard),
    }
}

/// What became of a BIG Control PDU that a sink heard.
pub fn control_for_c(heard: ControlHeard) -> VmHeard
    ensures { result ≡ control_c heard }
{
    match heard {
        ControlHeard::NotOnGroup => heard_as(0, 0),
        ControlHeard::Malformed(fault) => heard_as(1, fault.number()),
        ControlHeard::NotControl => heard_as(2, 0),
        ControlHeard::UnknownOpcode => heard_as(3, 0),
        ControlHeard::ControlLength => heard_as(4, 0),
        ControlHeard::MapIgnored => heard_as(5, 0),
        ControlHeard::Left => heard_as(6, 0),
    }
}

fn train_as(answer: u8, fault: u8) -> VmTrainHeard
    ensures answer { result.answer ≡ answer }
    ensures fault { result.fault ≡ fault }
    ensures streams { result.streams ≡ 0 }
{
    VmTrainHeard {
        streams: 0,
        answer,
        fault,
    }
}

/// What became of a train that a sink heard, with the streams that it takes of it; bit n stands for index n + 1.
pub fn train_for_c(heard: TrainHeard) -> VmTrainHeard
    ensures answer { result.answer ≡ (train_c heard).0 }
    ensures fault { result.fault ≡ (train_c heard).1 }
    ensures streams { result.streams ≡ streams_c heard }
{
    match heard {
        TrainHeard::NoBroadcastId => train_as(0, 0),
        TrainHeard::NotWanted => train_as(1, 0),
        TrainHeard::OtherTrain => train_as(2, 0),
        TrainHeard::AlreadyOnGroup => train_as(3, 0),
        TrainHeard::NoBase => train_as(4, 0),
        TrainHeard::BadBase => train_as(5, 0),
        TrainHeard::NoBigInfo => train_as(6, 0),
        TrainHeard::BadBigInfo => train_as(7, 0),
        TrainHeard::BadGroup(fault) => train_as(8, fault.number()),
        TrainHeard::NoneTaken => train_as(9, 0),
        TrainHeard::OnGroup(streams) => VmTrainHeard {
            streams: streams.bits(),
            answer: 10,
            fault: 0,
        },
    }
}
