use bcast_base::BisSet;
use big_info::GroupFault;
use iso_pdu::PduFault;

/// What a train brings that is heard, in the order of test.
#[derive(Clone, Copy, Debug, PartialEq, Eq)]
pub enum TrainHeard {
    /// It announces no Broadcast_ID.
    NoBroadcastId,
    /// No slot has its source with a wish to follow it.
    NotWanted,
    /// The sink is on another train or group.
    OtherTrain,
    /// The sink is on the group of this source.
    AlreadyOnGroup,
    /// It carries no BASE.
    NoBase,
    /// What it carries as BASE is none.
    BadBase,
    /// It carries no BIGInfo.
    NoBigInfo,
    /// What it carries as BIGInfo is none.
    BadBigInfo,
    /// The numbers of the group are refused.
    BadGroup(GroupFault),
    /// No stream is wanted and taken.
    NoneTaken,
    /// The sink is on the group, with these streams.
    OnGroup(BisSet),
}

/// What a PDU brings that is heard as a control PDU, in the order of test.
#[derive(Clone, Copy, Debug, PartialEq, Eq)]
pub enum ControlHeard {
    /// The sink is on no group.
    NotOnGroup,
    /// The octets are no PDU.
    Malformed(PduFault),
    /// It is no control PDU.
    NotControl,
    /// It has no opcode, or an unknown one.
    UnknownOpcode,
    /// It hasn't the length of its opcode.
    ControlLength,
    /// The channels change, which changes nothing here.
    MapIgnored,
    /// The group ends.
    Left,
}
