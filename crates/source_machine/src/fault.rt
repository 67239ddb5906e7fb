ghost use Rattle.std.specs.Prelude.{◌≡◌};
ghost use Rattle.source_machine.specs.declared.fault.AnnounceFault.TheVariants.{Memory as NoMemoryToAnnounce};
ghost use Rattle.source_machine.specs.declared.fault.EventFault.TheVariants.{Memory as NoMemory};
ghost use Rattle.source_machine.specs.Faults.{of_sender};

use bcast_base::Memory;
use big_info::GroupFault;
use isoal_base::PutFault;

/// Why a source took no group.
#[derive(Clone, Copy, Debug, PartialEq, Eq)]
pub enum ConfigureFault {
    /// The first row of the group check that holds, where that is not Encrypted.
    BadGroup(GroupFault),
    Memory,
}

/// Why a source refused a unit.
#[derive(Clone, Copy, Debug, PartialEq, Eq)]
pub enum GiveFault {
    /// The group has no stream of this index.
    NoSuchBis,
    /// The unit has more than Max_SDU octets.
    UnitTooLong,
    /// A time is given in an unframed group, or none in a framed one; it is not above that of the last unit of the stream;
    /// or it is past the next anchor, where times may not be ahead.
    TimeOrder,
    /// 16 units of the stream wait.
    Backlog,
    Memory,
}

/// Why an event was not performed.
#[derive(Clone, Copy, Debug, PartialEq, Eq)]
pub enum EventFault {
    /// The payload numbers of the event and of those laid with it would pass 2^39.
    CounterEnds,
    Memory,
}

/// Why the next event was not announced.
#[derive(Clone, Copy, Debug, PartialEq, Eq)]
pub enum AnnounceFault {
    /// The payload count of the event, which is its number × BN, would be 2^39 or more.
    CounterEnds,
    Memory,
}

impl From<PutFault> for GiveFault {
    ghost from_gives = { λ put fault. fault ≡ of_sender put };

    fn from(put: PutFault) -> GiveFault {
        match put {
            PutFault::TooLong => GiveFault::UnitTooLong,
            PutFault::TimeOrder => GiveFault::TimeOrder,
            PutFault::Backlog => GiveFault::Backlog,
            PutFault::Memory => GiveFault::Memory,
        }
    }
}

impl From<Memory> for AnnounceFault {
    ghost from_gives = { λ _ fault. fault ≡ NoMemoryToAnnounce };

    fn from(_memory: Memory) -> AnnounceFault {
        AnnounceFault::Memory
    }
}

impl From<Memory> for EventFault {
    ghost from_gives = { λ _ fault. fault ≡ NoMemory };

    fn from(_memory: Memory) -> EventFault {
        EventFault::Memory
    }
}
