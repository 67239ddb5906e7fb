use bcast_base::Items;

/// Why a source didn't take a unit that a relay offered, in the order of test.
#[derive(Clone, Copy, Debug, PartialEq, Eq)]
pub enum DropName {
    /// The source has stopped.
    NotStreaming,
    /// The unit has more octets than Max_SDU of the source.
    UnitTooLong,
    /// Its time in µs isn't above that of the last unit that the stream took.
    TimeOrder,
    /// 16 units of the stream wait.
    Backlog,
}

/// A unit that a source didn't take.
#[derive(Clone, Copy, Debug, PartialEq, Eq)]
pub struct DroppedUnit {
    /// Its place, from 0, among the units that were offered with it.
    pub number: u64,
    pub name: DropName,
}

/// The units that a source didn't take, in the order in which they were offered.
pub type Dropped = Items<DroppedUnit>;
