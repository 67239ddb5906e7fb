ghost use Rattle.std.specs.Prelude.{◌≡◌};

use receive_state::StateFault;

/// What a value of a slot brought.
#[derive(Clone, Copy, Debug, PartialEq, Eq)]
pub enum NoticeTaken {
    /// The value may have been cut: a read of the slot waits.
    ReadWaits,
    /// The value is the view of the slot.
    View,
}

/// Why a value of a slot was not taken, in the order of test.
#[derive(Clone, Copy, Debug, PartialEq, Eq)]
pub enum NoticeFault {
    NoSuchSlot,
    /// The octets are no value.
    BadNotice(StateFault),
    Memory,
}
