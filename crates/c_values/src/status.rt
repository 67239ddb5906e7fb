//! The statuses of all calls.

/// Done.
pub const OK: u32 = 0;

/// A number is out of its range, or a room is smaller than the call wants.
pub const RANGE: u32 = 1;

/// Memory ran out.
pub const MEMORY: u32 = 2;

/// The room is too small for what waits, which still waits.
pub const ROOM: u32 = 3;

/// Nothing waits.
pub const EMPTY: u32 = 4;

/// A value or a unit is longer than it may be.
pub const TOO_LONG: u32 = 5;

/// The octets have not the layout.
pub const LAYOUT: u32 = 6;

/// There is no such slot.
pub const NO_SLOT: u32 = 7;

/// The value of a notice is no receive state.
pub const BAD_NOTICE: u32 = 8;

/// The group has no such stream.
pub const NO_BIS: u32 = 9;

/// The group has no such subevent.
pub const NO_SUBEVENT: u32 = 10;

/// A row of the group check is at fault.
pub const GROUP: u32 = 11;

/// The time of a unit is none that its framing and the units before it allow.
pub const TIME_ORDER: u32 = 12;

/// 16 units of the stream wait.
pub const BACKLOG: u32 = 13;

/// The payload counter ends.
pub const COUNTER_ENDS: u32 = 14;

/// The event is not on the air any more, or not yet.
pub const NOT_ON_AIR: u32 = 15;

/// The source is encrypted: it is announced alone.
pub const ENCRYPTED: u32 = 16;
