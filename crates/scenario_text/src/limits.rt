/// The most octets of an operation (Broadcast Audio Scan Service 1.0, section 3.1.1).
pub const MOST_OF_OPERATION: usize = 512;

/// The octets of an Add Source before its subgroups.
pub const BEFORE_ADD: usize = 16;

/// The octets of a Modify Source before its subgroups.
pub const BEFORE_MODIFY: usize = 6;
