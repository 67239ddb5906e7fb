//! Sets of numbers from 0 to 31, as the bits of a number.

/// Whether the number is in the set.
pub(crate) fn has(set: u32, number: u64) -> bool {
    number < 32 && (set >> (number as u32)) & 1 == 1
}

/// The set with this number.
pub(crate) fn with(set: u32, number: u64) -> u32 {
    if number < 32 {
        set | (1 << (number as u32))
    } else {
        set
    }
}

/// The set without this number.
pub(crate) fn without(set: u32, number: u64) -> u32 {
    if number < 32 {
        set & !(1 << (number as u32))
    } else {
        set
    }
}
