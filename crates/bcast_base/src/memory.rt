ghost use Rattle.std.specs.Prelude.{◌≡◌, Some, codes};
ghost use Rattle.bcast_base.specs.declared.memory.Memory.{Memory};

use std::alloc::{AllocError, AllocFailed};
use std::error::Error;
use std::fmt;

/// Want of memory, where it is the only refusal.
#[derive(Clone, Copy, Debug, PartialEq, Eq)]
pub struct Memory;

impl fmt::Display for Memory {
    ghost output = { λ _. Some (codes "no memory") };

    fn fmt<W: fmt::Write>(&self, f: &mut fmt::Formatter<W>) -> fmt::Result {
        write!(f, "no memory")
    }
}

impl Error for Memory {}

impl From<AllocError> for Memory {
    fn from(_e: AllocError) -> Memory {
        Memory
    }
}

impl<T: Drop> From<AllocFailed<T>> for Memory {
    fn from(_e: AllocFailed<T>) -> Memory {
        Memory
    }
}

/// What a consuming call that is refused hands back: the old state, and why it was refused.
#[derive(Drop)]
pub struct Kept<S, F> {
    pub state: S,
    pub fault: F,
}
