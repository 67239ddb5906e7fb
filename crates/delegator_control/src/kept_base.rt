//! The BASE of the train that was heard last.
ghost use Rattle.std.specs.Option.{ForSome};
ghost use Rattle.std.specs.Prelude.{◌≡◌, Ok, bytes_eq};
ghost use Rattle.bcast_base.specs.Tries.{Answers};
ghost use Rattle.base_grammar.specs.Reading.{base_of, told};

use base_grammar::{Base, BaseFault, decode_base};
use bcast_base::{Memory, Octets};
use std::alloc::Global;

/// The BASE that was read last, with its octets, or nothing. A source announces the same one again and again, and then it isn't read anew.
/// It stands beside a Scan Delegator, and is no part of what that stands for.
#[derive(Drop)]
pub struct KeptBase {
    /// Whether a BASE is kept at all.
    keeps: bool,
    octets: Octets,
    base: Option<Base>,
    ghost read: { ForSome base (λ base. base_of octets ≡ Ok base) },
}

impl KeptBase {
    /// No BASE so far. It takes no memory.
    pub fn new(alloc: Global) -> KeptBase {
        KeptBase {
            keeps: true,
            octets: Octets::new(alloc),
            base: None,
        }
    }

    /// No BASE, and none is kept. It takes no memory.
    pub(crate) fn never(alloc: Global) -> KeptBase {
        KeptBase {
            keeps: false,
            octets: Octets::new(alloc),
            base: None,
        }
    }

    /// The BASE that the octets are, as `decode_base` reads it. Where it is the one that is kept, it is given away.
    pub(crate) fn take(&mut self, alloc: Global, from: &[u8]) -> Result<Base, BaseFault>
        ensures { Answers told result (base_of from.now) }
    {
        if !are_same(self.octets.as_slice(), from) {
            return decode_base(alloc, from);
        }
        match self.base.take() {
            Some(base) => Ok(base),
            None => decode_base(alloc, from),
        }
    }

    /// Keeps the BASE that the octets are, in place of the one before, where one is kept at all. After want of memory none is.
    pub(crate) fn keep(&mut self, octets: &[u8], base: Base) -> Result<(), Memory>
        requires { base_of octets.now ≡ Ok base }
    {
        if !self.keeps {
            return Ok(());
        }
        self.base = None;
        self.octets.clear();
        self.octets.append(octets)?;
        self.base = Some(base);
        Ok(())
    }
}

/// Whether octets are the same.
fn are_same(octets: &[u8], other: &[u8]) -> bool
    ensures { result ≡ bytes_eq octets.now other.now }
{
    octets == other
}
