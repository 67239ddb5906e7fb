//! Memory that is used again.
ghost use Rattle.std.specs.Prelude.{◌≡◌, ◌<◌, ◌≤◌, ◌+◌, ◌-◌, length, min, MatchResult, OnOk, OnErr};

use bcast_base::{Memory, Octets};
use std::alloc::Global;
use std::marker::Model;

/// The most strings of octets that are kept for their memory.
const SPARES: usize = 16;

/// At most 16 strings of octets that are kept for their memory alone. It is seen as how many are kept.
#[derive(Drop)]
pub struct SpareOctets {
    alloc: Global,
    spares: Vec<Octets>,
}

impl Model for SpareOctets {
    ghost use Rattle.std.specs.Prelude.{ℕ, ◌≤◌, length};

    ghost Value = { ℕ };

    ghost view = { λ a. length a.spares.items };

    ghost invariant = { λ a. length a.spares.items ≤ 16 };
}

impl SpareOctets {
    /// Nothing to use again. It takes no memory.
    pub fn new(alloc: Global) -> SpareOctets
        ensures { result ≡ 0 }
    {
        SpareOctets {
            alloc,
            spares: Vec::new(alloc),
        }
    }

    /// The same octets, in the memory of a string that was kept where there is one; that string is no longer kept. No octets
    /// take no new memory.
    #[inline(always)]
    pub fn copy(&mut self, from: &[u8]) -> Result<Octets, Memory>
        ensures copied { MatchResult result (λ octets. octets ≡ from.now) (λ _. 0 < length from.now) }
        ensures one_less { self.new ≡ self.old - 1 }
    {
        let Some(mut octets) = self.spares.pop() else {
            return Octets::copy(self.alloc, from);
        };
        refill(&mut octets, from)?;
        Ok(octets)
    }

    /// Keeps the memory of a string, where fewer than 16 are kept. Memory is wanted for one more in the list of them; the string is
    /// then given back, and what was kept stays.
    pub fn keep(&mut self, octets: Octets) -> Result<(), Memory>
        ensures kept { MatchResult result (λ _. self.new ≡ min (self.old + 1) 16) (λ _. (self.new ≡ self.old) × (self.old < 16)) }
    {
        if self.spares.len() < SPARES {
            self.spares.push(octets)?;
        }
        Ok(())
    }
}

/// Puts these octets in the place of those that were there.
pub(crate) fn refill(octets: &mut Octets, from: &[u8]) -> Result<(), Memory>
    ensures ok { OnOk result (octets.new ≡ from.now) }
    ensures memory { OnErr result (0 < length from.now) }
{
    if octets.as_slice().len() == from.len() {
        octets.as_mut_slice().copy_from_slice(from);
        return Ok(());
    }
    octets.clear();
    octets.append(from)
}
