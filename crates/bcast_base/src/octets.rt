ghost use Rattle.std.specs.Prelude.{◌≡◌, ◌<◌, ◌-◌, ◌++◌, ◌∷◌, [], length, replicate, take, MatchResult, OnOk, OnErr};
ghost use Rattle.std.specs.Borrow.{sem};
ghost use Rattle.bcast_base.specs.Lending.{LendsOctets};

use crate::memory::Memory;
use std::alloc::Global;
use std::marker::Model;

/// A string of octets that keeps the allocator that it was made with.
#[derive(Drop)]
pub struct Octets {
    octets: Vec<u8>,
}

impl Model for Octets {
    ghost use Rattle.std.specs.Prelude.{List, ℕ};

    ghost Value = { List ℕ };

    ghost view = { λ a. a.octets.items };
}

impl Octets {
    /// No octets. It takes no memory.
    pub fn new(alloc: Global) -> Octets
        ensures { result ≡ [] }
    {
        Octets {
            octets: Vec::new(alloc),
        }
    }

    /// The same octets in new memory. No octets take none.
    pub fn copy(alloc: Global, from: &[u8]) -> Result<Octets, Memory>
        ensures { MatchResult result (λ octets. octets ≡ from.now) (λ _. 0 < length from.now) }
    {
        if from.is_empty() {
            return Ok(Octets::new(alloc));
        }
        Ok(Octets {
            octets: Vec::from_slice(alloc, from)?,
        })
    }

    /// The octets of a vector.
    pub fn of(octets: Vec<u8>) -> Octets
        ensures { result ≡ octets.items }
    {
        Octets { octets }
    }

    /// Puts an octet at the end.
    pub fn push(&mut self, octet: u8) -> Result<(), Memory>
        ensures ok { OnOk result (self.new ≡ self.old ++ octet ∷ []) }
        ensures err { OnErr result (self.new ≡ self.old) }
    {
        Ok(self.octets.push(octet)?)
    }

    /// Puts octets at the end. No octets take no memory.
    pub fn append(&mut self, from: &[u8]) -> Result<(), Memory>
        ensures ok { OnOk result (self.new ≡ self.old ++ from.now) }
        ensures err { OnErr result (self.new ≡ self.old) }
        ensures memory { OnErr result (0 < length from.now) }
    {
        Ok(self.octets.extend_from_slice(from)?)
    }

    /// The octets.
    pub fn as_slice(&self) -> &[u8]
        ensures { result.now ≡ self.now }
    {
        self.octets.as_slice()
    }

    /// The octets, to be written to.
    pub fn as_mut_slice(&mut self) -> &mut [u8]
        ensures* lends { sem 𝓛 (LendsOctets self.entry result) }
        ensures value { result.now ≡ self.old }
    {
        self.octets.as_mut_slice()
    }

    /// Drops all octets, and keeps the room.
    pub fn clear(&mut self)
        ensures { self.new ≡ [] }
    {
        self.octets.clear();
    }

    /// Makes them these octets, in the memory that they have where it is enough. No octets take none.
    pub fn set(&mut self, from: &[u8]) -> Result<(), Memory>
        ensures ok { OnOk result (self.new ≡ from.now) }
        ensures memory { OnErr result (0 < length from.now) }
    {
        if self.octets.len() == from.len() {
            self.octets.as_mut_slice().copy_from_slice(from);
            return Ok(());
        }
        self.octets.clear();
        Ok(self.octets.extend_from_slice(from)?)
    }

    /// The same octets in memory of the same allocator. No octets take none.
    pub fn copy_again(&self) -> Result<Octets, Memory>
        ensures { MatchResult result (λ octets. octets ≡ self.now) (λ _. 0 < length self.now) }
    {
        Octets::copy(*self.octets.allocator(), self.octets.as_slice())
    }

    /// Keeps the first `n` octets, or all where there are fewer. It takes no memory.
    pub fn truncate(&mut self, n: usize)
        ensures { self.new ≡ take n self.old }
    {
        self.octets.truncate(n);
    }

    /// Makes them `n` octets: those behind are dropped, or zeros are put at the end.
    pub fn resize(&mut self, n: usize) -> Result<(), Memory>
        ensures ok { OnOk result (length self.new ≡ n) }
        ensures octets { OnOk result (self.new ≡ take n self.old ++ replicate (n - length self.old) 0) }
        ensures err { OnErr result (self.new ≡ self.old) }
    {
        Ok(self.octets.resize(n, 0)?)
    }
}
