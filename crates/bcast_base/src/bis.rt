ghost use Rattle.std.specs.Prelude.{◌≡◌, ◌≢◌, ◌≤◌, ◌<◌, ◌^◌, ◌↔◌, ℕ, IsTrue};
ghost use Rattle.std.specs.Option.{SomeIff};
ghost use Rattle.std.specs.Int.RustNames.{count_ones};
ghost use Rattle.bcast_base.specs.Bis.{Has};

use std::marker::Model;

/// The index of a stream of a group, from 1 to 31.
#[derive(Clone, Copy, Debug, PartialEq, Eq, PartialOrd, Ord)]
pub struct Bis {
    number: u8,
}

impl Model for Bis {
    ghost use Rattle.std.specs.Prelude.{ℕ, ◌≤◌};

    ghost Value = { ℕ };

    ghost view = { λ a. a.number };

    ghost invariant = { λ a. (1 ≤ a.number) × (a.number ≤ 31) };

    ghost inverse = { λ n. record { number = n } };
}

impl Bis {
    /// The stream of this index; `None` outside 1 to 31.
    pub fn new(n: u8) -> Option<Bis>
        ensures { SomeIff result ((1 ≤ n) × (n ≤ 31)) n }
    {
        if 1 <= n && n <= 31 {
            Some(Bis { number: n })
        } else {
            None
        }
    }

    /// The index, from 1 to 31.
    pub fn get(self) -> u8
        ensures same { result ≡ self }
        ensures least { 1 ≤ result }
        ensures greatest { result ≤ 31 }
    {
        self.number
    }
}

/// A set of streams: bit n of the number stands for index n + 1.
#[derive(Clone, Copy, Debug, PartialEq, Eq)]
pub struct BisSet {
    bits: u32,
}

impl Model for BisSet {
    ghost use Rattle.std.specs.Prelude.{ℕ, ◌<◌, ◌^◌};

    ghost Value = { ℕ };

    ghost view = { λ a. a.bits };

    ghost invariant = { λ a. a.bits < 2 ^ 31 };

    ghost inverse = { λ n. record { bits = n } };
}

impl BisSet {
    /// No stream.
    pub fn new() -> BisSet
        ensures { result ≡ 0 }
    {
        BisSet { bits: 0 }
    }

    /// The set of these bits: bit n stands for index n + 1. `None` where bit 31 is set.
    pub fn of(bits: u32) -> Option<BisSet>
        ensures { SomeIff result (bits < 2 ^ 31) bits }
    {
        if bits < 1 << 31 {
            Some(BisSet { bits })
        } else {
            None
        }
    }

    /// Its bits: bit n stands for index n + 1.
    pub fn bits(self) -> u32
        ensures { result ≡ self }
    {
        self.bits
    }

    /// Whether the stream is in the set.
    pub fn has(self, bis: Bis) -> bool
        ensures { IsTrue result ↔ Has self bis }
    {
        (self.bits >> (bis.get() - 1)) & 1 == 1
    }

    /// The set with this stream, and all others as they were.
    pub fn with(self, bis: Bis) -> BisSet
        ensures has { Has result bis }
        ensures others { (b : ℕ) → 1 ≤ b → b ≢ bis → (Has result b ↔ Has self b) }
    {
        BisSet {
            bits: self.bits | (1 << (bis.get() - 1)),
        }
    }

    /// The set without this stream, and all others as they were.
    pub fn without(self, bis: Bis) -> BisSet
        ensures has { ¬ Has result bis }
        ensures others { (b : ℕ) → 1 ≤ b → b ≢ bis → (Has result b ↔ Has self b) }
    {
        BisSet {
            bits: self.bits & !(1 << (bis.get() - 1)),
        }
    }

    /// How many streams are in the set.
    pub fn count(self) -> u32
        ensures { result ≡ count_ones self }
    {
        self.bits.count_ones()
    }
}
