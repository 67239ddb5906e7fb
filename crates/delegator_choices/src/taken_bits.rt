ghost use Rattle.std.specs.Prelude.{◌≡◌, ◌<◌, ◌^◌, ◌++◌, ◌∷◌, [], OnOk, OnErr};
ghost use Rattle.delegator_choices.specs.State.Slots.{AreSets};

use bcast_base::{Items, Memory};
use std::alloc::Global;
use std::marker::Model;

/// The streams that are taken of each subgroup: bit n stands for the index n + 1.
#[derive(Drop)]
pub struct TakenBits {
    list: Items<u32>,
}

impl Model for TakenBits {
    ghost use Rattle.std.specs.Prelude.{List, ℕ};
    ghost use Rattle.delegator_choices.specs.State.Slots.{AreSets};

    ghost Value = { List ℕ };

    ghost view = { λ a. a.list };

    ghost invariant = { λ a. AreSets a.list };
}

impl TakenBits {
    /// None. It takes no memory.
    pub fn new(alloc: Global) -> TakenBits
        ensures { result ≡ [] }
    {
        TakenBits {
            list: Items::new(alloc),
        }
    }

    /// Puts the streams of a further subgroup at the end. After want of memory nothing changed.
    pub fn push(&mut self, set: u32) -> Result<(), Memory>
        requires { set < 2 ^ 31 }
        ensures ok { OnOk result (self.new ≡ self.old ++ set ∷ []) }
        ensures err { OnErr result (self.new ≡ self.old) }
    {
        self.list.push(set)
    }

    /// A number for each subgroup, in order. It takes no memory.
    pub fn as_slice(&self) -> &[u32]
        ensures same { result.now ≡ self.now }
        ensures sets { AreSets result.now }
    {
        self.list.as_slice()
    }
}
