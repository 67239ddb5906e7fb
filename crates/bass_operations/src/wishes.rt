ghost use Rattle.std.specs.Prelude.{◌≡◌, ◌<◌, ◌≤◌, ◌++◌, ◌∷◌, [], length, slice_get, slice_set, take, Some, OnOk, OnErr};

use bcast_base::{Items, Memory, Octets};
use std::alloc::Global;
use std::marker::Model;

/// What is wanted of one subgroup.
#[derive(Drop)]
pub struct Wish {
    /// Bit n stands for the stream index n + 1, for n from 0 to 30; 0xFFFFFFFF is no preference.
    pub bis_sync: u32,
    /// At most 255 octets where it is written. It is carried unread.
    pub metadata: Octets,
}

/// What is wanted of each subgroup of a source: at most 255 wishes. Places count from 0.
#[derive(Drop)]
pub struct Wishes {
    list: Items<Wish>,
}

impl Model for Wishes {
    ghost use Rattle.std.specs.Prelude.{List, ◌≤◌, length};
    ghost use Rattle.bass_operations.specs.declared.wishes.Wish.{Wish};

    ghost Value = { List Wish };

    ghost view = { λ a. a.list };

    ghost invariant = { λ a. length a.list ≤ 255 };
}

impl Wishes {
    /// The empty list. It takes no memory.
    pub fn new(alloc: Global) -> Wishes
        ensures { result ≡ [] }
    {
        Wishes {
            list: Items::new(alloc),
        }
    }

    /// Puts a wish at the end. Fewer than 255 are in the list.
    pub fn push(&mut self, item: Wish) -> Result<(), Memory>
        requires { length self.old < 255 }
        ensures ok { OnOk result (self.new ≡ self.old ++ item ∷ []) }
        ensures err { OnErr result (self.new ≡ self.old) }
    {
        self.list.push(item)
    }

    /// How many wishes there are.
    pub fn count(&self) -> usize
        ensures same { result ≡ length self.now }
        ensures few { result ≤ 255 }
    {
        self.list.count()
    }

    /// The wish at place `i`, from 0.
    pub fn item(&self, i: usize) -> &Wish
        requires { i < length self.now }
        ensures { slice_get self.now i ≡ Some result.now }
    {
        self.list.item(i)
    }

    // Sets the wish at place `i`, from 0, in its memory. All other wishes stay.
    pub(crate) fn set(&mut self, i: usize, bits: u32, metadata: &[u8]) -> Result<(), Memory>
        requires { i < length self.old }
        ensures ok { OnOk result (self.new ≡ slice_set self.old i (record { bis_sync = bits; metadata = metadata.now })) }
    {
        let wish = self.list.item_mut(i);
        wish.bis_sync = bits;
        wish.metadata.set(metadata)
    }

    // Keeps the first `count` wishes, or all where there are fewer. It takes no memory.
    pub(crate) fn truncate(&mut self, count: usize)
        ensures { self.new ≡ take count self.old }
    {
        self.list.truncate(count);
    }

    // The wishes in order.
    pub(crate) fn as_slice(&self) -> &[Wish]
        ensures { result.now ≡ self.now }
    {
        self.list.as_slice()
    }
}
