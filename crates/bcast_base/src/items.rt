ghost use Rattle.std.specs.Prelude.{◌≡◌, ◌<◌, ◌++◌, ◌∷◌, [], length, slice_get, take, Some, OnOk, OnErr};
ghost use Rattle.std.specs.Borrow.{sem};
ghost use Rattle.bcast_base.specs.Lending.{LendsItem};

use crate::memory::Memory;
use crate::octets::Octets;
use std::alloc::Global;
use std::marker::Model;

/// A list that keeps the allocator that it was made with. Places count from 0.
#[derive(Drop)]
pub struct Items<T> {
    items: Vec<T>,
}

impl<T> Model for Items<T> {
    ghost use Rattle.std.specs.Prelude.{List};

    ghost Value = { List T };

    ghost view = { λ a. a.items.items };
}

impl<T: Drop> Items<T> {
    /// The empty list. It takes no memory.
    pub fn new(alloc: Global) -> Items<T>
        ensures { result ≡ [] }
    {
        Items {
            items: Vec::new(alloc),
        }
    }

    /// Puts an item at the end.
    pub fn push(&mut self, item: T) -> Result<(), Memory>
        ensures ok { OnOk result (self.new ≡ self.old ++ item ∷ []) }
        ensures err { OnErr result (self.new ≡ self.old) }
    {
        Ok(self.items.push(item)?)
    }

    /// Keeps the first `count` items, or all where there are fewer. It takes no memory.
    pub fn truncate(&mut self, count: usize)
        ensures { self.new ≡ take count self.old }
    {
        self.items.truncate(count);
    }

    /// How many items there are.
    pub fn count(&self) -> usize
        ensures { result ≡ length self.now }
    {
        self.items.len()
    }

    /// The item at place `i`, from 0.
    pub fn item(&self, i: usize) -> &T
        requires { i < length self.now }
        ensures { slice_get self.now i ≡ Some result.now }
    {
        &self.items[i]
    }

    /// The item at place `i`, from 0, to be written to.
    pub fn item_mut(&mut self, i: usize) -> &mut T
        requires { i < length self.old }
        ensures* lends { sem 𝓛 (LendsItem T.row self.entry i result) }
        ensures value { slice_get self.old i ≡ Some result.now }
    {
        &mut self.items[i]
    }

    /// The items in order.
    pub fn as_slice(&self) -> &[T]
        ensures { result.now ≡ self.now }
    {
        self.items.as_slice()
    }
}

/// Numbers of calls, from 1.
pub type Calls = Items<u64>;

/// The PDUs of an event.
pub type EventPdus = Items<Octets>;

/// Times in µs.
pub type Times = Items<u64>;
