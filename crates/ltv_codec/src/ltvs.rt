ghost use Rattle.std.specs.Prelude.{◌≡◌, ◌≤◌, ◌<◌, ◌++◌, ◌∷◌, [], length, slice_get, Some, OnOk, OnErr};
ghost use Rattle.std.specs.List.{AllByRecursion};
ghost use Rattle.ltv_codec.specs.Layout.{Fits};

use bcast_base::{Items, Memory, Octets};
use std::alloc::Global;
use std::marker::Model;

/// An LTV structure: a type and its value, of at most 254 octets where it stands in a list.
#[derive(Drop)]
pub struct Ltv {
    pub kind: u8,
    pub value: Octets,
}

/// A list of LTV structures, each of which has an encoding. Places count from 0.
#[derive(Drop)]
pub struct Ltvs {
    alloc: Global,
    list: Items<Ltv>,
}

impl Model for Ltvs {
    ghost use Rattle.std.specs.Prelude.{List};
    ghost use Rattle.std.specs.List.{AllByRecursion};
    ghost use Rattle.ltv_codec.specs.Layout.{Fits};
    ghost use Rattle.ltv_codec.specs.declared.ltvs.Ltv.{Ltv};

    ghost Value = { List Ltv };

    ghost view = { λ a. a.list };

    ghost invariant = { λ a. AllByRecursion Fits a.list };
}

impl Ltvs {
    /// The empty list. It takes no memory.
    pub fn new(alloc: Global) -> Ltvs
        ensures { result ≡ [] }
    {
        Ltvs {
            alloc,
            list: Items::new(alloc),
        }
    }

    /// Puts a structure at the end. The value has at most 254 octets.
    pub fn push(&mut self, kind: u8, value: &[u8]) -> Result<(), Memory>
        requires { length value.now ≤ 254 }
        ensures ok { OnOk result (self.new ≡ self.old ++ record { kind = kind; value = value.now } ∷ []) }
        ensures err { OnErr result (self.new ≡ self.old) }
    {
        let value = Octets::copy(self.alloc, value)?;
        self.list.push(Ltv { kind, value })
    }

    /// How many structures there are.
    pub fn count(&self) -> usize
        ensures { result ≡ length self.now }
    {
        self.list.count()
    }

    /// The structure at place `i`, from 0.
    pub fn item(&self, i: usize) -> &Ltv
        requires { i < length self.now }
        ensures { slice_get self.now i ≡ Some result.now }
    {
        self.list.item(i)
    }

    // The structures in order.
    pub(crate) fn as_slice(&self) -> &[Ltv]
        ensures same { result.now ≡ self.now }
        ensures fit { AllByRecursion Fits result.now }
    {
        self.list.as_slice()
    }
}
