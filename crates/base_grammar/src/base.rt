ghost use Rattle.std.specs.Prelude.{◌≡◌, ◌<◌, ◌≤◌, length, slice_get, is_some, Some, IfSome};
ghost use Rattle.base_grammar.specs.Layout.{encoding, endpoint, indices, stands_in, IsBase};

use crate::draft_steps::ROOM;
use crate::effective::{Effective, effective_in};
use crate::room::size_within;
use crate::subgroup::Subgroup;
use bcast_base::Bis;
use std::marker::Model;

/// A BASE (Basic Audio Profile 1.0, section 3.7.2.2): a presentation delay and subgroups, which have an encoding of at most
/// 252 octets. It has at least one subgroup, each subgroup has at least one entry, and each index stands once.
#[derive(Drop)]
pub struct Base {
    delay: u32,
    subgroups: Vec<Subgroup>,
}

impl Model for Base {
    ghost use Rattle.base_grammar.specs.Layout.{Endpoint, endpoint, IsBase};

    ghost Value = { Endpoint };

    ghost view = { λ b. endpoint b.delay b.subgroups.items };

    ghost invariant = { λ b. IsBase (endpoint b.delay b.subgroups.items) };
}

impl Base {
    ghost use Rattle.base_grammar.specs.Effective.{effective_of, IsEffective};
    ghost use Rattle.base_grammar.specs.declared.effective.Effective.{Effective};

    // The BASE of these fields.
    pub(crate) fn new(delay: u32, subgroups: Vec<Subgroup>) -> Base
        requires { IsBase (endpoint delay subgroups.items) }
        ensures same { result ≡ endpoint delay subgroups.items }
        ensures base { IsBase result }
    {
        Base { delay, subgroups }
    }

    /// The presentation delay in µs.
    pub fn delay(&self) -> u32
        ensures same { result ≡ self.now.delay }
        ensures base { IsBase self.now }
    {
        self.delay
    }

    /// How many octets it has.
    pub fn octet_count(&self) -> usize
        ensures count { result ≡ length (encoding self.now) }
        ensures most { result ≤ 252 }
    {
        4 + size_within(ROOM, self.as_slice())
    }

    /// How many subgroups there are.
    pub fn count(&self) -> usize
        ensures same { result ≡ length self.now.subgroups }
        ensures base { IsBase self.now }
    {
        self.subgroups.len()
    }

    /// The subgroup at place `i`, from 0, which is below their count.
    pub fn subgroup(&self, i: usize) -> &Subgroup
        requires { i < length self.now.subgroups }
        ensures { slice_get self.now.subgroups i ≡ Some result.now }
    {
        &self.subgroups[i]
    }

    /// What holds for the stream of this index; `None` exactly where it has no entry. It takes no memory.
    pub fn effective(&self, bis: Bis) -> Option<Effective>
        ensures exact { result ≡ effective_of self.now bis }
        ensures some { IfSome result (IsEffective self.now bis) }
        ensures present { is_some result ≡ stands_in (indices self.now.subgroups) bis }
        ensures only { (values : Effective) → IsEffective self.now bis values → result ≡ Some values }
    {
        effective_in(&self.subgroups, bis)
    }

    // The subgroups in order.
    pub(crate) fn as_slice(&self) -> &[Subgroup]
        ensures same { result.now ≡ self.now.subgroups }
        ensures base { IsBase self.now }
    {
        self.subgroups.as_slice()
    }
}
