//! The handle of an assistant on a link.
ghost use Rattle.std.specs.Prelude.{◌≡◌, Option, Some, IsSome};
ghost use Rattle.std.specs.Borrow.{sem};
ghost use Rattle.link_c.specs.declared.machine.LinkMachine.{LinkMachine as Kept};

use crate::machine::LinkMachine;
use c_handles::Loose;
use std::alloc::Global;
use std::marker::Model;

/// An assistant, or nothing. C begins with zeros.
#[repr(C)]
#[derive(Drop)]
pub struct VmLink {
    at: *mut u8,
    pub ghost kept: { Option Kept },
}

impl Model for VmLink {
    ghost use Rattle.link_c.specs.Owned.{owned};

    ghost also_owns = { λ h. owned h.at h.kept };
}

impl VmLink {
    ghost use Rattle.link_c.specs.Lending.{LendsKept};

    /// The handle of a box.
    pub(crate) fn of(loose: Loose<LinkMachine, Global>) -> VmLink
        ensures { result.kept ≡ Some loose.value }
    {
        let Loose { at, alloc: _ } = loose;
        VmLink { at: at as *mut u8 }
    }

    /// The box again.
    pub(crate) fn into_loose(self, alloc: Global) -> Loose<LinkMachine, Global>
        requires { IsSome self.kept }
        ensures { self.kept ≡ Some result.value }
    {
        let VmLink { at } = self;
        Loose {
            at: at as *mut LinkMachine,
            alloc,
        }
    }

    /// What lies behind the handle.
    pub(crate) fn lend(&mut self) -> &mut LinkMachine
        requires { IsSome self.old.kept }
        ensures* writes_back { sem 𝓛 (LendsKept self.entry result) }
        ensures value { self.old.kept ≡ Some result.now }
    {
        unsafe { &mut *(self.at as *mut LinkMachine) }
    }
}
