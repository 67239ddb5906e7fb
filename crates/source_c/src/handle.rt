//! The handle of a source.
ghost use Rattle.std.specs.Prelude.{◌≡◌, Option, Some, IsSome};
ghost use Rattle.std.specs.Borrow.{sem};
ghost use Rattle.source_c.specs.declared.machine.SourceMachine.{SourceMachine as Kept};

use crate::machine::SourceMachine;
use c_handles::Loose;
use std::alloc::Global;
use std::marker::Model;

/// A source, or nothing. C begins with zeros.
#[repr(C)]
#[derive(Drop)]
pub struct VmSource {
    at: *mut u8,
    pub ghost kept: { Option Kept },
}

impl Model for VmSource {
    ghost use Rattle.source_c.specs.Owned.{owned};

    ghost also_owns = { λ h. owned h.at h.kept };
}

impl VmSource {
    ghost use Rattle.source_c.specs.Lending.{LendsKept};

    /// The handle of a box.
    pub(crate) fn of(loose: Loose<SourceMachine, Global>) -> VmSource
        ensures { result.kept ≡ Some loose.value }
    {
        let Loose { at, alloc: _ } = loose;
        VmSource { at: at as *mut u8 }
    }

    /// The box again.
    pub(crate) fn into_loose(self, alloc: Global) -> Loose<SourceMachine, Global>
        requires { IsSome self.kept }
        ensures { self.kept ≡ Some result.value }
    {
        let VmSource { at } = self;
        Loose {
            at: at as *mut SourceMachine,
            alloc,
        }
    }

    /// What lies behind the handle.
    pub(crate) fn lend(&mut self) -> &mut SourceMachine
        requires { IsSome self.old.kept }
        ensures* writes_back { sem 𝓛 (LendsKept self.entry result) }
        ensures value { self.old.kept ≡ Some result.now }
    {
        unsafe { &mut *(self.at as *mut SourceMachine) }
    }
}
