//! The handle of a stream.
ghost use Rattle.std.specs.Prelude.{◌≡◌, Option, Some, IsSome};
ghost use Rattle.std.specs.Borrow.{sem};
ghost use Rattle.stream_c.specs.declared.machine.StreamMachine.{StreamMachine as Kept};

use crate::machine::StreamMachine;
use c_handles::Loose;
use std::alloc::Global;
use std::marker::Model;

/// A stream, or nothing. C begins with zeros.
#[repr(C)]
#[derive(Drop)]
pub struct VmStream {
    at: *mut u8,
    pub ghost kept: { Option Kept },
}

impl Model for VmStream {
    ghost use Rattle.stream_c.specs.Owned.{owned};

    ghost also_owns = { λ h. owned h.at h.kept };
}

impl VmStream {
    ghost use Rattle.stream_c.specs.Lending.{LendsKept};

    /// The handle of a box.
    pub(crate) fn of(loose: Loose<StreamMachine, Global>) -> VmStream
        ensures { result.kept ≡ Some loose.value }
    {
        let Loose { at, alloc: _ } = loose;
        VmStream { at: at as *mut u8 }
    }

    /// The box again.
    pub(crate) fn into_loose(self, alloc: Global) -> Loose<StreamMachine, Global>
        requires { IsSome self.kept }
        ensures { self.kept ≡ Some result.value }
    {
        let VmStream { at } = self;
        Loose {
            at: at as *mut StreamMachine,
            alloc,
        }
    }

    /// What lies behind the handle.
    pub(crate) fn lend(&mut self) -> &mut StreamMachine
        requires { IsSome self.old.kept }
        ensures* writes_back { sem 𝓛 (LendsKept self.entry result) }
        ensures value { self.old.kept ≡ Some result.now }
    {
        unsafe { &mut *(self.at as *mut StreamMachine) }
    }
}
