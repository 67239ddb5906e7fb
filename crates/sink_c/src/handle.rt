//! The handle of a sink.
ghost use Rattle.std.specs.Prelude.{◌≡◌, Option, Some, IsSome};
ghost use Rattle.std.specs.Borrow.{sem};
ghost use Rattle.sink_c.specs.declared.machine.SinkMachine.{SinkMachine as Kept};

use crate::machine::SinkMachine;
use c_handles::Loose;
use std::alloc::Global;
use std::marker::Model;

/// A sink, or nothing. C begins with zeros.
#[repr(C)]
#[derive(Drop)]
pub struct VmSink {
    at: *mut u8,
    pub ghost kept: { Option Kept },
}

impl Model for VmSink {
    ghost use Rattle.sink_c.specs.Owned.{owned};

    ghost also_owns = { λ h. owned h.at h.kept };
}

impl VmSink {
    ghost use Rattle.sink_c.specs.Lending.{LendsKept};

    /// The handle of a box.
    pub(crate) fn of(loose: Loose<SinkMachine, Global>) -> VmSink
        ensures { result.kept ≡ Some loose.value }
    {
        let Loose { at, alloc: _ } = loose;
        VmSink { at: at as *mut u8 }
    }

    /// The box again.
    pub(crate) fn into_loose(self, alloc: Global) -> Loose<SinkMachine, Global>
        requires { IsSome self.kept }
        ensures { self.kept ≡ Some result.value }
    {
        let VmSink { at } = self;
        Loose {
            at: at as *mut SinkMachine,
            alloc,
        }
    }

    /// What lies behind the handle.
    pub(crate) fn lend(&mut self) -> &mut SinkMachine
        requires { IsSome self.old.kept }
        ensures* writes_back { sem 𝓛 (LendsKept self.entry result) }
        ensures value { self.old.kept ≡ Some result.now }
    {
        unsafe { &mut *(self.at as *mut SinkMachine) }
    }
}
