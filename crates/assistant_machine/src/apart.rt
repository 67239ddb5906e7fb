ghost use Rattle.std.specs.Prelude.{◌≡◌, [], IfOk};
ghost use Rattle.assistant_machine.specs.State.Assistants.{StandsFor, joined};

use crate::joined::AssistJoined;
use bcast_base::{Kept, Memory};
use std::alloc::Global;

/// An assistant that is on no link. It keeps the allocator alone.
#[derive(Drop)]
pub struct AssistApart {
    pub(crate) alloc: Global,
}

impl AssistApart {
    /// It takes no memory.
    pub fn new(alloc: Global) -> AssistApart {
        AssistApart { alloc }
    }

    /// Joins a server that has so many slots: no write waits, each view is empty, and no read waits. Where memory is wanted
    /// it stays apart.
    pub fn join(self, slots: u8) -> Result<AssistJoined, Kept<AssistApart, Memory>>
        ensures joined { IfOk result (λ assistant. assistant ≡ joined slots) }
        ensures stands { IfOk result (λ assistant. StandsFor slots [] assistant) }
    {
        match AssistJoined::of(self.alloc, slots) {
            Ok(assistant) => Ok(assistant),
            Err(fault) => Err(Kept { state: self, fault }),
        }
    }
}
