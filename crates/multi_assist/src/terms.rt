ghost use Rattle.std.specs.Prelude.{◌≡◌, IfOk};
ghost use Rattle.multi_assist.specs.Mtus.{IsMtu};
ghost use Rattle.multi_assist.specs.State.Terms.{joining};

use assistant_machine::{AssistApart, AssistJoined};
use bcast_base::Memory;
use std::alloc::Global;

/// What every link of a sink has: the number of slots, and the MTU, where there is one.
#[derive(Clone, Copy)]
pub(crate) struct Terms {
    pub alloc: Global,
    pub slots: u8,
    pub mtu: Option<u16>,
    ghost fits: { IsMtu mtu },
}

impl Terms {
    /// An assistant that just joined.
    pub(crate) fn join(&self) -> Result<AssistJoined, Memory>
        ensures { IfOk result (λ assistant. assistant ≡ joining self.now.slots self.now.mtu) }
    {
        let mut assistant = match AssistApart::new(self.alloc).join(self.slots) {
            Ok(assistant) => assistant,
            Err(kept) => return Err(kept.fault),
        };
        if let Some(mtu) = self.mtu {
            assistant.set_mtu(mtu);
        }
        Ok(assistant)
    }
}
