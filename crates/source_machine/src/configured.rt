ghost use Rattle.std.specs.Prelude.{◌≡◌, ◌≤◌, ◌<◌, ◌^◌, IfOk, IfErr, [], false};
ghost use Rattle.big_info.specs.Widths.{FitsWidths};
ghost use Rattle.source_machine.specs.Ciphers.{MayBeSent};
ghost use Rattle.source_machine.specs.Faults.{ConfigureFails};
ghost use Rattle.source_machine.specs.Setups.{configured as as_configured, started};
ghost use Rattle.source_machine.specs.State.Sources.{StandsFor};

use crate::carried::Carried;
use crate::checking::check_numbers;
use crate::fault::ConfigureFault;
use crate::setup::{Plan, Setup};
use crate::stream::new_streams;
use crate::streaming::SourceStreaming;
use bcast_base::{Kept, Memory};
use big_info::Limits;
use std::alloc::Global;
use std::marker::Model;

/// A source with no group.
#[derive(Drop)]
pub struct SourceIdle {
    alloc: Global,
}

impl SourceIdle {
    /// A source with no group. It takes no memory.
    pub fn new(alloc: Global) -> SourceIdle {
        SourceIdle { alloc }
    }

    /// Gives the source its group, by the limits of version 1.
    ///
    /// BadGroup comes exactly where a row of the group check (Core 5.2, volume 6 part B, section 4.4.6) but Encrypted
    /// holds, with the first that does. The anchor of the first event is 3,000 µs at least. It takes no memory.
    pub fn configure(
        self,
        setup: Setup,
    ) -> Result<SourceConfigured, Kept<SourceIdle, ConfigureFault>>
        requires widths { FitsWidths setup.info }
        requires least { 3000 ≤ setup.origin }
        requires greatest { setup.origin ≤ 2 ^ 48 }
        ensures ok { IfOk result (λ configured. (configured ≡ as_configured setup false) × MayBeSent 15 setup.info) }
        ensures err { IfErr result (λ kept. ConfigureFails 15 setup.info kept.fault) }
    {
        self.configure_within(setup, Limits::VERSION_1)
    }

    /// Gives the source its group, where a payload may be sent `limits.horizon` events ahead, and the time of a framed unit
    /// may be past the next anchor where the limits say so.
    ///
    /// BadGroup comes exactly where a row of the group check but Encrypted holds, with the first that does. It takes no memory.
    pub fn configure_within(
        self,
        setup: Setup,
        limits: Limits,
    ) -> Result<SourceConfigured, Kept<SourceIdle, ConfigureFault>>
        requires widths { FitsWidths setup.info }
        requires horizon { limits.horizon ≤ 31 }
        requires least { 3000 ≤ setup.origin }
        requires greatest { setup.origin ≤ 2 ^ 48 }
        ensures ok { IfOk result (λ configured. (configured ≡ as_configured setup limits.ahead) × MayBeSent limits.horizon setup.info) }
        ensures err { IfErr result (λ kept. ConfigureFails limits.horizon setup.info kept.fault) }
    {
        let _delay = setup.base.delay();
        match check_numbers(&setup.info, limits) {
            Ok(group) => Ok(SourceConfigured {
                alloc: self.alloc,
                plan: Plan {
                    identity: setup.identity,
                    group,
                    carried: Carried::new(&group),
                    cipher: setup.info.cipher,
                    base: setup.base,
                    origin: setup.origin,
                    ahead: limits.ahead,
                },
            }),
            Err(fault) => Err(Kept {
                state: self,
                fault: ConfigureFault::BadGroup(fault),
            }),
        }
    }
}

/// A source with a group that was checked, and that sends nothing.
#[derive(Drop)]
pub struct SourceConfigured {
    pub(crate) alloc: Global,
    pub(crate) plan: Plan,
}

impl Model for SourceConfigured {
    ghost use Rattle.source_machine.specs.Setups.{Configured};
    ghost use Rattle.source_machine.specs.State.Sources.{setup_in};

    ghost Value = { Configured };

    ghost view = { λ c. setup_in c.plan };
}

impl SourceConfigured {
    /// Starts the source: `first_event` is its next event, and its anchor is at the origin. Want of memory hands the
    /// source back as it was.
    pub fn start(self, first_event: u64) -> Result<SourceStreaming, Kept<SourceConfigured, Memory>>
        requires { first_event < 2 ^ 39 }
        ensures ok { IfOk result (λ source. (source.identity ≡ self.identity) × (source.setup ≡ started self first_event)
            × StandsFor [] source) }
        ensures announced { IfOk result (λ source. (source.base ≡ self.base) × (source.cipher ≡ self.cipher)) }
        ensures err { IfErr result (λ kept. kept.state ≡ self) }
    {
        match new_streams(self.alloc, &self.plan.group) {
            Ok(streams) => Ok(SourceStreaming {
                alloc: self.alloc,
                plan: self.plan,
                first: first_event,
                next: first_event,
                streams,
                has_failed: false,
            }),
            Err(fault) => Err(Kept { state: self, fault }),
        }
    }

    /// Takes the group from the source.
    pub fn release(self) -> SourceIdle {
        SourceIdle { alloc: self.alloc }
    }
}
