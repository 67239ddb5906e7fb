ghost use Rattle.std.specs.Prelude.{◌≡◌, ◌≤◌, ◌↔◌, IsTrue};
ghost use Rattle.std.specs.Bool.{OnTrue, OnFalse};
ghost use Rattle.bcast_io.specs.Scripts.{FailsNext, after_pass, after_fail};

use bcast_base::Calls;
use std::marker::Model;

/// Counts calls, and says which of them fail.
#[derive(Drop)]
pub(crate) struct Script {
    failing: Calls,
    calls: u64,
    faults: u64,
}

impl Model for Script {
    ghost use Rattle.bcast_io.specs.Scripts.{Script};

    ghost Value = { Script };

    ghost view = { λ a. record { failing = a.failing; calls = a.calls; faults = a.faults } };
}

impl Script {
    /// No call yet.
    pub(crate) fn new(failing: Calls) -> Script
        ensures { result ≡ record { failing = failing; calls = 0; faults = 0 } }
    {
        Script {
            failing,
            calls: 0,
            faults: 0,
        }
    }

    /// Whether the next call fails. It counts the call, and the fault.
    pub(crate) fn next_fails(&mut self) -> bool
        ensures listed { IsTrue result ↔ FailsNext self.old }
        ensures pass { OnFalse result (self.new ≡ after_pass self.old) }
        ensures never_falls { self.old.faults ≤ self.new.faults }
        ensures fail { OnTrue result (self.new ≡ after_fail self.old) }
    {
        let fails = match self.calls.checked_add(1) {
            Some(number) => self.failing.as_slice().contains(&number),
            None => false,
        };
        self.calls = self.calls.saturating_add(1);
        if fails {
            self.faults = self.faults.saturating_add(1);
        }
        fails
    }
}
