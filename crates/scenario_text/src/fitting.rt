//! Which steps have a line.
ghost use Rattle.std.specs.Prelude.{◌↔◌, IsTrue};
ghost use Rattle.scenario_text.specs.Written.{Fits, PlacedFits};

use crate::step::Step;
use crate::taker::LineTaker;
use scenario_words::{Value, all_have_words};

/// Tells whether all values of a line have words.
#[derive(Drop)]
struct Fitting;

impl LineTaker for Fitting {
    type Made = bool;

    ghost makes = { λ _ line fits. IsTrue fits ↔ PlacedFits line };

    fn take(&self, _first: &[u8], values: &[Value<'_>]) -> bool {
        all_have_words(values)
    }
}

impl Step {
    /// Whether the step has a line in a scenario of version 2, which has the lines of both versions.
    pub fn fits(&self) -> bool
        ensures { IsTrue result ↔ Fits self.now }
    {
        self.give_line(&Fitting)
    }
}
