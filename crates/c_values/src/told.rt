//! Octets that only clauses read.
ghost use Rattle.std.specs.Prelude.{◌≡◌, List, ℕ};
ghost use Rattle.std.specs.Borrow.{ftrue};

use std::marker::Model;

/// Octets as clauses see them, which take no memory: what was handed over is told so where there was none for a copy.
#[derive(Drop)]
pub struct Told {
    pub ghost octets: { List ℕ },
}

impl Model for Told {
    ghost also_owns = { λ _. ftrue };
}

impl Told {
    /// What a slice shows. It takes no memory.
    pub(crate) fn of(_octets: &&[u8]) -> Told
        ensures { result.octets ≡ _octets.now.now }
    {
        Told {}
    }
}
