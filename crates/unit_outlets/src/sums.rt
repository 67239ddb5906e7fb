ghost use Rattle.std.specs.Prelude.{◌≡◌, ◌+◌, ◌<◌, ◌≤◌, ◌^◌, SomeIff};
ghost use Rattle.bcast_base.specs.Counts.{counted};

/// The two sums of a box, and its count of faults.
#[derive(Clone, Copy)]
pub(crate) struct Sums {
    pub(crate) units: u64,
    pub(crate) octets: u64,
    pub(crate) faults: u64,
}

impl Sums {
    /// No units and no faults.
    pub(crate) fn new() -> Sums
        ensures { result ≡ record { units = 0; octets = 0; faults = 0 } }
    {
        Sums {
            units: 0,
            octets: 0,
            faults: 0,
        }
    }

    /// The sums with one more unit of `len` octets; `None` exactly where one would pass 2^64 - 1.
    pub(crate) fn with_unit(self, len: usize) -> Option<Sums>
        ensures { SomeIff result
            ((self.units + 1 < 2 ^ 64) × (self.octets + len < 2 ^ 64))
            (record self { units = self.units + 1; octets = self.octets + len }) }
    {
        Some(Sums {
            units: self.units.checked_add(1)?,
            octets: self.octets.checked_add(len as u64)?,
            faults: self.faults,
        })
    }

    /// Counts a fault. The count stays at its last value, 2^64 - 1.
    pub(crate) fn count_fault(&mut self)
        ensures once { self.new ≡ record self.old { faults = counted self.old.faults } }
        ensures never_falls { self.old.faults ≤ self.new.faults }
    {
        self.faults = self.faults.saturating_add(1);
    }
}
