ghost use Rattle.std.specs.Prelude.{◌≡◌, ◌<◌, ◌+◌, ◌*◌, ◌^◌};

/// Events that are laid one behind the other.
#[derive(Clone, Copy)]
pub(crate) struct Laying {
    /// How many they are.
    pub(crate) count: u32,
    /// The anchor of the first, in µs.
    pub(crate) anchor: u64,
    /// From each anchor to the next, in µs.
    pub(crate) iso_us: u32,
    pub(crate) ghost sums: { anchor + count * iso_us < 2 ^ 63 },
}

impl Laying {
    /// The anchor of one of them, from 0, in µs.
    pub(crate) fn anchor_of(&self, n: u32) -> u64
        requires { n < self.now.count }
        ensures { result ≡ self.now.anchor + n * self.now.iso_us }
    {
        self.anchor + u64::from(n) * u64::from(self.iso_us)
    }
}
