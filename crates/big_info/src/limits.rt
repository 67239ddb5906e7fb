/// The greatest horizon of a group.
#[derive(Clone, Copy)]
pub struct Limits {
    /// The most events ahead that a group may send a payload, at most 31.
    pub horizon: u8,
    /// Whether a unit may be given before the anchor that precedes it.
    pub ahead: bool,
}

impl Limits {
    /// The limits of version 1 of a scenario.
    pub const VERSION_1: Limits = Limits {
        horizon: 15,
        ahead: false,
    };

    /// The limits of version 2 of a scenario.
    pub const VERSION_2: Limits = Limits {
        horizon: 31,
        ahead: true,
    };
}
