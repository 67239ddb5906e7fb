ghost use Rattle.std.specs.Prelude.{◌≡◌};
ghost use Rattle.scenario_toml.specs.declared.fault.TomlFault.TheVariants.{Memory as NoMemory};

use bcast_base::Memory;

/// Why octets are no scenario in TOML.
#[derive(Clone, Copy, Debug, PartialEq, Eq)]
pub enum TomlFault {
    /// The octets are no document in TOML.
    BadToml,
    /// The document has not the form of a scenario: a key that it may not have, a value of another type, or none at a key
    /// that is required.
    BadDocument,
    /// Memory ran out.
    Memory,
}

impl From<Memory> for TomlFault {
    ghost from_gives = { λ _ fault. fault ≡ NoMemory };

    fn from(_memory: Memory) -> TomlFault {
        TomlFault::Memory
    }
}
