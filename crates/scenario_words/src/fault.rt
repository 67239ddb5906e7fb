ghost use Rattle.std.specs.Prelude.{◌≡◌};
ghost use Rattle.scenario_words.specs.declared.fault.LineFault.TheVariants.{BadLine as NoStep, Memory as NoMemory};

use bcast_base::Memory;

/// A word that doesn't fit its place, or that is missing. It is the answer of what reads without taking memory.
#[derive(Clone, Copy, Debug, PartialEq, Eq)]
pub struct Misfit {
    /// The number of the word, from 0. Where the line has too many words it is that of the first word too many; where one
    /// is missing it is the number of words in the line.
    pub word: u64,
}

/// Why a line is no step.
#[derive(Clone, Copy, Debug, PartialEq, Eq)]
pub enum LineFault {
    /// The word of this number, from 0, is the first that doesn't fit its place. Where the line has too many words
    /// it is the first word too many; where one is missing it is the number of words in the line.
    BadLine { word: u64 },
    Memory,
}

impl From<Misfit> for LineFault {
    ghost from_gives = { λ misfit fault. fault ≡ NoStep misfit.word };

    fn from(misfit: Misfit) -> LineFault {
        LineFault::BadLine { word: misfit.word }
    }
}

impl From<Memory> for LineFault {
    ghost from_gives = { λ _ fault. fault ≡ NoMemory };

    fn from(_memory: Memory) -> LineFault {
        LineFault::Memory
    }
}
