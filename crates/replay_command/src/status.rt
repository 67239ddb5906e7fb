ghost use Rattle.std.specs.Prelude.{◌≡◌, option_copied};
ghost use Rattle.replay_command.specs.Statuses.{exit_number, text_of, status_of, status_after, status_at, status_in_toml};

use replay_generated::Outcome;
use replay_lines::{Cause, Ending};
use replay_migration::Migration;
use transcript_text::Refusal;

/// How a call of `replay` ended.
#[derive(Clone, Copy)]
pub enum Status {
    /// The text was read to its end, and its transcript was written.
    Done,
    /// The transcript ends with this refusal of this line, from 1, or of a document, with the line 0, and was written.
    Refused { line: u64, reason: Refusal },
    /// The words ask for nothing that there is.
    Usage,
    /// The source failed.
    ReadFault,
    /// The sink failed.
    WriteFault,
    /// The box of a sink failed.
    OutletFault,
    Memory,
}

impl Status {
    /// How the run of a document ended: as that of its lines did, or refused, with the line 0.
    pub(crate) fn of_document(ended: Result<Ending, Cause>) -> Status
        ensures { result ≡ status_in_toml ended }
    {
        match ended {
            Ok(ending) => Status::from(ending),
            Err(cause) => Status::Refused {
                line: 0,
                reason: cause.reason(),
            },
        }
    }

    /// The exit status of the program.
    pub(crate) fn exit_code(self) -> u8
        ensures { result ≡ exit_number self }
    {
        match self {
            Status::Done => 0,
            Status::Refused { .. } => 1,
            Status::Usage => 2,
            Status::ReadFault => 3,
            Status::WriteFault => 4,
            Status::OutletFault => 5,
            Status::Memory => 6,
        }
    }

    /// What the program says on standard error.
    pub(crate) fn message(self) -> Option<&'static str>
        ensures { option_copied result ≡ text_of self }
    {
        match self {
            Status::Done | Status::Refused { .. } => None,
            Status::Usage => Some("usage: replay [--migrate | --toml | --seed N --events M]"),
            Status::ReadFault => Some("read fault"),
            Status::WriteFault => Some("write fault"),
            Status::OutletFault => Some("outlet fault"),
            Status::Memory => Some("no memory"),
        }
    }
}

impl From<Ending> for Status {
    ghost from_gives = { λ ending status. status ≡ status_at ending };

    fn from(ending: Ending) -> Status {
        match ending {
            Ending::Done => Status::Done,
            Ending::Refused { line, reason } => Status::Refused { line, reason },
            Ending::ReadFault => Status::ReadFault,
            Ending::WriteFault => Status::WriteFault,
            Ending::OutletFault => Status::OutletFault,
            Ending::Memory => Status::Memory,
        }
    }
}

impl From<Migration> for Status {
    ghost from_gives = { λ migration status. status ≡ status_of migration };

    fn from(migration: Migration) -> Status {
        match migration {
            Migration::Done => Status::Done,
            Migration::TooLong { line } => Status::Refused {
                line,
                reason: Refusal::TextTooLong,
            },
            Migration::ReadFault => Status::ReadFault,
            Migration::WriteFault => Status::WriteFault,
            Migration::Memory => Status::Memory,
        }
    }
}

impl From<Outcome> for Status {
    ghost from_gives = { λ outcome status. status ≡ status_after outcome };

    fn from(outcome: Outcome) -> Status {
        match outcome {
            Outcome::Done => Status::Done,
            Outcome::Refused { line, reason } => Status::Refused { line, reason },
            Outcome::OutletFault => Status::OutletFault,
            Outcome::WriteFault => Status::WriteFault,
            Outcome::Memory => Status::Memory,
        }
    }
}
