ghost use Rattle.std.specs.Prelude.{◌≡◌, option_copied};
ghost use Rattle.explain_command.specs.Statuses.{ending_number, ending_text, exit_number, status_in_toml, text_of};

use replay_lines::{Cause, Ending};

/// How the program ended.
#[derive(Clone, Copy)]
pub enum Status {
    /// There are other words behind its name than `--toml`.
    Usage,
    /// The scenario was run, to this ending.
    Ended(Ending),
    /// The document was refused for this, and no line was run.
    NotRun(Cause),
}

impl Status {
    /// That of a document which ended so.
    pub(crate) fn of_document(ended: Result<Ending, Cause>) -> Status
        ensures { result ≡ status_in_toml ended }
    {
        match ended {
            Ok(ending) => Status::Ended(ending),
            Err(cause) => Status::NotRun(cause),
        }
    }

    /// The exit status of the program, which is that of `replay`.
    pub(crate) fn exit_code(self) -> u8
        ensures { result ≡ exit_number self }
    {
        match self {
            Status::Usage => 2,
            Status::Ended(ending) => code_of(ending),
            Status::NotRun(_) => 1,
        }
    }

    /// What the program says on standard error.
    pub(crate) fn message(self) -> Option<&'static str>
        ensures { option_copied result ≡ text_of self }
    {
        match self {
            Status::Usage => Some("usage: explain [--toml]"),
            Status::Ended(ending) => message_of(ending),
            Status::NotRun(_) => None,
        }
    }
}

/// The exit status for an ending.
fn code_of(ending: Ending) -> u8
    ensures { result ≡ ending_number ending }
{
    match ending {
        Ending::Done => 0,
        Ending::Refused { .. } => 1,
        Ending::ReadFault => 3,
        Ending::WriteFault => 4,
        Ending::OutletFault => 5,
        Ending::Memory => 6,
    }
}

/// What is said of an ending.
fn message_of(ending: Ending) -> Option<&'static str>
    ensures { option_copied result ≡ ending_text ending }
{
    match ending {
        Ending::Done | Ending::Refused { .. } => None,
        Ending::ReadFault => Some("read fault"),
        Ending::WriteFault => Some("write fault"),
        Ending::OutletFault => Some("outlet fault"),
        Ending::Memory => Some("no memory"),
    }
}
