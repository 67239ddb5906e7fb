ghost use Rattle.std.specs.Prelude.{◌≡◌};
ghost use Rattle.replay_lines.specs.Standing.{reason_of};

use transcript_text::Refusal;

/// Why a document is refused before any line of it is run.
#[derive(Clone, Copy, Debug, PartialEq, Eq)]
pub enum Cause {
    /// It has more than 1,048,576 octets.
    TooLong,
    /// Its octets are no document in TOML.
    BadToml,
    /// It has not the form of a scenario.
    BadDocument,
}

impl Cause {
    /// The refusal of the scenario language.
    pub fn reason(self) -> Refusal
        ensures { result ≡ reason_of self }
    {
        match self {
            Cause::TooLong => Refusal::TextTooLong,
            Cause::BadToml => Refusal::BadToml,
            Cause::BadDocument => Refusal::BadDocument,
        }
    }
}
