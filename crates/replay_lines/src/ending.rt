use transcript_text::Refusal;

/// How the run of a text ended.
#[derive(Clone, Copy, Debug, PartialEq, Eq)]
pub enum Ending {
    /// The text was read to its end, and its transcript was written.
    Done,
    /// The transcript ends with this refusal of this line, from 1, and was written.
    Refused { line: u64, reason: Refusal },
    /// The source failed.
    ReadFault,
    /// The sink failed.
    WriteFault,
    /// The box of a sink failed.
    OutletFault,
    Memory,
}
