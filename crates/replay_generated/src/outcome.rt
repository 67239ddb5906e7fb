use transcript_text::Refusal;

/// How a generated run ended.
#[derive(Clone, Copy, Debug, PartialEq, Eq)]
pub enum Outcome {
    /// No line was refused, and the summary was written.
    Done,
    /// The transcript ends with this refusal of this line, from 1, and the summary was written.
    Refused { line: u64, reason: Refusal },
    /// The box of a sink failed.
    OutletFault,
    /// The sink failed.
    WriteFault,
    Memory,
}
