//! What lies behind the handle of a source.
use source_machine::{SourceStreaming, StaleList};

/// A source that sends, and the units that its last event left out: those from `told` on wait for C.
#[derive(Drop)]
pub struct SourceMachine {
    pub source: SourceStreaming,
    pub stale: StaleList,
    pub told: usize,
}
