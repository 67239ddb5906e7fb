use crate::place::Places;
use crate::undecided::UndecidedRun;

/// What a receiver keeps: the PDUs of its window, and the run of the start that isn't decided.
#[derive(Drop)]
pub(crate) struct Store {
    pub(crate) places: Places,
    pub(crate) undecided: UndecidedRun,
}
