ghost use Rattle.std.specs.Prelude.{◌≡◌};
ghost use Rattle.scenario_history.specs.Sinks.{is_of};

use scenario_sink::LinkedSink;

/// A sink of a scenario.
#[derive(Drop)]
pub(crate) struct Sink {
    /// The place of its box in the list.
    pub(crate) outlet: usize,
    /// The sink, with the source that it is of: the one that put it where it is.
    pub(crate) living: LinkedSink,
}

/// Whose units are handed up: the source and the number of a sink, and the place of its box.
#[derive(Clone, Copy)]
pub(crate) struct Owner {
    pub(crate) source: u8,
    pub(crate) sink: u8,
    pub(crate) outlet: usize,
}

/// Whether a sink with this source is of the one of this number.
pub(crate) fn is_of(own: Option<u8>, source: u8) -> bool
    ensures { result ≡ is_of source own }
{
    match own {
        Some(own) => own == source,
        None => false,
    }
}
