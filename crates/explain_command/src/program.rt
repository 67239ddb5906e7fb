//! The program over a source and a sink: what it is given, and its boxes.
ghost use Rattle.std.specs.Prelude.{◌≡◌, ℕ, List, Some, map, IfOk};
ghost use Rattle.unit_outlets.specs.Account.{Account};
ghost use Rattle.explained_rows.specs.Rows.{lines_at};
ghost use Rattle.explain_command.specs.Boxes.{fresh_boxes};
ghost use Rattle.explain_command.specs.Told.{told_world};
ghost use Rattle.explain_command.specs.ToldIn.{ToldIn};

use crate::document::explain_toml;
use crate::explain::explain;
use crate::status::Status;
use bcast_base::Memory;
use bcast_io::{ByteSink, ByteSource};
use explained_rows::ExplainedRows;
use std::alloc::Global;
use unit_outlets::{Outlet, Tally};

/// How many boxes the program has.
const BOXES: usize = 8;

/// What the source gives.
#[derive(Clone, Copy)]
pub enum Form {
    /// The lines of a scenario.
    Lines,
    /// A document in TOML.
    Toml,
}

/// Explains what the source gives.
fn explain_in<S: ByteSource, W: ByteSink + Drop>(
    alloc: Global,
    form: Form,
    source: &mut S,
    sink: &mut ExplainedRows<W>,
    outlets: &mut Vec<Box<dyn Outlet>>,
) -> Status
    ensures { ToldIn form (told_world (S.left source.old) (S.faults source.old) W.contents W.faults sink.old (map account outlets.old.items))
        (told_world (S.left source.new) (S.faults source.new) W.contents W.faults sink.new (map account outlets.new.items))
        (lines_at sink.old.place (W.contents sink.old.inner)) (lines_at sink.new.place (W.contents sink.new.inner)) result }
{
    match form {
        Form::Lines => Status::Ended(explain(alloc, source, sink, outlets)),
        Form::Toml => Status::of_document(explain_toml(alloc, source, sink, outlets)),
    }
}

/// The same with eight boxes that took nothing yet: one for each sink that may live.
pub(crate) fn explain_with_tallies<S: ByteSource, W: ByteSink + Drop>(
    alloc: Global,
    form: Form,
    source: &mut S,
    sink: &mut ExplainedRows<W>,
) -> Result<Status, Memory>
    ensures { IfOk result (λ status. (ends : List Account)
        × ToldIn form (told_world (S.left source.old) (S.faults source.old) W.contents W.faults sink.old fresh_boxes)
        (told_world (S.left source.new) (S.faults source.new) W.contents W.faults sink.new ends)
        (lines_at sink.old.place (W.contents sink.old.inner)) (lines_at sink.new.place (W.contents sink.new.inner)) status) }
{
    let mut outlets: Vec<Box<dyn Outlet>> = Vec::new(alloc);
    'boxes: for _ in 0..BOXES {
        match Box::new(alloc, Tally::new()) {
            Ok(tally) => match outlets.push(tally) {
                Ok(()) => continue 'boxes,
                Err(_) => return Err(Memory),
            },
            Err(_) => return Err(Memory),
        }
    }
    Ok(explain_in(alloc, form, source, sink, &mut outlets))
}
