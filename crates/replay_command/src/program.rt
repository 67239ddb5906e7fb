//! The program over a source and a sink: its words and its boxes.
ghost use Rattle.std.specs.Prelude.{◌≡◌, List, drop, map, string_bytes, IfOk, OnErr};
ghost use Rattle.std.specs.Vec.Iter.{into_iter_items};
ghost use Rattle.unit_outlets.specs.Account.{Account};
ghost use Rattle.replay_command.specs.Boxes.{fresh_boxes};
ghost use Rattle.replay_command.specs.ByWords.{PromisedFor};
ghost use Rattle.replay_lines.specs.World.{world_of};

use crate::replay::replay;
use crate::status::Status;
use bcast_base::Memory;
use bcast_io::{ByteSink, ByteSource};
use replay_words::Words;
use std::alloc::Global;
use std::env::Args;
use unit_outlets::{Outlet, Tally};

/// How many boxes the program has.
const BOXES: usize = 8;

/// Does what the words ask for, with eight boxes that took nothing yet: one for each sink that may live.
pub(crate) fn replay_with_tallies<S: ByteSource, K: ByteSink>(
    alloc: Global,
    words: &Words,
    source: &mut S,
    sink: &mut K,
) -> Result<Status, Memory>
    ensures promised { IfOk result (λ status. (ends : List Account)
        × (let old = world_of S.left S.faults K.contents K.faults source.old sink.old fresh_boxes in
        let new = world_of S.left S.faults K.contents K.faults source.new sink.new ends in
        PromisedFor (map string_bytes words.now) old new status)) }
    ensures unread { OnErr result (source.new ≡ source.old) }
    ensures unwritten { OnErr result (sink.new ≡ sink.old) }
{
    let mut outlets: Vec<Box<dyn Outlet>> = Vec::new(alloc);
    'boxes: for _ in 0..BOXES {
        match Box::new(alloc, Tally::new()) {
            Ok(tally) => match outlets.push(tally) {
                Ok(()) => continue 'boxes,
                Err(_) => return Err(Memory),
            },
            Err(_) => return Err(Memory),
        }
    }
    Ok(replay(alloc, words, source, sink, &mut outlets))
}

/// The words of a command line, without the program's name, which comes first.
pub(crate) fn words_behind_name(alloc: Global, mut args: Args) -> Result<Words, Memory>
    ensures { IfOk result (λ words. words ≡ drop 1 (into_iter_items args)) }
{
    drop(args.next());
    let mut words = Words::new(alloc);
    'words: for word in args {
        match words.push(word) {
            Ok(()) => continue 'words,
            Err(_) => return Err(Memory),
        }
    }
    Ok(words)
}
