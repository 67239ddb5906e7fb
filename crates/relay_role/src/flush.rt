ghost use Rattle.std.specs.Prelude.{◌≡◌, ◌<◌, ◌++◌, [], length, Some, None, is_some, true, IfOk, OnOk, OnErr};
ghost use Rattle.relay_role.specs.Relayed.{told};
ghost use Rattle.relay_role.specs.State.Flushing.{DropsFirst, Flushes, MayTake, OffersFirst, OffersOne, OffersSome};

use crate::dropped::{DropName, Dropped, DroppedUnit};
use bcast_base::{Bis, Memory, Unit};
use source_machine::{GiveFault, SourceStreaming};
use std::alloc::Global;
use std::collections::VecDeque;

/// Offers a unit to a stream of a source, and answers why it isn't taken, where it isn't. Want of memory changes nothing.
fn offer(source: &mut SourceStreaming, to: Bis, unit: &Unit) -> Result<Option<DropName>, Memory>
    requires { MayTake to source.old }
    ensures ok { IfOk result (λ name. OffersOne to unit.now name source.old source.new) }
    ensures refused { IfOk result (λ name. is_some name ≡ true → source.new ≡ source.old) }
    ensures err { OnErr result (source.new ≡ source.old) }
{
    match source.give(to, Some(unit.time), unit.octets.as_slice()) {
        Ok(()) => Ok(None),
        Err(GiveFault::UnitTooLong) => Ok(Some(DropName::UnitTooLong)),
        Err(GiveFault::TimeOrder) => Ok(Some(DropName::TimeOrder)),
        Err(GiveFault::Backlog) => Ok(Some(DropName::Backlog)),
        Err(GiveFault::NoSuchBis) => unreachable!(),
        Err(GiveFault::Memory) => Err(Memory),
    }
}

/// Tells a unit that was dropped with its number. A refusal changes nothing.
fn tell(dropped: &mut Dropped, number: u64, name: Option<DropName>) -> Result<(), Memory>
    ensures ok { OnOk result (dropped.new ≡ dropped.old ++ told number name) }
    ensures err { OnErr result (dropped.new ≡ dropped.old) }
    ensures some { OnErr result (is_some name ≡ true) }
{
    match name {
        Some(name) => dropped.push(DroppedUnit { number, name }),
        None => Ok(()),
    }
}

/// Offers the first unit that waits to a stream of a source; where it isn't taken it is told with this number. After want of
/// memory all is as before.
fn offer_first(
    waiting: &mut VecDeque<Unit>,
    to: Bis,
    source: &mut SourceStreaming,
    number: u64,
    dropped: &mut Dropped,
) -> Result<(), Memory>
    requires some { 0 < length waiting.old.items }
    requires may { MayTake to source.old }
    ensures ok { OnOk result (OffersFirst to number waiting.old.items waiting.new.items dropped.old dropped.new source.old source.new) }
    ensures waiting { OnErr result (waiting.new.items ≡ waiting.old.items) }
    ensures source { OnErr result (source.new ≡ source.old) }
{
    let Some(unit) = waiting.front() else {
        return Ok(());
    };
    let name = offer(source, to, unit)?;
    tell(dropped, number, name)?;
    let _ = waiting.pop_front();
    Ok(())
}

/// Offers the units that wait to a stream of a source, in order, and answers those that it didn't take. After want of memory
/// the first of them were offered, and the rest waits.
pub(crate) fn offer_all(
    alloc: Global,
    waiting: &mut VecDeque<Unit>,
    to: Bis,
    source: &mut SourceStreaming,
) -> Result<Dropped, Memory>
    requires { MayTake to source.old }
    ensures ok { IfOk result (λ dropped. Flushes to waiting.old.items dropped (Some source.old) (Some source.new)) }
    ensures none { OnOk result (waiting.new.items ≡ []) }
    ensures err { OnErr result (OffersSome to waiting.old.items waiting.new.items (Some source.old) (Some source.new)) }
    ensures some { OnErr result (0 < length waiting.old.items) }
{
    let mut dropped = Dropped::new(alloc);
    'units: for number in 0..waiting.len() {
        match offer_first(waiting, to, source, number as u64, &mut dropped) {
            Ok(()) => {}
            Err(_) => return Err(Memory),
        }
    }
    Ok(dropped)
}

/// Drops the first unit that waits, since there is no source, and tells it with this number. Want of memory changes nothing.
fn drop_first(
    waiting: &mut VecDeque<Unit>,
    number: u64,
    dropped: &mut Dropped,
) -> Result<(), Memory>
    requires { 0 < length waiting.old.items }
    ensures ok { OnOk result (DropsFirst number waiting.old.items waiting.new.items dropped.old dropped.new) }
    ensures waiting { OnErr result (waiting.new.items ≡ waiting.old.items) }
{
    tell(dropped, number, Some(DropName::NotStreaming))?;
    let _ = waiting.pop_front();
    Ok(())
}

/// Drops all units that wait, since there is no source, and tells them in order. After want of memory the first of them are
/// dropped, and the rest waits.
pub(crate) fn drop_all(
    alloc: Global,
    waiting: &mut VecDeque<Unit>,
    to: Bis,
) -> Result<Dropped, Memory>
    ensures ok { IfOk result (λ dropped. Flushes to waiting.old.items dropped None None) }
    ensures none { OnOk result (waiting.new.items ≡ []) }
    ensures err { OnErr result (OffersSome to waiting.old.items waiting.new.items None None) }
    ensures some { OnErr result (0 < length waiting.old.items) }
{
    let mut dropped = Dropped::new(alloc);
    'units: for number in 0..waiting.len() {
        match drop_first(waiting, number as u64, &mut dropped) {
            Ok(()) => {}
            Err(Memory) => return Err(Memory),
        }
    }
    Ok(dropped)
}
