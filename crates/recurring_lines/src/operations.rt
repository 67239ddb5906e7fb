//! The lines of operations, read straight into the octets of the operation, without a step.
ghost use Rattle.std.specs.Prelude.{◌≡◌, ◌≢◌, ◌≤◌, ◌∷◌, ◌++◌, ℕ, List, [], true, Ok, Some, IfOk, IfSome, IsErr, OnOk};
ghost use Rattle.bcast_base.specs.Encoding.{number};
ghost use Rattle.bass_operations.specs.Layout.{encoding};
ghost use Rattle.bass_operations.specs.declared.operation.Operation.{Operation};
ghost use Rattle.bass_operations.specs.declared.wishes.Wish.{Wish};
ghost use Rattle.scenario_words.specs.Groups.{ReadsGroups};
ghost use Rattle.scenario_words.specs.Reading.{Left, all_wishes_of};
ghost use Rattle.scenario_text.specs.declared.step.Step.TheVariants.{Add, Modify, Remove};
ghost use Rattle.scenario_text.specs.Steps.{at_row, read_of};
ghost use Rattle.scenario_text.specs.Table.{add_row, modify_row, remove_row};
ghost use Rattle.recurring_lines.specs.Operations.{SaysOperation, TakesOrSays, operation_step};
ghost use Rattle.scenario_lines.specs.Taking.{some_takes};

use crate::frequent::behind;
use bcast_base::{Memory, Octets};
use scenario_lines::two_octets;
use scenario_text::{BEFORE_ADD, BEFORE_MODIFY, MOST_OF_OPERATION};
use scenario_words::{Cursor, LineFault};
use std::alloc::Global;
use std::marker::Model;

/// Memory in which the lines of operations are read, kept from one to the next. It is seen as the octets of the last operation.
#[derive(Drop)]
pub struct OperationRoom {
    octets: Octets,
    groups: Octets,
    metadata: Octets,
}

impl Model for OperationRoom {
    ghost use Rattle.std.specs.Prelude.{List, ℕ};

    ghost Value = { List ℕ };

    ghost view = { λ a. a.octets };
}

impl OperationRoom {
    /// No operation. It takes no memory.
    pub fn new(alloc: Global) -> OperationRoom
        ensures { result ≡ [] }
    {
        OperationRoom {
            octets: Octets::new(alloc),
            groups: Octets::new(alloc),
            metadata: Octets::new(alloc),
        }
    }

    /// The octets of the operation that was read last.
    pub fn as_slice(&self) -> &[u8]
        ensures { result.now ≡ self.now }
    {
        self.octets.as_slice()
    }
}

/// What a Modify Source says before its subgroups.
#[derive(Clone, Copy)]
struct ModifyHead {
    sink: u8,
    source_id: u8,
    pa_sync: u8,
    pa_interval: u16,
}

/// What an Add Source says before its subgroups.
#[derive(Clone, Copy)]
struct AddHead {
    sink: u8,
    address_type: u8,
    address: [u8; 6],
    sid: u8,
    broadcast_id: [u8; 3],
    pa_sync: u8,
    pa_interval: u16,
}

/// Reads a line that says an Add Source, a Modify Source or a Remove Source, which are the same in each version: the octets of the
/// operation are then in the room, and the answer is the sink to which it is written. For any other line, and for one that doesn't
/// fit, the answer is None, and nothing is said of the room.
pub fn read_operation(
    alloc: Global,
    room: &mut OperationRoom,
    line: &[u8],
) -> Result<Option<u8>, Memory>
    ensures sink { IfOk result (λ found. IfSome found (λ sink. sink ≤ 7)) }
    ensures reads { IfOk result (λ found. IfSome found (λ sink. (op : Operation)
        × ((version : ℕ) → read_of version line.now ≡ Ok (Some (operation_step sink op))) × (room.new ≡ encoding op))) }
    // Memory runs out only at a line that spells octets for its step to keep, or that says an operation.
    ensures memory { IsErr result → TakesOrSays line.now }
{
    match line.first() {
        Some(b'm') => modify_line(alloc, room, line),
        Some(b'a') => add_line(alloc, room, line),
        Some(b'r') => remove_line(room, line),
        _ => Ok(None),
    }
}

/// The same of `modify N ID SYNC INTERVAL PAIRS`.
fn modify_line(alloc: Global, room: &mut OperationRoom, line: &[u8]) -> Result<Option<u8>, Memory>
    ensures sink { IfOk result (λ found. IfSome found (λ sink. sink ≤ 7)) }
    ensures reads { IfOk result (λ found. IfSome found (λ sink. (op : Operation) × SaysOperation line.now sink op × (room.new ≡ encoding op))) }
    ensures memory { IsErr result → TakesOrSays line.now }
{
    let Some(words) = behind(b"modify ", line) else {
        return Ok(None);
    };
    let mut words = Cursor::behind_first(words);
    let Some(head) = modify_head(&mut words) else {
        return Ok(None);
    };
    let most = MOST_OF_OPERATION - BEFORE_MODIFY;
    let Some(count) = last_groups(
        alloc,
        &mut room.metadata,
        &mut room.groups,
        &mut words,
        most,
    )?
    else {
        return Ok(None);
    };
    lay_modify(&mut room.octets, &head, count, room.groups.as_slice())?;
    Ok(Some(head.sink))
}

/// The same of `add N TYPE ADDRESS SID ID SYNC INTERVAL PAIRS`.
fn add_line(alloc: Global, room: &mut OperationRoom, line: &[u8]) -> Result<Option<u8>, Memory>
    ensures sink { IfOk result (λ found. IfSome found (λ sink. sink ≤ 7)) }
    ensures reads { IfOk result (λ found. IfSome found (λ sink. (op : Operation) × SaysOperation line.now sink op × (room.new ≡ encoding op))) }
    ensures memory { IsErr result → TakesOrSays line.now }
{
    let Some(words) = behind(b"add ", line) else {
        return Ok(None);
    };
    let mut words = Cursor::behind_first(words);
    let Some(head) = add_head(&mut words) else {
        return Ok(None);
    };
    let most = MOST_OF_OPERATION - BEFORE_ADD;
    let Some(count) = last_groups(
        alloc,
        &mut room.metadata,
        &mut room.groups,
        &mut words,
        most,
    )?
    else {
        return Ok(None);
    };
    lay_add(&mut room.octets, &head, count, room.groups.as_slice())?;
    Ok(Some(head.sink))
}

/// The same of `remove N ID`.
fn remove_line(room: &mut OperationRoom, line: &[u8]) -> Result<Option<u8>, Memory>
    ensures sink { IfOk result (λ found. IfSome found (λ sink. sink ≤ 7)) }
    ensures reads { IfOk result (λ found. IfSome found (λ sink. (op : Operation) × SaysOperation line.now sink op × (room.new ≡ encoding op))) }
    ensures memory { IsErr result → TakesOrSays line.now }
{
    let Some(words) = behind(b"remove ", line) else {
        return Ok(None);
    };
    let mut words = Cursor::behind_first(words);
    let Ok(sink) = words.octet(0, 7) else {
        return Ok(None);
    };
    let Ok(source_id) = words.octet(0, 255) else {
        return Ok(None);
    };
    if words.has_more() {
        return Ok(None);
    }
    room.octets.clear();
    room.octets.append(&[5, source_id])?;
    Ok(Some(sink))
}

/// `N ID SYNC INTERVAL` of `modify`, where these words fit.
#[tactic(auto, using(scenario_lines::proofs::Taking::some_left))]
fn modify_head(words: &mut Cursor<'_>) -> Option<ModifyHead>
    ensures sink { IfSome result (λ head. head.sink ≤ 7) }
    ensures gives { IfSome result (λ head. (wishes : List Wish) (after : Left) → all_wishes_of 506 words.new ≡ Ok (wishes, after)
        → at_row modify_row words.old ≡ Ok (
          Modify head.sink (record {
            source_id = head.source_id;
            pa_sync = head.pa_sync;
            pa_interval = head.pa_interval;
            wishes = wishes;
          }),
          after,
        )) }
    ensures takes { IfSome result (λ _. words.new.words ≢ [] → some_takes modify_row.places words.old ≡ true) }
{
    let Ok(sink) = words.octet(0, 7) else {
        return None;
    };
    let Ok(source_id) = words.octet(0, 255) else {
        return None;
    };
    let Ok(pa_sync) = words.octet(0, 2) else {
        return None;
    };
    let Ok(pa_interval) = words.number(0, 65_535) else {
        return None;
    };
    Some(ModifyHead {
        sink,
        source_id,
        pa_sync,
        pa_interval: pa_interval as u16,
    })
}

/// `N TYPE ADDRESS SID ID SYNC INTERVAL` of `add`, where these words fit.
#[tactic(auto, using(scenario_lines::proofs::Taking::some_left))]
fn add_head(words: &mut Cursor<'_>) -> Option<AddHead>
    ensures sink { IfSome result (λ head. head.sink ≤ 7) }
    ensures gives { IfSome result (λ head. (wishes : List Wish) (after : Left) → all_wishes_of 496 words.new ≡ Ok (wishes, after)
        → at_row add_row words.old ≡ Ok (
          Add head.sink (record {
            address_type = head.address_type;
            address = head.address;
            sid = head.sid;
            broadcast_id = head.broadcast_id;
            pa_sync = head.pa_sync;
            pa_interval = head.pa_interval;
            wishes = wishes;
          }),
          after,
        )) }
    ensures takes { IfSome result (λ _. words.new.words ≢ [] → some_takes add_row.places words.old ≡ true) }
{
    let Ok(sink) = words.octet(0, 7) else {
        return None;
    };
    let Ok(address_type) = words.octet(0, 1) else {
        return None;
    };
    let Ok(address) = words.array() else {
        return None;
    };
    let Ok(sid) = words.octet(0, 15) else {
        return None;
    };
    let Ok(broadcast_id) = words.array() else {
        return None;
    };
    let Ok(pa_sync) = words.octet(0, 2) else {
        return None;
    };
    let Ok(pa_interval) = words.number(0, 65_535) else {
        return None;
    };
    Some(AddHead {
        sink,
        address_type,
        address,
        sid,
        broadcast_id,
        pa_sync,
        pa_interval: pa_interval as u16,
    })
}

/// The pairs of words that end a line, put as subgroups; how many they are. None where they don't fit, or where more stands behind them.
fn last_groups(
    alloc: Global,
    metadata: &mut Octets,
    groups: &mut Octets,
    words: &mut Cursor<'_>,
    most: usize,
) -> Result<Option<u8>, Memory>
    ensures gives { IfOk result (λ found. IfSome found (λ count. ReadsGroups count groups.new words.new (all_wishes_of most words.old))) }
    ensures last { IfOk result (λ found. IfSome found (λ _. words.new.words ≡ [])) }
    ensures memory { IsErr result → words.old.words ≢ [] }
{
    let count = match words.groups_into(alloc, metadata, groups, most) {
        Ok(count) => count,
        Err(LineFault::BadLine { word: _ }) => return Ok(None),
        Err(LineFault::Memory) => return Err(Memory),
    };
    if words.has_more() {
        return Ok(None);
    }
    Ok(Some(count))
}

/// Lays a Modify Source with so many subgroups in the place of other octets.
fn lay_modify(out: &mut Octets, head: &ModifyHead, count: u8, groups: &[u8]) -> Result<(), Memory>
    ensures { OnOk result (out.new ≡ 3 ∷ head.now.source_id ∷ head.now.pa_sync ∷ (number 2 head.now.pa_interval ++ (count ∷ groups.now))) }
{
    let [low, high] = two_octets(head.pa_interval);
    out.clear();
    out.append(&[3, head.source_id, head.pa_sync, low, high, count])?;
    out.append(groups)
}

/// Lays an Add Source with so many subgroups in the place of other octets.
fn lay_add(out: &mut Octets, head: &AddHead, count: u8, groups: &[u8]) -> Result<(), Memory>
    ensures { OnOk result (out.new ≡ 2 ∷ head.now.address_type ∷ (head.now.address ++ (head.now.sid ∷ (head.now.broadcast_id
        ++ (head.now.pa_sync ∷ (number 2 head.now.pa_interval ++ (count ∷ groups.now))))))) }
{
    let [low, high] = two_octets(head.pa_interval);
    out.clear();
    out.append(&[2, head.address_type])?;
    out.append(&head.address)?;
    out.append(&[head.sid])?;
    out.append(&head.broadcast_id)?;
    out.append(&[head.pa_sync, low, high, count])?;
    out.append(groups)
}
