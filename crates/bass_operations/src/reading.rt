ghost use Rattle.std.specs.Prelude.{◌≡◌, ◌<◌, ◌≤◌, ◌∷◌, length, nat_lt, is_some, if◌then◌else◌, IfOk, IfErr, Ok, Some, None};
ghost use Rattle.std.specs.Option.{option_or};
ghost use Rattle.bcast_base.specs.Subgroups.{reserved_in};
ghost use Rattle.bcast_base.specs.Reading.{Gives};
ghost use Rattle.bcast_base.specs.Tries.{Answers};
ghost use Rattle.bass_operations.specs.Faults.{IsFault};
ghost use Rattle.bass_operations.specs.Layout.{MetadataFits, OpIs, wishes_of};
ghost use Rattle.bass_operations.specs.Reading.{WantsFor, told, op_of, judged, add_in, add_head_in, add_reserved, modify_in, modify_head_in, code_in, remove_in, wishes_in, first_fault};
ghost use Rattle.bass_operations.specs.Scanning.{twice_in};
ghost use Rattle.bass_operations.specs.declared.fault.OpFault.TheVariants.{Length, Memory as NoMemory};
ghost use Rattle.bass_operations.specs.declared.operation.Operation.{Operation};

use crate::fault::OpFault;
use crate::operation::{AddSource, ModifySource, Operation};
use crate::scanning::{are_wishes, check_wishes, read_wishes};
use crate::wishes::Wishes;
use bcast_base::{array_at, octet_at};
use std::alloc::Global;
use std::mem::replace;

// Places of fields that may have a reserved value: behind the opcode of an Add Source its address type, its SID behind an
// address of 6 octets, and PA_Sync behind a Broadcast_ID of 3; in a Modify Source PA_Sync behind the Source_ID.
const ADDRESS_TYPE_PLACE: usize = 1;

const SID_PLACE: usize = 8;

const PA_SYNC_PLACE: usize = 12;

const MODIFY_PA_SYNC_PLACE: usize = 2;

/// Reads an operation, all of the octets (Broadcast Audio Scan Service 1.0, section 3.1.1).
///
/// Else it is the first fault in this order: Empty where there is no octet, Opcode where the first is none, Length where
/// the octets are fewer or more than the fields, Rfu with the place of the first field that has a reserved value, BisTwice
/// with the lowest stream index that stands in two subgroups, where 0xFFFFFFFF doesn't count, and Memory. Memory is wanted only
/// for an operation that has a subgroup.
pub fn decode_operation(alloc: Global, from: &[u8]) -> Result<Operation, OpFault>
    ensures exact { Answers told result (op_of from.now) }
    ensures layout { IfOk result (λ op. OpIs op from.now) }
    ensures metadata { IfOk result (λ op. MetadataFits (wishes_of op)) }
    ensures only { (op : Operation) → OpIs op from.now → Answers told result (Ok op) }
    ensures fault { IfErr result (λ fault. IsFault fault from.now) }
{
    let mut spare = Wishes::new(alloc);
    decode_operation_over(alloc, &mut spare, from)
}

/// Reads an operation as `decode_operation` does. Its wishes are in the memory of earlier ones, which are given away.
pub fn decode_operation_over(
    alloc: Global,
    spare: &mut Wishes,
    from: &[u8],
) -> Result<Operation, OpFault>
    ensures exact { Answers told result (op_of from.now) }
    ensures layout { IfOk result (λ op. OpIs op from.now) }
    ensures metadata { IfOk result (λ op. MetadataFits (wishes_of op)) }
    ensures only { (op : Operation) → OpIs op from.now → Answers told result (Ok op) }
    ensures fault { IfErr result (λ fault. IsFault fault from.now) }
{
    read_operation(alloc, spare, from)
}

// By the opcode.
#[tactic(auto, unfolding(crate::specs::Reading::op_in))]
fn read_operation(alloc: Global, spare: &mut Wishes, from: &[u8]) -> Result<Operation, OpFault>
    ensures exact { Answers told result (op_of from.now) }
    ensures memory { IfErr result (λ fault. WantsFor fault (op_of from.now)) }
{
    let [opcode, rest @ ..] = from else {
        return Err(OpFault::Empty);
    };
    match *opcode {
        0 if rest.is_empty() => Ok(Operation::ScanStopped),
        1 if rest.is_empty() => Ok(Operation::ScanStarted),
        2 => read_add(alloc, spare, from, rest),
        3 => read_modify(alloc, spare, from, rest),
        4 => code_at(rest).ok_or(OpFault::Length),
        5 => remove_at(rest).ok_or(OpFault::Length),
        0 | 1 => Err(OpFault::Length),
        _ => Err(OpFault::Opcode),
    }
}

// Add Source, the octets behind the opcode.
fn read_add(
    alloc: Global,
    spare: &mut Wishes,
    from: &[u8],
    rest: &[u8],
) -> Result<Operation, OpFault>
    requires { from.now ≡ 2 ∷ rest.now }
    ensures exact { Answers told result (judged (add_in rest.now)) }
    ensures memory { IfErr result (λ fault. WantsFor fault (judged (add_in rest.now))) }
{
    let Some((mut add, count, subgroups)) = add_head(alloc, rest) else {
        return Err(OpFault::Length);
    };
    let reserved = reserved_in_add(&add);
    add.wishes = wishes_behind(alloc, spare, from, reserved, count, subgroups)?;
    Ok(Operation::Add(add))
}

// Modify Source, the octets behind the opcode.
fn read_modify(
    alloc: Global,
    spare: &mut Wishes,
    from: &[u8],
    rest: &[u8],
) -> Result<Operation, OpFault>
    requires { from.now ≡ 3 ∷ rest.now }
    ensures exact { Answers told result (judged (modify_in rest.now)) }
    ensures memory { IfErr result (λ fault. WantsFor fault (judged (modify_in rest.now))) }
{
    let Some((mut modify, count, subgroups)) = modify_head(alloc, rest) else {
        return Err(OpFault::Length);
    };
    let reserved = reserved_in_modify(&modify);
    modify.wishes = wishes_behind(alloc, spare, from, reserved, count, subgroups)?;
    Ok(Operation::Modify(modify))
}

// The wishes of so many subgroups, the last octets of `whole`, behind fields of which the first that has a reserved value
// stands at this place. They are in the memory of earlier ones, which are given away.
fn wishes_behind(
    alloc: Global,
    spare: &mut Wishes,
    whole: &[u8],
    reserved: Option<usize>,
    count: u8,
    subgroups: &[u8],
) -> Result<Wishes, OpFault>
    requires { length subgroups.now ≤ length whole.now }
    ensures wishes { IfOk result (λ wishes. wishes_in count subgroups.now ≡ Some wishes) }
    ensures faultless { let fault = if is_some (wishes_in count subgroups.now)
        then first_fault (option_or reserved (reserved_in whole.now count subgroups.now)) (twice_in 31 1 count subgroups.now) else Some Length
        in IfOk result (λ _. fault ≡ None) }
    ensures fault { let fault = if is_some (wishes_in count subgroups.now)
        then first_fault (option_or reserved (reserved_in whole.now count subgroups.now)) (twice_in 31 1 count subgroups.now) else Some Length
        in IfErr result (λ err. fault ≡ told err) }
    ensures memory { IfErr result (λ err. err ≡ NoMemory → 0 < count) }
{
    if !are_wishes(count, subgroups) {
        return Err(OpFault::Length);
    }
    if let Some(place) = reserved {
        return Err(OpFault::Rfu { place });
    }
    check_wishes(whole, count, subgroups)?;
    read_wishes(alloc, spare, count, subgroups)?;
    Ok(replace(spare, Wishes::new(alloc)))
}

// Set Broadcast_Code, the octets behind the opcode.
#[tactic(auto, unfolding(crate::specs::Reading::code_in))]
fn code_at(from: &[u8]) -> Option<Operation>
    ensures { result ≡ code_in from.now }
{
    let (source_id, rest) = octet_at(from)?;
    let (code, rest) = array_at::<16>(rest)?;
    if !rest.is_empty() {
        return None;
    }
    Some(Operation::Code { source_id, code })
}

// Remove Source, the octets behind the opcode.
#[tactic(auto, unfolding(crate::specs::Reading::remove_in))]
fn remove_at(from: &[u8]) -> Option<Operation>
    ensures { result ≡ remove_in from.now }
{
    let [source_id] = from else {
        return None;
    };
    Some(Operation::Remove {
        source_id: *source_id,
    })
}

// An Add Source with no wish yet, the number of its subgroups, and their octets.
#[tactic(auto, unfolding(crate::specs::Reading::add_head_in))]
fn add_head(alloc: Global, from: &[u8]) -> Option<(AddSource, u8, &[u8])>
    ensures { Gives (λ x. (x.0, x.1, x.2.now)) result (add_head_in from.now) }
{
    let [
        address_type,
        a,
        b,
        c,
        d,
        e,
        f,
        sid,
        g,
        h,
        i,
        pa_sync,
        low,
        high,
        count,
        rest @ ..,
    ] = from
    else {
        return None;
    };
    let add = AddSource {
        address_type: *address_type,
        address: [*a, *b, *c, *d, *e, *f],
        sid: *sid,
        broadcast_id: [*g, *h, *i],
        pa_sync: *pa_sync,
        pa_interval: u16::from(*low) + 256 * u16::from(*high),
        wishes: Wishes::new(alloc),
    };
    Some((add, *count, rest))
}

// The same of a Modify Source.
#[tactic(auto, unfolding(crate::specs::Reading::modify_head_in))]
fn modify_head(alloc: Global, from: &[u8]) -> Option<(ModifySource, u8, &[u8])>
    ensures { Gives (λ x. (x.0, x.1, x.2.now)) result (modify_head_in from.now) }
{
    let [source_id, pa_sync, low, high, count, rest @ ..] = from else {
        return None;
    };
    let modify = ModifySource {
        source_id: *source_id,
        pa_sync: *pa_sync,
        pa_interval: u16::from(*low) + 256 * u16::from(*high),
        wishes: Wishes::new(alloc),
    };
    Some((modify, *count, rest))
}

// The place of PA_Sync, where it has a reserved value.
fn reserved_in_modify(modify: &ModifySource) -> Option<usize>
    ensures { result ≡ (if nat_lt 2 modify.now.pa_sync then Some 2 else None) }
{
    if modify.pa_sync > 2 {
        return Some(MODIFY_PA_SYNC_PLACE);
    }
    None
}

// The place of the first field before the subgroups that has a reserved value.
fn reserved_in_add(add: &AddSource) -> Option<usize>
    ensures { result ≡ add_reserved add.now }
{
    if add.address_type > 1 {
        Some(ADDRESS_TYPE_PLACE)
    } else if add.sid > 15 {
        Some(SID_PLACE)
    } else if add.pa_sync > 2 {
        Some(PA_SYNC_PLACE)
    } else {
        None
    }
}
