ghost use Rattle.std.specs.Prelude.{◌≡◌, ◌<◌, ◌≤◌, [], length, is_some, true, Option, Some, IfOk, IfErr, OnErr, Ok, Err};
ghost use Rattle.receive_state.specs.Faults.{IsFault};
ghost use Rattle.receive_state.specs.Layout.{StateIs, code_width};
ghost use Rattle.receive_state.specs.Reading.{told, state_of, judged_of, source_in, head_in, reserved_head, encryption_of, groups_of};
ghost use Rattle.bcast_base.specs.Subgroups.{subgroups_in};
ghost use Rattle.bcast_base.specs.Tries.{Answers, ReadsAs};
ghost use Rattle.receive_state.specs.declared.fault.StateFault.TheVariants.{Memory as NoMemory};
ghost use Rattle.receive_state.specs.declared.state.ReceiveState.{ReceiveState};

use crate::fault::StateFault;
use crate::fields::{ShortAt, array_of, octet_of, octets_of};
use crate::groups::{groups_end, read_groups};
use crate::state::{Encryption, GroupStates, ReceiveState};
use bcast_base::{Memory, place_of, reserved_subgroup};
use std::alloc::Global;
use std::mem::replace;

// Places of fields that may have a reserved value: the address type behind the Source_ID, the SID behind an address of 6
// octets, PA_Sync_State behind a Broadcast_ID of 3, and BIG_Encryption.
const ADDRESS_TYPE_PLACE: usize = 1;

const SID_PLACE: usize = 8;

const PA_SYNC_STATE_PLACE: usize = 12;

const BIG_ENCRYPTION_PLACE: usize = 13;

// What tells the source of a receive state.
#[derive(Clone, Copy)]
struct LentSource {
    id: u8,
    address_type: u8,
    address: [u8; 6],
    sid: u8,
    broadcast_id: [u8; 3],
}

// A receive state whose subgroups are not read yet. The Bad_Code is empty where none is told.
#[derive(Clone, Copy)]
struct LentState<'a> {
    source: LentSource,
    pa_sync_state: u8,
    encryption: u8,
    bad_code: &'a [u8],
    count: u8,
    groups: &'a [u8],
}

/// Reads a receive state, all of the octets (Broadcast Audio Scan Service 1.0, section 3.2). The empty value is `None`.
///
/// Else it is the first fault in this order: Short with the place of the field that passes the end, Rfu with the place of
/// the first field that has a reserved value, Trailing with the place of the first octet behind all fields, and Memory. The
/// empty value and a state without subgroups take none.
pub fn decode_state(alloc: Global, from: &[u8]) -> Result<Option<ReceiveState>, StateFault>
    ensures exact { Answers told result (state_of from.now) }
    ensures layout { IfOk result (λ state. StateIs state from.now) }
    ensures only { (state : Option ReceiveState) → StateIs state from.now → Answers told result (Ok state) }
    ensures fault { IfErr result (λ fault. IsFault fault from.now) }
{
    let mut spare = GroupStates::new(alloc);
    read_value(alloc, &mut spare, from)
}

/// Reads a receive state as `decode_state` does. Its subgroups are in the memory of earlier ones, which are given away.
pub fn decode_state_over(
    alloc: Global,
    spare: &mut GroupStates,
    from: &[u8],
) -> Result<Option<ReceiveState>, StateFault>
    ensures exact { Answers told result (state_of from.now) }
    ensures layout { IfOk result (λ state. StateIs state from.now) }
    ensures only { (state : Option ReceiveState) → StateIs state from.now → Answers told result (Ok state) }
    ensures fault { IfErr result (λ fault. IsFault fault from.now) }
{
    read_value(alloc, spare, from)
}

// The empty value, or a state.
fn read_value(
    alloc: Global,
    spare: &mut GroupStates,
    from: &[u8],
) -> Result<Option<ReceiveState>, StateFault>
    ensures exact { Answers told result (state_of from.now) }
    ensures memory { result ≡ Err NoMemory
        → (state : ReceiveState) × (state_of from.now ≡ Ok (Some state)) × (0 < length state.groups) }
{
    if from.is_empty() {
        return Ok(None);
    }
    let state = read_state(alloc, spare, from)?;
    Ok(Some(state))
}

// A state.
fn read_state(
    alloc: Global,
    spare: &mut GroupStates,
    from: &[u8],
) -> Result<ReceiveState, StateFault>
    ensures exact { Answers told result (judged_of from.now) }
    ensures memory { result ≡ Err NoMemory
        → (state : ReceiveState) × (judged_of from.now ≡ Ok state) × (0 < length state.groups) }
{
    let lent = head_at(from)?;
    let rest = groups_end(from, lent.count, lent.groups)?;
    if let Some(place) = reserved_in_head(&lent) {
        return Err(StateFault::Rfu { place });
    }
    if let Some(place) = reserved_subgroup(from, lent.count, lent.groups) {
        return Err(StateFault::Rfu { place });
    }
    if !rest.is_empty() {
        return Err(StateFault::Trailing {
            place: place_of(from, rest),
        });
    }
    let state = own_state(alloc, spare, &lent)?;
    Ok(state)
}

// What tells the source, and the octets behind it, or the place of the field that passes the end.
#[inline(always)]
#[tactic(auto, unfolding(crate::specs::Reading::source_in))]
fn source_at(from: &[u8]) -> Result<(LentSource, &[u8]), ShortAt>
    ensures source { ReadsAs (λ x. (
      record {
        source_id = x.0.id;
        address_type = x.0.address_type;
        address = x.0.address;
        sid = x.0.sid;
        broadcast_id = x.0.broadcast_id;
        pa_sync_state = 0;
        encryption = 0;
        bad_code = [];
        groups = [];
      },
      x.1.now,
    )) (λ e. e.place) result (source_in from.now) }
    ensures within { IfOk result (λ x. length x.1.now ≤ length from.now) }
{
    let (id, rest) = octet_of(from, from)?;
    let (address_type, rest) = octet_of(from, rest)?;
    let (address, rest) = array_of(from, rest)?;
    let (sid, rest) = octet_of(from, rest)?;
    let (broadcast_id, rest) = array_of(from, rest)?;
    let source = LentSource {
        id,
        address_type,
        address,
        sid,
        broadcast_id,
    };
    Ok((source, rest))
}

// The fields before the subgroups, or the place of the one that passes the end.
#[tactic(auto, unfolding(crate::specs::Reading::head_in))]
fn head_at(from: &[u8]) -> Result<LentState<'_>, ShortAt>
    ensures head { ReadsAs (λ l. (
      record {
        source_id = l.source.id;
        address_type = l.source.address_type;
        address = l.source.address;
        sid = l.source.sid;
        broadcast_id = l.source.broadcast_id;
        pa_sync_state = l.pa_sync_state;
        encryption = l.encryption;
        bad_code = l.bad_code.now;
        groups = [];
      },
      l.count,
      l.groups.now,
    )) (λ e. e.place) result (head_in from.now) }
    ensures bad_code { IfOk result (λ l. length l.bad_code.now ≡ code_width l.encryption) }
    ensures within { IfOk result (λ l. length l.groups.now ≤ length from.now) }
{
    let (source, rest) = source_at(from)?;
    let (pa_sync_state, rest) = octet_of(from, rest)?;
    let (encryption, rest) = octet_of(from, rest)?;
    let (bad_code, rest) = octets_of(from, rest, bad_code_width(encryption))?;
    let (count, groups) = octet_of(from, rest)?;
    Ok(LentState {
        source,
        pa_sync_state,
        encryption,
        bad_code,
        count,
        groups,
    })
}

// How many octets the Bad_Code has.
fn bad_code_width(encryption: u8) -> usize
    ensures { result ≡ code_width encryption }
{
    if encryption == 3 { 16 } else { 0 }
}

// The place of the first field before the subgroups that has a reserved value.
fn reserved_in_head(lent: &LentState<'_>) -> Option<usize>
    ensures { result ≡ reserved_head lent.now.source.address_type lent.now.source.sid lent.now.pa_sync_state lent.now.encryption }
{
    if lent.source.address_type > 1 {
        Some(ADDRESS_TYPE_PLACE)
    } else if lent.source.sid > 15 {
        Some(SID_PLACE)
    } else if lent.pa_sync_state > 4 {
        Some(PA_SYNC_STATE_PLACE)
    } else if lent.encryption > 3 {
        Some(BIG_ENCRYPTION_PLACE)
    } else {
        None
    }
}

// The state in memory of its own.
#[inline(always)]
fn own_state(
    alloc: Global,
    spare: &mut GroupStates,
    lent: &LentState<'_>,
) -> Result<ReceiveState, Memory>
    requires bad_code { length lent.now.bad_code.now ≡ code_width lent.now.encryption }
    requires encryption { lent.now.encryption ≤ 3 }
    requires groups { is_some (subgroups_in lent.now.count lent.now.groups.now) ≡ true }
    ensures err { OnErr result (0 < lent.now.count) }
    ensures groups { IfOk result (λ state. groups_of lent.now.count lent.now.groups.now ≡ Some state.groups) }
    ensures head { IfOk result (λ state. state ≡ record {
      source_id = lent.now.source.id;
      address_type = lent.now.source.address_type;
      address = lent.now.source.address;
      sid = lent.now.source.sid;
      broadcast_id = lent.now.source.broadcast_id;
      pa_sync_state = lent.now.pa_sync_state;
      encryption = encryption_of lent.now.encryption lent.now.bad_code.now;
      groups = state.groups;
    }) }
{
    read_groups(alloc, spare, lent.count, lent.groups)?;
    Ok(with_groups(lent, replace(spare, GroupStates::new(alloc))))
}

// The state of these fields and subgroups.
#[inline(always)]
fn with_groups(lent: &LentState<'_>, groups: GroupStates) -> ReceiveState
    requires bad_code { length lent.now.bad_code.now ≡ code_width lent.now.encryption }
    requires encryption { lent.now.encryption ≤ 3 }
    ensures { result ≡ record {
      source_id = lent.now.source.id;
      address_type = lent.now.source.address_type;
      address = lent.now.source.address;
      sid = lent.now.source.sid;
      broadcast_id = lent.now.source.broadcast_id;
      pa_sync_state = lent.now.pa_sync_state;
      encryption = encryption_of lent.now.encryption lent.now.bad_code.now;
      groups = groups;
    } }
{
    ReceiveState {
        source_id: lent.source.id,
        address_type: lent.source.address_type,
        address: lent.source.address,
        sid: lent.source.sid,
        broadcast_id: lent.source.broadcast_id,
        pa_sync_state: lent.pa_sync_state,
        encryption: own_encryption(lent.encryption, lent.bad_code),
        groups,
    }
}

// What is told of the key.
fn own_encryption(number: u8, bad_code: &[u8]) -> Encryption
    requires width { length bad_code.now ≡ code_width number }
    requires known { number ≤ 3 }
    ensures { result ≡ encryption_of number bad_code.now }
{
    match number {
        0 => Encryption::None,
        1 => Encryption::CodeRequired,
        2 => Encryption::Decrypting,
        _ => {
            let mut code = [0; 16];
            code.copy_from_slice(bad_code);
            Encryption::BadCode(code)
        }
    }
}
