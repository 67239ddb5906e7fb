//! The operations that an assistant puts, and the writes that it sends.
ghost use Rattle.std.specs.Prelude.{◌≡◌, ◌≢◌, ◌∷◌, ◌++◌, ◌≤◌, ◌<◌, [], ℕ, true, false, List, length, take, get_or, IsSome, Some, None};
ghost use Rattle.assistant_machine.specs.Calls.{Call, put as puts, sent};
ghost use Rattle.bass_operations.specs.Layout.{fields, encoding};
ghost use Rattle.bass_operations.specs.declared.operation.Operation.TheVariants as operations;
ghost use Rattle.bass_operations.specs.declared.wishes.Wish.{Wish};
ghost use Rattle.bcast_base.specs.Layout.{NoneReserved};
ghost use Rattle.link_c.specs.Links.{LinkStands, writes_in};
ghost use Rattle.link_c.specs.Wishes.{added, are_free, modified, octet_count, wishes_in};
ghost use Rattle.c_values.specs.Statuses.{empty, layout, memory, no_room, ok, range, too_long};

use crate::handle::VmLink;
use crate::wishes::{are_free, is_short, wishes_of};
use bass_operations::{AddSource, ModifySource};
use c_values::put;
use c_values::status::{EMPTY, LAYOUT, MEMORY, OK, RANGE, ROOM, TOO_LONG};
use std::alloc::Global;

/// The octets of an Add Source before its subgroups.
const ADD_FRONT: usize = 16;

/// The octets of a Modify Source before its subgroups.
const MODIFY_FRONT: usize = 6;

/// An Add Source waits as the last write: for each subgroup the bits of its streams, and its metadata behind one octet that
/// counts it, one behind the other.
#[unsafe(no_mangle)]
pub extern "C" fn vm_link_add(
    alloc: Global,
    link: &mut VmLink,
    address_type: u8,
    address: &[u8; 6],
    sid: u8,
    broadcast_id: &[u8; 3],
    pa_sync: u8,
    pa_interval: u16,
    bis_sync: &[u32],
    metadata: &[u8],
) -> u32
    requires { IsSome link.old.kept }
    ensures stands { (slots : ℕ) (calls : List Call) (wishes : List Wish) → LinkStands slots calls link.old → result ≡ ok
        → wishes_in bis_sync.now metadata.now ≡ Some wishes
        → LinkStands slots (puts (encoding (added address_type address.now sid broadcast_id.now pa_sync pa_interval wishes)) ∷ calls) link.new }
    ensures put { (wishes : List Wish) → result ≡ ok → wishes_in bis_sync.now metadata.now ≡ Some wishes
        → writes_in link.new ≡ writes_in link.old ++ encoding (added address_type address.now sid broadcast_id.now pa_sync pa_interval wishes) ∷ [] }
    ensures values { (wishes : List Wish) → result ≡ ok → wishes_in bis_sync.now metadata.now ≡ Some wishes
        → NoneReserved (fields (added address_type address.now sid broadcast_id.now pa_sync pa_interval wishes)) }
    ensures laid { result ≡ ok → IsSome (wishes_in bis_sync.now metadata.now) }
    ensures short { result ≢ range → result ≢ too_long → octet_count 16 bis_sync.now metadata.now ≤ 512 }
    ensures layout { result ≡ layout → wishes_in bis_sync.now metadata.now ≡ None }
    ensures long { result ≡ too_long → 512 < octet_count 16 bis_sync.now metadata.now }
    ensures in_range { address_type ≤ 1 → sid ≤ 15 → pa_sync ≤ 2 → are_free bis_sync.now ≡ true → result ≢ range }
    ensures bounds { result ≢ range → (address_type ≤ 1) × (sid ≤ 15) × (pa_sync ≤ 2) × (are_free bis_sync.now ≡ true) }
    ensures same { result ≢ ok → link.new.kept ≡ link.old.kept }
    ensures either { result ≢ ok → result ≢ range → result ≢ too_long → result ≢ layout → result ≡ memory }
{
    if address_type > 1 || sid > 15 || pa_sync > 2 || !are_free(bis_sync) {
        return RANGE;
    }
    if !is_short(ADD_FRONT, bis_sync, metadata) {
        return TOO_LONG;
    }
    let wishes = match wishes_of(alloc, bis_sync, metadata) {
        Ok(Some(wishes)) => wishes,
        Ok(None) => return LAYOUT,
        Err(_) => return MEMORY,
    };
    let add = AddSource {
        address_type,
        address: *address,
        sid,
        broadcast_id: *broadcast_id,
        pa_sync,
        pa_interval,
        wishes,
    };
    match link.lend().assistant.add(add) {
        Ok(()) => OK,
        Err(_) => MEMORY,
    }
}

/// A Modify Source waits as the last write: for each subgroup the bits of its streams, and its metadata behind one octet that
/// counts it, one behind the other.
#[unsafe(no_mangle)]
pub extern "C" fn vm_link_modify(
    alloc: Global,
    link: &mut VmLink,
    source_id: u8,
    pa_sync: u8,
    pa_interval: u16,
    bis_sync: &[u32],
    metadata: &[u8],
) -> u32
    requires { IsSome link.old.kept }
    ensures stands { (slots : ℕ) (calls : List Call) (wishes : List Wish) → LinkStands slots calls link.old → result ≡ ok
        → wishes_in bis_sync.now metadata.now ≡ Some wishes
        → LinkStands slots (puts (encoding (modified source_id pa_sync pa_interval wishes)) ∷ calls) link.new }
    ensures put { (wishes : List Wish) → result ≡ ok → wishes_in bis_sync.now metadata.now ≡ Some wishes
        → writes_in link.new ≡ writes_in link.old ++ encoding (modified source_id pa_sync pa_interval wishes) ∷ [] }
    ensures values { (wishes : List Wish) → result ≡ ok → wishes_in bis_sync.now metadata.now ≡ Some wishes
        → NoneReserved (fields (modified source_id pa_sync pa_interval wishes)) }
    ensures laid { result ≡ ok → IsSome (wishes_in bis_sync.now metadata.now) }
    ensures short { result ≢ range → result ≢ too_long → octet_count 6 bis_sync.now metadata.now ≤ 512 }
    ensures layout { result ≡ layout → wishes_in bis_sync.now metadata.now ≡ None }
    ensures long { result ≡ too_long → 512 < octet_count 6 bis_sync.now metadata.now }
    ensures in_range { pa_sync ≤ 2 → are_free bis_sync.now ≡ true → result ≢ range }
    ensures bounds { result ≢ range → (pa_sync ≤ 2) × (are_free bis_sync.now ≡ true) }
    ensures same { result ≢ ok → link.new.kept ≡ link.old.kept }
    ensures either { result ≢ ok → result ≢ range → result ≢ too_long → result ≢ layout → result ≡ memory }
{
    if pa_sync > 2 || !are_free(bis_sync) {
        return RANGE;
    }
    if !is_short(MODIFY_FRONT, bis_sync, metadata) {
        return TOO_LONG;
    }
    let wishes = match wishes_of(alloc, bis_sync, metadata) {
        Ok(Some(wishes)) => wishes,
        Ok(None) => return LAYOUT,
        Err(_) => return MEMORY,
    };
    let modify = ModifySource {
        source_id,
        pa_sync,
        pa_interval,
        wishes,
    };
    match link.lend().assistant.modify(modify) {
        Ok(()) => OK,
        Err(_) => MEMORY,
    }
}

/// A Remote Scan Started, or a Remote Scan Stopped, waits as the last write.
#[unsafe(no_mangle)]
pub extern "C" fn vm_link_scan(link: &mut VmLink, is_started: bool) -> u32
    requires { IsSome link.old.kept }
    ensures started { (slots : ℕ) (calls : List Call) → LinkStands slots calls link.old → is_started ≡ true → result ≡ ok
        → LinkStands slots (puts (encoding operations.ScanStarted) ∷ calls) link.new }
    ensures stopped { (slots : ℕ) (calls : List Call) → LinkStands slots calls link.old → is_started ≡ false → result ≡ ok
        → LinkStands slots (puts (encoding operations.ScanStopped) ∷ calls) link.new }
    ensures same { result ≢ ok → link.new.kept ≡ link.old.kept }
    ensures either { result ≢ ok → result ≡ memory }
{
    let octets = [u8::from(is_started)];
    match link.lend().assistant.raw(&octets) {
        Ok(()) => OK,
        Err(_) => MEMORY,
    }
}

/// Takes the first write that waits, at the front of the room. Where the room is too small it still waits: 512 octets are enough
/// for each write but a longer one that `vm_link_put` put.
#[unsafe(no_mangle)]
pub extern "C" fn vm_link_next_write(link: &mut VmLink, room: &mut [u8], count: &mut usize) -> u32
    requires { IsSome link.old.kept }
    ensures stands { (slots : ℕ) (calls : List Call) → LinkStands slots calls link.old → result ≡ ok
        → LinkStands slots (sent ∷ calls) link.new }
    ensures write { result ≡ ok → writes_in link.old ≡ take count.new room.new ∷ writes_in link.new }
    ensures count { result ≡ ok → count.new ≤ length room.new }
    ensures none { result ≡ empty → writes_in link.old ≡ [] }
    ensures room { result ≡ no_room → length room.old < length (get_or (writes_in link.old) 0 []) }
    ensures same { result ≢ ok → (link.new.kept ≡ link.old.kept) × (room.new ≡ room.old) × (count.new ≡ count.old) }
    ensures either { result ≢ ok → result ≢ empty → result ≡ no_room }
{
    let machine = link.lend();
    let Some(first) = machine.assistant.first_write() else {
        return EMPTY;
    };
    let long = first.len();
    if !put(first, room) {
        return ROOM;
    }
    *count = long;
    let _gone = machine.assistant.next_write();
    OK
}
