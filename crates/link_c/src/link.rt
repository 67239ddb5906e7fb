//! The calls of an assistant on a link.
ghost use Rattle.std.specs.Prelude.{◌≡◌, ◌≢◌, ◌∷◌, ◌++◌, ◌≤◌, ◌<◌, [], ℕ, List, length, take, IfOk, IsSome, None};
ghost use Rattle.assistant_machine.specs.Calls.{Call, all_asked, asked, limited, mtu_of, put as puts, read as gives, notified};
ghost use Rattle.assistant_machine.specs.State.Assistants.{IsLowest, NoneWaits};
ghost use Rattle.assistant_machine.specs.Views.{view_of};
ghost use Rattle.link_c.specs.Agreement.{encoded, reads_in};
ghost use Rattle.bass_operations.specs.Layout.{encoding};
ghost use Rattle.bass_operations.specs.declared.operation.Operation.TheVariants as operations;
ghost use Rattle.link_c.specs.Links.{AnswersNotice, AreWithin, LinkStands, writes_in};
ghost use Rattle.c_values.specs.Statuses.{bad_notice, empty, memory, no_room, no_slot, ok, range};
ghost use Rattle.receive_state.specs.Faults.{IsFault};
ghost use Rattle.receive_state.specs.Layout.{StateIs};
ghost use Rattle.receive_state.specs.declared.fault.StateFault.TheVariants as faults;

use crate::handle::VmLink;
use crate::machine::LinkMachine;
use assistant_machine::{AssistApart, NoticeFault};
use bcast_base::Memory;
use c_handles::Loose;
use c_values::status::{BAD_NOTICE, EMPTY, MEMORY, NO_SLOT, OK, RANGE, ROOM};
use c_values::{AirFault, put, state_fault_for_c};
use receive_state::encode_state;
use std::alloc::Global;

/// The handle of a new assistant.
fn made(alloc: Global, slots: u8) -> Result<VmLink, Memory>
    ensures { IfOk result (LinkStands slots []) }
{
    let Ok(assistant) = AssistApart::new(alloc).join(slots) else {
        return Err(Memory);
    };
    match Box::new(alloc, LinkMachine { assistant }) {
        Ok(whole) => Ok(VmLink::of(Loose::of(whole))),
        Err(_) => Err(Memory),
    }
}

/// An assistant that joins a server of so many slots.
#[unsafe(no_mangle)]
pub extern "C" fn vm_link_new(alloc: Global, link: &mut VmLink, slots: u8) -> u32
    ensures stands { result ≡ ok → LinkStands slots [] link.new }
    ensures same { result ≢ ok → link.new ≡ link.old }
    ensures either { result ≢ ok → result ≡ memory }
{
    match made(alloc, slots) {
        Ok(made) => {
            *link = made;
            OK
        }
        Err(_) => MEMORY,
    }
}

/// Frees the assistant.
#[unsafe(no_mangle)]
pub extern "C" fn vm_link_drop(alloc: Global, link: VmLink)
    requires { IsSome link.kept }
{
    drop(link.into_loose(alloc).into_box());
}

/// Puts a write behind those that wait.
#[unsafe(no_mangle)]
pub extern "C" fn vm_link_put(link: &mut VmLink, write: &[u8]) -> u32
    requires { IsSome link.old.kept }
    ensures stands { (slots : ℕ) (calls : List Call) → LinkStands slots calls link.old → result ≡ ok
        → LinkStands slots (puts write.now ∷ calls) link.new }
    ensures same { result ≢ ok → link.new.kept ≡ link.old.kept }
    ensures put { result ≡ ok → writes_in link.new ≡ writes_in link.old ++ write.now ∷ [] }
    ensures either { result ≢ ok → result ≡ memory }
{
    match link.lend().assistant.raw(write) {
        Ok(()) => OK,
        Err(_) => MEMORY,
    }
}

/// Takes a notice of a slot; where its octets are no value, the first fault of these is told.
#[unsafe(no_mangle)]
pub extern "C" fn vm_link_notice(
    link: &mut VmLink,
    slot: u8,
    value: &[u8],
    fault: &mut AirFault,
) -> u32
    requires { IsSome link.old.kept }
    ensures stands { (slots : ℕ) (calls : List Call) → LinkStands slots calls link.old → result ≢ memory
        → LinkStands slots (notified slot value.now ∷ calls) link.new }
    ensures answer { (slots : ℕ) (calls : List Call) → LinkStands slots calls link.old
        → AnswersNotice slots (mtu_of calls) slot value.now result fault.new }
    ensures same { result ≢ ok → link.new.kept ≡ link.old.kept }
    ensures quiet { result ≢ bad_notice → fault.new ≡ fault.old }
    ensures wants { result ≡ memory → IsFault faults.Memory value.now }
    ensures either { result ≢ ok → result ≢ no_slot → result ≢ bad_notice → result ≡ memory }
{
    match link.lend().assistant.notice(slot, value) {
        Ok(_) => OK,
        Err(NoticeFault::NoSuchSlot) => NO_SLOT,
        Err(NoticeFault::BadNotice(found)) => {
            *fault = state_fault_for_c(found);
            BAD_NOTICE
        }
        Err(NoticeFault::Memory) => MEMORY,
    }
}

/// Takes the value that a read of a slot gave.
#[unsafe(no_mangle)]
pub extern "C" fn vm_link_answer_read(
    link: &mut VmLink,
    slot: u8,
    value: &[u8],
    fault: &mut AirFault,
) -> u32
    requires { IsSome link.old.kept }
    ensures stands { (slots : ℕ) (calls : List Call) → LinkStands slots calls link.old → result ≢ memory
        → LinkStands slots (gives slot value.now ∷ calls) link.new }
    ensures answer { (slots : ℕ) (calls : List Call) → LinkStands slots calls link.old → AnswersNotice slots None slot value.now result fault.new }
    ensures same { result ≢ ok → link.new.kept ≡ link.old.kept }
    ensures quiet { result ≢ bad_notice → fault.new ≡ fault.old }
    ensures wants { result ≡ memory → IsFault faults.Memory value.now }
    ensures either { result ≢ ok → result ≢ no_slot → result ≢ bad_notice → result ≡ memory }
{
    match link.lend().assistant.answer_read(slot, value) {
        Ok(()) => OK,
        Err(NoticeFault::NoSuchSlot) => NO_SLOT,
        Err(NoticeFault::BadNotice(found)) => {
            *fault = state_fault_for_c(found);
            BAD_NOTICE
        }
        Err(NoticeFault::Memory) => MEMORY,
    }
}

/// A read of each slot waits.
#[unsafe(no_mangle)]
pub extern "C" fn vm_link_ask_all(link: &mut VmLink)
    requires { IsSome link.old.kept }
    ensures stands { (slots : ℕ) (calls : List Call) → LinkStands slots calls link.old → LinkStands slots (all_asked ∷ calls) link.new }
{
    link.lend().assistant.ask_all();
}

/// From now on a notice is cut to three octets fewer than the MTU, which is 23 to 517.
#[unsafe(no_mangle)]
pub extern "C" fn vm_link_set_mtu(link: &mut VmLink, mtu: u16) -> u32
    requires { IsSome link.old.kept }
    ensures stands { (slots : ℕ) (calls : List Call) → LinkStands slots calls link.old → result ≡ ok
        → LinkStands slots (limited mtu ∷ calls) link.new }
    ensures same { result ≢ ok → link.new.kept ≡ link.old.kept }
    ensures in_range { 23 ≤ mtu → mtu ≤ 517 → result ≡ ok }
    ensures bounds { result ≢ range → (23 ≤ mtu) × (mtu ≤ 517) }
{
    if mtu < 23 || mtu > 517 {
        return RANGE;
    }
    link.lend().assistant.set_mtu(mtu);
    OK
}

/// A Remove Source waits as the last write.
#[unsafe(no_mangle)]
pub extern "C" fn vm_link_remove(link: &mut VmLink, source_id: u8) -> u32
    requires { IsSome link.old.kept }
    ensures stands { (slots : ℕ) (calls : List Call) → LinkStands slots calls link.old → result ≡ ok
        → LinkStands slots (puts (encoding (operations.Remove source_id)) ∷ calls) link.new }
    ensures put { result ≡ ok → writes_in link.new ≡ writes_in link.old ++ encoding (operations.Remove source_id) ∷ [] }
    ensures same { result ≢ ok → link.new.kept ≡ link.old.kept }
    ensures either { result ≢ ok → result ≡ memory }
{
    match link.lend().assistant.remove(source_id) {
        Ok(()) => OK,
        Err(_) => MEMORY,
    }
}

/// A Set Broadcast_Code waits as the last write.
#[unsafe(no_mangle)]
pub extern "C" fn vm_link_code(link: &mut VmLink, source_id: u8, code: &[u8; 16]) -> u32
    requires { IsSome link.old.kept }
    ensures stands { (slots : ℕ) (calls : List Call) → LinkStands slots calls link.old → result ≡ ok
        → LinkStands slots (puts (encoding (operations.Code source_id code.now)) ∷ calls) link.new }
    ensures put { result ≡ ok → writes_in link.new ≡ writes_in link.old ++ encoding (operations.Code source_id code.now) ∷ [] }
    ensures same { result ≢ ok → link.new.kept ≡ link.old.kept }
    ensures either { result ≢ ok → result ≡ memory }
{
    match link.lend().assistant.code(source_id, *code) {
        Ok(()) => OK,
        Err(_) => MEMORY,
    }
}

/// Takes the lowest slot of which a read waits.
#[unsafe(no_mangle)]
pub extern "C" fn vm_link_next_read(link: &mut VmLink, slot: &mut u8) -> u32
    requires { IsSome link.old.kept }
    ensures stands { (slots : ℕ) (calls : List Call) → LinkStands slots calls link.old → result ≡ ok
        → LinkStands slots (asked slot.new ∷ calls) link.new }
    ensures lowest { result ≡ ok → IsLowest (reads_in link.old) slot.new }
    ensures none { result ≡ empty → NoneWaits (reads_in link.old) }
    ensures either { result ≢ ok → result ≡ empty }
    ensures same { result ≢ ok → (link.new.kept ≡ link.old.kept) × (slot.new ≡ slot.old) }
{
    match link.lend().assistant.next_read() {
        Some(next) => {
            *slot = next;
            OK
        }
        None => EMPTY,
    }
}

/// What the assistant has of a slot, as the octets of a receive state at the front of the room: none where the slot is empty.
#[unsafe(no_mangle)]
pub extern "C" fn vm_link_view(
    alloc: Global,
    link: &mut VmLink,
    slot: u8,
    room: &mut [u8],
    count: &mut usize,
) -> u32
    requires { IsSome link.old.kept }
    ensures view { (slots : ℕ) (calls : List Call) → LinkStands slots calls link.old → result ≡ ok
        → StateIs (view_of slot calls) (take count.new room.new) }
    ensures count { result ≡ ok → count.new ≤ length room.new }
    ensures none { (slots : ℕ) (calls : List Call) → LinkStands slots calls link.old → result ≡ no_slot → slots ≤ slot }
    ensures slot { (slots : ℕ) (calls : List Call) → LinkStands slots calls link.old → slots ≤ slot → result ≡ no_slot }
    ensures same { link.new.kept ≡ link.old.kept }
    ensures quiet { result ≢ ok → (room.new ≡ room.old) × (count.new ≡ count.old) }
    ensures room { (slots : ℕ) (calls : List Call) → LinkStands slots calls link.old → result ≡ no_room
        → length room.old < length (encoded (view_of slot calls)) }
    ensures enough { (slots : ℕ) (calls : List Call) → LinkStands slots calls link.old → AreWithin (length room.old) slot calls
        → result ≢ no_room }
    ensures wants { (slots : ℕ) (calls : List Call) → LinkStands slots calls link.old → result ≡ memory → IsSome (view_of slot calls) }
    ensures either { result ≢ ok → result ≢ no_slot → result ≢ no_room → result ≡ memory }
{
    let machine = link.lend();
    if slot >= machine.assistant.slot_count() {
        return NO_SLOT;
    }
    let octets = match encode_state(alloc, machine.assistant.view(slot)) {
        Ok(octets) => octets,
        Err(_) => return MEMORY,
    };
    if !put(octets.as_slice(), room) {
        return ROOM;
    }
    *count = octets.as_slice().len();
    OK
}
