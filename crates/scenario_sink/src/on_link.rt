//! What is done on one link.
ghost use Rattle.std.specs.Option.{option_copied};
ghost use Rattle.std.specs.Prelude.{ℕ, ◌≡◌, ◌≢◌, ◌∷◌, [], Some, Ok, Err, length};
ghost use Rattle.std.specs.Prelude.{IfErr, IfOk, IfSome, IfNone, OnOk, slice_index_or, None, drop};
ghost use Rattle.assistant_machine.specs.Answers.{IsCause, answer_of};
ghost use Rattle.assistant_machine.specs.Calls as assistants;
ghost use Rattle.assistant_machine.specs.State.Assistants.{Assistant, IsLowest, NoneWaits};
ghost use Rattle.assistant_machine.specs.declared.fault.NoticeFault.TheVariants.{Memory as NoMemory};
ghost use Rattle.multi_assist.specs.State.Links.{link_at, mtu_of, slots_of, with_assistant_on};
ghost use Rattle.delegator_history.specs.Values.{value};
ghost use Rattle.receive_state.specs.Layout.{HasEncoding};
ghost use Rattle.receive_state.specs.declared.state.ReceiveState.{ReceiveState};
ghost use Rattle.multi_assist.specs.State.Places.{assistant_in};
ghost use Rattle.scenario_sink.specs.State.Taking.{Takes};

use assistant_machine::{NoticeFault, NoticeTaken};
use bcast_base::{Memory, Octets};
use multi_assist::Links;
use receive_state::{ReceiveState, encode_state};
use std::alloc::Global;

/// Puts octets behind the writes that wait on a joined link.
pub(crate) fn put(links: &mut Links, link: u8, octets: Octets) -> Result<(), Memory>
    ensures { (before : Assistant) → assistant_in (link_at links.old link) ≡ Some before
        → OnOk result (Takes (assistants.put octets ∷ []) link before links.old links.new) }
{
    match links.assistant(link) {
        Some(assistant) => assistant.raw_octets(octets),
        None => Ok(()),
    }
}

/// The first write that waits on a joined link, which waits no longer.
pub(crate) fn take_write(links: &mut Links, link: u8) -> Option<Octets>
    ensures some { (before : Assistant) → assistant_in (link_at links.old link) ≡ Some before
        → IfSome result (λ write. (before.writes ≡ write ∷ drop 1 before.writes)
        × Takes (assistants.sent ∷ []) link before links.old links.new) }
    ensures none { (before : Assistant) → assistant_in (link_at links.old link) ≡ Some before
        → IfNone result ((before.writes ≡ []) × (links.new ≡ with_assistant_on links.old link before)) }
{
    links.assistant(link)?.next_write()
}

/// The assistant of a joined link takes a notice of a slot.
pub(crate) fn take_notice(
    links: &mut Links,
    link: u8,
    slot: u8,
    value: &[u8],
) -> Result<NoticeTaken, NoticeFault>
    ensures answer { (before : Assistant) → assistant_in (link_at links.old link) ≡ Some before
        → IfOk result (λ taken. answer_of (length before.views) before.mtu slot value.now ≡ Ok taken) }
    ensures cause { (before : Assistant) → assistant_in (link_at links.old link) ≡ Some before
        → IfErr result (λ fault. IsCause fault (answer_of (length before.views) before.mtu slot value.now)) }
    ensures takes { (before : Assistant) → assistant_in (link_at links.old link) ≡ Some before
        → result ≢ Err NoMemory → Takes (assistants.notified slot value.now ∷ []) link before links.old links.new }
{
    match links.assistant(link) {
        Some(assistant) => assistant.notice(slot, value),
        None => Err(NoticeFault::NoSuchSlot),
    }
}

/// The same, whatever the assistant makes of it.
pub(crate) fn deliver(links: &mut Links, link: u8, slot: u8, value: &[u8]) -> Result<(), Memory>
    ensures takes { (before : Assistant) → assistant_in (link_at links.old link) ≡ Some before
        → OnOk result (Takes (assistants.notified slot value.now ∷ []) link before links.old links.new) }
{
    match take_notice(links, link, slot, value) {
        Ok(_) => Ok(()),
        Err(fault) => wants_memory(fault),
    }
}

/// The lowest slot of which a read waits on a joined link. It waits no longer.
pub(crate) fn next_read(links: &mut Links, link: u8) -> Option<u8>
    ensures some { (before : Assistant) → assistant_in (link_at links.old link) ≡ Some before
        → IfSome result (λ slot. IsLowest before.reads slot × Takes (assistants.asked slot ∷ []) link before links.old links.new) }
    ensures none { (before : Assistant) → assistant_in (link_at links.old link) ≡ Some before
        → IfNone result (NoneWaits before.reads × (links.new ≡ with_assistant_on links.old link before)) }
{
    links.assistant(link)?.next_read()
}

/// The assistant of a joined link takes the value that a read of a slot gave, whatever it makes of it.
pub(crate) fn take_value(links: &mut Links, link: u8, slot: u8, value: &[u8]) -> Result<(), Memory>
    ensures { (before : Assistant) → assistant_in (link_at links.old link) ≡ Some before
        → OnOk result (Takes (assistants.read slot value.now ∷ []) link before links.old links.new) }
{
    match answer_read(links, link, slot, value) {
        Ok(()) => Ok(()),
        Err(fault) => wants_memory(fault),
    }
}

/// The same, with what the assistant makes of it.
fn answer_read(links: &mut Links, link: u8, slot: u8, value: &[u8]) -> Result<(), NoticeFault>
    ensures { (before : Assistant) → assistant_in (link_at links.old link) ≡ Some before
        → result ≢ Err NoMemory → Takes (assistants.read slot value.now ∷ []) link before links.old links.new }
{
    match links.assistant(link) {
        Some(assistant) => assistant.answer_read(slot, value),
        None => Err(NoticeFault::NoSuchSlot),
    }
}

/// Of the faults of a value the want of memory alone.
fn wants_memory(fault: NoticeFault) -> Result<(), Memory>
    ensures { OnOk result (fault ≢ NoMemory) }
{
    match fault {
        NoticeFault::Memory => Err(Memory),
        _ => Ok(()),
    }
}

/// The octets of what the assistant of a joined link takes for the state of a slot.
pub(crate) fn view_on(
    alloc: Global,
    links: &mut Links,
    link: u8,
    slot: u8,
) -> Result<Octets, Memory>
    ensures answer { (before : Assistant) → assistant_in (link_at links.old link) ≡ Some before
        → ((state : ReceiveState) → slice_index_or before.views slot None ≡ Some state → HasEncoding state)
        → IfOk result (λ octets. octets ≡ value (slice_index_or before.views slot None)) }
    ensures same { (other : ℕ) → link_at links.new other ≡ link_at links.old other }
    ensures terms { (slots_of links.new ≡ slots_of links.old) × (mtu_of links.new ≡ mtu_of links.old) }
{
    match links.assistant(link) {
        Some(assistant) => octets_of(alloc, assistant.view(slot)),
        None => Ok(Octets::new(alloc)),
    }
}

/// The octets of a state that has any, or none where there is no source.
fn octets_of(alloc: Global, view: Option<&ReceiveState>) -> Result<Octets, Memory>
    ensures value { ((state : ReceiveState) → option_copied view.entry ≡ Some state → HasEncoding state)
        → IfOk result (λ octets. octets ≡ value (option_copied view.entry)) }
{
    let Some(state) = view else {
        return Ok(Octets::new(alloc));
    };
    if !state.fits() {
        return Ok(Octets::new(alloc));
    }
    encode_state(alloc, Some(state))
}
