ghost use Rattle.std.specs.Prelude.{All, ℕ, ◌≡◌, ◌≢◌, ◌≤◌, ◌<◌, ◌∷◌, [], true};
ghost use Rattle.std.specs.Prelude.{false, length, replicate, drop, slice_get, slice_set, slice_index_or, option_copied};
ghost use Rattle.std.specs.Prelude.{option_to_list, Option, Some, None, List, ◌++◌, Ok, Err};
ghost use Rattle.std.specs.Prelude.{IfOk, IfErr, IfSome, IfNone, OnSome, OnOk, OnErr};
ghost use Rattle.bass_operations.specs.Layout.{MetadataFits, encoding, wishes_of};
ghost use Rattle.receive_state.specs.Faults.{IsFault};
ghost use Rattle.receive_state.specs.Layout.{HasEncoding};
ghost use Rattle.receive_state.specs.Reading.{state_of};
ghost use Rattle.receive_state.specs.declared.fault.StateFault.TheVariants as state_faults;
ghost use Rattle.bass_operations.specs.declared.operation.Operation.TheVariants as operations;
ghost use Rattle.assistant_machine.specs.Answers.{IsCause, answer_of, by_reading};
ghost use Rattle.assistant_machine.specs.Calls.{Call, limited, put, sent, notified, all_asked, asked, read as gives};
ghost use Rattle.assistant_machine.specs.Cuts.{asks};
ghost use Rattle.assistant_machine.specs.Views.{reading_of, view_of};
ghost use Rattle.assistant_machine.specs.State.Assistants.{IsLowest, IsEncodedView, NoneWaits, StandsFor, after_notice};
ghost use Rattle.assistant_machine.specs.State.Assistants.{after_read, joined, with_reading, with_write};
ghost use Rattle.assistant_machine.specs.declared.fault.NoticeTaken.TheVariants.{View};
ghost use Rattle.assistant_machine.specs.declared.fault.NoticeFault.TheVariants.{Memory as NoMemory};

use crate::apart::AssistApart;
use crate::fault::{NoticeFault, NoticeTaken};
use bass_operations::{AddSource, ModifySource, Operation, encode_operation};
use bcast_base::{Memory, Octets};
use receive_state::{GroupStates, ReceiveState, StateFault, decode_state_over};
use std::alloc::Global;
use std::collections::VecDeque;
use std::marker::Model;
use std::mem::replace;

/// An assistant on a link to a server (Broadcast Audio Scan Service 1.0, section 3): the writes that wait to be sent, and
/// of each slot what it was told last and whether a read of it waits.
#[derive(Drop)]
pub struct AssistJoined {
    alloc: Global,
    mtu: Option<u16>,
    writes: VecDeque<Octets>,
    views: Vec<Option<ReceiveState>>,
    reads: Vec<bool>,
    /// The memory of an earlier view, for the next.
    spare: GroupStates,
}

impl Model for AssistJoined {
    ghost use Rattle.std.specs.Prelude.{vec_len};
    ghost use Rattle.assistant_machine.specs.State.Assistants.{Assistant, Keeps};

    ghost Value = { Assistant };

    ghost view = { λ a. record {
      mtu = a.mtu;
      writes = a.writes.items;
      views = a.views.items;
      reads = a.reads.items;
    } };

    ghost invariant = { λ a. Keeps (vec_len a.views) (vec_len a.reads) a.views.items };
}

impl AssistJoined {
    /// An assistant that just joined a server of so many slots.
    pub(crate) fn of(alloc: Global, slots: u8) -> Result<AssistJoined, Memory>
        ensures joined { IfOk result (λ assistant. assistant ≡ joined slots) }
        ensures stands { IfOk result (λ assistant. StandsFor slots [] assistant) }
    {
        let reads = vec![in alloc; false; usize::from(slots)]?;
        let views = empty_views(alloc, slots)?;
        Ok(AssistJoined {
            alloc,
            mtu: None,
            writes: VecDeque::new(alloc),
            views,
            reads,
            spare: GroupStates::new(alloc),
        })
    }

    /// From now on notices are cut to `mtu` - 3 octets, `mtu` being from 23 to 517. It takes no memory.
    pub fn set_mtu(&mut self, mtu: u16)
        requires least { 23 ≤ mtu }
        requires greatest { mtu ≤ 517 }
        ensures value { self.new ≡ record self.old { mtu = Some mtu } }
        ensures stands { (slots : ℕ) (calls : List Call) → StandsFor slots calls self.old → StandsFor slots (limited mtu ∷ calls) self.new }
    {
        self.mtu = Some(mtu);
    }

    /// An Add Source waits as the last write. Each metadata has at most 255 octets.
    pub fn add(&mut self, op: AddSource) -> Result<(), Memory>
        requires { MetadataFits op.wishes }
        ensures ok { OnOk result (self.new ≡ with_write (encoding (operations.Add op)) self.old) }
        ensures stands { OnOk result ((slots : ℕ) (calls : List Call) → StandsFor slots calls self.old
            → StandsFor slots (put (encoding (operations.Add op)) ∷ calls) self.new) }
        ensures err { OnErr result (self.new ≡ self.old) }
    {
        self.put_operation(&Operation::Add(op))
    }

    /// A Modify Source waits as the last write. Each metadata has at most 255 octets.
    pub fn modify(&mut self, op: ModifySource) -> Result<(), Memory>
        requires { MetadataFits op.wishes }
        ensures ok { OnOk result (self.new ≡ with_write (encoding (operations.Modify op)) self.old) }
        ensures stands { OnOk result ((slots : ℕ) (calls : List Call) → StandsFor slots calls self.old
            → StandsFor slots (put (encoding (operations.Modify op)) ∷ calls) self.new) }
        ensures err { OnErr result (self.new ≡ self.old) }
    {
        self.put_operation(&Operation::Modify(op))
    }

    /// A Remove Source waits as the last write.
    pub fn remove(&mut self, source_id: u8) -> Result<(), Memory>
        ensures ok { OnOk result (self.new ≡ with_write (encoding (operations.Remove source_id)) self.old) }
        ensures stands { OnOk result ((slots : ℕ) (calls : List Call) → StandsFor slots calls self.old
            → StandsFor slots (put (encoding (operations.Remove source_id)) ∷ calls) self.new) }
        ensures err { OnErr result (self.new ≡ self.old) }
    {
        self.put_operation(&Operation::Remove { source_id })
    }

    /// A Set Broadcast_Code waits as the last write.
    pub fn code(&mut self, source_id: u8, code: [u8; 16]) -> Result<(), Memory>
        ensures ok { OnOk result (self.new ≡ with_write (encoding (operations.Code source_id code)) self.old) }
        ensures stands { OnOk result ((slots : ℕ) (calls : List Call) → StandsFor slots calls self.old
            → StandsFor slots (put (encoding (operations.Code source_id code)) ∷ calls) self.new) }
        ensures err { OnErr result (self.new ≡ self.old) }
    {
        self.put_operation(&Operation::Code { source_id, code })
    }

    /// These octets wait as the last write, whatever they are.
    pub fn raw(&mut self, octets: &[u8]) -> Result<(), Memory>
        ensures ok { OnOk result (self.new ≡ with_write octets.now self.old) }
        ensures stands { OnOk result ((slots : ℕ) (calls : List Call) → StandsFor slots calls self.old
            → StandsFor slots (put octets.now ∷ calls) self.new) }
        ensures err { OnErr result (self.new ≡ self.old) }
    {
        let octets = Octets::copy(self.alloc, octets)?;
        self.put(octets)
    }

    /// The same with octets that it may keep: they are not copied.
    pub fn raw_octets(&mut self, octets: Octets) -> Result<(), Memory>
        ensures ok { OnOk result (self.new ≡ with_write octets self.old) }
        ensures stands { OnOk result ((slots : ℕ) (calls : List Call) → StandsFor slots calls self.old
            → StandsFor slots (put octets ∷ calls) self.new) }
        ensures err { OnErr result (self.new ≡ self.old) }
    {
        self.put(octets)
    }

    /// The first write that waits, which waits no longer; `None` exactly where none waits. It takes no memory.
    pub fn next_write(&mut self) -> Option<Octets>
        ensures write { self.old.writes ≡ option_to_list result ++ self.new.writes }
        ensures none { IfNone result (self.old.writes ≡ []) }
        ensures rest { self.new ≡ record self.old { writes = drop 1 self.old.writes } }
        ensures stands { OnSome result ((slots : ℕ) (calls : List Call) → StandsFor slots calls self.old
            → StandsFor slots (sent ∷ calls) self.new) }
    {
        self.writes.pop_front()
    }

    /// The first write that waits, which waits on; `None` exactly where none waits.
    pub fn first_write(&self) -> Option<&[u8]>
        ensures write { IfSome result (λ write. slice_get self.now.writes 0 ≡ Some write.now) }
        ensures none { IfNone result (self.now.writes ≡ []) }
    {
        Some(self.writes.front()?.as_slice())
    }

    /// Takes a notice of a slot. Where an MTU is set and the value has at least MTU - 3 octets, it may have been cut: a read
    /// of the slot waits then. Else the value is the view of the slot.
    ///
    /// The first refusal that holds is answered: NoSuchSlot where the slot is not below the number of slots; BadNotice
    /// where the octets are no value. A refused notice changes nothing. Memory is wanted only for a state that has a subgroup.
    pub fn notice(&mut self, slot: u8, value: &[u8]) -> Result<NoticeTaken, NoticeFault>
        ensures answer { IfOk result (λ taken. answer_of (length self.old.views) self.old.mtu slot value.now ≡ Ok taken) }
        ensures cause { IfErr result (λ fault. IsCause fault (answer_of (length self.old.views) self.old.mtu slot value.now)) }
        ensures memory { result ≡ Err NoMemory → IsFault state_faults.Memory value.now }
        ensures step { result ≢ Err NoMemory → self.new ≡ after_notice slot value.now self.old }
        ensures err { OnErr result (self.new ≡ self.old) }
        ensures stands { result ≢ Err NoMemory → (slots : ℕ) (calls : List Call) → StandsFor slots calls self.old
            → StandsFor slots (notified slot value.now ∷ calls) self.new }
    {
        self.hear(slot, value)
    }

    /// The lowest slot of which a read waits. It waits no longer. `None` exactly where none waits. It takes no memory.
    #[tactic(auto, using(crate::proofs::Standing::asked_stands))]
    pub fn next_read(&mut self) -> Option<u8>
        ensures lowest { IfSome result (λ slot. IsLowest self.old.reads slot) }
        ensures none { IfNone result (NoneWaits self.old.reads) }
        ensures same { IfNone result (self.new ≡ self.old) }
        ensures step { IfSome result (λ slot. self.new ≡ record self.old { reads = slice_set self.old.reads slot false }) }
        ensures stands { IfSome result (λ slot. (slots : ℕ) (calls : List Call) → StandsFor slots calls self.old
            → StandsFor slots (asked slot ∷ calls) self.new) }
    {
        self.make_read()
    }

    /// Takes the value that a read of a slot gave: it is the view of the slot.
    ///
    /// NoSuchSlot comes where the slot is not below the number of slots, BadNotice where the octets are no value. A refused
    /// value changes nothing. Memory is wanted only for a state that has a subgroup.
    pub fn answer_read(&mut self, slot: u8, value: &[u8]) -> Result<(), NoticeFault>
        ensures ok { OnOk result (answer_of (length self.old.views) None slot value.now ≡ Ok View) }
        ensures cause { IfErr result (λ fault. IsCause fault (answer_of (length self.old.views) None slot value.now)) }
        ensures memory { result ≡ Err NoMemory → IsFault state_faults.Memory value.now }
        ensures step { result ≢ Err NoMemory → self.new ≡ after_read slot value.now self.old }
        ensures err { OnErr result (self.new ≡ self.old) }
        ensures stands { result ≢ Err NoMemory → (slots : ℕ) (calls : List Call) → StandsFor slots calls self.old
            → StandsFor slots (gives slot value.now ∷ calls) self.new }
    {
        self.keep(slot, value)
    }

    /// A read of each slot waits. It takes no memory.
    pub fn ask_all(&mut self)
        ensures step { self.new ≡ record self.old { reads = replicate (length self.old.reads) true } }
        ensures stands { (slots : ℕ) (calls : List Call) → StandsFor slots calls self.old → StandsFor slots (all_asked ∷ calls) self.new }
    {
        self.reads.fill(true);
    }

    /// How many slots the server has.
    pub fn slot_count(&self) -> u8
        ensures count { result ≡ length self.now.views }
        ensures slots { (slots : ℕ) (calls : List Call) → StandsFor slots calls self.now → result ≡ slots }
    {
        self.views.len() as u8
    }

    /// The view of a slot; `None` exactly where it is empty or there is no such slot.
    pub fn view(&self, slot: u8) -> Option<&ReceiveState>
        ensures view { option_copied result ≡ slice_index_or self.now.views slot None }
        ensures calls { (slots : ℕ) (calls : List Call) → StandsFor slots calls self.now → slot < slots
            → option_copied result ≡ view_of slot calls }
        ensures encoded { IfSome result (λ state. HasEncoding state.now) }
    {
        self.views.get(usize::from(slot))?.as_ref()
    }

    /// Leaves the server: what waits and all views are gone. It takes no memory.
    pub fn leave(self) -> AssistApart {
        AssistApart { alloc: self.alloc }
    }

    /// Takes a notice of a slot.
    fn hear(&mut self, slot: u8, value: &[u8]) -> Result<NoticeTaken, NoticeFault>
        ensures answer { IfOk result (λ taken. answer_of (length self.old.views) self.old.mtu slot value.now ≡ Ok taken) }
        ensures cause { IfErr result (λ fault. IsCause fault (answer_of (length self.old.views) self.old.mtu slot value.now)) }
        ensures memory { result ≡ Err NoMemory → IsFault state_faults.Memory value.now }
        ensures step { result ≢ Err NoMemory → self.new ≡ after_notice slot value.now self.old }
        ensures err { OnErr result (self.new ≡ self.old) }
    {
        let place = usize::from(slot);
        if place >= self.views.len() {
            return Err(NoticeFault::NoSuchSlot);
        }
        if self.asks(value) {
            self.reads[place] = true;
            return Ok(NoticeTaken::ReadWaits);
        }
        self.take(place, value)?;
        Ok(NoticeTaken::View)
    }

    /// Takes the value that a read of a slot gave.
    fn keep(&mut self, slot: u8, value: &[u8]) -> Result<(), NoticeFault>
        ensures ok { OnOk result (answer_of (length self.old.views) None slot value.now ≡ Ok View) }
        ensures cause { IfErr result (λ fault. IsCause fault (answer_of (length self.old.views) None slot value.now)) }
        ensures memory { result ≡ Err NoMemory → IsFault state_faults.Memory value.now }
        ensures step { result ≢ Err NoMemory → self.new ≡ after_read slot value.now self.old }
        ensures err { OnErr result (self.new ≡ self.old) }
    {
        let place = usize::from(slot);
        if place >= self.views.len() {
            return Err(NoticeFault::NoSuchSlot);
        }
        self.take(place, value)
    }

    /// The lowest slot of which a read waits, which waits no longer.
    fn make_read(&mut self) -> Option<u8>
        ensures lowest { IfSome result (λ slot. IsLowest self.old.reads slot) }
        ensures none { IfNone result (NoneWaits self.old.reads) }
        ensures same { IfNone result (self.new ≡ self.old) }
        ensures step { IfSome result (λ slot. self.new ≡ record self.old { reads = slice_set self.old.reads slot false }) }
    {
        let slot = lowest_of(&self.reads)?;
        self.reads[slot] = false;
        Some(slot as u8)
    }

    /// Whether a value may have been cut.
    fn asks(&self, value: &[u8]) -> bool
        ensures { result ≡ asks self.now.mtu value.now }
    {
        match self.mtu {
            None => false,
            Some(mtu) => value.len() + 3 >= usize::from(mtu),
        }
    }

    /// Puts an operation behind the writes that wait.
    fn put_operation(&mut self, op: &Operation) -> Result<(), Memory>
        requires { MetadataFits (wishes_of op.now) }
        ensures ok { OnOk result (self.new ≡ with_write (encoding op.now) self.old) }
        ensures stands { OnOk result ((slots : ℕ) (calls : List Call) → StandsFor slots calls self.old
            → StandsFor slots (put (encoding op.now) ∷ calls) self.new) }
        ensures err { OnErr result (self.new ≡ self.old) }
    {
        let octets = encode_operation(self.alloc, op)?;
        self.put(octets)
    }

    /// Puts octets behind the writes that wait.
    fn put(&mut self, octets: Octets) -> Result<(), Memory>
        ensures ok { OnOk result (self.new ≡ with_write octets self.old) }
        ensures stands { OnOk result ((slots : ℕ) (calls : List Call) → StandsFor slots calls self.old
            → StandsFor slots (put octets ∷ calls) self.new) }
        ensures err { OnErr result (self.new ≡ self.old) }
    {
        self.push(octets)
    }

    /// Puts octets at the end of the queue of writes.
    fn push(&mut self, octets: Octets) -> Result<(), Memory>
        ensures ok { OnOk result (self.new ≡ with_write octets self.old) }
        ensures err { OnErr result (self.new ≡ self.old) }
    {
        Ok(self.writes.push_back(octets)?)
    }

    /// Takes octets as the view of a slot, where they are a value.
    fn take(&mut self, place: usize, value: &[u8]) -> Result<(), NoticeFault>
        requires { place < length self.old.views }
        ensures ok { OnOk result (by_reading (state_of value.now) ≡ Ok View) }
        ensures cause { IfErr result (λ fault. IsCause fault (by_reading (state_of value.now))) }
        ensures memory { result ≡ Err NoMemory → IsFault state_faults.Memory value.now }
        ensures step { result ≢ Err NoMemory → self.new ≡ with_reading place (reading_of value.now) self.old }
        ensures err { OnErr result (self.new ≡ self.old) }
    {
        let view = view_in(self.alloc, &mut self.spare, value)?;
        if let Some(earlier) = replace(&mut self.views[place], view) {
            self.spare = earlier.groups;
        }
        Ok(())
    }
}

/// What a slot has by its octets: a state, or no source. It is read into the memory of an earlier one, which is given away.
fn view_in(
    alloc: Global,
    spare: &mut GroupStates,
    value: &[u8],
) -> Result<Option<ReceiveState>, NoticeFault>
    ensures ok { IfOk result (λ view. state_of value.now ≡ Ok view) }
    ensures encoded { IfOk result IsEncodedView }
    ensures cause { IfErr result (λ fault. IsCause fault (by_reading (state_of value.now))) }
    ensures memory { result ≡ Err NoMemory → IsFault state_faults.Memory value.now }
{
    match decode_state_over(alloc, spare, value) {
        Ok(view) => Ok(view),
        Err(StateFault::Memory) => Err(NoticeFault::Memory),
        Err(fault) => Err(NoticeFault::BadNotice(fault)),
    }
}

/// The lowest slot of which a read waits.
fn lowest_of(reads: &[bool]) -> Option<usize>
    ensures lowest { IfSome result (λ slot. IsLowest reads.now slot) }
    ensures within { IfSome result (λ slot. slot < length reads.now) }
    ensures none { IfNone result (NoneWaits reads.now) }
{
    reads.iter().position(|waits| *waits)
}

/// Empty views of so many slots.
fn empty_views(alloc: Global, slots: u8) -> Result<Vec<Option<ReceiveState>>, Memory>
    ensures views { IfOk result (λ views. views.items ≡ replicate slots None) }
    ensures encoded { IfOk result (λ views. All IsEncodedView views.items) }
{
    let mut views = Vec::with_capacity(alloc, usize::from(slots))?;
    'slots: for _ in 0..slots {
        views.push(None)?;
    }
    Ok(views)
}
