ghost use Rattle.std.specs.Prelude.{◌≡◌, ◌≤◌, ◌<◌, vec_len, option_map, replicate, slice_get, None, Option, true};
ghost use Rattle.std.specs.Prelude.{IfOk, IsSome, OnOk, OnErr};
ghost use Rattle.delegator_history.specs.Notices.{handed_out};
ghost use Rattle.delegator_control.specs.State.Places.{IsWithin};

use crate::control::{heard_control, leaves};
use crate::place::{Move, Place, SinkIdle, join, make_move};
use crate::values::{note_standing, status_after, value_as};
use bass_operations::{Wishes, decode_operation_over, read_is_operation};
use bcast_base::{Memory, Octets};
use big_info::Limits;
use delegator_choices::{Slot, cause_of, refused};
use delegator_history::{ControlHeard, Notice, Reply};
use pacs_records::{Capability, Records};
use std::alloc::Global;
use std::collections::VecDeque;

/// The control half of a Scan Delegator: its slots, where it is, its capability, and the notices that wait.
#[derive(Drop)]
pub struct ScanDelegator {
    pub(crate) alloc: Global,
    /// The streams that it takes at once.
    pub(crate) streams: u8,
    pub(crate) limits: Limits,
    pub(crate) slots: Vec<Option<Slot>>,
    pub(crate) place: Place,
    pub(crate) capability: Capability,
    pub(crate) waiting: VecDeque<Notice>,
    pub(crate) mtu: Option<u16>,
    /// What was wanted of a slot that was filled anew or emptied. Its memory is used for the next operation.
    pub(crate) spare: Wishes,
    ghost reach: { limits.horizon ≤ 31 },
    ghost few: { vec_len slots ≤ 8 },
    ghost within: { IsWithin place (vec_len slots) },
}

impl ScanDelegator {
    ghost use Rattle.std.specs.Prelude.{List, [], ◌∷◌};
    ghost use Rattle.bass_operations.specs.Reading.{op_of};
    ghost use Rattle.delegator_history.specs.Snapshots.{entry_at, slot_of};
    ghost use Rattle.delegator_history.specs.States.{Step, control_heard as controlled, sync_to_group, notified, train_lost, written};
    ghost use Rattle.delegator_history.specs.Steps.{lost, tuned};
    ghost use Rattle.sync_reference.specs.BigSync.{BigSync};
    ghost use Rattle.delegator_history.specs.Controls.{control_heard, done_by_control};
    ghost use Rattle.delegator_history.specs.Values.{value_at};
    ghost use Rattle.delegator_history.specs.Writes.{reply_of, done_by_write};
    ghost use Rattle.delegator_control.specs.Serving.{wants_memory};
    ghost use Rattle.delegator_control.specs.State.Places.{place_by, place_of};
    ghost use Rattle.delegator_control.specs.State.Machines.{gone, machine, moved, step_on, StandsFor};

    /// A sink that takes so many streams at once, 1 to 31, with so many slots, 1 to 4, that are empty.
    pub fn new(alloc: Global, streams: u8, slots: u8) -> Result<ScanDelegator, Memory>
        requires least_streams { 1 ≤ streams }
        requires most_streams { streams ≤ 31 }
        requires least_slots { 1 ≤ slots }
        requires most_slots { slots ≤ 4 }
        ensures setup { IfOk result (λ sink. (machine sink).setup ≡ record { streams = streams; slots = slots; horizon = 15 }) }
        ensures stands { IfOk result (λ sink. StandsFor [] (machine sink)) }
    {
        ScanDelegator::within(alloc, streams, slots, Limits::VERSION_1)
    }

    /// The same with 1 to 8 slots, and groups with at most the horizon of the limits.
    pub fn within(
        alloc: Global,
        streams: u8,
        slots: u8,
        limits: Limits,
    ) -> Result<ScanDelegator, Memory>
        requires least_streams { 1 ≤ streams }
        requires most_streams { streams ≤ 31 }
        requires least_slots { 1 ≤ slots }
        requires most_slots { slots ≤ 8 }
        requires reach { limits.horizon ≤ 31 }
        ensures setup { IfOk result (λ sink. (machine sink).setup ≡ record { streams = streams; slots = slots; horizon = limits.horizon }) }
        ensures stands { IfOk result (λ sink. StandsFor [] (machine sink)) }
    {
        Ok(ScanDelegator {
            alloc,
            streams,
            limits,
            slots: empty_slots(alloc, slots)?,
            place: Place::Idle(SinkIdle),
            capability: Capability {
                entries: Records::new(alloc),
                locations: 0,
                contexts: 0xffff,
            },
            waiting: VecDeque::new(alloc),
            mtu: None,
            spare: Wishes::new(alloc),
        })
    }

    /// Serves a write to the control point (Broadcast Audio Scan Service 1.0, section 3.1.1). The reply is the first cause
    /// that holds, or that it is accepted; a refused write changes nothing. Memory is wanted only for the subgroups of an Add or a Modify
    /// Source, for the value of its slot, which is made before it is found too long, and for the notice of a Remove Source that
    /// is accepted; the sink is then as before.
    pub fn serve(&mut self, write: &[u8]) -> Result<Reply, Memory>
        ensures answer { IfOk result (λ reply. reply ≡ reply_of (machine self.old).snapshot write.now) }
        ensures step { OnOk result (machine self.new ≡ moved (done_by_write (machine self.old).snapshot write.now) (machine self.old)) }
        ensures err { OnErr result (machine self.new ≡ machine self.old) }
        ensures memory { OnErr result (wants_memory (machine self.old).snapshot (op_of write.now) ≡ true) }
        ensures stands { OnOk result ((steps : List Step) → StandsFor steps (machine self.old)
            → StandsFor (written write.now ∷ steps) (machine self.new)) }
    {
        self.serve_write(write)
    }

    /// The train is lost: the sink is idle. Memory is wanted only where it was on the train or the group of a slot; it is then
    /// as before.
    pub fn lost(&mut self) -> Result<(), Memory>
        ensures step { OnOk result (machine self.new ≡ moved lost (machine self.old)) }
        ensures err { OnErr result (machine self.new ≡ machine self.old) }
        ensures memory { OnErr result (IsSome (slot_of (machine self.old).snapshot.place)) }
        ensures stands { OnOk result ((steps : List Step) → StandsFor steps (machine self.old)
            → StandsFor (train_lost ∷ steps) (machine self.new)) }
    {
        self.go(Move::Off)
    }

    /// The sink is synchronized to a BIG of no slot: it leaves what it was on. Memory is wanted only where this was the train or the
    /// group of a slot; the sink is then as before.
    pub fn tune(&mut self) -> Result<(), Memory>
        ensures step { OnOk result (machine self.new ≡ moved tuned (machine self.old)) }
        ensures err { OnErr result (machine self.new ≡ machine self.old) }
        ensures memory { OnErr result (IsSome (slot_of (machine self.old).snapshot.place)) }
        ensures stands { OnOk result ((steps : List Step) (big_sync : BigSync) → StandsFor steps (machine self.old)
            → StandsFor (sync_to_group big_sync ∷ steps) (machine self.new)) }
    {
        self.sync_on_group()
    }

    /// A PDU is heard as a control PDU (Core 5.2, volume 6 part B, section 2.6.3). The answer is the first that holds. A
    /// terminate takes the sink off its group; it stays on the train of its slot. Memory is wanted only for Left, on the group
    /// of a slot; the sink is then as before.
    pub fn control(&mut self, pdu: &[u8]) -> Result<ControlHeard, Memory>
        ensures answer { IfOk result (λ heard. heard ≡ control_heard (machine self.old).snapshot.place pdu.now) }
        ensures step { OnOk result (machine self.new ≡ moved (done_by_control (machine self.old).snapshot.place pdu.now) (machine self.old)) }
        ensures err { OnErr result (machine self.new ≡ machine self.old) }
        ensures memory { OnErr result (control_heard (machine self.old).snapshot.place pdu.now ≡ ControlHeard.Left) }
        ensures slot { OnErr result (IsSome (slot_of (machine self.old).snapshot.place)) }
        ensures stands { OnOk result ((steps : List Step) → StandsFor steps (machine self.old)
            → StandsFor (controlled pdu.now ∷ steps) (machine self.new)) }
    {
        self.hear_control(pdu)
    }

    /// The first notice that waits, its value cut to the MTU but three octets where an MTU is set. It takes no memory.
    pub fn next_notice(&mut self) -> Option<Notice>
        ensures notice { result ≡ option_map (handed_out (machine self.old).mtu) (slice_get (machine self.old).waiting 0) }
        ensures step { machine self.new ≡ step_on notified (machine self.old) }
        ensures stands { (steps : List Step) → StandsFor steps (machine self.old) → StandsFor (notified ∷ steps) (machine self.new) }
    {
        self.take_notice()
    }

    /// How many slots there are.
    pub fn slot_count(&self) -> u8
        ensures { result ≡ (machine self.now).setup.slots }
    {
        self.slots.len() as u8
    }

    /// The value of a slot, which exists (Broadcast Audio Scan Service 1.0, section 3.2). Memory is wanted only where it is
    /// filled.
    pub fn read_state(&self, slot: u8) -> Result<Octets, Memory>
        requires { slot < vec_len self.now.slots }
        ensures value { IfOk result (λ octets. octets ≡ value_at (machine self.now).snapshot slot) }
        ensures memory { OnErr result (IsSome (entry_at (machine self.now).snapshot.slots slot)) }
    {
        let status = status_after(&self.place, slot, Move::Stay);
        value_as(self.alloc, &self.slots[usize::from(slot)], &status)
    }

    // The octets as an operation.
    fn serve_write(&mut self, write: &[u8]) -> Result<Reply, Memory>
        ensures answer { IfOk result (λ reply. reply ≡ reply_of (machine self.old).snapshot write.now) }
        ensures step { OnOk result (machine self.new ≡ moved (done_by_write (machine self.old).snapshot write.now) (machine self.old)) }
        ensures err { OnErr result (machine self.new ≡ machine self.old) }
        ensures memory { OnErr result (wants_memory (machine self.old).snapshot (op_of write.now) ≡ true) }
    {
        read_is_operation();
        match decode_operation_over(self.alloc, &mut self.spare, write) {
            Ok(op) => self.operate(op),
            Err(fault) => match cause_of(fault) {
                Some(cause) => Ok(refused(cause)),
                None => Err(Memory),
            },
        }
    }

    // Puts the sink on a group of no slot, off what it was on. After want of memory it is where it was.
    fn sync_on_group(&mut self) -> Result<(), Memory>
        ensures step { OnOk result (machine self.new ≡ moved tuned (machine self.old)) }
        ensures err { OnErr result (machine self.new ≡ machine self.old) }
        ensures memory { OnErr result (IsSome (slot_of (machine self.old).snapshot.place)) }
    {
        self.note_move(Move::Off)?;
        join(&mut self.place, self.alloc);
        Ok(())
    }

    // Hears a control PDU, and leaves the group where that is terminated. After want of memory the sink is where it was.
    fn hear_control(&mut self, pdu: &[u8]) -> Result<ControlHeard, Memory>
        ensures answer { IfOk result (λ heard. heard ≡ control_heard (machine self.old).snapshot.place pdu.now) }
        ensures step { OnOk result (machine self.new ≡ moved (done_by_control (machine self.old).snapshot.place pdu.now) (machine self.old)) }
        ensures err { OnErr result (machine self.new ≡ machine self.old) }
        ensures memory { OnErr result (control_heard (machine self.old).snapshot.place pdu.now ≡ ControlHeard.Left) }
        ensures slot { OnErr result (IsSome (slot_of (machine self.old).snapshot.place)) }
    {
        let heard = heard_control(&self.place, pdu);
        if !leaves(heard) {
            return Ok(heard);
        }
        self.go(Move::OffGroup)?;
        Ok(heard)
    }

    // Takes the first notice that waits, its value cut to the MTU where one is set.
    fn take_notice(&mut self) -> Option<Notice>
        ensures notice { result ≡ option_map (handed_out (machine self.old).mtu) (slice_get (machine self.old).waiting 0) }
        ensures step { machine self.new ≡ step_on notified (machine self.old) }
    {
        let notice = self.waiting.pop_front()?;
        Some(cut(notice, self.mtu))
    }

    // Changes the place, and puts the notice of the slot whose train or group the sink was on.
    pub(crate) fn go(&mut self, moves: Move) -> Result<(), Memory>
        ensures step { OnOk result (machine self.new ≡ gone (place_by (place_of self.old.place) moves) (machine self.old)) }
        ensures err { OnErr result (machine self.new ≡ machine self.old) }
        ensures memory { OnErr result (IsSome (slot_of (machine self.old).snapshot.place)) }
    {
        self.note_move(moves)?;
        make_move(&mut self.place, moves);
        Ok(())
    }

    // Puts the notice of the slot whose train or group the sink is on, where this change of the place changes its value.
    pub(crate) fn note_move(&mut self, moves: Move) -> Result<(), Memory>
        ensures ok { OnOk result (machine self.new
            ≡ record (machine self.old) { waiting = (gone (place_by (place_of self.old.place) moves) (machine self.old)).waiting }) }
        ensures place { self.new.place ≡ self.old.place }
        ensures err { OnErr result (machine self.new ≡ machine self.old) }
        ensures memory { OnErr result (IsSome (slot_of (machine self.old).snapshot.place)) }
    {
        let Some(slot) = self.place.slot() else {
            return Ok(());
        };
        let before = status_after(&self.place, slot, Move::Stay);
        let after = status_after(&self.place, slot, moves);
        let held = &self.slots[usize::from(slot)];
        note_standing(self.alloc, &mut self.waiting, slot, held, &before, &after)
    }
}

// What is handed out of a notice.
fn cut(notice: Notice, mtu: Option<u16>) -> Notice
    ensures { result ≡ handed_out mtu notice }
{
    let Notice { slot, mut value } = notice;
    if let Some(mtu) = mtu {
        value.truncate(usize::from(mtu).saturating_sub(3));
    }
    Notice { slot, value }
}

// So many empty slots.
fn empty_slots(alloc: Global, count: u8) -> Result<Vec<Option<Slot>>, Memory>
    ensures { IfOk result (λ slots. slots.items ≡ replicate count None) }
{
    let mut slots = Vec::new(alloc);
    'places: for _ in 0..count {
        slots.push(None)?;
    }
    Ok(slots)
}
