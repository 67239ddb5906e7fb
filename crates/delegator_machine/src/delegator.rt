ghost use Rattle.std.specs.Prelude.{◌≡◌, ◌+◌, ◌≤◌, ◌<◌, ◌^◌, ◌&&◌, ◌∷◌, ◌⊎◌, not, List, [], option_map, slice_get, true};
ghost use Rattle.std.specs.Prelude.{IfOk, IsOk, IsSome, OnOk, OnErr};
ghost use Rattle.bass_operations.specs.Reading.{op_of};
ghost use Rattle.delegator_history.specs.Controls.{control_heard};
ghost use Rattle.delegator_history.specs.Notices.{handed_out, mtu_in, waiting};
ghost use Rattle.delegator_history.specs.Snapshots.{entry_at, slot_of};
ghost use Rattle.delegator_history.specs.States.{control_heard as controlled, sync_to_group, snapshot_of, notified, train_lost, written};
ghost use Rattle.delegator_history.specs.Trains.{Setup};
ghost use Rattle.delegator_history.specs.Values.{value_at};
ghost use Rattle.delegator_history.specs.Writes.{reply_of};
ghost use Rattle.group_sink.specs.Calls as sinks;
ghost use Rattle.group_sink.specs.Handing.{handed_at};
ghost use Rattle.group_sink.specs.Hearings.{hearing_of};
ghost use Rattle.group_sink.specs.State.Sinks.{StandsFor as SinkStands};
ghost use Rattle.unit_outlets.specs.Handed.{HandsOver, Caused};
ghost use Rattle.delegator_control.specs.Groups.{has_group};
ghost use Rattle.delegator_control.specs.Serving.{wants_memory};
ghost use Rattle.delegator_control.specs.State.Machines.{step_on};
ghost use Rattle.delegator_machine.specs.Calls.{Call, control, hear, heard_calls, steps_of, tick};
ghost use Rattle.delegator_machine.specs.Groups.{group_calls, with_leave};
ghost use Rattle.delegator_machine.specs.State.Halves.{StandsFor, settings_of};

use crate::numbers::by_numbers;
use bcast_base::{Bis, BisSet, Memory, Octets};
use big_info::{Group, Limits};
use delegator_control::ScanDelegator;
use delegator_history::{ControlHeard, Notice, Reply};
use group_sink::GroupSink;
use isoal_base::Hearing;
use radio_schedule::StreamEvent;
use std::alloc::Global;
use std::marker::Model;
use sync_reference::BigSync;
use unit_outlets::{TakerFault, UnitTaker};

/// A Scan Delegator: a Broadcast Sink that is told by assistants which sources to receive (Basic Audio Profile 1.0, section
/// 6.5).
#[derive(Drop)]
pub struct Delegator {
    pub(crate) scan: ScanDelegator,
    pub(crate) sink: GroupSink,
}

impl Model for Delegator {
    ghost use Rattle.delegator_control.specs.State.Machines.{machine};
    ghost use Rattle.delegator_machine.specs.Bits.{BitsStand};
    ghost use Rattle.delegator_machine.specs.State.Halves.{Halves};

    ghost Value = { Halves };

    ghost view = { λ a. record { scan = machine a.scan; sink = a.sink } };

    ghost invariant = { λ a. BitsStand (machine a.scan).snapshot };
}

impl Delegator {
    /// A Scan Delegator that takes so many streams at once, 1 to 31, with so many slots, 1 to 4, that are empty. It is idle.
    pub fn new(alloc: Global, streams: u8, slots: u8) -> Result<Delegator, Memory>
        requires least_streams { 1 ≤ streams }
        requires most_streams { streams ≤ 31 }
        requires least_slots { 1 ≤ slots }
        requires few { slots ≤ 4 }
        ensures { IfOk result (StandsFor (record { streams = streams; slots = slots; horizon = 15 }) []) }
    {
        Delegator::within(alloc, streams, slots, Limits::VERSION_1)
    }

    /// The same with 1 to 8 slots, and groups with at most the horizon of the limits.
    pub fn within(
        alloc: Global,
        streams: u8,
        slots: u8,
        limits: Limits,
    ) -> Result<Delegator, Memory>
        requires least_streams { 1 ≤ streams }
        requires most_streams { streams ≤ 31 }
        requires least_slots { 1 ≤ slots }
        requires few { slots ≤ 8 }
        requires horizon { limits.horizon ≤ 31 }
        ensures { IfOk result (StandsFor (record { streams = streams; slots = slots; horizon = limits.horizon }) []) }
    {
        let scan = ScanDelegator::within(alloc, streams, slots, limits)?;
        Ok(Delegator {
            scan,
            sink: GroupSink::new(alloc),
        })
    }

    /// Puts the sink on a group of no slot, with these streams, this event as the first one, whose anchor is given in µs, and
    /// this presentation delay in µs. It leaves what it was on. Memory is wanted only for streams, and where it was on the train or
    /// the group of a slot; all is then as before.
    pub fn tune(
        &mut self,
        group: &Group,
        which: BisSet,
        event: u64,
        anchor: u64,
        delay: u32,
    ) -> Result<(), Memory>
        requires event { event ≤ 2 ^ 39 }
        requires anchor { anchor ≤ 2 ^ 61 + 2 ^ 23 }
        requires delay { delay < 2 ^ 24 }
        ensures stands { (setup : Setup) (calls : List Call) → StandsFor setup calls self.old
            → OnOk result (StandsFor setup
            (control (sync_to_group (record {
              info = group.now.info;
              which = which;
              first = event;
              anchor = anchor;
              delay = delay;
            })) ∷ calls) self.new) }
        ensures settings { settings_of self.new ≡ settings_of self.old }
        ensures err { OnErr result (self.new ≡ self.old) }
        ensures memory { (setup : Setup) (calls : List Call) → StandsFor setup calls self.old
            → OnErr result ((0 < which) ⊎ IsSome (slot_of (snapshot_of setup (steps_of calls)).place)) }
    {
        self.sync_to_group(&BigSync {
            group: *group,
            which,
            first: event,
            anchor,
            delay,
        })
    }

    /// Puts the sink on a group of no slot: `tune` with its arguments as one. Memory is wanted only for streams, and where it was
    /// on the train or the group of a slot; all is then as before.
    pub fn sync_to_group(&mut self, big_sync: &BigSync) -> Result<(), Memory>
        ensures stands { (setup : Setup) (calls : List Call) → StandsFor setup calls self.old
            → OnOk result (StandsFor setup (control (sync_to_group big_sync.now) ∷ calls) self.new) }
        ensures settings { settings_of self.new ≡ settings_of self.old }
        ensures err { OnErr result (self.new ≡ self.old) }
        ensures memory { (setup : Setup) (calls : List Call) → StandsFor setup calls self.old
            → OnErr result ((0 < big_sync.now.which) ⊎ IsSome (slot_of (snapshot_of setup (steps_of calls)).place)) }
    {
        let receivers = self.sink.receivers(&by_numbers(big_sync))?;
        self.scan.tune()?;
        self.sink.sync_to_group(receivers);
        Ok(())
    }

    /// Serves a write to the control point (Broadcast Audio Scan Service 1.0, section 3.1.1). The reply is the first cause that
    /// holds, or that it is accepted; a refused write changes nothing. Memory is wanted only for the subgroups of an Add or a
    /// Modify Source, for the value of its slot, which is made before it is found too long, and for the notice of a Remove
    /// Source that is accepted; all is then as before.
    pub fn serve(&mut self, write: &[u8]) -> Result<Reply, Memory>
        ensures answer { (setup : Setup) (calls : List Call) → StandsFor setup calls self.old
            → IfOk result (λ reply. reply ≡ reply_of (snapshot_of setup (steps_of calls)) write.now) }
        ensures stands { (setup : Setup) (calls : List Call) → StandsFor setup calls self.old
            → OnOk result (StandsFor setup (control (written write.now) ∷ calls) self.new) }
        ensures settings { settings_of self.new ≡ settings_of self.old }
        ensures err { OnErr result (self.new ≡ self.old) }
        ensures memory { (setup : Setup) (calls : List Call) → StandsFor setup calls self.old
            → OnErr result (wants_memory (snapshot_of setup (steps_of calls)) (op_of write.now) ≡ true) }
        ensures operation { OnErr result (IsOk (op_of write.now)) }
    {
        let was_on_group = self.scan.is_on_group();
        let reply = self.scan.serve(write)?;
        self.settle(was_on_group);
        Ok(reply)
    }

    /// The train is lost: the sink is idle. Memory is wanted only where it was on the train or the group of a slot; all is then
    /// as before.
    pub fn lost(&mut self) -> Result<(), Memory>
        ensures stands { (setup : Setup) (calls : List Call) → StandsFor setup calls self.old
            → OnOk result (StandsFor setup (control train_lost ∷ calls) self.new) }
        ensures settings { settings_of self.new ≡ settings_of self.old }
        ensures err { OnErr result (self.new ≡ self.old) }
        ensures memory { (setup : Setup) (calls : List Call) → StandsFor setup calls self.old
            → OnErr result (IsSome (slot_of (snapshot_of setup (steps_of calls)).place)) }
    {
        let was_on_group = self.scan.is_on_group();
        self.scan.lost()?;
        self.settle(was_on_group);
        Ok(())
    }

    /// A PDU is heard as a control PDU (Core 5.2, volume 6 part B, section 2.6.3). The answer is the first that holds. A
    /// terminate takes the sink off its group; it stays on the train of its slot. Memory is wanted only for Left, on the group
    /// of a slot; all is then as before.
    pub fn control(&mut self, pdu: &[u8]) -> Result<ControlHeard, Memory>
        ensures answer { (setup : Setup) (calls : List Call) → StandsFor setup calls self.old
            → IfOk result (λ heard. heard ≡ control_heard (snapshot_of setup (steps_of calls)).place pdu.now) }
        ensures stands { (setup : Setup) (calls : List Call) → StandsFor setup calls self.old
            → OnOk result (StandsFor setup (control (controlled pdu.now) ∷ calls) self.new) }
        ensures settings { settings_of self.new ≡ settings_of self.old }
        ensures err { OnErr result (self.new ≡ self.old) }
        ensures memory { (setup : Setup) (calls : List Call) → StandsFor setup calls self.old
            → OnErr result (control_heard (snapshot_of setup (steps_of calls)).place pdu.now ≡ ControlHeard.Left) }
        ensures slot { (setup : Setup) (calls : List Call) → StandsFor setup calls self.old
            → OnErr result (IsSome (slot_of (snapshot_of setup (steps_of calls)).place)) }
    {
        let was_on_group = self.scan.is_on_group();
        let heard = self.scan.control(pdu)?;
        self.settle(was_on_group);
        Ok(heard)
    }

    /// Hears a PDU in a subevent, from 0, of an event of a stream (Core 5.2, volume 6 part B, section 4.4.6), and answers the
    /// first that holds: the sink is on no group; it doesn't take the stream; the subevent carries no payload; else what the
    /// stream's receiver makes of it. It takes no memory.
    pub fn hear(&mut self, event: u64, bis: Bis, subevent: u8, pdu: &[u8]) -> Hearing
        requires { event ≤ 2 ^ 39 }
        ensures answer { (setup : Setup) (calls : List Call) → StandsFor setup calls self.old
            → result ≡ hearing_of (group_calls setup calls) event bis subevent pdu.now }
        ensures stands { (setup : Setup) (calls : List Call) → StandsFor setup calls self.old
            → StandsFor setup (hear event bis subevent pdu.now ∷ calls) self.new }
        ensures settings { settings_of self.new ≡ settings_of self.old }
    {
        self.sink.hear(event, bis, subevent, pdu)
    }

    /// Hears what the subevents of an event of a stream bring, from subevent 0 on, as `hear` does each PDU that isn't lost. It takes
    /// no memory.
    #[inline(always)]
    pub fn hear_event<E: StreamEvent>(&mut self, event: u64, bis: Bis, sent: &E)
        requires { event ≤ 2 ^ 39 }
        ensures stands { (setup : Setup) (calls : List Call) → StandsFor setup calls self.old
            → StandsFor setup (heard_calls event bis (E.pdus sent.now) calls) self.new }
        ensures settings { settings_of self.new ≡ settings_of self.old }
    {
        self.sink.hear_event(event, bis, sent);
    }

    /// What `hear` would answer. It changes nothing.
    pub fn would_answer(&self, event: u64, bis: Bis, subevent: u8, pdu: &[u8]) -> Hearing
        requires { event ≤ 2 ^ 39 }
        ensures { (setup : Setup) (calls : List Call) → StandsFor setup calls self.now
            → result ≡ hearing_of (group_calls setup calls) event bis subevent pdu.now }
    {
        self.sink.would_answer(event, bis, subevent, pdu)
    }

    /// All events up to this one are over: closes the open event of each stream where it is at most this event, and hands its
    /// units, the streams by rising index. After a fault of the taker no unit more is handed, and the event is closed for each
    /// stream. It takes no memory.
    pub fn tick<T: UnitTaker>(&mut self, event: u64, taker: &mut T) -> Result<(), TakerFault>
        requires { event < 2 ^ 39 }
        ensures hands { (setup : Setup) (calls : List Call) → StandsFor setup calls self.old
            → HandsOver (handed_at (group_calls setup calls) event) (T.calls taker.old) (T.calls taker.new) result }
        ensures stands { (setup : Setup) (calls : List Call) → StandsFor setup calls self.old
            → StandsFor setup (tick event ∷ calls) self.new }
        ensures settings { settings_of self.new ≡ settings_of self.old }
        ensures cause { Caused (T.counts taker.old) (T.counts taker.new) result }
    {
        self.sink.tick(event, taker)
    }

    /// The first notice that waits, its value cut to the MTU but three octets where an MTU is set. It takes no memory.
    pub fn next_notice(&mut self) -> Option<Notice>
        ensures notice { result ≡ option_map (handed_out self.old.scan.mtu) (slice_get self.old.scan.waiting 0) }
        ensures step { self.new ≡ record self.old { scan = step_on notified self.old.scan } }
        ensures answer { (setup : Setup) (calls : List Call) → StandsFor setup calls self.old
            → result ≡ option_map (handed_out (mtu_in (steps_of calls))) (slice_get (waiting setup (steps_of calls)) 0) }
        ensures stands { (setup : Setup) (calls : List Call) → StandsFor setup calls self.old
            → StandsFor setup (control notified ∷ calls) self.new }
        ensures settings { settings_of self.new ≡ settings_of self.old }
    {
        self.scan.next_notice()
    }

    /// How many slots there are.
    pub fn slot_count(&self) -> u8
        ensures count { result ≡ self.now.scan.setup.slots }
        ensures setup { (setup : Setup) (calls : List Call) → StandsFor setup calls self.now → result ≡ setup.slots }
    {
        self.scan.slot_count()
    }

    /// The value of a slot, which exists (Broadcast Audio Scan Service 1.0, section 3.2). Memory is wanted only where it is
    /// filled.
    pub fn read_state(&self, slot: u8) -> Result<Octets, Memory>
        requires { slot < self.now.scan.setup.slots }
        ensures value { (setup : Setup) (calls : List Call) → StandsFor setup calls self.now
            → IfOk result (λ octets. octets ≡ value_at (snapshot_of setup (steps_of calls)) slot) }
        ensures memory { (setup : Setup) (calls : List Call) → StandsFor setup calls self.now
            → OnErr result (IsSome (entry_at (snapshot_of setup (steps_of calls)).slots slot)) }
    {
        self.scan.read_state(slot)
    }

    // The receivers are dropped where the control half was on a group and is on none now.
    pub(crate) fn settle(&mut self, was_on_group: bool)
        ensures scan { self.new.scan ≡ self.old.scan }
        ensures sink { (calls : List sinks.Call) → SinkStands calls self.old.sink
            → SinkStands (with_leave was_on_group (has_group self.old.scan.snapshot.place) calls) self.new.sink }
    {
        if has_left(was_on_group, self.scan.is_on_group()) {
            self.sink.leave();
        }
    }
}

/// Whether a sink that was on a group, or not, and is on one, or not, left one.
fn has_left(was: bool, is: bool) -> bool
    ensures { result ≡ (was && not is) }
{
    was && !is
}
