//! A train that is heard.
ghost use Rattle.std.specs.Prelude.{◌≡◌, ◌≤◌, ◌^◌, ◌∷◌, List, option_copied, option_map, true, None, Some, IfOk, IsSome, OnOk, OnErr};
ghost use Rattle.delegator_history.specs.States.{snapshot_of, train_heard};
ghost use Rattle.delegator_history.specs.Trains.{Setup, Train, answer_of, outcome_by};
ghost use Rattle.group_sink.specs.Calls as sinks;
ghost use Rattle.sync_reference.specs.BigSync.{BigSync};
ghost use Rattle.group_sink.specs.State.Sinks.{StandsFor as SinkStands};
ghost use Rattle.group_sink.specs.State.Steps.{fresh_on};
ghost use Rattle.delegator_control.specs.Following.{is_followed};
ghost use Rattle.delegator_machine.specs.Calls.{Call, control, steps_of};
ghost use Rattle.delegator_machine.specs.Groups.{by_numbers};
ghost use Rattle.delegator_machine.specs.State.Halves.{StandsFor, settings_of};
ghost use Rattle.delegator_machine.specs.Trains.{train_of};

use crate::delegator::Delegator;
use crate::numbers::by_numbers;
use bcast_base::Memory;
use delegator_control::KeptBase;
use delegator_history::TrainHeard;
use group_sink::{GroupReceivers, GroupSink};
use sync_reference::BigSync;

impl Delegator {
    /// Hears a train, at this time in µs: the data of its extended advertising, of its periodic advertising, and its additional
    /// controller data (Basic Audio Profile 1.0, sections 3.7.2 and 6.5). The answer is the first that holds. The first four
    /// change nothing, and want no memory; a train that is taken synchronizes the sink to its BIG. After want of memory all is as
    /// before.
    pub fn train(
        &mut self,
        address_type: u8,
        sid: u8,
        ext: &[u8],
        adv: &[u8],
        acad: &[u8],
        now: u64,
    ) -> Result<TrainHeard, Memory>
        requires { now ≤ 2 ^ 61 }
        ensures answer { let train : Train = train_of address_type sid ext.now adv.now acad.now now in
            (setup : Setup) (calls : List Call) → StandsFor setup calls self.old
            → IfOk result (λ heard. heard ≡ answer_of (outcome_by setup (snapshot_of setup (steps_of calls)) train)) }
        ensures stands { let train : Train = train_of address_type sid ext.now adv.now acad.now now in
            (setup : Setup) (calls : List Call) → StandsFor setup calls self.old
            → OnOk result (StandsFor setup (control (train_heard train) ∷ calls) self.new) }
        ensures settings { settings_of self.new ≡ settings_of self.old }
        ensures err { OnErr result (self.new ≡ self.old) }
        ensures memory { let train : Train = train_of address_type sid ext.now adv.now acad.now now in
            (setup : Setup) (calls : List Call) → StandsFor setup calls self.old
            → OnErr result (is_followed (outcome_by setup (snapshot_of setup (steps_of calls)) train) ≡ true) }
    {
        let mut kept = self.scan.keeps_none();
        self.train_keeping(&mut kept, address_type, sid, ext, adv, acad, now)
    }

    /// The same, where a BASE that is kept of an earlier train isn't read again, and the BASE of this one takes its place.
    pub fn train_keeping(
        &mut self,
        kept: &mut KeptBase,
        address_type: u8,
        sid: u8,
        ext: &[u8],
        adv: &[u8],
        acad: &[u8],
        now: u64,
    ) -> Result<TrainHeard, Memory>
        requires { now ≤ 2 ^ 61 }
        ensures answer { let train : Train = train_of address_type sid ext.now adv.now acad.now now in
            (setup : Setup) (calls : List Call) → StandsFor setup calls self.old
            → IfOk result (λ heard. heard ≡ answer_of (outcome_by setup (snapshot_of setup (steps_of calls)) train)) }
        ensures stands { let train : Train = train_of address_type sid ext.now adv.now acad.now now in
            (setup : Setup) (calls : List Call) → StandsFor setup calls self.old
            → OnOk result (StandsFor setup (control (train_heard train) ∷ calls) self.new) }
        ensures settings { settings_of self.new ≡ settings_of self.old }
        ensures err { OnErr result (self.new ≡ self.old) }
        ensures memory { let train : Train = train_of address_type sid ext.now adv.now acad.now now in
            (setup : Setup) (calls : List Call) → StandsFor setup calls self.old
            → OnErr result (is_followed (outcome_by setup (snapshot_of setup (steps_of calls)) train) ≡ true) }
    {
        let outcome = self
            .scan
            .bring(kept, address_type, sid, ext, adv, acad, now)?;
        let made = receivers_of(&self.sink, outcome.big_sync())?;
        let heard = self.scan.follow(outcome)?;
        join(&mut self.sink, made);
        Ok(heard)
    }
}

/// The receivers of a group that a train brings.
fn receivers_of(
    sink: &GroupSink,
    big_sync: Option<&BigSync>,
) -> Result<Option<GroupReceivers>, Memory>
    ensures made { IfOk result (λ made. made ≡ option_map (λ big_sync. fresh_on (by_numbers big_sync)) (option_copied big_sync.entry)) }
    ensures memory { OnErr result (IsSome (option_copied big_sync.entry)) }
{
    let Some(big_sync) = big_sync else {
        return Ok(None);
    };
    let made = sink.receivers(&by_numbers(big_sync))?;
    Ok(Some(made))
}

/// Puts the sink on the group of these receivers, where there are any.
fn join(sink: &mut GroupSink, made: Option<GroupReceivers>)
    ensures none { made ≡ None → sink.new ≡ sink.old }
    ensures some { (big_sync : BigSync) (calls : List sinks.Call) → made ≡ Some (fresh_on big_sync)
        → SinkStands (sinks.tune big_sync ∷ calls) sink.new }
{
    if let Some(receivers) = made {
        sink.sync_to_group(receivers);
    }
}
