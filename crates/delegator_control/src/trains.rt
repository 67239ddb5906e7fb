//! What a train brings that is heard, and how the sink follows it.
ghost use Rattle.std.specs.Prelude.{◌≡◌, ◌≤◌, ◌<◌, ◌∷◌, ◌^◌, List, vec_len, is_some, false, true, Some, None, IfOk, OnOk, OnErr};
ghost use Rattle.base_grammar.specs.Reading.{wants};
ghost use Rattle.big_info.specs.Rows.{first_fault};
ghost use Rattle.big_info.specs.Widths.{FitsWidths};
ghost use Rattle.delegator_history.specs.Snapshots.{entry_at};
ghost use Rattle.delegator_history.specs.States.{Step, train_heard};
ghost use Rattle.delegator_history.specs.Trains as trains;
ghost use Rattle.delegator_history.specs.Trains.{answer_of, base_in, big_info_in, outcome_by, by_base, by_big_info};
ghost use Rattle.delegator_history.specs.Trains.{by_group, by_slot, by_streams, done_by_outcome, first_candidates, heard};
ghost use Rattle.delegator_history.specs.declared.train_heard.TrainHeard.TheVariants as answers;
ghost use Rattle.delegator_choices.specs.State.Brings.{outcome_of};
ghost use Rattle.delegator_control.specs.Following.{has_base, is_followed};
ghost use Rattle.delegator_control.specs.State.Brings.{train_of, IsOutcome};
ghost use Rattle.delegator_control.specs.State.Machines.{machine, moved, StandsFor};

use crate::kept_base::KeptBase;
use crate::scan_delegator::ScanDelegator;
use crate::train::{Train, base_octets, big_info_octets};
use base_grammar::{Base, BaseFault, broadcast_id};
use bass_operations::Wishes;
use bcast_base::{BisSet, Memory};
use big_info::{BigInfo, Group, check_group_within, decode_big_info};
use delegator_choices::{Chosen, Sought, TrainOutcome, big_sync_at, choose, find_slot};
use delegator_history::TrainHeard;

/// The octets of the BIGInfo of an encrypted group.
const ENCRYPTED_BIG_INFO: usize = 57;

impl ScanDelegator {
    /// For `bring`, where no BASE is to be kept. It takes no memory.
    pub fn keeps_none(&self) -> KeptBase {
        KeptBase::never(self.alloc)
    }

    /// What a train brings that is heard at `now` in µs: the first answer that holds (Basic Audio Profile 1.0, sections
    /// 3.7.2 and 6.5), and the group that the sink joins where it is OnGroup. Nothing changes before it is followed. Memory is
    /// wanted only where what the train announces as BASE is one, so with none of the first four answers. Its BASE is kept for the next
    /// train, as `kept` says.
    pub fn bring(
        &self,
        kept: &mut KeptBase,
        address_type: u8,
        sid: u8,
        ext: &[u8],
        adv: &[u8],
        acad: &[u8],
        now: u64,
    ) -> Result<TrainOutcome, Memory>
        requires { now ≤ 2 ^ 61 }
        ensures outcome { IfOk result (λ outcome. outcome_of outcome ≡ outcome_by (machine self.now).setup (machine self.now).snapshot
            (record { address_type = address_type; sid = sid; ext = ext.now; adv = adv.now; acad = acad.now; now = now })) }
        ensures memory { OnErr result (has_base (outcome_by (machine self.now).setup (machine self.now).snapshot
            (record { address_type = address_type; sid = sid; ext = ext.now; adv = adv.now; acad = acad.now; now = now })) ≡ true) }
    {
        let train = Train {
            address_type,
            sid,
            ext,
            adv,
            acad,
            heard_at: now,
        };
        self.bring_train(kept, &train)
    }

    /// Follows the train that has this outcome for the sink as it is. Memory is wanted with none of the first four answers; the sink
    /// is then as before.
    pub fn follow(&mut self, outcome: TrainOutcome) -> Result<TrainHeard, Memory>
        requires { IsOutcome outcome (machine self.old) }
        ensures answer { IfOk result (λ heard. heard ≡ answer_of (outcome_of outcome)) }
        ensures step { OnOk result (machine self.new ≡ moved (done_by_outcome (outcome_of outcome)) (machine self.old)) }
        ensures err { OnErr result (machine self.new ≡ machine self.old) }
        ensures memory { OnErr result (is_followed (outcome_of outcome) ≡ true) }
        ensures stands { OnOk result ((steps : List Step) (train : trains.Train)
            → outcome_of outcome ≡ outcome_by (machine self.old).setup (machine self.old).snapshot train
            → StandsFor steps (machine self.old) → StandsFor (train_heard train ∷ steps) (machine self.new)) }
    {
        self.follow_outcome(outcome)
    }

    // By the source that it is of.
    fn bring_train(&self, kept: &mut KeptBase, train: &Train<'_>) -> Result<TrainOutcome, Memory>
        requires { train.now.heard_at ≤ 2 ^ 61 }
        ensures outcome { IfOk result (λ outcome. outcome_of outcome
            ≡ outcome_by (machine self.now).setup (machine self.now).snapshot (train_of train.now)) }
        ensures memory { OnErr result
            (has_base (outcome_by (machine self.now).setup (machine self.now).snapshot (train_of train.now)) ≡ true) }
    {
        let Some(id) = broadcast_id(train.ext) else {
            return Ok(TrainOutcome::Ignored(TrainHeard::NoBroadcastId));
        };
        let wanted = Sought::Wanted {
            address_type: train.address_type,
            sid: train.sid,
            broadcast_id: id,
        };
        let found = find_slot(&self.slots, &wanted);
        let Some(slot) = found else {
            return Ok(TrainOutcome::Ignored(TrainHeard::NotWanted));
        };
        self.bring_wanted(kept, slot, train)
    }

    // By the place of the sink, where the slot wants the train.
    fn bring_wanted(
        &self,
        kept: &mut KeptBase,
        slot: u8,
        train: &Train<'_>,
    ) -> Result<TrainOutcome, Memory>
        requires time { train.now.heard_at ≤ 2 ^ 61 }
        requires within { slot < vec_len self.now.slots }
        requires filled { is_some (entry_at self.now.slots.items slot) ≡ true }
        ensures outcome { IfOk result (λ outcome. outcome_of outcome
            ≡ by_slot (machine self.now).setup (machine self.now).snapshot (train_of train.now) (Some slot)) }
        ensures memory { OnErr result (has_base (by_slot (machine self.now).setup (machine self.now).snapshot (train_of train.now) (Some slot))
            ≡ true) }
    {
        if self.place.is_elsewhere(slot) {
            return Ok(TrainOutcome::Ignored(TrainHeard::OtherTrain));
        }
        if self.place.is_on_group(slot) {
            return Ok(TrainOutcome::Ignored(TrainHeard::AlreadyOnGroup));
        }
        let Some(held) = &self.slots[usize::from(slot)] else {
            unreachable!()
        };
        self.bring_base(kept, slot, held.wishes(), train)
    }

    // By the octets that are announced as BASE.
    fn bring_base(
        &self,
        kept: &mut KeptBase,
        slot: u8,
        wishes: &Wishes,
        train: &Train<'_>,
    ) -> Result<TrainOutcome, Memory>
        requires { train.now.heard_at ≤ 2 ^ 61 }
        ensures outcome { IfOk result (λ outcome. outcome_of outcome
            ≡ by_base (machine self.now).setup (machine self.now).snapshot.capability wishes.now slot (train_of train.now)
            (base_in train.now.adv.now)) }
        ensures memory { OnErr result
            (has_base (by_base (machine self.now).setup (machine self.now).snapshot.capability wishes.now slot (train_of train.now)
            (base_in train.now.adv.now)) ≡ true) }
    {
        let Some(octets) = base_octets(train.adv) else {
            return Ok(heard_so(slot, TrainHeard::NoBase, None));
        };
        match kept.take(self.alloc, octets) {
            Ok(base) => {
                let outcome = self.bring_big_info(slot, wishes, train, &base)?;
                kept.keep(octets, base)?;
                Ok(outcome)
            }
            Err(fault) => bad_base(slot, fault),
        }
    }

    // By the octets that are announced as BIGInfo.
    fn bring_big_info(
        &self,
        slot: u8,
        wishes: &Wishes,
        train: &Train<'_>,
        base: &Base,
    ) -> Result<TrainOutcome, Memory>
        requires { train.now.heard_at ≤ 2 ^ 61 }
        ensures { IfOk result (λ outcome. outcome_of outcome
            ≡ by_big_info (machine self.now).setup (machine self.now).snapshot.capability wishes.now slot (train_of train.now) base.now
            (big_info_in train.now.acad.now)) }
    {
        let Some(octets) = big_info_octets(train.acad) else {
            return Ok(heard_so(slot, TrainHeard::NoBigInfo, None));
        };
        match decode_big_info(octets) {
            Err(_) => Ok(heard_so(slot, TrainHeard::BadBigInfo, None)),
            Ok(info) => {
                let encrypted = octets.len() == ENCRYPTED_BIG_INFO;
                self.bring_info(slot, wishes, train, base, &info, encrypted)
            }
        }
    }

    // By the check of the group.
    fn bring_info(
        &self,
        slot: u8,
        wishes: &Wishes,
        train: &Train<'_>,
        base: &Base,
        info: &BigInfo,
        encrypted: bool,
    ) -> Result<TrainOutcome, Memory>
        requires time { train.now.heard_at ≤ 2 ^ 61 }
        requires widths { FitsWidths info.now }
        ensures { IfOk result (λ outcome. outcome_of outcome
            ≡ by_group (machine self.now).setup (machine self.now).snapshot.capability wishes.now slot
            (train_of train.now) base.now info.now encrypted (first_fault self.now.limits.horizon info.now)) }
    {
        match check_group_within(info, self.limits) {
            Err(fault) => Ok(heard_so(slot, TrainHeard::BadGroup(fault), Some(encrypted))),
            Ok(group) => self.bring_group(slot, wishes, train, base, &group, encrypted),
        }
    }

    // By the candidates.
    fn bring_group(
        &self,
        slot: u8,
        wishes: &Wishes,
        train: &Train<'_>,
        base: &Base,
        group: &Group,
        encrypted: bool,
    ) -> Result<TrainOutcome, Memory>
        requires { train.now.heard_at ≤ 2 ^ 61 }
        ensures { IfOk result (λ outcome. outcome_of outcome
            ≡ by_streams slot (train_of train.now) base.now group.now.info encrypted
            (first_candidates self.now.capability base.now group.now.info.num_bis self.now.streams wishes.now base.now.subgroups)) }
    {
        let num_bis = group.info.num_bis;
        let Chosen { bits, which } = choose(
            self.alloc,
            &self.capability,
            base,
            wishes,
            num_bis,
            self.streams,
        )?;
        if which == BisSet::new() {
            return Ok(heard_so(slot, TrainHeard::NoneTaken, Some(encrypted)));
        }
        Ok(TrainOutcome::Taken {
            slot,
            bits,
            encrypted,
            big_sync: big_sync_at(group, which, base.delay(), train.heard_at),
        })
    }

    // Goes where a train brings the sink, and answers the train. After want of memory the sink is where it was.
    fn follow_outcome(&mut self, outcome: TrainOutcome) -> Result<TrainHeard, Memory>
        requires { IsOutcome outcome (machine self.old) }
        ensures answer { IfOk result (λ heard. heard ≡ answer_of (outcome_of outcome)) }
        ensures step { OnOk result (machine self.new ≡ moved (done_by_outcome (outcome_of outcome)) (machine self.old)) }
        ensures err { OnErr result (machine self.new ≡ machine self.old) }
        ensures memory { OnErr result (is_followed (outcome_of outcome) ≡ true) }
    {
        match outcome {
            TrainOutcome::Ignored(answer) => Ok(answer),
            TrainOutcome::Heard {
                slot,
                answer,
                encrypted,
            } => {
                self.go_on_train(slot, encrypted)?;
                Ok(answer)
            }
            TrainOutcome::Taken {
                slot,
                bits,
                encrypted,
                big_sync,
            } => {
                self.go_on_group(slot, bits, encrypted)?;
                Ok(TrainHeard::OnGroup(big_sync.which))
            }
        }
    }
}

/// The sink is then on the train.
fn heard_so(slot: u8, answer: TrainHeard, encrypted: Option<bool>) -> TrainOutcome
    ensures { outcome_of result ≡ heard slot answer encrypted }
{
    TrainOutcome::Heard {
        slot,
        answer,
        encrypted,
    }
}

/// What octets bring that are no BASE.
fn bad_base(slot: u8, fault: BaseFault) -> Result<TrainOutcome, Memory>
    ensures outcome { IfOk result (λ outcome. (wants fault ≡ false) × (outcome_of outcome ≡ heard slot answers.BadBase None)) }
    ensures memory { OnErr result (wants fault ≡ true) }
{
    match fault {
        BaseFault::Memory => Err(Memory),
        _ => Ok(heard_so(slot, TrainHeard::BadBase, None)),
    }
}
