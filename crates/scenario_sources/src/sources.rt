ghost use Rattle.std.specs.Prelude.{◌≡◌, ◌≤◌, ◌<◌, ◌^◌, ◌∷◌, ℕ, vec_len, IfOk, IfErr, List, [], None, Some, true, false};
ghost use Rattle.std.specs.Option.{ForSome};
ghost use Rattle.big_info.specs.Widths.{FitsWidths};

use crate::announcing::announce;
use crate::basing::{add_stream, give_metadata, open_subgroup};
use crate::describing::{describe, encrypt, identify};
use crate::identity::identity_in;
use crate::performed::Performed;
use crate::phase::Phase;
use crate::place::{Place, event_in, group_in, heard_in, last_in, sent_in};
use crate::sending::{
    big_sync_in, give, is_sending_in, open, perform, relayed_in, stop, taking_in, terminate,
};
use crate::starting::{begin, check_start, is_twice};
use crate::terminated::Terminated;
use announcement_train::Train;
use bcast_base::{Bis, BisSet, Memory};
use big_info::{BigInfo, Cipher, Group, Limits};
use source_machine::{Identity, SentStream};
use std::alloc::Global;
use sync_reference::BigSync;
use transcript_text::{Refusal, Stop};

/// The two sources of a scenario, 0 and 1, and the one that was chosen last.
#[derive(Drop)]
pub struct Sources {
    alloc: Global,
    chosen: u8,
    phases: Vec<Phase>,
    ghost two: { vec_len phases ≡ 2 },
    ghost is_one: { chosen < 2 },
}

impl Sources {
    ghost use Rattle.source_machine.specs.Airs.{airs_of};
    ghost use Rattle.ltv_codec.specs.Reading.{bad_of};
    ghost use Rattle.scenario_text.specs.declared.step.Step.{Step};
    ghost use Rattle.scenario_text.specs.declared.step.Step.TheVariants.{Ident as IdentStep, Subgroup as SubgroupStep, Meta as MetaStep};
    ghost use Rattle.scenario_text.specs.declared.step.Step.TheVariants.{Bis as BisStep, Cipher as CipherStep};
    ghost use Rattle.scenario_text.specs.declared.step.Step.TheVariants.{Start as StartStep, Unit as UnitStep};
    ghost use Rattle.scenario_text.specs.declared.step.Step.TheVariants.{Stop as StopStep, Source as SourceStep};
    ghost use Rattle.scenario_history.specs.Refusals.{no_place, relayed_or};
    ghost use Rattle.sink_history.specs.History.{horizon_in};
    ghost use Rattle.scenario_history.specs.Source.{event_back, identity_of, is_ahead_in, is_heard, is_sending, open_event, pdu_in};
    ghost use Rattle.scenario_history.specs.Steps.{chosen_of, chosen_steps, is_over, running, stage_of, steps_of_source};
    ghost use Rattle.scenario_sources.specs.Answers.{AnnouncesAs, Answers, Closes, GroupIs, JoinsAs};
    ghost use Rattle.scenario_sources.specs.Answers.{LastIs, NoPlace, Performs, SentIs, TakesAs, Terminates};
    ghost use Rattle.scenario_sources.specs.Described.{IsPlain, group_step};
    ghost use Rattle.scenario_sources.specs.Faults.{fault_of};
    ghost use Rattle.scenario_sources.specs.State.Standing.{SourcesStand};

    /// Two sources of which nothing was said; 0 is chosen.
    pub fn new(alloc: Global) -> Result<Sources, Memory>
        ensures { IfOk result (λ sources. SourcesStand [] sources) }
    {
        Ok(Sources {
            alloc,
            chosen: 0,
            phases: vec![in alloc; Phase::Absent, Phase::Absent]?,
        })
    }

    /// The source that was chosen last.
    pub fn chosen(&self) -> u8
        ensures source { (steps : List Step) → SourcesStand steps self.now → result ≡ chosen_of steps }
        ensures within { result < 2 }
    {
        self.chosen
    }

    /// `source`: chooses the source that later lines mean.
    pub fn choose(&mut self, source: u8)
        requires { source < 2 }
        ensures { (steps : List Step) → SourcesStand steps self.old → SourcesStand (SourceStep source ∷ steps) self.new }
    {
        self.chosen = source;
    }

    /// `group`: describes the chosen source, once; else it is refused with Order. The anchor of the first event and the
    /// presentation delay are in µs. It takes no memory.
    pub fn describe(&mut self, info: BigInfo, origin: u64, delay: u32) -> Result<(), Stop>
        requires widths { FitsWidths info }
        requires least { 3000 ≤ origin }
        requires greatest { origin ≤ 2 ^ 48 }
        requires delay { delay < 2 ^ 24 }
        ensures { (version : ℕ) (steps : List Step) → IsPlain info → SourcesStand steps self.old
            → Answers version steps (group_step info origin delay) self.new result }
    {
        describe(
            self.alloc,
            &mut self.phases[self.chosen as usize],
            info,
            origin,
            delay,
        )
    }

    /// `ident`: names the chosen source, once, between `group` and `start`; else it is refused with Order. It takes no
    /// memory.
    pub fn identify(&mut self, identity: Identity) -> Result<(), Stop>
        ensures { (version : ℕ) (steps : List Step) → SourcesStand steps self.old
            → Answers version steps (IdentStep identity.address_type identity.address identity.sid identity.broadcast_id) self.new result }
    {
        identify(&mut self.phases[self.chosen as usize], identity)
    }

    /// `subgroup`: opens a subgroup of the chosen source's BASE with this Codec_ID and this configuration, an LTV list. It is
    /// refused with Order outside `group` and `start`, and while the last subgroup has no stream.
    pub fn open_subgroup(&mut self, codec: [u8; 5], config: &[u8]) -> Result<(), Stop>
        requires { bad_of config.now ≡ None }
        ensures { (version : ℕ) (steps : List Step) → SourcesStand steps self.old
            → Answers version steps (SubgroupStep codec config.now) self.new result }
    {
        open_subgroup(&mut self.phases[self.chosen as usize], codec, config)
    }

    /// `meta`: gives the last subgroup this metadata, an LTV list, in place of what it had. It is refused with Order outside
    /// a first `subgroup` and `start`.
    pub fn give_metadata(&mut self, metadata: &[u8]) -> Result<(), Stop>
        requires { bad_of metadata.now ≡ None }
        ensures { (version : ℕ) (steps : List Step) → SourcesStand steps self.old
            → Answers version steps (MetaStep metadata.now) self.new result }
    {
        give_metadata(&mut self.phases[self.chosen as usize], metadata)
    }

    /// `bis`: adds a stream with this configuration, an LTV list, to the last subgroup. The first refusal that holds is
    /// answered: Order outside a first `subgroup` and `start`, NoSuchBis where the group has no stream of this index or the
    /// index stands.
    pub fn add_stream(&mut self, bis: Bis, config: &[u8]) -> Result<(), Stop>
        requires { bad_of config.now ≡ None }
        ensures { (version : ℕ) (steps : List Step) → SourcesStand steps self.old
            → Answers version steps (BisStep bis config.now) self.new result }
    {
        add_stream(&mut self.phases[self.chosen as usize], bis, config)
    }

    /// `cipher`: encrypts the group of the chosen source, once, between `group` and `start`; else it is refused with Order.
    /// Such a source is announced and ended alone. It takes no memory.
    pub fn encrypt(&mut self, cipher: Cipher) -> Result<(), Stop>
        ensures { (version : ℕ) (steps : List Step) → SourcesStand steps self.old
            → Answers version steps (CipherStep cipher.giv cipher.gskd) self.new result }
    {
        encrypt(&mut self.phases[self.chosen as usize], cipher)
    }

    /// `start`: starts the chosen source, once, with this first event. The first refusal that holds is answered: Order
    /// without a group, and while the last subgroup has no stream; BadGroup where a row of the group check but that of a
    /// cipher holds within the limits; BaseTooLong where the BASE has more than 252 octets; IdentTwice where the other source
    /// was started with the same address type, SID and Broadcast_ID.
    pub fn start(&mut self, limits: Limits, first: u64) -> Result<(), Stop>
        requires limits { limits.horizon ≤ 31 }
        requires first { first < 2 ^ 39 }
        ensures { (version : ℕ) (steps : List Step) → limits.horizon ≡ horizon_in version → limits.ahead ≡ is_ahead_in version
            → stage_of steps ≡ running version
            → SourcesStand steps self.old → Answers version steps (StartStep first) self.new result }
    {
        let ready = match check_start(self.alloc, &self.phases[self.chosen as usize], limits) {
            Ok(ready) => ready,
            Err(stop) => return Err(stop),
        };
        if is_twice(ready.identity, &self.phases[(1 - self.chosen) as usize]) {
            return Err(Stop::Refused(Refusal::IdentTwice));
        }
        begin(
            self.alloc,
            &mut self.phases[self.chosen as usize],
            ready,
            limits,
            first,
        )
    }

    /// `unit`: gives the chosen source a unit of a stream. The first refusal that holds is answered: Order outside its start
    /// and its stop, NoSuchBis, UnitTooLong, TimeOrder, Backlog.
    #[inline(always)]
    pub fn give(&mut self, bis: Bis, time: Option<u64>, octets: &[u8]) -> Result<(), Stop>
        ensures { (version : ℕ) (steps : List Step) → SourcesStand steps self.old
            → Answers version steps (UnitStep bis time octets.now) self.new result }
    {
        give(&mut self.phases[self.chosen as usize], bis, time, octets)
    }

    /// Why the chosen source refuses a unit of a stream that has had a relay: the first reason that holds of Order, NoSuchBis,
    /// UnitTooLong, TimeOrder and Relayed.
    pub fn relayed(&self, bis: Bis, time: Option<u64>, octets: &[u8]) -> Refusal
        ensures { (version : ℕ) (steps : List Step) → SourcesStand steps self.now
            → relayed_or true (fault_of version steps (UnitStep bis time octets.now)) ≡ Some result }
    {
        relayed_in(&self.phases[self.chosen as usize], bis, time, octets)
    }

    /// `event`: performs the next event of the chosen source, and answers the one that it closes, and the units that its
    /// streams left out. The first refusal that holds is answered: Order outside its start and its stop, CounterEnds. After
    /// want of memory the source has failed.
    pub fn perform(&mut self) -> Result<Performed, Stop>
        ensures performs { (version : ℕ) (steps : List Step) → SourcesStand steps self.old → Performs version steps self.new result }
        ensures within { IfOk result (λ performed. ForSome performed.closed (λ event. event < 2 ^ 39)) }
    {
        perform(&mut self.phases[self.chosen as usize])
    }

    /// `stop`: stops the chosen source, and answers the event that it closes. It is refused with Order outside its start and
    /// its stop. It takes no memory.
    pub fn stop(&mut self) -> Result<Option<u64>, Stop>
        ensures closes { (version : ℕ) (steps : List Step) → SourcesStand steps self.old → Closes version steps StopStep self.new result }
        ensures within { IfOk result (λ closed. ForSome closed (λ event. event < 2 ^ 39)) }
    {
        stop(&mut self.phases[self.chosen as usize])
    }

    /// `terminate`: ends the group of the chosen source for this reason, and answers the event that it closes, and the PDU
    /// that says so. It is refused with Order outside its start and its end. It takes no memory.
    pub fn terminate(&mut self, reason: u8) -> Result<Terminated, Stop>
        ensures ends { (version : ℕ) (steps : List Step) → SourcesStand steps self.old → Terminates version steps reason self.new result }
        ensures within { IfOk result (λ terminated. ForSome terminated.closed (λ event. event < 2 ^ 39)) }
    {
        terminate(&mut self.phases[self.chosen as usize], reason)
    }

    /// Whether the chosen source is between its start and its end.
    pub fn is_sending(&self) -> bool
        ensures { (steps : List Step) → SourcesStand steps self.now → result ≡ is_sending (chosen_steps steps) }
    {
        is_sending_in(&self.phases[self.chosen as usize])
    }

    /// `announce`: the train of the chosen source for its next event (Basic Audio Profile 1.0, section 3.7.2). The first
    /// refusal that holds is answered: Order outside its start and its end, CounterEnds where the payload count of the event
    /// is 2^39 or more. A source of an encrypted group announces too.
    pub fn announce(&self) -> Result<Train, Stop>
        ensures announces { (steps : List Step) → SourcesStand steps self.now → AnnouncesAs (chosen_steps steps) result }
        ensures within { IfOk result (λ train. train.time ≤ 2 ^ 61) }
    {
        announce(&self.phases[self.chosen as usize])
    }

    /// Who the chosen source is. Without `ident` it is of type 0, and its address, its SID and its Broadcast_ID are 0.
    pub fn identity(&self) -> Identity
        ensures { (steps : List Step) → SourcesStand steps self.now → result ≡ identity_of (chosen_steps steps) }
    {
        identity_in(&self.phases[self.chosen as usize])
    }

    /// The open event of a source, before `end`.
    pub fn open(&self, source: u8) -> Option<u64>
        requires { source < 2 }
        ensures event { (steps : List Step) → SourcesStand steps self.now → is_over (steps_of_source source steps) ≡ false
            → result ≡ open_event (steps_of_source source steps) }
        ensures within { ForSome result (λ event. event < 2 ^ 39) }
    {
        open(&self.phases[source as usize])
    }

    /// The group of a source, be it chosen or not; `None` exactly outside its start and its end, and where its group is encrypted.
    pub fn taking(&self, source: u8) -> Option<Group>
        requires { source < 2 }
        ensures { (steps : List Step) → SourcesStand steps self.now → TakesAs (steps_of_source source steps) result }
    {
        taking_in(&self.phases[source as usize])
    }

    /// How the chosen source puts a sink on these streams of its group from its next event on; `None` exactly outside its start
    /// and its end, and where its group is encrypted.
    pub fn big_sync(&self, which: BisSet) -> Option<BigSync>
        ensures { (steps : List Step) → SourcesStand steps self.now → JoinsAs (chosen_steps steps) which result }
    {
        big_sync_in(&self.phases[self.chosen as usize], which)
    }

    /// The group of the chosen source; `None` exactly before its start, and where it is encrypted.
    pub fn group(&self) -> Option<Group>
        ensures { (steps : List Step) → SourcesStand steps self.now → GroupIs (chosen_steps steps) result }
    {
        group_in(&self.phases[self.chosen as usize])
    }

    /// The last event of the chosen source, where it performed one.
    pub fn last_event(&self) -> Option<u64>
        ensures last { (steps : List Step) → SourcesStand steps self.now → is_heard (chosen_steps steps) ≡ true
            → LastIs (chosen_steps steps) result }
        ensures within { ForSome result (λ event. event < 2 ^ 39) }
    {
        last_in(&self.phases[self.chosen as usize])
    }

    /// The event `back` events before the last one of the chosen source; 0 before its start.
    pub fn event_back(&self, back: u8) -> u64
        ensures event { (steps : List Step) → SourcesStand steps self.now → is_heard (chosen_steps steps) ≡ true
            → result ≡ event_back (chosen_steps steps) back }
        ensures within { result ≤ 2 ^ 39 }
    {
        event_in(&self.phases[self.chosen as usize], back)
    }

    /// The PDU at a place on the air of a source, be it chosen or not; the refusals are those of `heard_at`.
    pub fn sent_at(&self, source: u8, place: Place) -> Result<&[u8], Stop>
        requires source { source < 2 }
        requires back { place.back ≤ 31 }
        ensures ok { IfOk result (λ pdu. (steps : List Step) → SourcesStand steps self.now
            → (no_place (steps_of_source source steps) place.back place.bis place.subevent ≡ None)
            × (pdu.now ≡ pdu_in airs_of (steps_of_source source steps) (event_back (steps_of_source source steps) place.back)
            place.bis place.subevent)) }
        ensures err { IfErr result (λ stop. (steps : List Step) → SourcesStand steps self.now
            → is_heard (steps_of_source source steps) ≡ true
            → NoPlace (steps_of_source source steps) place.back place.bis place.subevent stop) }
    {
        heard_in(&self.phases[source as usize], place)
    }

    /// The PDUs that a stream of the chosen source sent in its last event, by rising subevent. None comes before its start, and where
    /// `heard_at` refuses each place of that event and stream.
    #[inline(always)]
    pub fn sent_on(&self, bis: Bis) -> Option<SentStream<'_>>
        ensures { (steps : List Step) → SourcesStand steps self.now → is_heard (chosen_steps steps) ≡ true
            → SentIs (chosen_steps steps) bis result }
    {
        sent_in(&self.phases[self.chosen as usize], bis)
    }

    /// The PDU at a place on the air of the chosen source. The first refusal that holds is answered: Order before its start,
    /// NoSuchBis, NoSuchSubevent, NotOnAir.
    #[inline(always)]
    pub fn heard_at(&self, place: Place) -> Result<&[u8], Stop>
        requires { place.back ≤ 31 }
        ensures ok { IfOk result (λ pdu. (steps : List Step) → SourcesStand steps self.now
            → (no_place (chosen_steps steps) place.back place.bis place.subevent ≡ None)
            × (pdu.now ≡ pdu_in airs_of (chosen_steps steps) (event_back (chosen_steps steps) place.back) place.bis place.subevent)) }
        ensures err { IfErr result (λ stop. (steps : List Step) → SourcesStand steps self.now → is_heard (chosen_steps steps) ≡ true
            → NoPlace (chosen_steps steps) place.back place.bis place.subevent stop) }
    {
        heard_in(&self.phases[self.chosen as usize], place)
    }
}
