ghost use Rattle.std.specs.Prelude.{◌≡◌, ◌≤◌, ◌<◌, ◌-◌, ◌^◌, ◌*◌, ◌++◌, ◌∷◌, ℕ, List, []};
ghost use Rattle.std.specs.Prelude.{length, Some, None, false, true, is_some, slice_set, IfOk, IfErr, OnOk, OnErr};
ghost use Rattle.circular_buffer.specs.Buffer.{keep_last};
ghost use Rattle.big_info.specs.Widths.{FitsWidths};
ghost use Rattle.isoal_base.specs.Air.{Air as StreamAir};
ghost use Rattle.source_machine.specs.Airs.{AreAirs, stale_of};
ghost use Rattle.source_machine.specs.Calls.{Setup as Fixed, Call, event as performs};
ghost use Rattle.source_machine.specs.Faults.{event_fault, refused_event};
ghost use Rattle.source_machine.specs.Ciphers.{MayBeSent};
ghost use Rattle.source_machine.specs.Setups.{configured};
ghost use Rattle.multi_source.specs.State.Fields.{EventLeaves, HasOwnAir, IsPlain, Sending, fault_of, is_taken};

use bcast_base::{Bis, EventPdus};
use big_info::{GroupFault, Limits};
use radio_schedule::{Air, AirFault};
use source_machine::{
    ConfigureFault, EventFault, Identity, Setup, SourceIdle, SourceStreaming, StaleList,
};
use std::alloc::Global;

/// Why a source was not started.
#[derive(Clone, Copy, Debug, PartialEq, Eq)]
pub enum FieldFault {
    /// The first row of the group check that holds.
    BadGroup(GroupFault),
    /// The other source was started with the same address type, SID and Broadcast_ID.
    IdentTwice,
    /// Memory ran out.
    Memory,
}

/// A source since its start: who it is, and what it sent last.
#[derive(Drop)]
pub(crate) struct Begun {
    identity: Identity,
    air: Air,
}

impl Begun {
    /// Puts an event on the air.
    fn put(&mut self, sent: EventPdus)
        requires { length sent ≡ self.old.air.num_bis * self.old.air.nse }
        ensures { self.new ≡ record self.old { air = record self.old.air { events = keep_last 32 (self.old.air.events ++ sent ∷ []) } } }
    {
        self.air.push(sent);
    }
}

/// Two sources, numbered 0 and 1, each with its air, and which of them a sink is of.
#[derive(Drop)]
pub struct Field {
    alloc: Global,
    one: Option<SourceStreaming>,
    other: Option<SourceStreaming>,
    one_begun: Option<Begun>,
    other_begun: Option<Begun>,
    sinks: [Option<u8>; 8],
}

impl Field {
    ghost use Rattle.std.specs.Borrow.{sem};
    ghost use Rattle.std.specs.Option.{option_map};
    ghost use Rattle.radio_schedule.specs.OnAir.{fault_at, pdu_at};
    ghost use Rattle.multi_source.specs.declared.field.Begun.{Begun as HeardSince};
    ghost use Rattle.multi_source.specs.State.Fields.{LendsSource, OthersStay, StartFails, Starts, begun_of, sink_of, source_of};

    /// Two sources that weren't started, of which no sink is. It takes no memory.
    pub fn new(alloc: Global) -> Field
        ensures sources { (s : ℕ) → (source_of result s ≡ None) × (begun_of result s ≡ None) }
        ensures sinks { (sink : ℕ) → sink < 8 → sink_of result sink ≡ Some None }
    {
        Field {
            alloc,
            one: None,
            other: None,
            one_begun: None,
            other_begun: None,
            sinks: [None; 8],
        }
    }

    /// Starts a source with this first event. Nothing is on its air.
    ///
    /// The first refusal that holds is answered: BadGroup where a row of the group check but Encrypted holds by these
    /// limits, IdentTwice where the other source was started with the same address type, SID and Broadcast_ID, be it
    /// stopped or not. Neither takes memory, so want of memory comes only where neither holds. A refusal changes nothing.
    pub fn start(
        &mut self,
        s: u8,
        setup: Setup,
        limits: Limits,
        first: u64,
    ) -> Result<(), FieldFault>
        requires number { s ≤ 1 }
        requires unbegun { begun_of self.old s ≡ None }
        requires widths { FitsWidths setup.info }
        requires horizon { limits.horizon ≤ 31 }
        requires least { 3000 ≤ setup.origin }
        requires greatest { setup.origin ≤ 2 ^ 48 }
        requires first { first < 2 ^ 39 }
        ensures ok { OnOk result (Starts (configured setup limits.ahead) first (source_of self.new s) (begun_of self.new s)) }
        ensures checked { OnOk result (MayBeSent limits.horizon setup.info) }
        ensures single { OnOk result (is_taken setup.identity (begun_of self.old (1 - s)) ≡ false) }
        ensures others { OnOk result (OthersStay s self.old self.new) }
        ensures err { OnErr result (self.new ≡ self.old) }
        ensures cause { IfErr result (λ fault. StartFails limits.horizon setup (begun_of self.old (1 - s)) fault) }
    {
        let identity = setup.identity;
        let configured = match SourceIdle::new(self.alloc).configure_within(setup, limits) {
            Ok(configured) => configured,
            Err(kept) => return Err(field_fault(kept.fault)),
        };
        let twin = self.since(1 - s);
        if is_twin(identity, twin) {
            return Err(FieldFault::IdentTwice);
        }
        let Ok(source) = configured.start(first) else {
            return Err(FieldFault::Memory);
        };
        let Ok(air) = Air::new(self.alloc, source.group()) else {
            return Err(FieldFault::Memory);
        };
        let begun = Begun { identity, air };
        self.place(s, source, begun);
        Ok(())
    }

    /// The source between its start and its stop; `None` exactly where it isn't.
    pub fn source(&mut self, s: u8) -> Option<&mut SourceStreaming>
        requires { s ≤ 1 }
        ensures* lends { sem 𝓛 (LendsSource self.entry s result) }
        ensures value { option_map (λ source. source.now) result ≡ source_of self.old s }
    {
        if s == 0 {
            self.one.as_mut()
        } else {
            self.other.as_mut()
        }
    }

    /// Performs the next event of a source and puts it on its air, as `SourceStreaming::event` does.
    ///
    /// CounterEnds changes nothing. After want of memory the source has failed, and all else is as before.
    pub fn event(&mut self, s: u8) -> Result<StaleList, EventFault>
        requires number { s ≤ 1 }
        requires own_air { HasOwnAir (source_of self.old s) (begun_of self.old s) }
        requires plain { IsPlain (source_of self.old s) }
        ensures ok { OnOk result ((setup : Fixed) (calls : List Call) → Sending setup calls (source_of self.old s) (begun_of self.old s)
            → (event_fault setup calls ≡ None) × Sending setup (performs ∷ calls) (source_of self.new s) (begun_of self.new s)) }
        ensures stale { IfOk result (λ stale. (setup : Fixed) (calls : List Call) (airs : List StreamAir)
            → Sending setup calls (source_of self.old s) (begun_of self.old s)
            → AreAirs setup (performs ∷ calls) airs → stale ≡ stale_of setup calls airs) }
        ensures cause { IfErr result (λ fault. (setup : Fixed) (calls : List Call)
            → Sending setup calls (source_of self.old s) (begun_of self.old s)
            → event_fault setup calls ≡ refused_event fault) }
        ensures left { IfErr result (λ fault. EventLeaves fault (source_of self.old s) (source_of self.new s)) }
        ensures air { OnErr result (begun_of self.new s ≡ begun_of self.old s) }
        ensures others { OthersStay s self.old self.new }
    {
        if s == 0 {
            perform(&mut self.one, &mut self.one_begun)
        } else {
            perform(&mut self.other, &mut self.other_begun)
        }
    }

    /// The PDU that a source sent in a subevent, from 0, of the event `back` events before the last one, as `Air::heard_at`
    /// answers it. A source that was stopped is still heard.
    pub fn heard_at(&self, s: u8, back: u8, bis: Bis, subevent: u8) -> Result<&[u8], AirFault>
        requires number { s ≤ 1 }
        requires begun { is_some (begun_of self.now s) ≡ true }
        ensures ok { IfOk result (λ pdu. (begun : HeardSince) → begun_of self.now s ≡ Some begun
            → (fault_at begun.air back bis subevent ≡ None) × (pdu_at begun.air back bis subevent ≡ Some pdu.now)) }
        ensures err { IfErr result (λ fault. (begun : HeardSince) → begun_of self.now s ≡ Some begun
            → fault_at begun.air back bis subevent ≡ Some fault) }
    {
        match self.since(s) {
            Some(begun) => begun.air.heard_at(back, bis, subevent),
            None => Err(AirFault::NotOnAir),
        }
    }

    /// Stops a source. What it sent is still heard.
    pub fn stop(&mut self, s: u8)
        requires number { s ≤ 1 }
        requires sending { is_some (source_of self.old s) ≡ true }
        ensures stopped { source_of self.new s ≡ None }
        ensures air { begun_of self.new s ≡ begun_of self.old s }
        ensures others { OthersStay s self.old self.new }
    {
        if s == 0 {
            clear(&mut self.one);
        } else {
            clear(&mut self.other);
        }
    }

    /// Makes a sink one of a source.
    pub fn put(&mut self, sink: u8, s: u8)
        requires sink { sink ≤ 7 }
        requires number { s ≤ 1 }
        ensures sinks { self.new.sinks ≡ slice_set self.old.sinks sink (Some s) }
        ensures sources { (t : ℕ) → (source_of self.new t ≡ source_of self.old t) × (begun_of self.new t ≡ begun_of self.old t) }
    {
        self.sinks[usize::from(sink)] = Some(s);
    }

    /// The source that a sink is of; `None` before the first `put`.
    pub fn of(&self, sink: u8) -> Option<u8>
        requires { sink ≤ 7 }
        ensures { sink_of self.now sink ≡ Some result }
    {
        self.sinks[usize::from(sink)]
    }

    /// Who a source is and what it sent, since its start.
    fn since(&self, s: u8) -> &Option<Begun>
        ensures { result.now ≡ begun_of self.now s }
    {
        if s == 0 {
            &self.one_begun
        } else {
            &self.other_begun
        }
    }

    /// Puts a source in its place.
    fn place(&mut self, s: u8, source: SourceStreaming, begun: Begun)
        requires { s ≤ 1 }
        ensures source { source_of self.new s ≡ Some source }
        ensures begun { begun_of self.new s ≡ Some begun }
        ensures others { OthersStay s self.old self.new }
    {
        if s == 0 {
            fill(&mut self.one, &mut self.one_begun, source, begun);
        } else {
            fill(&mut self.other, &mut self.other_begun, source, begun);
        }
    }
}

/// Takes a source from its place.
fn clear(place: &mut Option<SourceStreaming>)
    ensures { place.new ≡ None }
{
    *place = None;
}

/// Puts a source in its place, and what it sent beside it.
fn fill(
    place: &mut Option<SourceStreaming>,
    since: &mut Option<Begun>,
    source: SourceStreaming,
    begun: Begun,
)
    ensures source { place.new ≡ Some source }
    ensures begun { since.new ≡ Some begun }
{
    *place = Some(source);
    *since = Some(begun);
}

/// Performs the next event of a source and puts it on its air.
fn perform(
    place: &mut Option<SourceStreaming>,
    since: &mut Option<Begun>,
) -> Result<StaleList, EventFault>
    requires own_air { HasOwnAir place.old since.old }
    requires plain { IsPlain place.old }
    ensures ok { OnOk result ((setup : Fixed) (calls : List Call) → Sending setup calls place.old since.old
        → (event_fault setup calls ≡ None) × Sending setup (performs ∷ calls) place.new since.new) }
    ensures stale { IfOk result (λ stale. (setup : Fixed) (calls : List Call) (airs : List StreamAir)
        → Sending setup calls place.old since.old
        → AreAirs setup (performs ∷ calls) airs → stale ≡ stale_of setup calls airs) }
    ensures cause { IfErr result (λ fault. (setup : Fixed) (calls : List Call) → Sending setup calls place.old since.old
        → event_fault setup calls ≡ refused_event fault) }
    ensures left { IfErr result (λ fault. EventLeaves fault place.old place.new) }
    ensures air { OnErr result (since.new ≡ since.old) }
{
    let Some(source) = place else { unreachable!() };
    let Some(begun) = since else { unreachable!() };
    match source.event() {
        Ok(sent) => {
            begun.put(sent.pdus);
            Ok(sent.stale)
        }
        Err(fault) => Err(fault),
    }
}

/// What a refused setup means to the start of a source.
fn field_fault(fault: ConfigureFault) -> FieldFault
    ensures { result ≡ fault_of fault }
{
    match fault {
        ConfigureFault::BadGroup(fault) => FieldFault::BadGroup(fault),
        ConfigureFault::Memory => FieldFault::Memory,
    }
}

/// Whether a source that was started is the same to its receivers.
fn is_twin(identity: Identity, other: &Option<Begun>) -> bool
    ensures { result ≡ is_taken identity other.now }
{
    match other {
        Some(begun) => begun.identity.is_twin(identity),
        None => false,
    }
}
