ghost use Rattle.std.specs.Prelude.{ℕ, ◌≡◌, ◌≢◌, ◌≤◌, ◌<◌, ◌+◌, ◌-◌, ◌%◌, ◌^◌, ◌∷◌, [], List, map};
ghost use Rattle.std.specs.Prelude.{Some, None, false, is_some, IfOk, IfErr, IfSome, IfNone, OnOk, OnErr, OnSome};
ghost use Rattle.std.specs.List.{range_with_len};
ghost use Rattle.std.specs.Option.{option_map};
ghost use Rattle.announcement_train.specs.Layout.{IsTrain};
ghost use Rattle.iso_pdu.specs.Control.{terminate};
ghost use Rattle.iso_pdu.specs.Layout.{control};
ghost use Rattle.iso_pdu.specs.Encoding.{pdu};
ghost use Rattle.isoal_base.specs.Air.{Air as StreamAir};
ghost use Rattle.source_machine.specs.Airs.{AreAirs, pdu_of, stale_of};
ghost use Rattle.source_machine.specs.Calls.{Call, give as gives, event as performs, last_of, next_anchor_of, next_of};
ghost use Rattle.source_machine.specs.Faults.{air_fault, announce_fault, answer_of, event_fault, give_fault};
ghost use Rattle.source_machine.specs.Faults.{misfit_of, refused_event, refused_train, refused_unit};
ghost use Rattle.source_machine.specs.Setups.{IsChecked, started};
ghost use Rattle.source_machine.specs.State.Sources.{AfterFault, StandsFor, anchor_in, group_in};

use announcement_train::Train;
use bcast_base::{Bis, Memory};
use big_info::Group;
use radio_schedule::AirFault;
use source_machine::{
    AnnounceFault, EventFault, GiveFault, Identity, SentStream, SourceConfigured, SourceStreaming,
    StaleList,
};
use std::marker::Model;

/// A source since its start, which is heard until it is dropped (Core 5.2, volume 6 part B, section 4.4.6).
#[derive(Drop)]
pub struct Broadcast {
    source: SourceStreaming,
    first: u64,
}

impl Model for Broadcast {
    ghost use Rattle.std.specs.Prelude.{◌≡◌};
    ghost use Rattle.source_machine.specs.State.Sources.{Source};

    ghost Value = { Source };

    ghost view = { λ b. b.source };

    ghost invariant = { λ b. b.first ≡ b.source.setup.first };
}

impl Broadcast {
    /// Starts a source, whose next event is `first`. Nothing is on the air.
    pub fn start(configured: SourceConfigured, first: u64) -> Result<Broadcast, Memory>
        requires { first < 2 ^ 39 }
        ensures started { IfOk result (λ broadcast. (broadcast.identity ≡ configured.identity)
            × (broadcast.setup ≡ started configured first) × StandsFor [] broadcast) }
        ensures announced { IfOk result (λ broadcast. (broadcast.base ≡ configured.base)
            × (broadcast.cipher ≡ configured.cipher)) }
    {
        match configured.start(first) {
            Ok(source) => Ok(Broadcast { source, first }),
            Err(kept) => Err(kept.fault),
        }
    }

    /// Gives a unit to a stream, as `SourceStreaming::give` does. A refused unit changes nothing, and a source that has failed takes
    /// none.
    pub fn give(&mut self, bis: Bis, time: Option<u64>, octets: &[u8]) -> Result<(), GiveFault>
        requires { self.old.cipher ≡ None }
        ensures identity { self.new.identity ≡ self.old.identity }
        ensures announced { (self.new.base ≡ self.old.base) × (self.new.cipher ≡ self.old.cipher) }
        ensures setup { self.new.setup ≡ self.old.setup }
        ensures ok { OnOk result ((calls : List Call) → StandsFor calls self.old → StandsFor (gives bis time octets.now ∷ calls) self.new) }
        ensures accepted { OnOk result ((calls : List Call) (airs : List StreamAir) → StandsFor calls self.old
            → AreAirs self.old.setup calls airs
            → give_fault self.old.setup calls airs bis time octets.now ≡ None) }
        ensures err { OnErr result (self.new ≡ self.old) }
        ensures cause { IfErr result (λ fault. (calls : List Call) (airs : List StreamAir) → StandsFor calls self.old
            → AreAirs self.old.setup calls airs
            → give_fault self.old.setup calls airs bis time octets.now ≡ refused_unit fault) }
        ensures works { OnOk result (self.old.failed ≡ false) }
        ensures checked { IsChecked self.old.setup.info }
    {
        self.source.give(bis, time, octets)
    }

    /// Why a unit would be refused however few wait, as `SourceStreaming::misfit` says.
    pub fn misfit(&self, bis: Bis, time: Option<u64>, octets: &[u8]) -> Option<GiveFault>
        ensures { (calls : List Call) → StandsFor calls self.now
            → result ≡ option_map answer_of (misfit_of self.now.setup calls bis time octets.now) }
    {
        self.source.misfit(bis, time, octets)
    }

    /// Performs the next event, as `SourceStreaming::advance` does.
    ///
    /// CounterEnds changes nothing. After want of memory the source has failed: who it is, what it announces, its setup and its next
    /// event are as before, and `heard_at` lends none of its PDUs any more. A source that has failed performs no event.
    pub fn event(&mut self) -> Result<StaleList, EventFault>
        requires { self.old.cipher ≡ None }
        ensures identity { self.new.identity ≡ self.old.identity }
        ensures announced { (self.new.base ≡ self.old.base) × (self.new.cipher ≡ self.old.cipher) }
        ensures setup { self.new.setup ≡ self.old.setup }
        ensures ok { OnOk result ((calls : List Call) → StandsFor calls self.old
            → (event_fault self.old.setup calls ≡ None) × StandsFor (performs ∷ calls) self.new) }
        ensures stale { IfOk result (λ stale. (calls : List Call) (airs : List StreamAir) → StandsFor calls self.old
            → AreAirs self.old.setup (performs ∷ calls) airs
            → stale ≡ stale_of self.old.setup calls airs) }
        ensures cause { IfErr result (λ fault. (calls : List Call) → StandsFor calls self.old
            → event_fault self.old.setup calls ≡ refused_event fault) }
        ensures err { IfErr result (λ fault. AfterFault fault self.old self.new) }
        ensures works { OnOk result (self.old.failed ≡ false) }
        ensures next { OnOk result (self.new.next ≡ self.old.next + 1) }
        ensures same { OnErr result (self.new.next ≡ self.old.next) }
        ensures checked { IsChecked self.old.setup.info }
    {
        self.source.advance()
    }

    /// Announces the next event, as `SourceStreaming::announce` does.
    pub fn announce(&self) -> Result<Train, AnnounceFault>
        ensures train { IfOk result (λ train. IsTrain self.now.identity.broadcast_id self.now.base
            (group_in self.now) self.now.next
            (anchor_in self.now) train) }
        ensures ok { OnOk result ((calls : List Call) → StandsFor calls self.now → announce_fault self.now.setup calls ≡ None) }
        ensures cause { IfErr result (λ fault. (calls : List Call) → StandsFor calls self.now
            → announce_fault self.now.setup calls ≡ refused_train fault) }
        ensures greatest { IfOk result (λ train. train.time ≤ 2 ^ 61) }
    {
        let _anchor = self.source.next_anchor();
        self.source.announce()
    }

    /// The PDU of a stream that was sent in a subevent, from 0, of the event `back` events before the last one.
    ///
    /// The first refusal that holds is answered: NoSuchBis and NoSuchSubevent where the group has no such stream or
    /// subevent, NotOnAir where fewer than `back` + 1 events were performed, or the source has failed.
    pub fn heard_at(&self, back: u8, bis: Bis, subevent: u8) -> Result<&[u8], AirFault>
        requires { back ≤ 31 }
        ensures ok { IfOk result (λ pdu. (calls : List Call) (airs : List StreamAir) → StandsFor calls self.now
            → AreAirs self.now.setup calls airs
            → (air_fault self.now.setup calls back bis subevent ≡ None)
            × (pdu_of self.now.setup airs (next_of self.now.setup calls - 1 - back) bis subevent ≡ Some pdu.now)) }
        ensures err { IfErr result (λ fault. (calls : List Call) → StandsFor calls self.now
            → air_fault self.now.setup calls back bis subevent ≡ Some fault) }
        ensures works { OnOk result (self.now.failed ≡ false) }
        ensures checked { IsChecked self.now.setup.info }
    {
        self.source.heard_at(back, bis, subevent)
    }

    /// The PDUs that a stream sent in the subevents of the last event. None comes exactly where `heard_at` refuses each place of that
    /// event and stream.
    #[inline(always)]
    pub fn sent_on(&self, bis: Bis) -> Option<SentStream<'_>>
        ensures sent { IfSome result (λ sent. (calls : List Call) (airs : List StreamAir) → StandsFor calls self.now
            → AreAirs self.now.setup calls airs
            → map Some sent ≡ map (pdu_of self.now.setup airs (next_of self.now.setup calls - 1) bis)
            (range_with_len 0 self.now.setup.info.nse)) }
        ensures on_air { OnSome result ((calls : List Call) → StandsFor calls self.now
            → (s : ℕ) → s < self.now.setup.info.nse → air_fault self.now.setup calls 0 bis s ≡ None) }
        ensures none { IfNone result ((calls : List Call) → StandsFor calls self.now
            → (s : ℕ) → air_fault self.now.setup calls 0 bis s ≢ None) }
        ensures works { OnSome result (self.now.failed ≡ false) }
        ensures checked { IsChecked self.now.setup.info }
    {
        self.source.sent_on(bis)
    }

    /// Who the source is.
    pub fn identity(&self) -> Identity
        ensures { result ≡ self.now.identity }
    {
        self.source.identity()
    }

    /// Whether the group is encrypted. Such a source is announced alone.
    pub fn is_ciphered(&self) -> bool
        ensures { result ≡ is_some self.now.cipher }
    {
        self.source.is_ciphered()
    }

    /// The PDU that ends the group for this reason at the next event.
    pub fn terminate_pdu(&self, reason: u8) -> [u8; 6]
        ensures { result ≡ pdu (control (terminate reason (self.now.next % 2 ^ 16))) }
    {
        self.source.terminate_pdu(reason)
    }

    /// The group.
    pub fn group(&self) -> &Group
        ensures { result.now.info ≡ self.now.setup.info }
    {
        self.source.group()
    }

    /// The presentation delay in µs.
    pub fn delay(&self) -> u32
        ensures delay { result ≡ self.now.setup.delay }
        ensures within { result < 2 ^ 24 }
    {
        self.source.delay()
    }

    /// The next event.
    pub fn next_event(&self) -> u64
        ensures next { result ≡ self.now.next }
        ensures calls { (calls : List Call) → StandsFor calls self.now → result ≡ next_of self.now.setup calls }
        ensures least { self.now.setup.first ≤ result }
        ensures greatest { result ≤ 2 ^ 39 }
    {
        self.source.next_event()
    }

    /// The anchor of the next event, in µs.
    pub fn next_anchor(&self) -> u64
        ensures calls { (calls : List Call) → StandsFor calls self.now → result ≡ next_anchor_of self.now.setup calls }
        ensures greatest { result ≤ 2 ^ 61 }
    {
        self.source.next_anchor()
    }

    /// The last event that was performed; `None` exactly where none was.
    pub fn last_event(&self) -> Option<u64>
        ensures calls { (calls : List Call) → StandsFor calls self.now → result ≡ last_of self.now.setup calls }
        ensures last { IfSome result (λ event. event + 1 ≡ self.now.next) }
        ensures greatest { IfSome result (λ event. event < 2 ^ 39) }
    {
        let next = self.source.next_event();
        if next > self.first {
            Some(next - 1)
        } else {
            None
        }
    }
}
