ghost use Rattle.std.specs.Prelude.{◌≡◌, ◌<◌, ◌∷◌, ◌↔◌, [], ℕ, List, length, None, unwrap_or, IfOk, IfErr, IsTrue, OnOk, OnErr};
ghost use Rattle.big_info.specs.declared.info.BigInfo.{BigInfo};
ghost use Rattle.isoal_base.specs.Air.{Air};
ghost use Rattle.isoal_unframed.specs.Calls.{Call as PlainCall, accept, lay};
ghost use Rattle.isoal_framed.specs.Calls.{Call as TimedCall, accept as accept_timed, lay as lay_at};
ghost use Rattle.isoal_unframed.specs.State.Sender.{StandsFor as PlainStands};
ghost use Rattle.isoal_framed.specs.State.Senders.{StandsFor as TimedStands, waiting};
ghost use Rattle.source_machine.specs.Airs.{air_after};
ghost use Rattle.source_machine.specs.declared.sender.Sender.TheVariants.{Framed as FramedSender, Unframed as UnframedSender};
ghost use Rattle.source_machine.specs.Setups.{IsChecked};
ghost use Rattle.source_machine.specs.State.Senders.{HasTime, PutStops, SenderStands, info_of, waiting_in};

use bcast_base::{Memory, Times};
use big_info::Group;
use isoal_base::{LaidPdus, PutFault};
use isoal_framed::FramedOut;
use isoal_unframed::UnframedOut;
use std::alloc::Global;

/// The sender of a stream, by the framing of its group (Core 5.2, volume 6 part G, section 2).
#[derive(Drop)]
pub(crate) enum Sender {
    Unframed(UnframedOut),
    Framed(FramedOut),
}

impl Sender {
    /// A sender before its first event. It takes no memory.
    pub(crate) fn new(alloc: Global, group: &Group) -> Sender
        ensures stands { SenderStands group.now.info [] [] result }
        ensures info { info_of result ≡ group.now.info }
    {
        if group.info.framing == 0 {
            Sender::Unframed(UnframedOut::new(alloc, group))
        } else {
            Sender::Framed(FramedOut::new(alloc, group))
        }
    }

    /// Gives a unit to the sender. A framed one has a time, which doesn't pass the limit where there is one.
    pub(crate) fn put(
        &mut self,
        time: Option<u64>,
        limit: Option<u64>,
        octets: &[u8],
    ) -> Result<(), PutFault>
        ensures ok { OnOk result (HasTime self.old time limit × (waiting_in self.old < 16) × (info_of self.new ≡ info_of self.old)) }
        ensures stands { OnOk result ((info : BigInfo) (plain : List PlainCall) (timed : List TimedCall)
            → SenderStands info plain timed self.old
            → SenderStands info (accept octets.now ∷ plain) (accept_timed (unwrap_or time 0) octets.now ∷ timed) self.new) }
        ensures err { OnErr result (self.new ≡ self.old) }
        ensures fault { IfErr result (λ fault. PutStops self.old time limit octets.now fault) }
    {
        match self {
            Sender::Unframed(out) => put_unframed(out, time, octets),
            Sender::Framed(out) => put_framed(out, time, limit, octets),
        }
    }

    /// Whether a unit with this time would have the one that the framing wants: none in an unframed group, and one in order in a
    /// framed one, which doesn't pass the limit where there is one.
    pub(crate) fn has_time(&self, time: Option<u64>, limit: Option<u64>) -> bool
        ensures { IsTrue result ↔ HasTime self.now time limit }
    {
        match self {
            Sender::Unframed(_) => time.is_none(),
            Sender::Framed(out) => match time {
                Some(time) => out.is_in_order(time, limit),
                None => false,
            },
        }
    }

    /// Lays the PDUs of the next event, whose anchor this is, in µs, in the place of others, and answers the times of the units that
    /// were left out of it. Want of memory changes nothing but the PDUs.
    pub(crate) fn lay(&mut self, anchor: u64, pdus: &mut LaidPdus) -> Result<Times, Memory>
        ensures info { info_of self.new ≡ info_of self.old }
        ensures count { OnOk result (length pdus.new ≡ (info_of self.old).bn) }
        ensures err { OnErr result (self.new ≡ self.old) }
        ensures laid { IfOk result (λ stale. (info : BigInfo) (plain : List PlainCall) (timed : List TimedCall) → IsChecked info
            → SenderStands info plain timed self.old
            → SenderStands info (lay ∷ plain) (lay_at anchor ∷ timed) self.new
            × (begun : ℕ) × (air_after info (lay ∷ plain) (lay_at anchor ∷ timed)
            ≡ record { event = record { pdus = pdus.new; stale = stale }; begun = begun } ∷ air_after info plain timed)) }
    {
        match self {
            Sender::Unframed(out) => out.lay_event_in(pdus),
            Sender::Framed(out) => out.pack_event_in(anchor, pdus),
        }
    }
}

/// Gives a unit to the sender of an unframed stream, where it has no time of its own.
fn put_unframed(out: &mut UnframedOut, time: Option<u64>, octets: &[u8]) -> Result<(), PutFault>
    ensures ok { OnOk result ((time ≡ None) × (length out.old.waiting < 16) × (out.new.info ≡ out.old.info)) }
    ensures stands { OnOk result ((info : BigInfo) (calls : List PlainCall) → PlainStands info calls out.old
        → PlainStands info (accept octets.now ∷ calls) out.new) }
    ensures err { OnErr result (out.new ≡ out.old) }
    ensures fault { IfErr result (λ fault. PutStops (UnframedSender out.old) time None octets.now fault) }
{
    if time.is_some() {
        return Err(PutFault::TimeOrder);
    }
    out.put(octets)
}

/// Gives a unit to the sender of a framed stream, where it has a time.
fn put_framed(
    out: &mut FramedOut,
    time: Option<u64>,
    limit: Option<u64>,
    octets: &[u8],
) -> Result<(), PutFault>
    ensures ok { OnOk result (HasTime (FramedSender out.old) time limit × (waiting out.old < 16) × (out.new.info ≡ out.old.info)) }
    ensures stands { OnOk result ((info : BigInfo) (calls : List TimedCall) (air : Air) → TimedStands info calls air out.old
        → TimedStands info (accept_timed (unwrap_or time 0) octets.now ∷ calls) air out.new) }
    ensures err { OnErr result (out.new ≡ out.old) }
    ensures fault { IfErr result (λ fault. PutStops (FramedSender out.old) time limit octets.now fault) }
{
    let Some(time) = time else {
        return Err(PutFault::TimeOrder);
    };
    match limit {
        Some(next_anchor) => out.put(time, next_anchor, octets),
        None => out.put_ahead(time, octets),
    }
}
