//! The receiver of a stream, of either framing.
ghost use Rattle.std.specs.Prelude.{◌≡◌, ◌≤◌, ◌<◌, ◌^◌, IfOk};
ghost use Rattle.unit_outlets.specs.Handed.{Caused, HandsOver};
ghost use Rattle.group_sink.specs.State.Receivers.{answer_by, closed, fresh, hear_by, open_of, owed_of};
ghost use Rattle.group_sink.specs.State.Steps.{hear_all};
ghost use Rattle.group_sink.specs.Streams.{stay_on};

use crate::hearing::{hear_framed, hear_unframed};
use crate::numbers::Numbers;
use bcast_base::{Bis, Memory};
use isoal_base::Heard;
use isoal_framed::FramedIn;
use isoal_unframed::UnframedIn;
use radio_schedule::StreamEvent;
use std::alloc::Global;
use sync_reference::BigSync;
use unit_outlets::{TakerFault, UnitTaker};

/// What receives a stream, by the framing of its group.
#[derive(Drop)]
pub(crate) enum Receiver {
    Unframed(UnframedIn),
    Framed(FramedIn),
}

impl Receiver {
    /// A receiver that heard nothing yet.
    pub(crate) fn new(alloc: Global, big_sync: &BigSync, bis: Bis) -> Result<Receiver, Memory>
        ensures { IfOk result (λ receiver. receiver ≡ fresh (stay_on big_sync.now bis)) }
    {
        let BigSync {
            group,
            first,
            anchor,
            delay,
            ..
        } = big_sync;
        if group.info.framing == 0 {
            let unframed = UnframedIn::new(alloc, group, bis, *first, *anchor, *delay)?;
            return Ok(Receiver::Unframed(unframed));
        }
        let framed = FramedIn::new(alloc, group, bis, *first, *anchor, *delay)?;
        Ok(Receiver::Framed(framed))
    }

    /// The open event.
    pub(crate) fn open_event(&self) -> u64
        ensures event { result ≡ open_of self.now }
        ensures bound { result ≤ 2 ^ 39 }
    {
        match self {
            Receiver::Unframed(unframed) => unframed.open_event(),
            Receiver::Framed(framed) => framed.open_event(),
        }
    }

    /// Hears a PDU under its payload number. It takes no memory.
    pub(crate) fn hear(&mut self, number: u64, pdu: &[u8]) -> Heard
        ensures answer { result ≡ answer_by number pdu.now self.old }
        ensures step { self.new ≡ hear_by number pdu.now self.old }
    {
        match self {
            Receiver::Unframed(unframed) => unframed.hear(number, pdu),
            Receiver::Framed(framed) => framed.hear(number, pdu),
        }
    }

    /// Hears what the subevents of an event bring. It takes no memory.
    pub(crate) fn hear_event<E: StreamEvent>(&mut self, numbers: &Numbers, event: u64, sent: &E)
        requires { event ≤ 2 ^ 39 }
        ensures { self.new ≡ hear_all numbers.now.group.info event (E.pdus sent.now) self.old }
    {
        match self {
            Receiver::Unframed(unframed) => hear_unframed(unframed, numbers, event, sent),
            Receiver::Framed(framed) => hear_framed(framed, numbers, event, sent),
        }
    }

    /// What it would answer a PDU under its payload number.
    pub(crate) fn would_answer(&self, number: u64, pdu: &[u8]) -> Heard
        ensures { result ≡ answer_by number pdu.now self.now }
    {
        match self {
            Receiver::Unframed(unframed) => unframed.would_answer(number, pdu),
            Receiver::Framed(framed) => framed.would_answer(number, pdu),
        }
    }

    /// Closes the open event, and hands what it decides. It takes no memory.
    #[inline(never)]
    pub(crate) fn close<T: UnitTaker>(&mut self, taker: &mut T) -> Result<(), TakerFault>
        requires { open_of self.old < 2 ^ 39 }
        ensures step { self.new ≡ closed self.old }
        ensures hands { HandsOver (owed_of self.old) (T.calls taker.old) (T.calls taker.new) result }
        ensures cause { Caused (T.counts taker.old) (T.counts taker.new) result }
    {
        match self {
            Receiver::Unframed(unframed) => unframed.close(taker),
            Receiver::Framed(framed) => framed.close(taker),
        }
    }
}
