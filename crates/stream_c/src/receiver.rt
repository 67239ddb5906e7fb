//! The receiver of a stream, by the framing of its group.
ghost use Rattle.std.specs.Prelude.{◌≡◌, ◌≤◌, ◌<◌, ◌+◌, ◌^◌, ◌∷◌, [], List, IfOk};
ghost use Rattle.group_sink.specs.Handing.{units_at_close};
ghost use Rattle.group_sink.specs.Hearings.{heard_on};
ghost use Rattle.isoal_base.specs.Stays.{Call, Stay, close, hear};
ghost use Rattle.stream_c.specs.Streams.{ReceiverStands, event_of, held_by, most_held};
ghost use Rattle.unit_outlets.specs.Handed.{Caused, HandsOver};

use bcast_base::{Bis, Memory};
use big_info::Group;
use isoal_base::Heard;
use isoal_framed::FramedIn;
use isoal_unframed::UnframedIn;
use std::alloc::Global;
use unit_outlets::{TakerFault, UnitTaker};

/// What receives a stream.
#[derive(Drop)]
pub enum Receiver {
    Unframed(UnframedIn),
    Framed(FramedIn),
}

impl Receiver {
    /// A receiver that heard nothing yet.
    pub(crate) fn new(
        alloc: Global,
        group: &Group,
        bis: Bis,
        first_event: u64,
        anchor: u64,
        delay: u32,
    ) -> Result<Receiver, Memory>
        requires event { first_event ≤ 2 ^ 39 }
        requires anchor { anchor ≤ 2 ^ 61 + 2 ^ 23 }
        requires delay { delay < 2 ^ 24 }
        ensures { IfOk result (ReceiverStands (record { info = group.now.info; bis = bis; first = first_event; origin = anchor; delay = delay }) []) }
    {
        if group.info.framing == 0 {
            let unframed = UnframedIn::new(alloc, group, bis, first_event, anchor, delay)?;
            return Ok(Receiver::Unframed(unframed));
        }
        let framed = FramedIn::new(alloc, group, bis, first_event, anchor, delay)?;
        Ok(Receiver::Framed(framed))
    }

    /// The open event.
    pub(crate) fn open_event(&self) -> u64
        ensures event { result ≡ event_of self.now }
        ensures bound { result ≤ 2 ^ 39 }
    {
        match self {
            Receiver::Unframed(unframed) => unframed.open_event(),
            Receiver::Framed(framed) => framed.open_event(),
        }
    }

    /// How many octets are held of units that aren't handed up yet.
    pub(crate) fn held(&self) -> usize
        ensures held { (stay : Stay) (calls : List Call) → ReceiverStands stay calls self.now → result ≡ held_by stay calls }
        ensures bound { (stay : Stay) (calls : List Call) → ReceiverStands stay calls self.now → result ≤ most_held stay.info }
    {
        match self {
            Receiver::Unframed(unframed) => unframed.held(),
            Receiver::Framed(framed) => framed.held(),
        }
    }

    /// Hears a PDU under its payload number. It takes no memory.
    pub(crate) fn hear(&mut self, number: u64, pdu: &[u8]) -> Heard
        ensures answer { (stay : Stay) (calls : List Call) → ReceiverStands stay calls self.old → result ≡ heard_on stay calls number pdu.now }
        ensures stands { (stay : Stay) (calls : List Call) → ReceiverStands stay calls self.old
            → ReceiverStands stay (hear number pdu.now ∷ calls) self.new }
    {
        match self {
            Receiver::Unframed(unframed) => unframed.hear(number, pdu),
            Receiver::Framed(framed) => framed.hear(number, pdu),
        }
    }

    /// Closes the open event, and hands its units to the taker.
    pub(crate) fn close<T: UnitTaker>(&mut self, taker: &mut T) -> Result<(), TakerFault>
        requires { event_of self.old < 2 ^ 39 }
        ensures stands { (stay : Stay) (calls : List Call) → ReceiverStands stay calls self.old
            → ReceiverStands stay (close ∷ calls) self.new }
        ensures units { (stay : Stay) (calls : List Call) → ReceiverStands stay calls self.old
            → HandsOver (units_at_close stay calls) (T.calls taker.old) (T.calls taker.new) result }
        ensures cause { Caused (T.counts taker.old) (T.counts taker.new) result }
    {
        match self {
            Receiver::Unframed(unframed) => unframed.close(taker),
            Receiver::Framed(framed) => framed.close(taker),
        }
    }
}
