ghost use Rattle.std.specs.Prelude.{◌≡◌, ◌≤◌, ◌<◌, ◌+◌, ◌*◌, ◌^◌, ◌↔◌, ℕ, List, ◌∷◌, length, replicate, IfOk, None, false, true};
ghost use Rattle.big_info.specs.Bounds.{Bounds};
ghost use Rattle.big_info.specs.Schedule.{per_event_of};
ghost use Rattle.unit_outlets.specs.Handed.{Caused, HandsOver};
ghost use Rattle.isoal_base.specs.Hearing.{answer_of, placing};
ghost use Rattle.isoal_base.specs.Stays.{Call, hear, close, opened, window_of};
ghost use Rattle.isoal_base.specs.declared.heard.Heard.TheVariants as answers;
ghost use Rattle.isoal_unframed.specs.Histories.{units_of};
ghost use Rattle.isoal_unframed.specs.Units.{unframed};
ghost use Rattle.isoal_unframed.specs.State.Windows.{Stands, after_hear, after_close, owed, held_in_event};

use crate::parts::part_in;
use crate::ring::Ring;
use crate::stream::{OpenEvent, Stream, numbers_of};
use crate::window::{answer_at, hand_event, held, keep};
use bcast_base::{Bis, Memory};
use big_info::Group;
use isoal_base::Heard;
use std::alloc::Global;
use std::marker::Model;
use unit_outlets::{TakerFault, UnitTaker};

/// The receiver of an unframed stream from the moment that a sink is synchronized to a BIG. It keeps the PDUs of the open
/// event and of the H events after it, in one block that is a ring of H + 1 events.
#[derive(Drop)]
pub struct UnframedIn {
    stream: Stream,
    current: OpenEvent,
    ring: Ring,
}

impl Model for UnframedIn {
    ghost use Rattle.isoal_unframed.specs.State.Cells.{turned};
    ghost use Rattle.isoal_unframed.specs.State.Receivers.{IsReceiver};
    ghost use Rattle.isoal_unframed.specs.State.Rings.{kept_of};
    ghost use Rattle.isoal_unframed.specs.State.Streams.{stay_of, place_of};
    ghost use Rattle.isoal_unframed.specs.State.Windows.{Window};

    ghost Value = { Window };

    ghost view = { λ a. record {
      stay = stay_of a.stream;
      event = a.current.event;
      kept = turned (place_of a.stream.group.info a.current.event) (kept_of a.ring);
    } };

    ghost invariant = { λ a. IsReceiver a.stream a.current a.ring };
}

impl UnframedIn {
    /// A receiver that heard nothing yet, with its first event open.
    pub fn new(
        alloc: Global,
        group: &Group,
        bis: Bis,
        first_event: u64,
        anchor: u64,
        delay: u32,
    ) -> Result<UnframedIn, Memory>
        requires unframed { group.now.info.framing ≡ 0 }
        requires event { first_event ≤ 2 ^ 39 }
        requires anchor { anchor ≤ 2 ^ 61 + 2 ^ 23 }
        requires delay { delay < 2 ^ 24 }
        ensures { IfOk result (λ receiver. receiver ≡ record {
          stay = record { info = group.now.info; bis = bis; first = first_event; origin = anchor; delay = delay };
          event = first_event;
          kept = replicate (window_of group.now.info) None;
        }) }
    {
        let stream = Stream {
            group: *group,
            bis,
            first: first_event,
            origin: anchor,
            delay,
            events: group.horizon() + 1,
            window: numbers_of(group),
            slots: group.per_event(),
            places: group.per_unit(),
        };
        Ok(UnframedIn {
            stream,
            current: stream.opened(first_event),
            ring: Ring::new(alloc, stream.window(), group.info.max_pdu)?,
        })
    }

    /// The open event.
    pub fn open_event(&self) -> u64
        ensures event { result ≡ self.now.event }
        ensures bound { result ≤ 2 ^ 39 }
        ensures kept { length self.now.kept ≡ window_of self.now.stay.info }
    {
        self.current.event
    }

    /// Hears a PDU under its payload number, and answers the first that holds: the octets are no PDU; it is none of an
    /// unframed stream; the number is below those of the open event, or past the window; a PDU of that number is kept;
    /// else it is kept. It takes no memory.
    pub fn hear(&mut self, number: u64, pdu: &[u8]) -> Heard
        ensures answer { result ≡ answer_of unframed self.old.stay.info self.old.event self.old.kept number pdu.now }
        ensures step { self.new ≡ after_hear number pdu.now self.old }
        ensures stands { (calls : List Call) → Stands calls self.old → Stands (hear number pdu.now ∷ calls) self.new }
    {
        self.take_in(number, pdu)
    }

    /// Whether a PDU of this payload number would be kept where it is one of an unframed stream: the number is in the window, and
    /// no PDU of it is kept. What is heard of another number changes nothing.
    #[inline(always)]
    pub fn awaits(&self, number: u64) -> bool
        ensures awaited { result ≡ true ↔ (placing self.now.stay.info self.now.event self.now.kept number ≡ answers.Kept) }
        ensures same { result ≡ false → (pdu : List ℕ) → after_hear number pdu self.now ≡ self.now }
    {
        matches!(
            answer_at(&self.stream, self.current, &self.ring, number),
            Heard::Kept
        )
    }

    /// What `hear` would answer.
    pub fn would_answer(&self, number: u64, pdu: &[u8]) -> Heard
        ensures { result ≡ answer_of unframed self.now.stay.info self.now.event self.now.kept number pdu.now }
    {
        match part_in(pdu, self.stream.group.info.max_pdu) {
            Ok(_) => answer_at(&self.stream, self.current, &self.ring, number),
            Err(answer) => answer,
        }
    }

    /// Hands the units of the open event to the taker, and opens the next event. After a fault of the taker the event is
    /// closed too, and the units behind the one that was refused are not handed. It takes no memory.
    pub fn close<T: UnitTaker>(&mut self, taker: &mut T) -> Result<(), TakerFault>
        requires { self.old.event < 2 ^ 39 }
        ensures step { self.new ≡ after_close self.old }
        ensures hands { HandsOver (owed self.old) (T.calls taker.old) (T.calls taker.new) result }
        ensures cause { Caused (T.counts taker.old) (T.counts taker.new) result }
        ensures stands { (calls : List Call) → Stands calls self.old → Stands (close ∷ calls) self.new }
        ensures units { (calls : List Call) → Stands calls self.old
            → HandsOver (units_of self.old.stay calls (opened self.old.stay calls)) (T.calls taker.old) (T.calls taker.new) result }
    {
        self.hand_units(taker)
    }

    /// Answers a PDU, and keeps its part where the answer is that it is kept.
    fn take_in(&mut self, number: u64, pdu: &[u8]) -> Heard
        ensures answer { result ≡ answer_of unframed self.old.stay.info self.old.event self.old.kept number pdu.now }
        ensures step { self.new ≡ after_hear number pdu.now self.old }
        ensures bounds { Bounds self.old.stay.info }
    {
        match part_in(pdu, self.stream.group.info.max_pdu) {
            Ok(part) => keep(&self.stream, self.current, &mut self.ring, number, part),
            Err(answer) => answer,
        }
    }

    /// Hands the units of the open event, empties its places and opens the next event.
    fn hand_units<T: UnitTaker>(&mut self, taker: &mut T) -> Result<(), TakerFault>
        requires { self.old.event < 2 ^ 39 }
        ensures step { self.new ≡ after_close self.old }
        ensures hands { HandsOver (owed self.old) (T.calls taker.old) (T.calls taker.new) result }
        ensures cause { Caused (T.counts taker.old) (T.counts taker.new) result }
        ensures bounds { Bounds self.old.stay.info }
        ensures plain { self.old.stay.info.framing ≡ 0 }
    {
        let handed = hand_event(&self.stream, self.current, &mut self.ring, taker);
        self.ring
            .clear(self.current.place, usize::from(self.stream.group.info.bn));
        self.current = self.stream.next(self.current);
        handed
    }

    /// How many octets are held of units of the open event that are not handed yet.
    pub fn held(&self) -> usize
        ensures held { result ≡ held_in_event self.now.stay self.now.kept }
        ensures bound { result ≤ per_event_of self.now.stay.info * self.now.stay.info.max_sdu }
    {
        held(&self.stream, self.current, &self.ring)
    }
}
