ghost use Rattle.std.specs.Prelude.{◌≡◌, ◌≤◌, ◌<◌, ◌+◌, ◌^◌, ◌↔◌, ◌++◌, ℕ, List, ◌∷◌, length, replicate, IfOk, None, false, true};
ghost use Rattle.big_info.specs.Bounds.{Bounds};
ghost use Rattle.unit_outlets.specs.Handed.{Caused, HandsOver};
ghost use Rattle.isoal_base.specs.Hearing.{answer_of, placing};
ghost use Rattle.isoal_base.specs.Stays.{Call, hear, close, window_of};
ghost use Rattle.isoal_base.specs.declared.heard.Heard.TheVariants as answers;
ghost use Rattle.isoal_framed.specs.Histories.{decided, gained, held_of};
ghost use Rattle.isoal_framed.specs.Tokens.{segmented};
ghost use Rattle.isoal_framed.specs.State.Windows.{Stands, after_hear, after_close, owed};

use crate::close::take_places;
use crate::keep::{answer_at, keep};
use crate::place::Places;
use crate::store::Store;
use crate::stream::Stream;
use crate::undecided::UndecidedRun;
use bcast_base::{Bis, Memory};
use big_info::Group;
use iso_pdu::{Pdu, read_pdu};
use isoal_base::Heard;
use std::alloc::Global;
use std::marker::Model;
use unit_outlets::{TakerFault, UnitTaker};

/// The receiver of a framed stream from the moment that a sink is synchronized to a BIG. It keeps the PDUs of the open event
/// and of the H events after it, and the octets of the start that the closed events don't decide.
#[derive(Drop)]
pub struct FramedIn {
    stream: Stream,
    event: u64,
    store: Store,
}

impl Model for FramedIn {
    ghost use Rattle.isoal_framed.specs.State.Buffers.{run_in};
    ghost use Rattle.isoal_framed.specs.State.Places.{kept_of};
    ghost use Rattle.isoal_framed.specs.State.Receivers.{IsReceiver};
    ghost use Rattle.isoal_framed.specs.State.Streams.{stay_of};
    ghost use Rattle.isoal_framed.specs.State.Windows.{Window};

    ghost Value = { Window };

    ghost view = { λ a. record {
      stay = stay_of a.stream;
      event = a.event;
      kept = kept_of a.store.places;
      run = run_in a.store.undecided;
    } };

    ghost invariant = { λ a. IsReceiver a.stream a.event a.store };
}

impl FramedIn {
    /// A receiver that heard nothing yet, with its first event open.
    pub fn new(
        alloc: Global,
        group: &Group,
        bis: Bis,
        first_event: u64,
        anchor: u64,
        delay: u32,
    ) -> Result<FramedIn, Memory>
        requires framed { group.now.info.framing ≡ 1 }
        requires event { first_event ≤ 2 ^ 39 }
        requires anchor { anchor ≤ 2 ^ 61 + 2 ^ 23 }
        requires delay { delay < 2 ^ 24 }
        ensures { IfOk result (λ receiver. receiver ≡ record {
          stay = record { info = group.now.info; bis = bis; first = first_event; origin = anchor; delay = delay };
          event = first_event;
          kept = replicate (window_of group.now.info) None;
          run = None;
        }) }
    {
        let stream = Stream {
            group: *group,
            bis,
            first: first_event,
            origin: anchor,
            delay,
        };
        Ok(FramedIn {
            stream,
            event: first_event,
            store: Store {
                places: Places::new(alloc, stream.window(), group.info.max_pdu)?,
                undecided: UndecidedRun::new(alloc, group.info.max_sdu)?,
            },
        })
    }

    /// The open event.
    pub fn open_event(&self) -> u64
        ensures event { result ≡ self.now.event }
        ensures bound { result ≤ 2 ^ 39 }
        ensures kept { length self.now.kept ≡ window_of self.now.stay.info }
    {
        self.event
    }

    /// Hears a PDU under its payload number, and answers the first that holds: the octets are no PDU; it is none of a
    /// framed stream; the number is below those of the open event, or past the window; a PDU of that number is kept; else
    /// it is kept. It takes no memory.
    pub fn hear(&mut self, number: u64, pdu: &[u8]) -> Heard
        ensures answer { result ≡ answer_of segmented self.old.stay.info self.old.event self.old.kept number pdu.now }
        ensures step { self.new ≡ after_hear number pdu.now self.old }
        ensures stands { (calls : List Call) → Stands calls self.old → Stands (hear number pdu.now ∷ calls) self.new }
        ensures decides { (calls : List Call) → decided self.old.stay (hear number pdu.now ∷ calls) ≡ decided self.old.stay calls }
    {
        self.take_in(number, pdu)
    }

    /// Whether a PDU of this payload number would be kept where it is one of a framed stream: the number is in the window, and no
    /// PDU of it is kept. What is heard of another number changes nothing.
    #[inline(always)]
    pub fn awaits(&self, number: u64) -> bool
        ensures awaited { result ≡ true ↔ (placing self.now.stay.info self.now.event self.now.kept number ≡ answers.Kept) }
        ensures same { result ≡ false → (pdu : List ℕ) → after_hear number pdu self.now ≡ self.now }
    {
        matches!(
            answer_at(&self.stream, self.event, &self.store.places, number),
            Heard::Kept
        )
    }

    /// What `hear` would answer.
    pub fn would_answer(&self, number: u64, pdu: &[u8]) -> Heard
        ensures { result ≡ answer_of segmented self.now.stay.info self.now.event self.now.kept number pdu.now }
    {
        match read_pdu(pdu, self.stream.group.info.max_pdu) {
            Err(fault) => Heard::Malformed(fault),
            Ok(Pdu::Framed(_)) => {
                answer_at(&self.stream, self.event, &self.store.places, number)
            }
            Ok(_) => Heard::WrongKind,
        }
    }

    /// Closes the open event: hands each start that is decided by its segments and wasn't before, in order, with the time
    /// of the start, and opens the next event. After a fault of the taker the event is closed too, and the units behind
    /// the one that was refused are not handed. It takes no memory.
    pub fn close<T: UnitTaker>(&mut self, taker: &mut T) -> Result<(), TakerFault>
        requires { self.old.event < 2 ^ 39 }
        ensures step { self.new ≡ after_close self.old }
        ensures hands { HandsOver (owed self.old) (T.calls taker.old) (T.calls taker.new) result }
        ensures cause { Caused (T.counts taker.old) (T.counts taker.new) result }
        ensures stands { (calls : List Call) → Stands calls self.old → Stands (close ∷ calls) self.new }
        ensures units { (calls : List Call) → Stands calls self.old
            → HandsOver (gained self.old.stay calls) (T.calls taker.old) (T.calls taker.new) result }
        ensures gains { (calls : List Call) → Stands calls self.old
            → decided self.old.stay (close ∷ calls) ≡ decided self.old.stay calls ++ gained self.old.stay calls }
    {
        self.hand_units(taker)
    }

    /// How many octets are held of the unit that isn't decided yet.
    pub fn held(&self) -> usize
        ensures held { result ≡ held_of self.now.run }
        ensures bound { result ≤ self.now.stay.info.max_sdu }
    {
        self.store.undecided.held()
    }

    /// Answers a PDU, and keeps it where the answer is that it is kept.
    fn take_in(&mut self, number: u64, pdu: &[u8]) -> Heard
        ensures answer { result ≡ answer_of segmented self.old.stay.info self.old.event self.old.kept number pdu.now }
        ensures step { self.new ≡ after_hear number pdu.now self.old }
        ensures bounds { Bounds self.old.stay.info }
    {
        match read_pdu(pdu, self.stream.group.info.max_pdu) {
            Err(fault) => Heard::Malformed(fault),
            Ok(Pdu::Framed(_)) => keep(
                &self.stream,
                self.event,
                &mut self.store.places,
                number,
                pdu,
            ),
            Ok(_) => Heard::WrongKind,
        }
    }

    /// Hands the units that the open event decides, empties its places and opens the next event.
    fn hand_units<T: UnitTaker>(&mut self, taker: &mut T) -> Result<(), TakerFault>
        requires { self.old.event < 2 ^ 39 }
        ensures step { self.new ≡ after_close self.old }
        ensures hands { HandsOver (owed self.old) (T.calls taker.old) (T.calls taker.new) result }
        ensures cause { Caused (T.counts taker.old) (T.counts taker.new) result }
        ensures bounds { Bounds self.old.stay.info }
    {
        let stream = self.stream;
        let handed = take_places(
            &stream,
            self.event,
            stream.group.info.bn,
            &mut self.store,
            taker,
        );
        self.event += 1;
        handed
    }
}
