ghost use Rattle.std.specs.Prelude.{ℕ, ◌≡◌, ◌<◌, ◌≤◌, ◌+◌, ◌-◌, ◌*◌, ◌++◌, ◌∷◌, [], length, Some, None, IfOk, IfErr};
ghost use Rattle.circular_buffer.specs.Buffer.{keep_last};
ghost use Rattle.radio_schedule.specs.OnAir.{OnAir, fault_at, pdu_at, silence};

use bcast_base::{Bis, EventPdus, Memory};
use big_info::Group;
use circular_buffer::HeapCircularBuffer;
use std::alloc::Global;
use std::marker::Model;

/// How many events the air keeps.
const EVENTS: usize = 32;

/// Why a place is not on the air.
#[derive(Clone, Copy, Debug, PartialEq, Eq)]
pub enum AirFault {
    /// The group has no stream of this index.
    NoSuchBis,
    /// The group has no such subevent.
    NoSuchSubevent,
    /// The event is not kept.
    NotOnAir,
}

/// The PDUs of the last 32 events of a group.
#[derive(Drop)]
pub struct Air {
    num_bis: u8,
    nse: u8,
    events: HeapCircularBuffer<EventPdus>,
}

impl Model for Air {
    ghost use Rattle.std.specs.Prelude.{ℕ, ◌≡◌, ◌<◌, ◌≤◌, ◌+◌, ◌-◌, ◌*◌, length, All};
    ghost use Rattle.radio_schedule.specs.OnAir.{OnAir};

    ghost Value = { OnAir };

    ghost view = { λ a. record { num_bis = a.num_bis; nse = a.nse; events = a.events.items } };

    ghost invariant = { λ a. (a.events.capacity ≡ 32) × All (λ pdus. length pdus ≡ a.num_bis * a.nse) a.events.items };
}

impl Air {
    /// The air of a group before its first event, with room for 32 events.
    pub fn new(alloc: Global, group: &Group) -> Result<Air, Memory>
        ensures { IfOk result (λ air. air ≡ silence group.now.info) }
    {
        Ok(Air {
            num_bis: group.info.num_bis,
            nse: group.info.nse,
            events: HeapCircularBuffer::with_capacity(alloc, EVENTS)?,
        })
    }

    /// Puts an event on the air, whose PDU of index b and subevent n stands at place (b - 1) × NSE + n.
    /// Where 32 events are kept, the oldest is dropped. It takes no memory.
    pub fn push(&mut self, sent: EventPdus)
        requires { length sent ≡ self.old.num_bis * self.old.nse }
        ensures { self.new ≡ record self.old { events = keep_last 32 (self.old.events ++ sent ∷ []) } }
    {
        self.events.push_back(sent);
    }

    /// The PDU of a stream and a subevent, from 0, in the event `back` events before the newest.
    pub fn heard_at(&self, back: u8, bis: Bis, subevent: u8) -> Result<&[u8], AirFault>
        ensures ok { IfOk result (λ pdu. (fault_at self.now back bis subevent ≡ None)
            × (pdu_at self.now back bis subevent ≡ Some pdu.now)) }
        ensures err { IfErr result (λ fault. fault_at self.now back bis subevent ≡ Some fault) }
    {
        if bis.get() > self.num_bis {
            return Err(AirFault::NoSuchBis);
        }
        if subevent >= self.nse {
            return Err(AirFault::NoSuchSubevent);
        }
        let Some(pdus) = self.events.nth_back(usize::from(back)) else {
            return Err(AirFault::NotOnAir);
        };
        Ok(pdus.item(place(bis, self.nse, subevent)).as_slice())
    }
}

/// The place of the PDU of a stream and a subevent in the list of an event.
fn place(bis: Bis, nse: u8, subevent: u8) -> usize
    ensures place { result ≡ (bis - 1) * nse + subevent }
    ensures within { (num_bis : ℕ) → bis ≤ num_bis → subevent < nse → result < num_bis * nse }
{
    usize::from(bis.get() - 1) * usize::from(nse) + usize::from(subevent)
}
