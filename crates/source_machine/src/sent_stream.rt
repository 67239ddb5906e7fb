//! What a stream sent in an event, lent.
ghost use Rattle.std.specs.Prelude.{◌≡◌, ◌≤◌, ◌<◌, Some, length, slice_get};

use crate::carried::Carried;
use circular_buffer::HeapCircularBuffer;
use isoal_base::LaidPdus;
use std::marker::Model;

/// The PDUs that the subevents of the last event of a stream carried, by rising subevent.
#[derive(Drop)]
pub struct SentStream<'a> {
    pub(crate) laid: &'a HeapCircularBuffer<LaidPdus>,
    /// The place of the event among those that are laid.
    pub(crate) place: usize,
    pub(crate) carried: &'a Carried,
    /// How many subevents there are.
    pub(crate) count: u8,
}

impl<'a> Model for SentStream<'a> {
    ghost use Rattle.std.specs.Prelude.{ℕ, List};
    ghost use Rattle.source_machine.specs.State.Lent.{AllLent, lent_pdus};

    ghost Value = { List (List ℕ) };

    ghost view = { λ s. lent_pdus s.laid.now.items s.place s.carried.now.aheads s.carried.now.places s.count };

    ghost invariant = { λ s. AllLent s.laid.now.items s.place s.carried.now.aheads s.carried.now.places s.count };
}

impl<'a> SentStream<'a> {
    /// How many subevents there are.
    #[inline(always)]
    pub fn count(&self) -> u8
        ensures count { result ≡ length self.now }
        ensures within { result ≤ 31 }
    {
        self.count
    }

    /// The PDU of a subevent, from 0.
    #[inline(always)]
    pub fn pdu(&self, subevent: u8) -> &'a [u8]
        requires { subevent < length self.now }
        ensures { slice_get self.now subevent ≡ Some result.now }
    {
        let index = usize::from(subevent);
        let ahead = usize::from(self.carried.aheads[index]);
        let event = self.laid.get(self.place + ahead).unwrap();
        event.pdu(usize::from(self.carried.places[index]))
    }
}
