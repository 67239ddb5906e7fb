ghost use Rattle.std.specs.Prelude.{◌≡◌, ◌<◌, ◌++◌, ◌∷◌, [], length, slice_get, Some, IfOk, OnOk, OnErr};

use crate::spare::refill;
use bcast_base::{EventPdus, Memory, Octets};
use std::alloc::Global;
use std::marker::Model;

/// The PDUs of an event by rising payload number. Once they are cleared, those of a later event are laid in their memory.
#[derive(Drop)]
pub struct LaidPdus {
    alloc: Global,
    pdus: Vec<Octets>,
    count: usize,
}

impl Model for LaidPdus {
    ghost use Rattle.std.specs.Prelude.{◌≤◌, List, ℕ, length, take};

    ghost Value = { List (List ℕ) };

    ghost view = { λ laid. take laid.count laid.pdus.items };

    ghost invariant = { λ laid. laid.count ≤ length laid.pdus.items };
}

impl LaidPdus {
    /// No PDUs. It takes no memory.
    pub fn new(alloc: Global) -> LaidPdus
        ensures { result ≡ [] }
    {
        LaidPdus {
            alloc,
            pdus: Vec::new(alloc),
            count: 0,
        }
    }

    /// Drops all PDUs, and keeps their memory.
    pub fn clear(&mut self)
        ensures { self.new ≡ [] }
    {
        self.count = 0;
    }

    /// Puts a PDU at the end.
    pub fn push(&mut self, pdu: &[u8]) -> Result<(), Memory>
        ensures ok { OnOk result (self.new ≡ self.old ++ pdu.now ∷ []) }
        ensures err { OnErr result (self.new ≡ self.old) }
    {
        if self.count < self.pdus.len() {
            refill(&mut self.pdus[self.count], pdu)?;
        } else {
            self.pdus.push(Octets::copy(self.alloc, pdu)?)?;
        }
        self.count += 1;
        Ok(())
    }

    /// Puts a PDU at the end: its header, and behind it its payload.
    pub fn push_payload(&mut self, header: [u8; 2], payload: &[u8]) -> Result<(), Memory>
        ensures ok { OnOk result (self.new ≡ self.old ++ (header ++ payload.now) ∷ []) }
        ensures err { OnErr result (self.new ≡ self.old) }
    {
        if self.count == self.pdus.len() {
            self.pdus.push(Octets::new(self.alloc))?;
        }
        refill_behind(&mut self.pdus[self.count], header, payload)?;
        self.count += 1;
        Ok(())
    }

    /// The PDU at place `i`, from 0.
    pub fn pdu(&self, i: usize) -> &[u8]
        requires { i < length self.now }
        ensures { slice_get self.now i ≡ Some result.now }
    {
        self.pdus[i].as_slice()
    }

    /// The same PDUs in memory of their own.
    pub fn copied(&self) -> Result<EventPdus, Memory>
        ensures { IfOk result (λ pdus. pdus ≡ self.now) }
    {
        let mut pdus = EventPdus::new(self.alloc);
        'pdus: for i in 0..self.count {
            pdus.push(self.pdus[i].copy_again()?)?;
        }
        Ok(pdus)
    }
}

/// Puts a header, and behind it a payload, in the place of the octets that were there.
fn refill_behind(octets: &mut Octets, header: [u8; 2], payload: &[u8]) -> Result<(), Memory>
    ensures { OnOk result (octets.new ≡ header ++ payload.now) }
{
    octets.resize(header.len() + payload.len())?;
    let (front, behind) = octets.as_mut_slice().split_at_mut(header.len());
    front.copy_from_slice(&header);
    behind.copy_from_slice(payload);
    Ok(())
}
