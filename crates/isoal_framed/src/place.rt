//! The places of a window, in a ring from the first number of the open event on.
ghost use Rattle.std.specs.Prelude.{◌≡◌, ◌≤◌, ◌<◌, ◌+◌, ◌^◌, [], ◌∷◌, ◌++◌, length, take, drop, replicate, nat_lt, not, true, is_some, slice_set, slice_index_or, vec_len, None, IfOk};
ghost use Rattle.std.specs.List.{All};
ghost use Rattle.isoal_base.specs.Hearing.{read_as};
ghost use Rattle.isoal_framed.specs.Tokens.{segmented};
ghost use Rattle.isoal_framed.specs.State.Entries.{IsPduOrNothing};

use bcast_base::Memory;
use circular_buffer::HeapCircularBuffer;
use std::alloc::Global;

/// What is kept of a payload number: its PDU, or no octets.
#[derive(Drop)]
pub(crate) struct Place {
    octets: Vec<u8>,
    count: usize,
    ghost room: { vec_len octets ≡ 253 },
    ghost within: { count ≤ 253 },
}

impl Place {
    ghost use Rattle.isoal_framed.specs.State.Places.{octets_in};

    /// A place at which nothing is kept.
    fn empty(alloc: Global) -> Result<Place, Memory>
        ensures octets { IfOk result (λ place. octets_in place ≡ []) }
        ensures count { IfOk result (λ place. place.count ≡ 0) }
    {
        Ok(Place {
            octets: vec![in alloc; 0u8; 253]?,
            count: 0,
        })
    }

    /// The PDU.
    fn pdu(&self) -> &[u8]
        ensures { result.now ≡ octets_in self.now }
    {
        &self.octets[..self.count]
    }

    /// Whether nothing is kept.
    fn is_empty(&self) -> bool
        ensures { result ≡ not (nat_lt 0 self.now.count) }
    {
        self.count == 0
    }

    /// Keeps a PDU.
    fn keep(&mut self, pdu: &[u8])
        requires { length pdu.now ≤ 253 }
        ensures octets { octets_in self.new ≡ pdu.now }
        ensures count { self.new.count ≡ length pdu.now }
    {
        put_prefix(&mut self.octets, pdu);
        self.count = pdu.len();
    }

    /// Keeps nothing more.
    fn clear(&mut self)
        ensures octets { octets_in self.new ≡ [] }
        ensures count { self.new.count ≡ 0 }
    {
        self.count = 0;
    }
}

/// Puts octets at the front of a buffer.
fn put_prefix(buffer: &mut Vec<u8>, octets: &[u8])
    requires { length octets.now ≤ vec_len buffer.old }
    ensures room { vec_len buffer.new ≡ vec_len buffer.old }
    ensures prefix { take (length octets.now) buffer.new.items ≡ octets.now }
{
    let end = octets.len();
    buffer[0..end].copy_from_slice(octets);
}

/// Places for the PDUs of a window.
#[derive(Drop)]
pub(crate) struct Places {
    pub(crate) max_pdu: u8,
    pub(crate) ring: HeapCircularBuffer<Place>,
    ghost full: { length ring.items ≡ ring.capacity },
    ghost entries: { All (λ place. IsPduOrNothing max_pdu place.count place.octets.items) ring.items },
}

impl Places {
    ghost use Rattle.isoal_framed.specs.State.Places.{kept_of};

    /// So many places, all empty.
    pub(crate) fn new(alloc: Global, count: usize, max_pdu: u8) -> Result<Places, Memory>
        ensures places { IfOk result (λ places. length places.ring.items ≡ count) }
        ensures max_pdu { IfOk result (λ places. places.max_pdu ≡ max_pdu) }
        ensures empty { IfOk result (λ places. kept_of places ≡ replicate count None) }
    {
        let mut ring = HeapCircularBuffer::with_capacity(alloc, count)?;
        'places: for _ in 0..count {
            let _ = ring.push_back(Place::empty(alloc)?);
        }
        Ok(Places { max_pdu, ring })
    }

    /// How many places they are.
    pub(crate) fn count(&self) -> usize
        ensures { result ≡ length self.now.ring.items }
    {
        self.ring.len()
    }

    /// Whether nothing is kept at this place.
    pub(crate) fn is_empty(&self, index: usize) -> bool
        requires { index < length self.now.ring.items }
        ensures { result ≡ not (is_some (slice_index_or (kept_of self.now) index None)) }
    {
        self.ring.get(index).unwrap().is_empty()
    }

    /// Keeps a framed PDU at this place.
    pub(crate) fn put(&mut self, index: usize, pdu: &[u8])
        requires index { index < length self.old.ring.items }
        requires room { length pdu.now ≤ 253 }
        requires framed { is_some (read_as segmented self.old.max_pdu pdu.now) ≡ true }
        ensures places { length self.new.ring.items ≡ length self.old.ring.items }
        ensures max_pdu { self.new.max_pdu ≡ self.old.max_pdu }
        ensures kept { kept_of self.new ≡ slice_set (kept_of self.old) index (read_as segmented self.old.max_pdu pdu.now) }
    {
        self.ring.get_mut(index).unwrap().keep(pdu);
    }

    /// What is kept at this place.
    pub(crate) fn at(&self, index: usize) -> &[u8]
        requires { index < length self.now.ring.items }
        ensures kept { read_as segmented self.now.max_pdu result.now ≡ slice_index_or (kept_of self.now) index None }
        ensures read { is_some (read_as segmented self.now.max_pdu result.now) ≡ nat_lt 0 (length result.now) }
    {
        self.ring.get(index).unwrap().pdu()
    }

    /// Keeps nothing more at this place.
    #[inline(always)]
    pub(crate) fn clear(&mut self, index: usize)
        requires { index < length self.old.ring.items }
        ensures places { length self.new.ring.items ≡ length self.old.ring.items }
        ensures max_pdu { self.new.max_pdu ≡ self.old.max_pdu }
        ensures kept { kept_of self.new ≡ slice_set (kept_of self.old) index None }
    {
        self.ring.get_mut(index).unwrap().clear();
    }

    /// Takes so many places out at the front, and puts them back at the end.
    #[inline(always)]
    pub(crate) fn turn(&mut self, count: u8)
        requires { count ≤ length self.old.ring.items }
        ensures places { length self.new.ring.items ≡ length self.old.ring.items }
        ensures max_pdu { self.new.max_pdu ≡ self.old.max_pdu }
        ensures kept { kept_of self.new ≡ drop count (kept_of self.old) ++ take count (kept_of self.old) }
    {
        if usize::from(count) == self.ring.len() {
            return;
        }
        'places: for _ in 0..count {
            if let Some(place) = self.ring.pop_front() {
                let _ = self.ring.push_back(place);
            }
        }
    }
}
