ghost use Rattle.std.specs.Prelude.{◌≡◌, ◌≤◌, ◌<◌, ◌+◌, ◌*◌, ◌^◌, ℕ, List, [], ◌∷◌, ◌++◌, length, vec_len, take, drop, replicate, not, is_some, slice_set, slice_index_or, Some, None, IfSome, IfOk};
ghost use Rattle.std.specs.List.{All, copy_within};
ghost use Rattle.std.specs.Option.{option_map, option_copied};
ghost use Rattle.big_info.specs.Schedule.{per_unit_of};
ghost use Rattle.unit_outlets.specs.Handed.{Caused, HandsOver};
ghost use Rattle.isoal_unframed.specs.State.Cells.{Within, count_of, entry_in, kept_in, part_of, held_cells};
ghost use Rattle.isoal_unframed.specs.Units.{unit_of, held_in};
ghost use Rattle.isoal_unframed.specs.State.Windows.{handed_of};
ghost use Rattle.isoal_unframed.specs.declared.cell.Cell.TheVariants.{Empty};

use crate::cell::Cell;
use crate::stream::Stream;
use bcast_base::{Bis, Memory};
use std::alloc::Global;
use unit_outlets::{TakerFault, UnitTaker};

/// Places for the parts of units, each with room for Max_PDU octets.
#[derive(Drop)]
pub(crate) struct Ring {
    max_pdu: u8,
    cells: Vec<Cell>,
    block: Vec<u8>,
    ghost octets: { vec_len block ≡ vec_len cells * max_pdu },
    ghost within: { All (Within max_pdu) cells.items },
}

impl Ring {
    ghost use Rattle.isoal_unframed.specs.State.Rings.{kept_of, octets_at};

    /// So many places, all empty.
    pub(crate) fn new(alloc: Global, places: usize, max_pdu: u8) -> Result<Ring, Memory>
        requires { places < 2 ^ 16 }
        ensures places { IfOk result (λ ring. vec_len ring.cells ≡ places) }
        ensures max_pdu { IfOk result (λ ring. ring.max_pdu ≡ max_pdu) }
        ensures empty { IfOk result (λ ring. kept_of ring ≡ replicate places None) }
    {
        let octets = places * usize::from(max_pdu);
        Ok(Ring {
            max_pdu,
            cells: vec![in alloc; Cell::Empty; places]?,
            block: vec![in alloc; 0u8; octets]?,
        })
    }

    /// Whether nothing is kept at this place.
    pub(crate) fn is_empty(&self, place: usize) -> bool
        requires { place < vec_len self.now.cells }
        ensures { result ≡ not (is_some (slice_index_or (kept_of self.now) place None)) }
    {
        matches!(self.cells[place], Cell::Empty)
    }

    /// Keeps a part at this place: an end, or a fragment.
    pub(crate) fn put(&mut self, place: usize, is_end: bool, part: &[u8])
        requires place { place < vec_len self.old.cells }
        requires part { length part.now ≤ self.old.max_pdu }
        ensures places { vec_len self.new.cells ≡ vec_len self.old.cells }
        ensures max_pdu { self.new.max_pdu ≡ self.old.max_pdu }
        ensures kept { kept_of self.new ≡ slice_set (kept_of self.old) place (Some (part_of is_end part.now)) }
    {
        let start = place * usize::from(self.max_pdu);
        let end = start + part.len();
        self.block[start..end].copy_from_slice(part);
        self.cells[place] = cell_of(is_end, part.len() as u8);
    }

    /// Hands the unit whose parts are kept in the slot that begins at this place. Afterwards the parts are not in their
    /// places any more. Where the first place is empty the unit is lost, and nothing is gathered.
    pub(crate) fn hand_slot<T: UnitTaker>(
        &mut self,
        stream: &Stream,
        first: usize,
        time: u64,
        taker: &mut T,
    ) -> Result<(), TakerFault>
        requires { first + per_unit_of stream.now.group.info ≤ vec_len self.old.cells }
        ensures places { vec_len self.new.cells ≡ vec_len self.old.cells }
        ensures max_pdu { self.new.max_pdu ≡ self.old.max_pdu }
        ensures prefix { take first (kept_of self.new) ≡ take first (kept_of self.old) }
        ensures behind { drop (first + per_unit_of stream.now.group.info) (kept_of self.new)
            ≡ drop (first + per_unit_of stream.now.group.info) (kept_of self.old) }
        ensures hands { HandsOver (handed_of stream.now.bis time
            (unit_of stream.now.group.info.max_sdu (take (per_unit_of stream.now.group.info) (drop first (kept_of self.old)))) ∷ [])
            (T.calls taker.old) (T.calls taker.new) result }
        ensures cause { Caused (T.counts taker.old) (T.counts taker.new) result }
    {
        if self.is_empty(first) {
            return hand(taker, stream.bis, time, None);
        }
        let max_sdu = usize::from(stream.group.info.max_sdu);
        let unit = match self.count_unit(first, stream.places(), max_sdu) {
            Some(count) => Some(self.octets(first, count)),
            None => None,
        };
        hand(taker, stream.bis, time, unit)
    }

    /// How many octets the slot's unit has. Its parts are moved together at the front of the slot's places first; a unit of one part
    /// stands there already.
    #[inline(always)]
    fn count_unit(&mut self, first: usize, places: usize, max_sdu: usize) -> Option<usize>
        requires some { 0 < places }
        requires within { first + places ≤ vec_len self.old.cells }
        ensures places { vec_len self.new.cells ≡ vec_len self.old.cells }
        ensures max_pdu { self.new.max_pdu ≡ self.old.max_pdu }
        ensures prefix { take first (kept_of self.new) ≡ take first (kept_of self.old) }
        ensures behind { drop (first + places) (kept_of self.new) ≡ drop (first + places) (kept_of self.old) }
        ensures unit { unit_of max_sdu (take places (drop first (kept_of self.old))) ≡ option_map (octets_at self.new first) result }
        ensures bound { IfSome result (λ count. first * self.new.max_pdu + count ≤ vec_len self.new.block) }
    {
        if let Cell::End(part) = self.cells[first] {
            let count = usize::from(part);
            return if count <= max_sdu { Some(count) } else { None };
        }
        self.gather(first, places, max_sdu)
    }

    /// Moves the parts of the slot's unit together at the front of its places, and answers how many octets the unit has. It stands
    /// apart, so that a unit of one part is a few comparisons.
    #[inline(never)]
    fn gather(&mut self, first: usize, places: usize, max_sdu: usize) -> Option<usize>
        requires { first + places ≤ vec_len self.old.cells }
        ensures places { vec_len self.new.cells ≡ vec_len self.old.cells }
        ensures max_pdu { self.new.max_pdu ≡ self.old.max_pdu }
        ensures prefix { take first (kept_of self.new) ≡ take first (kept_of self.old) }
        ensures behind { drop (first + places) (kept_of self.new) ≡ drop (first + places) (kept_of self.old) }
        ensures unit { unit_of max_sdu (take places (drop first (kept_of self.old))) ≡ option_map (octets_at self.new first) result }
        ensures bound { IfSome result (λ count. first * self.new.max_pdu + count ≤ vec_len self.new.block) }
    {
        let max_pdu = usize::from(self.max_pdu);
        let end = first + places;
        let block = &mut self.block[first * max_pdu..end * max_pdu];
        gather(&self.cells[first..end], max_pdu, max_sdu, block)
    }

    /// So many octets from this place on.
    fn octets(&self, first: usize, count: usize) -> &[u8]
        requires { first * self.now.max_pdu + count ≤ vec_len self.now.block }
        ensures { result.now ≡ octets_at self.now first count }
    {
        let start = first * usize::from(self.max_pdu);
        &self.block[start..start + count]
    }

    /// Empties these places.
    pub(crate) fn clear(&mut self, first: usize, places: usize)
        requires { first + places ≤ vec_len self.old.cells }
        ensures places { vec_len self.new.cells ≡ vec_len self.old.cells }
        ensures max_pdu { self.new.max_pdu ≡ self.old.max_pdu }
        ensures kept { kept_of self.new ≡ take first (kept_of self.old) ++ (replicate places None ++ drop (first + places)
            (kept_of self.old)) }
    {
        empty(&mut self.cells[first..first + places]);
    }

    /// How many octets are held at the places of a slot.
    pub(crate) fn held(&self, first: usize, places: usize, max_sdu: usize) -> usize
        requires { first + places ≤ vec_len self.now.cells }
        ensures bound { result ≤ max_sdu }
        ensures held { result ≡ held_in max_sdu (take places (drop first (kept_of self.now))) }
    {
        held(&self.cells[first..first + places], max_sdu)
    }
}

/// The cell of a part of so many octets.
fn cell_of(is_end: bool, count: u8) -> Cell
    ensures within { count_of result ≡ count }
    ensures reads { (part rest : List ℕ) → length part ≡ count → entry_in result (part ++ rest) ≡ Some (part_of is_end part) }
{
    if is_end {
        Cell::End(count)
    } else {
        Cell::Fragment(count)
    }
}

/// Empties all cells.
fn empty(cells: &mut [Cell])
    ensures { cells.new ≡ replicate (length cells.old) Empty }
{
    if cells.len() == 1 {
        cells[0] = Cell::Empty;
        return;
    }
    for cell in cells.iter_mut() {
        *cell = Cell::Empty;
    }
}

/// Moves the parts of a slot's unit together at the front of its places, which have `max_pdu` octets each, and answers
/// how many octets the unit has; `None` where the slot has no unit of at most `max_sdu` octets.
fn gather(cells: &[Cell], max_pdu: usize, max_sdu: usize, block: &mut [u8]) -> Option<usize>
    requires room { length block.old ≡ length cells.now * max_pdu }
    requires within { All (Within max_pdu) cells.now }
    ensures same { length block.new ≡ length block.old }
    ensures bound { IfSome result (λ n. n ≤ length block.new) }
    ensures unit { unit_of max_sdu (kept_in max_pdu cells.now block.old) ≡ option_map (λ n. take n block.new) result }
{
    let mut len = 0usize;
    let mut from = 0usize;
    'places: for cell in cells {
        match *cell {
            Cell::Empty => return None,
            Cell::Fragment(part) => {
                let count = usize::from(part);
                move_down(block, from, count, len);
                len += count;
                from += max_pdu;
            }
            Cell::End(part) => {
                let count = usize::from(part);
                move_down(block, from, count, len);
                len += count;
                return if len <= max_sdu { Some(len) } else { None };
            }
        }
    }
    None
}

/// Moves so many octets down to this place, where they don't stand there.
#[tactic(auto, using(crate::proofs::Vecs::moved_nowhere))]
fn move_down(block: &mut [u8], from: usize, count: usize, to: usize)
    requires order { to ≤ from }
    requires room { from + count ≤ length block.old }
    ensures same { length block.new ≡ length block.old }
    ensures octets { block.new ≡ copy_within block.old from (from + count) to }
{
    if from == to {
        return;
    }
    block.copy_within(from..from + count, to);
}

/// How many octets are held of a slot: those of the longest prefix of its parts that has an end at most in the last
/// place, and at most `max_sdu` octets.
fn held(cells: &[Cell], max_sdu: usize) -> usize
    ensures bound { result ≤ max_sdu }
    ensures held { result ≡ held_cells max_sdu cells.now }
{
    let mut sum = 0usize;
    'places: for cell in cells {
        match *cell {
            Cell::Empty => return sum,
            Cell::Fragment(part) => {
                let count = usize::from(part);
                if max_sdu - sum < count {
                    return sum;
                }
                sum += count;
            }
            Cell::End(part) => {
                let count = usize::from(part);
                return if max_sdu - sum < count {
                    sum
                } else {
                    sum + count
                };
            }
        }
    }
    sum
}

/// Hands a unit, or tells that it is lost.
#[inline(always)]
fn hand<T: UnitTaker>(
    taker: &mut T,
    bis: Bis,
    time: u64,
    unit: Option<&[u8]>,
) -> Result<(), TakerFault>
    ensures hands { HandsOver (handed_of bis time (option_copied unit.entry) ∷ []) (T.calls taker.old) (T.calls taker.new) result }
    ensures cause { Caused (T.counts taker.old) (T.counts taker.new) result }
{
    match unit {
        Some(octets) => taker.valid(bis, time, octets),
        None => taker.lost(bis, time),
    }
}
