//! What C takes out of a sink.
ghost use Rattle.std.specs.Prelude.{◌≡◌, true, false, ◌∷◌, ◌<◌, ◌≤◌, List, length, take, IfSome, None, ◌≢◌, []};
ghost use Rattle.unit_outlets.specs.Handed.{Handed};
ghost use Rattle.c_values.specs.Kept.{IsWithin, greatest_unit};
ghost use Rattle.c_values.specs.Sound.{waiting_as};
ghost use Rattle.c_values.specs.Statuses.{empty, no_room, ok};
ghost use Rattle.c_values.specs.Units.{unit_in};

use crate::rooms::put_back;
use crate::status::{EMPTY, OK, ROOM};
use crate::units::{Entry, Round, Units};

/// A unit: its octets are at the front of the room; a lost one has none.
#[repr(C)]
#[derive(Clone, Copy)]
pub struct VmUnit {
    pub time: u64,
    pub count: usize,
    pub bis: u8,
    pub is_valid: bool,
}

/// Puts octets at the front of the room, where they fit.
pub fn put(octets: &[u8], room: &mut [u8]) -> bool
    ensures count { length room.new ≡ length room.old }
    ensures put { result ≡ true → take (length octets.now) room.new ≡ octets.now }
    ensures same { result ≡ false → room.new ≡ room.old }
    ensures fits { length octets.now ≤ length room.old → result ≡ true }
{
    if octets.len() > room.len() {
        return false;
    }
    room[..octets.len()].copy_from_slice(octets);
    true
}

/// A unit for C, with its octets at the front of the room, where they fit.
fn shown(entry: &Entry, room: &mut [u8]) -> Option<VmUnit>
    ensures some { IfSome result (λ unit. unit_in unit room.new ≡ waiting_as entry.now) }
    ensures none { result ≡ None → room.new ≡ room.old }
    ensures fits { length entry.now.octets.items ≤ length room.old → result ≢ None }
    ensures within { IsWithin (length room.old) (waiting_as entry.now) → result ≢ None }
    ensures count { IfSome result (λ unit. unit.count ≤ length room.new) }
    ensures lost { IfSome result (λ unit. unit.is_valid ≡ false → unit.count ≡ 0) }
{
    if !entry.is_valid {
        return Some(VmUnit {
            time: entry.time,
            count: 0,
            bis: entry.bis.get(),
            is_valid: false,
        });
    }
    if !put(entry.octets.as_slice(), room) {
        return None;
    }
    Some(VmUnit {
        time: entry.time,
        count: entry.octets.len(),
        bis: entry.bis.get(),
        is_valid: true,
    })
}

impl Units {
    /// Takes the first unit that waits. ROOM where the room is too small, and it still waits; EMPTY where none waits. Its own room serves
    /// again.
    pub fn take_into(&mut self, room: &mut [u8], unit: &mut VmUnit) -> u32
        ensures taken { result ≡ ok → self.old.waiting ≡ unit_in unit.new room.new ∷ self.new.waiting }
        ensures none { result ≡ empty → self.old.waiting ≡ [] }
        ensures same { result ≢ ok → (self.new ≡ self.old) × (unit.new ≡ unit.old) × (room.new ≡ room.old) }
        ensures room { self.new.room ≡ self.old.room }
        ensures fits { greatest_unit ≤ length room.old → result ≢ no_room }
        ensures within { (first : Handed) (others : List Handed) → self.old.waiting ≡ first ∷ others → IsWithin (length room.old) first
            → result ≢ no_room }
        ensures waits { 0 < length self.old.waiting → result ≢ empty }
        ensures count { result ≡ ok → unit.new.count ≤ length room.new }
        ensures lost { result ≡ ok → unit.new.is_valid ≡ false → unit.new.count ≡ 0 }
        ensures either { result ≢ ok → result ≢ empty → result ≡ no_room }
    {
        let Some(entry) = self.entries.first() else {
            return EMPTY;
        };
        let Some(shown) = shown(entry, room) else {
            return ROOM;
        };
        *unit = shown;
        let gone = self.entries.remove(0);
        put_back(&mut self.spare, self.size, gone.octets);
        self.round = Round::new(0);
        OK
    }
}
