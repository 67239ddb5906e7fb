//! What takes the units of the receiver: a list that keeps them.
ghost use Rattle.std.specs.Prelude.{◌≡◌, ◌++◌, ◌∷◌, [], map, OnOk, OnErr, IsErr};
ghost use Rattle.unit_outlets.specs.Handed.{Caused};
ghost use Rattle.example_player.specs.Played.{counts_of, handed_as, handed_by};

use bcast_base::{Bis, Memory, Octets};
use std::alloc::Global;
use unit_outlets::{TakerFault, UnitTaker};

/// A unit that was handed up: its stream, the time in µs at which it is rendered, and its octets, or none where it is lost.
#[derive(Drop)]
pub struct Entry {
    pub bis: Bis,
    pub time: u64,
    pub octets: Option<Octets>,
}

/// The units that were handed up, oldest first.
#[derive(Drop)]
pub struct Playlist {
    pub entries: Vec<Entry>,
    alloc: Global,
    wants: u64,
}

impl Playlist {
    /// A list of no units. It takes no memory.
    pub(crate) fn new(alloc: Global) -> Playlist
        ensures { handed_by result ≡ [] }
    {
        Playlist {
            entries: Vec::new(alloc),
            alloc,
            wants: 0,
        }
    }

    fn put(&mut self, bis: Bis, time: u64, octets: Option<Octets>) -> Result<(), Memory>
        ensures ok { OnOk result (handed_by self.new ≡ handed_by self.old ++ handed_as bis time octets ∷ []) }
        ensures err { OnErr result (self.new.entries.items ≡ self.old.entries.items) }
        ensures wants { self.new.wants ≡ self.old.wants }
    {
        self.entries.push(Entry { bis, time, octets })?;
        Ok(())
    }

    /// Counts a want of memory, up to the last number.
    fn want(&mut self) -> Result<(), TakerFault>
        ensures refused { IsErr result }
        ensures cause { Caused (counts_of self.old) (counts_of self.new) result }
        ensures entries { self.new.entries.items ≡ self.old.entries.items }
    {
        self.wants = self.wants.saturating_add(1);
        Err(TakerFault::Memory)
    }
}

impl UnitTaker for Playlist {
    ghost use Rattle.example_player.specs.Played.{counts_of, handed_by};

    ghost calls = { handed_by };

    ghost counts = { counts_of };

    fn valid(&mut self, bis: Bis, time: u64, octets: &[u8]) -> Result<(), TakerFault> {
        let Ok(octets) = Octets::copy(self.alloc, octets) else {
            return self.want();
        };
        match self.put(bis, time, Some(octets)) {
            Ok(()) => Ok(()),
            Err(_) => self.want(),
        }
    }

    fn lost(&mut self, bis: Bis, time: u64) -> Result<(), TakerFault> {
        match self.put(bis, time, None) {
            Ok(()) => Ok(()),
            Err(_) => self.want(),
        }
    }
}
