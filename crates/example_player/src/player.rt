//! The player: a receiver, and the list that takes its units.
ghost use Rattle.std.specs.Prelude.{◌≡◌, ◌≤◌, ◌<◌, ◌+◌, ◌^◌, ◌∷◌, [], ℕ, List, IfOk, OnOk};
ghost use Rattle.isoal_base.specs.Stays.{Stay, Call, hear, close};
ghost use Rattle.isoal_framed.specs.Struck.{Fit, FromSource, InOrder, Sent, closed_end, struck};
ghost use Rattle.example_player.specs.Played.{PlayedPrefix, Plays, handed_by, open_event_of, played_by};

use crate::playlist::Playlist;
use bcast_base::{Bis, Memory};
use big_info::Group;
use isoal_base::Heard;
use isoal_framed::{FramedIn, framed_units_are_struck};
use std::alloc::Global;

/// A player that stays on one framed stream of a group.
#[derive(Drop)]
pub struct Player {
    receiver: FramedIn,
    playlist: Playlist,
}

impl Player {
    /// A player that heard nothing yet, with its first event open, whose anchor is in µs, as the presentation delay is.
    pub fn new(
        alloc: Global,
        group: &Group,
        bis: Bis,
        first_event: u64,
        anchor: u64,
        delay: u32,
    ) -> Result<Player, Memory>
        requires framed { group.now.info.framing ≡ 1 }
        requires event { first_event ≤ 2 ^ 39 }
        requires anchor { anchor ≤ 2 ^ 61 + 2 ^ 23 }
        requires delay { delay < 2 ^ 24 }
        ensures { let stay : Stay = record { info = group.now.info; bis = bis; first = first_event; origin = anchor; delay = delay } in
            IfOk result (λ player. Plays stay [] player × (open_event_of player ≡ first_event)) }
    {
        Ok(Player {
            receiver: FramedIn::new(alloc, group, bis, first_event, anchor, delay)?,
            playlist: Playlist::new(alloc),
        })
    }

    /// Hears a PDU under its payload number. It takes no memory.
    pub fn hear(&mut self, number: u64, pdu: &[u8]) -> Heard
        ensures plays { (stay : Stay) (calls : List Call) → Plays stay calls self.old
            → Plays stay (hear number pdu.now ∷ calls) self.new }
        ensures event { open_event_of self.new ≡ open_event_of self.old }
    {
        self.receiver.hear(number, pdu)
    }

    /// Closes the open event, and keeps the units that are decided by it. After Memory the event is closed too, and a prefix of these
    /// units is kept.
    pub fn close(&mut self) -> Result<(), Memory>
        requires { open_event_of self.old < 2 ^ 39 }
        ensures plays { (stay : Stay) (calls : List Call) → Plays stay calls self.old
            → OnOk result (Plays stay (close ∷ calls) self.new) }
        ensures prefix { (stay : Stay) (calls : List Call) → Plays stay calls self.old
            → PlayedPrefix stay (close ∷ calls) self.new }
        ensures event { open_event_of self.new ≡ open_event_of self.old + 1 }
    {
        match self.receiver.close(&mut self.playlist) {
            Ok(()) => Ok(()),
            Err(_) => Err(Memory),
        }
    }

    /// The units that were handed up, oldest first.
    ///
    /// The law of a stay: where each PDU that was heard is the source's own at its number, there is an entry for each unit whose start
    /// was heard, in order: the unit with its time, where all numbers that carry it were heard before their events closed, and none of
    /// its octets where the first that wasn't is closed.
    pub fn playlist(&self) -> &Playlist
        ensures list { handed_by result.now ≡ played_by self.now }
        ensures law { (stay : Stay) (units : List Sent) (laid : ℕ) (calls : List Call) → 1 ≤ stay.info.bn → InOrder 0 laid units
            → closed_end stay calls ≤ laid → Fit stay.info.max_sdu units → FromSource stay units calls
            → Plays stay calls self.now → handed_by result.now ≡ struck stay units calls }
    {
        framed_units_are_struck();
        &self.playlist
    }
}
