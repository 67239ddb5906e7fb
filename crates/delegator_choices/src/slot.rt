ghost use Rattle.std.specs.Prelude.{◌≡◌};
ghost use Rattle.delegator_choices.specs.State.Slots.{EntryFits};

use bass_operations::Wishes;
use delegator_history::Source;
use std::marker::Model;

/// A slot that is filled: its source, and what is wanted of it.
#[derive(Drop)]
pub struct Slot {
    source: Source,
    pa_sync: u8,
    wishes: Wishes,
}

impl Model for Slot {
    ghost use Rattle.delegator_history.specs.Snapshots.{Entry};
    ghost use Rattle.delegator_choices.specs.State.Slots.{EntryFits, entry};

    ghost Value = { Entry };

    ghost view = { λ a. entry a.source a.pa_sync a.wishes };

    ghost invariant = { λ a. EntryFits (entry a.source a.pa_sync a.wishes) };
}

impl Slot {
    ghost use Rattle.delegator_choices.specs.State.Slots.{entry};

    /// The slot of a source, of whose train and streams this is wanted.
    pub fn new(source: Source, pa_sync: u8, wishes: Wishes) -> Slot
        requires { EntryFits (entry source pa_sync wishes) }
        ensures { result ≡ entry source pa_sync wishes }
    {
        Slot {
            source,
            pa_sync,
            wishes,
        }
    }

    /// Its source.
    pub fn source(&self) -> Source
        ensures same { result ≡ self.now.source }
        ensures fits { EntryFits self.now }
    {
        self.source
    }

    /// PA_Sync of the last operation that was accepted: 0 where its train is not wanted.
    pub fn pa_sync(&self) -> u8
        ensures { result ≡ self.now.wanted.pa_sync }
    {
        self.pa_sync
    }

    /// What is wanted of each subgroup; the slot is given up.
    pub fn into_wishes(self) -> Wishes
        ensures { result ≡ self.wanted.wishes }
    {
        self.wishes
    }

    /// What is wanted of each subgroup.
    pub fn wishes(&self) -> &Wishes
        ensures { result.now ≡ self.now.wanted.wishes }
    {
        &self.wishes
    }
}
