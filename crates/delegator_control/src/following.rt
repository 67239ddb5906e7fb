//! How a sink goes on the train or the group of a slot.
ghost use Rattle.std.specs.Prelude.{◌≡◌, ◌<◌, ◌++◌, false, option_map, vec_len, Option, Bool, Some, OnOk, OnErr};
ghost use Rattle.delegator_history.specs.Notices.{change};
ghost use Rattle.delegator_history.specs.Snapshots.{entry_at};
ghost use Rattle.delegator_history.specs.Steps.{encrypted_on, followed, joined};
ghost use Rattle.delegator_history.specs.Trains.{is_elsewhere};
ghost use Rattle.delegator_history.specs.Values.{received, value, value_at};
ghost use Rattle.delegator_control.specs.State.Machines.{machine, moved};
ghost use Rattle.delegator_control.specs.State.Places.{encrypted_of, place_of};
ghost use Rattle.delegator_control.specs.State.Statuses.{status_seen};

use crate::place::{Move, Place, join_group, join_train};
use crate::scan_delegator::ScanDelegator;
use crate::values::{Status, note_standing, status_after};
use bcast_base::Memory;
use delegator_choices::TakenBits;

impl ScanDelegator {
    /// Puts the sink on the train of the slot, which it may be on already. Whether a Broadcast_Code is required stays where
    /// nothing is told. After want of memory the sink is as before.
    pub(crate) fn go_on_train(&mut self, slot: u8, encrypted: Option<bool>) -> Result<(), Memory>
        requires within { slot < vec_len self.old.slots }
        requires near { is_elsewhere (place_of self.old.place) slot ≡ false }
        ensures step { OnOk result (machine self.new ≡ moved (followed slot encrypted) (machine self.old)) }
        ensures err { OnErr result (machine self.new ≡ machine self.old) }
    {
        let is_encrypted = encrypted_then(&self.place, slot, encrypted);
        let status = Status {
            is_synced: true,
            is_encrypted,
            bits: &[],
        };
        self.note_status(slot, &status)?;
        join_train(&mut self.place, slot, is_encrypted);
        Ok(())
    }

    /// Puts the sink on the group of the slot, whose train it may be on already. After want of memory the sink is as before.
    pub(crate) fn go_on_group(
        &mut self,
        slot: u8,
        taken: TakenBits,
        encrypted: bool,
    ) -> Result<(), Memory>
        requires within { slot < vec_len self.old.slots }
        requires near { is_elsewhere (place_of self.old.place) slot ≡ false }
        ensures step { OnOk result (machine self.new ≡ moved (joined slot encrypted taken) (machine self.old)) }
        ensures err { OnErr result (machine self.new ≡ machine self.old) }
    {
        let status = Status {
            is_synced: true,
            is_encrypted: encrypted,
            bits: taken.as_slice(),
        };
        self.note_status(slot, &status)?;
        join_group(&mut self.place, slot, encrypted, taken);
        Ok(())
    }

    // Puts the notice of the slot, where its value changes once the sink stands so to it.
    fn note_status(&mut self, slot: u8, status: &Status<'_>) -> Result<(), Memory>
        requires within { slot < vec_len self.old.slots }
        ensures ok { OnOk result (machine self.new ≡ record (machine self.old) {
          waiting = (machine self.old).waiting
              ++ change slot (value_at (machine self.old).snapshot slot)
              (value (option_map (received (status_seen status.now)) (entry_at (machine self.old).snapshot.slots slot)));
        }) }
        ensures place { self.new.place ≡ self.old.place }
        ensures err { OnErr result (machine self.new ≡ machine self.old) }
    {
        let before = status_after(&self.place, slot, Move::Stay);
        let held = &self.slots[usize::from(slot)];
        note_standing(self.alloc, &mut self.waiting, slot, held, &before, status)
    }
}

/// Whether a Broadcast_Code is required once the sink is on the train of the slot.
fn encrypted_then(place: &Place, slot: u8, encrypted: Option<bool>) -> bool
    ensures { result ≡ encrypted_on (Some slot) (place_of place.now) encrypted (encrypted_of place.now) }
{
    match encrypted {
        Some(told) => told,
        None => place.is_on(slot) && place.is_encrypted(),
    }
}
