//! What a train brings.
ghost use Rattle.std.specs.Prelude.{◌≡◌};

use crate::taken_bits::TakenBits;
use delegator_history::TrainHeard;
use sync_reference::BigSync;

/// What a train brings, with the slot that it is of.
#[derive(Drop)]
pub enum TrainOutcome {
    /// One of the first four answers: nothing is done.
    Ignored(TrainHeard),
    /// NoBase to NoneTaken: the sink is then on the train.
    Heard {
        slot: u8,
        answer: TrainHeard,
        /// Whether a Broadcast_Code is required, where the train tells.
        encrypted: Option<bool>,
    },
    /// OnGroup: the sink is then on the group.
    Taken {
        slot: u8,
        /// The streams that are taken of each subgroup.
        bits: TakenBits,
        /// A Broadcast_Code is required.
        encrypted: bool,
        big_sync: BigSync,
    },
}

impl TrainOutcome {
    ghost use Rattle.std.specs.Prelude.{option_copied};
    ghost use Rattle.delegator_history.specs.Trains.{big_sync_in};
    ghost use Rattle.delegator_choices.specs.State.Brings.{outcome_of};

    /// How it synchronizes the sink to a BIG; `None` exactly where it doesn't.
    pub fn big_sync(&self) -> Option<&BigSync>
        ensures { option_copied result ≡ big_sync_in (outcome_of self.now) }
    {
        match self {
            TrainOutcome::Taken { big_sync, .. } => Some(big_sync),
            _ => None,
        }
    }
}
