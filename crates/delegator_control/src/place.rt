//! Where the sink is, by what may be done then.
ghost use Rattle.std.specs.Prelude.{◌≡◌, [], None, Some, false, if◌then◌else◌};
ghost use Rattle.delegator_history.specs.Snapshots.{Snapshot, on_group, on_train, is_on, is_on_group, slot_of};
ghost use Rattle.delegator_history.specs.Steps.{place_left, placed};
ghost use Rattle.delegator_history.specs.Trains.{is_elsewhere};
ghost use Rattle.delegator_control.specs.declared.place.Place.TheVariants as places;
ghost use Rattle.delegator_control.specs.State.Places.{place_by, place_of, encrypted_of, taken_of, standing};

use delegator_choices::TakenBits;
use std::alloc::Global;
use std::mem::replace;

/// The sink is on no train and on no group.
#[derive(Drop)]
pub(crate) struct SinkIdle;

/// The sink is on the periodic advertising train of a slot's source.
#[derive(Drop)]
pub(crate) struct SinkOnTrain {
    slot: u8,
    /// A Broadcast_Code is required.
    encrypted: bool,
}

/// The sink is on a group, of a slot's source or of no slot.
#[derive(Drop)]
pub(crate) struct SinkOnGroup {
    slot: Option<u8>,
    /// A Broadcast_Code is required.
    encrypted: bool,
    taken: TakenBits,
}

#[derive(Drop)]
pub(crate) enum Place {
    Idle(SinkIdle),
    OnTrain(SinkOnTrain),
    OnGroup(SinkOnGroup),
}

impl SinkIdle {
    /// Puts the sink on the train of a slot.
    fn on_train(self, slot: u8, encrypted: bool) -> SinkOnTrain
        ensures { result ≡ record { slot = slot; encrypted = encrypted } }
    {
        SinkOnTrain { slot, encrypted }
    }

    /// Puts the sink on a group of no slot.
    fn on_group(self, alloc: Global) -> SinkOnGroup
        ensures { result ≡ record { slot = None; encrypted = false; taken = [] } }
    {
        SinkOnGroup {
            slot: None,
            encrypted: false,
            taken: TakenBits::new(alloc),
        }
    }
}

impl SinkOnTrain {
    /// Puts the sink on the group of its slot.
    fn on_group(self, taken: TakenBits) -> SinkOnGroup
        ensures { result ≡ record { slot = Some self.slot; encrypted = self.encrypted; taken = taken } }
    {
        SinkOnGroup {
            slot: Some(self.slot),
            encrypted: self.encrypted,
            taken,
        }
    }

    fn off(self) -> SinkIdle {
        SinkIdle
    }
}

impl SinkOnGroup {
    /// Leaves the group, and the train too where it is of no slot.
    fn off_group(self) -> Place
        ensures { (snapshot : Snapshot) → standing result snapshot
            ≡ placed (place_left (place_of (places.OnGroup self))) None None (standing (places.OnGroup self) snapshot) }
    {
        match self.slot {
            None => Place::Idle(SinkIdle),
            Some(slot) => Place::OnTrain(SinkOnTrain {
                slot,
                encrypted: self.encrypted,
            }),
        }
    }

    fn off(self) -> SinkIdle {
        SinkIdle
    }
}

impl Place {
    /// The slot whose train or group the sink is on.
    pub(crate) fn slot(&self) -> Option<u8>
        ensures { result ≡ slot_of (place_of self.now) }
    {
        match self {
            Place::Idle(_) => None,
            Place::OnTrain(on) => Some(on.slot),
            Place::OnGroup(on) => on.slot,
        }
    }

    /// Whether the sink is on the train or the group of the slot.
    pub(crate) fn is_on(&self, slot: u8) -> bool
        ensures { result ≡ is_on (place_of self.now) slot }
    {
        match self.slot() {
            None => false,
            Some(other) => other == slot,
        }
    }

    /// Whether the sink is on the group of the slot.
    pub(crate) fn is_on_group(&self, slot: u8) -> bool
        ensures { result ≡ is_on_group (place_of self.now) slot }
    {
        match self {
            Place::Idle(_) => false,
            Place::OnTrain(_) => false,
            Place::OnGroup(_) => self.is_on(slot),
        }
    }

    /// Whether the sink is on another train or group than that of the slot.
    pub(crate) fn is_elsewhere(&self, slot: u8) -> bool
        ensures { result ≡ is_elsewhere (place_of self.now) slot }
    {
        match self {
            Place::Idle(_) => false,
            Place::OnTrain(on) => on.slot != slot,
            Place::OnGroup(_) => !self.is_on(slot),
        }
    }

    /// Whether a Broadcast_Code is required.
    pub(crate) fn is_encrypted(&self) -> bool
        ensures { result ≡ encrypted_of self.now }
    {
        match self {
            Place::Idle(_) => false,
            Place::OnTrain(on) => on.encrypted,
            Place::OnGroup(on) => on.encrypted,
        }
    }

    /// The streams that are taken of the slot, a number for each subgroup.
    pub(crate) fn bits_on(&self, slot: u8) -> &[u32]
        ensures { result.now ≡ (if is_on_group (place_of self.now) slot then taken_of self.now else []) }
    {
        match self {
            Place::OnGroup(on) if self.is_on(slot) => on.taken.as_slice(),
            _ => &[],
        }
    }
}

/// A change of the place.
#[derive(Clone, Copy)]
pub(crate) enum Move {
    Stay,
    /// The sink leaves group and train.
    Off,
    /// The sink leaves the group. It stays on the train, where it is on the group of a slot.
    OffGroup,
}

/// Makes the change.
pub(crate) fn make_move(place: &mut Place, moves: Move)
    ensures { (snapshot : Snapshot) → standing place.new snapshot
        ≡ placed (place_by (place_of place.old) moves) None None (standing place.old snapshot) }
{
    if let Move::Stay = moves {
        return;
    }
    let old = replace(place, Place::Idle(SinkIdle));
    *place = match moves {
        Move::Stay => old,
        Move::Off => Place::Idle(off(old)),
        Move::OffGroup => off_group(old),
    };
}

/// Puts the sink on a group of no slot. It takes no memory.
pub(crate) fn join(place: &mut Place, alloc: Global)
    ensures { (snapshot : Snapshot) → standing place.new snapshot ≡ placed (Some (on_group None)) None None (standing place.old snapshot) }
{
    let old = replace(place, Place::Idle(SinkIdle));
    *place = Place::OnGroup(off(old).on_group(alloc));
}

/// Puts the sink on the train of the slot.
pub(crate) fn join_train(place: &mut Place, slot: u8, encrypted: bool)
    ensures { (snapshot : Snapshot) → standing place.new snapshot ≡ record snapshot { place = on_train slot; encrypted = encrypted; taken = [] } }
{
    let old = replace(place, Place::Idle(SinkIdle));
    *place = Place::OnTrain(off(old).on_train(slot, encrypted));
}

/// Puts the sink on the group of the slot, with these streams of each subgroup.
pub(crate) fn join_group(place: &mut Place, slot: u8, encrypted: bool, taken: TakenBits)
    ensures { (snapshot : Snapshot) → standing place.new snapshot
        ≡ record snapshot { place = on_group (Some slot); encrypted = encrypted; taken = taken } }
{
    let old = replace(place, Place::Idle(SinkIdle));
    *place = Place::OnGroup(off(old).on_train(slot, encrypted).on_group(taken));
}

/// Takes the sink off its train and its group.
fn off(place: Place) -> SinkIdle {
    match place {
        Place::Idle(sink) => sink,
        Place::OnTrain(on) => on.off(),
        Place::OnGroup(on) => on.off(),
    }
}

/// Takes the sink off its group.
fn off_group(place: Place) -> Place
    ensures { (snapshot : Snapshot) → standing result snapshot ≡ placed (place_left (place_of place)) None None (standing place snapshot) }
{
    match place {
        Place::OnGroup(on) => on.off_group(),
        other => other,
    }
}
