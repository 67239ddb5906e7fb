//! The line of a train, read straight into its octets, without a step.
ghost use Rattle.std.specs.Prelude.{◌≡◌, ◌≤◌, ◌^◌, ℕ, true, Ok, Err, Some, IfOk, IfSome, IsErr, IsTrue};
ghost use Rattle.scenario_words.specs.declared.fault.LineFault.TheVariants.{Memory as NoMemory};
ghost use Rattle.scenario_text.specs.declared.step.Step.TheVariants.{Train};
ghost use Rattle.scenario_text.specs.Steps.{at_row, read_of};
ghost use Rattle.scenario_text.specs.Table.{train_row};
ghost use Rattle.scenario_lines.specs.Taking.{LineTakes, some_takes};

use crate::frequent::behind;
use bcast_base::{Memory, Octets};
use scenario_words::{Cursor, LineFault};
use std::alloc::Global;

/// The latest time of a train, in µs.
const LATEST: u64 = 1 << 48;

/// Memory in which the lines of trains are read, kept from one to the next: the octets of the last train.
#[derive(Drop)]
pub struct TrainRoom {
    ext: Octets,
    adv: Octets,
    acad: Octets,
}

/// Which sink hears a train, and when it begins, in µs.
#[derive(Clone, Copy)]
pub struct TrainHead {
    /// From 0 to 7.
    pub sink: u8,
    /// At most 2 ^ 48.
    pub time: u64,
}

impl TrainRoom {
    /// No octets. It takes no memory.
    pub fn new(alloc: Global) -> TrainRoom {
        TrainRoom {
            ext: Octets::new(alloc),
            adv: Octets::new(alloc),
            acad: Octets::new(alloc),
        }
    }

    /// The octets of the extended advertisement.
    pub fn ext(&self) -> &[u8]
        ensures { result.now ≡ self.now.ext }
    {
        self.ext.as_slice()
    }

    /// The octets of the periodic advertisement.
    pub fn adv(&self) -> &[u8]
        ensures { result.now ≡ self.now.adv }
    {
        self.adv.as_slice()
    }

    /// The octets of the ACAD.
    pub fn acad(&self) -> &[u8]
        ensures { result.now ≡ self.now.acad }
    {
        self.acad.as_slice()
    }
}

/// Reads a line that says a train, which is the same in each version: its octets are then in the room. For any other line, and for one
/// that doesn't fit, the answer is None, and nothing is said of the room.
pub fn read_train(
    alloc: Global,
    room: &mut TrainRoom,
    line: &[u8],
) -> Result<Option<TrainHead>, Memory>
    ensures sink { IfOk result (λ found. IfSome found (λ head. (head.sink ≤ 7) × (head.time ≤ 2 ^ 48))) }
    ensures reads { IfOk result (λ found. IfSome found (λ head. (version : ℕ)
        → read_of version line.now ≡ Ok (Some (Train head.sink head.time room.new.ext room.new.adv room.new.acad)))) }
    // Memory runs out only at a line that spells octets for its step to keep.
    ensures memory { IsErr result → (version : ℕ) → LineTakes version line.now }
{
    let Some(words) = behind(b"train ", line) else {
        return Ok(None);
    };
    let mut words = Cursor::behind_first(words);
    let Some(head) = train(alloc, room, &mut words)? else {
        return Ok(None);
    };
    if words.has_more() {
        return Ok(None);
    }
    Ok(Some(head))
}

/// `N T EXT ADV ACAD` of `train`, where these words fit.
#[tactic(auto, using(scenario_lines::proofs::Taking::next_spells, scenario_lines::proofs::Taking::some_left))]
fn train(
    alloc: Global,
    room: &mut TrainRoom,
    words: &mut Cursor<'_>,
) -> Result<Option<TrainHead>, Memory>
    ensures sink { IfOk result (λ found. IfSome found (λ head. (head.sink ≤ 7) × (head.time ≤ 2 ^ 48))) }
    ensures gives { IfOk result (λ found. IfSome found (λ head. at_row train_row words.old
        ≡ Ok (Train head.sink head.time room.new.ext room.new.adv room.new.acad, words.new))) }
    ensures memory { IsErr result → some_takes train_row.places words.old ≡ true }
{
    let Ok(sink) = words.octet(0, 7) else {
        return Ok(None);
    };
    let Ok(time) = words.number(0, LATEST) else {
        return Ok(None);
    };
    if !fits(words.inner_octets_into(alloc, &mut room.ext, 255))? {
        return Ok(None);
    }
    if !fits(words.inner_octets_into(alloc, &mut room.adv, 1_650))? {
        return Ok(None);
    }
    if !fits(words.octets_into(alloc, &mut room.acad, 255))? {
        return Ok(None);
    }
    Ok(Some(TrainHead { sink, time }))
}

/// Whether the word fitted that was read.
fn fits(read: Result<(), LineFault>) -> Result<bool, Memory>
    ensures gives { IfOk result (λ fits. IsTrue fits → read ≡ Ok tt) }
    ensures memory { IsErr result → read ≡ Err NoMemory }
{
    match read {
        Ok(()) => Ok(true),
        Err(LineFault::BadLine { word: _ }) => Ok(false),
        Err(LineFault::Memory) => Err(Memory),
    }
}
