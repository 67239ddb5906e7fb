ghost use Rattle.std.specs.Prelude.{◌≡◌, ◌≤◌, ◌<◌, ◌+◌, ◌==◌, ◌≢◌, ◌∷◌, [], drop, true};
ghost use Rattle.std.specs.Prelude.{false, ℕ, Ok, None, IfOk, IfSome, IsErr, OnErr, OnOk, if◌then◌else◌};
ghost use Rattle.scenario_text.specs.Ranges.{IsInRange};
ghost use Rattle.scenario_text.specs.Lines.{LineIs};
ghost use Rattle.scenario_lines.specs.Draws.{drawn, next_state};
ghost use Rattle.scenario_lines.specs.NextSteps.{NextSays};
ghost use Rattle.scenario_lines.specs.State.Places.{left_at, IsPlace};
ghost use Rattle.scenario_lines.specs.Generated.{air_line, generated_lines, head_lines, unit_line, unit_of};

use bcast_base::{Bis, Memory, Octets};
use scenario_text::Step;
use scenario_words::{Word, put_words};
use std::alloc::Global;
use std::marker::Model;
use std::mem;

/// The lines of the group, of the sinks and of the start.
const HEAD: [&str; 7] = [
    "scenario 1",
    "group unframed 20000 40000 8 10000 100 100 2 1 3 2 1 600 1800 1",
    "sink 0 1 1",
    "sink 1 1 1",
    "start 0",
    "tuned 0 1",
    "tuned 1 2",
];

/// Which line comes next.
#[derive(Clone, Copy)]
pub(crate) enum Place {
    /// One of the first lines, from 0.
    Head(usize),
    /// The first unit of stream 1.
    FirstUnit,
    /// The first unit of stream 2.
    SecondUnit,
    /// A unit of stream 1 before the next event, or the end.
    Unit,
    /// The unit of stream 2 before the next event.
    OtherUnit,
    /// The event.
    Event,
    /// What sink 0 hears of it.
    Air,
    /// What sink 1 hears of it.
    OtherAir,
    /// All lines came.
    Over,
}

/// The lines of the generator, one after the other: those that are still to come.
#[derive(Drop)]
pub struct Lines {
    place: Place,
    state: u32,
    event: u32,
    left: u32,
}

impl Model for Lines {
    ghost use Rattle.std.specs.Prelude.{ℕ, List, ◌<◌};
    ghost use Rattle.scenario_lines.specs.State.Places.{IsPlace, left_at};

    ghost Value = { List (List ℕ) };

    ghost view = { λ a. left_at a.place a.state a.event a.left };

    ghost invariant = { λ a. IsPlace a.place a.event a.left × (a.state < 2147483648) };
}

impl Lines {
    /// All lines of a scenario, by a seed of at most 2,147,483,647 and 1 to 100,000 events.
    pub fn new(seed: u32, events: u32) -> Lines
        requires seed { seed ≤ 2147483647 }
        requires least { 1 ≤ events }
        requires most { events ≤ 100000 }
        ensures { result ≡ generated_lines seed events }
    {
        Lines {
            place: Place::Head(0),
            state: seed,
            event: 0,
            left: events,
        }
    }

    /// Puts the next line in place of `line`, without its end: false where none is left, which wants no memory.
    pub fn next_line(&mut self, line: &mut Octets) -> Result<bool, Memory>
        ensures next { result ≡ Ok true → self.old ≡ line.new ∷ self.new }
        ensures none { result ≡ Ok false → self.old ≡ [] }
        ensures memory { IsErr result → self.old ≢ [] }
    {
        line.clear();
        match self.place {
            Place::Head(place) => {
                line.append(head_line(place).as_bytes())?;
                self.place = after_head(place);
            }
            Place::FirstUnit => {
                put_unit(line, 1, 0)?;
                self.place = Place::SecondUnit;
            }
            Place::SecondUnit => {
                put_unit(line, 2, 0)?;
                self.place = Place::Unit;
            }
            Place::Unit => self.place = put_unit_or_end(line, self.event, &mut self.left)?,
            Place::OtherUnit => {
                put_unit(line, 2, self.event + 1)?;
                self.place = Place::Event;
            }
            Place::Event => {
                line.append(b"event")?;
                self.place = Place::Air;
            }
            Place::Air => {
                self.state = put_drawn_air(line, 0, self.state)?;
                self.place = Place::OtherAir;
            }
            Place::OtherAir => {
                self.state = put_drawn_air(line, 1, self.state)?;
                self.event += 1;
                self.place = Place::Unit;
            }
            Place::Over => return Ok(false),
        }
        Ok(true)
    }

    /// The next line as the step that it says in each version, where it gives a unit behind the first ones, or is an event or what a
    /// sink hears of it. None for each other line, which is left. The octets of a unit come in the memory of `spare`.
    pub fn next_step(&mut self, alloc: Global, spare: &mut Octets) -> Result<Option<Step>, Memory>
        ensures says { IfOk result (λ next. IfSome next (λ step. NextSays step self.old self.new)) }
        ensures in_range { IfOk result (λ next. IfSome next IsInRange) }
        ensures left { result ≡ Ok None → self.new ≡ self.old }
    {
        match self.place {
            Place::Unit => {
                if self.left == 0 {
                    return Ok(None);
                }
                let step = unit_step(alloc, spare, 1, self.event + 1)?;
                self.left -= 1;
                self.place = Place::OtherUnit;
                Ok(Some(step))
            }
            Place::OtherUnit => {
                let step = unit_step(alloc, spare, 2, self.event + 1)?;
                self.place = Place::Event;
                Ok(Some(step))
            }
            Place::Event => {
                self.place = Place::Air;
                Ok(Some(Step::Event))
            }
            Place::Air => {
                self.state = next_state_of(self.state);
                self.place = Place::OtherAir;
                Ok(Some(air_step(0, self.state)))
            }
            Place::OtherAir => {
                self.state = next_state_of(self.state);
                self.event += 1;
                self.place = Place::Unit;
                Ok(Some(air_step(1, self.state)))
            }
            _ => Ok(None),
        }
    }
}

/// The first line of a place.
fn head_line(place: usize) -> &'static str
    requires { place < 7 }
    ensures { drop place head_lines ≡ result.now ∷ drop (place + 1) head_lines }
{
    HEAD[place]
}

/// The place behind one of the first lines.
fn after_head(place: usize) -> Place
    requires { place < 7 }
    ensures { result ≡ (if place == 6 then Place.FirstUnit else Place.Head (place + 1)) }
{
    if place == 6 {
        Place::FirstUnit
    } else {
        Place::Head(place + 1)
    }
}

/// The state that a draw sets.
fn next_state_of(state: u32) -> u32
    ensures state { result ≡ next_state state }
    ensures small { result < 2147483648 }
{
    ((u64::from(state) * 1_103_515_245 + 12_345) % 2_147_483_648) as u32
}

/// The loss that was drawn with a state.
fn lose_of(state: u32) -> u8
    ensures { result ≡ drawn state }
{
    (1 + (state / 65_536) % 9) as u8
}

/// The octets of unit x.
fn octets_of(x: u32) -> [u8; 100]
    ensures { result ≡ unit_of x }
{
    [(x % 256) as u8; 100]
}

/// The step that gives unit x on a stream, in the memory of `spare`.
#[tactic(auto, using(crate::proofs::MadeSteps::unit_fits))]
fn unit_step(alloc: Global, spare: &mut Octets, bis: u8, x: u32) -> Result<Step, Memory>
    requires least { 1 ≤ bis }
    requires greatest { bis ≤ 31 }
    ensures says { IfOk result (λ step. (version : ℕ) → LineIs version step (unit_line bis x)) }
    ensures in_range { IfOk result IsInRange }
{
    let bis = Bis::new(bis).unwrap();
    let mut octets = mem::replace(spare, Octets::new(alloc));
    octets.clear();
    octets.append(&octets_of(x))?;
    Ok(Step::Unit {
        bis,
        time: None,
        octets,
    })
}

/// The step by which a sink hears an event, with the loss that was drawn with this state.
#[tactic(auto, using(crate::proofs::MadeSteps::air_says))]
fn air_step(sink: u8, state: u32) -> Step
    requires { sink ≤ 7 }
    ensures says { (version : ℕ) → LineIs version result (air_line sink (drawn state)) }
    ensures in_range { IsInRange result }
{
    Step::Air {
        sink,
        lose: lose_of(state),
    }
}

/// Puts the line that gives unit x on a stream.
#[tactic(auto, unfolding(crate::specs::Generated::unit_line))]
fn put_unit(line: &mut Octets, bis: u8, x: u32) -> Result<(), Memory>
    requires { line.old ≡ [] }
    ensures { OnOk result (line.new ≡ unit_line bis x) }
{
    let octets = octets_of(x);
    put_words(
        line,
        b"unit",
        &[
            Word::Number(u64::from(bis)),
            Word::Text(b"-"),
            Word::Octets(&octets),
        ],
    )
}

/// Puts the first unit of the event behind this one, where one is left, or else the end: the place behind it.
fn put_unit_or_end(line: &mut Octets, event: u32, left: &mut u32) -> Result<Place, Memory>
    requires empty { line.old ≡ [] }
    requires within { event + left.old ≤ 100000 }
    ensures next { (state : ℕ) → IfOk result (λ place. left_at Place.Unit state event left.old
        ≡ line.new ∷ left_at place state event left.new) }
    ensures place { IfOk result (λ place. IsPlace place event left.new) }
    ensures err { OnErr result (left.new ≡ left.old) }
{
    if *left == 0 {
        line.append(b"end")?;
        return Ok(Place::Over);
    }
    put_unit(line, 1, event + 1)?;
    *left -= 1;
    Ok(Place::OtherUnit)
}

/// Draws a number, and puts the line by which a sink hears an event with this loss: the state that the draw set.
fn put_drawn_air(line: &mut Octets, sink: u8, state: u32) -> Result<u32, Memory>
    requires { line.old ≡ [] }
    ensures line { OnOk result (line.new ≡ air_line sink (drawn (next_state state))) }
    ensures state { IfOk result (λ next. next ≡ next_state state) }
    ensures small { IfOk result (λ next. next < 2147483648) }
{
    let next = next_state_of(state);
    put_air(line, sink, next)?;
    Ok(next)
}

/// Puts the line by which a sink hears an event, with the loss that was drawn with this state.
#[tactic(auto, unfolding(crate::specs::Generated::air_line))]
fn put_air(line: &mut Octets, sink: u8, state: u32) -> Result<(), Memory>
    requires { line.old ≡ [] }
    ensures { OnOk result (line.new ≡ air_line sink (drawn state)) }
{
    let lose = lose_of(state);
    put_words(
        line,
        b"air",
        &[Word::Number(u64::from(sink)), Word::Number(u64::from(lose))],
    )
}
