ghost use Rattle.std.specs.Prelude.{◌≡◌, ◌≤◌, [], Ok, map, option_map, string_bytes, codes, IfOk, IfSome};
ghost use Rattle.clap.specs.Words.{first_of, rows_of, found_of};
ghost use Rattle.scenario_words.specs.Reading.{decimal_in};
ghost use Rattle.replay_words.specs.declared.mode.Mode.TheVariants.{Replay};
ghost use Rattle.replay_words.specs.Words.{HasNumbers, asked as mode_asked, asked_of};
ghost use Rattle.replay_words.specs.Words.{generating as mode_generating, is_yes, mode_of as mode_of_words};

use crate::command::matches_of;
use bcast_base::{Items, Memory};
use clap::ArgMatches;
use scenario_words::decimal_within;
use std::alloc::Global;

/// The words of the command line, without the program's name.
pub type Words = Items<String>;

/// The greatest seed of the generator.
const GREATEST_SEED: u32 = 2_147_483_647;

/// The most events that the generator makes.
const MOST_EVENTS: u32 = 100_000;

/// What the words ask for.
#[derive(Clone, Copy, Debug, PartialEq, Eq)]
pub enum Mode {
    /// The scenario of the source is run.
    Replay,
    /// The text of the source is written in version 2.
    Migrate,
    /// The source gives a scenario as a TOML document.
    Toml,
    /// The scenario of the generator is run, and its summary written: a seed up to 2,147,483,647, and 1 to 100,000 events.
    Generate { seed: u32, events: u32 },
    /// Nothing that there is.
    Usage,
}

/// What the words ask for. No words are a replay; `--migrate` or `--toml` alone, and `--seed` and `--events` with a number
/// each, are their modes; all other words are `Usage`. It refuses only for want of memory, and never where there are no
/// words.
pub fn mode_of(alloc: Global, words: &Words) -> Result<Mode, Memory>
    ensures meaning { IfOk result (λ mode. mode ≡ mode_of_words (map string_bytes words.now)) }
    ensures numbers { IfOk result HasNumbers }
    ensures no_words { words.now ≡ [] → result ≡ Ok Replay }
{
    if words.count() == 0 {
        return Ok(Mode::Replay);
    }
    match matches_of(alloc, words.as_slice())? {
        None => Ok(Mode::Usage),
        Some(matches) => Ok(mode_by(&matches)),
    }
}

/// What words ask for that were taken.
fn mode_by(matches: &ArgMatches<'_>) -> Mode
    ensures meaning { result ≡ asked_of (rows_of (found_of matches.now)) }
    ensures numbers { HasNumbers result }
{
    asked(
        is_given(matches, "migrate"),
        is_given(matches, "toml"),
        matches.get_str("seed"),
        matches.get_str("events"),
    )
}

/// Whether a flag stands among the words.
fn is_given(matches: &ArgMatches<'_>, flag: &str) -> bool
    ensures { result ≡ is_yes (first_of flag.now (rows_of (found_of matches.now))) }
{
    match matches.get_str(flag) {
        None => false,
        Some(value) => value == "true",
    }
}

/// What the flags and the values of the options ask for.
fn asked(migrates: bool, reads_toml: bool, seed: Option<&str>, events: Option<&str>) -> Mode
    ensures meaning { result ≡ mode_asked migrates reads_toml (option_map (λ s. s.now) seed.entry) (option_map (λ s. s.now) events.entry) }
    ensures numbers { HasNumbers result }
{
    match (migrates, reads_toml, seed, events) {
        (true, false, None, None) => Mode::Migrate,
        (false, true, None, None) => Mode::Toml,
        (false, false, Some(seed), Some(events)) => generating(seed, events),
        _ => Mode::Usage,
    }
}

/// What the values of both options ask for.
fn generating(seed: &str, events: &str) -> Mode
    ensures meaning { result ≡ mode_generating (decimal_in 0 2147483647 seed.now) (decimal_in 1 100000 events.now) }
    ensures numbers { HasNumbers result }
{
    match (
        number(seed, 0, GREATEST_SEED),
        number(events, 1, MOST_EVENTS),
    ) {
        (Some(seed), Some(events)) => Mode::Generate { seed, events },
        _ => Mode::Usage,
    }
}

/// The number from `least` to `greatest` that a text spells, without a sign or a leading zero.
#[tactic(auto, using(scenario_words::proofs::OneWord::decimal_range))]
fn number(text: &str, least: u32, greatest: u32) -> Option<u32>
    ensures meaning { result ≡ decimal_in least greatest text.now }
    ensures range { IfSome result (λ n. (least ≤ n) × (n ≤ greatest)) }
{
    match decimal_within(text.as_bytes(), u64::from(least), u64::from(greatest)) {
        None => None,
        Some(number) => Some(number as u32),
    }
}
