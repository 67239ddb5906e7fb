ghost use Rattle.std.specs.Prelude.{◌≡◌, ◌≢◌, false, [], map, string_bytes, IfOk, MatchOption};
ghost use Rattle.clap.specs.Words.{app_of, fault_of, found_of, matches_of as matches_of_words, rows_of, rule_of};
ghost use Rattle.replay_words.specs.Words.{bare_command as bare_app, flag as flag_rule, the_command, value_option as option_rule};

use bcast_base::Memory;
use clap::error::ErrorKind;
use clap::{Arg, ArgAction, ArgMatches, Command};
use std::alloc::Global;

/// What `clap` makes of the words: `None` where it refuses them.
pub(crate) fn matches_of<'a>(
    alloc: Global,
    words: &'a [String],
) -> Result<Option<ArgMatches<'a>>, Memory>
    ensures { let texts = map string_bytes words.entry.now in
        IfOk result (λ matches. MatchOption matches (fault_of the_command texts ≢ [])
        (λ taken. (fault_of the_command texts ≡ []) × (rows_of (found_of taken) ≡ matches_of_words the_command texts))) }
{
    match command(alloc)?.try_get_matches_from(words) {
        Ok(matches) => Ok(Some(matches)),
        Err(error) => match error.kind() {
            ErrorKind::OutOfMemory => Err(Memory),
            _ => Ok(None),
        },
    }
}

/// The command of the program.
fn command<'a>(alloc: Global) -> Result<Command<'a>, Memory>
    ensures { IfOk result (λ command. app_of command ≡ the_command) }
{
    let command = bare_command(alloc)
        .arg(value_option(alloc, "seed"))?
        .arg(value_option(alloc, "events"))?
        .arg(flag(alloc, "migrate"))?
        .arg(flag(alloc, "toml"))?;
    Ok(command)
}

/// The command without its options and flags: it has no help, and its words come without the program's name.
fn bare_command<'a>(alloc: Global) -> Command<'a>
    ensures { app_of result ≡ bare_app }
{
    Command::new(alloc, "replay")
        .no_binary_name(true)
        .disable_help_flag(true)
        .disable_version_flag(true)
}

/// An option that takes a value.
fn value_option<'a>(alloc: Global, name: &'a str) -> Arg<'a>
    ensures rule { rule_of result ≡ option_rule name.entry.now }
    ensures local { result.global ≡ false }
{
    Arg::new(alloc, name).long(name).action(ArgAction::Set)
}

/// A flag.
fn flag<'a>(alloc: Global, name: &'a str) -> Arg<'a>
    ensures rule { rule_of result ≡ flag_rule name.entry.now }
    ensures local { result.global ≡ false }
{
    Arg::new(alloc, name).long(name).action(ArgAction::SetTrue)
}
