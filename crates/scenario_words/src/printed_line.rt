ghost use Rattle.std.specs.Prelude.{◌≡◌, ◌++◌, map, OnOk, OnErr};
ghost use Rattle.scenario_words.specs.Prefixes.{APrefix};
ghost use Rattle.scenario_words.specs.Joined.{joined};
ghost use Rattle.scenario_words.specs.PrintedWords.{spelled};

use crate::printed_word::{Word, put_word};
use crate::waiting::Waiting;
use bcast_base::{Memory, Octets};

/// Puts words at the end of a text: the first, and each other behind a space.
///
/// After Memory a prefix of them stands at the end of the text.
pub fn put_words(text: &mut Octets, first: &[u8], others: &[Word<'_>]) -> Result<(), Memory>
    ensures ok { OnOk result (text.new ≡ text.old ++ joined first.now (map spelled others.now)) }
    ensures err { OnErr result (APrefix text.old text.new (joined first.now (map spelled others.now))) }
{
    let mut waiting = Waiting::new();
    waiting.put(text, first)?;
    for word in others {
        waiting.put_octet(text, b' ')?;
        put_word(text, &mut waiting, *word)?;
    }
    waiting.flush(text)
}
