ghost use Rattle.std.specs.Prelude.{◌≡◌, ◌++◌, ◌∷◌, [], codes, map, OnOk};
ghost use Rattle.scenario_words.specs.Joined.{joined};
ghost use Rattle.scenario_words.specs.PrintedWords.{spelled};

use bcast_base::{Memory, Octets};
use scenario_words::{Word, put_words};

/// Puts a note at the end of the rows: the words with a space between each two, behind the mark of a note.
pub fn put_note(rows: &mut Octets, words: &[Word<'_>]) -> Result<(), Memory>
    ensures { OnOk result (rows.new ≡ (rows.old ++ joined (codes "  #") (map spelled words.now)) ++ 10 ∷ []) }
{
    put_words(rows, b"  #", words)?;
    rows.push(b'\n')
}
