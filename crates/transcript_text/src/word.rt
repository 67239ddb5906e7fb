ghost use Rattle.std.specs.Prelude.{◌≡◌, ◌++◌, map, OnOk, OnErr};
ghost use Rattle.scenario_words.specs.Prefixes.{APrefix};
ghost use Rattle.scenario_words.specs.PrintedWords.{spelled};
ghost use Rattle.transcript_text.specs.Lines.{line_of, named_line};

use bcast_base::{Memory, Octets};
use scenario_words::{Word, put_words};

/// Puts a line: its first word, the others each behind a space, and the end of the line.
///
/// After Memory a prefix of the line stands at the end of the text.
#[tactic(auto, using(crate::proofs::Ending::all_put, crate::proofs::Ending::words_put, crate::proofs::Ending::some_put))]
pub fn put_line(text: &mut Octets, first: &[u8], others: &[Word<'_>]) -> Result<(), Memory>
    ensures ok { OnOk result (text.new ≡ text.old ++ line_of first.now (map spelled others.now)) }
    ensures err { OnErr result (APrefix text.old text.new (line_of first.now (map spelled others.now))) }
{
    put_words(text, first, others)?;
    text.push(b'\n')
}

/// Puts a line that has a name, and behind it a number where there is one.
///
/// After Memory a prefix of the line stands at the end of the text.
pub fn put_named<'a>(
    text: &mut Octets,
    first: &[u8],
    label: Word<'a>,
    name: &'a [u8],
    number: Option<u64>,
) -> Result<(), Memory>
    ensures ok { OnOk result (text.new ≡ text.old ++ named_line first.now (spelled label.entry) name.now number) }
    ensures err { OnErr result (APrefix text.old text.new (named_line first.now (spelled label.entry) name.now number)) }
{
    match number {
        None => put_line(text, first, &[label, Word::Text(name)]),
        Some(number) => put_line(
            text,
            first,
            &[label, Word::Text(name), Word::Number(number)],
        ),
    }
}
