ghost use Rattle.std.specs.Prelude.{◌≡◌, ◌++◌, OnOk, OnErr};
ghost use Rattle.scenario_words.specs.Prefixes.{APrefix};
ghost use Rattle.transcript_text.specs.Lines.{heard_line, hearing_name, hearing_number};

use crate::word::put_named;
use bcast_base::{Memory, Octets};
use isoal_base::{Heard, Hearing};
use scenario_words::Word;

/// The name of an answer of a sink in the scenario language.
fn name_of(hearing: Hearing) -> &'static [u8]
    ensures { result.now ≡ hearing_name hearing }
{
    match hearing {
        Hearing::NotOnGroup => b"NotOnGroup",
        Hearing::NotTaken => b"NotTaken",
        Hearing::NoNumber => b"NoNumber",
        Hearing::Heard(Heard::Malformed(_)) => b"Malformed",
        Hearing::Heard(Heard::WrongKind) => b"WrongKind",
        Hearing::Heard(Heard::Late) => b"Late",
        Hearing::Heard(Heard::Beyond) => b"Beyond",
        Hearing::Heard(Heard::Repeat) => b"Repeat",
        Hearing::Heard(Heard::Kept) => b"Kept",
    }
}

/// The number behind the name.
fn number_of(hearing: Hearing) -> Option<u64>
    ensures { result ≡ hearing_number hearing }
{
    match hearing {
        Hearing::Heard(Heard::Malformed(fault)) => Some(u64::from(fault.number())),
        _ => None,
    }
}

/// Puts the line of what a sink made of a PDU, with the number of the fault where it is malformed.
///
/// After Memory a prefix of the line stands at the end of the text.
pub fn put_heard(text: &mut Octets, sink: u8, hearing: Hearing) -> Result<(), Memory>
    ensures ok { OnOk result (text.new ≡ text.old ++ heard_line sink hearing) }
    ensures err { OnErr result (APrefix text.old text.new (heard_line sink hearing)) }
{
    let sink = Word::Number(u64::from(sink));
    put_named(text, b"heard", sink, name_of(hearing), number_of(hearing))
}
