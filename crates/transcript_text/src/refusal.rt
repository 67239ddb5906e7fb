ghost use Rattle.std.specs.Prelude.{◌≡◌, ◌++◌, OnOk, OnErr};
ghost use Rattle.scenario_words.specs.Prefixes.{APrefix};
ghost use Rattle.transcript_text.specs.Lines.{refusal_line, refusal_name, refusal_number};

use crate::word::put_named;
use bcast_base::{Memory, Octets};
use big_info::GroupFault;
use scenario_words::Word;

/// Why a line of a scenario is refused, by the names of the scenario language.
#[derive(Clone, Copy, Debug, PartialEq, Eq)]
pub enum Refusal {
    /// The line holds octet 67,108,865 of the text.
    TextTooLong,
    /// The line has more than 9,000 octets without its end.
    LineTooLong,
    /// The line is not of the grammar: the number of the first word that doesn't fit, from 0.
    BadLine { word: u64 },
    /// A step follows `end`.
    AfterEnd,
    /// The step stands in the wrong phase.
    Order,
    /// The numbers of the group don't go together.
    BadGroup { fault: GroupFault },
    /// The BASE has more than 252 octets.
    BaseTooLong,
    /// The other source was started with the same address type, advertising set and Broadcast_ID.
    IdentTwice,
    /// No sink of this number lives.
    NoSuchSink,
    /// The sink has no joined link of this number.
    NoSuchLink,
    /// The link is joined already.
    LinkTwice,
    /// A sink of this number lives already.
    SinkTwice,
    /// No box is left for a sink.
    NoOutlet,
    /// The group has no stream of this index.
    NoSuchBis,
    /// The unit has more than Max_SDU octets.
    UnitTooLong,
    /// The time of the unit doesn't fit the framing or the times before.
    TimeOrder,
    /// The sink has a relay, or the stream has had a relay or a unit.
    RelayTaken,
    /// The stream of the unit has had a relay.
    Relayed,
    /// 16 units of the stream wait.
    Backlog,
    /// The group has no such subevent.
    NoSuchSubevent,
    /// The event is not on the air.
    NotOnAir,
    /// The payload counter would pass its last number.
    CounterEnds,
    /// No write, notice or read waits.
    NothingWaiting,
    /// The value of the records would pass 512 octets.
    RecordsTooLong,
    /// The text ends without `end`.
    NoEnd,
    /// The document is not TOML.
    BadToml,
    /// The document has not the form of a scenario.
    BadDocument,
}

/// The name of a refusal in the scenario language.
pub(crate) fn name_of(reason: Refusal) -> &'static [u8]
    ensures { result.now ≡ refusal_name reason }
{
    match reason {
        Refusal::TextTooLong => b"TextTooLong",
        Refusal::LineTooLong => b"LineTooLong",
        Refusal::BadLine { .. } => b"BadLine",
        Refusal::AfterEnd => b"AfterEnd",
        Refusal::Order => b"Order",
        Refusal::BadGroup { .. } => b"BadGroup",
        Refusal::BaseTooLong => b"BaseTooLong",
        Refusal::IdentTwice => b"IdentTwice",
        Refusal::NoSuchSink => b"NoSuchSink",
        Refusal::NoSuchLink => b"NoSuchLink",
        Refusal::LinkTwice => b"LinkTwice",
        Refusal::SinkTwice => b"SinkTwice",
        Refusal::NoOutlet => b"NoOutlet",
        Refusal::NoSuchBis => b"NoSuchBis",
        Refusal::UnitTooLong => b"UnitTooLong",
        Refusal::TimeOrder => b"TimeOrder",
        Refusal::RelayTaken => b"RelayTaken",
        Refusal::Relayed => b"Relayed",
        Refusal::Backlog => b"Backlog",
        Refusal::NoSuchSubevent => b"NoSuchSubevent",
        Refusal::NotOnAir => b"NotOnAir",
        Refusal::CounterEnds => b"CounterEnds",
        Refusal::NothingWaiting => b"NothingWaiting",
        Refusal::RecordsTooLong => b"RecordsTooLong",
        Refusal::NoEnd => b"NoEnd",
        Refusal::BadToml => b"BadToml",
        Refusal::BadDocument => b"BadDocument",
    }
}

/// The number behind the name.
fn number_of(reason: Refusal) -> Option<u64>
    ensures { result ≡ refusal_number reason }
{
    match reason {
        Refusal::BadLine { word } => Some(word),
        Refusal::BadGroup { fault } => Some(u64::from(fault.number())),
        _ => None,
    }
}

/// Puts the line of a refusal, with the number of the line that is refused, from 1, or 0 for a document; behind BadLine stands the
/// number of the word, and behind BadGroup that of the fault.
///
/// After Memory a prefix of the line stands at the end of the text.
pub fn put_refusal(text: &mut Octets, line: u64, reason: Refusal) -> Result<(), Memory>
    ensures ok { OnOk result (text.new ≡ text.old ++ refusal_line line reason) }
    ensures err { OnErr result (APrefix text.old text.new (refusal_line line reason)) }
{
    put_named(
        text,
        b"line",
        Word::Label(line),
        name_of(reason),
        number_of(reason),
    )
}
