ghost use Rattle.std.specs.Prelude.{◌≡◌, ◌++◌, OnOk};
ghost use Rattle.delegator_history.specs.declared.replies.Reply.TheVariants.{Accepted, Refused};
ghost use Rattle.transcript_text.specs.Labels.{label_of};
ghost use Rattle.transcript_text.specs.SinkLines.{cause_name, reply_line};

use crate::label::Label;
use crate::put_line;
use bcast_base::{Memory, Octets};
use delegator_history::{Cause, Reply};
use scenario_words::Word;

/// The name of the cause of a refusal in the scenario language.
fn name_of(cause: Cause) -> &'static [u8]
    ensures { result.now ≡ cause_name cause }
{
    match cause {
        Cause::Empty => b"Empty",
        Cause::Opcode => b"Opcode",
        Cause::Length => b"Length",
        Cause::Rfu => b"Rfu",
        Cause::BisTwice => b"BisTwice",
        Cause::SourceUnknown => b"SourceUnknown",
        Cause::NoDecrypt => b"NoDecrypt",
        Cause::Known => b"Known",
        Cause::NoRoom => b"NoRoom",
        Cause::ValueTooLong => b"ValueTooLong",
        Cause::StillSynced => b"StillSynced",
    }
}

/// The first word of the line of a reply.
fn first_word(label: Label) -> &'static [u8]
    ensures { result.now ≡ (label_of label).reply }
{
    match label {
        Label::Plain { .. } => b"reply",
        Label::OnLink { .. } => b"areply",
    }
}

/// Puts the line of the reply to a write that was accepted.
fn put_accepted(text: &mut Octets, label: Label) -> Result<(), Memory>
    ensures { OnOk result (text.new ≡ text.old ++ reply_line (label_of label) Accepted) }
{
    let first = first_word(label);
    let ok = Word::Text(b"ok");
    match label {
        Label::Plain { sink } => put_line(text, first, &[Word::Number(u64::from(sink)), ok]),
        Label::OnLink { sink, link } => {
            let sink = Word::Number(u64::from(sink));
            put_line(text, first, &[sink, Word::Number(u64::from(link)), ok])
        }
    }
}

/// Puts the line of the reply to a write that was refused.
fn put_refused(text: &mut Octets, label: Label, code: u8, cause: Cause) -> Result<(), Memory>
    ensures { OnOk result (text.new ≡ text.old ++ reply_line (label_of label) (Refused code cause)) }
{
    let first = first_word(label);
    let name = Word::Text(name_of(cause));
    match label {
        Label::Plain { sink } => {
            let sink = Word::Number(u64::from(sink));
            put_line(text, first, &[sink, Word::Octets(&[code]), name])
        }
        Label::OnLink { sink, link } => {
            let sink = Word::Number(u64::from(sink));
            let link = Word::Number(u64::from(link));
            put_line(text, first, &[sink, link, Word::Octets(&[code]), name])
        }
    }
}

/// Puts the line of the reply to a write: `ok`, or the error code in two digits and the cause of the refusal.
///
/// After Memory a part of the line may stand at the end of the text.
pub fn put_reply(text: &mut Octets, label: Label, reply: Reply) -> Result<(), Memory>
    ensures { OnOk result (text.new ≡ text.old ++ reply_line (label_of label) reply) }
{
    match reply {
        Reply::Accepted => put_accepted(text, label),
        Reply::Refused { code, cause } => put_refused(text, label, code, cause),
    }
}
