ghost use Rattle.std.specs.Prelude.{◌≡◌, ◌≤◌, ◌∷◌, ◌++◌, [], OnOk, codes, decimal, length};
ghost use Rattle.scenario_words.specs.Joined.{joined};
ghost use Rattle.transcript_text.specs.Labels.{label_of};
ghost use Rattle.transcript_text.specs.SinkLines.{value_line};

use crate::label::Label;
use crate::put_line;
use bcast_base::{Memory, Octets};
use delegator_history::Notice;
use scenario_words::{Waiting, Word};

/// The most octets of a value whose line waits as a whole.
const SHORT: usize = 104;

/// Begins the line of a value: its first word, the sink, and the link where it is named.
#[inline(always)]
fn begin_value(line: &mut Waiting, first: &[u8], label: Label)
    requires none { line.old ≡ [] }
    requires few { length first.now ≤ 7 }
    ensures begins { line.new ≡ joined first.now (label_of label).numbers }
    ensures short { length line.new ≤ 15 }
{
    line.extend(first);
    match label {
        Label::Plain { sink } => {
            line.push(b' ');
            line.extend_small(u16::from(sink));
        }
        Label::OnLink { sink, link } => {
            line.push(b' ');
            line.extend_small(u16::from(sink));
            line.push(b' ');
            line.extend_small(u16::from(link));
        }
    }
}

/// Puts a line with the octets of a slot. The line of a short value is put in one piece. Each call has its own code, in which the first
/// word is a constant.
#[inline(always)]
fn put_value(
    text: &mut Octets,
    first: &[u8],
    label: Label,
    slot: u8,
    value: &[u8],
) -> Result<(), Memory>
    requires { length first.now ≤ 7 }
    ensures { OnOk result (text.new ≡ text.old ++ value_line first.now (label_of label).numbers
        (record { slot = slot; value = value.now })) }
{
    if value.is_empty() || value.len() > SHORT {
        return put_any_value(text, first, label, slot, value);
    }
    let mut line = Waiting::new();
    begin_value(&mut line, first, label);
    line.push(b' ');
    line.extend_small(u16::from(slot));
    line.push(b' ');
    line.extend_digits(value);
    line.push(b'\n');
    line.flush(text)
}

/// The same for a value of any length.
#[inline(never)]
fn put_any_value(
    text: &mut Octets,
    first: &[u8],
    label: Label,
    slot: u8,
    value: &[u8],
) -> Result<(), Memory>
    ensures { OnOk result (text.new ≡ text.old ++ value_line first.now (label_of label).numbers
        (record { slot = slot; value = value.now })) }
{
    let slot = Word::Number(u64::from(slot));
    let value = Word::Octets(value);
    match label {
        Label::Plain { sink } => {
            let sink = Word::Number(u64::from(sink));
            put_line(text, first, &[sink, slot, value])
        }
        Label::OnLink { sink, link } => {
            let sink = Word::Number(u64::from(sink));
            let link = Word::Number(u64::from(link));
            put_line(text, first, &[sink, link, slot, value])
        }
    }
}

/// Puts the line of a notice as it was delivered.
///
/// After Memory a part of the line may stand at the end of the text.
pub fn put_notice(text: &mut Octets, label: Label, notice: &Notice) -> Result<(), Memory>
    ensures { OnOk result (text.new ≡ text.old ++ value_line (label_of label).notice (label_of label).numbers notice.now) }
{
    let value = notice.value.as_slice();
    match label {
        Label::Plain { .. } => put_value(text, b"notice", label, notice.slot, value),
        Label::OnLink { .. } => put_value(text, b"anotice", label, notice.slot, value),
    }
}

/// Puts the line of a slot that was read, with the octets that were answered.
///
/// After Memory a part of the line may stand at the end of the text.
pub fn put_read(text: &mut Octets, label: Label, notice: &Notice) -> Result<(), Memory>
    ensures { OnOk result (text.new ≡ text.old ++ value_line (label_of label).read (label_of label).numbers notice.now) }
{
    let value = notice.value.as_slice();
    match label {
        Label::Plain { .. } => put_value(text, b"read", label, notice.slot, value),
        Label::OnLink { .. } => put_value(text, b"aread", label, notice.slot, value),
    }
}

/// Puts the line of the state of a slot of a sink.
///
/// After Memory a part of the line may stand at the end of the text.
pub fn put_state(text: &mut Octets, sink: u8, slot: u8, value: &[u8]) -> Result<(), Memory>
    ensures { OnOk result (text.new ≡ text.old
        ++ value_line (codes "state") (decimal sink ∷ []) (record { slot = slot; value = value.now })) }
{
    put_value(text, b"state", Label::Plain { sink }, slot, value)
}

/// Puts the line of what the assistant on link 0 of a sink knows of a slot.
///
/// After Memory a part of the line may stand at the end of the text.
pub fn put_view(text: &mut Octets, sink: u8, slot: u8, value: &[u8]) -> Result<(), Memory>
    ensures { OnOk result (text.new ≡ text.old
        ++ value_line (codes "view") (decimal sink ∷ []) (record { slot = slot; value = value.now })) }
{
    put_value(text, b"view", Label::Plain { sink }, slot, value)
}

/// Puts the line of what the assistant on a link of a sink knows of a slot.
///
/// After Memory a part of the line may stand at the end of the text.
pub fn put_link_view(
    text: &mut Octets,
    sink: u8,
    link: u8,
    slot: u8,
    value: &[u8],
) -> Result<(), Memory>
    ensures { OnOk result (text.new ≡ text.old
        ++ value_line (codes "aview") (decimal sink ∷ decimal link ∷ []) (record { slot = slot; value = value.now })) }
{
    put_value(text, b"aview", Label::OnLink { sink, link }, slot, value)
}
