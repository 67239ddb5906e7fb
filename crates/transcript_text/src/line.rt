ghost use Rattle.std.specs.Prelude.{◌≡◌, ◌≤◌, ◌++◌, ◌∷◌, [], codes, decimal, length, OnOk, OnErr};
ghost use Rattle.scenario_words.specs.Joined.{joined};
ghost use Rattle.scenario_words.specs.Prefixes.{APrefix};
ghost use Rattle.transcript_text.specs.Lines.{valid_line, lost_line, dropped_line, dropped_name};
ghost use Rattle.transcript_text.specs.Lines.{pdu_line, stale_line, control_line, sum_line};

use crate::refusal::{Refusal, name_of};
use crate::word::put_line;
use bcast_base::{Memory, Octets};
use scenario_words::{PrintedNumber, Waiting, Word};

/// The most octets of a unit whose line waits as a whole.
const SHORT: usize = 104;

/// Begins the line of a unit: all up to its time.
#[inline(always)]
fn begin_unit(line: &mut Waiting, sink: u8, bis: u8, time: &PrintedNumber)
    requires { line.old ≡ [] }
    ensures begins { line.new ≡ joined (codes "unit") (decimal sink ∷ decimal bis ∷ codes "at" ∷ decimal time.now ∷ []) }
    ensures short { length line.new ≤ 36 }
{
    line.extend(b"unit ");
    line.extend_small(u16::from(sink));
    line.push(b' ');
    line.extend_small(u16::from(bis));
    line.extend(b" at ");
    line.extend_number(time);
}

/// Puts the line of a unit that was rebuilt, with its time in µs. The line of a short unit is put in one piece.
///
/// After Memory a prefix of the line stands at the end of the text.
#[inline(always)]
pub fn put_valid(
    text: &mut Octets,
    sink: u8,
    bis: u8,
    time: &PrintedNumber,
    octets: &[u8],
) -> Result<(), Memory>
    ensures ok { OnOk result (text.new ≡ text.old ++ valid_line sink bis time.now octets.now) }
    ensures err { OnErr result (APrefix text.old text.new (valid_line sink bis time.now octets.now)) }
{
    if octets.is_empty() || octets.len() > SHORT {
        return put_any_valid(text, sink, bis, time, octets);
    }
    let mut line = Waiting::new();
    begin_unit(&mut line, sink, bis, time);
    line.extend(b" valid ");
    line.extend_small(octets.len() as u16);
    line.push(b' ');
    line.extend_digits(octets);
    line.push(b'\n');
    line.flush(text)
}

/// The same for a unit of any length.
#[inline(never)]
fn put_any_valid<'a>(
    text: &mut Octets,
    sink: u8,
    bis: u8,
    time: &'a PrintedNumber,
    octets: &'a [u8],
) -> Result<(), Memory>
    ensures ok { OnOk result (text.new ≡ text.old ++ valid_line sink bis time.now octets.now) }
    ensures err { OnErr result (APrefix text.old text.new (valid_line sink bis time.now octets.now)) }
{
    put_line(
        text,
        b"unit",
        &[
            Word::Number(u64::from(sink)),
            Word::Number(u64::from(bis)),
            Word::Text(b"at"),
            Word::Text(time.digits()),
            Word::Text(b"valid"),
            Word::Number(octets.len() as u64),
            Word::Octets(octets),
        ],
    )
}

/// Puts the line of a unit that was not rebuilt, with its time in µs, in one piece.
///
/// After Memory a prefix of the line stands at the end of the text.
pub fn put_lost(text: &mut Octets, sink: u8, bis: u8, time: &PrintedNumber) -> Result<(), Memory>
    ensures ok { OnOk result (text.new ≡ text.old ++ lost_line sink bis time.now) }
    ensures err { OnErr result (APrefix text.old text.new (lost_line sink bis time.now)) }
{
    let mut line = Waiting::new();
    begin_unit(&mut line, sink, bis, time);
    line.extend(b" lost\n");
    line.flush(text)
}

/// The name under which a unit is dropped that a relay offers, where a `unit` line of it would be refused for this reason.
fn dropped_name_of(reason: Refusal) -> &'static [u8]
    ensures { result.now ≡ dropped_name reason }
{
    match reason {
        Refusal::Order => b"NotStreaming",
        _ => name_of(reason),
    }
}

/// Puts the line of a unit of a stream that the relay of a sink offers and that isn't taken, where a `unit` line of it would be
/// refused for this reason: NotStreaming stands for Order.
///
/// After Memory a prefix of the line stands at the end of the text.
pub fn put_dropped(text: &mut Octets, sink: u8, bis: u8, reason: Refusal) -> Result<(), Memory>
    ensures ok { OnOk result (text.new ≡ text.old ++ dropped_line sink bis reason) }
    ensures err { OnErr result (APrefix text.old text.new (dropped_line sink bis reason)) }
{
    put_line(
        text,
        b"relay",
        &[
            Word::Number(u64::from(sink)),
            Word::Number(u64::from(bis)),
            Word::Text(b"dropped"),
            Word::Text(dropped_name_of(reason)),
        ],
    )
}

/// Puts the line of a PDU that an event sent.
///
/// After Memory a prefix of the line stands at the end of the text.
pub fn put_pdu(
    text: &mut Octets,
    event: u64,
    bis: u8,
    subevent: u8,
    octets: &[u8],
) -> Result<(), Memory>
    ensures ok { OnOk result (text.new ≡ text.old ++ pdu_line event bis subevent octets.now) }
    ensures err { OnErr result (APrefix text.old text.new (pdu_line event bis subevent octets.now)) }
{
    put_line(
        text,
        b"pdu",
        &[
            Word::Number(event),
            Word::Number(u64::from(bis)),
            Word::Number(u64::from(subevent)),
            Word::Octets(octets),
        ],
    )
}

/// Puts the line of a unit that a framed stream left out, with its time in µs.
///
/// After Memory a prefix of the line stands at the end of the text.
pub fn put_stale(text: &mut Octets, bis: u8, time: u64) -> Result<(), Memory>
    ensures ok { OnOk result (text.new ≡ text.old ++ stale_line bis time) }
    ensures err { OnErr result (APrefix text.old text.new (stale_line bis time)) }
{
    put_line(
        text,
        b"stale",
        &[Word::Number(u64::from(bis)), Word::Number(time)],
    )
}

/// Puts the line of the PDU that ends a group.
///
/// After Memory a prefix of the line stands at the end of the text.
pub fn put_control(text: &mut Octets, octets: &[u8]) -> Result<(), Memory>
    ensures ok { OnOk result (text.new ≡ text.old ++ control_line octets.now) }
    ensures err { OnErr result (APrefix text.old text.new (control_line octets.now)) }
{
    put_line(text, b"control", &[Word::Octets(octets)])
}

/// Puts the line of a sink's sums: the units that its box took, and their octets.
///
/// After Memory a prefix of the line stands at the end of the text.
pub fn put_sum(text: &mut Octets, sink: u8, units: u64, octets: u64) -> Result<(), Memory>
    ensures ok { OnOk result (text.new ≡ text.old ++ sum_line sink units octets) }
    ensures err { OnErr result (APrefix text.old text.new (sum_line sink units octets)) }
{
    put_line(
        text,
        b"sum",
        &[
            Word::Number(u64::from(sink)),
            Word::Number(units),
            Word::Number(octets),
        ],
    )
}
