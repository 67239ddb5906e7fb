ghost use Rattle.std.specs.Prelude.{◌≡◌, ◌≤◌, ◌+◌, ◌∷◌, ◌++◌, ℕ, List, length, take, drop, Ok, Err, MatchResult, IfOk, IfErr};
ghost use Rattle.iso_pdu.specs.Faults.{FaultIs};
ghost use Rattle.iso_pdu.specs.Layout.{fragment, end, PduIs, HasAtMost};
ghost use Rattle.iso_pdu.specs.Reading.{read_of};
ghost use Rattle.iso_pdu.specs.Encoding.{pdu};
ghost use Rattle.iso_pdu.specs.State.Views.{content_of};

use crate::fault::PduFault;
use crate::segment::Segments;

/// A PDU of an isochronous stream (Core 5.2, volume 6 part B, section 2.6).
#[derive(Drop)]
pub enum Pdu<'a> {
    /// LLID 0b01: a start or continuation fragment of a unit. One of no octets is padding.
    Fragment(&'a [u8]),
    /// LLID 0b00: an end fragment, or a whole unit.
    End(&'a [u8]),
    /// LLID 0b10: segments. None at all is padding.
    Framed(Segments<'a>),
    /// LLID 0b11: a control payload.
    Control(&'a [u8]),
}

/// Reads a PDU whose payload has at most `max_pdu` octets. The answer borrows from the octets.
///
/// Else it is the first fault: fewer than 2 octets, a Length that differs from the octets that follow, a Length above
/// `max_pdu`, and for LLID 0b10 the first fault of the segments from left to right.
pub fn read_pdu<'a>(from: &'a [u8], max_pdu: u8) -> Result<Pdu<'a>, PduFault>
    ensures exact { MatchResult result (λ p. read_of max_pdu from.now ≡ Ok (content_of p)) (λ fault. read_of max_pdu from.now ≡ Err fault) }
    ensures layout { IfOk result (λ p. PduIs (content_of p) from.now × (length from.now ≤ max_pdu + 2)) }
    ensures within { IfOk result (λ p. HasAtMost max_pdu (content_of p)) }
    ensures cut { IfErr result (λ fault. FaultIs max_pdu fault from.now) }
{
    read_fields(from, max_pdu)
}

// Reads header, Length and payload.
#[tactic(auto, unfolding(crate::specs::Reading::read_of))]
fn read_fields<'a>(from: &'a [u8], max_pdu: u8) -> Result<Pdu<'a>, PduFault>
    ensures { MatchResult result (λ p. read_of max_pdu from.now ≡ Ok (content_of p)) (λ fault. read_of max_pdu from.now ≡ Err fault) }
{
    let [header, count, payload @ ..] = from else {
        return Err(PduFault::Short);
    };
    if usize::from(*count) != payload.len() {
        return Err(PduFault::LengthDiffers);
    }
    if max_pdu < *count {
        return Err(PduFault::TooLong);
    }
    let llid = *header % 4;
    if llid < 2 {
        return Ok(if llid == 0 {
            Pdu::End(payload)
        } else {
            Pdu::Fragment(payload)
        });
    }
    if llid == 2 {
        return Ok(Pdu::Framed(Segments::of(payload)?));
    }
    Ok(Pdu::Control(payload))
}

/// The two octets that stand before the payload in the PDU of a fragment of so many octets.
pub fn fragment_header(count: u8) -> [u8; 2]
    ensures { (part : List ℕ) → length part ≡ count → pdu (fragment part) ≡ result ++ part }
{
    [0b01, count]
}

/// The two octets that stand before the payload in the PDU of an end fragment of so many octets.
pub fn end_header(count: u8) -> [u8; 2]
    ensures { (part : List ℕ) → length part ≡ count → pdu (end part) ≡ result ++ part }
{
    [0b00, count]
}

/// Writes the PDU of a fragment of at most 251 octets, and answers how many octets it has.
pub fn write_fragment(part: &[u8], into: &mut [u8; 253]) -> usize
    requires { length part.now ≤ 251 }
    ensures count { result ≡ 2 + length part.now }
    ensures encoded { take result into.new ≡ pdu (fragment part.now) }
    ensures rest { drop result into.new ≡ drop result into.old }
{
    write_payload(0b01, part, into)
}

/// Writes the PDU of an end fragment of at most 251 octets, and answers how many octets it has.
pub fn write_end(part: &[u8], into: &mut [u8; 253]) -> usize
    requires { length part.now ≤ 251 }
    ensures count { result ≡ 2 + length part.now }
    ensures encoded { take result into.new ≡ pdu (end part.now) }
    ensures rest { drop result into.new ≡ drop result into.old }
{
    write_payload(0b00, part, into)
}

// Writes a header with this LLID, Length and the payload.
pub(crate) fn write_payload(llid: u8, payload: &[u8], into: &mut [u8; 253]) -> usize
    requires { length payload.now ≤ 251 }
    ensures count { result ≡ 2 + length payload.now }
    ensures encoded { take result into.new ≡ llid ∷ length payload.now ∷ payload.now }
    ensures rest { drop result into.new ≡ drop result into.old }
{
    into[0] = llid;
    into[1] = payload.len() as u8;
    let end = 2 + payload.len();
    into[2..end].copy_from_slice(payload);
    end
}
