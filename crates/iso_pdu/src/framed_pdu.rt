ghost use Rattle.std.specs.Prelude.{◌≡◌, ◌<◌, ◌≤◌, ◌+◌, ◌-◌, ◌*◌, ◌^◌, ℕ, List, [], ◌∷◌, ◌++◌, length, take, drop, Ok};
ghost use Rattle.iso_pdu.specs.Layout.{start, more, framed, bit};
ghost use Rattle.iso_pdu.specs.State.Packing.{room_in};
ghost use Rattle.iso_pdu.specs.Reading.{read_of};
ghost use Rattle.iso_pdu.specs.Encoding.{segments, pdu, offset_octets};

use crate::pdu::write_payload;
use std::marker::Model;

/// The header of a framed PDU: its LLID, and all free bits 0.
const LLID: u8 = 0b10;

/// A framed PDU that is filled segment by segment.
#[derive(Drop)]
pub struct FramedPdu {
    /// The PDU, and behind it octets of any value.
    octets: [u8; 253],
    /// How many octets the PDU has.
    end: usize,
    max_pdu: u8,
}

impl Model for FramedPdu {
    ghost use Rattle.iso_pdu.specs.State.Packing.{Packed, packed_in, IsPacked};

    ghost Value = { Packed };

    ghost view = { λ a. packed_in a.max_pdu a.end a.octets };

    ghost invariant = { λ a. IsPacked a.max_pdu a.end a.octets };
}

impl FramedPdu {
    /// An empty PDU whose payload has room for `max_pdu` octets, at most 251.
    pub fn new(max_pdu: u8) -> FramedPdu
        requires { max_pdu ≤ 251 }
        ensures { result ≡ record { max_pdu = max_pdu; parts = [] } }
    {
        let mut octets = [0; 253];
        octets[0] = LLID;
        FramedPdu {
            octets,
            end: 2,
            max_pdu,
        }
    }

    /// Takes all segments out, and gives the payload room for `max_pdu` octets, at most 251.
    pub fn restart(&mut self, max_pdu: u8)
        requires { max_pdu ≤ 251 }
        ensures { self.new ≡ record { max_pdu = max_pdu; parts = [] } }
    {
        self.octets[1] = 0;
        self.end = 2;
        self.max_pdu = max_pdu;
    }

    /// How many octets are left of the payload.
    pub fn room(&self) -> u8
        ensures room { result ≡ room_in self.now }
        ensures within { length (segments self.now.parts) ≤ self.now.max_pdu }
    {
        self.max_pdu - (self.end - 2) as u8
    }

    /// Puts the first segment of a unit, which takes 5 octets and those of the part. `time_offset`, in µs, is below 2^24.
    pub fn put_start(&mut self, time_offset: u32, complete: bool, part: &[u8])
        requires room { 5 + length part.now ≤ room_in self.old }
        requires offset { time_offset < 2 ^ 24 }
        ensures put { self.new ≡ record self.old { parts = self.old.parts ++ start time_offset complete part.now ∷ [] } }
        ensures room { room_in self.new + 5 + length part.now ≡ room_in self.old }
    {
        let offset = encode_offset(time_offset);
        let header = header_of(0, complete);
        self.end = put_segment(&mut self.octets, self.end, header, &offset, part);
    }

    /// Puts a further segment of a unit, which takes 2 octets and those of the part.
    pub fn put_more(&mut self, complete: bool, part: &[u8])
        requires { 2 + length part.now ≤ room_in self.old }
        ensures put { self.new ≡ record self.old { parts = self.old.parts ++ more complete part.now ∷ [] } }
        ensures room { room_in self.new + 2 + length part.now ≡ room_in self.old }
    {
        let header = header_of(1, complete);
        self.end = put_segment(&mut self.octets, self.end, header, &[], part);
    }

    /// Writes the PDU, and answers how many octets it has.
    pub fn write(&self, into: &mut [u8; 253]) -> usize
        ensures count { result ≡ 2 + length (segments self.now.parts) }
        ensures encoded { take result into.new ≡ pdu (framed self.now.parts) }
        ensures rest { drop result into.new ≡ drop result into.old }
        ensures read { read_of self.now.max_pdu (take result into.new) ≡ Ok (framed self.now.parts) }
    {
        write_payload(LLID, &self.octets[2..self.end], into)
    }

    /// The PDU, as `write` writes it.
    pub fn as_slice(&self) -> &[u8]
        ensures { result.now ≡ pdu (framed self.now.parts) }
    {
        &self.octets[..self.end]
    }
}

// A segment's header: SC, and whether the unit is complete.
fn header_of(start_bit: u8, complete: bool) -> u8
    requires { start_bit ≤ 1 }
    ensures { result ≡ start_bit + 2 * bit complete }
{
    if complete { start_bit + 2 } else { start_bit }
}

// The octets of a time offset, the least first.
fn encode_offset(time_offset: u32) -> [u8; 3]
    requires { time_offset < 2 ^ 24 }
    ensures { result ≡ offset_octets time_offset }
{
    let low = (time_offset % 256) as u8;
    let middle = (time_offset / 256 % 256) as u8;
    let high = (time_offset / 65536) as u8;
    [low, middle, high]
}

// Puts a segment behind the first `end` octets, which are a PDU, and answers how many it has with the segment.
fn put_segment(octets: &mut [u8; 253], end: usize, header: u8, offset: &[u8], part: &[u8]) -> usize
    requires some { 2 ≤ end }
    requires room { end + 2 + length offset.now + length part.now ≤ 253 }
    ensures count { result ≡ end + 2 + length offset.now + length part.now }
    ensures put { (first long : ℕ) (rest : List ℕ) → take end octets.old ≡ first ∷ long ∷ rest
        → take result octets.new ≡ first ∷ (result - 2)
        ∷ (rest ++ header ∷ (length offset.now + length part.now) ∷ (offset.now ++ part.now)) }
{
    let body = end + 2;
    let behind = body + offset.len();
    let whole = behind + part.len();
    octets[end] = header;
    octets[end + 1] = (offset.len() + part.len()) as u8;
    octets[body..behind].copy_from_slice(offset);
    octets[behind..whole].copy_from_slice(part);
    octets[1] = (whole - 2) as u8;
    whole
}
