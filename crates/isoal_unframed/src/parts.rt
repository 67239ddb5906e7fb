//! The part of a unit that a PDU of an unframed stream has.
ghost use Rattle.std.specs.Prelude.{◌≡◌, ◌≤◌, ℕ, List, Option, Some, length, IfOk, IfErr};
ghost use Rattle.iso_pdu.specs.Layout.{Content};
ghost use Rattle.iso_pdu.specs.Reading.{read_of};
ghost use Rattle.isoal_base.specs.declared.heard.Heard.{Heard as Answer};
ghost use Rattle.isoal_base.specs.Hearing.{kept_by, read_as, unless_malformed};
ghost use Rattle.isoal_unframed.specs.State.Cells.{part_of};
ghost use Rattle.isoal_unframed.specs.Units.{unframed};

use iso_pdu::{Pdu, read_pdu};
use isoal_base::Heard;

/// A part of a unit: its end, or a start or continuation fragment.
#[derive(Clone, Copy)]
pub(crate) struct Part<'a> {
    pub(crate) is_end: bool,
    pub(crate) octets: &'a [u8],
}

/// The part that a PDU has, or why it has none of an unframed stream.
#[inline(always)]
pub(crate) fn part_in<'a>(pdu: &'a [u8], max_pdu: u8) -> Result<Part<'a>, Heard>
    ensures ok { IfOk result (λ part. read_as unframed max_pdu pdu.now ≡ Some (part_of part.is_end part.octets.now)) }
    ensures within { IfOk result (λ part. length part.octets.now ≤ max_pdu) }
    ensures taken { IfOk result (λ part. (placed : Answer) → unless_malformed unframed (read_of max_pdu pdu.now) placed ≡ placed) }
    ensures answer { IfErr result (λ answer. (placed : Answer) → unless_malformed unframed (read_of max_pdu pdu.now) placed ≡ answer) }
    ensures nothing { IfErr result (λ answer. (kept : List (Option Content)) (index : ℕ) (entry : Option Content)
        → kept_by answer kept index entry ≡ kept) }
{
    match read_pdu(pdu, max_pdu) {
        Err(fault) => Err(Heard::Malformed(fault)),
        Ok(Pdu::Fragment(octets)) => Ok(Part {
            is_end: false,
            octets,
        }),
        Ok(Pdu::End(octets)) => Ok(Part {
            is_end: true,
            octets,
        }),
        Ok(_) => Err(Heard::WrongKind),
    }
}
