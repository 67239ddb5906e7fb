//! What holds of every PDU, whoever writes or reads it.
ghost use Rattle.std.specs.Prelude.{◌≡◌, ◌≤◌, ◌+◌, ◌↔◌, ℕ, List, length, Ok, Err};
ghost use Rattle.iso_pdu.specs.Faults.{FaultIs};
ghost use Rattle.iso_pdu.specs.Layout.{Content, PduIs};
ghost use Rattle.iso_pdu.specs.Reading.{read_of};
ghost use Rattle.iso_pdu.specs.Encoding.{payload_of, pdu};
ghost use Rattle.iso_pdu.specs.declared.fault.PduFault.{PduFault};

/// Octets are read as a PDU if and only if they have its layout and a payload of at most `max_pdu` octets.
pub fn read_is_layout()
    ensures { (max_pdu : ℕ) (content : Content) (octets : List ℕ)
        → (read_of max_pdu octets ≡ Ok content) ↔ (PduIs content octets × (length octets ≤ max_pdu + 2)) }
{}

/// The fault that is answered is the one that stands at the cut.
pub fn fault_is_at_cut()
    ensures { (max_pdu : ℕ) (fault : PduFault) (octets : List ℕ) → (read_of max_pdu octets ≡ Err fault) ↔ FaultIs max_pdu fault octets }
{}

/// What is written is of the layout, and is read again.
pub fn written_is_read()
    ensures layout { (content : Content) → PduIs content (pdu content) }
    ensures read { (max_pdu : ℕ) (content : Content) → length (payload_of content) ≤ max_pdu → read_of max_pdu (pdu content) ≡ Ok content }
{}
