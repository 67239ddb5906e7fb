//! Which octets are a Sink PAC value, what is wrong with all others, and which stream a sink takes.
ghost use Rattle.std.specs.Prelude.{◌≡◌, ◌≢◌, ◌↔◌, ℕ, List, Ok, Err, Some, None};
ghost use Rattle.base_grammar.specs.declared.effective.Effective.{Effective};
ghost use Rattle.pacs_records.specs.Match.{Takes, IsToldReason};
ghost use Rattle.pacs_records.specs.Reasons.{not_taken};
ghost use Rattle.pacs_records.specs.declared.capability.Capability.{Capability};
ghost use Rattle.pacs_records.specs.declared.not_taken.NotTaken.{NotTaken};
ghost use Rattle.pacs_records.specs.declared.fault.PacFault.TheVariants.{Memory};
ghost use Rattle.bcast_base.specs.Encoding.{IsOctets};
ghost use Rattle.pacs_records.specs.Layout.{PacIs};
ghost use Rattle.pacs_records.specs.Faults.{IsFault};
ghost use Rattle.pacs_records.specs.Reading.{value_in};
ghost use Rattle.pacs_records.specs.declared.fault.PacFault.{PacFault};
ghost use Rattle.pacs_records.specs.declared.record.PacRecord.{PacRecord};

/// Octets are read as a list of records if and only if they are its value, so no octets are the value of two lists.
pub fn read_is_value()
    ensures { (records : List PacRecord) (octets : List ℕ) → IsOctets octets → (value_in octets ≡ Ok records) ↔ PacIs records octets }
{}

/// What is wrong with octets is what stands at the cut, behind the whole fields that meet their rows.
pub fn fault_is_at_cut()
    ensures { (fault : PacFault) (octets : List ℕ) → IsOctets octets → fault ≢ Memory
        → (value_in octets ≡ Err fault) ↔ IsFault fault octets }
{}

/// A stream is taken exactly where some record meets all requirements. Else the reason is the first requirement that the
/// last record doesn't meet, or Codec where there is no record.
pub fn match_is_some_record()
    ensures taken { (capability : Capability) (effective : Effective)
        → (not_taken capability effective ≡ None) ↔ Takes capability effective }
    ensures refused { (reason : NotTaken) (capability : Capability) (effective : Effective)
        → (not_taken capability effective ≡ Some reason) ↔ ((¬ Takes capability effective) × IsToldReason reason capability effective) }
{}
