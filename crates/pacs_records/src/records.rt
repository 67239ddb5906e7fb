ghost use Rattle.std.specs.Prelude.{◌≡◌, ◌<◌, ◌≤◌, ◌+◌, ◌++◌, ◌∷◌, [], length, slice_get, Some, OnOk, OnErr, IfErr};
ghost use Rattle.std.specs.List.{AllByRecursion};
ghost use Rattle.ltv_codec.specs.Layout.{AreLtvs};
ghost use Rattle.base_grammar.specs.Layout.{lc3};
ghost use Rattle.pacs_records.specs.Layout.{Fits, AreRecords, value, greatest_value};
ghost use Rattle.pacs_records.specs.Pushes.{RefusesPush};

use crate::fault::PushFault;
use crate::record::PacRecord;
use bcast_base::Items;
use std::alloc::Global;
use std::marker::Model;

/// The most octets of a value: those of an attribute.
const GREATEST_VALUE: usize = 512;

/// A list of records whose value has at most 512 octets. Places count from 0.
#[derive(Drop)]
pub struct Records {
    list: Items<PacRecord>,
    // How many octets the value has.
    size: usize,
}

impl Model for Records {
    ghost use Rattle.std.specs.Prelude.{List, ◌≡◌, length};
    ghost use Rattle.pacs_records.specs.Layout.{AreRecords, value};
    ghost use Rattle.pacs_records.specs.declared.record.PacRecord.{PacRecord};

    ghost Value = { List PacRecord };

    ghost view = { λ a. a.list };

    ghost invariant = { λ a. AreRecords a.list × (a.size ≡ length (value a.list)) };
}

impl Records {
    /// The empty list. It takes no memory.
    pub fn new(alloc: Global) -> Records
        ensures { result ≡ [] }
    {
        Records {
            list: Items::new(alloc),
            size: 1,
        }
    }

    // The list of records whose value has this many octets.
    pub(crate) fn of(list: Items<PacRecord>, size: usize) -> Records
        requires records { AreRecords list }
        requires size { size ≡ length (value list) }
        ensures { result ≡ list }
    {
        Records { list, size }
    }

    /// Puts a record at the end. TooLong comes exactly where the value would then have more than 512 octets. A refusal
    /// changes nothing.
    pub fn push(&mut self, entry: PacRecord) -> Result<(), PushFault>
        requires caps_count { length entry.caps < 256 }
        requires metadata_count { length entry.metadata < 256 }
        requires caps { entry.codec ≡ lc3 → AreLtvs entry.caps }
        requires metadata { AreLtvs entry.metadata }
        ensures ok { OnOk result (self.new ≡ self.old ++ entry ∷ []) }
        ensures fits { OnOk result (length (value (self.old ++ entry ∷ [])) ≤ greatest_value) }
        ensures err { OnErr result (self.new ≡ self.old) }
        ensures refused { IfErr result (λ fault. RefusesPush fault self.old entry) }
    {
        let size = self.size_with(&entry);
        if GREATEST_VALUE < size {
            return Err(PushFault::TooLong);
        }
        self.list.push(entry)?;
        self.size = size;
        Ok(())
    }

    // How many octets the value has with this record at the end.
    fn size_with(&self, entry: &PacRecord) -> usize
        requires caps_count { length entry.now.caps < 256 }
        requires metadata_count { length entry.now.metadata < 256 }
        ensures { result ≡ length (value (self.now ++ entry.now ∷ [])) }
    {
        self.size + 7 + entry.caps.as_slice().len() + entry.metadata.as_slice().len()
    }

    /// How many records there are.
    pub fn count(&self) -> usize
        ensures { result ≡ length self.now }
    {
        self.list.count()
    }

    /// The record at place `i`, from 0.
    pub fn item(&self, i: usize) -> &PacRecord
        requires { i < length self.now }
        ensures lent { slice_get self.now i ≡ Some result.now }
        ensures fits { Fits result.now }
    {
        self.list.item(i)
    }

    // The records in order.
    pub(crate) fn as_slice(&self) -> &[PacRecord]
        ensures same { result.now ≡ self.now }
        ensures records { AreRecords result.now }
    {
        self.list.as_slice()
    }
}
