ghost use Rattle.std.specs.Prelude.{◌≡◌, ◌<◌, ◌++◌, length, IfOk, OnOk};
ghost use Rattle.pacs_records.specs.Layout.{PacIs, encoded};

use crate::record::PacRecord;
use crate::records::Records;
use bcast_base::{Memory, Octets, put_counted};
use std::alloc::Global;

/// The Sink PAC value of a list: the number of records, and each record.
pub fn encode_pacs(alloc: Global, list: &Records) -> Result<Octets, Memory>
    ensures { IfOk result (λ octets. PacIs list.now octets) }
{
    let records = list.as_slice();
    let mut out = Octets::new(alloc);
    out.push(records.len() as u8)?;
    for entry in records {
        put_record(&mut out, entry)?;
    }
    Ok(out)
}

// Puts the octets of a record at the end.
fn put_record(out: &mut Octets, entry: &PacRecord) -> Result<(), Memory>
    requires caps { length entry.now.caps < 256 }
    requires metadata { length entry.now.metadata < 256 }
    ensures { OnOk result (out.new ≡ out.old ++ encoded entry.now) }
{
    out.append(&entry.codec)?;
    put_counted(out, entry.caps.as_slice())?;
    put_counted(out, entry.metadata.as_slice())
}
