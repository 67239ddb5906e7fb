ghost use Rattle.std.specs.Prelude.{◌≡◌, OnOk, OnErr, IfErr};
ghost use Rattle.std.specs.Io.KnownBytes.{Appends};
ghost use Rattle.bcast_io.specs.Causes.{SinkCause};
ghost use Rattle.bcast_io.specs.Writing.{AppendsPrefix, AppendsShort};

use crate::sink::{ByteSink, SinkFault};

/// Writes all of `from`. After a refusal a prefix of it was written, and not all.
pub fn write_whole<K: ByteSink>(sink: &mut K, from: &[u8]) -> Result<(), SinkFault>
    ensures ok { OnOk result (Appends (K.contents sink.old) (K.contents sink.new) from.now) }
    ensures err { OnErr result (AppendsPrefix (K.contents sink.old) (K.contents sink.new) from.now) }
    ensures short { OnErr result (AppendsShort (K.contents sink.old) (K.contents sink.new) from.now) }
    ensures none_failed { OnOk result (K.faults sink.new ≡ K.faults sink.old) }
    ensures cause { IfErr result (SinkCause (K.faults sink.old) (K.faults sink.new)) }
{
    let mut done = 0;
    while done < from.len() {
        done += sink.write(&from[done..])?;
    }
    Ok(())
}
