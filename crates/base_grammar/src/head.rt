//! What stands before the entries of a subgroup. `whole` is all that is read, and `rest` its last octets.
ghost use Rattle.std.specs.Prelude.{◌≡◌, ◌≤◌, ℕ, List, length, Ok, Err, IfOk, IfErr};
ghost use Rattle.base_grammar.specs.Reading.{entries_at, subgroup_at};
ghost use Rattle.base_grammar.specs.declared.fault.BaseFault.{BaseFault};
ghost use Rattle.base_grammar.specs.declared.subgroup.BaseEntry.{BaseEntry};

use crate::fault::BaseFault;
use crate::fields::{codec_field, run_field, streams_field};
use crate::subgroup::is_lc3_codec;

// What stands before the entries, and the octets from them on.
#[derive(Drop)]
pub(crate) struct SubgroupHead<'a> {
    pub(crate) count: u8,
    pub(crate) codec: [u8; 5],
    pub(crate) is_lc3: bool,
    pub(crate) config: &'a [u8],
    pub(crate) metadata: &'a [u8],
    pub(crate) rest: &'a [u8],
}

// The head of a subgroup.
pub(crate) fn subgroup_head<'a>(whole: &[u8], rest: &'a [u8]) -> Result<SubgroupHead<'a>, BaseFault>
    requires { length rest.now ≤ length whole.now }
    ensures read { IfOk result (λ head. (before : List ℕ) (entries : List BaseEntry) (left : List ℕ)
        → entries_at whole.now head.is_lc3 before head.count head.rest.now ≡ Ok (entries, left)
        → subgroup_at whole.now before rest.now
        ≡ Ok (record { codec = head.codec; config = head.config.now; metadata = head.metadata.now; entries = entries }, left)) }
    ensures unread { IfOk result (λ head. (before : List ℕ) (fault : BaseFault)
        → entries_at whole.now head.is_lc3 before head.count head.rest.now ≡ Err fault → subgroup_at whole.now before rest.now ≡ Err fault) }
    ensures fault { IfErr result (λ fault. (before : List ℕ) → subgroup_at whole.now before rest.now ≡ Err fault) }
    ensures shorter { IfOk result (λ head. length head.rest.now ≤ length rest.now) }
{
    let (count, rest) = streams_field(whole, rest)?;
    let (codec, rest) = codec_field(whole, rest)?;
    let is_lc3 = is_lc3_codec(&codec);
    let (config, rest) = run_field(whole, rest, is_lc3)?;
    let (metadata, rest) = run_field(whole, rest, true)?;
    Ok(SubgroupHead {
        count,
        codec,
        is_lc3,
        config,
        metadata,
        rest,
    })
}
