ghost use Rattle.std.specs.Prelude.{◌≡◌, ◌≤◌, ◌<◌, ◌+◌, ◌^◌, IfOk, OnOk, OnErr};
ghost use Rattle.base_grammar.specs.declared.fault.DraftFault.TheVariants.{Memory as NoMemory};
ghost use Rattle.announcement_train.specs.PlainBase.{plain_base_of};

use base_grammar::{Base, BaseDraft, DraftFault};
use bcast_base::{Bis, Memory};
use std::alloc::Global;

/// The Codec_ID of LC3.
const LC3: [u8; 5] = [0x06, 0, 0, 0, 0];

/// The BASE of a source of which no line says one: this presentation delay in µs, and one subgroup of LC3 with so many
/// streams, and nothing configured.
pub fn plain_base(alloc: Global, delay: u32, count: u8) -> Result<Base, Memory>
    requires delay { delay < 2 ^ 24 }
    requires least { 1 ≤ count }
    requires greatest { count ≤ 31 }
    ensures { IfOk result (λ base. base ≡ plain_base_of delay count) }
{
    let draft = filled(alloc, delay, count)?;
    match draft.finish() {
        Ok(base) => Ok(base),
        Err(kept) => Err(wanting(kept.fault)),
    }
}

/// The draft of it.
fn filled(alloc: Global, delay: u32, count: u8) -> Result<BaseDraft, Memory>
    requires delay { delay < 2 ^ 24 }
    requires greatest { count ≤ 31 }
    ensures { IfOk result (λ draft. draft ≡ plain_base_of delay count) }
{
    let mut draft = BaseDraft::new(alloc, delay);
    if let Err(fault) = draft.subgroup(LC3, &[]) {
        return Err(wanting(fault));
    }
    'streams: for n in 0..count {
        put_next(&mut draft, delay, n)?;
    }
    Ok(draft)
}

/// Puts the entry behind the first `n`.
fn put_next(draft: &mut BaseDraft, delay: u32, n: u8) -> Result<(), Memory>
    requires greatest { n < 31 }
    requires draft { draft.old ≡ plain_base_of delay n }
    ensures { OnOk result (draft.new ≡ plain_base_of delay (n + 1)) }
{
    match draft.bis(index_behind(n), &[]) {
        Ok(()) => Ok(()),
        Err(fault) => Err(wanting(fault)),
    }
}

/// The index behind the first `n`.
fn index_behind(n: u8) -> Bis
    requires { n < 31 }
    ensures { result ≡ n + 1 }
{
    Bis::new(n + 1).unwrap()
}

/// A step that a draft doesn't refuse fails for want of memory alone.
fn wanting(fault: DraftFault) -> Memory
    requires { fault ≡ NoMemory }
{
    let _fault = fault;
    Memory
}
