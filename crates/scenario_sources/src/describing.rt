//! What the lines before `start` say of a source but for its BASE.
ghost use Rattle.std.specs.Prelude.{◌≡◌, ◌≤◌, ◌<◌, ◌^◌, ℕ, List};
ghost use Rattle.big_info.specs.Widths.{FitsWidths};
ghost use Rattle.scenario_text.specs.declared.step.Step.{Step};
ghost use Rattle.scenario_text.specs.declared.step.Step.TheVariants.{Ident as IdentStep, Cipher as CipherStep};
ghost use Rattle.scenario_sources.specs.Described.{IsPlain, group_step};
ghost use Rattle.scenario_sources.specs.State.Phases.{Becomes, PhaseIs};

use crate::phase::{Described, Phase, put_phase};
use base_grammar::BaseDraft;
use big_info::{BigInfo, Cipher};
use source_machine::Identity;
use std::alloc::Global;
use transcript_text::{Refusal, Stop};

/// `group`: describes a source, once.
pub(crate) fn describe(
    alloc: Global,
    phase: &mut Phase,
    info: BigInfo,
    origin: u64,
    delay: u32,
) -> Result<(), Stop>
    requires widths { FitsWidths info }
    requires least { 3000 ≤ origin }
    requires greatest { origin ≤ 2 ^ 48 }
    requires delay { delay < 2 ^ 24 }
    ensures { (version : ℕ) (own : List Step) → IsPlain info → PhaseIs own phase.old
        → Becomes version own (group_step info origin delay) phase.new result }
{
    let Phase::Absent = phase else {
        return Err(Stop::Refused(Refusal::Order));
    };
    let described = Described {
        info,
        origin,
        delay,
        identity: None,
        base: BaseDraft::new(alloc, delay),
    };
    put_phase(phase, Phase::Described(described));
    Ok(())
}

/// `ident`: names a source, once.
pub(crate) fn identify(phase: &mut Phase, identity: Identity) -> Result<(), Stop>
    ensures { (version : ℕ) (own : List Step) → PhaseIs own phase.old
        → Becomes version own (IdentStep identity.address_type identity.address identity.sid identity.broadcast_id) phase.new result }
{
    let Phase::Described(described) = phase else {
        return Err(Stop::Refused(Refusal::Order));
    };
    if described.identity.is_some() {
        return Err(Stop::Refused(Refusal::Order));
    }
    described.identity = Some(identity);
    Ok(())
}

/// `cipher`: encrypts the group of a source, once.
pub(crate) fn encrypt(phase: &mut Phase, cipher: Cipher) -> Result<(), Stop>
    ensures { (version : ℕ) (own : List Step) → PhaseIs own phase.old
        → Becomes version own (CipherStep cipher.giv cipher.gskd) phase.new result }
{
    let Phase::Described(described) = phase else {
        return Err(Stop::Refused(Refusal::Order));
    };
    if described.info.cipher.is_some() {
        return Err(Stop::Refused(Refusal::Order));
    }
    described.info.cipher = Some(cipher);
    Ok(())
}
