//! The octets of a BASE that is given by its parts.
ghost use Rattle.std.specs.Prelude.{◌≡◌, ◌<◌, ◌^◌, IfOk, IfErr};
ghost use Rattle.std.specs.List.{AllByRecursion};
ghost use Rattle.std.specs.Result.{result_err};
ghost use Rattle.bcast_base.specs.Encoding.{IsOctets};
ghost use Rattle.bcast_base.specs.Tries.{FindsOrWants};
ghost use Rattle.base_grammar.specs.Layout.{endpoint, encoding, BaseIs, HasCodec};
ghost use Rattle.base_grammar.specs.Reading.{base_of, told};

use crate::checking::check_base;
use crate::draft_steps::ROOM;
use crate::fault::BaseFault;
use crate::room::behind_subgroups;
use crate::subgroup::Subgroup;
use crate::writing::encode_fields;
use bcast_base::Octets;
use std::alloc::Global;

/// The octets of the BASE of this presentation delay in µs, below 2^24, and of these subgroups. Where they are no BASE, the fault is the one
/// that reading finds in their octets. Want of memory may come for any.
pub fn encode_parts(alloc: Global, delay: u32, subgroups: &[Subgroup]) -> Result<Octets, BaseFault>
    requires delay { delay < 2 ^ 24 }
    requires codecs { AllByRecursion HasCodec subgroups.now }
    ensures base { IfOk result (BaseIs (endpoint delay subgroups.now)) }
    ensures fault { IfErr result (λ fault. FindsOrWants (told fault) (base_of (encoding (endpoint delay subgroups.now)))) }
{
    if behind_subgroups(ROOM, subgroups).is_none() {
        return Err(BaseFault::TooLong);
    }
    let octets = encode_fields(alloc, delay, subgroups)?;
    match check_octets(octets.as_slice()) {
        Ok(()) => Ok(octets),
        Err(fault) => Err(fault),
    }
}

// What is wrong with octets that are no BASE.
fn check_octets(from: &[u8]) -> Result<(), BaseFault>
    ensures fault { result_err result ≡ result_err (base_of from.now) }
    ensures octets { IsOctets from.now }
{
    check_base(from)
}
