ghost use Rattle.std.specs.Prelude.{◌≡◌, ◌≤◌, ◌++◌, length, map, Option, IfOk, IfSome, IsSome, MatchResult, OnOk};
ghost use Rattle.std.specs.List.{flat_map, AllByRecursion};
ghost use Rattle.std.specs.Option.{option_copied};
ghost use Rattle.bcast_base.specs.Layout.{laid};
ghost use Rattle.bcast_base.specs.Subgroups.{Fits, subgroup_fields};
ghost use Rattle.receive_state.specs.Layout.{HasEncoding, IsEncoded, StateIs, encoding, prefix_fields, fields_of, FieldsFit, group_of, number_of, code_of, code_width};

use crate::state::{Encryption, GroupState, ReceiveState};
use bcast_base::{Memory, Octets, put_subgroup};
use std::alloc::Global;

/// The octets that are taken for a state at once: more than most have.
const ROOM: usize = 64;

/// The place, in octets from 0, of a Bad_Code. Where there is none, the number of subgroups stands there.
const BAD_CODE_PLACE: usize = 14;

/// The octets of a receive state that fits, or none where there is no source (Broadcast Audio Scan Service 1.0, section
/// 3.2). No source takes no memory.
pub fn encode_state(alloc: Global, state: Option<&ReceiveState>) -> Result<Octets, Memory>
    requires { IfSome state (λ s. HasEncoding s.now) }
    ensures { MatchResult result (λ octets. StateIs (option_copied state.entry) octets) (λ _. IsSome state.entry) }
{
    let Some(state) = state else {
        return Ok(Octets::new(alloc));
    };
    write_state(alloc, state)
}

// The octets of a state.
fn write_state(alloc: Global, state: &ReceiveState) -> Result<Octets, Memory>
    requires { HasEncoding state.now }
    ensures { IfOk result (λ octets. IsEncoded state.now octets) }
{
    let mut out = begin_state(alloc, state, state.groups.count() as u8, ROOM)?;
    put_groups(&mut out, state.groups.as_slice())?;
    Ok(out)
}

/// The octets of a state before its subgroups, of which it is to have so many: each is put behind them as `put_subgroup` of
/// `bcast_base` does. Those that it has are not read. Memory is taken for so many octets at once.
pub fn begin_state(
    alloc: Global,
    state: &ReceiveState,
    count: u8,
    room: usize,
) -> Result<Octets, Memory>
    ensures prefix { IfOk result (λ octets. octets ≡ laid (prefix_fields (fields_of state.now) count)) }
    ensures code { OnOk result (length (code_of state.now.encryption) ≡ code_width (number_of state.now.encryption)) }
{
    let mut out = Octets::of(Vec::with_capacity(alloc, room)?);
    let [a, b, c, d, e, f] = state.address;
    let [g, h, i] = state.broadcast_id;
    out.append(&[
        state.source_id,
        state.address_type,
        a,
        b,
        c,
        d,
        e,
        f,
        state.sid,
        g,
        h,
        i,
        state.pa_sync_state,
        number_of(&state.encryption),
        count,
    ])?;
    if let Encryption::BadCode(code) = &state.encryption {
        out.truncate(BAD_CODE_PLACE);
        out.append(code)?;
        out.push(count)?;
    }
    Ok(out)
}

// BIG_Encryption.
fn number_of(encryption: &Encryption) -> u8
    ensures { result ≡ number_of encryption.now }
{
    match encryption {
        Encryption::None => 0,
        Encryption::CodeRequired => 1,
        Encryption::Decrypting => 2,
        Encryption::BadCode(_code) => 3,
    }
}

// Puts the subgroups at the end.
fn put_groups(out: &mut Octets, groups: &[GroupState]) -> Result<(), Memory>
    requires { AllByRecursion (λ group. length group.metadata ≤ 255) groups.now }
    ensures fields { OnOk result (out.new ≡ out.old ++ laid (flat_map subgroup_fields (map group_of groups.now))) }
    ensures widths { OnOk result (AllByRecursion Fits (map group_of groups.now)) }
{
    for group in groups {
        let bits = group.bis_sync_state;
        put_subgroup(out, bits, group.metadata.as_slice())?;
    }
    Ok(())
}
