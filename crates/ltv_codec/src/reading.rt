ghost use Rattle.std.specs.Prelude.{◌≡◌, ◌<◌, ◌≤◌, List, length, IfOk, IfErr, OnOk, OnErr, Ok, Err, None};
ghost use Rattle.std.specs.Result.{result_err};
ghost use Rattle.ltv_codec.specs.Faults.{IsBad, IsFault};
ghost use Rattle.ltv_codec.specs.Layout.{IsLtvList, AreLtvs};
ghost use Rattle.ltv_codec.specs.Reading.{ltvs_of, ltvs_in, bad_of, told, IsStructure, IsBadAt};
ghost use Rattle.ltv_codec.specs.Values.{first_in};
ghost use Rattle.ltv_codec.specs.declared.fault.LtvFault.TheVariants.{Memory as NoMemory};
ghost use Rattle.ltv_codec.specs.declared.ltvs.Ltv.{Ltv};
ghost use Rattle.bcast_base.specs.Reading.{Gives, place_in};
ghost use Rattle.bcast_base.specs.Tries.{Answers};

use crate::fault::{LtvBad, LtvFault};
use crate::ltvs::Ltvs;
use bcast_base::{Memory, counted_at, place_of};
use std::alloc::Global;

/// Whether the octets are an LTV list. Else it is the first bad length octet: one of 0, or one that passes the end.
pub fn check_ltvs(from: &[u8]) -> Result<(), LtvBad>
    ensures exact { result_err result ≡ bad_of from.now }
    ensures list { OnOk result (IsLtvList (ltvs_in from.now) from.now) }
    ensures ltvs { OnOk result (AreLtvs from.now) }
    ensures cut { IfErr result (λ bad. IsBad bad from.now) }
{
    check_structures(from)
}

/// The LTV list that the octets are. Else it is the first bad length octet. Want of memory comes only for octets that are
/// a list. No octets take none.
pub fn decode_ltvs(alloc: Global, from: &[u8]) -> Result<Ltvs, LtvFault>
    ensures exact { Answers told result (ltvs_of from.now) }
    ensures list { IfOk result (λ ltvs. IsLtvList ltvs from.now) }
    ensures only { (ltvs : List Ltv) → IsLtvList ltvs from.now → Answers told result (Ok ltvs) }
    ensures cut { IfErr result (λ fault. IsFault fault from.now) }
{
    decode_structures(alloc, from)
}

/// The first value of this type in octets that are an LTV list, lent from them.
pub fn first_value(from: &[u8], kind: u8) -> Option<&[u8]>
    requires { AreLtvs from.now }
    ensures { Gives (λ value. value.now) result (first_in kind from.now) }
{
    let mut rest = from;
    'structures: while !rest.is_empty() {
        let Ok((found, value, after)) = structure_at(from, rest) else {
            return None;
        };
        if found == kind {
            return Some(value);
        }
        rest = after;
    }
    None
}

// The first bad length octet.
fn check_structures(from: &[u8]) -> Result<(), LtvBad>
    ensures { result_err result ≡ bad_of from.now }
{
    let mut rest = from;
    'structures: while !rest.is_empty() {
        let (_kind, _value, after) = structure_at(from, rest)?;
        rest = after;
    }
    Ok(())
}

// The structures, looked through where they lie before any memory is taken.
fn decode_structures(alloc: Global, from: &[u8]) -> Result<Ltvs, LtvFault>
    ensures exact { Answers told result (ltvs_of from.now) }
    ensures memory { result ≡ Err NoMemory → 0 < length from.now }
{
    check_structures(from)?;
    let list = own_structures(alloc, from)?;
    Ok(list)
}

// The structures of octets that are a list, in memory of their own.
fn own_structures(alloc: Global, from: &[u8]) -> Result<Ltvs, Memory>
    requires { bad_of from.now ≡ None }
    ensures ok { IfOk result (λ ltvs. ltvs_of from.now ≡ Ok ltvs) }
    ensures err { OnErr result (0 < length from.now) }
{
    let mut list = Ltvs::new(alloc);
    let mut rest = from;
    'structures: while !rest.is_empty() {
        let Ok((kind, value, after)) = structure_at(from, rest) else {
            unreachable!()
        };
        list.push(kind, value)?;
        rest = after;
    }
    Ok(list)
}

// Type and value of the structure at the front of `rest`, the last octets of `whole`, and the octets behind it.
fn structure_at<'a>(whole: &[u8], rest: &'a [u8]) -> Result<(u8, &'a [u8], &'a [u8]), LtvBad>
    requires within { length rest.now ≤ length whole.now }
    requires more { 0 < length rest.now }
    ensures ok { IfOk result (λ x. IsStructure rest.now x.0 x.1.now x.2.now) }
    ensures err { IfErr result (λ bad. IsBadAt (place_in whole.now rest.now) rest.now bad) }
{
    let place = place_of(whole, rest);
    let Some((body, after)) = counted_at(rest) else {
        return Err(LtvBad::Short { place });
    };
    let [kind, value @ ..] = body else {
        return Err(LtvBad::ZeroLength { place });
    };
    Ok((*kind, value, after))
}
