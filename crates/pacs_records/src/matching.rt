ghost use Rattle.std.specs.Prelude.{◌≡◌, OnOk, IfErr, IsTrue};
ghost use Rattle.std.specs.Result.{result_err};
ghost use Rattle.pacs_records.specs.Layout.{Fits};
ghost use Rattle.std.specs.Str.{bytes_eq};
ghost use Rattle.ltv_codec.specs.Layout.{AreLtvs};
ghost use Rattle.pacs_records.specs.Match.{caps_in, Takes, TakesStream, RefusesStream, IsToldReason};
ghost use Rattle.pacs_records.specs.Reasons.{reason_of, not_taken, stream_not_taken, lc3_reason};
ghost use Rattle.base_grammar.specs.Layout.{indices, stands_in};

use crate::capability::Capability;
use crate::not_taken::NotTaken;
use crate::record::PacRecord;
use crate::requirements::{
    has_channels, has_context, has_duration, has_frame_octets, has_frames, has_frequency, is_placed,
};
use base_grammar::{Base, Effective, is_lc3_codec};
use bcast_base::Bis;
use ltv_codec::Caps;

/// Whether a sink takes a stream of a BASE, which has its index: some record meets all requirements. Else it is the first
/// requirement that the last record doesn't meet, or Codec where there is no record. It takes no memory.
pub fn takes(cap: &Capability, base: &Base, bis: Bis) -> Result<(), NotTaken>
    requires { IsTrue (stands_in (indices base.now.subgroups) bis) }
    ensures exact { result_err result ≡ stream_not_taken cap.now base.now bis }
    ensures taken { OnOk result (TakesStream cap.now base.now bis) }
    ensures refused { IfErr result (λ reason. RefusesStream reason cap.now base.now bis) }
{
    match base.effective(bis) {
        Some(effective) => takes_effective(cap, &effective),
        None => unreachable!(),
    }
}

// Whether a sink takes a stream of which the BASE says this.
fn takes_effective(capability: &Capability, effective: &Effective) -> Result<(), NotTaken>
    ensures exact { result_err result ≡ not_taken capability.now effective.now }
    ensures taken { OnOk result (Takes capability.now effective.now) }
    ensures refused { IfErr result (λ reason. (¬ Takes capability.now effective.now) × IsToldReason reason capability.now effective.now) }
{
    first_that_fits(capability, effective)
}

// The records in order, up to the first that fits.
fn first_that_fits(capability: &Capability, effective: &Effective) -> Result<(), NotTaken>
    ensures { result_err result ≡ not_taken capability.now effective.now }
{
    let mut told = NotTaken::Codec;
    for entry in capability.entries.as_slice() {
        match unmet(entry, capability, effective) {
            None => return Ok(()),
            Some(reason) => told = reason,
        }
    }
    Err(told)
}

// The first requirement of a record that is not met.
fn unmet(entry: &PacRecord, capability: &Capability, effective: &Effective) -> Option<NotTaken>
    requires { Fits entry.now }
    ensures { result ≡ reason_of entry.now capability.now effective.now }
{
    if !are_same(&entry.codec, &effective.codec) {
        return Some(NotTaken::Codec);
    }
    if !is_lc3_codec(&effective.codec) {
        return None;
    }
    let caps = caps_of(entry.caps.as_slice());
    unmet_of_lc3(&caps, capability, effective)
}

// Whether the codecs are the same.
fn are_same(codec: &[u8; 5], other: &[u8; 5]) -> bool
    ensures { result ≡ bytes_eq codec.now other.now }
{
    codec.as_slice() == other.as_slice()
}

// The capabilities of octets that are an LTV list.
fn caps_of(octets: &[u8]) -> Caps
    requires { AreLtvs octets.now }
    ensures { result ≡ caps_in octets.now }
{
    Caps::of(octets)
}

// The first requirement of LC3 that is not met.
fn unmet_of_lc3(caps: &Caps, capability: &Capability, effective: &Effective) -> Option<NotTaken>
    ensures { result ≡ lc3_reason caps.now capability.now effective.now }
{
    let config = &effective.config;
    if !has_frequency(config, caps) {
        return Some(NotTaken::Frequency);
    }
    if !has_duration(config, caps) {
        return Some(NotTaken::Duration);
    }
    if !has_frame_octets(config, caps) {
        return Some(NotTaken::FrameOctets);
    }
    if !has_channels(config, caps) {
        return Some(NotTaken::Channels);
    }
    if !has_frames(config, caps) {
        return Some(NotTaken::FramesPerSdu);
    }
    if !is_placed(config, capability.locations) {
        return Some(NotTaken::Location);
    }
    if !has_context(effective.contexts, capability.contexts) {
        return Some(NotTaken::Context);
    }
    None
}
