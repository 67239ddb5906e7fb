ghost use Rattle.std.specs.Prelude.{◌≡◌, ◌≤◌, ◌<◌, ◌*◌, ◌^◌, ◌++◌, ℕ, List, length, IfOk};
ghost use Rattle.ltv_codec.specs.Layout.{structure};
ghost use Rattle.base_grammar.specs.Ad.{broadcast_audio_announcement};
ghost use Rattle.base_grammar.specs.Layout.{BaseIs};
ghost use Rattle.big_info.specs.Layout.{Encodes};
ghost use Rattle.big_info.specs.Widths.{FitsWidths};
ghost use Rattle.announcement_train.specs.Layout.{IsTrain, announced, basic_audio_announcement, info_ad, lead, service_ad};

use base_grammar::{Base, put_base, write_ad};
use bcast_base::{Memory, Octets, put_number};
use big_info::{BigInfo, encode_big_info};
use std::alloc::Global;

/// The AD type of Service Data of a 16-bit UUID.
const SERVICE_DATA: u8 = 0x16;

/// The AD type of the BIGInfo.
const BIG_INFO: u8 = 0x2c;

/// The UUID of the Broadcast Audio Announcement Service.
const BROADCAST_AUDIO_ANNOUNCEMENT: u16 = 0x1852;

/// The UUID of the Basic Audio Announcement Service.
const BASIC_AUDIO_ANNOUNCEMENT: u16 = 0x1851;

/// From a train to the anchor that it tells of, in µs.
const LEAD: u64 = 3_000;

/// What a source announces for an event: when, in µs, and the AD lists of the extended and the periodic advertising and its ACAD.
#[derive(Drop)]
pub struct Train {
    pub time: u64,
    pub ext: Octets,
    pub adv: Octets,
    pub acad: Octets,
}

impl Train {
    /// The train of a source for the event with this number and this anchor in µs, which is 3,000 at least.
    ///
    /// It comes 3,000 µs before the anchor. EXT has the Broadcast_ID (Basic Audio Profile 1.0, section 3.7.2.1), ADV the
    /// BASE (section 3.7.2.2), and ACAD the BIGInfo (Core 5.2, volume 6 part B, section 4.4.6.11) with the payload count of
    /// the event, which is below 2^39.
    pub fn of_event(
        alloc: Global,
        broadcast_id: [u8; 3],
        base: &Base,
        info: &BigInfo,
        event: u64,
        anchor: u64,
    ) -> Result<Train, Memory>
        requires widths { FitsWidths info.now }
        requires count { event * info.now.bn < 2 ^ 39 }
        requires anchor { lead ≤ anchor }
        ensures { IfOk result (λ train. IsTrain broadcast_id base.now info.now event anchor train) }
    {
        Ok(Train {
            time: anchor - LEAD,
            ext: id_list(alloc, &broadcast_id)?,
            adv: base_list(alloc, base)?,
            acad: info_list(alloc, info, event)?,
        })
    }
}

/// An AD list of one structure: the Broadcast_ID.
fn id_list(alloc: Global, broadcast_id: &[u8; 3]) -> Result<Octets, Memory>
    ensures { IfOk result (λ octets. octets ≡ structure (service_ad broadcast_audio_announcement broadcast_id.now)) }
{
    let mut octets = service_begun(alloc, BROADCAST_AUDIO_ANNOUNCEMENT, broadcast_id.len())?;
    octets.append(broadcast_id)?;
    Ok(octets)
}

/// An AD list of one structure: the BASE.
fn base_list(alloc: Global, base: &Base) -> Result<Octets, Memory>
    ensures { IfOk result (λ octets. (encoded : List ℕ) × BaseIs base.now encoded
        × (octets ≡ structure (service_ad basic_audio_announcement encoded))) }
{
    let count = base.octet_count();
    let mut octets = service_begun(alloc, BASIC_AUDIO_ANNOUNCEMENT, count)?;
    put_base(&mut octets, base)?;
    Ok(octets)
}

/// The begin of an AD list of one structure, which is Service Data of this UUID: what stands before a content of so many octets.
fn service_begun(alloc: Global, uuid: u16, count: usize) -> Result<Octets, Memory>
    requires { count ≤ 252 }
    ensures { IfOk result (λ octets. (content : List ℕ) → length content ≡ count → octets ++ content ≡ structure (service_ad uuid content)) }
{
    let mut octets = Octets::of(Vec::with_capacity(alloc, count + 4)?);
    octets.append(&[count as u8 + 3, SERVICE_DATA])?;
    put_number(&mut octets, u64::from(uuid), 2)?;
    Ok(octets)
}

/// An AD list of one structure: the BIGInfo that announces this event.
fn info_list(alloc: Global, info: &BigInfo, event: u64) -> Result<Octets, Memory>
    requires widths { FitsWidths info.now }
    requires count { event * info.now.bn < 2 ^ 39 }
    ensures { IfOk result (λ octets. (encoded : List ℕ) × Encodes (announced info.now event) 0 encoded
        × (octets ≡ structure (info_ad encoded))) }
{
    let mut octets = [0u8; 57];
    let count = encode_big_info(&announced_info(info, event), &mut octets);
    one_structure(alloc, BIG_INFO, &octets[..count])
}

/// The BIGInfo that announces this event: it begins 100 × 30 µs behind the train.
fn announced_info(info: &BigInfo, event: u64) -> BigInfo
    requires widths { FitsWidths info.now }
    requires count { event * info.now.bn < 2 ^ 39 }
    ensures is { result ≡ announced info.now event }
    ensures widths { FitsWidths result }
{
    BigInfo {
        big_offset: 100,
        big_offset_units: 0,
        seed_access_address: 0,
        base_crc_init: 0,
        chm: (1 << 37) - 1,
        bis_payload_count: event * u64::from(info.bn),
        ..*info
    }
}

/// An AD list of one structure.
fn one_structure(alloc: Global, kind: u8, value: &[u8]) -> Result<Octets, Memory>
    requires { length value.now ≤ 254 }
    ensures { IfOk result (λ octets. octets ≡ structure (record { kind = kind; value = value.now })) }
{
    let mut octets = Octets::of(Vec::with_capacity(alloc, value.len() + 2)?);
    write_ad(&mut octets, kind, value)?;
    Ok(octets)
}
