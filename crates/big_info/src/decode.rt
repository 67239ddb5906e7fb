ghost use Rattle.std.specs.Prelude.{◌≡◌, ◌≢◌, ◌≤◌, length, take, slice_index, IfOk, OnErr, Ok, Some};
ghost use Rattle.bcast_base.specs.Numbers.{Le};
ghost use Rattle.big_info.specs.Layout.{BigIs, CipherIs, number_of};
ghost use Rattle.big_info.specs.Reading.{info_of};
ghost use Rattle.big_info.specs.Widths.{FitsWidths};
ghost use Rattle.big_info.specs.declared.info.BigInfo.{BigInfo};

use crate::big_fault::BigFault;
use crate::info::{BigInfo, Cipher};
use crate::word::{bits, word};

/// Reads a BIGInfo of 33 octets, or of 57 where the group is encrypted (Core 5.2, volume 6 part B, section 4.4.6.11). The
/// RFU octet is free. It is refused for its length alone.
pub fn decode_big_info(from: &[u8]) -> Result<BigInfo, BigFault>
    ensures exact { result ≡ info_of from.now }
    ensures layout { IfOk result (λ info. BigIs info from.now) }
    ensures only { (info : BigInfo) → BigIs info from.now → result ≡ Ok info }
    ensures length { OnErr result ((length from.now ≢ 33) × (length from.now ≢ 57)) }
{
    read_info(from)
}

// By the length.
fn read_info(from: &[u8]) -> Result<BigInfo, BigFault>
    ensures layout { IfOk result (λ info. BigIs info from.now) }
    ensures length { OnErr result ((length from.now ≢ 33) × (length from.now ≢ 57)) }
{
    let cipher = match from.len() {
        33 => None,
        57 => Some(read_cipher(&from[33..])),
        _ => return Err(BigFault::Length),
    };
    Ok(read_fields(from, cipher))
}

// GIV and GSKD.
fn read_cipher(from: &[u8]) -> Cipher
    requires { length from.now ≡ 24 }
    ensures { CipherIs (Some result) from.now }
{
    let mut giv = [0; 8];
    let mut gskd = [0; 16];
    giv.copy_from_slice(&from[..8]);
    gskd.copy_from_slice(&from[8..]);
    Cipher { giv, gskd }
}

// The fields of the first 33 octets, and this cipher.
fn read_fields(from: &[u8], cipher: Option<Cipher>) -> BigInfo
    requires { 33 ≤ length from.now }
    ensures widths { FitsWidths result }
    ensures number { Le (number_of result (slice_index from.now 12)) (take 33 from.now) }
    ensures cipher { result.cipher ≡ cipher }
{
    let interval = word(from, 0, 4);
    let counts = word(from, 4, 1);
    let subevents = word(from, 5, 3);
    let spacing = word(from, 8, 3);
    let max_pdu = word(from, 11, 1);
    let seed = word(from, 13, 4);
    let unit = word(from, 17, 4);
    let crc = word(from, 21, 2);
    let channels = word(from, 23, 5);
    let payloads = word(from, 28, 5);
    BigInfo {
        big_offset: bits(interval, 0, 14) as u16,
        big_offset_units: bits(interval, 14, 1) as u8,
        iso_interval: bits(interval, 15, 12) as u16,
        num_bis: bits(interval, 27, 5) as u8,
        nse: bits(counts, 0, 5) as u8,
        bn: bits(counts, 5, 3) as u8,
        sub_interval: bits(subevents, 0, 20) as u32,
        pto: bits(subevents, 20, 4) as u8,
        bis_spacing: bits(spacing, 0, 20) as u32,
        irc: bits(spacing, 20, 4) as u8,
        max_pdu: max_pdu as u8,
        seed_access_address: seed as u32,
        sdu_interval: bits(unit, 0, 20) as u32,
        max_sdu: bits(unit, 20, 12) as u16,
        base_crc_init: crc as u16,
        chm: bits(channels, 0, 37),
        phy: bits(channels, 37, 3) as u8,
        bis_payload_count: bits(payloads, 0, 39),
        framing: bits(payloads, 39, 1) as u8,
        cipher,
    }
}
