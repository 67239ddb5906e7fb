//! A BIGInfo as a struct of C.
ghost use Rattle.std.specs.Prelude.{◌≡◌};
ghost use Rattle.c_values.specs.Infos.{big_info};

use big_info::{BigInfo, Cipher};

/// A BIGInfo as C's struct.
#[repr(C)]
#[derive(Clone, Copy)]
pub struct AirBigInfo {
    pub chm: u64,
    pub bis_payload_count: u64,
    pub sub_interval: u32,
    pub bis_spacing: u32,
    pub sdu_interval: u32,
    pub seed_access_address: u32,
    pub big_offset: u16,
    pub iso_interval: u16,
    pub max_sdu: u16,
    pub base_crc_init: u16,
    pub big_offset_units: u8,
    pub num_bis: u8,
    pub nse: u8,
    pub bn: u8,
    pub pto: u8,
    pub irc: u8,
    pub max_pdu: u8,
    pub phy: u8,
    pub framing: u8,
    pub is_encrypted: bool,
    pub giv: [u8; 8],
    pub gskd: [u8; 16],
}

/// The info that the struct stands for.
pub fn info_in(from: &AirBigInfo) -> BigInfo
    ensures { result ≡ big_info from.now }
{
    let from = *from;
    let giv = from.giv;
    let gskd = from.gskd;
    let cipher = if from.is_encrypted {
        Some(Cipher { giv, gskd })
    } else {
        None
    };
    BigInfo {
        big_offset: from.big_offset,
        big_offset_units: from.big_offset_units,
        iso_interval: from.iso_interval,
        num_bis: from.num_bis,
        nse: from.nse,
        bn: from.bn,
        sub_interval: from.sub_interval,
        pto: from.pto,
        bis_spacing: from.bis_spacing,
        irc: from.irc,
        max_pdu: from.max_pdu,
        seed_access_address: from.seed_access_address,
        sdu_interval: from.sdu_interval,
        max_sdu: from.max_sdu,
        base_crc_init: from.base_crc_init,
        chm: from.chm,
        phy: from.phy,
        bis_payload_count: from.bis_payload_count,
        framing: from.framing,
        cipher,
    }
}

/// The struct that stands for the info.
pub fn info_for_c(info: &BigInfo) -> AirBigInfo
    ensures { big_info result ≡ info.now }
{
    match info.cipher {
        None => with_cipher(info, false, [0; 8], [0; 16]),
        Some(cipher) => with_cipher(info, true, cipher.giv, cipher.gskd),
    }
}

/// The fields of the info, with this cipher.
fn with_cipher(info: &BigInfo, is_encrypted: bool, giv: [u8; 8], gskd: [u8; 16]) -> AirBigInfo
    ensures fields { result ≡ record {
      chm = info.now.chm;
      bis_payload_count = info.now.bis_payload_count;
      sub_interval = info.now.sub_interval;
      bis_spacing = info.now.bis_spacing;
      sdu_interval = info.now.sdu_interval;
      seed_access_address = info.now.seed_access_address;
      big_offset = info.now.big_offset;
      iso_interval = info.now.iso_interval;
      max_sdu = info.now.max_sdu;
      base_crc_init = info.now.base_crc_init;
      big_offset_units = info.now.big_offset_units;
      num_bis = info.now.num_bis;
      nse = info.now.nse;
      bn = info.now.bn;
      pto = info.now.pto;
      irc = info.now.irc;
      max_pdu = info.now.max_pdu;
      phy = info.now.phy;
      framing = info.now.framing;
      is_encrypted = is_encrypted;
      giv = giv;
      gskd = gskd;
    } }
{
    let info = *info;
    AirBigInfo {
        chm: info.chm,
        bis_payload_count: info.bis_payload_count,
        sub_interval: info.sub_interval,
        bis_spacing: info.bis_spacing,
        sdu_interval: info.sdu_interval,
        seed_access_address: info.seed_access_address,
        big_offset: info.big_offset,
        iso_interval: info.iso_interval,
        max_sdu: info.max_sdu,
        base_crc_init: info.base_crc_init,
        big_offset_units: info.big_offset_units,
        num_bis: info.num_bis,
        nse: info.nse,
        bn: info.bn,
        pto: info.pto,
        irc: info.irc,
        max_pdu: info.max_pdu,
        phy: info.phy,
        framing: info.framing,
        is_encrypted,
        giv,
        gskd,
    }
}
