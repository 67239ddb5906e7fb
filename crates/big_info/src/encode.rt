ghost use Rattle.std.specs.Prelude.{◌≡◌, take, drop, Some};
ghost use Rattle.bcast_base.specs.Numbers.{Le};
ghost use Rattle.big_info.specs.Layout.{CipherIs, Encodes, number_of, octet_count};
ghost use Rattle.big_info.specs.Widths.{FitsWidths};

use crate::info::{BigInfo, Cipher};
use crate::word::put_word;

/// Writes a BIGInfo whose fields fit their widths (Core 5.2, volume 6 part B, section 4.4.6.11), with RFU 0, and answers
/// how many octets it has: 33, or 57 where the group is encrypted. What lies behind them stays.
pub fn encode_big_info(info: &BigInfo, into: &mut [u8; 57]) -> usize
    requires { FitsWidths info.now }
    ensures count { result ≡ octet_count info.now }
    ensures layout { Encodes info.now 0 (take result into.new) }
    ensures rest { drop result into.new ≡ drop result into.old }
{
    write_fields(info, into);
    match info.cipher {
        None => 33,
        Some(cipher) => {
            write_cipher(&cipher, into);
            57
        }
    }
}

// The first 33 octets.
fn write_fields(info: &BigInfo, into: &mut [u8; 57])
    requires { FitsWidths info.now }
    ensures number { Le (number_of info.now 0) (take 33 into.new) }
    ensures rest { drop 33 into.new ≡ drop 33 into.old }
{
    let interval = info.big_offset as u64
        + ((info.big_offset_units as u64) << 14)
        + ((info.iso_interval as u64) << 15)
        + ((info.num_bis as u64) << 27);
    let counts = info.nse as u64 + ((info.bn as u64) << 5);
    let subevents = info.sub_interval as u64 + ((info.pto as u64) << 20);
    // RFU is the last octet of this word.
    let spacing = info.bis_spacing as u64
        + ((info.irc as u64) << 20)
        + ((info.max_pdu as u64) << 24);
    let unit = info.sdu_interval as u64 + ((info.max_sdu as u64) << 20);
    let channels = info.chm + ((info.phy as u64) << 37);
    let payloads = info.bis_payload_count + ((info.framing as u64) << 39);
    put_word(interval, 0, 4, into);
    put_word(counts, 4, 1, into);
    put_word(subevents, 5, 3, into);
    put_word(spacing, 8, 5, into);
    put_word(info.seed_access_address as u64, 13, 4, into);
    put_word(unit, 17, 4, into);
    put_word(info.base_crc_init as u64, 21, 2, into);
    put_word(channels, 23, 5, into);
    put_word(payloads, 28, 5, into);
}

// GIV and GSKD behind the fields.
fn write_cipher(cipher: &Cipher, into: &mut [u8; 57])
    ensures fields { take 33 into.new ≡ take 33 into.old }
    ensures cipher { CipherIs (Some cipher.now) (drop 33 into.new) }
{
    into[33..41].copy_from_slice(&cipher.giv);
    into[41..].copy_from_slice(&cipher.gskd);
}
