ghost use Rattle.std.specs.Prelude.{◌≡◌, ◌≤◌, ◌++◌, length, take, MatchResult, IfOk, IfErr, OnOk, OnErr, Ok, Err, Some};
ghost use Rattle.base_grammar.specs.Ad.{IsAdList, IsAdShort, first_service, broadcast_audio_announcement};
ghost use Rattle.base_grammar.specs.AdReading.{ads_of, ads_in, id_in, service_of, broadcast_id_of};
ghost use Rattle.ltv_codec.specs.Layout as ltv;
ghost use Rattle.ltv_codec.specs.Layout.{AreLtvs};
ghost use Rattle.ltv_codec.specs.Reading.{ltvs_in};
ghost use Rattle.ltv_codec.specs.Values.{first_of};
ghost use Rattle.bcast_base.specs.Reading.{Gives};

use bcast_base::{Memory, Octets, counted_at};
use ltv_codec::{LtvBad, check_ltvs, first_value};

/// The AD type of Service Data of a 16-bit UUID.
const SERVICE_DATA: u8 = 0x16;

/// The UUID of the Broadcast Audio Announcement Service.
const BROADCAST_AUDIO_ANNOUNCEMENT: u16 = 0x1852;

/// The octets are no AD list: the length octet at this place, from 0, passes the end.
#[derive(Clone, Copy, Debug, PartialEq, Eq)]
pub struct AdShort {
    pub place: usize,
}

/// The contents of the first structure of this type in an AD list, lent from it (Core 5.2, volume 3 part C, section 11).
/// AdShort comes where the octets are no AD list.
pub fn structure(ads: &[u8], kind: u8) -> Result<Option<&[u8]>, AdShort>
    ensures exact { MatchResult result (λ found. Gives (λ contents. contents.now) found (first_of kind (ads_in ads.now)))
        (λ short. ads_of ads.now ≡ Err short.place) }
    ensures read { OnOk result (ads_of ads.now ≡ Ok (ads_in ads.now)) }
    ensures list { OnOk result (IsAdList (ads_in ads.now) ads.now) }
    ensures short { IfErr result (λ short. IsAdShort short.place ads.now) }
{
    let list = listed(ads)?;
    Ok(first_value(list, kind))
}

/// What follows the UUID in the first Service Data of this 16-bit UUID in an AD list, lent from it.
/// AdShort comes where the octets are no AD list.
pub fn service_data(ads: &[u8], uuid: u16) -> Result<Option<&[u8]>, AdShort>
    ensures exact { MatchResult result (λ found. Gives (λ content. content.now) found (first_service uuid (ads_in ads.now)))
        (λ short. ads_of ads.now ≡ Err short.place) }
    ensures read { OnOk result (ads_of ads.now ≡ Ok (ads_in ads.now)) }
    ensures list { OnOk result (IsAdList (ads_in ads.now) ads.now) }
    ensures short { IfErr result (λ short. IsAdShort short.place ads.now) }
{
    let list = listed(ads)?;
    Ok(first_service_data(list, uuid))
}

/// The Broadcast_ID of an announcement: the first 3 octets of the first Service Data of UUID 0x1852 (Basic Audio
/// Profile 1.0, section 3.7.2.1). `None` where that has fewer, where there is none, or where `ext` is no AD list.
pub fn broadcast_id(ext: &[u8]) -> Option<[u8; 3]>
    ensures { result ≡ broadcast_id_of ext.now }
{
    let Ok(Some(content)) = service_data(ext, BROADCAST_AUDIO_ANNOUNCEMENT) else {
        return None;
    };
    id_of(content)
}

/// Puts an AD structure at the end: its length, its type and its contents, of at most 254 octets.
pub fn write_ad(into: &mut Octets, kind: u8, from: &[u8]) -> Result<(), Memory>
    requires { length from.now ≤ 254 }
    ensures ok { OnOk result (into.new ≡ into.old ++ ltv.structure (record { kind = kind; value = from.now })) }
    ensures err { OnErr result (into.new ≡ into.old) }
{
    let before = into.as_slice().len();
    let put = put_structure(into, kind, from);
    if put.is_err() {
        into.truncate(before);
    }
    put
}

// Puts the structure at the end, or a prefix of it where memory runs out.
fn put_structure(into: &mut Octets, kind: u8, from: &[u8]) -> Result<(), Memory>
    requires { length from.now ≤ 254 }
    ensures ok { OnOk result (into.new ≡ into.old ++ ltv.structure (record { kind = kind; value = from.now })) }
    ensures err { OnErr result (take (length into.old) into.new ≡ into.old) }
{
    into.push(from.len() as u8 + 1)?;
    into.push(kind)?;
    into.append(from)
}

// The octets of the whole structures, up to the length octet of 0 that ends them or to the end.
fn listed(ads: &[u8]) -> Result<&[u8], AdShort>
    ensures whole { IfOk result (λ list. AreLtvs list.now) }
    ensures read { IfOk result (λ list. ads_of ads.now ≡ Ok (ltvs_in list.now)) }
    ensures list { OnOk result (IsAdList (ads_in ads.now) ads.now) }
    ensures short { IfErr result (λ short. (ads_of ads.now ≡ Err short.place) × IsAdShort short.place ads.now) }
{
    match check_ltvs(ads) {
        Ok(()) => Ok(ads),
        Err(LtvBad::ZeroLength { place }) => Ok(&ads[..place]),
        Err(LtvBad::Short { place }) => Err(AdShort { place }),
    }
}

// What follows the UUID in the first Service Data of this UUID.
fn first_service_data(list: &[u8], uuid: u16) -> Option<&[u8]>
    requires { AreLtvs list.now }
    ensures { Gives (λ content. content.now) result (first_service uuid (ltvs_in list.now)) }
{
    let mut rest = list;
    'structures: while let Some((body, after)) = counted_at(rest) {
        if let Some(content) = service_at(body, uuid) {
            return Some(content);
        }
        rest = after;
    }
    None
}

// What follows the UUID where type and contents of a structure are Service Data of this UUID.
fn service_at(body: &[u8], uuid: u16) -> Option<&[u8]>
    ensures { Gives (λ content. content.now) result (service_of uuid body.now) }
{
    match body {
        [SERVICE_DATA, low, high, content @ ..] if u16::from_le_bytes([*low, *high]) == uuid => {
            Some(content)
        }
        _ => None,
    }
}

// The first 3 octets.
fn id_of(content: &[u8]) -> Option<[u8; 3]>
    ensures { result ≡ id_in (Some content.now) }
{
    match content {
        [low, middle, high, ..] => Some([*low, *middle, *high]),
        _ => None,
    }
}
