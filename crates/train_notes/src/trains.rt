//! What was compared where a sink answers a train.
ghost use Rattle.std.specs.Prelude.{◌≤◌};

use crate::ears::Ears;
use crate::words::octets_at;
use base_grammar::{broadcast_id, service_data, structure};
use bcast_base::{BisSet, Memory, Octets};
use big_info::{BigInfo, Limits, check_group_within, decode_big_info};
use note_parts::{Numbers, put_note};
use refusal_notes::{Source, put_fault};
use scenario_words::Word;
use std::alloc::Global;

/// Of the Basic Audio Announcement Service (Basic Audio Profile 1.0, section 3.7.2.2).
const BASIC_AUDIO_ANNOUNCEMENT: u16 = 0x1851;

/// The type of an advertising structure that is a BIGInfo (Core 5.2, volume 6 part B, section 4.4.6.11).
const BIG_INFO: u8 = 0x2c;

/// By what a slot and a train are the same.
#[derive(Clone, Copy)]
pub struct Identity {
    address_type: u8,
    sid: u8,
    broadcast_id: [u8; 3],
}

impl Identity {
    /// By these.
    pub(crate) fn of(address_type: u8, sid: u8, broadcast_id: [u8; 3]) -> Identity {
        Identity {
            address_type,
            sid,
            broadcast_id,
        }
    }

    /// Whether both are the same.
    pub(crate) fn is(self, other: Identity) -> bool {
        self.is_of(other.address_type, other.sid, &other.broadcast_id)
    }

    /// Whether it is by these.
    pub(crate) fn is_of(self, address_type: u8, sid: u8, broadcast_id: &[u8; 3]) -> bool {
        self.address_type == address_type
            && self.sid == sid
            && self.broadcast_id.as_slice() == broadcast_id.as_slice()
    }
}

/// A train that a sink heard.
#[derive(Drop)]
pub struct Train {
    pub identity: Identity,
    advertised: Octets,
    acad: Octets,
}

impl Train {
    /// The train of a source that a line or a row `train N TIME EXT ADV ACAD` tells, where its EXT has a Broadcast_ID.
    pub fn read(alloc: Global, row: &[u8], source: &Source) -> Option<Train> {
        let ext = octets_at(alloc, row, 3)?;
        let identity = Identity {
            address_type: source.address_type,
            sid: source.sid,
            broadcast_id: broadcast_id(ext.as_slice())?,
        };
        Some(Train {
            identity,
            advertised: octets_at(alloc, row, 4)?,
            acad: octets_at(alloc, row, 5)?,
        })
    }

    /// The octets that are announced as BASE.
    fn base(&self) -> Option<&[u8]> {
        service_data(self.advertised.as_slice(), BASIC_AUDIO_ANNOUNCEMENT)
            .ok()
            .flatten()
    }

    /// NUMBIS of the group that is announced, or 0.
    pub(crate) fn num_bis(&self) -> u8 {
        let Some(octets) = self.big_info() else {
            return 0;
        };
        match decode_big_info(octets) {
            Ok(info) => info.num_bis,
            Err(_) => 0,
        }
    }

    /// The octets that are announced as BIGInfo.
    fn big_info(&self) -> Option<&[u8]> {
        structure(self.acad.as_slice(), BIG_INFO).ok().flatten()
    }
}

/// Whether an answer to a train leaves the sink where it was.
pub fn is_ignored(answer: &[u8]) -> bool {
    answer == b"NotWanted".as_slice()
        || answer == b"OtherTrain".as_slice()
        || answer == b"AlreadyOnGroup".as_slice()
}

/// Whether an answer to a train tells of its BASE.
fn has_base(answer: &[u8]) -> bool {
    answer == b"NoneTaken".as_slice()
        || answer == b"OnGroup".as_slice()
        || answer == b"BadBase".as_slice()
}

/// Puts what was compared for the answer of a sink to a train, which takes these streams of it.
pub fn put_compared(
    rows: &mut Octets,
    answer: &[u8],
    train: &Train,
    ears: &Ears,
    sink: u8,
    taken: BisSet,
    is_second: bool,
) -> Result<(), Memory> {
    if is_ignored(answer) {
        let followed = if answer == b"OtherTrain".as_slice() {
            Some(ears.followed(sink))
        } else {
            None
        };
        return put_identity(rows, train.identity, followed);
    }
    if answer == b"BadBigInfo".as_slice() || answer == b"BadGroup".as_slice() {
        return match train.big_info() {
            Some(octets) => put_big_info(rows, octets, is_second),
            None => Ok(()),
        };
    }
    match train.base() {
        Some(octets) if has_base(answer) => ears.put_reasons(rows, sink, train, octets, taken),
        _ => Ok(()),
    }
}

/// Puts by what a train is known, and the one that the sink follows, where it was compared: none where a group was tuned.
fn put_identity(
    rows: &mut Octets,
    train: Identity,
    followed: Option<Option<Identity>>,
) -> Result<(), Memory> {
    put_known(rows, b"the train has TYPE", train)?;
    match followed {
        Some(Some(other)) => put_known(rows, b"the sink is on that of TYPE", other),
        Some(None) => put_note(rows, &[Word::Text(b"the sink is on a group by `tuned`")]),
        None => Ok(()),
    }
}

/// Puts a text and by what a train is known.
fn put_known(rows: &mut Octets, text: &'static [u8], train: Identity) -> Result<(), Memory> {
    put_note(
        rows,
        &[
            Word::Text(text),
            Word::Number(u64::from(train.address_type)),
            Word::Text(b"SID"),
            Word::Number(u64::from(train.sid)),
            Word::Text(b"ID"),
            Word::Octets(train.broadcast_id.as_slice()),
        ],
    )
}

/// Puts what is wrong with a BIGInfo.
fn put_big_info(rows: &mut Octets, octets: &[u8], is_second: bool) -> Result<(), Memory> {
    let Ok(info) = decode_big_info(octets) else {
        return put_note(
            rows,
            &[
                Word::Text(b"the structure has"),
                Word::Number(octets.len() as u64),
                Word::Text(b"octets"),
            ],
        );
    };
    if !info.fits() {
        return Ok(());
    }
    match check_group_within(&info, limits_of(is_second)) {
        Err(fault) => put_fault(rows, fault, &numbers_of(&info), info.cipher.is_some()),
        Ok(_) => Ok(()),
    }
}

/// The limits of a version.
fn limits_of(is_second: bool) -> Limits
    ensures { result.horizon ≤ 31 }
{
    if is_second {
        Limits::VERSION_2
    } else {
        Limits::VERSION_1
    }
}

/// The numbers of a BIGInfo.
fn numbers_of(info: &BigInfo) -> Numbers {
    Numbers {
        iso: u64::from(info.iso_interval),
        sdu: u64::from(info.sdu_interval),
        max_sdu: u64::from(info.max_sdu),
        max_pdu: u64::from(info.max_pdu),
        num_bis: u64::from(info.num_bis),
        bn: u64::from(info.bn),
        nse: u64::from(info.nse),
        irc: u64::from(info.irc),
        pto: u64::from(info.pto),
        sub: u64::from(info.sub_interval),
        spacing: u64::from(info.bis_spacing),
        phy: u64::from(info.phy),
    }
}
