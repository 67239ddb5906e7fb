//! What the match compares of a stream and a record of a sink (Published Audio Capabilities Service 1.0).
ghost use Rattle.std.specs.Prelude.{◌<◌, length, IsTrue};
ghost use Rattle.ltv_codec.specs.Layout.{AreLtvs};

use base_grammar::Effective;
use bcast_base::{Memory, Octets};
use ltv_codec::{Caps, Config, check_ltvs};
use pacs_records::{Capability, NotTaken};
use scenario_words::{Word, put_words};

/// Capabilities of which none is said.
const NONE_SAID: Caps = Caps {
    frequencies: None,
    durations: None,
    counts: None,
    least: None,
    greatest: None,
    frames: None,
};

/// Whether octets are an LTV list that a record may have.
pub(crate) fn is_list(octets: &[u8]) -> bool
    ensures list { IsTrue result → AreLtvs octets.now }
    ensures short { IsTrue result → length octets.now < 256 }
{
    if octets.len() > 255 {
        return false;
    }
    check_ltvs(octets).is_ok()
}

/// Puts behind a note the values that a row of the match compares: that of the stream, and that of the last record, of `locate` or of
/// `context`. Sets of bits stand as lines spell them, and `-` where a value is left out.
pub(crate) fn put_values(
    rows: &mut Octets,
    reason: NotTaken,
    effective: &Effective,
    capability: &Capability,
) -> Result<(), Memory> {
    let count = capability.entries.count();
    if count == 0 {
        return Ok(());
    }
    let record = capability.entries.item(count - 1);
    if let NotTaken::Codec = reason {
        return put_both(
            rows,
            Word::Octets(effective.codec.as_slice()),
            Word::Octets(record.codec.as_slice()),
        );
    }
    let caps = caps_of(record.caps.as_slice());
    let config = &effective.config;
    match reason {
        NotTaken::Location => put_both(
            rows,
            Word::Octets(config.allocation.unwrap_or(0).to_le_bytes().as_slice()),
            Word::Octets(capability.locations.to_le_bytes().as_slice()),
        ),
        NotTaken::Context => put_both(
            rows,
            Word::Octets(effective.contexts.unwrap_or(1).to_le_bytes().as_slice()),
            Word::Octets(capability.contexts.to_le_bytes().as_slice()),
        ),
        _ => put_lc3(rows, reason, config, &caps),
    }
}

/// Puts behind a note of a stream that a record fits what was compared besides LC3: the codec, the locations and the contexts, each first
/// that of the stream and then that of the sink.
pub(crate) fn put_fitting(
    rows: &mut Octets,
    effective: &Effective,
    capability: &Capability,
) -> Result<(), Memory> {
    put_words(
        rows,
        b"; here",
        &[
            Word::Text(b"codec"),
            Word::Octets(effective.codec.as_slice()),
            Word::Text(b"locations"),
            Word::Octets(
                effective
                    .config
                    .allocation
                    .unwrap_or(0)
                    .to_le_bytes()
                    .as_slice(),
            ),
            Word::Text(b"and"),
            Word::Octets(capability.locations.to_le_bytes().as_slice()),
            Word::Text(b"contexts"),
            Word::Octets(effective.contexts.unwrap_or(1).to_le_bytes().as_slice()),
            Word::Text(b"and"),
            Word::Octets(capability.contexts.to_le_bytes().as_slice()),
        ],
    )
}

/// The capabilities of a record.
fn caps_of(octets: &[u8]) -> Caps {
    if is_list(octets) {
        Caps::of(octets)
    } else {
        NONE_SAID
    }
}

/// Puts two values.
fn put_both(rows: &mut Octets, stream: Word<'_>, sink: Word<'_>) -> Result<(), Memory> {
    put_words(rows, b"; here", &[stream])?;
    put_words(rows, b" and", &[sink])
}

/// Puts the values of the rows that are of LC3 alone.
fn put_lc3(
    rows: &mut Octets,
    reason: NotTaken,
    config: &Config,
    caps: &Caps,
) -> Result<(), Memory> {
    match reason {
        NotTaken::Frequency => match caps.frequencies {
            Some(bits) => put_both(
                rows,
                number(config.frequency.map(u64::from)),
                Word::Octets(bits.to_le_bytes().as_slice()),
            ),
            None => put_both(rows, number(config.frequency.map(u64::from)), number(None)),
        },
        NotTaken::Duration => put_set(rows, number(config.duration.map(u64::from)), caps.durations),
        NotTaken::FrameOctets => {
            put_both(
                rows,
                number(config.frame_octets.map(u64::from)),
                number(caps.least.map(u64::from)),
            )?;
            put_words(rows, b" to", &[number(caps.greatest.map(u64::from))])
        }
        NotTaken::Channels => put_set(rows, Word::Number(channels_of(config)), caps.counts),
        _ => {
            let blocks = u64::from(config.blocks.unwrap_or(1));
            put_both(
                rows,
                Word::Number(blocks.saturating_mul(channels_of(config))),
                number(caps.frames.map(u64::from)),
            )
        }
    }
}

/// Puts a value and a set of bits.
fn put_set(rows: &mut Octets, stream: Word<'_>, bits: Option<u8>) -> Result<(), Memory> {
    match bits {
        Some(bits) => put_both(rows, stream, Word::Octets(&[bits])),
        None => put_both(rows, stream, number(None)),
    }
}

/// A number, or `-`.
fn number(value: Option<u64>) -> Word<'static> {
    match value {
        Some(value) => Word::Number(value),
        None => Word::Text(b"-"),
    }
}

/// The channels of a stream: one for each location, or one where it has none.
fn channels_of(config: &Config) -> u64 {
    u64::from(config.allocation.unwrap_or(0).count_ones()).max(1)
}
