//! Why a sink doesn't take a stream that a record of it fits.
use crate::ears::Asked;
use bcast_base::{Bis, Memory, Octets};
use scenario_words::{Word, put_words};

/// Puts behind a note why a stream of this subgroup, from 0, isn't taken though a record fits: the slot doesn't want it, it is above
/// NUMBIS, or the sink takes no more streams.
pub(crate) fn put_unwanted(
    rows: &mut Octets,
    asked: &Asked<'_>,
    bis: Bis,
    subgroup: usize,
) -> Result<(), Memory> {
    let Some(wishes) = asked.wishes else {
        return rows.append(b" the slot doesn't want it");
    };
    if subgroup >= wishes.count() {
        return rows.append(
            b" the slot has no BISSYNC for this subgroup, and wants no stream of it",
        );
    }
    let bits = wishes.item(subgroup).bis_sync;
    if !wants(bits, bis.get()) {
        return put_wish(rows, bits);
    }
    if bis.get() > asked.num_bis {
        return put_words(
            rows,
            b" it is above NUMBIS, which is",
            &[Word::Number(u64::from(asked.num_bis))],
        );
    }
    rows.append(b" the sink takes no more: STREAMS of its `sink` line are taken")
}

/// Whether the bit of a stream is set.
fn wants(bits: u32, index: u8) -> bool {
    index > 0 && index < 32 && (bits >> (index - 1)) & 1 == 1
}

/// Puts the streams that are wanted of a subgroup, of which this is none.
fn put_wish(rows: &mut Octets, bits: u32) -> Result<(), Memory> {
    let text: &'static [u8] = match bits.count_ones() {
        0 => b" the slot wants no stream of this subgroup",
        1 => b" the slot wants stream",
        _ => b" the slot wants the streams",
    };
    rows.append(text)?;
    'streams: for index in 1..32u8 {
        if wants(bits, index) {
            put_words(rows, b"", &[Word::Number(u64::from(index))])?;
        }
    }
    if bits != 0 {
        rows.append(b" and not this one")?;
    }
    put_words(
        rows,
        b": BISSYNC",
        &[Word::Octets(bits.to_le_bytes().as_slice())],
    )?;
    rows.append(b", whose first octet has the streams 1 to 8")
}
