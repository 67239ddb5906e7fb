ghost use Rattle.std.specs.Prelude.{◌≡◌, ◌≤◌, ◌<◌, ◌++◌, ℕ, OnOk, map, decimal};
ghost use Rattle.std.specs.Int.{bit_at};
ghost use Rattle.scenario_words.specs.Joined.{behind};
ghost use Rattle.transcript_text.specs.SinkLines.{indices_from, indices_of};

use bcast_base::{Bis, BisSet, Memory, Octets};
use scenario_words::{Word, put_words};

/// Puts an index behind a line where its stream is in the set.
fn put_stream(line: &mut Octets, which: BisSet, bis: Bis) -> Result<(), Memory>
    ensures { OnOk result (line.new ≡ line.old ++ behind (map decimal (indices_from which bis 1))) }
{
    if which.has(bis) {
        put_words(line, b"", &[Word::Number(u64::from(bis.get()))])
    } else {
        Ok(())
    }
}

/// As `put_stream`, for an index from 1 to 31.
fn put_index(line: &mut Octets, which: BisSet, index: u8) -> Result<(), Memory>
    requires least { 1 ≤ index }
    requires greatest { index ≤ 31 }
    ensures { OnOk result (line.new ≡ line.old ++ behind (map decimal (indices_from which index 1))) }
{
    match Bis::new(index) {
        None => Ok(()),
        Some(bis) => put_stream(line, which, bis),
    }
}

/// The greatest index of a set; 0 where it is empty.
fn last_of(which: BisSet) -> u8
    ensures greatest { result ≤ 31 }
    ensures none_above { (i : ℕ) → result ≤ i → i < 31 → bit_at which i ≡ 0 }
{
    (32 - which.bits().leading_zeros()).min(31) as u8
}

/// Puts the indices of all streams of the set behind a line, rising.
pub(crate) fn put_streams(line: &mut Octets, which: BisSet) -> Result<(), Memory>
    ensures { OnOk result (line.new ≡ line.old ++ behind (map decimal (indices_of which))) }
{
    let end = last_of(which) + 1;
    'indices: for index in 1..end {
        put_index(line, which, index)?;
    }
    Ok(())
}
