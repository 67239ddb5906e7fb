ghost use Rattle.std.specs.Prelude.{◌≡◌, ◌≤◌, ◌++◌, OnOk, map, decimal};
ghost use Rattle.scenario_words.specs.Joined.{behind};
ghost use Rattle.scenario_words.specs.ValueWords.{streams_from, streams_in};

use bcast_base::{Bis, BisSet, Memory, Octets};
use scenario_words::{Word, put_words};

/// Puts an index behind a line where its stream is in the set.
fn put_stream(line: &mut Octets, which: BisSet, bis: Bis) -> Result<(), Memory>
    ensures { OnOk result (line.new ≡ line.old ++ behind (map decimal (streams_from which bis 1))) }
{
    if which.has(bis) {
        put_words(line, b"", &[Word::Number(bis.get() as u64)])
    } else {
        Ok(())
    }
}

/// As `put_stream`, for an index from 1 to 31.
fn put_index(line: &mut Octets, which: BisSet, index: u8) -> Result<(), Memory>
    requires least { 1 ≤ index }
    requires greatest { index ≤ 31 }
    ensures { OnOk result (line.new ≡ line.old ++ behind (map decimal (streams_from which index 1))) }
{
    match Bis::new(index) {
        None => Ok(()),
        Some(bis) => put_stream(line, which, bis),
    }
}

/// Puts the indices of all streams of the set behind a line, rising.
pub fn put_streams(line: &mut Octets, which: BisSet) -> Result<(), Memory>
    ensures { OnOk result (line.new ≡ line.old ++ behind (map decimal (streams_in which))) }
{
    'indices: for index in 1u8..32 {
        put_index(line, which, index)?;
    }
    Ok(())
}
