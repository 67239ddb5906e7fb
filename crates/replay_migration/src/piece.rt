ghost use Rattle.std.specs.Prelude.{◌≡◌, ◌≢◌, ◌<◌, ◌≤◌, Err, length, count_by};
ghost use Rattle.bcast_base.specs.Counts.{Rose};
ghost use Rattle.bcast_io.specs.TextLines.{newline, text_limit};
ghost use Rattle.memchr.specs.Find.{is_byte};
ghost use Rattle.replay_migration.specs.TextRead.{piece_limit};
ghost use Rattle.replay_migration.specs.State.Pieces.{Joins, ReadsOn};
ghost use Rattle.replay_migration.specs.declared.piece.Unread.TheVariants.{Failed as HasFailed, Memory as NoMemory};

use bcast_base::{Memory, Octets};
use bcast_io::{ByteSource, Failed, TEXT_LIMIT};
use memchr::memchr_iter;

/// What a read gave.
#[derive(Clone, Copy)]
pub(crate) enum Piece {
    /// Octets of the text.
    Taken,
    /// The end of the input.
    End,
    /// The octet past the limit of a text, which the line of this number holds, from 1.
    PastLimit { line: u64 },
}

/// Why a read gave nothing.
#[derive(Clone, Copy)]
pub(crate) enum Unread {
    /// The source failed.
    Failed,
    /// Memory ran out.
    Memory,
}

impl From<Failed> for Unread {
    ghost from_gives = { λ _ unread. unread ≡ HasFailed };

    fn from(_failed: Failed) -> Unread {
        Unread::Failed
    }
}

impl From<Memory> for Unread {
    ghost from_gives = { λ _ unread. unread ≡ NoMemory };

    fn from(_memory: Memory) -> Unread {
        Unread::Memory
    }
}

/// One read: what it gives goes to the end of the text that was read so far.
pub(crate) fn read_piece<S: ByteSource>(
    source: &mut S,
    piece: &mut [u8],
    text: &mut Octets,
) -> Result<Piece, Unread>
    requires room { 0 < length piece.old }
    requires least { length piece.old ≤ piece_limit }
    requires fits { length text.old ≤ text_limit }
    ensures reads { ReadsOn (S.left source.old) (S.left source.new) text.old text.new result }
    ensures failed { result ≡ Err HasFailed → Rose (S.faults source.old) (S.faults source.new) }
    ensures none_failed { result ≢ Err HasFailed → S.faults source.new ≡ S.faults source.old }
{
    let count = source.read(piece)?;
    if count == 0 {
        return Ok(Piece::End);
    }
    Ok(join(text, &piece[..count])?)
}

/// Puts a piece at the end of the text that was read so far, as long as that is within the limit.
fn join(text: &mut Octets, piece: &[u8]) -> Result<Piece, Memory>
    requires some { 0 < length piece.now }
    requires fits { length text.old ≤ text_limit }
    ensures { Joins text.old piece.now text.new result }
{
    let room = TEXT_LIMIT - text.as_slice().len();
    if piece.len() <= room {
        text.append(piece)?;
        return Ok(Piece::Taken);
    }
    let ended = lines_ended(text.as_slice()) + lines_ended(&piece[..room]);
    Ok(Piece::PastLimit {
        line: ended as u64 + 1,
    })
}

/// How many lines end among these octets.
fn lines_ended(octets: &[u8]) -> usize
    ensures count { result ≡ count_by (is_byte newline) octets.now }
    ensures least { result ≤ length octets.now }
{
    memchr_iter(b'\n', octets).count()
}
