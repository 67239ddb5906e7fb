ghost use Rattle.std.specs.Prelude.{◌≡◌, ◌≢◌, ◌≤◌, Err, length};
ghost use Rattle.bcast_base.specs.Counts.{Rose};
ghost use Rattle.bcast_io.specs.Documents.{document_limit};
ghost use Rattle.bcast_io.specs.State.Pieces.{ReadsOn};
ghost use Rattle.bcast_io.specs.declared.piece.Unread.TheVariants.{Failed as HasFailed, Memory as NoMemory};

use crate::document::DOCUMENT_LIMIT;
use crate::{ByteSource, Failed};
use bcast_base::{Memory, Octets};

/// The most octets that one read asks for.
const PIECE: usize = 8192;

/// What a read gave.
#[derive(Clone, Copy)]
pub(crate) enum Piece {
    /// Octets of the document.
    Taken,
    /// The end of the input.
    End,
}

/// Why a document wasn't read.
#[derive(Clone, Copy, Debug, PartialEq, Eq)]
pub enum Unread {
    /// The source failed.
    Failed,
    /// Memory ran out.
    Memory,
}

impl From<Failed> for Unread {
    ghost from_gives = { λ _ unread. unread ≡ HasFailed };

    fn from(_failed: Failed) -> Unread {
        Unread::Failed
    }
}

impl From<Memory> for Unread {
    ghost from_gives = { λ _ unread. unread ≡ NoMemory };

    fn from(_memory: Memory) -> Unread {
        Unread::Memory
    }
}

/// One read: what it gives goes to the end of the octets that were read so far. It asks for no octet behind the one that
/// makes a document too long.
pub(crate) fn read_piece<S: ByteSource>(
    source: &mut S,
    octets: &mut Octets,
) -> Result<Piece, Unread>
    requires fits { length octets.old ≤ document_limit }
    ensures reads { ReadsOn (S.left source.old) (S.left source.new) octets.old octets.new result }
    ensures failed { result ≡ Err HasFailed → Rose (S.faults source.old) (S.faults source.new) }
    ensures none_failed { result ≢ Err HasFailed → S.faults source.new ≡ S.faults source.old }
{
    let mut room = [0u8; PIECE];
    let asked = PIECE.min(DOCUMENT_LIMIT + 1 - octets.as_slice().len());
    let piece = &mut room[..asked];
    let count = source.read(piece)?;
    if count == 0 {
        return Ok(Piece::End);
    }
    octets.append(&piece[..count])?;
    Ok(Piece::Taken)
}
