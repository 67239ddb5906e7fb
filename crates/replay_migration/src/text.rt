ghost use Rattle.std.specs.Prelude.{◌≡◌, ◌≢◌, Err, IfOk, length};
ghost use Rattle.bcast_base.specs.Counts.{Rose};
ghost use Rattle.replay_migration.specs.TextRead.{piece_limit};
ghost use Rattle.replay_migration.specs.State.Pieces.{ReadsText};
ghost use Rattle.replay_migration.specs.declared.piece.Unread.TheVariants.{Failed as HasFailed};

use crate::piece::{Piece, Unread, read_piece};
use bcast_base::{Memory, Octets};
use bcast_io::{AHEAD_LIMIT, ByteSource};
use std::alloc::Global;

/// A text that a source gave.
#[derive(Drop)]
pub(crate) enum Text {
    /// All of it.
    Whole(Octets),
    /// It has the octet past the limit of a text, which the line of this number holds, from 1.
    TooLong { line: u64 },
}

/// Reads the text of a source to its end, or to the octet past the limit.
pub(crate) fn read_text<S: ByteSource>(alloc: Global, source: &mut S) -> Result<Text, Unread>
    ensures reads { ReadsText (S.left source.old) (S.left source.new) result }
    ensures failed { result ≡ Err HasFailed → Rose (S.faults source.old) (S.faults source.new) }
    ensures none_failed { result ≢ Err HasFailed → S.faults source.new ≡ S.faults source.old }
{
    let Ok(mut piece) = new_piece(alloc) else {
        return Err(Unread::Memory);
    };
    let mut text = Octets::new(alloc);
    'pieces: loop {
        match read_piece(source, &mut piece, &mut text) {
            Ok(Piece::Taken) => continue 'pieces,
            Ok(Piece::End) => return Ok(Text::Whole(text)),
            Ok(Piece::PastLimit { line }) => return Ok(Text::TooLong { line }),
            Err(unread) => return Err(unread),
        }
    }
}

/// Room for what one read gives.
fn new_piece(alloc: Global) -> Result<Vec<u8>, Memory>
    ensures { IfOk result (λ piece. length piece.items ≡ piece_limit) }
{
    Ok(vec![in alloc; 0u8; AHEAD_LIMIT]?)
}
