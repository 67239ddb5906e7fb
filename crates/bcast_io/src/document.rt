ghost use Rattle.std.specs.Prelude.{◌≡◌, ◌≢◌, Err};
ghost use Rattle.bcast_base.specs.Counts.{Rose};
ghost use Rattle.bcast_io.specs.Documents.{ReadsDocument};
ghost use Rattle.bcast_io.specs.declared.piece.Unread.TheVariants.{Failed as HasFailed};

use crate::ByteSource;
use crate::piece::{Piece, Unread, read_piece};
use bcast_base::Octets;
use std::alloc::Global;

/// The most octets of a document.
pub const DOCUMENT_LIMIT: usize = 1_048_576;

/// A document that a source gave.
#[derive(Drop)]
pub enum Document {
    /// All of it: the input ended behind it.
    Whole(Octets),
    /// It has more than 1,048,576 octets. One more was read, and none behind that.
    TooLong,
}

/// Reads a document from a source to the end of the input, or to octet 1,048,577, whichever comes first.
///
/// `Failed` comes only where the source's count of faults rose.
pub fn read_document<S: ByteSource>(alloc: Global, source: &mut S) -> Result<Document, Unread>
    ensures reads { ReadsDocument (S.left source.old) (S.left source.new) result }
    ensures failed { result ≡ Err HasFailed → Rose (S.faults source.old) (S.faults source.new) }
    ensures none_failed { result ≢ Err HasFailed → S.faults source.new ≡ S.faults source.old }
{
    let mut octets = Octets::new(alloc);
    'pieces: while octets.as_slice().len() <= DOCUMENT_LIMIT {
        match read_piece(source, &mut octets) {
            Ok(Piece::Taken) => continue 'pieces,
            Ok(Piece::End) => return Ok(Document::Whole(octets)),
            Err(unread) => return Err(unread),
        }
    }
    Ok(Document::TooLong)
}
