//! Sending a piece to a writer.
ghost use Rattle.zr_io.specs.Moved.{AddsPiece};

use crate::traits::Failed;
use std::io::Write;

/// Writes the whole piece and flushes the writer. A writer that takes nothing of what is left has failed.
pub(crate) fn send<W: Write>(writer: &mut W, piece: &[u8]) -> Result<(), Failed>
    ensures { AddsPiece (W.contents writer.old) (W.contents writer.new) result piece.now }
{
    let mut rest = piece;
    while !rest.is_empty() {
        match writer.write(rest) {
            Ok(0) | Err(_) => return Err(Failed),
            Ok(count) => rest = &rest[count..],
        }
    }
    writer.flush().map_err(|_| Failed)
}
