//! A line that spans several reads.

ghost use Rattle.std.specs.Prelude.{◌≡◌, ◌<◌, [], true, IfOk};
ghost use Rattle.std.specs.Io.KnownBytes.{prepend_known};
ghost use Rattle.mold_devices.specs.Faults.{CountsRead};
ghost use Rattle.mold_devices.specs.Lines.{HasNoEnd, work_left};
ghost use Rattle.mold_input.specs.LongLines.{GivesStart};

use crate::part::Part;
use memchr::memchr;
use mold_devices::{Piece, ReadFault, Source};

/// The greatest number of bytes that one read takes.
pub(crate) const PIECE: usize = 65536;

/// The byte that ends a line.
pub(crate) const LINE_END: u8 = b'\n';

/// Joins the line that starts in the piece and continues in later reads. Returns false if no byte remains. After a
/// fault, the part and the bytes that were read are lost.
pub(crate) fn join_line<P: Part, S: Source>(
    piece: &mut Piece<PIECE>,
    part: &mut P,
    source: &mut S,
) -> Result<bool, ReadFault>
    requires no_end { HasNoEnd piece.old }
    requires empty { P.bytes part.old ≡ [] }
    ensures line { IfOk result (λ found. GivesStart P.meaning
        (prepend_known piece.old (S.left source.old))
        (prepend_known piece.new (S.left source.new)) found (P.bytes part.new)) }
    ensures work { IfOk result (λ found. found ≡ true →
        work_left (S.bound source.new) piece.new < work_left (S.bound source.old) piece.old) }
    ensures failures { CountsRead (S.failed source.old) (S.failed source.new) result }
{
    part.add(piece.rest())?;
    'pieces: loop {
        let count = piece.refill(source)?;
        if count == 0 {
            return Ok(!part.is_empty());
        }
        if let Some(at) = memchr(LINE_END, piece.rest()) {
            part.add(&piece.rest()[..at])?;
            piece.skip(at + 1);
            return Ok(true);
        }
        part.add(piece.rest())?;
    }
}
