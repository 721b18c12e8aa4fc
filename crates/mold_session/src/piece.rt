//! The bytes of a source, one after another, read in pieces of up to 32,768 bytes.

ghost use Rattle.std.specs.Prelude.{◌<◌, ◌≤◌, [], ◌∷◌, length, IfOk, IfSome, MatchOption, ⊤};
ghost use Rattle.std.specs.Bool.{OnTrue, OnFalse};
ghost use Rattle.std.specs.Io.KnownBytes.{Consumes, IsAtEnd, Keeps, prepend_known};
ghost use Rattle.mold_devices.specs.Faults.{CountsRead};
ghost use Rattle.mold_session.specs.Loading.{work_left};

use mold_devices::{ReadFault, Source};

/// The largest number of bytes in one read.
const PIECE: usize = 32_768;

/// The bytes of one read, and which of them are unused. It has a fixed size and allocates nothing.
pub type Piece = mold_devices::Piece<PIECE>;

/// Returns whether an unused byte is available, and reads once if all bytes are used. It returns false if the
/// source is at its end.
pub fn has_more<S: Source>(piece: &mut Piece, source: &mut S) -> Result<bool, ReadFault>
    ensures same { IfOk result (λ _. Keeps
        (prepend_known piece.old (S.left source.old)) (prepend_known piece.new (S.left source.new))) }
    ensures some { IfOk result (λ more. OnTrue more (0 < length piece.new)) }
    ensures end { IfOk result (λ more. OnFalse more
        (IsAtEnd (prepend_known piece.new (S.left source.new)))) }
    ensures work { IfOk result (λ _.
        work_left (S.bound source.new) piece.new ≤ work_left (S.bound source.old) piece.old) }
    ensures failures { CountsRead (S.failed source.old) (S.failed source.new) result }
{
    if !piece.rest().is_empty() {
        return Ok(true);
    }
    let count = piece.refill(source)?;
    Ok(count > 0)
}

/// Takes the next byte. Returns `None` if the source is at its end.
pub fn next_byte<S: Source>(piece: &mut Piece, source: &mut S) -> Result<Option<u8>, ReadFault>
    ensures given { IfOk result (λ found. MatchOption found
        (IsAtEnd (prepend_known piece.old (S.left source.old)))
        (λ byte. Consumes (prepend_known piece.old (S.left source.old))
        (prepend_known piece.new (S.left source.new)) (byte ∷ []))) }
    ensures same { IfOk result (λ found. MatchOption found (Keeps
        (prepend_known piece.old (S.left source.old)) (prepend_known piece.new (S.left source.new))) (λ _. ⊤)) }
    ensures end { IfOk result (λ found. MatchOption found
        (IsAtEnd (prepend_known piece.new (S.left source.new))) (λ _. ⊤)) }
    ensures work { IfOk result (λ found. IfSome found (λ _.
        work_left (S.bound source.new) piece.new < work_left (S.bound source.old) piece.old)) }
    ensures failures { CountsRead (S.failed source.old) (S.failed source.new) result }
{
    if !has_more(piece, source)? {
        return Ok(None);
    }
    let byte = piece.rest()[0];
    piece.skip(1);
    Ok(Some(byte))
}
