//! The lines of a source.

ghost use Rattle.std.specs.Prelude.{◌≡◌, ◌<◌, ◌≤◌, ℕ, List, [], length, Bool, true, IfOk, MatchResult, OnErr};
ghost use Rattle.std.specs.Io.KnownBytes.{Consumes, prepend_known};
ghost use Rattle.mold_devices.specs.Lines.{GivesLine, HasNoEnd, work_left};
ghost use Rattle.mold_devices.specs.Faults.{CountsRead};

use crate::fault::ReadFault;
use crate::input_reader::InputReader;
use crate::piece::Piece;
use crate::source::Source;
use memchr::memchr;
use std::alloc::{AllocError, Global};
use std::marker::Model;

/// The greatest number of bytes that one read takes.
const PIECE: usize = 65536;

/// The byte that ends a line.
const LINE_END: u8 = b'\n';

/// A reader of lines. A line is borrowed from the bytes of one read, without a copy, if that read contains
/// the whole line. It is copied only if it spans several reads, or if no end of line follows it.
#[derive(Drop)]
pub struct Lines {
    piece: Box<Piece<PIECE>>,
    joined: Vec<u8>,
    inside: Option<usize>,
}

impl Model for Lines {
    ghost use Rattle.std.specs.Prelude.{◌<◌, length};
    ghost use Rattle.std.specs.Option.{ForSome};
    ghost use Rattle.mold_devices.specs.Lines.{LineState, line_in, rest_in};
    ghost use Rattle.mold_devices.specs.declared.lines.TheConstants.{PIECE};

    ghost Value = { LineState };

    ghost view = { λ l. record {
      line = line_in l.inside l.joined.items l.piece.value;
      rest = rest_in l.inside l.piece.value;
    } };

    ghost invariant = { λ l. ForSome l.inside (λ len. (len < length l.piece.value) × (len < PIECE)) };
}

impl Lines {
    /// Makes a reader with no line yet. It fails if the allocation of its buffer fails.
    pub fn new(alloc: Global) -> Result<Lines, AllocError>
        ensures { IfOk result (λ lines. lines.rest ≡ []) }
    {
        Ok(Lines {
            piece: Box::new(alloc, Piece::new())?,
            joined: Vec::new(alloc),
            inside: None,
        })
    }

    /// Returns the line that `advance` found last, without the byte that ends it.
    pub fn line(&self) -> &[u8]
        ensures { result.now ≡ self.now.line }
    {
        match self.inside {
            Some(len) => &self.piece.rest()[..len],
            None => self.joined.as_slice(),
        }
    }

    /// Moves to the next line and returns whether there is one. It reads only if no whole line was read already, and
    /// allocates only for a line that spans several reads or has no end of line. After a fault, `line` returns the part
    /// of the line that was read, and the input after that part is not lost.
    pub fn advance<S: Source>(&mut self, source: &mut S) -> Result<bool, ReadFault>
        ensures line { IfOk result (λ found. GivesLine
            (prepend_known self.old.rest (S.left source.old))
            (prepend_known self.new.rest (S.left source.new)) found self.new.line) }
        ensures begun { OnErr result (Consumes
            (prepend_known self.old.rest (S.left source.old))
            (prepend_known self.new.rest (S.left source.new)) self.new.line) }
        ensures work { IfOk result (λ found. found ≡ true →
            work_left (S.bound source.new) self.new.rest < work_left (S.bound source.old) self.old.rest) }
        ensures failures { CountsRead (S.failed source.old) (S.failed source.new) result }
    {
        if let Some(len) = self.inside {
            self.piece.skip(len + 1);
            self.inside = None;
        }
        self.joined.clear();
        if let Some(at) = memchr(LINE_END, self.piece.rest()) {
            self.inside = Some(at);
            return Ok(true);
        }
        join_line(&mut self.piece, &mut self.joined, source)
    }
}

impl InputReader for Lines {
    ghost unread = { λ l. l.rest };

    fn new(alloc: Global) -> Result<Lines, AllocError> {
        Lines::new(alloc)
    }
}

// Joins the line that starts in the piece and continues in later reads. Returns false if no byte remains.
// After a fault, the joined bytes are a prefix of the line.
fn join_line<S: Source>(
    piece: &mut Piece<PIECE>,
    joined: &mut Vec<u8>,
    source: &mut S,
) -> Result<bool, ReadFault>
    requires no_end { HasNoEnd piece.old }
    requires empty { joined.old.items ≡ [] }
    ensures line { IfOk result (λ found. GivesLine
        (prepend_known piece.old (S.left source.old))
        (prepend_known piece.new (S.left source.new)) found joined.new.items) }
    ensures begun { OnErr result (Consumes
        (prepend_known piece.old (S.left source.old))
        (prepend_known piece.new (S.left source.new)) joined.new.items) }
    ensures work { IfOk result (λ found. found ≡ true →
        work_left (S.bound source.new) piece.new < work_left (S.bound source.old) piece.old) }
    ensures failures { CountsRead (S.failed source.old) (S.failed source.new) result }
{
    joined.extend_from_slice(piece.rest())?;
    'pieces: loop {
        let count = piece.refill(source)?;
        if count == 0 {
            return Ok(!joined.is_empty());
        }
        if let Some(at) = memchr(LINE_END, piece.rest()) {
            joined.extend_from_slice(&piece.rest()[..at])?;
            piece.skip(at + 1);
            return Ok(true);
        }
        joined.extend_from_slice(piece.rest())?;
    }
}
