//! The source of an input that comes in pieces.

ghost use Rattle.std.specs.Prelude.{◌≡◌, ◌⊎◌, ◌≤◌, [], drop, length, false, take, true, IfOk};
ghost use Rattle.std.specs.Io.KnownBytes.{Consumes, IsAtEnd};
ghost use Rattle.mold_feeder.specs.Pieces.{IsBlockPart};
ghost use Rattle.mold_feeder.specs.ToEmpty.{MarksAfter, StartsEmpty, bytes_in, left_at, source_left};

use byteorder::{BigEndian, ByteOrder};
use mold_devices::{Piece, ReadFault, Source};
use mold_input::LinePart;
use mold_wire::LENGTH_BYTES;
use std::alloc::{AllocError, Global};

/// The greatest number of bytes of a piece.
const PIECE: usize = 65536;

/// The source of an input that comes in pieces. It may end the input before its first empty block.
#[derive(Drop)]
pub struct PieceSource<K> {
    alloc: Global,
    // What the pieces are read from.
    source: K,
    piece: Box<Piece<PIECE>>,
    // Whether the input is blocks and ends before its first empty block.
    to_empty: bool,
    // Whether it has ended there.
    over: bool,
    // If `to_empty` is true, the part of a block that was read and not given, and the blocks that were given last.
    tail: LinePart,
    whole: LinePart,
}

impl<K: Source + Drop> PieceSource<K> {
    /// Returns a source of the bytes of another one. If `to_empty` is true, these are blocks, and it gives those before
    /// the first empty block. It gives a part of a block in place of an empty block that the input lacks. It fails if
    /// the allocation of its buffer fails.
    pub(crate) fn new(
        alloc: Global,
        source: K,
        to_empty: bool,
    ) -> Result<PieceSource<K>, AllocError>
        ensures { IfOk result (λ new. source_left K.left new ≡ left_at to_empty false [] (K.left source)) }
    {
        Ok(PieceSource {
            alloc,
            source,
            piece: Box::new(alloc, Piece::new())?,
            to_empty,
            over: false,
            tail: LinePart::new(alloc),
            whole: LinePart::new(alloc),
        })
    }

    /// Returns the bytes that were given last.
    pub(crate) fn bytes(&self) -> &[u8]
        ensures { result.now ≡ bytes_in self.now }
    {
        if self.to_empty {
            self.whole.kept()
        } else {
            self.piece.rest()
        }
    }

    /// Returns whether the input has ended before an empty block, or lacks it. Then a call of `refill` reads nothing.
    pub(crate) fn is_over(&self) -> bool
        ensures { result ≡ true → IsAtEnd (source_left K.left self.now) }
    {
        self.to_empty && self.over
    }

    /// Reads once, at most 65,536 bytes. Returns whether the input may go on.
    pub(crate) fn refill(&mut self) -> Result<bool, ReadFault>
        ensures bytes { IfOk result (λ _.
            Consumes (source_left K.left self.old) (source_left K.left self.new) (bytes_in self.new)) }
        ensures end { IfOk result (λ more. more ≡ false →
            (length (bytes_in self.new) ≡ 0) × IsAtEnd (source_left K.left self.new)) }
    {
        if self.to_empty {
            return self.refill_blocks();
        }
        let count = self.piece.refill(&mut self.source)?;
        Ok(count > 0)
    }

    // The same, if the input ends before its first empty block.
    fn refill_blocks(&mut self) -> Result<bool, ReadFault>
        requires { self.old.to_empty ≡ true }
        ensures bytes { IfOk result (λ _.
            Consumes (source_left K.left self.old) (source_left K.left self.new) (bytes_in self.new)) }
        ensures end { IfOk result (λ more. more ≡ false →
            (length (bytes_in self.new) ≡ 0) × IsAtEnd (source_left K.left self.new)) }
    {
        if self.over {
            self.whole.clear();
            return Ok(false);
        }
        let count = self.piece.refill(&mut self.source)?;
        self.tail.extend(self.piece.rest())?;
        let len = blocks_before_empty(self.tail.kept());
        self.whole = self.tail.split(len, self.alloc)?;
        self.over = starts_empty(self.tail.kept());
        if count == 0 && !self.over {
            self.over = true;
            self.whole.extend(&[0])?;
        }
        Ok(true)
    }
}

// Returns the number of bytes, from the first one on, that are whole blocks and not empty ones, whatever follows. After
// them is an empty block, or at most a part of one block.
fn blocks_before_empty(bytes: &[u8]) -> usize
    ensures within { result ≤ length bytes.now }
    ensures marks { MarksAfter (take result bytes.now) }
    ensures next { IsBlockPart (drop result bytes.now) ⊎ StartsEmpty (drop result bytes.now) }
{
    let mut count = 0;
    'blocks: while bytes.len() - count >= LENGTH_BYTES {
        let rest = &bytes[count..];
        let len = usize::from(BigEndian::read_u16(rest));
        if len == 0 || rest.len() < LENGTH_BYTES + len {
            break 'blocks;
        }
        count += LENGTH_BYTES + len;
    }
    count
}

// Returns whether the bytes start with an empty block.
fn starts_empty(bytes: &[u8]) -> bool
    ensures empty { result ≡ true → StartsEmpty bytes.now }
    ensures not { result ≡ false → StartsEmpty bytes.now → ⊥ }
{
    bytes.len() >= LENGTH_BYTES && BigEndian::read_u16(bytes) == 0
}
