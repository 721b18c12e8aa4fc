//! The trait of readers whose input comes in pieces: which bytes of the pieces are whole entries.

ghost use Rattle.std.specs.Prelude.{◌≡◌, ◌++◌, ◌≤◌, ℕ, List, [], length, take, drop, IfOk, OnOk};
ghost use Rattle.mold_input.specs.LongLines.{PartState, bytes_of};
ghost use Rattle.mold_feeder.specs.Pieces.{AreWhole, IsLinePart, IsPartOfBlocks};
ghost use Rattle.mold_feeder.specs.Pieces.{IsBlockPart};
ghost use Rattle.mold_input.specs.Blocks.{block_entries};

use byteorder::{BigEndian, ByteOrder};
use memchr::memrchr;
use mold_input::{HexLines, LinePart, MessageBlocks, MessageReader};
use mold_wire::LENGTH_BYTES;
use std::alloc::{AllocError, Global};

/// A reader of messages whose input comes in pieces.
pub trait PieceReader: MessageReader {
    // The bytes are at most a part of one entry.
    ghost is_part: { PartState → Type 0 };

    /// Adds bytes to the part of an entry that has come. Returns the whole entries, and leaves what follows them.
    fn add(part: &mut LinePart, bytes: &[u8], alloc: Global) -> Result<LinePart, AllocError>
        requires { is_part part.old }
        ensures whole { IfOk result (λ whole. AreWhole Self.entries (bytes_of whole)) }
        ensures part { OnOk result (is_part part.new) }
        ensures split { IfOk result (λ whole. (more : List ℕ) →
            Self.entries (bytes_of whole) ++ Self.entries (bytes_of part.new ++ more)
            ≡ Self.entries (bytes_of part.old ++ (bytes.now ++ more))) };

    /// States that exactly an empty input has no entries, and that no bytes are a part of one entry. It does nothing.
    fn empty_law()
        ensures empty { (bytes : List ℕ) → Self.entries bytes ≡ [] → bytes ≡ [] }
        ensures none { Self.entries [] ≡ [] }
        ensures part { is_part (record { counted = 0; kept = [] }) };
}

impl PieceReader for HexLines {
    ghost is_part = { IsLinePart };

    fn add(part: &mut LinePart, bytes: &[u8], alloc: Global) -> Result<LinePart, AllocError> {
        let Some(at) = memrchr(b'\n', bytes) else {
            part.add(bytes)?;
            return Ok(LinePart::new(alloc));
        };
        let before = part.kept().len();
        part.extend(bytes)?;
        let whole = part.split(before + at + 1, alloc)?;
        Ok(whole)
    }

    fn empty_law() {}
}

impl PieceReader for MessageBlocks {
    ghost is_part = { IsPartOfBlocks };

    fn add(part: &mut LinePart, bytes: &[u8], alloc: Global) -> Result<LinePart, AllocError> {
        part.extend(bytes)?;
        let count = whole_blocks(part.kept());
        if count == 0 {
            return Ok(LinePart::new(alloc));
        }
        let whole = part.split(count, alloc)?;
        Ok(whole)
    }

    fn empty_law() {}
}

// Returns the number of bytes, from the first one on, that are whole blocks, whatever follows. The bytes after them are
// at most a part of one block.
fn whole_blocks(bytes: &[u8]) -> usize
    ensures within { result ≤ length bytes.now }
    ensures whole { AreWhole block_entries (take result bytes.now) }
    ensures part { IsBlockPart (drop result bytes.now) }
{
    let mut count = 0;
    'blocks: while bytes.len() - count >= LENGTH_BYTES {
        let rest = &bytes[count..];
        let len = LENGTH_BYTES + usize::from(BigEndian::read_u16(rest));
        if rest.len() < len {
            break 'blocks;
        }
        count += len;
    }
    count
}
