//! The message blocks at the start of a byte slice: reading, skipping and writing them.

ghost use Rattle.std.specs.Prelude.{◌≡◌, ◌+◌, ◌≤◌, ◌<◌, ◌^◌, ◌++◌, length, drop, MatchOption, MatchResult};
ghost use Rattle.mold_wire.specs.Block.{block, IsBlockAndRest, AreBlocksAndRest, BeginsNoBlock, AreCutBlocks};

use byteorder::{BigEndian, ByteOrder};

/// The size in bytes of a block's length field. The field precedes the message and does not count its own two
/// bytes.
pub const LENGTH_BYTES: usize = 2;

/// The greatest length of a message in bytes. It is the greatest value of a block's length field.
pub const MAX_MESSAGE: u16 = u16::MAX;

// Returns the message of the first block and the bytes after it, or `None` if `bytes` does not start with a
// whole block.
pub(crate) fn split_block(bytes: &[u8]) -> Option<(&[u8], &[u8])>
    ensures { MatchOption result (BeginsNoBlock bytes.now)
        (λ found. IsBlockAndRest bytes.now found.0.now found.1.now) }
{
    if bytes.len() < LENGTH_BYTES {
        return None;
    }
    let (head, behind) = bytes.split_at(LENGTH_BYTES);
    let len = usize::from(BigEndian::read_u16(head));
    if behind.len() < len {
        return None;
    }
    Some(behind.split_at(len))
}

// Skips `number` whole blocks and returns the bytes after them. The error is the index of the first block
// that is not whole.
#[tactic(auto, using(crate::proofs::BlockLemmas::skipped))]
pub(crate) fn skip_blocks(number: u16, bytes: &[u8]) -> Result<&[u8], u16>
    ensures { MatchResult result (λ rest. AreBlocksAndRest number bytes.now rest.now)
        (λ index. (index < number) × AreCutBlocks index bytes.now) }
{
    let mut rest = bytes;
    for index in 0..number {
        let Some((_, behind)) = split_block(rest) else {
            return Err(index);
        };
        rest = behind;
    }
    Ok(rest)
}

// Writes the block of `message` at the start of `out` and leaves the bytes after it unchanged.
pub(crate) fn put_block(out: &mut [u8], message: &[u8])
    requires fits { length message.now < 2 ^ 16 }
    requires room { 2 + length message.now ≤ length out.old }
    ensures { out.new ≡ block message.now ++ drop (length message.now) (drop 2 out.old) }
{
    let (head, behind) = out.split_at_mut(LENGTH_BYTES);
    BigEndian::write_u16(head, message.len() as u16);
    let (slot, _) = behind.split_at_mut(message.len());
    slot.copy_from_slice(message);
}
