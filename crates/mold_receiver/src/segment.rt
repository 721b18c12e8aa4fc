//! A segment of the store: memory with the blocks of stored messages.

ghost use Rattle.std.specs.Prelude.{◌≡◌, ◌+◌, ◌≤◌, ◌^◌, ◌<◌, ◌++◌, length, IfOk, vec_capacity};
ghost use Rattle.mold_receiver.specs.Places.{IsBlockAt, length_at as stated_length, message_in};
ghost use Rattle.mold_wire.specs.declared.block.TheConstants.{LENGTH_BYTES};
ghost use Rattle.mold_receiver.specs.Segments.{IsFilled, IsMemory, used_bytes};
ghost use Rattle.mold_receiver.specs.declared.segment.TheConstants.{SEGMENT_BYTES};

use byteorder::{BigEndian, ByteOrder};
use mold_wire::LENGTH_BYTES;
use std::alloc::{AllocError, Global};
use std::mem;

/// A segment grows to at most this many bytes. If the blocks of a packet are longer, their segment has only them.
pub(crate) const SEGMENT_BYTES: usize = 16384;

/// A block of memory, of which the first bytes are in use.
#[derive(Drop)]
pub(crate) struct Segment {
    // The memory. Its length is its capacity.
    pub bytes: Vec<u8>,
    // The number of bytes in use.
    pub used: usize,
    // The number of stored messages whose blocks are in the segment.
    pub live: u32,
}

/// Returns memory of `size` bytes. Nothing more is reserved.
pub(crate) fn memory(alloc: Global, size: usize) -> Result<Vec<u8>, AllocError>
    ensures { IfOk result (λ bytes. IsMemory bytes size) }
{
    let mut bytes = Vec::with_capacity(alloc, size)?;
    bytes.resize(size, 0)?;
    // For the prover: the contract of `resize` does not exclude that the memory grew.
    if bytes.capacity() > size {
        return Err(AllocError);
    }
    Ok(bytes)
}

/// Returns the length of the message whose block starts at this offset of the bytes.
pub(crate) fn length_at(bytes: &[u8], start: usize) -> usize
    requires { start + LENGTH_BYTES ≤ length bytes.now }
    ensures length { result ≡ stated_length bytes.now start }
    ensures few { result < 2 ^ 16 }
{
    usize::from(BigEndian::read_u16(&bytes[start..start + LENGTH_BYTES]))
}

/// Returns the offset after the block that starts at this offset of the bytes.
pub(crate) fn block_end(bytes: &[u8], start: usize) -> usize
    requires { IsBlockAt bytes.now start }
    ensures { result ≡ start + LENGTH_BYTES + stated_length bytes.now start }
{
    start + LENGTH_BYTES + length_at(bytes, start)
}

/// Returns the message whose block starts at this offset of the bytes.
pub(crate) fn message_at(bytes: &[u8], start: usize) -> &[u8]
    requires { IsBlockAt bytes.now start }
    ensures { result.now ≡ message_in bytes.now start }
{
    let (_, block) = bytes.split_at(start);
    let (head, behind) = block.split_at(LENGTH_BYTES);
    let length = usize::from(BigEndian::read_u16(head));
    &behind[..length]
}

impl Segment {
    /// Returns a segment with this memory, that has these bytes and no stored message yet.
    pub(crate) fn new(memory: Vec<u8>, bytes: &[u8]) -> Segment
        requires { length bytes.now ≤ length memory.items }
        ensures used { used_bytes result ≡ bytes.now }
        ensures filled { result.used ≡ length bytes.now }
        ensures live { result.live ≡ 0 }
        ensures size { length result.bytes.items ≡ length memory.items }
        ensures room { vec_capacity result.bytes ≡ vec_capacity memory }
    {
        let mut segment = Segment {
            bytes: memory,
            used: 0,
            live: 0,
        };
        segment.fill(bytes);
        segment
    }

    /// Returns the bytes in use.
    pub(crate) fn filled(&self) -> &[u8]
        requires { self.now.used ≤ length self.now.bytes.items }
        ensures { result.now ≡ used_bytes self.now }
    {
        &self.bytes[..self.used]
    }

    /// Appends bytes to those in use.
    pub(crate) fn fill(&mut self, bytes: &[u8])
        requires { self.old.used + length bytes.now ≤ length self.old.bytes.items }
        ensures used { used_bytes self.new ≡ used_bytes self.old ++ bytes.now }
        ensures filled { IsFilled self.old self.new (length bytes.now) }
    {
        let end = self.used + bytes.len();
        self.bytes[self.used..end].copy_from_slice(bytes);
        self.used = end;
    }

    /// Moves the bytes in use to other memory, and appends these bytes. Returns the memory that they were in.
    pub(crate) fn move_to(&mut self, memory: Vec<u8>, bytes: &[u8]) -> Vec<u8>
        requires fits { self.old.used + length bytes.now ≤ length memory.items }
        requires used { self.old.used ≤ length self.old.bytes.items }
        ensures used { used_bytes self.new ≡ used_bytes self.old ++ bytes.now }
        ensures filled { self.new.used ≡ self.old.used + length bytes.now }
        ensures live { self.new.live ≡ self.old.live }
        ensures size { length self.new.bytes.items ≡ length memory.items }
        ensures room { vec_capacity self.new.bytes ≡ vec_capacity memory }
        ensures old { result ≡ self.old.bytes }
    {
        let mut moved = Segment::new(memory, self.filled());
        moved.fill(bytes);
        moved.live = self.live;
        mem::replace(self, moved).bytes
    }
}
