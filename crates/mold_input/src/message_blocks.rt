//! Messages as blocks: a two-byte big-endian length and that many bytes, joined without anything between them.

ghost use Rattle.std.specs.Prelude.{◌≡◌, ◌+◌, ◌<◌, ◌≤◌, [], drop, length, true, false, IfOk, OnOk, MatchOption};
ghost use Rattle.std.specs.Io.KnownBytes.{IsAtEnd, Keeps, prepend_known};
ghost use Rattle.byteorder.specs.Endian.{big_number};
ghost use Rattle.mold_devices.specs.Faults.{CountsRead};
ghost use Rattle.mold_devices.specs.Lines.{work_left};
ghost use Rattle.mold_input.specs.Blocks.{IsCut, IsPartOfBlock, block_entries, missing_of};
ghost use Rattle.mold_input.specs.Entries.{GivesNext, known_entries};
ghost use Rattle.mold_input.specs.declared.input_kind.InputKind.TheVariants as kind;
ghost use Rattle.mold_input.specs.declared.next.Next.TheVariants.{Message};

use crate::input_fault::InputFault;
use crate::input_kind::InputKind;
use crate::message_reader::MessageReader;
use crate::next::Next;
use byteorder::{BigEndian, ByteOrder};
use mold_devices::{InputReader, Piece, ReadFault, Source};
use mold_wire::LENGTH_BYTES;
use std::alloc::{AllocError, Global};
use std::marker::Model;

/// The greatest number of bytes that one read takes.
const PIECE: usize = 65536;

/// A reader of message blocks. A message is borrowed from the bytes of one read, without a copy, if that read contains
/// its whole block. Otherwise the block is copied.
#[derive(Drop)]
pub struct MessageBlocks {
    piece: Box<Piece<PIECE>>,
    joined: Vec<u8>,
    inside: Option<usize>,
}

impl Model for MessageBlocks {
    ghost use Rattle.std.specs.Prelude.{◌+◌, ◌<◌, ◌≤◌, drop, length};
    ghost use Rattle.std.specs.Option.{ForSome};
    ghost use Rattle.mold_input.specs.Blocks.{message_in, unread_in};
    ghost use Rattle.mold_input.specs.Entries.{ReaderState};
    ghost use Rattle.mold_input.specs.declared.message_blocks.TheConstants.{PIECE};

    ghost Value = { ReaderState };

    ghost view = { λ b. record {
      message = message_in b.inside b.joined.items b.piece.value;
      unread = unread_in b.inside b.piece.value;
    } };

    ghost invariant = { λ b. ForSome b.inside (λ len. (2 + len ≤ length b.piece.value) × (len < PIECE)) };
}

impl InputReader for MessageBlocks {
    ghost unread = { λ b. b.unread };

    fn new(alloc: Global) -> Result<MessageBlocks, AllocError> {
        Ok(MessageBlocks {
            piece: Box::new(alloc, Piece::new())?,
            joined: Vec::new(alloc),
            inside: None,
        })
    }
}

impl MessageReader for MessageBlocks {
    ghost entries = { block_entries };

    ghost input_kind = { kind.Blocks };

    ghost found = { λ b. b.message };

    fn kind() -> InputKind {
        InputKind::Blocks
    }

    fn advance<S: Source>(&mut self, source: &mut S) -> Result<Next, ReadFault> {
        if let Some(len) = self.inside {
            self.piece.skip(LENGTH_BYTES + len);
            self.inside = None;
        }
        self.joined.clear();
        if let Some(len) = whole_block(self.piece.rest()) {
            self.inside = Some(len);
            return Ok(Next::Message);
        }
        join_block(&mut self.piece, &mut self.joined, source)
    }

    fn message(&self) -> &[u8] {
        match self.inside {
            Some(len) => &self.piece.rest()[LENGTH_BYTES..LENGTH_BYTES + len],
            None => message_of(self.joined.as_slice()),
        }
    }
}

// Returns the bytes after the length of a block. There are none if the block is shorter than its length field.
fn message_of(block: &[u8]) -> &[u8]
    ensures { result.now ≡ drop 2 block.now }
{
    if block.len() < LENGTH_BYTES {
        return &[];
    }
    &block[LENGTH_BYTES..]
}

// Returns the length of the first message if the bytes start with a whole block.
fn whole_block(bytes: &[u8]) -> Option<usize>
    ensures { MatchOption result (IsCut bytes.now)
        (λ len. (len ≡ big_number 2 bytes.now) × (2 + len ≤ length bytes.now)) }
{
    if bytes.len() < LENGTH_BYTES {
        return None;
    }
    let len = usize::from(BigEndian::read_u16(bytes));
    if bytes.len() - LENGTH_BYTES < len {
        return None;
    }
    Some(len)
}

// Returns how many bytes the started block lacks. Until its length is whole, these are the missing bytes of the length.
fn missing(block: &[u8]) -> usize
    requires { IsPartOfBlock block.now }
    ensures { result ≡ missing_of block.now }
{
    if block.len() < LENGTH_BYTES {
        return LENGTH_BYTES - block.len();
    }
    LENGTH_BYTES + usize::from(BigEndian::read_u16(block)) - block.len()
}

// Reads once if the piece has no bytes. Returns false if no byte remains.
fn has_bytes<S: Source>(piece: &mut Piece<PIECE>, source: &mut S) -> Result<bool, ReadFault>
    ensures same { OnOk result (Keeps (prepend_known piece.old (S.left source.old))
        (prepend_known piece.new (S.left source.new))) }
    ensures some { IfOk result (λ some. some ≡ true → 0 < length piece.new) }
    ensures end { IfOk result (λ some. some ≡ false → IsAtEnd (prepend_known piece.new (S.left source.new))) }
    ensures work { OnOk result (work_left (S.bound source.new) piece.new ≤ work_left (S.bound source.old) piece.old) }
    ensures failures { CountsRead (S.failed source.old) (S.failed source.new) result }
{
    if !piece.rest().is_empty() {
        return Ok(true);
    }
    let count = piece.refill(source)?;
    Ok(count > 0)
}

// Joins the block that starts in the piece and continues in later reads.
fn join_block<S: Source>(
    piece: &mut Piece<PIECE>,
    joined: &mut Vec<u8>,
    source: &mut S,
) -> Result<Next, ReadFault>
    requires empty { joined.old.items ≡ [] }
    ensures next { IfOk result (λ next. GivesNext
        (known_entries block_entries (prepend_known piece.old (S.left source.old)))
        (known_entries block_entries (prepend_known piece.new (S.left source.new)))
        next (drop 2 joined.new.items)) }
    ensures work { IfOk result (λ next. next ≡ Message →
        work_left (S.bound source.new) piece.new < work_left (S.bound source.old) piece.old) }
    ensures failures { CountsRead (S.failed source.old) (S.failed source.new) result }
{
    'pieces: loop {
        let lacking = missing(joined.as_slice());
        if lacking == 0 {
            return Ok(Next::Message);
        }
        if !has_bytes(piece, source)? {
            if joined.is_empty() {
                return Ok(Next::End);
            }
            return Ok(Next::Fault {
                why: InputFault::Cut,
            });
        }
        let count = lacking.min(piece.rest().len());
        joined.extend_from_slice(&piece.rest()[..count])?;
        piece.skip(count);
    }
}
