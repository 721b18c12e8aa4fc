//! Reads the records of a file of version 3.

ghost use Rattle.std.specs.Prelude.{◌≡◌, ◌<◌, ◌≤◌, ◌∷◌, ℕ, IfOk, IfErr, IfSome, MatchOption, OnOk};
ghost use Rattle.std.specs.Io.KnownBytes.{IsAtEnd, prepend_known};
ghost use Rattle.mold_wire.specs.declared.limits.TheConstants.{MAX_NUMBER};
ghost use Rattle.mold_devices.specs.Faults.{CountsRead};
ghost use Rattle.mold_session.specs.Checking.{BeginsRecord};
ghost use Rattle.mold_session.specs.FileFault.{RecordFault, RecordsFault};
ghost use Rattle.mold_session.specs.Journal.{AreMessages};
ghost use Rattle.mold_session.specs.Loading.{work_left, AreRecords, CountsLoad, ReadsRecord, Refuses, StartsRecord};
ghost use Rattle.mold_session.specs.Loading.{TakesBlock, in_record};
ghost use Rattle.mold_session.specs.declared.journal.TheConstants.{MAX_MESSAGES};
ghost use Rattle.mold_session.specs.declared.records.NextMessage.TheVariants.{Message};

use crate::error::FileError;
use crate::journal::MAX_MESSAGES;
use crate::loading::next_block;
use crate::piece::{Piece, has_more, next_byte};
use byteorder::{BigEndian, ByteOrder};
use mold_devices::{ReadFault, Source};
use mold_messages::MessageList;
use std::alloc::Global;

/// The first byte of a record in a file of version 3. Any other byte is a shut gate.
pub const OPEN_GATE: u8 = 1;

/// The second byte of a message's record.
pub const MESSAGE_KIND: u8 = 0;

/// The second byte of the closing record.
pub const CLOSING_KIND: u8 = 1;

/// The bytes of a record before its message: the gate, the kind of the record and the length of the message.
pub const RECORD_HEAD: usize = 4;

/// The first four bytes of the record of an empty message, as a number. In the record of another message, its length is
/// added.
const EMPTY_RECORD: u32 = 0x0100_0000;

/// What follows in a file of version 3.
#[derive(Clone, Copy)]
pub enum NextMessage {
    /// The record of a message.
    Message,
    /// The closing record if the session is closed, otherwise a shut gate.
    End { closed: bool },
}

// Reads a message's record up to its block, or what ends the records. `count` messages precede it.
fn start_record<S: Source>(
    piece: &mut Piece,
    source: &mut S,
    count: u64,
) -> Result<NextMessage, FileError>
    requires { count < MAX_NUMBER }
    ensures started { IfOk result (StartsRecord (prepend_known piece.old (S.left source.old))
        (prepend_known piece.new (S.left source.new))) }
    ensures refused { IfErr result (λ error. (most : ℕ) → Refuses (RecordFault most count)
        (prepend_known piece.old (S.left source.old)) error) }
    ensures work { IfOk result (λ _.
        work_left (S.bound source.new) piece.new ≤ work_left (S.bound source.old) piece.old) }
    ensures failures { CountsLoad (S.failed source.old) (S.failed source.new) result }
{
    let damaged = FileError::Damaged { number: count + 1 };
    let Some(gate) = next_byte(piece, source)? else {
        return Err(damaged);
    };
    if gate != OPEN_GATE {
        return Ok(NextMessage::End { closed: false });
    }
    let Some(kind) = next_byte(piece, source)? else {
        return Err(damaged);
    };
    if kind == MESSAGE_KIND {
        return Ok(NextMessage::Message);
    }
    if kind != CLOSING_KIND {
        return Err(damaged);
    }
    let Some(_) = next_byte(piece, source)? else {
        return Err(damaged);
    };
    Ok(NextMessage::End { closed: true })
}

/// Returns the length of the message if the bytes begin with its record, up to the message, and the message has at most
/// `most` bytes. The bytes of the message may be cut.
// For the optimizer: the number of another record wraps around to more than any length, so one comparison suffices.
#[inline(always)]
pub fn recorded_length(most: u16, bytes: &[u8]) -> Option<u16>
    ensures { MatchOption result ((len : ℕ) → ¬ BeginsRecord most bytes.now len) (BeginsRecord most bytes.now) }
{
    if bytes.len() < RECORD_HEAD {
        return None;
    }
    let (head, _) = bytes.split_at(RECORD_HEAD);
    let len = BigEndian::read_u32(head).wrapping_sub(EMPTY_RECORD);
    if len > u32::from(most) {
        return None;
    }
    Some(len as u16)
}

/// Returns the fault of a record whose block has this fault.
pub fn record_fault(error: FileError) -> FileError
    ensures { result ≡ in_record error }
{
    match error {
        FileError::BlockCut { number } => FileError::Damaged { number },
        error => error,
    }
}

// Takes the block of a record as one more message of the list. `count` messages precede it.
fn take_block<S: Source>(
    list: &mut MessageList,
    piece: &mut Piece,
    source: &mut S,
    most: u16,
    count: u64,
) -> Result<(), FileError>
    requires { count < MAX_NUMBER }
    ensures taken { OnOk result (TakesBlock most
        (prepend_known piece.old (S.left source.old)) (prepend_known piece.new (S.left source.new))
        list.old.messages list.new.messages) }
    ensures few { OnOk result (count < MAX_MESSAGES) }
    ensures refused { IfErr result (λ error. Refuses (λ rest. RecordFault most count (1 ∷ 0 ∷ rest))
        (prepend_known piece.old (S.left source.old)) error) }
    ensures work { OnOk result
        (work_left (S.bound source.new) piece.new < work_left (S.bound source.old) piece.old) }
    ensures failures { CountsLoad (S.failed source.old) (S.failed source.new) result }
{
    if count == MAX_MESSAGES {
        return Err(FileError::Full);
    }
    match next_block(list, piece, source, most, count) {
        Ok(true) => Ok(()),
        Ok(false) => Err(FileError::Damaged { number: count + 1 }),
        Err(error) => Err(record_fault(error)),
    }
}

/// Reads the next record, and takes its message, if it has one, as one more message of the list. `count` messages
/// precede it.
pub fn next_record<S: Source>(
    list: &mut MessageList,
    piece: &mut Piece,
    source: &mut S,
    most: u16,
    count: u64,
) -> Result<NextMessage, FileError>
    requires { count < MAX_NUMBER }
    ensures read { IfOk result (ReadsRecord most count (prepend_known piece.old (S.left source.old))
        (prepend_known piece.new (S.left source.new)) list.old.messages list.new.messages) }
    ensures refused { IfErr result (λ error. Refuses (RecordFault most count)
        (prepend_known piece.old (S.left source.old)) error) }
    ensures work { IfOk result (λ next. next ≡ Message →
        work_left (S.bound source.new) piece.new < work_left (S.bound source.old) piece.old) }
    ensures failures { CountsLoad (S.failed source.old) (S.failed source.new) result }
{
    match start_record(piece, source, count)? {
        NextMessage::Message => {
            take_block(list, piece, source, most, count)?;
            Ok(NextMessage::Message)
        }
        NextMessage::End { closed } => Ok(NextMessage::End { closed }),
    }
}

// Reads on to the end of the source.
fn read_to_end<S: Source>(piece: &mut Piece, source: &mut S) -> Result<(), ReadFault>
    ensures spent { OnOk result (IsAtEnd (S.left source.new)) }
    ensures failures { CountsRead (S.failed source.old) (S.failed source.new) result }
{
    'bytes: while has_more(piece, source)? {
        let count = piece.rest().len();
        piece.skip(count);
    }
    Ok(())
}

/// Reads all records, and then on to the end of the source. Returns the messages, and whether the session is closed.
pub fn read_records<S: Source>(
    alloc: Global,
    most: u16,
    piece: &mut Piece,
    source: &mut S,
) -> Result<(MessageList, bool), FileError>
    ensures listed { IfOk result (λ loaded. AreMessages most loaded.0.messages) }
    ensures whole { IfOk result (λ loaded. IfSome (prepend_known piece.old (S.left source.old))
        (AreRecords loaded.0.messages loaded.1)) }
    ensures spent { IfOk result (λ _. IsAtEnd (S.left source.new)) }
    ensures refused { IfErr result (λ error. Refuses (RecordsFault most)
        (prepend_known piece.old (S.left source.old)) error) }
    ensures failures { CountsLoad (S.failed source.old) (S.failed source.new) result }
{
    let mut list = MessageList::new(alloc);
    'messages: loop {
        let count = list.len() as u64;
        if let NextMessage::End { closed } = next_record(&mut list, piece, source, most, count)? {
            read_to_end(piece, source)?;
            return Ok((list, closed));
        }
    }
}
