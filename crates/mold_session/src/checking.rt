//! Checks bytes that should be the file of a journal, of version 1, 2 or 3, and allocates nothing.

ghost use Rattle.std.specs.Prelude.{◌≡◌, ◌<◌, ◌∷◌, ℕ, [], length, IfOk, IfErr, IfSome, MatchOption, OnOk};
ghost use Rattle.mold_wire.specs.declared.limits.TheConstants.{MAX_NUMBER};
ghost use Rattle.mold_wire.specs.Block.{block};
ghost use Rattle.mold_session.specs.Checking.{AreWholeBlocks, IsBody, IsEnd, HasBlock, HasCounted, HasEnded, HasLength};
ghost use Rattle.mold_session.specs.Checking.{HasRecord, PassesWhole};
ghost use Rattle.mold_session.specs.Loading.{message_spelling};
ghost use Rattle.mold_session.specs.Records.{record_of};
ghost use Rattle.mold_session.specs.FileFault.{BlockFault, BlocksFault, JournalFault, RecordFault, RecordsFault};
ghost use Rattle.mold_session.specs.declared.error.FileError.{FileError as AFault};
ghost use Rattle.mold_session.specs.declared.journal.TheConstants.{MAX_MESSAGES};

use crate::error::FileError;
use crate::file_version::FileVersion;
use crate::journal::MAX_MESSAGES;
use crate::length_taker::LengthTaker;
use crate::loading::check_count;
use crate::magic::{MAGIC_LENGTH, first_magic, second_magic, third_magic};
use crate::records::{
    CLOSING_KIND, MESSAGE_KIND, OPEN_GATE, RECORD_HEAD, record_fault, recorded_length,
};
use byteorder::{BigEndian, ByteOrder};
use mold_wire::{LENGTH_BYTES, MAX_MESSAGE};

// Returns the bytes after the head, and the version.
fn split_head(bytes: &[u8]) -> Result<(&[u8], FileVersion), FileError>
    ensures body { IfOk result (λ found. IsBody bytes.now found.0.now found.1) }
    ensures refused { IfErr result (λ error. (most : ℕ) → JournalFault most bytes.now error) }
{
    let len = bytes.len();
    if len < 18 {
        return Err(FileError::Short { len });
    }
    let (magic, _) = bytes.split_at(MAGIC_LENGTH);
    if magic == first_magic().as_slice() {
        let (_, behind) = bytes.split_at(18);
        return Ok((behind, FileVersion::One));
    }
    if magic == third_magic().as_slice() {
        let (_, behind) = bytes.split_at(18);
        return Ok((behind, FileVersion::Three));
    }
    if magic != second_magic().as_slice() {
        return Err(FileError::BadMagic);
    }
    if len < 27 {
        return Err(FileError::Short { len });
    }
    let byte = bytes[18];
    if byte > 1 {
        return Err(FileError::BadFlag { byte });
    }
    let (_, stated) = bytes.split_at(19);
    let (_, behind) = bytes.split_at(27);
    let count = BigEndian::read_u64(stated);
    Ok((behind, FileVersion::Two { count }))
}

// Returns the bytes after the first block. `count` blocks precede it.
fn skip_block(most: u16, count: u64, rest: &[u8]) -> Result<&[u8], FileError>
    requires some { 0 < length rest.now }
    ensures skipped { IfOk result (λ behind. HasBlock most rest.now behind.now) }
    ensures few { OnOk result (count < MAX_MESSAGES) }
    ensures refused { IfErr result (λ error. BlockFault most count rest.now error) }
{
    if count >= MAX_MESSAGES {
        return Err(FileError::Full);
    }
    let number = count + 1;
    if rest.len() < LENGTH_BYTES {
        return Err(FileError::BlockCut { number });
    }
    let (head, behind) = rest.split_at(LENGTH_BYTES);
    let len = BigEndian::read_u16(head);
    if len > most {
        return Err(FileError::TooLong {
            len: usize::from(len),
        });
    }
    if behind.len() < usize::from(len) {
        return Err(FileError::BlockCut { number });
    }
    let (_, after) = behind.split_at(usize::from(len));
    Ok(after)
}

// Returns the bytes after the block of a record. `count` messages precede it.
fn skip_record_block(most: u16, count: u64, rest: &[u8]) -> Result<&[u8], FileError>
    requires { count < MAX_NUMBER }
    ensures skipped { IfOk result (λ behind. HasBlock most rest.now behind.now) }
    ensures few { OnOk result (count < MAX_MESSAGES) }
    ensures refused { IfErr result (RecordFault most count (1 ∷ 0 ∷ rest.now)) }
{
    if count == MAX_MESSAGES {
        return Err(FileError::Full);
    }
    if rest.is_empty() {
        return Err(FileError::Damaged { number: count + 1 });
    }
    match skip_block(most, count, rest) {
        Ok(behind) => Ok(behind),
        Err(error) => Err(record_fault(error)),
    }
}

// Returns the bytes after a message's record, or `None` if the closing record or a shut gate follows. `count` messages
// precede it.
fn skip_record(most: u16, count: u64, rest: &[u8]) -> Result<Option<&[u8]>, FileError>
    requires { count < MAX_NUMBER }
    ensures skipped { IfOk result (λ found. MatchOption found (IsEnd rest.now)
        (λ behind. HasRecord most rest.now behind.now)) }
    ensures few { IfOk result (λ found. IfSome found (λ _. count < MAX_MESSAGES)) }
    ensures refused { IfErr result (RecordFault most count rest.now) }
{
    let damaged = FileError::Damaged { number: count + 1 };
    let Some((gate, record)) = rest.split_first() else {
        return Err(damaged);
    };
    if *gate != OPEN_GATE {
        return Ok(None);
    }
    let Some((kind, body)) = record.split_first() else {
        return Err(damaged);
    };
    if *kind == MESSAGE_KIND {
        return match skip_record_block(most, count, body) {
            Ok(behind) => Ok(Some(behind)),
            Err(error) => Err(error),
        };
    }
    if *kind != CLOSING_KIND {
        return Err(damaged);
    }
    if body.is_empty() {
        return Err(damaged);
    }
    Ok(None)
}

// Checks that the bytes are records, and then what ends them.
fn check_records(most: u16, bytes: &[u8]) -> Result<(), FileError>
    ensures ended { OnOk result (HasEnded most bytes.now) }
    ensures refused { IfErr result (RecordsFault most bytes.now) }
{
    let mut rest = bytes;
    let mut count = 0;
    'messages: loop {
        match skip_record(most, count, rest) {
            Ok(Some(behind)) => rest = behind,
            Ok(None) => return Ok(()),
            Err(error) => return Err(error),
        }
        count += 1;
    }
}

// Counts the messages of the blocks.
fn count_messages(most: u16, bytes: &[u8]) -> Result<u64, FileError>
    ensures counted { IfOk result (λ count. HasCounted most count bytes.now []) }
    ensures refused { IfErr result (λ error. BlocksFault most bytes.now error) }
{
    let mut rest = bytes;
    let mut count = 0;
    'messages: while !rest.is_empty() {
        match skip_block(most, count, rest) {
            Ok(behind) => rest = behind,
            Err(error) => return Err(error),
        }
        count += 1;
    }
    Ok(count)
}

/// Returns the length in bytes, and the number, of the whole blocks at the start of the bytes, at most `limit` of them.
pub fn whole_blocks(bytes: &[u8], limit: u64) -> (usize, u64)
    ensures { AreWholeBlocks limit bytes.now result.0 result.1 }
{
    let mut rest = bytes;
    let mut count = 0;
    'counted: while count < limit && !rest.is_empty() {
        let Ok(behind) = skip_block(MAX_MESSAGE, count, rest) else {
            break;
        };
        rest = behind;
        count += 1;
    }
    (bytes.len() - rest.len(), count)
}

// Returns the length of the message whose whole block is at the start of the bytes, and the bytes after it. Returns
// `None` if the block is cut or the message has more than `most` bytes.
#[inline(always)]
fn block_length(most: u16, bytes: &[u8]) -> Option<(u16, &[u8])>
    ensures { IfSome result (λ found. HasLength block most bytes.now found.0 found.1.now) }
{
    if bytes.len() < LENGTH_BYTES {
        return None;
    }
    let (head, behind) = bytes.split_at(LENGTH_BYTES);
    let len = BigEndian::read_u16(head);
    if len > most || behind.len() < usize::from(len) {
        return None;
    }
    let (_, after) = behind.split_at(usize::from(len));
    Some((len, after))
}

// Returns what `block_length` returns, for a message's record. Returns `None` before any other record and a shut gate.
#[inline(always)]
fn record_length(most: u16, bytes: &[u8]) -> Option<(u16, &[u8])>
    ensures { IfSome result (λ found. HasLength record_of most bytes.now found.0 found.1.now) }
{
    let len = recorded_length(most, bytes)?;
    let (_, behind) = bytes.split_at(RECORD_HEAD);
    if behind.len() < usize::from(len) {
        return None;
    }
    let (_, after) = behind.split_at(usize::from(len));
    Some((len, after))
}

// Returns the length of the whole message at the start of the bytes of a file of this version, and the bytes after it.
// For the optimizer: a call for each message would take longer than the check.
#[inline(always)]
fn whole_length(version: FileVersion, most: u16, bytes: &[u8]) -> Option<(u16, &[u8])>
    ensures { IfSome result (λ found. HasLength (message_spelling version) most bytes.now found.0 found.1.now) }
{
    match version {
        FileVersion::One | FileVersion::Two { .. } => block_length(most, bytes),
        FileVersion::Three => record_length(most, bytes),
    }
}

/// Passes the lengths of the whole messages at the start of the bytes of a file of this version to the taker: at most
/// `limit` of them, up to one of more than `most` bytes or one that the taker does not take. Returns the length in bytes
/// of their encodings, and their number.
pub fn whole_messages<T: LengthTaker>(
    version: FileVersion,
    most: u16,
    limit: u64,
    bytes: &[u8],
    taker: &mut T,
) -> (usize, u64)
    ensures { PassesWhole T.takes version most limit bytes.now result.0 result.1 taker.old taker.new }
{
    let mut rest = bytes;
    let mut count = 0;
    'passed: while count < limit {
        let Some((len, behind)) = whole_length(version, most, rest) else {
            break;
        };
        if !taker.take(len) {
            break;
        }
        rest = behind;
        count += 1;
    }
    let len = bytes.len() - rest.len();
    (len, count)
}

/// Checks that the bytes are the file of a journal, of any version, whose messages have at most `most` bytes.
pub fn check_file(most: u16, bytes: &[u8]) -> Result<(), FileError>
    ensures valid { OnOk result ((error : AFault) → ¬ JournalFault most bytes.now error) }
    ensures refused { IfErr result (λ error. JournalFault most bytes.now error) }
{
    let (behind, version) = match split_head(bytes) {
        Ok(found) => found,
        Err(error) => return Err(error),
    };
    if version.has_records() {
        return check_records(most, behind);
    }
    match count_messages(most, behind) {
        Ok(found) => check_count(version, found),
        Err(error) => Err(error),
    }
}
