//! Reads the records of bytes in memory.

ghost use Rattle.std.specs.Prelude.{◌≡◌, ◌<◌, ◌≤◌, ◌∷◌, true, false, length, drop, IfOk, IfErr, IfSome, OnOk};
ghost use Rattle.mold_wire.specs.declared.limits.TheConstants.{MAX_NUMBER};
ghost use Rattle.mold_session.specs.Checking.{HasBlock, HasRecord};
ghost use Rattle.mold_session.specs.FileFault.{RecordFault};
ghost use Rattle.mold_session.specs.declared.journal.TheConstants.{MAX_MESSAGES};
ghost use Rattle.mold_durable.specs.MessageTaker.{HasTaken, HoldsOpen};
ghost use Rattle.mold_durable.specs.Reading.{IsNextRecord, SkipsRecords, file_error};

use crate::error::OpenError;
use crate::message_taker::MessageTaker;
use byteorder::{BigEndian, ByteOrder};
use mold_session::{
    CLOSING_KIND, MAX_MESSAGES, MESSAGE_KIND, OPEN_GATE, RECORD_HEAD, recorded_length,
};
use mold_wire::LENGTH_BYTES;
use std::alloc::AllocError;

/// A message's record, or the end of the records.
#[derive(Clone, Copy)]
pub enum NextRecord {
    /// The record of a message. It takes `len` bytes.
    Message { len: usize },
    /// The closing record if the session is closed, otherwise a shut gate.
    End { closed: bool },
}

/// The whole records at the start of some bytes, and what follows them.
#[derive(Clone, Copy)]
pub struct Skipped {
    /// The number of messages, including those before these bytes.
    pub count: u64,
    /// The length of the records, in bytes.
    pub len: usize,
    /// `Ok` if the records end, with whether the session is closed. Otherwise the reason why no record follows.
    pub stop: Result<bool, OpenError>,
}

// Returns the length of the block at the start of the bytes, which follow the first two bytes of a record. `count`
// messages precede it.
fn block_length(most: u16, count: u64, body: &[u8]) -> Result<usize, OpenError>
    requires { count < MAX_NUMBER }
    ensures block { IfOk result (λ len. HasBlock most body.now (drop len body.now)) }
    ensures within { IfOk result (λ len. len ≤ length body.now) }
    ensures few { OnOk result (count < MAX_MESSAGES) }
    ensures refused { IfErr result (λ error. RecordFault most count (1 ∷ 0 ∷ body.now) (file_error error)) }
{
    if count == MAX_MESSAGES {
        return Err(OpenError::Full);
    }
    let number = count + 1;
    if body.len() < LENGTH_BYTES {
        return Err(OpenError::Damaged { number });
    }
    let (head, rest) = body.split_at(LENGTH_BYTES);
    let len = usize::from(BigEndian::read_u16(head));
    if len > usize::from(most) {
        return Err(OpenError::TooLong { len });
    }
    if rest.len() < len {
        return Err(OpenError::Damaged { number });
    }
    Ok(LENGTH_BYTES + len)
}

// Returns the length of the record at the start of the bytes if it is the whole record of a message, and as many bytes
// follow its head as the longest message has.
#[inline(always)]
fn whole_record(most: u16, rest: &[u8]) -> Option<usize>
    ensures some { IfSome result (λ len. (0 < len) × (len ≤ length rest.now)) }
    ensures record { IfSome result (λ len. HasRecord most rest.now (drop len rest.now)) }
{
    // For the optimizer: one comparison with the longest record suffices for all but the last records of a piece.
    if rest.len() < RECORD_HEAD + usize::from(most) {
        return None;
    }
    let len = recorded_length(most, rest)?;
    Some(RECORD_HEAD + usize::from(len))
}

// Reads the record at the start of the bytes, part by part. `count` messages precede it.
fn checked_record(most: u16, count: u64, rest: &[u8]) -> Result<NextRecord, OpenError>
    requires { count < MAX_NUMBER }
    ensures next { IfOk result (IsNextRecord most count rest.now) }
    ensures refused { IfErr result (λ error. RecordFault most count rest.now (file_error error)) }
{
    let damaged = OpenError::Damaged { number: count + 1 };
    let Some((gate, record)) = rest.split_first() else {
        return Err(damaged);
    };
    if *gate != OPEN_GATE {
        return Ok(NextRecord::End { closed: false });
    }
    let Some((kind, body)) = record.split_first() else {
        return Err(damaged);
    };
    if *kind == MESSAGE_KIND {
        return match block_length(most, count, body) {
            Ok(len) => Ok(NextRecord::Message { len: 2 + len }),
            Err(error) => Err(error),
        };
    }
    if *kind != CLOSING_KIND {
        return Err(damaged);
    }
    if body.is_empty() {
        return Err(damaged);
    }
    Ok(NextRecord::End { closed: true })
}

// Reads the record at the start of the bytes. `count` messages precede it, fewer than a journal may have.
// For the optimizer: most records are whole records of messages, which need fewer checks.
#[inline(always)]
fn next_of_few(most: u16, count: u64, rest: &[u8]) -> Result<NextRecord, OpenError>
    requires { count < MAX_MESSAGES }
    ensures next { IfOk result (IsNextRecord most count rest.now) }
    ensures refused { IfErr result (λ error. RecordFault most count rest.now (file_error error)) }
{
    if let Some(len) = whole_record(most, rest) {
        return Ok(NextRecord::Message { len });
    }
    checked_record(most, count, rest)
}

/// Reads the record at the start of the bytes. `count` messages precede it.
pub fn next_record(most: u16, count: u64, rest: &[u8]) -> Result<NextRecord, OpenError>
    requires { count < MAX_NUMBER }
    ensures next { IfOk result (IsNextRecord most count rest.now) }
    ensures refused { IfErr result (λ error. RecordFault most count rest.now (file_error error)) }
{
    if count < MAX_MESSAGES {
        return next_of_few(most, count, rest);
    }
    checked_record(most, count, rest)
}

// Reads the record at the start of the bytes. `count` messages precede it. With `are_few`, a journal may have more.
// For the optimizer: each of its callers is compiled for one taker, and most records then need no call.
#[inline(always)]
fn next_among(most: u16, count: u64, rest: &[u8], are_few: bool) -> Result<NextRecord, OpenError>
    requires few { count < MAX_NUMBER }
    requires fewer { are_few ≡ true → count < MAX_MESSAGES }
    ensures next { IfOk result (IsNextRecord most count rest.now) }
    ensures refused { IfErr result (λ error. RecordFault most count rest.now (file_error error)) }
{
    if are_few {
        return next_of_few(most, count, rest);
    }
    next_record(most, count, rest)
}

/// Reads the whole records at the start of the bytes, and what follows them. Passes their messages to the taker. `start`
/// messages precede them. It fails only if the taker does.
pub fn skip_records<T: MessageTaker>(
    most: u16,
    start: u64,
    bytes: &[u8],
    taker: &mut T,
) -> Result<Skipped, AllocError>
    requires few { start < MAX_NUMBER }
    requires is_open { HoldsOpen T.holds most start taker.old }
    ensures { IfOk result
        (SkipsRecords (HasTaken T.holds false taker.old taker.new) most start bytes.now) }
{
    // For the optimizer: the number of messages is compared with its limit once, and not for each record.
    let are_few = start.saturating_add(bytes.len() as u64) < MAX_MESSAGES;
    let mut count = start;
    let mut at = 0;
    'records: loop {
        let (_, rest) = bytes.split_at(at);
        match next_among(most, count, rest, are_few) {
            Ok(NextRecord::Message { len }) => {
                taker.take(&rest[RECORD_HEAD..len])?;
                at += len;
            }
            Ok(NextRecord::End { closed }) => {
                return Ok(Skipped {
                    count,
                    len: at,
                    stop: Ok(closed),
                });
            }
            Err(error) => {
                return Ok(Skipped {
                    count,
                    len: at,
                    stop: Err(error),
                });
            }
        }
        count += 1;
    }
}
