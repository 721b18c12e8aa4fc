//! Writes the bytes that a program appends to a journal file of version 3.

ghost use Rattle.std.specs.Prelude.{◌≡◌, ◌+◌, ◌-◌, ◌<◌, ◌≤◌, ◌++◌, ◌∷◌, ◌^◌, length, take, drop, min};
ghost use Rattle.mold_ffi.specs.Publisher.Records.{WritesHead, WritesRecords, empty_file, records_end, records_from};
ghost use Rattle.mold_session.specs.Putting.{Puts};
ghost use Rattle.mold_session.specs.Records.{magic_3, records};
ghost use Rattle.mold_wire.specs.Block.{be16};

use crate::buffer::copy_to_front;
use crate::code::{ABSENT, DONE, ROOM};
use mold_session::{CLOSING_KIND, Journal, MESSAGE_KIND, OPEN_GATE, RECORD_HEAD};
use mold_wire::{SESSION_LENGTH, Session};

/// The length of the magic bytes at the start of a file.
pub(crate) const MAGIC_LENGTH: usize = 8;

/// The length of the head of a file, which is the offset of the first gate.
pub(crate) const HEAD_LENGTH: usize = MAGIC_LENGTH + SESSION_LENGTH;

/// A shut gate.
const SHUT_GATE: u8 = 0;

/// The length of the file of a session without messages: the head and a shut gate.
const EMPTY_LENGTH: usize = HEAD_LENGTH + 1;

/// The closing record.
const CLOSING_RECORD: [u8; 3] = [OPEN_GATE, CLOSING_KIND, 0];

/// The magic bytes of version 3.
#[tactic(auto, unfolding(mold_session::specs::Records::magic_3))]
pub(crate) fn magic() -> [u8; MAGIC_LENGTH]
    ensures { result ≡ magic_3 }
{
    *b"MOLDJNL3"
}

// Copies the text into the buffer after its first `used` bytes. The bytes after the text are unchanged.
fn copy_after(buffer: &mut [u8], used: usize, text: &[u8])
    requires { used + length text.now ≤ length buffer.old }
    ensures { buffer.new ≡ take used buffer.old ++ (text.now ++ drop (length text.now) (drop used buffer.old)) }
{
    let (_, rest) = buffer.split_at_mut(used);
    copy_to_front(rest, text);
}

// The file of a session without messages.
fn empty_bytes(session: Session) -> [u8; EMPTY_LENGTH]
    ensures { result ≡ empty_file session }
{
    let mut bytes = [SHUT_GATE; EMPTY_LENGTH];
    copy_after(&mut bytes, 0, &magic());
    copy_after(&mut bytes, MAGIC_LENGTH, &session.0);
    bytes
}

/// Writes the file of a session without messages to the start of the buffer, and its length to `size`.
pub(crate) fn write_head(session: Session, buffer: &mut [u8], size: &mut usize) -> u32
    ensures { WritesHead session buffer.old buffer.new result size.new }
{
    *size = EMPTY_LENGTH;
    if buffer.len() < EMPTY_LENGTH {
        return ROOM;
    }
    copy_to_front(buffer, &empty_bytes(session));
    DONE
}

// The bytes of a message's record before the message.
fn record_head(message: &[u8]) -> [u8; RECORD_HEAD]
    requires { length message.now < 2 ^ 16 }
    ensures { result ≡ 1 ∷ 0 ∷ be16 (length message.now) }
{
    let length = (message.len() as u16).to_be_bytes();
    [OPEN_GATE, MESSAGE_KIND, length[0], length[1]]
}

// The length of the records of the messages from number `from` on, or the greatest number if that is less.
fn records_length(journal: &Journal, from: u64) -> usize
    requires { 1 ≤ from }
    ensures { result ≡ min (length (records (drop (from - 1) journal.now.messages))) (2 ^ 64 - 1) }
{
    let _next = journal.next();
    let mut size: usize = 0;
    let mut number = from;
    'messages: loop {
        let Some(message) = journal.get(number) else {
            return size;
        };
        size = size.saturating_add(RECORD_HEAD + message.len());
        number += 1;
    }
}

// Writes the records of the messages from number `from` on to the start of the buffer, and returns their length.
fn put_records(journal: &Journal, from: u64, buffer: &mut [u8]) -> usize
    requires some { 1 ≤ from }
    requires room { length (records (drop (from - 1) journal.now.messages)) ≤ length buffer.old }
    ensures { Puts buffer.old buffer.new (records (drop (from - 1) journal.now.messages)) result }
{
    let _longest = journal.max_message();
    let _next = journal.next();
    let mut used = 0;
    let mut number = from;
    'messages: loop {
        let Some(message) = journal.get(number) else {
            return used;
        };
        copy_after(buffer, used, &record_head(message));
        used += RECORD_HEAD;
        copy_after(buffer, used, message);
        used += message.len();
        number += 1;
    }
}

// What follows the records.
fn end_bytes(closed: bool) -> &'static [u8]
    ensures { result.now ≡ records_end closed }
{
    if closed {
        &CLOSING_RECORD
    } else {
        &[SHUT_GATE]
    }
}

/// Writes the records of the messages from number `from` on, and what follows them, to the start of the buffer. Writes
/// their length to `size`.
pub(crate) fn write_records(
    journal: &Journal,
    from: u64,
    buffer: &mut [u8],
    size: &mut usize,
) -> u32
    ensures { WritesRecords journal.now from buffer.old buffer.new result size.new }
{
    if from == 0 || journal.next() < from {
        *size = 0;
        return ABSENT;
    }
    let end = end_bytes(journal.is_closed());
    *size = records_length(journal, from).saturating_add(end.len());
    if buffer.len() < *size {
        return ROOM;
    }
    let used = put_records(journal, from, buffer);
    copy_after(buffer, used, end);
    DONE
}
