//! Reads the records of a file that grows.

ghost use Rattle.std.specs.Prelude.{◌≡◌, ◌⊎◌, ◌+◌, ◌<◌, ◌≤◌, ◌^◌, ◌++◌, [], true, false, ℕ, List, length};
ghost use Rattle.std.specs.Prelude.{IfOk, IfErr, OnErr};
ghost use Rattle.mold_wire.specs.declared.limits.TheConstants.{MAX_NUMBER};
ghost use Rattle.mold_session.specs.FileFault.{RecordFault};
ghost use Rattle.mold_durable.specs.Following.{AllWithin, Finds, FindsIn, HasOpenGate, HasTold, IsLook, IsOfPiece};
ghost use Rattle.mold_durable.specs.Following.{Reaches, ShowsGate, Takes, Writer, Writes};
ghost use Rattle.mold_durable.specs.GrowingFile.{Passes};
ghost use Rattle.mold_durable.specs.Reading.{CountsOpen, HeadFault, IsOfDevice, file_error};

use crate::error::OpenError;
use crate::gate::SHUT_GATE;
use crate::growing_file::GrowingFile;
use crate::head::{HEAD_LENGTH, split_head};
use crate::records::{NextRecord, next_record};
use crate::recovery::Records;
use mold_messages::MessageList;
use mold_session::{OPEN_GATE, RECORD_HEAD};
use mold_wire::Session;

/// The number of bytes that are read first. Most records are shorter.
const SMALL_PIECE: usize = 512;

/// The number of bytes of records after which one look ends.
pub const LOOK_BYTES: u64 = 1 << 20;

/// The length of the longest record, with the gate after it.
pub const LONGEST_RECORD: usize = 65540;

/// What follows the messages that were read.
#[derive(Clone, Copy)]
pub enum Found {
    /// The record of a message, which takes `len` bytes. If `opened`, the gate after it was read, and is open.
    Message { len: usize, opened: bool },
    /// The closing record.
    Closing,
    /// A shut gate.
    Shut,
}

/// What a look at the file found.
#[derive(Clone, Copy)]
pub struct Look {
    /// All records that were read, now and before.
    pub records: Records,
    /// Whether the look ended because it had read enough.
    pub more: bool,
}

/// How far a file was read.
#[derive(Clone, Copy)]
pub struct Position {
    /// The number of messages.
    pub count: u64,
    /// The offset of the gate after them.
    pub end: u64,
    /// Whether an earlier read showed this gate open.
    pub opened: bool,
}

/// Reads the head of a file.
pub fn read_head<F: GrowingFile>(file: &mut F) -> Result<Session, OpenError>
    ensures passes { Passes F.history F.moment F.synced file.old file.new }
    ensures named { IfOk result (λ session. length session.0 ≡ 10) }
    ensures found { (writer : Writer) (bytes : ℕ → List ℕ) → F.history file.old bytes → Writes writer bytes →
        IfOk result (λ session. session ≡ writer.session) }
    ensures accepted { (writer : Writer) (bytes : ℕ → List ℕ) → F.history file.old bytes → Writes writer bytes →
        IfErr result IsOfDevice }
    ensures refused { (bytes : List ℕ) → F.history file.old (λ moment. bytes) →
        IfErr result (λ error. IsOfDevice error ⊎ HeadFault bytes error) }
    ensures failures { CountsOpen (F.failed file.old) (F.failed file.new) result }
{
    let mut head = [0; HEAD_LENGTH];
    match file.read_at(0, &mut head) {
        Ok(count) => match split_head(&head[..count]) {
            Ok(session) => Ok(session),
            Err(error) => Err(error),
        },
        Err(_) => Err(OpenError::Read),
    }
}

// Returns true if the byte at offset `at` is there and is an open gate.
fn is_open_at(bytes: &[u8], at: usize) -> bool
    ensures { result ≡ true → HasOpenGate bytes.now at }
{
    at < bytes.len() && bytes[at] == OPEN_GATE
}

// Finds the record at the start of the bytes, and adds its message to the news. `count` messages precede it.
fn find_record(
    most: u16,
    count: u64,
    bytes: &[u8],
    news: &mut MessageList,
) -> Result<Found, OpenError>
    requires { count < MAX_NUMBER }
    ensures found { IfOk result (FindsIn most count bytes.now news.old.messages news.new.messages) }
    ensures same { OnErr result (news.new.messages ≡ news.old.messages) }
    ensures refused { IfErr result (λ error.
        (error ≡ OpenError.Memory) ⊎ RecordFault most count bytes.now (file_error error)) }
{
    match next_record(most, count, bytes) {
        Ok(NextRecord::Message { len }) => match news.push(&bytes[RECORD_HEAD..len]) {
            Ok(()) => Ok(Found::Message {
                len,
                opened: is_open_at(bytes, len),
            }),
            Err(_) => Err(OpenError::Memory),
        },
        Ok(NextRecord::End { closed: true }) => Ok(Found::Closing),
        Ok(NextRecord::End { closed: false }) => Ok(Found::Shut),
        Err(error) => Err(error),
    }
}

// Reads the gate at a position. A file that ends there is damaged.
fn read_gate<F: GrowingFile>(file: &mut F, at: Position) -> Result<bool, OpenError>
    requires { at.count < MAX_NUMBER }
    ensures passes { Passes F.history F.moment F.synced file.old file.new }
    ensures gate { (writer : Writer) (bytes : ℕ → List ℕ) (told : List (List ℕ)) → F.history file.old bytes →
        Writes writer bytes → HasTold writer told at.count at.end at.opened (F.moment file.old) →
        IfOk result (ShowsGate writer told (F.moment file.old) (F.moment file.new)) }
    ensures accepted { (writer : Writer) (bytes : ℕ → List ℕ) (told : List (List ℕ)) → F.history file.old bytes →
        Writes writer bytes → HasTold writer told at.count at.end at.opened (F.moment file.old) →
        IfErr result IsOfDevice }
    ensures failures { CountsOpen (F.failed file.old) (F.failed file.new) result }
{
    let mut gate = [SHUT_GATE; 1];
    match file.read_at(at.end, &mut gate) {
        Ok(0) => Err(OpenError::Damaged {
            number: at.count + 1,
        }),
        Ok(_) => Ok(gate[0] == OPEN_GATE),
        Err(_) => Err(OpenError::Read),
    }
}

// Reads the record at a position, as far as it fits into the piece, and adds its message to the news.
fn read_piece<F: GrowingFile>(
    file: &mut F,
    piece: &mut [u8],
    news: &mut MessageList,
    most: u16,
    at: Position,
) -> Result<Found, OpenError>
    requires few { at.count < MAX_NUMBER }
    requires some { 3 ≤ length piece.old }
    ensures passes { Passes F.history F.moment F.synced file.old file.new }
    ensures taken { IfOk result
        (Takes at.count at.end (length piece.old) news.old.messages news.new.messages) }
    ensures found { (writer : Writer) (bytes : ℕ → List ℕ) (told : List (List ℕ)) → F.history file.old bytes →
        Writes writer bytes → HasTold writer told at.count at.end true (F.moment file.old) →
        IfOk result (Finds writer told (F.moment file.old) (F.moment file.new) news.old.messages
        news.new.messages) }
    ensures accepted { (writer : Writer) (bytes : ℕ → List ℕ) (told : List (List ℕ)) → F.history file.old bytes →
        Writes writer bytes → AllWithin most writer →
        HasTold writer told at.count at.end true (F.moment file.old) →
        IfErr result (IsOfPiece (length piece.old)) }
    ensures same { OnErr result (news.new.messages ≡ news.old.messages) }
    ensures failures { CountsOpen (F.failed file.old) (F.failed file.new) result }
{
    match file.read_at(at.end, piece) {
        Ok(count) => match find_record(most, at.count, &piece[..count], news) {
            Ok(found) => Ok(found),
            Err(error) => Err(error),
        },
        Err(_) => Err(OpenError::Read),
    }
}

// Reads the record at a position whose gate is known to be open, and adds its message to the news. Most records are in
// a small piece. A record that is cut off by its end is read again.
fn read_record<F: GrowingFile>(
    file: &mut F,
    buffer: &mut [u8],
    news: &mut MessageList,
    most: u16,
    at: Position,
) -> Result<Found, OpenError>
    requires few { at.count < MAX_NUMBER }
    requires large { length buffer.old ≡ LONGEST_RECORD }
    ensures passes { Passes F.history F.moment F.synced file.old file.new }
    ensures taken { IfOk result (Takes at.count at.end LONGEST_RECORD news.old.messages news.new.messages) }
    ensures found { (writer : Writer) (bytes : ℕ → List ℕ) (told : List (List ℕ)) → F.history file.old bytes →
        Writes writer bytes → HasTold writer told at.count at.end true (F.moment file.old) →
        IfOk result (Finds writer told (F.moment file.old) (F.moment file.new) news.old.messages
        news.new.messages) }
    ensures accepted { (writer : Writer) (bytes : ℕ → List ℕ) (told : List (List ℕ)) → F.history file.old bytes →
        Writes writer bytes → AllWithin most writer →
        HasTold writer told at.count at.end true (F.moment file.old) → IfErr result IsOfDevice }
    ensures failures { CountsOpen (F.failed file.old) (F.failed file.new) result }
{
    match read_piece(file, &mut buffer[..SMALL_PIECE], news, most, at) {
        Ok(found) => Ok(found),
        Err(OpenError::Damaged { .. }) => match read_piece(file, buffer, news, most, at) {
            Ok(found) => Ok(found),
            Err(error) => Err(error),
        },
        Err(error) => Err(error),
    }
}

// Reads what is at a position. A record is taken only if an earlier read showed its gate open: the bytes after a shut
// gate may be any bytes, and one read may return some of them as they were before the gate was opened.
fn read_next<F: GrowingFile>(
    file: &mut F,
    buffer: &mut [u8],
    news: &mut MessageList,
    most: u16,
    at: Position,
) -> Result<Found, OpenError>
    requires few { at.count < MAX_NUMBER }
    requires large { length buffer.old ≡ LONGEST_RECORD }
    ensures passes { Passes F.history F.moment F.synced file.old file.new }
    ensures taken { IfOk result (Takes at.count at.end LONGEST_RECORD news.old.messages news.new.messages) }
    ensures found { (writer : Writer) (bytes : ℕ → List ℕ) (told : List (List ℕ)) → F.history file.old bytes →
        Writes writer bytes → HasTold writer told at.count at.end at.opened (F.moment file.old) →
        IfOk result (Finds writer told (F.moment file.old) (F.moment file.new) news.old.messages
        news.new.messages) }
    ensures accepted { (writer : Writer) (bytes : ℕ → List ℕ) (told : List (List ℕ)) → F.history file.old bytes →
        Writes writer bytes → AllWithin most writer →
        HasTold writer told at.count at.end at.opened (F.moment file.old) → IfErr result IsOfDevice }
    ensures failures { CountsOpen (F.failed file.old) (F.failed file.new) result }
{
    if !at.opened {
        match read_gate(file, at) {
            Ok(true) => {}
            Ok(false) => return Ok(Found::Shut),
            Err(error) => return Err(error),
        }
    }
    match read_record(file, buffer, news, most, at) {
        Ok(found) => Ok(found),
        Err(error) => Err(error),
    }
}

// Reads the records after those of `start`, and adds their messages to the news.
fn read_news<F: GrowingFile>(
    file: &mut F,
    buffer: &mut [u8],
    news: &mut MessageList,
    most: u16,
    start: Records,
) -> Result<Look, OpenError>
    requires few { start.count < MAX_NUMBER }
    requires near { start.end < 2 ^ 63 }
    requires unclosed { start.closed ≡ false }
    requires none { news.old.messages ≡ [] }
    requires large { length buffer.old ≡ LONGEST_RECORD }
    ensures passes { Passes F.history F.moment F.synced file.old file.new }
    ensures limits { IfOk result (IsLook news.new.messages) }
    ensures found { (writer : Writer) (bytes : ℕ → List ℕ) (told : List (List ℕ)) → F.history file.old bytes →
        Writes writer bytes → HasTold writer told start.count start.end false (F.moment file.old) →
        IfOk result (Reaches writer (told ++ news.new.messages) (F.moment file.old) (F.moment file.new)) }
    ensures accepted { (writer : Writer) (bytes : ℕ → List ℕ) (told : List (List ℕ)) → F.history file.old bytes →
        Writes writer bytes → AllWithin most writer →
        HasTold writer told start.count start.end false (F.moment file.old) → IfErr result IsOfDevice }
    ensures failures { CountsOpen (F.failed file.old) (F.failed file.new) result }
{
    let mut at = Position {
        count: start.count,
        end: start.end,
        opened: false,
    };
    'records: loop {
        match read_next(file, buffer, news, most, at) {
            Ok(Found::Message { len, opened }) => {
                at.count += 1;
                at.end += len as u64;
                at.opened = opened;
            }
            Ok(Found::Closing) => {
                return Ok(Look {
                    records: Records {
                        count: at.count,
                        end: at.end + 2,
                        closed: true,
                    },
                    more: false,
                });
            }
            Ok(Found::Shut) => {
                return Ok(Look {
                    records: Records {
                        count: at.count,
                        end: at.end,
                        closed: false,
                    },
                    more: false,
                });
            }
            Err(error) => return Err(error),
        }
        if at.end - start.end >= LOOK_BYTES {
            return Ok(Look {
                records: Records {
                    count: at.count,
                    end: at.end,
                    closed: false,
                },
                more: true,
            });
        }
    }
}

/// Reads the records after those of `start`, adds their messages to the news, and then syncs. So these messages are
/// durable: the process that wrote them may not have synced them yet, and may never do so.
pub fn read_durable<F: GrowingFile>(
    file: &mut F,
    buffer: &mut [u8],
    news: &mut MessageList,
    most: u16,
    start: Records,
) -> Result<Look, OpenError>
    requires few { start.count < MAX_NUMBER }
    requires near { start.end < 2 ^ 63 }
    requires unclosed { start.closed ≡ false }
    requires none { news.old.messages ≡ [] }
    requires large { length buffer.old ≡ LONGEST_RECORD }
    ensures passes { Passes F.history F.moment F.synced file.old file.new }
    ensures limits { IfOk result (IsLook news.new.messages) }
    ensures found { (writer : Writer) (bytes : ℕ → List ℕ) (told : List (List ℕ)) → F.history file.old bytes →
        Writes writer bytes → HasTold writer told start.count start.end false (F.moment file.old) →
        IfOk result (Reaches writer (told ++ news.new.messages) (F.moment file.old) (F.synced file.new)) }
    ensures accepted { (writer : Writer) (bytes : ℕ → List ℕ) (told : List (List ℕ)) → F.history file.old bytes →
        Writes writer bytes → AllWithin most writer →
        HasTold writer told start.count start.end false (F.moment file.old) → IfErr result IsOfDevice }
    ensures failures { CountsOpen (F.failed file.old) (F.failed file.new) result }
{
    match read_news(file, buffer, news, most, start) {
        Ok(look) => match file.sync() {
            Ok(()) => Ok(look),
            Err(_) => Err(OpenError::Write),
        },
        Err(error) => Err(error),
    }
}
