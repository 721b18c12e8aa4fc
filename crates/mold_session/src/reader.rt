//! Reads the file of a journal message by message.

ghost use Rattle.std.specs.Prelude.{◌≡◌, ◌<◌, ◌≤◌, false, [], IfErr, IfOk, Some};
ghost use Rattle.std.specs.Bool.{OnFalse, OnTrue};
ghost use Rattle.std.specs.Io.KnownBytes.{prepend_known};
ghost use Rattle.mold_session.specs.Contents.{Gives};
ghost use Rattle.mold_session.specs.Journal.{IsWithin};
ghost use Rattle.mold_session.specs.Loading.{CountsLoad, IsOfHead, Refuses, has_records, work_left};
ghost use Rattle.mold_session.specs.Reader.{EndsWith, HasRead, PassesMessages, ReadsMessage, ReadsNext, RestFault};
ghost use Rattle.mold_session.specs.Reader.{TakesBlocks};
ghost use Rattle.mold_session.specs.declared.records.NextMessage.TheVariants.{Message};
ghost use Rattle.mold_wire.specs.declared.limits.TheConstants.{MAX_NUMBER};

use crate::checking::{whole_blocks, whole_messages};
use crate::error::FileError;
use crate::file_version::FileVersion;
use crate::journal::MAX_MESSAGES;
use crate::length_taker::LengthTaker;
use crate::loading::{FileHead, check_count, next_block, read_head};
use crate::piece::Piece;
use crate::records::{NextMessage, next_record};
use mold_devices::Source;
use mold_messages::MessageList;
use mold_wire::MAX_MESSAGE;
use std::alloc::Global;
use std::marker::Model;

// Reads the next message of a file with this head as one more message of the list, or what ends the file. The message
// may have at most `most` bytes, and `count` messages precede it.
fn next_message<S: Source>(
    list: &mut MessageList,
    piece: &mut Piece,
    source: &mut S,
    head: FileHead,
    count: u64,
    most: u16,
) -> Result<NextMessage, FileError>
    requires { count < MAX_NUMBER }
    ensures read { IfOk result (ReadsMessage most head count (prepend_known piece.old (S.left source.old))
        (prepend_known piece.new (S.left source.new)) list.old.messages list.new.messages) }
    ensures refused { IfErr result (λ error. Refuses (RestFault most head.version count)
        (prepend_known piece.old (S.left source.old)) error) }
    ensures work { IfOk result (λ next. next ≡ Message →
        work_left (S.bound source.new) piece.new < work_left (S.bound source.old) piece.old) }
    ensures failures { CountsLoad (S.failed source.old) (S.failed source.new) result }
{
    if head.version.has_records() {
        return next_record(list, piece, source, most, count);
    }
    if next_block(list, piece, source, most, count)? {
        return Ok(NextMessage::Message);
    }
    check_count(head.version, count)?;
    Ok(NextMessage::End {
        closed: head.closed,
    })
}

// How many blocks may be taken at once: `limit`, but none of a file with records.
fn blocks_at_once(version: FileVersion, limit: u64) -> u64
    ensures few { result ≤ limit }
    ensures blocks { 0 < result → has_records version ≡ false }
{
    if version.has_records() { 0 } else { limit }
}

/// Reads the file of a journal, of any version, message by message. It holds no more than the longest
/// message so far and the bytes of one read, at most 32,768.
///
/// It refuses the bytes that `Journal::load` refuses with a `max_message` of 65,535, or with a lower one that each call
/// of `advance_within` is given. The fault is the same, and it is returned once the reader reaches it.
#[derive(Drop)]
pub struct JournalReader {
    head: FileHead,
    piece: Piece,
    // The message that was read last, or no message before the first.
    last: MessageList,
    count: u64,
}

impl Model for JournalReader {
    ghost use Rattle.std.specs.Prelude.{◌<◌, [], slice_index_or};
    ghost use Rattle.mold_wire.specs.declared.limits.TheConstants.{MAX_NUMBER};
    ghost use Rattle.mold_session.specs.Reader.{ReaderState};

    ghost Value = { ReaderState };

    ghost view = { λ r. record {
      head = r.head;
      count = r.count;
      message = slice_index_or r.last.messages 0 [];
      rest = r.piece;
    } };

    ghost invariant = { λ r. r.count < MAX_NUMBER };
}

impl JournalReader {
    /// Reads the head of the file, or returns its fault. This allocates nothing.
    pub fn new<S: Source>(alloc: Global, source: &mut S) -> Result<JournalReader, FileError>
        ensures begun { IfOk result (λ reader. HasRead (S.left source.old)
            (prepend_known reader.rest (S.left source.new)) reader []) }
        ensures refused { IfErr result (λ error.
            Refuses (λ bytes why. Gives bytes [] (Some why)) (S.left source.old) error) }
        ensures headed { IfErr result IsOfHead }
        ensures failures { CountsLoad (S.failed source.old) (S.failed source.new) result }
    {
        let mut piece = Piece::new();
        let head = read_head(&mut piece, source)?;
        Ok(JournalReader {
            head,
            piece,
            last: MessageList::new(alloc),
            count: 0,
        })
    }

    /// Returns the head of the file. In version 3 it states that the session is closed once `advance` has returned false.
    pub fn head(&self) -> FileHead
        ensures { result ≡ self.now.head }
    {
        self.head
    }

    /// Returns the number of messages read, which is also the sequence number of the last one.
    pub fn count(&self) -> u64
        ensures { result ≡ self.now.count }
    {
        self.count
    }

    /// Returns the message that `advance` read last. It is empty before the first one.
    pub fn message(&self) -> &[u8]
        ensures { result.now ≡ self.now.message }
    {
        match self.last.get(0) {
            Some(message) => message,
            None => &[],
        }
    }

    /// Reads the next message, or returns false if none remains, and then the whole file is valid. The bytes after a shut
    /// gate of version 3 are not read.
    ///
    /// It allocates only for a message that is longer than all before it. After an error the reader must not be used
    /// again.
    pub fn advance<S: Source>(&mut self, source: &mut S) -> Result<bool, FileError>
        ensures next { IfOk result (λ more. OnTrue more (ReadsNext
            (prepend_known self.old.rest (S.left source.old))
            (prepend_known self.new.rest (S.left source.new)) self.old self.new)) }
        ensures end { IfOk result (λ more. OnFalse more (EndsWith
            (prepend_known self.old.rest (S.left source.old)) self.old self.new.head)) }
        ensures refused { IfErr result (λ error. Refuses (RestFault MAX_MESSAGE self.old.head.version self.old.count)
            (prepend_known self.old.rest (S.left source.old)) error) }
        ensures work { IfOk result (λ more. OnTrue more
            (work_left (S.bound source.new) self.new.rest < work_left (S.bound source.old) self.old.rest)) }
        ensures failures { CountsLoad (S.failed source.old) (S.failed source.new) result }
    {
        self.advance_within(source, MAX_MESSAGE)
    }

    /// Reads the next message as `advance` does, but refuses a message of more than `max_message` bytes as `TooLong`.
    pub fn advance_within<S: Source>(
        &mut self,
        source: &mut S,
        max_message: u16,
    ) -> Result<bool, FileError>
        ensures next { IfOk result (λ more. OnTrue more (ReadsNext
            (prepend_known self.old.rest (S.left source.old))
            (prepend_known self.new.rest (S.left source.new)) self.old self.new)) }
        ensures within { IfOk result (λ more. OnTrue more (IsWithin max_message self.new.message)) }
        ensures end { IfOk result (λ more. OnFalse more (EndsWith
            (prepend_known self.old.rest (S.left source.old)) self.old self.new.head)) }
        ensures refused { IfErr result (λ error. Refuses (RestFault max_message self.old.head.version self.old.count)
            (prepend_known self.old.rest (S.left source.old)) error) }
        ensures work { IfOk result (λ more. OnTrue more
            (work_left (S.bound source.new) self.new.rest < work_left (S.bound source.old) self.old.rest)) }
        ensures failures { CountsLoad (S.failed source.old) (S.failed source.new) result }
    {
        self.last.clear();
        match next_message(
            &mut self.last,
            &mut self.piece,
            source,
            self.head,
            self.count,
            max_message,
        )? {
            NextMessage::Message => {
                self.count += 1;
                Ok(true)
            }
            NextMessage::End { closed } => {
                self.head.closed = closed;
                Ok(false)
            }
        }
    }

    /// Takes the next blocks, at most `limit` of them, and appends them to `out` as they are in the file. It reads
    /// nothing, so it takes only blocks that the last read got whole, and none of a file of version 3, which has records.
    /// If an allocation fails, it takes none, and `advance` still reads the next message.
    pub fn take_blocks(&mut self, limit: u64, out: &mut Vec<u8>)
        ensures { TakesBlocks limit self.old self.new out.old.items out.new.items }
    {
        let most = blocks_at_once(self.head.version, limit.min(MAX_MESSAGES - self.count));
        if most == 0 {
            return;
        }
        let bytes = self.piece.rest();
        let (len, count) = whole_blocks(bytes, most);
        if let Ok(()) = out.extend_from_slice(&bytes[..len]) {
            self.piece.skip(len);
            self.count += count;
        }
    }

    /// Passes the next messages that the last read got whole, and passes their lengths to the taker. It reads nothing
    /// and allocates nothing. It stops before a message of more than `max_message` bytes, before one that is not whole,
    /// before one that the taker does not take, and before what ends the file. `advance` still reads the next message.
    pub fn pass_messages<T: LengthTaker>(&mut self, max_message: u16, taker: &mut T)
        ensures { PassesMessages T.takes max_message self.old self.new taker.old taker.new }
    {
        let limit = MAX_MESSAGES - self.count;
        let bytes = self.piece.rest();
        let (len, count) = whole_messages(self.head.version, max_message, limit, bytes, taker);
        self.piece.skip(len);
        self.count += count;
    }
}
