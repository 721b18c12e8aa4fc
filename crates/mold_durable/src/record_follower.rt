//! The follower without its file: which records it has read, and the messages of the last poll.

ghost use Rattle.std.specs.Prelude.{◌≡◌, ◌⊎◌, ◌+◌, ◌<◌, ◌++◌, [], true, false, ℕ, List, length, IfOk, IfErr};
ghost use Rattle.std.specs.Prelude.{OnErr};
ghost use Rattle.mold_session.specs.Records.{records};
ghost use Rattle.mold_durable.specs.Follower.{Follows, follower_of};
ghost use Rattle.mold_durable.specs.Following.{AllWithin, HasAll, Writer, Writes};
ghost use Rattle.mold_durable.specs.GrowingFile.{Passes};
ghost use Rattle.mold_durable.specs.Reading.{CountsOpen, HeadFault, IsOfDevice};
ghost use Rattle.mold_durable.specs.declared.error.OpenError.{OpenError};
ghost use Rattle.mold_durable.specs.declared.following.TheConstants.{LONGEST_RECORD, LOOK_BYTES};

use crate::error::OpenError;
use crate::following::{LONGEST_RECORD, read_durable, read_head};
use crate::growing_file::GrowingFile;
use crate::head::HEAD_LENGTH;
use crate::recovery::Records;
use mold_messages::MessageList;
use mold_wire::Session;
use std::alloc::Global;
use std::marker::Model;

/// Reads the journal in a file of version 3 while another process writes it, as `Follower` does. The caller keeps the
/// file, and passes the same one to each call. It holds the messages of the last poll, and 65,540 bytes for a record.
#[derive(Drop)]
pub struct RecordFollower {
    session: Session,
    max_message: u16,
    // The records that were returned.
    records: Records,
    // The messages of the last poll.
    news: MessageList,
    // Memory for the longest record, with the gate after it.
    buffer: Vec<u8>,
}

impl Model for RecordFollower {
    ghost use Rattle.std.specs.Prelude.{length};
    ghost use Rattle.mold_durable.specs.Follower.{RecordFollowerState, IsFollower};

    ghost Value = { RecordFollowerState };

    ghost view = { λ f. record {
      session = f.session;
      max_message = f.max_message;
      count = f.records.count;
      end = f.records.end;
      closed = f.records.closed;
      news = f.news.messages;
    } };

    ghost invariant = { λ f. IsFollower f.records.count f.records.end (length f.buffer.items) };
}

impl RecordFollower {
    /// Starts to follow the journal in a file. It reads the head, and no message. `max_message` is the largest length
    /// of a message, in bytes. Possible errors are `Short`, `BadMagic`, `Read`, and `Memory` if an allocation failed.
    pub fn open<F: GrowingFile>(
        alloc: Global,
        max_message: u16,
        file: &mut F,
    ) -> Result<RecordFollower, OpenError>
        ensures follows { (writer : Writer) (bytes : ℕ → List ℕ) → F.history file.old bytes → Writes writer bytes →
            IfOk result (λ follower. Follows F.history F.synced writer bytes (follower_of file.new follower) []) }
        ensures accepted { (writer : Writer) (bytes : ℕ → List ℕ) → F.history file.old bytes → Writes writer bytes →
            IfErr result IsOfDevice }
        ensures fresh { IfOk result (λ follower. follower ≡ record {
          session = follower.session;
          max_message = max_message;
          count = 0;
          end = 18;
          closed = false;
          news = [];
        }) }
        ensures refused { (bytes : List ℕ) → F.history file.old (λ moment. bytes) →
            IfErr result (λ error. IsOfDevice error ⊎ HeadFault bytes error) }
        ensures passes { Passes F.history F.moment F.synced file.old file.new }
        ensures cause { CountsOpen (F.failed file.old) (F.failed file.new) result }
    {
        let session = match read_head(file) {
            Ok(session) => session,
            Err(error) => return Err(error),
        };
        let Ok(buffer) = vec![in alloc; 0; LONGEST_RECORD] else {
            return Err(OpenError::Memory);
        };
        Ok(RecordFollower {
            session,
            max_message,
            records: Records {
                count: 0,
                end: HEAD_LENGTH as u64,
                closed: false,
            },
            news: MessageList::new(alloc),
            buffer,
        })
    }

    /// Returns the session that the messages belong to.
    pub fn session(&self) -> Session
        ensures { result ≡ self.now.session }
    {
        self.session
    }

    /// Returns the largest length of a message, in bytes.
    pub fn max_message(&self) -> u16
        ensures { result ≡ self.now.max_message }
    {
        self.max_message
    }

    /// Returns the sequence number of the next message: one more than the number of messages that were returned.
    pub fn next(&self) -> u64
        ensures { result ≡ self.now.count + 1 }
    {
        self.records.count + 1
    }

    /// Returns true if the closing record was read, and is durable.
    pub fn is_closed(&self) -> bool
        ensures { result ≡ self.now.closed }
    {
        self.records.closed
    }

    /// Returns the messages that the last poll gained, in order. After an error, there are none.
    pub fn news(&self) -> &MessageList
        ensures { result.now.messages ≡ self.now.news }
    {
        &self.news
    }

    /// Reads new records, and then syncs. It counts only the messages that it had read before that sync, so they are
    /// durable. `news` returns them.
    ///
    /// `Ok(true)` means that it stopped after `LOOK_BYTES` bytes, and the file may have more. `Ok(false)` means that it
    /// has everything that the file had when the call began. After an error nothing is gained, and the next call reads
    /// the same records again.
    ///
    /// A small record takes one read, or two if the gate before it was shut in the last read. A message of more than
    /// 508 bytes takes one read more. `Read` means that a read failed, `Write` that the sync failed. If no message of
    /// the writer is longer than `max_message`, only a failed call and a failed allocation are errors.
    pub fn poll<F: GrowingFile>(&mut self, file: &mut F) -> Result<bool, OpenError>
        ensures gained { (writer : Writer) (bytes : ℕ → List ℕ) (told : List (List ℕ)) → Writes writer bytes →
            Follows F.history F.synced writer bytes (follower_of file.old self.old) told →
            Follows F.history F.synced writer bytes (follower_of file.new self.new) (told ++ self.new.news) }
        ensures nothing { (writer : Writer) (bytes : ℕ → List ℕ) (told : List (List ℕ)) → Writes writer bytes →
            Follows F.history F.synced writer bytes (follower_of file.old self.old) told →
            IfOk result (λ more. more ≡ false →
            HasAll writer (told ++ self.new.news) self.new.closed (F.moment file.old)) }
        ensures more { IfOk result (λ more. more ≡ true →
            (0 < length self.new.news) × (self.new.closed ≡ false)) }
        ensures same { OnErr result (self.new ≡ record self.old { news = [] }) }
        ensures kept { self.new ≡ record self.old {
          count = self.new.count;
          end = self.new.end;
          closed = self.new.closed;
          news = self.new.news;
        } }
        ensures accepted { (writer : Writer) (bytes : ℕ → List ℕ) (told : List (List ℕ)) → Writes writer bytes →
            AllWithin self.old.max_message writer →
            Follows F.history F.synced writer bytes (follower_of file.old self.old) told →
            IfErr result IsOfDevice }
        ensures bounded { length (records self.new.news) < LOOK_BYTES + LONGEST_RECORD }
        ensures passes { Passes F.history F.moment F.synced file.old file.new }
        ensures cause { CountsOpen (F.failed file.old) (F.failed file.new) result }
    {
        self.news.clear();
        if self.records.closed {
            return Ok(false);
        }
        match read_durable(
            file,
            &mut self.buffer,
            &mut self.news,
            self.max_message,
            self.records,
        ) {
            Ok(look) => {
                self.records = look.records;
                Ok(look.more)
            }
            Err(error) => {
                self.news.clear();
                Err(error)
            }
        }
    }
}
