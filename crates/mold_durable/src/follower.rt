//! The follower: reads a durable journal while another process writes it.

ghost use Rattle.std.specs.Prelude.{◌≡◌, ◌⊎◌, ◌+◌, ◌<◌, ◌++◌, [], true, false, ℕ, List, length, IfOk, IfErr};
ghost use Rattle.std.specs.Prelude.{OnErr};
ghost use Rattle.mold_session.specs.Records.{records};
ghost use Rattle.mold_durable.specs.Follower.{Follows};
ghost use Rattle.mold_durable.specs.Following.{AllWithin, HasAll, Writer, Writes};
ghost use Rattle.mold_durable.specs.GrowingFile.{Passes};
ghost use Rattle.mold_durable.specs.Reading.{CountsOpen, HeadFault, IsOfDevice};
ghost use Rattle.mold_durable.specs.declared.error.OpenError.{OpenError};
ghost use Rattle.mold_durable.specs.declared.following.TheConstants.{LONGEST_RECORD, LOOK_BYTES};

use crate::error::OpenError;
use crate::growing_file::GrowingFile;
use crate::record_follower::RecordFollower;
use mold_messages::MessageList;
use mold_wire::Session;
use std::alloc::Global;
use std::marker::Model;

/// Reads the journal in a file of version 3 while another process writes it. It returns only durable messages. It holds
/// the messages of the last poll, and 65,540 bytes for a record.
#[derive(Drop)]
pub struct Follower<F> {
    /// The file.
    pub file: F,
    /// The records that were read, and the messages of the last poll.
    pub records: RecordFollower,
}

impl<F> Model for Follower<F> {
    ghost use Rattle.mold_durable.specs.Follower.{FollowerState, follower_of};

    ghost Value = { FollowerState F };

    ghost view = { λ f. follower_of f.file f.records };
}

impl<F: GrowingFile + Drop> Follower<F> {
    /// Starts to follow the journal in a file. It reads the head, and no message. `max_message` is the largest length
    /// of a message, in bytes. Possible errors are `Short`, `BadMagic`, `Read`, and `Memory` if an allocation failed.
    pub fn open(alloc: Global, max_message: u16, file: F) -> Result<Follower<F>, OpenError>
        ensures follows { (writer : Writer) (bytes : ℕ → List ℕ) → F.history file bytes → Writes writer bytes →
            IfOk result (λ follower. Follows F.history F.synced writer bytes follower []) }
        ensures accepted { (writer : Writer) (bytes : ℕ → List ℕ) → F.history file bytes → Writes writer bytes →
            IfErr result IsOfDevice }
        ensures fresh { IfOk result (λ follower. follower ≡ record {
          file = follower.file;
          session = follower.session;
          max_message = max_message;
          count = 0;
          end = 18;
          closed = false;
          news = [];
        }) }
        ensures refused { (bytes : List ℕ) → F.history file (λ moment. bytes) →
            IfErr result (λ error. IsOfDevice error ⊎ HeadFault bytes error) }
        ensures passes { IfOk result (λ follower. Passes F.history F.moment F.synced file follower.file) }
        ensures failures { IfOk result (λ follower. F.failed follower.file ≡ F.failed file) }
    {
        let mut file = file;
        let records = RecordFollower::open(alloc, max_message, &mut file)?;
        Ok(Follower { file, records })
    }
}

impl<F> Follower<F> {
    /// Returns the session that the messages belong to.
    pub fn session(&self) -> Session
        ensures { result ≡ self.now.session }
    {
        self.records.session()
    }

    /// Returns the largest length of a message, in bytes.
    pub fn max_message(&self) -> u16
        ensures { result ≡ self.now.max_message }
    {
        self.records.max_message()
    }

    /// Returns the sequence number of the next message: one more than the number of messages that were returned.
    pub fn next(&self) -> u64
        ensures { result ≡ self.now.count + 1 }
    {
        self.records.next()
    }

    /// Returns true if the closing record was read, and is durable.
    pub fn is_closed(&self) -> bool
        ensures { result ≡ self.now.closed }
    {
        self.records.is_closed()
    }

    /// Returns the messages that the last poll gained, in order. After an error, there are none.
    pub fn news(&self) -> &MessageList
        ensures { result.now.messages ≡ self.now.news }
    {
        self.records.news()
    }
}

impl<F: GrowingFile> Follower<F> {
    /// Reads new records, and then syncs. It counts only the messages that it had read before that sync, so they are
    /// durable. `news` returns them.
    ///
    /// `Ok(true)` means that it stopped after `LOOK_BYTES` bytes, and the file may have more. `Ok(false)` means that it
    /// has everything that the file had when the call began. After an error nothing is gained, and the next call reads
    /// the same records again.
    ///
    /// A small record takes one read, or two if the gate before it was shut in the last read. A message of more than
    /// 508 bytes takes one read more. `Read` means that a read failed, `Write` that the sync failed. If no message of
    /// the writer is longer than `max_message`, only a failed call and a failed allocation are errors.
    pub fn poll(&mut self) -> Result<bool, OpenError>
        ensures gained { (writer : Writer) (bytes : ℕ → List ℕ) (told : List (List ℕ)) → Writes writer bytes →
            Follows F.history F.synced writer bytes self.old told →
            Follows F.history F.synced writer bytes self.new (told ++ self.new.news) }
        ensures nothing { (writer : Writer) (bytes : ℕ → List ℕ) (told : List (List ℕ)) → Writes writer bytes →
            Follows F.history F.synced writer bytes self.old told → IfOk result (λ more. more ≡ false →
            HasAll writer (told ++ self.new.news) self.new.closed (F.moment self.old.file)) }
        ensures more { IfOk result (λ more. more ≡ true →
            (0 < length self.new.news) × (self.new.closed ≡ false)) }
        ensures same { OnErr result (self.new ≡ record self.old { file = self.new.file; news = [] }) }
        ensures kept { self.new ≡ record self.old {
          file = self.new.file;
          count = self.new.count;
          end = self.new.end;
          closed = self.new.closed;
          news = self.new.news;
        } }
        ensures accepted { (writer : Writer) (bytes : ℕ → List ℕ) (told : List (List ℕ)) → Writes writer bytes →
            AllWithin self.old.max_message writer → Follows F.history F.synced writer bytes self.old told →
            IfErr result IsOfDevice }
        ensures bounded { length (records self.new.news) < LOOK_BYTES + LONGEST_RECORD }
        ensures passes { Passes F.history F.moment F.synced self.old.file self.new.file }
        ensures cause { CountsOpen (F.failed self.old.file) (F.failed self.new.file) result }
    {
        self.records.poll(&mut self.file)
    }
}
