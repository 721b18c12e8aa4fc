//! Brings the index of a file up to what another process has written.

ghost use Rattle.std.specs.Prelude.{◌≡◌, ◌+◌, ◌<◌, ◌^◌, ◌++◌, [], ℕ, List, length, IfOk, OnOk};
ghost use Rattle.mold_session.specs.Journal.{JournalState, appended};
ghost use Rattle.mold_durable.specs.Follower.{Follows, follower_of};
ghost use Rattle.mold_durable.specs.Following.{Writer, Writes};
ghost use Rattle.mold_follow.specs.Serving.{CountsFile, Serves, ServesAll, with_messages};
ghost use Rattle.mold_index.specs.Index.{IsIndex};
ghost use Rattle.mold_indexed_file.specs.Shown.{IsInFile, Shows};

use crate::file_error::load_error;
use mold_durable::{Follower, GrowingFile, RecordFollower};
use mold_index::IndexError;
use mold_indexed_file::IndexedFile;
use mold_indexed_file::laws::{growing_file_law, prefix_law};
use mold_messages::MessageList;
use mold_session::{FileError, FileHead, FileVersion, ServedJournal};
use std::alloc::{AllocError, Global};

/// Makes the indexed file of a follower that has returned no message yet, and returns it with the follower's part that
/// has no file. `catch_up` then adds the messages that the file has. This reads nothing.
pub fn index_followed<F: GrowingFile + Drop>(
    alloc: Global,
    follower: Follower<F>,
) -> Result<(IndexedFile<F>, RecordFollower), AllocError>
    ensures serves { (writer : Writer) (bytes : ℕ → List ℕ) → Writes writer bytes →
        Follows F.history F.synced writer bytes follower [] →
        IfOk result (λ made. Serves F.history F.moment F.synced writer bytes made.0 made.1 []) }
    ensures kept { IfOk result (λ made. follower_of made.0.file made.1 ≡ follower) }
{
    growing_file_law();
    let Follower { file, records } = follower;
    let head = FileHead {
        session: records.session(),
        closed: false,
        version: FileVersion::Three,
    };
    let indexed = IndexedFile::new(alloc, file, head, records.max_message())?;
    Ok((indexed, records))
}

// Adds the file's next message, which has `len` bytes. After an error the index is unchanged.
fn push_message<F: GrowingFile>(indexed: &mut IndexedFile<F>, len: usize) -> Result<(), FileError>
    ensures shown { (journal : JournalState) (message : List ℕ) → Shows F.history F.moment indexed.old journal →
        length message ≡ len →
        IsInFile F.history F.moment indexed.old.file indexed.old.version (appended journal message) →
        OnOk result (Shows F.history F.moment indexed.new (appended journal message)) }
    ensures counted { OnOk result (indexed.new.index.count ≡ indexed.old.index.count + 1) }
    ensures index { OnOk result (IsIndex indexed.old.index) }
    ensures kept { indexed.new ≡ record indexed.old { index = indexed.new.index } }
    ensures failures { CountsFile (F.failed indexed.old.file) (F.failed indexed.new.file) result }
{
    if len > usize::from(indexed.max_message()) {
        return Err(FileError::TooLong { len });
    }
    match indexed.push(len as u16) {
        Ok(()) => Ok(()),
        Err(IndexError::Full) => Err(FileError::Full),
        Err(IndexError::Memory) => Err(FileError::Memory),
    }
}

// Adds the file's next messages. After an error, some of them may be added.
fn push_news<F: GrowingFile>(
    indexed: &mut IndexedFile<F>,
    news: &MessageList,
) -> Result<(), FileError>
    ensures shown { (journal : JournalState) → Shows F.history F.moment indexed.old journal →
        IsInFile F.history F.moment indexed.old.file indexed.old.version
        (with_messages (journal.messages ++ news.now.messages) journal) →
        OnOk result (Shows F.history F.moment indexed.new
        (with_messages (journal.messages ++ news.now.messages) journal)) }
    ensures counted { OnOk result (indexed.new.index.count ≡ indexed.old.index.count + length news.now.messages) }
    ensures few { OnOk result (0 < length news.now.messages → indexed.old.index.count < 2 ^ 64) }
    ensures kept { indexed.new ≡ record indexed.old { index = indexed.new.index } }
    ensures failures { CountsFile (F.failed indexed.old.file) (F.failed indexed.new.file) result }
{
    prefix_law();
    for message in news.iter() {
        push_message(indexed, message.len())?;
    }
    Ok(())
}

/// Adds to the index all messages that the file has. The index has those that the follower returned before. Only
/// durable messages are added.
///
/// `Read`, `Write` and `Memory` mean that a read, a sync or an allocation failed, and any other error that the file has
/// that fault. After an error, the index may have some of the new messages.
pub fn catch_up<F: GrowingFile>(
    indexed: &mut IndexedFile<F>,
    follower: &mut RecordFollower,
) -> Result<(), FileError>
    ensures serves { (writer : Writer) (bytes : ℕ → List ℕ) (told : List (List ℕ)) → Writes writer bytes →
        Serves F.history F.moment F.synced writer bytes indexed.old follower.old told →
        OnOk result (ServesAll F.history F.moment F.synced writer bytes indexed.new follower.new told
        (F.moment indexed.old.file)) }
    ensures kept { indexed.new ≡ record indexed.old { file = indexed.new.file; index = indexed.new.index } }
    ensures failures { CountsFile (F.failed indexed.old.file) (F.failed indexed.new.file) result }
    ensures follower { follower.new ≡ record follower.old {
      count = follower.new.count;
      end = follower.new.end;
      closed = follower.new.closed;
      news = follower.new.news;
    } }
{
    growing_file_law();
    'looks: loop {
        let more = match indexed.poll(follower) {
            Ok(more) => more,
            Err(error) => return Err(load_error(error)),
        };
        push_news(indexed, follower.news())?;
        if !more {
            return Ok(());
        }
    }
}
