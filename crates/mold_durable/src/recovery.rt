//! Reads a journal's storage when the journal is opened. It writes nothing.

ghost use Rattle.std.specs.Prelude.{◌≡◌, ◌⊎◌, ◌+◌, ◌<◌, ◌≤◌, ◌^◌, false, ℕ, List, length, take, IfOk, IfErr};
ghost use Rattle.mold_wire.specs.declared.limits.TheConstants.{MAX_NUMBER};
ghost use Rattle.mold_session.specs.Journal.{fresh_journal};
ghost use Rattle.mold_session.specs.Records.{head_3};
ghost use Rattle.mold_durable.specs.MessageTaker.{HasTaken, HoldsOpen, continued};
ghost use Rattle.mold_durable.specs.Reading.{CountsOpen, HasReadAll, HeadFault, IsOfDevice, IsRecordsError, OpenFault};
ghost use Rattle.mold_durable.specs.Reading.{ReadsPiece};
ghost use Rattle.mold_durable.specs.Storage.{IsWithin, OnlyReads};

use crate::error::OpenError;
use crate::head::{HEAD_LENGTH, split_head};
use crate::message_taker::MessageTaker;
use crate::records::{Skipped, skip_records};
use crate::storage::Storage;
use mold_wire::Session;
use std::alloc::Global;

/// The number of bytes that one read asks for. The longest record has 65,539.
const PIECE: usize = 1 << 17;

/// What the storage of a journal has.
#[derive(Drop)]
pub struct Recovered<T> {
    /// The session that the messages belong to.
    pub session: Session,
    /// Its records.
    pub records: Records,
    /// The taker of the messages.
    pub taker: T,
}

/// The records of a journal.
#[derive(Clone, Copy)]
pub struct Records {
    /// The number of messages.
    pub count: u64,
    /// The offset of the shut gate, or of the last byte of the closing record.
    pub end: u64,
    /// Whether the session is closed.
    pub closed: bool,
}

// Reads the head.
fn read_head<S: Storage>(storage: &mut S) -> Result<Session, OpenError>
    ensures read { OnlyReads S.shows S.may_leave S.moment S.left_since storage.old storage.new }
    ensures named { IfOk result (λ session. length session.0 ≡ 10) }
    ensures head { IfOk result (λ session. (bytes : List ℕ) → S.shows storage.old bytes →
        take 18 bytes ≡ head_3 session.0) }
    ensures refused { IfErr result (λ error. (error ≡ OpenError.Read) ⊎ ((bytes : List ℕ) → S.shows storage.old bytes →
        HeadFault bytes error)) }
    ensures failures { CountsOpen (S.failed storage.old) (S.failed storage.new) result }
{
    let mut head = [0; HEAD_LENGTH];
    match storage.read_at(0, &mut head) {
        Ok(count) => split_head(&head[..count]),
        Err(_) => Err(OpenError::Read),
    }
}

// Reads a piece after the records that were read, and passes the messages of the whole records in it to the taker.
fn read_piece<S: Storage, T: MessageTaker>(
    storage: &mut S,
    buffer: &mut [u8],
    most: u16,
    read: Records,
    taker: &mut T,
) -> Result<Skipped, OpenError>
    requires few { read.count < MAX_NUMBER }
    requires is_open { HoldsOpen T.holds most read.count taker.old }
    ensures read { OnlyReads S.shows S.may_leave S.moment S.left_since storage.old storage.new }
    ensures found { IfOk result (ReadsPiece (S.shows storage.old) (HasTaken T.holds false taker.old taker.new) most
        read.count read.end (length buffer.new)) }
    ensures refused { IfErr result IsOfDevice }
    ensures failures { CountsOpen (S.failed storage.old) (S.failed storage.new) result }
{
    match storage.read_at(read.end, buffer) {
        Ok(count) => match skip_records(most, read.count, &buffer[..count], taker) {
            Ok(skipped) => Ok(skipped),
            Err(_) => Err(OpenError::Memory),
        },
        Err(_) => Err(OpenError::Read),
    }
}

// Reads all records, and passes the messages and the end of a closed session to the taker. An invalid record is refused
// only at the start of a piece. There, it is not merely cut off by the end of the piece.
fn read_records<S: Storage, T: MessageTaker>(
    storage: &mut S,
    buffer: &mut [u8],
    most: u16,
    taker: &mut T,
) -> Result<Records, OpenError>
    requires long { 65539 ≤ length buffer.old }
    requires is_open { HoldsOpen T.holds most 0 taker.old }
    ensures read { OnlyReads S.shows S.may_leave S.moment S.left_since storage.old storage.new }
    ensures near { IfOk result (λ found. found.end < 2 ^ 63) }
    ensures found { IfOk result (λ found. HasReadAll (S.shows storage.old)
        (HasTaken T.holds found.closed taker.old taker.new) most found.count found.end found.closed) }
    ensures refused { IfErr result (IsRecordsError most (S.shows storage.old)) }
    ensures failures { CountsOpen (S.failed storage.old) (S.failed storage.new) result }
{
    let mut count = 0;
    let mut end = HEAD_LENGTH as u64;
    'pieces: loop {
        let read = Records {
            count,
            end,
            closed: false,
        };
        let skipped = match read_piece(storage, buffer, most, read, taker) {
            Ok(skipped) => skipped,
            Err(error) => return Err(error),
        };
        count = skipped.count;
        end += skipped.len as u64;
        match skipped.stop {
            Ok(true) => {
                taker.close();
                return Ok(Records {
                    count,
                    end: end + 2,
                    closed: true,
                });
            }
            Ok(false) => {
                return Ok(Records {
                    count,
                    end,
                    closed: false,
                });
            }
            Err(error) => {
                if skipped.len == 0 {
                    return Err(error);
                }
            }
        }
    }
}

/// Reads the storage of a journal whose messages have at most `most` bytes, passes the messages to a taker, and then
/// syncs the storage. So a crash leaves all messages that were read, also if the process that wrote them died before its
/// sync.
pub fn recover<S: Storage, T: MessageTaker>(
    alloc: Global,
    storage: &mut S,
    most: u16,
) -> Result<Recovered<T>, OpenError>
    ensures read { OnlyReads S.shows S.may_leave S.moment S.left_since storage.old storage.new }
    ensures durable { IfOk result (λ _. IsWithin (S.shows storage.old) (S.may_leave storage.new)) }
    ensures named { IfOk result (λ found. length found.session.0 ≡ 10) }
    ensures head { IfOk result (λ found. (bytes : List ℕ) → S.shows storage.old bytes →
        take 18 bytes ≡ head_3 found.session.0) }
    ensures near { IfOk result (λ found. found.records.end < 2 ^ 63) }
    ensures found { IfOk result (λ found. HasReadAll (S.shows storage.old)
        (λ messages. T.holds found.taker
        (continued (fresh_journal found.session most) messages found.records.closed))
        most found.records.count found.records.end found.records.closed) }
    ensures refused { IfErr result (λ error. (bytes : List ℕ) → S.shows storage.old bytes →
        OpenFault most bytes error) }
    ensures failures { CountsOpen (S.failed storage.old) (S.failed storage.new) result }
{
    let session = match read_head(storage) {
        Ok(session) => session,
        Err(error) => return Err(error),
    };
    let Ok(mut taker) = T::begin(alloc, session, most) else {
        return Err(OpenError::Memory);
    };
    let Ok(mut buffer) = vec![in alloc; 0; PIECE] else {
        return Err(OpenError::Memory);
    };
    let records = match read_records(storage, &mut buffer, most, &mut taker) {
        Ok(records) => records,
        Err(error) => return Err(error),
    };
    match storage.sync() {
        Ok(()) => Ok(Recovered {
            session,
            records,
            taker,
        }),
        Err(_) => Err(OpenError::Write),
    }
}
