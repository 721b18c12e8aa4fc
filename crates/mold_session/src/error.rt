//! The errors of this crate.

use mold_devices::ReadFault;
use thiserror::Error;

/// Why a message is not appended or published. If several reasons apply, the first one in this list is
/// returned.
#[derive(Clone, Copy, Debug, PartialEq, Eq, Error)]
pub enum AppendError {
    /// The session is closed.
    #[error("the session is closed")]
    Closed,
    /// The message is longer than the journal's `max_message`. `len` is its length in bytes.
    #[error("a message of {len} bytes is too long")]
    TooLong { len: usize },
    /// The session has `MAX_MESSAGES` messages, so no sequence number remains for another one.
    #[error("the session has no number left for a message")]
    Full,
    /// An allocation failed.
    #[error("out of memory")]
    Memory,
}

/// Why a publisher is not made.
#[derive(Clone, Copy, Debug, PartialEq, Eq, Error)]
pub enum PublisherError {
    /// The limit is outside the range `MIN_LIMIT` to `MAX_LIMIT`. If a journal is resumed, also: the limit is not its
    /// `max_message` plus `MESSAGE_OVERHEAD`.
    #[error("a datagram's limit is 64 to 65,507 bytes")]
    Limit,
    /// The allocation of the datagram's buffer failed.
    #[error("out of memory")]
    Memory,
}

/// Why a publisher is not closed: some messages were not put into a datagram yet.
#[derive(Clone, Copy, Debug, PartialEq, Eq, Error)]
#[error("{count} messages have not been sent yet")]
pub struct Unsent {
    /// The number of those messages, at least 1.
    pub count: u64,
}

/// Why a server is not made. If several reasons apply, the first one in this list is returned.
#[derive(Clone, Copy, Debug, PartialEq, Eq, Error)]
pub enum ServerError {
    /// The limit is outside the range `MIN_LIMIT` to `MAX_LIMIT`, or it is less than `max_message` plus
    /// `MESSAGE_OVERHEAD`.
    #[error("a datagram's limit is 64 to 65,507 bytes, and at least 22 more than the longest message")]
    Limit,
    /// The burst is outside the range 1 to `MAX_BURST` datagrams.
    #[error("the greatest number of datagrams for one request is 1 to 64")]
    Burst,
    /// The allocation of the datagram's buffer failed.
    #[error("out of memory")]
    Memory,
}

/// Why a server refuses a request. If several reasons apply, the first one in this list is returned.
#[derive(Clone, Copy, Debug, PartialEq, Eq, Error)]
pub enum AnswerError {
    /// The bytes don't have the length of a request packet. `len` is their length.
    #[error("a request of {len} bytes, not of 20")]
    RequestLength { len: usize },
    /// The request is for messages of another session.
    #[error("a request of another session")]
    WrongSession,
    /// The requested sequence number is 0. The first message has number 1.
    #[error("a request that begins at number 0")]
    SequenceZero,
    /// The request's message count is 0.
    #[error("a request for no messages")]
    EmptyRequest,
    /// The requested sequence number is greater than that of the journal's last message. `next` is the number
    /// that the journal's next message gets.
    #[error("a request for a message after the last one, which is below {next}")]
    Ahead { next: u64 },
}

/// Why a publisher or a re-request server refused a call.
#[derive(Clone, Copy, Debug, PartialEq, Eq, Error)]
pub enum SessionError {
    /// The message is not published.
    #[error("{0}")]
    Append(AppendError),
    /// The session is not closed.
    #[error("{0}")]
    Close(Unsent),
    /// The server refuses the request.
    #[error("{0}")]
    Answer(AnswerError),
}

/// Why the file of a journal is not loaded, saved or upgraded. A file has at most one fault: the first one in
/// the order of its bytes.
#[derive(Clone, Copy, Debug, PartialEq, Eq, Error)]
pub enum FileError {
    /// The file ends within its head, which has 27 bytes in version 2 and 18 in the others. `len` is the file's
    /// length.
    #[error("{len} bytes are too short for a journal")]
    Short { len: usize },
    /// The first eight bytes are the magic bytes of none of the versions.
    #[error("not a journal of version 1, 2 or 3")]
    BadMagic,
    /// The byte at offset 18 of a file of version 2, which states whether the session is closed, is neither 0
    /// nor 1.
    #[error("the byte {byte} means neither open nor closed")]
    BadFlag { byte: u8 },
    /// Bytes, or in version 3 the record of a message, follow message `MAX_MESSAGES`, the last one that can have a
    /// sequence number.
    #[error("the journal has messages after the greatest number")]
    Full,
    /// A message is longer than the journal's `max_message`. `len` is its length in bytes.
    #[error("a message of {len} bytes is too long")]
    TooLong { len: usize },
    /// The file ends within the block of message `number`.
    #[error("the file ends within message {number}")]
    BlockCut { number: u64 },
    /// A file of version 2 ends after a whole block, but it has `found` messages and states `count`.
    #[error("the file states {count} messages and has {found}")]
    CountDiffers { count: u64, found: u64 },
    /// In a file of version 3, neither a whole record nor a shut gate follows the messages before message `number`.
    #[error("the file is damaged where message {number} has to be")]
    Damaged { number: u64 },
    /// The source failed.
    #[error("the journal can't be read")]
    Read,
    /// The sink failed.
    #[error("the journal can't be written")]
    Write,
    /// An allocation failed.
    #[error("out of memory")]
    Memory,
}

impl From<ReadFault> for FileError {
    ghost use Rattle.std.specs.Prelude.{◌≡◌};
    ghost use Rattle.mold_session.specs.FileFault.{from_read_fault};

    ghost from_gives = { λ cause error. error ≡ from_read_fault cause };

    fn from(cause: ReadFault) -> FileError {
        match cause {
            ReadFault::Read => FileError::Read,
            ReadFault::Memory => FileError::Memory,
        }
    }
}
