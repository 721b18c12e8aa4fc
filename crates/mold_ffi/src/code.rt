//! The codes that calls return. The meaning of a code never changes.

pub(crate) mod answer_error;
pub(crate) mod append_error;
pub(crate) mod decode_error;
pub(crate) mod file_error;
pub(crate) mod refusal;
mod text;
mod texts;

/// The call succeeded.
pub const DONE: u32 = 0;
/// A datagram of fewer than 20 bytes.
pub const SHORT: u32 = 1;
/// A message block that is cut short.
pub const BLOCK_CUT: u32 = 2;
/// Bytes after the end of the packet.
pub const TRAILING: u32 = 3;
/// A datagram limit outside 64 to 65,507 bytes.
pub const LIMIT: u32 = 4;
/// The packet has no room for the message.
pub const FULL: u32 = 5;
/// A handle that the call cannot use. It is empty or of another kind; or it is not empty, and the call would fill it;
/// or it holds a publisher that already has a server. Also invalid fields of a packer or of a plan.
pub const BROKEN: u32 = 6;
/// Out of memory.
pub const MEMORY: u32 = 7;
/// A packet or a request of another session.
pub const WRONG_SESSION: u32 = 8;
/// The sequence number 0.
pub const SEQUENCE_ZERO: u32 = 9;
/// A message with a number above 18446744073709551614, the greatest that a message may have.
pub const PAST_LAST: u32 = 10;
/// An end of the session other than the known one.
pub const END_CONFLICT: u32 = 11;
/// An end of the session below the greatest known top.
pub const END_BELOW: u32 = 12;
/// A data packet or heartbeat whose top is above the known end.
pub const PAST_END: u32 = 13;
/// A message that differs from the one received before.
pub const CONFLICT: u32 = 14;
/// A number that does not name a line.
pub const LINE: u32 = 15;
/// A listener that begins at sequence number 0.
pub const NEXT_ZERO: u32 = 16;
/// A window outside 1 to 1,048,576 messages.
pub const WINDOW: u32 = 17;
/// There is nothing to return: no such message, or no datagram to send.
pub const ABSENT: u32 = 18;
/// The session is closed.
pub const CLOSED: u32 = 19;
/// A message that is too long.
pub const TOO_LONG: u32 = 20;
/// No sequence number is left for a message.
pub const NUMBERS: u32 = 21;
/// Messages that are not yet in a datagram.
pub const UNSENT: u32 = 22;
/// A buffer that is too small.
pub const ROOM: u32 = 23;
/// A request whose length is not 20 bytes.
pub const REQUEST_LENGTH: u32 = 24;
/// A request for no message.
pub const EMPTY_REQUEST: u32 = 25;
/// A request that begins above the last message.
pub const AHEAD: u32 = 26;
/// A burst outside 1 to 64 datagrams.
pub const BURST: u32 = 27;
/// A file that ends in its head.
pub const FILE_SHORT: u32 = 28;
/// A file that is not a journal of version 1, 2 or 3.
pub const BAD_MAGIC: u32 = 29;
/// A flag in the file's head that is neither open nor closed.
pub const BAD_FLAG: u32 = 30;
/// A file that ends within a message.
pub const FILE_CUT: u32 = 31;
/// A number of messages other than the one that the file's head states.
pub const COUNT_DIFFERS: u32 = 32;
/// A file of version 3 with neither a whole record nor a shut gate where one has to be.
pub const DAMAGED: u32 = 33;
/// A number up to which not all messages are missing.
pub const NOT_MISSING: u32 = 34;
/// A batch that is not empty.
pub const BATCH: u32 = 35;
/// An option outside its range.
pub const OPTIONS: u32 = 36;
/// A time of 2^62 nanoseconds or more.
pub const TIME: u32 = 37;
