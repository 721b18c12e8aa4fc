//! The text of each code, under the name of the code, and that of other numbers. A zero byte ends each text. The
//! definitions cite these constants.

pub(crate) const DONE: &[u8] = b"done\0";

pub(crate) const SHORT: &[u8] = b"a packet has at least 20 bytes\0";

pub(crate) const BLOCK_CUT: &[u8] = b"a message block is cut short\0";

pub(crate) const TRAILING: &[u8] = b"bytes follow the end of the packet\0";

pub(crate) const LIMIT: &[u8] = b"a datagram limit is 64 to 65,507 bytes\0";

pub(crate) const FULL: &[u8] = b"the packet has no room for the message\0";

pub(crate) const BROKEN: &[u8] = b"the call cannot use this handle or these fields\0";

pub(crate) const MEMORY: &[u8] = b"out of memory\0";

pub(crate) const WRONG_SESSION: &[u8] = b"another session\0";

pub(crate) const SEQUENCE_ZERO: &[u8] = b"the sequence number is 0\0";

pub(crate) const PAST_LAST: &[u8] = b"a message has a number above 18446744073709551614\0";

pub(crate) const END_CONFLICT: &[u8] = b"the packet states another end of the session\0";

pub(crate) const END_BELOW: &[u8] = b"the packet ends the session below what is known\0";

pub(crate) const PAST_END: &[u8] = b"the packet goes past the end of the session\0";

pub(crate) const CONFLICT: &[u8] = b"a message differs from the one received before\0";

pub(crate) const LINE: &[u8] = b"there is no such line\0";

pub(crate) const NEXT_ZERO: &[u8] = b"a listener cannot begin at sequence number 0\0";

pub(crate) const WINDOW: &[u8] = b"a window is 1 to 1,048,576 messages\0";

pub(crate) const ABSENT: &[u8] = b"there is nothing to return\0";

pub(crate) const CLOSED: &[u8] = b"the session is closed\0";

pub(crate) const TOO_LONG: &[u8] = b"the message is too long\0";

pub(crate) const NUMBERS: &[u8] = b"no sequence number is left for a message\0";

pub(crate) const UNSENT: &[u8] = b"some messages are not yet in a datagram\0";

pub(crate) const ROOM: &[u8] = b"the buffer is too small\0";

pub(crate) const REQUEST_LENGTH: &[u8] = b"a request has 20 bytes\0";

pub(crate) const EMPTY_REQUEST: &[u8] = b"the request is for no message\0";

pub(crate) const AHEAD: &[u8] = b"the request begins above the last message\0";

pub(crate) const BURST: &[u8] = b"a burst is 1 to 64 datagrams\0";

pub(crate) const FILE_SHORT: &[u8] = b"too few bytes for a journal\0";

pub(crate) const BAD_MAGIC: &[u8] = b"not a journal of version 1, 2 or 3\0";

pub(crate) const BAD_FLAG: &[u8] = b"the journal's flag is neither open nor closed\0";

pub(crate) const FILE_CUT: &[u8] = b"the journal ends within a message\0";

pub(crate) const COUNT_DIFFERS: &[u8] =
    b"the journal does not have as many messages as it states\0";

pub(crate) const DAMAGED: &[u8] = b"a record of the journal is damaged\0";

pub(crate) const NOT_MISSING: &[u8] = b"not all messages below the number are missing\0";

pub(crate) const BATCH: &[u8] = b"the batch is not empty\0";

pub(crate) const OPTIONS: &[u8] = b"an option is outside its range\0";

pub(crate) const TIME: &[u8] = b"a time is at most 4611686018427387903 nanoseconds\0";

pub(crate) const UNKNOWN: &[u8] = b"unknown code\0";
