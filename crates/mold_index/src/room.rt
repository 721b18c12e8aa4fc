//! Which messages an index takes without a check.

ghost use Rattle.std.specs.Prelude.{◌≡◌, ◌<◌, true, false, [], List};
ghost use Rattle.mold_index.specs.Adding.{IsRoom, has_room};
ghost use Rattle.mold_index.specs.declared.entry.Entry.{Entry};

use crate::entries::{STRIDE_BYTES, STRIDE_MESSAGES};
use crate::entry::Entry;
use crate::index::MAX_END;
use mold_session::MAX_MESSAGES;

/// The most bytes that a message can take in a file, by the types of its length and of a layout.
pub const MOST_BYTES: u64 = 131_070;

/// A message that follows fewer than `count` messages and begins before offset `end` needs no entry, and the file is not
/// full.
#[derive(Clone, Copy)]
pub struct Room {
    /// The number of messages, of which fewer have to precede the message.
    pub count: u64,
    /// The offset in the file, in bytes, before which the message has to begin.
    pub end: u64,
}

impl Room {
    /// Returns the room that takes no message.
    pub fn none() -> Room
        ensures { (entries : List Entry) → IsRoom entries result }
    {
        Room { count: 0, end: 0 }
    }

    /// Returns whether a message is taken that follows `count` messages and begins at offset `end`.
    pub fn has(&self, count: u64, end: u64) -> bool
        ensures { result ≡ has_room self.now count end }
    {
        count < self.count && end < self.end
    }
}

/// Returns the room after the last entry.
pub(crate) fn room_after(entries: &[Entry]) -> Room
    ensures { IsRoom entries.now result }
{
    match entries.last() {
        Some(last) => Room {
            count: last
                .number
                .saturating_add(STRIDE_MESSAGES - 1)
                .min(MAX_MESSAGES),
            end: last
                .offset
                .saturating_add(STRIDE_BYTES)
                .min(MAX_END - MOST_BYTES),
        },
        None => Room::none(),
    }
}
