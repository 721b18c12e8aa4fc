//! Makes a publisher that continues the session of a journal file of version 3.

ghost use Rattle.std.specs.Prelude.{◌≡◌, ◌↔◌, ◌+◌, ◌<◌, ◌≤◌, ◌^◌, length, take, IfSome, IsTrue};
ghost use Rattle.mold_ffi.specs.Publisher.Resuming.{IsResumed, end_offset};
ghost use Rattle.mold_session.specs.Records.{magic_3, records};
ghost use Rattle.mold_wire.specs.Packer.{IsLimit};

use crate::publisher::exchange::Exchange;
use crate::publisher::records::{HEAD_LENGTH, MAGIC_LENGTH, magic};
use mold_session::{Journal, Publisher, RECORD_HEAD, SliceSource};
use mold_wire::{LENGTH_BYTES, MESSAGE_OVERHEAD};
use std::alloc::Global;

/// The length of the head of a file of version 2.
const SAVED_HEAD: usize = 27;

/// Whether the bytes begin with the magic bytes of version 3.
pub(crate) fn is_third(bytes: &[u8]) -> bool
    requires { 8 ≤ length bytes.now }
    ensures { IsTrue result ↔ (take 8 bytes.now ≡ magic_3) }
{
    let (start, _) = bytes.split_at(MAGIC_LENGTH);
    start == magic().as_slice()
}

/// The publisher of the journal in a file of version 3, whose messages have at most 22 bytes less than the limit.
/// `None` if the bytes are not such a file, or an allocation failed.
pub(crate) fn resumed(alloc: Global, limit: usize, bytes: &[u8]) -> Option<Exchange>
    requires limit { IsLimit limit }
    requires third { take 8 bytes.now ≡ magic_3 }
    ensures { IfSome result (λ exchange. IsResumed limit bytes.now exchange) }
{
    let longest = (limit - MESSAGE_OVERHEAD) as u16;
    let Ok(journal) = Journal::load(alloc, longest, &mut SliceSource::new(bytes)) else {
        return None;
    };
    match Publisher::resume(alloc, journal, limit) {
        Ok(publisher) => Some(Exchange {
            publisher,
            server: None,
        }),
        Err(_) => None,
    }
}

/// The offset in a file of version 3 at which the records of the journal end, in constant time.
// A record takes two bytes more than the block that a file of version 2 has for its message.
pub(crate) fn end_of(journal: &Journal) -> u64
    requires { end_offset journal.now.messages < 2 ^ 64 }
    ensures { result ≡ end_offset journal.now.messages }
{
    let blocks = (journal.file_length() - SAVED_HEAD) as u64;
    let more = (RECORD_HEAD - LENGTH_BYTES) as u64;
    HEAD_LENGTH as u64 + blocks + more * (journal.next() - 1)
}
