//! The header of downstream packets and requests: reading and writing it.

ghost use Rattle.std.specs.Prelude.{◌≡◌, ◌≤◌, ◌<◌, length, drop, MatchOption};
ghost use Rattle.mold_wire.specs.Header.{IsHeaderAndRest, recounted};
ghost use Rattle.mold_wire.specs.declared.header.TheConstants.{HEADER_LENGTH};

use crate::session::{SESSION_LENGTH, Session};
use byteorder::{BigEndian, ByteOrder};

// The sizes in bytes of the sequence number and of the message count.
const SEQUENCE_LENGTH: usize = 8;

const COUNT_LENGTH: usize = 2;

// The offset of the message count in a header.
const COUNT_AT: usize = SESSION_LENGTH + SEQUENCE_LENGTH;

/// The size of a header in bytes. A request consists of a header only.
pub const HEADER_LENGTH: usize = COUNT_AT + COUNT_LENGTH;

/// The message count of a heartbeat.
pub(crate) const HEARTBEAT: u16 = 0;

/// The message count of an end packet. An end packet has no messages.
pub const END_OF_SESSION: u16 = 65535;

/// The session, the sequence number and the message count. In a request, they state which messages are
/// requested.
#[derive(Clone, Copy)]
pub(crate) struct Header {
    pub(crate) session: Session,
    pub(crate) sequence: u64,
    pub(crate) count: u16,
}

impl Header {
    // Returns the header at the start of `bytes` and the bytes after it, or `None` if `bytes` is shorter than
    // a header.
    pub(crate) fn split(bytes: &[u8]) -> Option<(Header, &[u8])>
        ensures { MatchOption result (length bytes.now < HEADER_LENGTH)
            (λ found. IsHeaderAndRest found.0 bytes.now found.1.now) }
    {
        if bytes.len() < HEADER_LENGTH {
            return None;
        }
        let (name, numbers) = bytes.split_at(SESSION_LENGTH);
        let (sequence, behind) = numbers.split_at(SEQUENCE_LENGTH);
        let (count, rest) = behind.split_at(COUNT_LENGTH);
        let mut session = Session([0; SESSION_LENGTH]);
        session.0.copy_from_slice(name);
        let header = Header {
            session,
            sequence: BigEndian::read_u64(sequence),
            count: BigEndian::read_u16(count),
        };
        Some((header, rest))
    }

    // Writes the header at the start of `out` and leaves the bytes after it unchanged.
    pub(crate) fn put(self, out: &mut [u8])
        requires { HEADER_LENGTH ≤ length out.old }
        ensures { IsHeaderAndRest self out.new (drop HEADER_LENGTH out.old) }
    {
        let (name, numbers) = out.split_at_mut(SESSION_LENGTH);
        let (sequence, count) = numbers.split_at_mut(SEQUENCE_LENGTH);
        name.copy_from_slice(&self.session.0);
        BigEndian::write_u64(sequence, self.sequence);
        BigEndian::write_u16(count, self.count);
    }
}

// Overwrites the message count of the header at the start of `packet` and leaves the other bytes unchanged.
pub(crate) fn put_count(packet: &mut [u8], count: u16)
    requires { HEADER_LENGTH ≤ length packet.old }
    ensures { packet.new ≡ recounted count packet.old }
{
    let (_, behind) = packet.split_at_mut(COUNT_AT);
    BigEndian::write_u16(behind, count);
}
