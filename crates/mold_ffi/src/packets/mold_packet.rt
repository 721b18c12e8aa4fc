//! A packet's header as the fields of a struct.

ghost use Rattle.std.specs.Prelude.{◌≡◌, Ok, Err};
ghost use Rattle.mold_ffi.specs.Packets.MoldPacket.{code_read, packet_read};

use crate::code::decode_error::code_of_decode_error;
use mold_wire::{Body, DecodeError, Packet};

// The kinds of packets.
const DATA: u32 = 0;

const HEARTBEAT: u32 = 1;

const END: u32 = 2;

/// The header of a packet, or the fault of bytes that do not encode a packet.
#[repr(C)]
#[derive(Clone, Copy)]
pub struct MoldPacket {
    /// The number of the packet's first message. Of a heartbeat it is that of the next message, and of an end packet
    /// one more than the number of messages of the session.
    pub sequence: u64,
    /// The number that goes with the fault: the datagram's length, the index of the block that is cut short, or the
    /// offset at which the packet ends. 0 without a fault.
    pub detail: u64,
    /// 0 for data, 1 for a heartbeat, 2 for an end packet.
    pub kind: u32,
    /// The number of messages; 0 for a heartbeat and for an end packet.
    pub count: u16,
    /// The session that the packet belongs to.
    pub session: [u8; 10],
}

impl MoldPacket {
    /// Writes all fields of a packet.
    pub(crate) fn write(&mut self, read: &Packet<'_>)
        ensures { self.new ≡ packet_read (Ok read.now) self.old }
    {
        let (kind, count) = match &read.body {
            Body::Data(blocks) => (DATA, blocks.len()),
            Body::Heartbeat => (HEARTBEAT, 0),
            Body::End => (END, 0),
        };
        *self = MoldPacket {
            sequence: read.sequence,
            detail: 0,
            kind,
            count,
            session: read.session.0,
        };
    }

    /// Writes the number of a fault, and returns its code.
    pub(crate) fn refuse(&mut self, error: DecodeError) -> u32
        ensures code { result ≡ code_read (Err error) }
        ensures packet { self.new ≡ packet_read (Err error) self.old }
    {
        let (code, detail) = code_of_decode_error(error);
        self.detail = detail;
        code
    }
}
