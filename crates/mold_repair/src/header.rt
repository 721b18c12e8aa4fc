//! The numbers of an accepted datagram's messages, from its header alone.

ghost use Rattle.std.specs.Prelude.{◌≡◌};
ghost use Rattle.mold_receiver.specs.Receive.{top_read};
ghost use Rattle.mold_repair.specs.Header.{IsRead, head};
ghost use Rattle.mold_wire.specs.Reading.{reading};

use byteorder::{BigEndian, ByteOrder};
use mold_wire::SESSION_LENGTH;

/// The numbers of a packet's messages.
#[derive(Clone, Copy)]
pub(crate) struct Head {
    /// The number of the first message, or of the next one if there is no message.
    pub(crate) first: u64,
    /// One more than the number of the last message, or `first` if there is no message.
    pub(crate) end: u64,
}

/// Returns the number in the header of a datagram that encodes a packet.
#[inline(always)]
pub(crate) fn first_in(datagram: &[u8]) -> u64
    requires { IsRead datagram.now }
    ensures { result ≡ (head (reading datagram.now)).first }
{
    let (_, numbers) = datagram.split_at(SESSION_LENGTH);
    BigEndian::read_u64(numbers)
}

/// Returns the head of a datagram that encodes a packet with this top. It reads the header only.
#[inline(always)]
pub(crate) fn head_in(datagram: &[u8], top: u64) -> Head
    requires read { IsRead datagram.now }
    requires top { top ≡ top_read (reading datagram.now) }
    ensures { result ≡ head (reading datagram.now) }
{
    Head {
        first: first_in(datagram),
        end: top,
    }
}
