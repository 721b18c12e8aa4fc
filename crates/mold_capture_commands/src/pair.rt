//! The pair that a datagram belongs to.

ghost use Rattle.std.specs.Prelude.{◌≡◌};
ghost use Rattle.mold_capture_commands.specs.Pairs.{pair_of, session_read};
ghost use Rattle.mold_frame.specs.Addresses.{IsAddress};
ghost use Rattle.mold_frame.specs.Lent.{lent_datagram};
ghost use Rattle.mold_wire.specs.Reading.{reading};

use mold_frame::{Datagram, IpAddress};
use mold_wire::{DecodeError, Packet, Session};

/// A destination and a session. The session is `None` for datagrams that do not encode a packet.
#[derive(Clone, Copy, Debug, PartialEq, Eq, Hash)]
pub(crate) struct Pair {
    pub(crate) target: IpAddress,
    pub(crate) port: u16,
    pub(crate) session: Option<Session>,
}

impl Pair {
    /// Returns the pair of a datagram, whose payload was decoded to this.
    pub(crate) fn new(datagram: &Datagram<'_>, read: &Result<Packet<'_>, DecodeError>) -> Pair
        requires address { IsAddress datagram.now.target.now }
        requires read { read.now ≡ reading datagram.now.payload.now }
        ensures { result ≡ pair_of (lent_datagram datagram.now) }
    {
        Pair {
            target: IpAddress::from_bytes(datagram.target),
            port: datagram.target_port,
            session: session_of(read),
        }
    }
}

fn session_of(read: &Result<Packet<'_>, DecodeError>) -> Option<Session>
    ensures { result ≡ session_read read.now }
{
    match read {
        Ok(packet) => Some(packet.session),
        Err(_) => None,
    }
}
