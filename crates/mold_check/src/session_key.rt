//! The session that a datagram belongs to.

ghost use Rattle.std.specs.Prelude.{◌≡◌};
ghost use Rattle.mold_check.specs.EachCheck.{key_of};

use mold_wire::{Session, decode};

/// The session that a datagram belongs to. It is `None` for bytes that do not encode a packet.
#[derive(Clone, Copy, Debug, PartialEq, Eq, Hash)]
pub struct SessionKey {
    /// The name of the session.
    pub session: Option<Session>,
}

/// Returns the session of a datagram.
pub(crate) fn session_key(bytes: &[u8]) -> SessionKey
    ensures { result ≡ key_of bytes.now }
{
    match decode(bytes) {
        Ok(packet) => SessionKey {
            session: Some(packet.session),
        },
        Err(_) => SessionKey { session: None },
    }
}
