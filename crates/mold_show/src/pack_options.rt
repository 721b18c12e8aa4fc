//! The options of `mold pack`.

ghost use Rattle.mold_wire.specs.Packer.{IsLimit};

use mold_wire::Session;

/// The options of `Pack`: the session, and the limit of its packets.
#[derive(Clone, Copy)]
pub struct PackOptions {
    /// The session's name.
    pub session: Session,
    /// The largest length of a packet, in bytes.
    pub limit: usize,
    ghost limited: { IsLimit limit },
}
