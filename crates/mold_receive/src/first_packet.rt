//! The first packet of a session.

use mold_repair::RepairOrigin;
use mold_wire::Session;

/// The first data packet or heartbeat of a session that arrived.
#[derive(Drop)]
pub struct FirstPacket {
    /// The line on which it arrived, or the server.
    pub origin: RepairOrigin,
    /// Its session.
    pub session: Session,
    /// Its sequence number.
    pub sequence: u64,
    /// Its bytes.
    pub datagram: Vec<u8>,
}
