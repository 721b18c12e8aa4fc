//! What was received from a datagram whose messages are not copied.

use crate::taken::Taken;
use mold_wire::Messages;

/// What a receiver did with a datagram that it accepted, and the datagram's own messages that are delivered.
#[derive(Clone, Drop)]
pub struct Heard<'a> {
    /// The counts. `handed` counts the own messages and those of the batch.
    pub taken: Taken,
    /// The delivered messages of the datagram. They are not copied, and their blocks are the datagram's last bytes. The
    /// stored messages that follow them are in the batch.
    pub own: Messages<'a>,
}

/// The same, and the packet's top.
#[derive(Drop)]
pub(crate) struct HeardPacket<'a> {
    pub taken: Taken,
    pub own: Messages<'a>,
    pub top: u64,
}
