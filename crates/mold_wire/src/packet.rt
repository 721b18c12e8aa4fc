//! The type of a downstream packet.

ghost use Rattle.std.specs.Prelude.{◌<◌, ◌^◌};
ghost use Rattle.std.specs.Option.{SomeIff};

use crate::blocks::Blocks;
use crate::session::Session;

/// A downstream packet that borrows the datagram from which it was read.
#[derive(Clone, Debug, PartialEq, Eq, Drop)]
pub struct Packet<'a> {
    /// The session that the packet belongs to.
    pub session: Session,
    /// The sequence number of the packet's first message. In a heartbeat, it is the next sequence number to
    /// expect. In an end packet, it is one more than the number of messages of the session, a choice of this
    /// project. The codec accepts 0 like any other number.
    pub sequence: u64,
    /// What the packet carries, as its message count states.
    pub body: Body<'a>,
}

/// What a downstream packet carries.
#[derive(Clone, Debug, PartialEq, Eq, Drop)]
pub enum Body<'a> {
    /// A data packet with 1 to 65,534 messages.
    Data(Blocks<'a>),
    /// A heartbeat: message count 0, no messages.
    Heartbeat,
    /// An end packet: message count `END_OF_SESSION`, no messages.
    End,
}

impl Packet<'_> {
    ghost use Rattle.mold_wire.specs.Packet.{top_of};

    /// Returns the packet's top: one more than the sequence number of its last message, or the sequence number of a
    /// heartbeat or an end packet. Returns `None` exactly when the top is above `MAX_NUMBER`.
    pub fn top(&self) -> Option<u64>
        ensures { SomeIff result (top_of self.now < 2 ^ 64) (top_of self.now) }
    {
        let messages = match &self.body {
            Body::Data(blocks) => blocks.len(),
            Body::Heartbeat | Body::End => 0,
        };
        self.sequence.checked_add(u64::from(messages))
    }
}
