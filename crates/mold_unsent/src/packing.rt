//! Packs messages into a datagram.

ghost use Rattle.mold_wire.specs.Packer.{IsLimit};
ghost use Rattle.mold_session.specs.Packing.{HasPacked};

use mold_messages::MessageIterator;
use mold_wire::laws::{front_law, packet_length_law};
use mold_wire::{Packer, Session};

/// Packs the longest prefix of the first `most` messages that fits into a data packet. Returns the number of
/// its messages. Of the messages after that prefix, only the first is read.
pub fn pack_front(
    packer: &mut Packer,
    session: Session,
    sequence: u64,
    messages: MessageIterator<'_>,
    most: u64,
) -> u64
    requires { IsLimit packer.old.limit }
    ensures { HasPacked packer.old packer.new session sequence messages.entry most result }
{
    front_law();
    packet_length_law();
    packer.start(session, sequence);
    let mut count: u64 = 0;
    for message in messages {
        if count == most || !packer.add(message) {
            break;
        }
        count += 1;
    }
    count
}
