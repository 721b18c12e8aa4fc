//! Where the messages of a packet are in its bytes.

ghost use Rattle.std.specs.Prelude.{◌≡◌, ◌<◌, ◌^◌};
ghost use Rattle.mold_ffi.specs.Packets.MoldPlace.{places_of, written_front};
ghost use Rattle.mold_wire.specs.Packing.{packet_length};
ghost use Rattle.mold_wire.specs.declared.header.TheConstants.{HEADER_LENGTH};

use mold_wire::{Blocks, HEADER_LENGTH, LENGTH_BYTES};

/// Where a message is in a datagram, in bytes.
#[repr(C)]
#[derive(Clone, Copy)]
pub struct MoldPlace {
    /// The offset of its first byte.
    pub offset: usize,
    /// Its length.
    pub length: usize,
}

/// Writes the places of the messages, as many as the array has room for.
pub(crate) fn put_places(blocks: &Blocks<'_>, places: &mut [MoldPlace])
    requires { packet_length blocks.now < 2 ^ 63 }
    ensures { places.new ≡ written_front (places_of HEADER_LENGTH blocks.now) places.old }
{
    let mut at = HEADER_LENGTH;
    let mut filled = 0;
    for message in blocks.iter() {
        if filled == places.len() {
            return;
        }
        at += LENGTH_BYTES;
        places[filled] = MoldPlace {
            offset: at,
            length: message.len(),
        };
        at += message.len();
        filled += 1;
    }
}
