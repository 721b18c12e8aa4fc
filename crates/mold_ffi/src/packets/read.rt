//! The calls that decode datagrams and write where the messages are.

ghost use Rattle.std.specs.Prelude.{◌≡◌};
ghost use Rattle.mold_ffi.specs.Packets.MoldPacket.{code_read, packet_read};
ghost use Rattle.mold_ffi.specs.Packets.MoldPlace.{places_read};
ghost use Rattle.mold_wire.specs.Reading.{reading};

use crate::code::DONE;
use crate::packets::mold_packet::MoldPacket;
use crate::packets::mold_place::{MoldPlace, put_places};
use mold_wire::laws::spelling_length_law;
use mold_wire::{Body, decode};

/// Decodes a datagram in one pass. With code 0, all fields of `packet` are written, and `detail` is 0. With codes 1, 2
/// and 3, only `packet.detail` is written: the number that goes with the fault.
#[unsafe(no_mangle)]
pub extern "C" fn mold_decode(bytes: &[u8], packet: &mut MoldPacket) -> u32
    ensures code { result ≡ code_read (reading bytes.now) }
    ensures packet { packet.new ≡ packet_read (reading bytes.now) packet.old }
{
    match decode(bytes) {
        Ok(read) => {
            packet.write(&read);
            DONE
        }
        Err(error) => packet.refuse(error),
    }
}

/// Decodes a datagram as `mold_decode` does, and writes the places of its messages, in order and as many as the array
/// has room for. The other elements of the array are unchanged. After a fault the whole array is unchanged.
#[unsafe(no_mangle)]
#[tactic(auto, using(crate::proofs::PlaceLemmas::no_places))]
pub extern "C" fn mold_read(bytes: &[u8], packet: &mut MoldPacket, places: &mut [MoldPlace]) -> u32
    ensures code { result ≡ code_read (reading bytes.now) }
    ensures packet { packet.new ≡ packet_read (reading bytes.now) packet.old }
    ensures places { places.new ≡ places_read (reading bytes.now) places.old }
{
    match decode(bytes) {
        Ok(read) => {
            packet.write(&read);
            match &read.body {
                Body::Data(blocks) => {
                    spelling_length_law();
                    put_places(blocks, places);
                }
                Body::Heartbeat | Body::End => {}
            }
            DONE
        }
        Err(error) => packet.refuse(error),
    }
}
