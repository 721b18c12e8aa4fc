//! The decoder of downstream packets.

ghost use Rattle.std.specs.Prelude.{◌≡◌, ◌<◌, IfErr, IfOk, IfSome, Ok};
ghost use Rattle.mold_wire.specs.Block.{AreBlocks, messages_at};
ghost use Rattle.mold_wire.specs.Fault.{FaultAt};
ghost use Rattle.mold_wire.specs.Packet.{Spells, stated_blocks, BodyIs};
ghost use Rattle.mold_wire.specs.Reading.{reading};
ghost use Rattle.mold_wire.specs.declared.error.DecodeError.{DecodeError};
ghost use Rattle.mold_wire.specs.declared.header.TheConstants.{END_OF_SESSION};
ghost use Rattle.mold_wire.specs.declared.packet.Packet.{Packet};

use crate::block::skip_blocks;
use crate::blocks::Blocks;
use crate::error::DecodeError;
use crate::header::{END_OF_SESSION, HEARTBEAT, Header};
use crate::packet::{Body, Packet};
use crate::session::Session;

// Returns how many blocks follow a header with this message count.
fn stated(count: u16) -> u16
    ensures { result ≡ stated_blocks count }
{
    if count == END_OF_SESSION { 0 } else { count }
}

// Returns the body of a packet with this message count and these blocks.
fn body_from(count: u16, blocks: &[u8]) -> Body<'_>
    requires { AreBlocks (stated_blocks count) blocks.now }
    ensures { BodyIs count (messages_at (stated_blocks count) blocks.entry.now) result }
{
    match count {
        HEARTBEAT => Body::Heartbeat,
        END_OF_SESSION => Body::End,
        _ => Body::Data(Blocks::new(count, blocks)),
    }
}

fn read_packet(bytes: &[u8]) -> Result<Packet<'_>, DecodeError>
    ensures spelled { IfOk result (λ packet. Spells packet bytes.now) }
    ensures fault { IfErr result (λ error. FaultAt error bytes.now) }
{
    let Some((header, behind)) = Header::split(bytes) else {
        return Err(DecodeError::Short { len: bytes.len() });
    };
    let more = match skip_blocks(stated(header.count), behind) {
        Ok(more) => more,
        Err(index) => return Err(DecodeError::BlockCut { index }),
    };
    if !more.is_empty() {
        let at = bytes.len() - more.len();
        return Err(DecodeError::Trailing { at });
    }
    Ok(Packet {
        session: header.session,
        sequence: header.sequence,
        body: body_from(header.count, behind),
    })
}

/// Decodes the packet that bytes of any length encode, in one pass, without a copy or an allocation. Bytes after the
/// last stated block, or after the header of a heartbeat or an end packet, are a fault.
pub fn decode(bytes: &[u8]) -> Result<Packet<'_>, DecodeError>
    // The bytes encode the packet that is returned, or they have the fault that is returned.
    ensures spelled { IfOk result (λ packet. Spells packet bytes.now) }
    ensures fault { IfErr result (λ error. FaultAt error bytes.now) }

    // If the bytes encode a packet, that packet is returned. If they have a fault, that fault is returned.
    ensures only { (packet : Packet) → Spells packet bytes.now → result ≡ Ok packet }
    ensures refused { (error : DecodeError) → FaultAt error bytes.now → result ≡ Err error }
    ensures exact { result ≡ reading bytes.now }
{
    read_packet(bytes)
}

// Returns the body of a packet with this message count and these blocks, as `body_from` does.
// For the optimizer: it does not notice that an end packet was excluded before.
#[inline(always)]
fn plain_body_from(count: u16, blocks: &[u8]) -> Body<'_>
    requires blocks { AreBlocks (stated_blocks count) blocks.now }
    requires plain { count < END_OF_SESSION }
    ensures { BodyIs count (messages_at (stated_blocks count) blocks.entry.now) result }
{
    match count {
        HEARTBEAT => Body::Heartbeat,
        _ => Body::Data(Blocks::new(count, blocks)),
    }
}

/// Decodes a datagram that encodes a data packet or a heartbeat of this session. If it encodes anything else, the result
/// is `None`. It is faster than `decode`, whose result has room for every fault.
// For the optimizer: the session is compared before the packet is made, and the packet gets the caller's copy of it. A
// later comparison of both then costs nothing. It is inlined, since the packet would be returned through memory.
#[inline(always)]
pub fn decode_plain<'a>(session: &Session, bytes: &'a [u8]) -> Option<Packet<'a>>
    ensures spelled { IfSome result (λ packet. Spells packet bytes.now) }
    ensures exact { IfSome result (λ packet. reading bytes.now ≡ Ok packet) }
    ensures session { IfSome result (λ packet. packet.session ≡ session.now) }
{
    let (header, behind) = Header::split(bytes)?;
    if header.count == END_OF_SESSION || !session.is_same(&header.session) {
        return None;
    }
    let Ok(rest) = skip_blocks(stated(header.count), behind) else {
        return None;
    };
    if !rest.is_empty() {
        return None;
    }
    Some(Packet {
        session: *session,
        sequence: header.sequence,
        body: plain_body_from(header.count, behind),
    })
}
