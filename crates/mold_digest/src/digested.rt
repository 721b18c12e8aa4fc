//! Datagrams in which each message is replaced by its digest.

ghost use Rattle.std.specs.Prelude.{◌≡◌, ◌+◌, ◌<◌, ◌≤◌, ◌++◌, OnErr, OnOk, length, vec_capacity};
ghost use Rattle.mold_wire.specs.Block.{blocks};
ghost use Rattle.mold_digest.specs.Digested.{digested, digests};

use crate::key::{DIGEST_BYTES, DigestKey};
use mold_wire::{Blocks, Body, HEADER_LENGTH, LENGTH_BYTES, decode};
use std::alloc::AllocError;

// The length field of a digest's block.
const DIGEST_LENGTH: [u8; LENGTH_BYTES] = [0, DIGEST_BYTES as u8];

// Appends the block of each message's digest.
fn push_digests(key: &DigestKey, messages: &Blocks<'_>, out: &mut Vec<u8>) -> Result<(), AllocError>
    ensures ok { OnOk result (out.new.items ≡ out.old.items ++ blocks (digests key.now messages.now)) }
    ensures full { OnErr result
        (vec_capacity out.old < length out.old.items + length (blocks (digests key.now messages.now))) }
    ensures capacity { vec_capacity out.old ≤ vec_capacity out.new }
{
    for message in messages.iter() {
        out.extend_from_slice(DIGEST_LENGTH.as_slice())?;
        out.extend_from_slice(key.digest(message).as_slice())?;
    }
    Ok(())
}

// Appends the digested datagram. The header of a data packet stays, since the number of its messages does.
pub(crate) fn push_digested(
    key: &DigestKey,
    datagram: &[u8],
    out: &mut Vec<u8>,
) -> Result<(), AllocError>
    ensures ok { OnOk result (out.new.items ≡ out.old.items ++ digested key.now datagram.now) }
    ensures full { OnErr result
        (vec_capacity out.old < length out.old.items + length (digested key.now datagram.now)) }
    ensures capacity { vec_capacity out.old ≤ vec_capacity out.new }
{
    let Ok(packet) = decode(datagram) else {
        return out.extend_from_slice(datagram);
    };
    match &packet.body {
        Body::Data(messages) => {
            let (header, _) = datagram.split_at(HEADER_LENGTH);
            out.extend_from_slice(header)?;
            push_digests(key, messages, out)
        }
        Body::Heartbeat | Body::End => out.extend_from_slice(datagram),
    }
}
