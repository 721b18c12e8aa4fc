//! Finds a message in a piece of a file.

ghost use Rattle.std.specs.Prelude.{◌≤◌, MatchOption, MatchResult};
ghost use Rattle.mold_wire.specs.Block.{block};
ghost use Rattle.mold_session.specs.Loading.{message_spelling};
ghost use Rattle.mold_session.specs.Records.{record_of};
ghost use Rattle.mold_index.specs.Scan.{BeginsNoMessage, EndAfter, FindsMessage, IsMessageAndRest};

use crate::error::NoMessage;
use byteorder::{BigEndian, ByteOrder};
use mold_session::{FileVersion, RECORD_HEAD, recorded_length};
use mold_wire::{LENGTH_BYTES, MAX_MESSAGE};

// Returns the message of the block at the start of the bytes, and the bytes after it.
fn split_block(bytes: &[u8]) -> Option<(&[u8], &[u8])>
    ensures { MatchOption result (BeginsNoMessage block bytes.now)
        (λ found. IsMessageAndRest block bytes.now found.0.now found.1.now) }
{
    if bytes.len() < LENGTH_BYTES {
        return None;
    }
    let (head, rest) = bytes.split_at(LENGTH_BYTES);
    let len = usize::from(BigEndian::read_u16(head));
    if rest.len() < len {
        return None;
    }
    Some(rest.split_at(len))
}

// Returns the message of the record at the start of the bytes, and the bytes after it.
fn split_record(bytes: &[u8]) -> Option<(&[u8], &[u8])>
    ensures { MatchOption result (BeginsNoMessage record_of bytes.now)
        (λ found. IsMessageAndRest record_of bytes.now found.0.now found.1.now) }
{
    let len = usize::from(recorded_length(MAX_MESSAGE, bytes)?);
    let (_, rest) = bytes.split_at(RECORD_HEAD);
    if rest.len() < len {
        return None;
    }
    Some(rest.split_at(len))
}

/// Returns the message at the start of a piece of a file of this version, and the bytes after it. If the bytes do not
/// begin with a whole message, `None` is returned.
pub fn split_message(version: FileVersion, bytes: &[u8]) -> Option<(&[u8], &[u8])>
    ensures { MatchOption result (BeginsNoMessage (message_spelling version) bytes.now)
        (λ found. IsMessageAndRest (message_spelling version) bytes.now found.0.now found.1.now) }
{
    match version {
        FileVersion::One | FileVersion::Two { .. } => split_block(bytes),
        FileVersion::Three => split_record(bytes),
    }
}

/// Returns the message after the first `skip` messages of a piece of a file of this version, and the bytes after it. Of
/// the messages before it, only the lengths are read.
#[tactic(auto, using(crate::proofs::ScanLemmas::skipped))]
pub fn find_message(
    version: FileVersion,
    bytes: &[u8],
    skip: u64,
) -> Result<(&[u8], &[u8]), NoMessage>
    ensures { MatchResult result
        (λ found. FindsMessage (message_spelling version) skip bytes.now found.0.now found.1.now)
        (λ error. (error.index ≤ skip) × EndAfter (message_spelling version) error.index bytes.now) }
{
    let mut rest = bytes;
    for index in 0..skip {
        let Some((_, next)) = split_message(version, rest) else {
            return Err(NoMessage { index });
        };
        rest = next;
    }
    match split_message(version, rest) {
        Some(found) => Ok(found),
        None => Err(NoMessage { index: skip }),
    }
}
