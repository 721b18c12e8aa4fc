//! Writes carried messages as message blocks.

ghost use Rattle.std.specs.Prelude.{◌≡◌, ◌<◌, ◌^◌, ◌++◌, length, IfOk, OnErr, OnOk};
ghost use Rattle.std.specs.List.{flat_map};
ghost use Rattle.std.specs.Io.KnownBytes.{Appends};
ghost use Rattle.mold_devices.specs.Devices.{AppendsPrefix, Counts};
ghost use Rattle.mold_devices.specs.Writing.{Moves};
ghost use Rattle.mold_wire.specs.Block.{be16, block};
ghost use Rattle.mold_extract.specs.Carried.{IsInFull};
ghost use Rattle.mold_extract.specs.Extracting.{ExtractsBlocks};
ghost use Rattle.mold_extract.specs.Text.{blocks_in, entry_block};

use crate::block_buffer::BlockBuffer;
use crate::carried_range::CarriedRange;
use crate::extracted::Extracted;
use crate::fullness::is_full;
use crate::number_range::NumberRange;
use mold_capture::Checker;
use mold_devices::{DeviceFault, Sink};

// The length field of a message's block.
fn length_of(message: &[u8]) -> [u8; 2]
    ensures { result ≡ be16 (length message.now) }
{
    let len = message.len();
    [(len / 256 % 256) as u8, (len % 256) as u8]
}

// Puts the block of a message into the buffer.
#[inline(always)]
fn put_block<K: Sink>(
    buffer: &mut BlockBuffer,
    sink: &mut K,
    message: &[u8],
) -> Result<(), DeviceFault>
    ensures moved { OnOk result
        (Moves (K.held sink.old) (K.held sink.new) (buffer.old ++ block message.now) buffer.new) }
    ensures front { OnErr result (AppendsPrefix (K.held sink.old) (K.held sink.new) (buffer.old ++ block message.now)) }
    ensures failures { Counts (K.failed sink.old) (K.failed sink.new) result }
{
    buffer.put(sink, &length_of(message))?;
    buffer.put(sink, message)
}

/// Puts the blocks of the messages into the buffer and writes the buffer. Returns the number of messages. After a
/// fault, a prefix of these bytes was written.
pub(crate) fn put_blocks<K: Sink>(
    buffer: &mut BlockBuffer,
    sink: &mut K,
    carried: &mut CarriedRange<'_>,
) -> Result<u64, DeviceFault>
    requires { length carried.old < 2 ^ 64 }
    ensures whole { OnOk result
        (Appends (K.held sink.old) (K.held sink.new) (buffer.old ++ flat_map entry_block carried.old)) }
    ensures counted { IfOk result (λ count. count ≡ length carried.old) }
    ensures front { OnErr result
        (AppendsPrefix (K.held sink.old) (K.held sink.new) (buffer.old ++ flat_map entry_block carried.old)) }
    ensures failures { Counts (K.failed sink.old) (K.failed sink.new) result }
{
    let mut count = 0u64;
    while let Some((_, message)) = carried.advance() {
        put_block(buffer, sink, message)?;
        count += 1;
    }
    buffer.flush(sink)?;
    Ok(count)
}

/// Writes the blocks of the carried messages whose numbers are in the range, in ascending order, if the range is
/// carried in full. Otherwise nothing is written.
///
/// A range is carried in full if each of its numbers has a message. Numbers from that of an end packet on don't count,
/// as for `mold dump` those after the last message. Without an end packet, a range that goes beyond the carried messages
/// is not carried in full.
///
/// The blocks are written in pieces of about 64 KiB. After a fault, a prefix of them was written. Nothing is
/// allocated. Without a message to write, the sink is not called.
pub fn extract_blocks<K: Sink>(
    checker: &Checker,
    range: NumberRange,
    sink: &mut K,
) -> Result<Extracted, DeviceFault>
    ensures extracted { IfOk result (λ extracted.
        ExtractsBlocks (K.held sink.old) (K.held sink.new) checker.now range extracted) }
    ensures full { OnErr result (IsInFull checker.now range) }
    ensures front { OnErr result
        (AppendsPrefix (K.held sink.old) (K.held sink.new) (blocks_in checker.now.pairs range)) }
    ensures failures { Counts (K.failed sink.old) (K.failed sink.new) result }
{
    let first = range.first();
    let below = range.below();
    if !is_full(checker, first, below) {
        return Ok(Extracted::Holes);
    }
    let mut buffer = BlockBuffer::new();
    let mut carried = CarriedRange::new(checker, first, below);
    let messages = put_blocks(&mut buffer, sink, &mut carried)?;
    Ok(Extracted::All { messages })
}
