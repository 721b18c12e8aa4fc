//! The text that is printed for delivered messages: lines or blocks.

ghost use Rattle.std.specs.Prelude.{◌≡◌, ◌++◌, ◌+◌, ◌≤◌, length, take, IfOk, OnErr, OnOk};
ghost use Rattle.mold_input.specs.declared.message_format.MessageFormat.TheVariants.{Blocks, BlocksToEmpty, Lines};
ghost use Rattle.mold_listen.specs.Text.{empty_number, handed_text, messages_to_empty};
ghost use Rattle.mold_wire.specs.Block.{be16, block};

use mold_receiver::Batch;
use mold_text::{Word, line_room, write_line};
use std::alloc::AllocError;

/// The least number of bytes by which the text grows.
const GROWTH: usize = 4096;

// Makes room for `room` bytes at offset `at`. The bytes before that offset stay.
fn make_room(out: &mut Vec<u8>, at: usize, room: usize) -> Result<(), AllocError>
    requires { at ≤ length out.old.items }
    ensures room { OnOk result (at + room ≤ length out.new.items) }
    ensures front { take at out.new.items ≡ take at out.old.items }
{
    // If the end overflows, it becomes the greatest number, and the allocation for that fails.
    let end = at.saturating_add(room);
    if out.len() < end {
        out.resize(end.saturating_add(GROWTH), 0)?;
    }
    Ok(())
}

/// Appends a line for each message of the batch: its number, and its bytes as hexadecimal digits (`-` for no bytes).
/// Room is made for many lines at once. An error means out of memory; the bytes after the former text are then
/// meaningless.
#[tactic(auto, unfolding(crate::specs::Text::handed_text))]
pub(crate) fn push_lines(out: &mut Vec<u8>, batch: &Batch) -> Result<(), AllocError>
    ensures text { OnOk result
        (out.new.items ≡ out.old.items ++ handed_text Lines batch.now.first batch.now.messages) }
    ensures kept { OnErr result (take (length out.old.items) out.new.items ≡ out.old.items) }
{
    let (Some(first), Some(after)) = (batch.first(), batch.after()) else {
        return Ok(());
    };
    let mut at = out.len();
    for number in first..after {
        if let Some(message) = batch.get((number - first) as usize) {
            let words = [Word::Number(number), Word::Message(message)];
            make_room(out, at, line_room(&words))?;
            at = write_line(out.as_mut_slice(), at, &words);
        }
    }
    out.truncate(at);
    Ok(())
}

// The length of a message as the two bytes at the start of its block.
fn length_bytes(message: &[u8]) -> [u8; 2]
    ensures { result ≡ be16 (length message.now) }
{
    let len = message.len();
    [(len / 256 % 256) as u8, (len % 256) as u8]
}

/// Appends the block of a message. An error means out of memory; the bytes after the former text are then meaningless.
pub(crate) fn push_block(out: &mut Vec<u8>, message: &[u8]) -> Result<(), AllocError>
    ensures text { OnOk result (out.new.items ≡ out.old.items ++ block message.now) }
    ensures kept { OnErr result (take (length out.old.items) out.new.items ≡ out.old.items) }
{
    out.extend_from_slice(&length_bytes(message))?;
    out.extend_from_slice(message)
}

/// Appends the block of each message of the batch. An error means out of memory; the bytes after the former text are
/// then meaningless.
#[tactic(auto, unfolding(crate::specs::Text::handed_text))]
pub(crate) fn push_blocks(out: &mut Vec<u8>, batch: &Batch) -> Result<(), AllocError>
    ensures text { OnOk result
        (out.new.items ≡ out.old.items ++ handed_text Blocks batch.now.first batch.now.messages) }
    ensures kept { OnErr result (take (length out.old.items) out.new.items ≡ out.old.items) }
{
    let (Some(first), Some(after)) = (batch.first(), batch.after()) else {
        return Ok(());
    };
    for number in first..after {
        if let Some(message) = batch.get((number - first) as usize) {
            push_block(out, message)?;
        }
    }
    Ok(())
}

/// Appends the block of each message of the batch, up to the first empty message. Returns the number of that message,
/// or `None` if no message is empty. An error means out of memory; the bytes after the former text are then
/// meaningless.
pub(crate) fn push_to_empty(out: &mut Vec<u8>, batch: &Batch) -> Result<Option<u64>, AllocError>
    ensures text { OnOk result (out.new.items ≡ out.old.items
        ++ handed_text BlocksToEmpty batch.now.first (messages_to_empty batch.now.messages)) }
    ensures empty { IfOk result (λ empty. empty ≡ empty_number batch.now.first batch.now.messages) }
    ensures kept { OnErr result (take (length out.old.items) out.new.items ≡ out.old.items) }
{
    let (Some(first), Some(after)) = (batch.first(), batch.after()) else {
        return Ok(None);
    };
    for number in first..after {
        if let Some(message) = batch.get((number - first) as usize) {
            if message.is_empty() {
                return Ok(Some(number));
            }
            push_block(out, message)?;
        }
    }
    Ok(None)
}
