//! Messages as blocks up to the first empty block, which marks the end of the messages.

ghost use Rattle.std.specs.Prelude.{◌≡◌, ◌<◌, [], length, true, false, IfOk};
ghost use Rattle.std.specs.Io.KnownBytes.{prepend_known};
ghost use Rattle.mold_devices.specs.Faults.{CountsRead};
ghost use Rattle.mold_devices.specs.Lines.{work_left};
ghost use Rattle.mold_input.specs.BlocksToEmpty.{IsNotEmpty, last_of, to_empty_entries};
ghost use Rattle.mold_input.specs.declared.input_kind.InputKind.TheVariants as kind;

use crate::input_fault::InputFault;
use crate::input_kind::InputKind;
use crate::message_blocks::MessageBlocks;
use crate::message_reader::MessageReader;
use crate::next::Next;
use mold_devices::{InputReader, ReadFault, Source};
use std::alloc::{AllocError, Global};
use std::marker::Model;

/// A reader of message blocks that ends before the first empty block. An input without an empty block ends with a
/// fault. After the end or a fault it reads nothing more.
#[derive(Drop)]
pub struct BlocksToEmpty {
    blocks: MessageBlocks,
    ended: bool,
}

impl Model for BlocksToEmpty {
    ghost use Rattle.mold_input.specs.BlocksToEmpty.{unread_to_empty};
    ghost use Rattle.mold_input.specs.Entries.{ReaderState};

    ghost Value = { ReaderState };

    ghost view = { λ b. record {
      message = b.blocks.message;
      unread = unread_to_empty b.ended b.blocks.unread;
    } };
}

impl InputReader for BlocksToEmpty {
    ghost unread = { λ b. b.unread };

    fn new(alloc: Global) -> Result<BlocksToEmpty, AllocError> {
        Ok(BlocksToEmpty {
            blocks: <MessageBlocks as InputReader>::new(alloc)?,
            ended: false,
        })
    }
}

impl MessageReader for BlocksToEmpty {
    ghost entries = { to_empty_entries };

    ghost input_kind = { kind.Blocks };

    ghost found = { λ b. b.message };

    fn kind() -> InputKind {
        InputKind::Blocks
    }

    fn advance<S: Source>(&mut self, source: &mut S) -> Result<Next, ReadFault> {
        if self.ended {
            return Ok(Next::End);
        }
        let next = self.blocks.advance(source)?;
        if is_more(next, self.blocks.message()) {
            return Ok(Next::Message);
        }
        self.ended = true;
        Ok(last_of(next))
    }

    fn message(&self) -> &[u8] {
        self.blocks.message()
    }
}

// Whether the reader found a message that is not empty.
fn is_more(next: Next, message: &[u8]) -> bool
    ensures more { result ≡ true → (next ≡ Next.Message) × IsNotEmpty message.now }
    ensures last { result ≡ false → next ≡ Next.Message → length message.now ≡ 0 }
{
    match next {
        Next::Message => !message.is_empty(),
        _ => false,
    }
}

// Returns what ends the messages, from what was read from the blocks. A message is an empty one.
fn last_of(next: Next) -> Next
    ensures { result ≡ last_of next }
{
    match next {
        Next::Message => Next::End,
        Next::Fault { why } => Next::Fault { why },
        Next::End => Next::Fault {
            why: InputFault::Cut,
        },
    }
}
