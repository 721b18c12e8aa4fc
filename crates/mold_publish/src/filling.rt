//! Publishing the messages of an input until the publisher is full.

ghost use Rattle.std.specs.Prelude.{◌≡◌, ◌<◌, IfOk, OnErr, Ok};
ghost use Rattle.std.specs.Io.KnownBytes.{prepend_known};
ghost use Rattle.mold_input.specs.Entries.{known_input};
ghost use Rattle.mold_publish.specs.Publishing.{Fills, HasRoom, PublishesEntry, entry_outcome};
ghost use Rattle.mold_devices.specs.Faults.{CountsRead};
ghost use Rattle.mold_devices.specs.Lines.{work_left};

use crate::message_refusal::MessageRefusal;
use crate::refusal_reason::RefusalReason;
use mold_devices::{ReadFault, Source};
use mold_input::{InputKind, MessageReader, Next};
use mold_session::{AppendError, Publisher};
use mold_wire::laws::packet_length_law;
use std::alloc::AllocError;

/// Why no more messages were published.
#[derive(Clone, Copy)]
pub enum Filled {
    /// The messages that are not yet in a datagram do not all fit one. Without the last one they do.
    Full,
    /// The input ends.
    End,
    /// The entry after the published messages is refused.
    Refused { refusal: MessageRefusal },
}

// Publishes a message of an input of this kind. Returns the refusal if the journal refuses it. An error means out of
// memory; nothing was then published.
fn publish_message(
    publisher: &mut Publisher,
    kind: InputKind,
    message: &[u8],
) -> Result<Option<MessageRefusal>, AllocError>
    ensures value { IfOk result (PublishesEntry publisher.old publisher.new
        (entry_outcome kind publisher.old.journal (Ok message.now))) }
    ensures same { OnErr result (publisher.new ≡ publisher.old) }
{
    match publisher.publish(message) {
        Ok(_) => Ok(None),
        Err(AppendError::Memory) => Err(AllocError),
        Err(why) => {
            let why = RefusalReason::NotTaken(why);
            Ok(Some(MessageRefusal { kind, why }))
        }
    }
}

/// Publishes the messages of the source one by one, until the publisher is full, the input ends, or an entry is
/// refused. Only the journal keeps the messages. After an error, the messages before it are published.
pub fn fill<M: MessageReader, S: Source>(
    publisher: &mut Publisher,
    messages: &mut M,
    source: &mut S,
) -> Result<Filled, ReadFault>
    requires { HasRoom publisher.old }
    ensures filled { IfOk result (Fills publisher.old publisher.new
        (known_input M.input_kind M.entries (prepend_known (M.unread messages.old) (S.left source.old)))
        (known_input M.input_kind M.entries (prepend_known (M.unread messages.new) (S.left source.new)))) }
    ensures room { OnErr result (HasRoom publisher.new) }
    ensures work { IfOk result (λ filled. filled ≡ Filled.Full →
        work_left (S.bound source.new) (M.unread messages.new)
        < work_left (S.bound source.old) (M.unread messages.old)) }
    ensures failures { CountsRead (S.failed source.old) (S.failed source.new) result }
{
    packet_length_law();
    let kind = M::kind();
    'messages: loop {
        match messages.advance(source)? {
            Next::Message => {}
            Next::Fault { why } => {
                let why = RefusalReason::from_fault(why, publisher.is_closed());
                let refusal = MessageRefusal { kind, why };
                return Ok(Filled::Refused { refusal });
            }
            Next::End => return Ok(Filled::End),
        }
        if let Some(refusal) = publish_message(publisher, kind, messages.message())? {
            return Ok(Filled::Refused { refusal });
        }
        if publisher.is_full() {
            return Ok(Filled::Full);
        }
    }
}
