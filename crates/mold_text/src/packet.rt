//! The text of a packet.

ghost use Rattle.std.specs.Prelude.{◌≡◌, ◌++◌, ◌<◌, ◌^◌, length, take, OnErr, OnOk, codes};
ghost use Rattle.mold_wire.specs.declared.header.TheConstants.{END_OF_SESSION};
ghost use Rattle.mold_text.specs.Text.{message_line, messages_text, packet_text, counted_line, numbered_line};

use crate::line::push_line;
use crate::word::Word;
use mold_wire::{Blocks, Body, Packet, Session};
use std::alloc::AllocError;

fn push_message(out: &mut Vec<u8>, number: u128, message: &[u8]) -> Result<(), AllocError>
    ensures text { OnOk result (out.new.items ≡ out.old.items ++ message_line number message.now) }
    ensures kept { OnErr result (take (length out.old.items) out.new.items ≡ out.old.items) }
{
    out.extend_from_slice(b"  ")?;
    push_line(
        out,
        &[
            Word::LongNumber(number),
            Word::Number(message.len() as u64),
            Word::Message(message),
        ],
    )
}

// The messages are numbered from `first` on. The numbers may exceed 64 bits.
#[tactic(auto, unfolding(crate::specs::Text::messages_text))]
fn push_messages(out: &mut Vec<u8>, first: u64, blocks: &Blocks<'_>) -> Result<(), AllocError>
    requires { length blocks.now < END_OF_SESSION }
    ensures text { OnOk result (out.new.items ≡ out.old.items ++ messages_text first blocks.now) }
    ensures kept { OnErr result (take (length out.old.items) out.new.items ≡ out.old.items) }
{
    let mut number = u128::from(first);
    for message in blocks.iter() {
        push_message(out, number, message)?;
        number += 1;
    }
    Ok(())
}

// Appends the line of a packet without messages.
fn push_numbered<'a>(
    out: &mut Vec<u8>,
    kind: &'a [u8],
    session: &'a Session,
    sequence: u64,
) -> Result<(), AllocError>
    ensures text { OnOk result (out.new.items ≡
        out.old.items ++ numbered_line kind.now session.now.0 sequence) }
    ensures kept { OnErr result (take (length out.old.items) out.new.items ≡ out.old.items) }
{
    push_line(
        out,
        &[
            Word::Text(kind),
            Word::Digits(&session.0),
            Word::Number(sequence),
        ],
    )
}

// Appends the first line of a data packet.
fn push_data(
    out: &mut Vec<u8>,
    session: &Session,
    sequence: u64,
    count: u16,
) -> Result<(), AllocError>
    ensures text { OnOk result (out.new.items ≡
        out.old.items ++ counted_line (codes "data") session.now.0 sequence count) }
    ensures kept { OnErr result (take (length out.old.items) out.new.items ≡ out.old.items) }
{
    push_line(
        out,
        &[
            Word::Text(b"data"),
            Word::Digits(&session.0),
            Word::Number(sequence),
            Word::Number(u64::from(count)),
        ],
    )
}

/// Appends the packet's line and a line for each of its messages. If an allocation fails, a part of them may
/// follow the earlier text.
pub fn push_packet(out: &mut Vec<u8>, packet: &Packet<'_>) -> Result<(), AllocError>
    ensures text { OnOk result (out.new.items ≡ out.old.items ++ packet_text packet.now) }
    ensures kept { OnErr result (take (length out.old.items) out.new.items ≡ out.old.items) }
{
    let Packet {
        session,
        sequence,
        body,
    } = packet;
    match body {
        Body::Data(blocks) => {
            push_data(out, session, *sequence, blocks.len())?;
            push_messages(out, *sequence, blocks)
        }
        Body::Heartbeat => push_numbered(out, b"heartbeat", session, *sequence),
        Body::End => push_numbered(out, b"end", session, *sequence),
    }
}
