//! `mold pack`: prints the messages of an input as the packets of a session.

ghost use Rattle.std.specs.Prelude.{◌≡◌, ◌++◌, length, take, IfOk, OnErr, OnOk};
ghost use Rattle.mold_publish.specs.Sending.{end_packet};
ghost use Rattle.mold_show.specs.Pack.{left_before, line_before};
ghost use Rattle.mold_show.specs.Packets.{line_of_some, packet_line};
ghost use Rattle.mold_session.specs.Publisher.{after_datagram, closed, fresh_publisher, next_datagram};

use crate::pack_options::PackOptions;
use mold_devices::{LineCommand, ReadFault, Source, Turn};
use mold_input::{InputKind, MessageReader};
use mold_publish::{Filled, fill, push_message_refused};
use mold_session::Publisher;
use mold_session::laws::packing_law;
use mold_text::{Word, push_line};
use mold_wire::laws::{front_law, packet_length_law};
use std::alloc::{AllocError, Global};
use std::marker::{Model, PhantomData};

// Appends the line of the next datagram, if there is one. The publisher counts it as sent even if an allocation
// for the line failed.
fn push_datagram(out: &mut Vec<u8>, publisher: &mut Publisher) -> Result<(), AllocError>
    ensures text { OnOk result (out.new.items ≡ out.old.items ++ line_of_some (next_datagram publisher.old)) }
    ensures kept { OnErr result (take (length out.old.items) out.new.items ≡ out.old.items) }
    ensures sent { publisher.new ≡ after_datagram publisher.old }
{
    match publisher.datagram() {
        Some(datagram) => push_line(out, &[Word::Digits(datagram)]),
        None => Ok(()),
    }
}

// Closes the session, all of whose messages were sent, and appends the line of its end packet.
fn push_end(out: &mut Vec<u8>, publisher: &mut Publisher) -> Result<(), AllocError>
    requires { publisher.old.sent ≡ length publisher.old.journal.messages }
    ensures text { OnOk result (out.new.items ≡ out.old.items ++ packet_line (end_packet publisher.old.journal)) }
    ensures kept { OnErr result (take (length out.old.items) out.new.items ≡ out.old.items) }
    ensures closed { publisher.new ≡ closed publisher.old }
{
    // Every message was sent, so the session closes.
    let _ = publisher.close();
    match publisher.end() {
        Some(end) => push_line(out, &[Word::Digits(end)]),
        None => Ok(()),
    }
}

// Appends the line of the datagram that is printed before a refusal, if the input is of blocks. Of an input of lines,
// the messages that were not printed yet stay unprinted.
fn push_before(
    out: &mut Vec<u8>,
    publisher: &mut Publisher,
    kind: InputKind,
) -> Result<(), AllocError>
    ensures text { OnOk result (out.new.items ≡ out.old.items ++ line_before kind publisher.old) }
    ensures kept { OnErr result (take (length out.old.items) out.new.items ≡ out.old.items) }
    ensures left { publisher.new ≡ left_before kind publisher.old }
{
    match kind {
        InputKind::Lines => Ok(()),
        InputKind::Blocks => push_datagram(out, publisher),
    }
}

/// The command `pack`. It prints the packets of a session with the messages of its input, which a reader `M` reads.
#[derive(Drop)]
pub struct Pack<M> {
    publisher: Publisher,
    reader: PhantomData<M>,
}

impl<M> Model for Pack<M> {
    ghost use Rattle.mold_session.specs.Publisher.{PublisherState};
    ghost use Rattle.mold_publish.specs.Publishing.{HasRoom};

    ghost Value = { PublisherState };

    ghost view = { λ p. p.publisher };

    ghost invariant = { λ p. HasRoom p.publisher };
}

impl<M> Pack<M> {
    /// Makes the command for a session without messages. It allocates the buffer of a datagram.
    pub fn new(alloc: Global, options: PackOptions) -> Result<Pack<M>, AllocError>
        ensures { IfOk result (λ pack. pack ≡ fresh_publisher options.session options.limit) }
    {
        packet_length_law();
        // The limit is valid, so an error means that an allocation failed.
        let Ok(publisher) = Publisher::new(alloc, options.session, options.limit) else {
            return Err(AllocError);
        };
        Ok(Pack {
            publisher,
            reader: PhantomData,
        })
    }
}

impl<M: MessageReader> LineCommand for Pack<M> {
    ghost use Rattle.mold_show.specs.Pack.{pack_printing};

    type Reader = M;

    ghost prints = { pack_printing M.input_kind M.entries };

    fn turn<S: Source>(
        &mut self,
        messages: &mut M,
        source: &mut S,
        out: &mut Vec<u8>,
    ) -> Result<Turn, ReadFault> {
        front_law();
        packing_law();
        match fill(&mut self.publisher, messages, source)? {
            Filled::Full => {
                push_datagram(out, &mut self.publisher)?;
                Ok(Turn::More)
            }
            Filled::End => {
                push_datagram(out, &mut self.publisher)?;
                push_end(out, &mut self.publisher)?;
                Ok(Turn::Done { status: 0 })
            }
            Filled::Refused { refusal } => {
                push_before(out, &mut self.publisher, refusal.kind)?;
                push_message_refused(out, self.publisher.journal().next(), refusal)?;
                Ok(Turn::Done { status: 2 })
            }
        }
    }
}
