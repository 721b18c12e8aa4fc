//! The publisher at work: it publishes messages, sends each datagram on two lines, closes the session and saves the
//! journal.

ghost use Rattle.std.specs.Prelude.{◌≡◌, ◌+◌, ◌≤◌, [], true, false, None, length, replicate, IfErr, IfOk, IfSome, OnOk};
ghost use Rattle.mold_devices.specs.Devices.{AppendsPrefix, Counts};
ghost use Rattle.mold_devices.specs.Faults.{CountsRead};
ghost use Rattle.mold_input.specs.Entries.{known_input};
ghost use Rattle.mold_turns.specs.Outgoing.{nothing_out, with_more};
ghost use Rattle.mold_send.specs.PublishLoop.{CountsPublish, IsSame, PublishRun, SendsBoth, SendsInput, beat_packet};
ghost use Rattle.mold_send.specs.PublishLoop.{close_datagrams, published_line, left_journal, saved_bytes, spelled_some};
ghost use Rattle.mold_publish.specs.Publishing.{HasRoom, input_published, refused_text};
ghost use Rattle.mold_publish.specs.Sending.{end_packet};
ghost use Rattle.mold_session.specs.File.{AppendsFile};
ghost use Rattle.mold_session.specs.Publisher.{after_datagram, closed, next_datagram};
ghost use Rattle.mold_wire.specs.Packet.{spelling_of};

use crate::closing::Closing;
use crate::sending::{TwoLines, publisher_holds};
use mold_devices::{CommandFault, ReadFault, Sink, Source};
use mold_input::{InputKind, MessageReader};
use mold_ports::Datagrams;
use mold_publish::{Filled, MessageRefusal, fill, push_message_refused};
use mold_session::laws::packing_law;
use mold_session::{Journal, Publisher};
use mold_text::Word;
use mold_turns::Outgoing;
use mold_wire::laws::{front_law, packet_length_law};
use std::alloc::{AllocError, Global};

// Writes the journal's file.
fn save_journal<K: Sink>(journal: &Journal, sink: &mut K) -> Result<(), CommandFault>
    ensures whole { OnOk result (AppendsFile (K.held sink.old) (K.held sink.new)
        journal.now.session journal.now.messages journal.now.closed) }
    ensures front { journal.now.closed ≡ true →
        AppendsPrefix (K.held sink.old) (K.held sink.new) (saved_bytes journal.now None) }
    ensures fault { IfErr result (λ fault. fault ≡ CommandFault.Write) }
    ensures failures { Counts (K.failed sink.old) (K.failed sink.new) result }
{
    match journal.save(sink) {
        Ok(()) => Ok(()),
        Err(_) => Err(CommandFault::Write),
    }
}

// Appends the line that reports why the entry of this number is refused. Entries are numbered from 1. If an allocation
// fails, a part of the line may follow the earlier text.
fn print_message_refused(
    outgoing: &mut Outgoing,
    number: u64,
    refusal: MessageRefusal,
) -> Result<(), AllocError>
    ensures { OnOk result (outgoing.new ≡ with_more (refused_text number refusal) outgoing.old) }
{
    push_message_refused(&mut outgoing.text, number, refusal)
}

// Appends the last line.
fn push_published(outgoing: &mut Outgoing, messages: u64, datagrams: u64) -> Result<(), AllocError>
    ensures { OnOk result
        (outgoing.new ≡ with_more (published_line messages datagrams outgoing.old.failures) outgoing.old) }
{
    let words = [
        Word::Text(b"published"),
        Word::Number(messages),
        Word::Text(b"datagrams"),
        Word::Number(datagrams),
        Word::Text(b"failed"),
        Word::Number(outgoing.failures()),
    ];
    outgoing.push_line(&words)
}

/// A publisher at work: the publisher, the lines that it sends on, the number of data packets sent (each counted
/// once), and the allocator.
#[derive(Drop)]
pub(crate) struct Publication<'a, 'p, D: Datagrams> {
    pub(crate) publisher: &'a mut Publisher,
    pub(crate) two_lines: TwoLines<'a, 'p, D>,
    pub(crate) datagrams: u64,
    pub(crate) alloc: Global,
}

impl<'a, 'p, D: Datagrams> Publication<'a, 'p, D> {
    // Sends the publisher's next datagram on both lines, and counts it once. Does nothing if every message was sent.
    fn send_next(&mut self)
        requires { self.old.datagrams ≤ self.old.publisher.now.sent }
        ensures sends { D.modeled ≡ true → SendsBoth D.port (spelled_some (next_datagram self.old.publisher.now))
            self.old.two_lines self.new.two_lines }
        ensures counted { self.new.datagrams
            ≡ self.old.datagrams + length (spelled_some (next_datagram self.old.publisher.now)) }
        ensures sent { self.new.publisher.now ≡ after_datagram self.old.publisher.now }
        ensures same { IsSame self.old self.new }
    {
        publisher_holds(self.publisher);
        if let Some(datagram) = self.publisher.datagram() {
            self.two_lines.send_both(datagram);
            self.datagrams += 1;
        }
    }

    // Publishes the messages of the source one by one. Sends a datagram whenever the publisher is full, and the rest
    // after the last message. Returns the refusal if an entry is refused. The rest is then sent unless the input is of
    // lines.
    fn send_messages<M: MessageReader, S: Source>(
        &mut self,
        source: &mut S,
    ) -> Result<Option<MessageRefusal>, ReadFault>
        requires room { HasRoom self.old.publisher.now }
        requires none { self.old.datagrams ≡ 0 }
        ensures sends { D.modeled ≡ true → SendsInput D.port
            (known_input M.input_kind M.entries (S.left source.old)) result self.old self.new }
        ensures all { IfOk result (λ refused. refused ≡ None →
            self.new.publisher.now.sent ≡ length self.new.publisher.now.journal.messages) }
        ensures same { IsSame self.old self.new }
        ensures failures { CountsRead (S.failed source.old) (S.failed source.new) result }
    {
        front_law();
        packing_law();
        let mut messages = M::new(self.alloc)?;
        'publishing: loop {
            match fill(self.publisher, &mut messages, source)? {
                Filled::Full => self.send_next(),
                Filled::End => {
                    self.send_next();
                    return Ok(None);
                }
                Filled::Refused { refusal } => match refusal.kind {
                    InputKind::Lines => return Ok(Some(refusal)),
                    InputKind::Blocks => {
                        self.send_next();
                        return Ok(Some(refusal));
                    }
                },
            }
        }
    }

    // Sends `beats` heartbeats on both lines.
    fn send_beats(&mut self, beats: u32)
        requires sent { self.old.publisher.now.sent ≡ length self.old.publisher.now.journal.messages }
        ensures sends { D.modeled ≡ true → self.old.publisher.now.journal.closed ≡ false → SendsBoth D.port
            (replicate beats (spelling_of (beat_packet self.old.publisher.now.journal)))
            self.old.two_lines self.new.two_lines }
        ensures publisher { self.new.publisher ≡ self.old.publisher }
        ensures datagrams { self.new.datagrams ≡ self.old.datagrams }
        ensures same { IsSame self.old self.new }
    {
        if let Some(beat) = self.publisher.heartbeat() {
            self.two_lines.send_often(beat, beats);
        }
    }

    // Sends `ends` end packets of a closed publisher on both lines.
    fn send_ends(&mut self, ends: u32)
        requires closed { self.old.publisher.now.journal.closed ≡ true }
        ensures sends { D.modeled ≡ true → SendsBoth D.port
            (replicate ends (spelling_of (end_packet self.old.publisher.now.journal)))
            self.old.two_lines self.new.two_lines }
        ensures publisher { self.new.publisher ≡ self.old.publisher }
        ensures datagrams { self.new.datagrams ≡ self.old.datagrams }
        ensures same { IsSame self.old self.new }
    {
        if let Some(end) = self.publisher.end() {
            self.two_lines.send_often(end, ends);
        }
    }

    // Sends `beats` heartbeats of a publisher whose messages are all sent, closes the session, and sends `ends` end
    // packets. Each is sent to `a` and then to `b`.
    fn send_close(&mut self, beats: u32, ends: u32)
        requires { self.old.publisher.now.sent ≡ length self.old.publisher.now.journal.messages }
        ensures sends { D.modeled ≡ true → self.old.publisher.now.journal.closed ≡ false → SendsBoth D.port
            (close_datagrams beats ends self.old.publisher.now.journal) self.old.two_lines self.new.two_lines }
        ensures closed { self.new.publisher.now ≡ closed self.old.publisher.now }
        ensures datagrams { self.new.datagrams ≡ self.old.datagrams }
        ensures same { IsSame self.old self.new }
    {
        self.send_beats(beats);
        let _ = self.publisher.close();
        self.send_ends(ends);
    }

    /// Publishes the messages of the source with an open publisher without messages, and sends them. Then it sends the
    /// heartbeats, closes the session, sends the end packets, saves the journal in `journal_sink`, and
    /// prints the last line. Returns the status 0.
    ///
    /// If an entry is refused, it stops there: it prints the line of the refusal and returns the status 2.
    pub(crate) fn publish<M: MessageReader, S: Source, K: Sink, J: Sink>(
        &mut self,
        closing: Closing,
        source: &mut S,
        sink: &mut K,
        journal_sink: &mut J,
    ) -> Result<u8, CommandFault>
        requires unclosed { self.old.publisher.now.journal.closed ≡ false }
        requires empty { self.old.publisher.now.journal.messages ≡ [] }
        requires unsent { self.old.datagrams ≡ 0 }
        requires quiet { self.old.two_lines.outgoing.now ≡ nothing_out }
        ensures run { D.modeled ≡ true → IfSome (known_input M.input_kind M.entries
            (S.left source.old)) (λ input. PublishRun
            self.old.two_lines.a.now self.old.two_lines.b.now
            closing.beats closing.ends self.old.publisher.now.limit
            (input_published self.old.publisher.now.journal input)
            result (D.port self.old.two_lines.port.now) (D.port self.new.two_lines.port.now)
            (K.held sink.old) (K.held sink.new) (J.held journal_sink.old) (J.held journal_sink.new)) }
        ensures journal { IfOk result (λ _. D.modeled ≡ true → IfSome (known_input M.input_kind M.entries
            (S.left source.old)) (λ input.
            self.new.publisher.now.journal
            ≡ left_journal (input_published self.old.publisher.now.journal input))) }
        ensures same { IsSame self.old self.new }
        ensures failures { CountsPublish (S.failed source.old) (S.failed source.new) (K.failed sink.old)
            (K.failed sink.new) (J.failed journal_sink.old) (J.failed journal_sink.new) result }
    {
        publisher_holds(self.publisher);
        packet_length_law();
        if let Some(refusal) = self.send_messages::<M, S>(source)? {
            let number = self.publisher.journal().next();
            print_message_refused(self.two_lines.outgoing, number, refusal)?;
            self.two_lines.outgoing.send(sink)?;
            return Ok(2);
        }
        self.send_close(closing.beats, closing.ends);
        save_journal(self.publisher.journal(), journal_sink)?;
        let messages = self.publisher.journal().next() - 1;
        push_published(self.two_lines.outgoing, messages, self.datagrams)?;
        self.two_lines.outgoing.send(sink)?;
        Ok(0)
    }
}
