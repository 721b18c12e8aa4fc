//! The loop that publishes the messages of a source on two lines.

ghost use Rattle.std.specs.Prelude.{◌≡◌, [], true, false, IfOk, IfSome};
ghost use Rattle.mold_input.specs.Entries.{known_input};
ghost use Rattle.mold_send.specs.PublishLoop.{CountsPublish, PublishRun, left_journal};
ghost use Rattle.mold_publish.specs.Publishing.{input_published};

use crate::closing::Closing;
use crate::publication::Publication;
use crate::publish_devices::PublishDevices;
use crate::publish_options::PublishOptions;
use crate::sending::TwoLines;
use mold_devices::{CommandFault, Sink, Source};
use mold_input::MessageReader;
use mold_ports::Datagrams;
use mold_session::Publisher;
use mold_turns::Outgoing;
use std::alloc::Global;

/// Publishes the messages of the source with an open publisher without messages. Each datagram is sent to `a`
/// and then to `b`. A data datagram is sent when the next message does not fit it, and after the last message. Then
/// `beats` heartbeats are sent, the session is closed, and `ends` end packets are sent.
///
/// The journal is then saved in `journal_sink`. The last line of the text has the counts of messages, of data datagrams
/// (each counted once) and of failed sends, which stops at `u64::MAX`. A failed send does not end the loop, and the
/// status is 0.
///
/// If an entry is refused, nothing is saved. The text is the line of the refusal, and the status is 2. Of an input of
/// blocks, all messages before the entry are sent. Of an input of lines, the last datagram is not sent.
pub fn publish_loop<M: MessageReader, D: Datagrams, S: Source, K: Sink, J: Sink>(
    alloc: Global,
    port: &mut D,
    a: D::Peer,
    b: D::Peer,
    publisher: &mut Publisher,
    beats: u32,
    ends: u32,
    source: &mut S,
    sink: &mut K,
    journal_sink: &mut J,
) -> Result<u8, CommandFault>
    requires unclosed { publisher.old.journal.closed ≡ false }
    requires empty { publisher.old.journal.messages ≡ [] }
    ensures run { D.modeled ≡ true → IfSome (known_input M.input_kind M.entries (S.left source.old)) (λ input.
        PublishRun a b beats ends publisher.old.limit
        (input_published publisher.old.journal input) result (D.port port.old) (D.port port.new)
        (K.held sink.old) (K.held sink.new) (J.held journal_sink.old) (J.held journal_sink.new)) }
    ensures journal { IfOk result (λ _. D.modeled ≡ true → IfSome (known_input M.input_kind M.entries
        (S.left source.old)) (λ input.
        publisher.new.journal ≡ left_journal (input_published publisher.old.journal input))) }
    ensures failures { CountsPublish (S.failed source.old) (S.failed source.new) (K.failed sink.old)
        (K.failed sink.new) (J.failed journal_sink.old) (J.failed journal_sink.new) result }
{
    let mut outgoing = Outgoing::new(alloc);
    let two_lines = TwoLines {
        port,
        a: &a,
        b: &b,
        outgoing: &mut outgoing,
    };
    let mut publication = Publication {
        publisher,
        two_lines,
        datagrams: 0,
        alloc,
    };
    publication.publish::<M, S, K, J>(Closing { beats, ends }, source, sink, journal_sink)
}

/// Publishes as `publish_loop` does, with these options and devices.
pub fn publish<M: MessageReader, D: Datagrams, S: Source + Drop, K: Sink + Drop, J: Sink + Drop>(
    alloc: Global,
    port: &mut D,
    options: PublishOptions<D::Peer>,
    publisher: &mut Publisher,
    devices: &mut PublishDevices<S, K, J>,
) -> Result<u8, CommandFault>
    requires unclosed { publisher.old.journal.closed ≡ false }
    requires empty { publisher.old.journal.messages ≡ [] }
    ensures run { D.modeled ≡ true → IfSome (known_input M.input_kind M.entries
        (S.left devices.old.source)) (λ input.
        PublishRun options.a options.b options.beats options.ends publisher.old.limit
        (input_published publisher.old.journal input) result (D.port port.old) (D.port port.new)
        (K.held devices.old.sink) (K.held devices.new.sink)
        (J.held devices.old.journal) (J.held devices.new.journal)) }
    ensures journal { IfOk result (λ _. D.modeled ≡ true → IfSome (known_input M.input_kind M.entries
        (S.left devices.old.source)) (λ input.
        publisher.new.journal ≡ left_journal (input_published publisher.old.journal input))) }
    ensures failures { CountsPublish (S.failed devices.old.source) (S.failed devices.new.source)
        (K.failed devices.old.sink) (K.failed devices.new.sink)
        (J.failed devices.old.journal) (J.failed devices.new.journal) result }
{
    let PublishDevices {
        source,
        sink,
        journal,
    } = devices;
    let PublishOptions { a, b, beats, ends } = options;
    publish_loop::<M, D, S, K, J>(
        alloc, port, a, b, publisher, beats, ends, source, sink, journal,
    )
}
