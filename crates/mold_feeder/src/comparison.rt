//! The comparison of an input with the messages of the journal that was found.

ghost use Rattle.std.specs.Prelude.{◌≡◌, ◌+◌, ◌≤◌, IfErr, IfOk, length, Ok, Some};
ghost use Rattle.std.specs.Io.KnownBytes.{prepend_known};
ghost use Rattle.mold_feeder.specs.Comparison.{ComparesAll, ComparesNext, CountsCompare, IsDeviceFault, IsOfFile};
ghost use Rattle.mold_feeder.specs.Comparison.{compared_short, number_after};
ghost use Rattle.mold_feeder.specs.JournalMessages.{HasMessages};
ghost use Rattle.mold_input.specs.Entries.{known_entries};
ghost use Rattle.mold_session.specs.Journal.{JournalState, message_numbered};

use crate::compare_fault::CompareFault;
use crate::compared::Compared;
use crate::journal_messages::JournalMessages;
use mold_devices::Source;
use mold_durable::Storage;
use mold_durable_publisher::DurablePublisher;
use mold_input::{MessageReader, Next};
use mold_publish::RefusalReason;
use mold_session::AppendError;

// Compares a message with the journal's message `other`. A message of a journal has at most `max_message` bytes.
fn compare_message(max_message: u16, other: &[u8], message: &[u8]) -> Compared
    ensures { result ≡ compared_short max_message (Some other.now) message.now }
{
    if message.len() > usize::from(max_message) {
        let why = RefusalReason::NotTaken(AppendError::TooLong { len: message.len() });
        return Compared::Refused { why };
    }
    if other == message {
        Compared::Same
    } else {
        Compared::Differs
    }
}

/// Compares the next entry of an input with the message of this number that the journal's file has. It is the message
/// that was compared last, or the one after it. The entry is read only if the file has the message, and the message is
/// then the file's last one that was read.
///
/// The fault is `FewerMessages` if the file ends before the message. Under the premise of `compared`, this occurs only
/// if the journal has no message of this number.
pub fn compare_next<S: Storage + Drop, J: Source + Drop, M: MessageReader, K: Source>(
    publisher: &DurablePublisher<S>,
    journal: &mut JournalMessages<J>,
    number: u64,
    messages: &mut M,
    source: &mut K,
) -> Result<Compared, CompareFault>
    // The entry was compared with the message that was read, whatever the file is.
    ensures read { (state : JournalState) → state.max_message ≡ publisher.now.publisher.journal.max_message →
        message_numbered state.messages number ≡ Some journal.new.reader.message →
        IfOk result (ComparesNext state number
        (known_entries M.entries (prepend_known (M.unread messages.old) (K.left source.old)))
        (known_entries M.entries (prepend_known (M.unread messages.new) (K.left source.new)))) }
    ensures compared { HasMessages J.left journal.old publisher.now.publisher.journal.messages number →
        IfOk result (ComparesNext publisher.now.publisher.journal number
        (known_entries M.entries (prepend_known (M.unread messages.old) (K.left source.old)))
        (known_entries M.entries (prepend_known (M.unread messages.new) (K.left source.new)))) }
    ensures messages { HasMessages J.left journal.old publisher.now.publisher.journal.messages number →
        IfOk result (λ compared. HasMessages J.left journal.new publisher.now.publisher.journal.messages
        (number_after compared number)) }
    ensures fault { HasMessages J.left journal.old publisher.now.publisher.journal.messages number →
        number ≤ length publisher.now.publisher.journal.messages → IfErr result IsDeviceFault }
    ensures unread { IfErr result (λ fault. IsOfFile fault →
        (messages.new ≡ messages.old) × (source.new ≡ source.old)) }
    ensures failures { CountsCompare (K.failed source.old) (K.failed source.new)
        (J.failed journal.old.source) (J.failed journal.new.source) result }
{
    if !journal.read_to(number)? {
        return Err(CompareFault::FewerMessages);
    }
    match messages.advance(source)? {
        Next::Message => {
            let max_message = publisher.max_message();
            Ok(compare_message(max_message, journal.message(), messages.message()))
        }
        Next::Fault { why } => {
            let why = RefusalReason::NotRead(why);
            Ok(Compared::Refused { why })
        }
        Next::End => Ok(Compared::End),
    }
}

/// Compares the entries of an input with the journal's messages from number `number` on, until all were compared, an
/// entry is not the same message, or the input ends. Returns the number at which it stopped and how. `Same` means that
/// all messages were compared.
///
/// The messages are read from the journal's file. If another process has changed it, so that it has other messages than
/// the publisher's journal, the result states nothing of the journal.
pub fn compare_all<S: Storage + Drop, J: Source + Drop, M: MessageReader, K: Source>(
    publisher: &DurablePublisher<S>,
    journal: &mut JournalMessages<J>,
    number: u64,
    messages: &mut M,
    source: &mut K,
) -> Result<(u64, Compared), CompareFault>
    requires some { 1 ≤ number }
    requires within { number ≤ length publisher.now.publisher.journal.messages + 1 }
    ensures compared { HasMessages J.left journal.old publisher.now.publisher.journal.messages number →
        IfOk result (λ found. ComparesAll publisher.now.publisher.journal number found.0
        (known_entries M.entries (prepend_known (M.unread messages.old) (K.left source.old)))
        (known_entries M.entries (prepend_known (M.unread messages.new) (K.left source.new))) found.1) }
    ensures messages { HasMessages J.left journal.old publisher.now.publisher.journal.messages number →
        IfOk result (λ found. HasMessages J.left journal.new publisher.now.publisher.journal.messages found.0) }
    ensures fault { HasMessages J.left journal.old publisher.now.publisher.journal.messages number →
        IfErr result IsDeviceFault }
    ensures within { IfOk result (λ found. (1 ≤ found.0)
        × (found.0 ≤ length publisher.now.publisher.journal.messages + 1)) }
    ensures failures { CountsCompare (K.failed source.old) (K.failed source.new)
        (J.failed journal.old.source) (J.failed journal.new.source) result }
{
    let mut at = number;
    while at <= publisher.count() {
        match compare_next(publisher, journal, at, messages, source)? {
            Compared::Same => at += 1,
            stopped => return Ok((at, stopped)),
        }
    }
    Ok((at, Compared::Same))
}
