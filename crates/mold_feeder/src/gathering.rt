//! Gathering the messages of an input into a group, which is then committed.

ghost use Rattle.std.specs.Prelude.{◌≡◌, ℕ, false, IfOk, List, Ok, OnErr, OnOk};
ghost use Rattle.std.specs.Io.KnownBytes.{prepend_known};
ghost use Rattle.mold_durable.specs.Life.{Life};
ghost use Rattle.mold_durable_publisher.specs.DurablePublisher.{Publishes};
ghost use Rattle.mold_durable.specs.Storage.{LeavesOnly};
ghost use Rattle.mold_durable_publisher.specs.Told.{IsTold, IsTrueNow};
ghost use Rattle.mold_feeder.specs.Gathering.{Gathers, Grows, IsFileUpTo, JoinsOrRefuses, TakesGroup};
ghost use Rattle.mold_input.specs.Entries.{known_input};
ghost use Rattle.mold_publish.specs.Publishing.{entry_outcome};

use crate::gathered::Gathered;
use mold_devices::{CommandFault, Source};
use mold_durable::{Storage, WaitingError};
use mold_durable_publisher::DurablePublisher;
use mold_durable_publisher::laws::told_law;
use mold_input::{InputKind, MessageReader, Next};
use mold_publish::{MessageRefusal, RefusalReason};
use mold_session::AppendError;

// Appends a message of an input of this kind to those that wait. Returns the refusal if the journal refuses it. The
// fault is `Write` if an earlier write of the journal failed, and `Memory` if an allocation failed.
fn join_waiting<S: Storage + Drop>(
    publisher: &mut DurablePublisher<S>,
    kind: InputKind,
    message: &[u8],
) -> Result<Option<MessageRefusal>, CommandFault>
    ensures joined { (life : Life) → Publishes S.shows S.may_leave publisher.old life → IfOk result
        (JoinsOrRefuses S.shows S.may_leave life publisher.old publisher.new
        (entry_outcome kind publisher.old.publisher.journal (Ok message.now))) }
    ensures same { OnErr result (publisher.new ≡ record publisher.old { index = publisher.new.index }) }
    ensures storage { publisher.new.durable.storage ≡ publisher.old.durable.storage }
    ensures intact { publisher.new.durable.broken ≡ publisher.old.durable.broken }
    ensures longest { publisher.new.publisher.journal.max_message ≡ publisher.old.publisher.journal.max_message }
{
    match publisher.append(message) {
        Ok(_) => Ok(None),
        Err(WaitingError::Broken) => Err(CommandFault::Write),
        Err(WaitingError::Append(AppendError::Memory)) => Err(CommandFault::Memory),
        Err(WaitingError::Append(why)) => {
            let why = RefusalReason::NotTaken(why);
            Ok(Some(MessageRefusal { kind, why }))
        }
    }
}

/// Appends messages of the input to those that wait to be committed, until there are `most`, the input ends, or an
/// entry is refused. After a fault, some of them may be appended.
pub fn gather<M: MessageReader, K: Source, S: Storage + Drop>(
    publisher: &mut DurablePublisher<S>,
    most: u64,
    messages: &mut M,
    source: &mut K,
) -> Result<Gathered, CommandFault>
    ensures gathered { (life : Life) → Publishes S.shows S.may_leave publisher.old life → IfOk result
        (Gathers S.shows S.may_leave life most publisher.old publisher.new
        (known_input M.input_kind M.entries (prepend_known (M.unread messages.old) (K.left source.old)))
        (known_input M.input_kind M.entries (prepend_known (M.unread messages.new) (K.left source.new)))) }
    ensures grows { (life : Life) → Publishes S.shows S.may_leave publisher.old life → OnErr result
        (Grows M.input_kind
        (known_input M.input_kind M.entries (prepend_known (M.unread messages.old) (K.left source.old)))
        publisher.old publisher.new) }
    ensures storage { publisher.new.durable.storage ≡ publisher.old.durable.storage }
    ensures intact { publisher.new.durable.broken ≡ publisher.old.durable.broken }
    ensures longest { publisher.new.publisher.journal.max_message ≡ publisher.old.publisher.journal.max_message }
{
    let kind = M::kind();
    for _message in 0..most {
        match messages.advance(source)? {
            Next::Message => {}
            Next::Fault { why } => {
                let why = RefusalReason::from_fault(why, publisher.is_closed());
                let refusal = MessageRefusal { kind, why };
                return Ok(Gathered::Refused { refusal });
            }
            Next::End => return Ok(Gathered::End),
        }
        if let Some(refusal) = join_waiting(publisher, kind, messages.message())? {
            return Ok(Gathered::Refused { refusal });
        }
    }
    Ok(Gathered::Full)
}

/// Takes messages of the input, until there are `most`, the input ends, or an entry is refused. Commits them together
/// with those that wait.
///
/// The fault is `Write` if the commit failed or an earlier one did. Otherwise a read or an allocation failed, and
/// nothing was committed.
pub fn take_group<M: MessageReader, K: Source, S: Storage + Drop>(
    publisher: &mut DurablePublisher<S>,
    most: u64,
    messages: &mut M,
    source: &mut K,
) -> Result<Gathered, CommandFault>
    ensures taken { (life : Life) → Publishes S.shows S.may_leave publisher.old life → IfOk result
        (TakesGroup S.shows S.may_leave life most publisher.old publisher.new
        (known_input M.input_kind M.entries (prepend_known (M.unread messages.old) (K.left source.old)))
        (known_input M.input_kind M.entries (prepend_known (M.unread messages.new) (K.left source.new)))) }
    ensures grows { (life : Life) → Publishes S.shows S.may_leave publisher.old life → OnErr result
        (Grows M.input_kind
        (known_input M.input_kind M.entries (prepend_known (M.unread messages.old) (K.left source.old)))
        publisher.old publisher.new) }
    ensures told { (life : Life) (datagram : List ℕ) → Publishes S.shows S.may_leave publisher.old life →
        IsTrueNow life datagram →
        LeavesOnly S.moment S.left_since publisher.old.durable.storage publisher.new.durable.storage
        (IsTold datagram) }
    ensures crash { (life : Life) → Publishes S.shows S.may_leave publisher.old life →
        publisher.old.durable.broken ≡ false →
        LeavesOnly S.moment S.left_since publisher.old.durable.storage publisher.new.durable.storage
        (IsFileUpTo life publisher.new) }
    ensures intact { OnOk result (publisher.new.durable.broken ≡ publisher.old.durable.broken) }
    ensures unfailed { OnOk result
        (S.failed publisher.new.durable.storage ≡ S.failed publisher.old.durable.storage) }
    ensures longest { publisher.new.publisher.journal.max_message ≡ publisher.old.publisher.journal.max_message }
{
    told_law();
    let gathered = gather(publisher, most, messages, source)?;
    match publisher.commit() {
        Ok(()) => Ok(gathered),
        Err(_) => Err(CommandFault::Write),
    }
}
