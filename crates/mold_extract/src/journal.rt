//! Writes the journal of a whole session.

ghost use Rattle.std.specs.Prelude.{◌≡◌, ◌<◌, ◌^◌, ◌+◌, [], true, ℕ, List, IfNone, IfOk, IfSome, OnErr, OnOk};
ghost use Rattle.std.specs.Io.KnownBytes.{Appends};
ghost use Rattle.mold_devices.specs.Devices.{AppendsPrefix, Counts};
ghost use Rattle.mold_session.specs.File.{head_2, magic_2};
ghost use Rattle.mold_extract.specs.Journal.{AppendsJournalPrefix, IsWholeSession, Saves, journal_file};

use crate::block_buffer::BlockBuffer;
use crate::blocks::put_blocks;
use crate::carried_range::CarriedRange;
use crate::extracted::Extracted;
use crate::fullness::is_full;
use byteorder::{BigEndian, ByteOrder};
use mold_capture::Checker;
use mold_devices::{DeviceFault, Sink};
use mold_wire::Session;

// The magic bytes of version 2.
#[tactic(auto, unfolding(mold_session::specs::File::magic_2))]
fn magic() -> [u8; 8]
    ensures { result ≡ magic_2 }
{
    *b"MOLDJNL2"
}

// Puts the head of the file of a closed journal into an empty buffer.
fn keep_head(buffer: &mut BlockBuffer, session: Session, count: u64)
    requires { buffer.old ≡ [] }
    ensures { buffer.new ≡ head_2 session.0 true count }
{
    let mut number = [0; 8];
    BigEndian::write_u64(&mut number, count);
    buffer.keep(&magic());
    buffer.keep(&session.0);
    buffer.keep(&[1]);
    buffer.keep(&number);
}

// Writes the journal of a session with this name and the carried messages 1 to `count`.
fn write_journal<K: Sink>(
    checker: &Checker,
    session: Session,
    count: u64,
    sink: &mut K,
) -> Result<(), DeviceFault>
    requires { count + 1 < 2 ^ 64 }
    ensures whole { OnOk result
        (Appends (K.held sink.old) (K.held sink.new) (journal_file session.0 checker.now count)) }
    ensures front { OnErr result
        (AppendsPrefix (K.held sink.old) (K.held sink.new) (journal_file session.0 checker.now count)) }
    ensures failures { Counts (K.failed sink.old) (K.failed sink.new) result }
{
    let mut buffer = BlockBuffer::new();
    keep_head(&mut buffer, session, count);
    let mut carried = CarriedRange::new(checker, 1, count + 1);
    put_blocks(&mut buffer, sink, &mut carried)?;
    Ok(())
}

// Returns the name and the number of messages of the session if it is whole.
fn whole_session(checker: &Checker) -> Option<(Session, u64)>
    ensures some { IfSome result (λ whole. IsWholeSession checker.now whole.0.0 whole.1) }
    ensures few { IfSome result (λ whole. whole.1 + 1 < 2 ^ 64) }
    ensures none { IfNone result
        ((session : List ℕ) (count : ℕ) → IsWholeSession checker.now session count → ⊥) }
{
    let session = checker.session()?;
    let end = checker.end()?;
    if end == 0 || !is_full(checker, 1, end) {
        return None;
    }
    Some((session, end - 1))
}

/// Writes the messages of a whole session as the file of a closed journal of version 2, and returns their number. If
/// the session is not whole, as in `Checker::verdict`, nothing is written.
///
/// The file is written in pieces of about 64 KiB. After a fault, a prefix of it was written. Nothing is allocated.
pub fn save_journal<K: Sink>(checker: &Checker, sink: &mut K) -> Result<Extracted, DeviceFault>
    ensures saved { IfOk result (λ saved. Saves (K.held sink.old) (K.held sink.new) checker.now saved) }
    ensures front { OnErr result (AppendsJournalPrefix (K.held sink.old) (K.held sink.new) checker.now) }
    ensures failures { Counts (K.failed sink.old) (K.failed sink.new) result }
{
    let Some((session, messages)) = whole_session(checker) else {
        return Ok(Extracted::Holes);
    };
    write_journal(checker, session, messages, sink)?;
    Ok(Extracted::All { messages })
}
