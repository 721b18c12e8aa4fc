//! The command `close`: it ends the session of a journal file.

ghost use Rattle.std.specs.Prelude.{◌≡◌, ◌++◌, false, true, [], IfOk, OnOk};
ghost use Rattle.mold_durable.specs.Life.{IsFileAround, Life, Lives, after};
ghost use Rattle.mold_durable.specs.Life.Moment.{Close};
ghost use Rattle.mold_durable.specs.Storage.{LeavesOnly};
ghost use Rattle.mold_feed_command.specs.Closing.{EndsClose, close_status, close_text};

use crate::refusing::{fault_of, refuse_file};
use mold_devices::{CommandFault, IntoWrite, Sink, send};
use mold_durable::{
    DurableJournal, FileStorage, JournalFileError, Storage, open_file, sync_folder,
};
use mold_follow::load_error;
use mold_text::{Word, push_line, push_refused};
use mold_wiring::{ProgramFault, flushed, print_explanation};
use mold_words::CloseOrder;
use std::alloc::{AllocError, Global};
use std::io::Write;

/// The status of a command that refuses its journal file.
const REFUSED: u8 = 2;

const MISSING: &str = "it does not exist";

const NOT_OPENED: &str = "it can't be opened for reading and writing";

// Appends the line for a journal with this number of messages, which is closed already or not, and returns the status.
fn push_closed(out: &mut Vec<u8>, closed: bool, count: u64) -> Result<u8, AllocError>
    ensures text { OnOk result (out.new.items ≡ out.old.items ++ close_text closed count) }
    ensures status { IfOk result (λ status. status ≡ close_status closed) }
{
    if closed {
        push_refused(out, &[Word::Text(b"Closed")])?;
        Ok(REFUSED)
    } else {
        push_line(out, &[Word::Text(b"closed"), Word::Number(count)])?;
        Ok(0)
    }
}

/// Closes a journal in which no message waits, prints the number of its messages, and returns the status, which is 0.
/// A journal that is closed already is refused with status 2, and stays as it is.
///
/// A crash at any moment of the call leaves the open journal or the closed one, with all messages. `Memory` is returned
/// only if an allocation failed, before the journal is closed.
pub fn close_journal<S: Storage, K: Sink>(
    alloc: Global,
    journal: &mut DurableJournal<S>,
    sink: &mut K,
) -> Result<u8, CommandFault>
    requires intact { journal.old.broken ≡ false }
    requires none_waits { journal.old.waiting ≡ [] }
    ensures ends { EndsClose S.failed K.held K.failed journal.old journal.new sink.old sink.new result }
    ensures lives { (life : Life) → Lives S.shows S.may_leave journal.old life → journal.old.closed ≡ false →
        journal.new.closed ≡ true → Lives S.shows S.may_leave journal.new (after life Close) }
    ensures any_moment { (life : Life) → Lives S.shows S.may_leave journal.old life →
        LeavesOnly S.moment S.left_since journal.old.storage journal.new.storage (IsFileAround life Close) }
    ensures same { journal.old.closed ≡ true → journal.new ≡ journal.old }
{
    let mut text = Vec::new(alloc);
    let status = push_closed(&mut text, journal.is_closed(), journal.committed())?;
    let Ok(()) = journal.close() else {
        return Err(CommandFault::Write);
    };
    send(sink, &mut text)?;
    Ok(status)
}

// Closes the journal of the file at `path`, which is opened, or prints why the file is refused. The name of the file is
// durable before the journal is closed.
fn close_file(rt: &HostRuntime, path: &str, storage: FileStorage) -> Result<u8, ProgramFault> {
    let mut sink = IntoWrite::new(rt.stdout());
    let outcome = match DurableJournal::open(rt.alloc(), u16::MAX, storage) {
        Ok(mut journal) => {
            if let Err(error) = sync_folder(rt, path) {
                return Err(fault_of(rt, path, error));
            }
            close_journal(rt.alloc(), &mut journal, &mut sink)
        }
        Err(fault) => refuse_file(rt.alloc(), load_error(fault.error), &mut sink),
    };
    Ok(flushed(outcome, sink.into_inner().flush())?)
}

// Prints why the file at `path` is not opened. If that can't be printed, only the fault is.
fn explain(rt: &HostRuntime, path: &str, reason: &str) {
    let mut errors = IntoWrite::new(rt.stderr());
    let _ = print_explanation(rt.alloc(), path, "", reason, &mut errors);
}

/// Closes the journal of a file of version 3: appends its closing record, and prints the number of its messages. A
/// refusal is printed on standard output. A file that is closed, or that is not such a journal, stays as it is.
pub fn run_close(rt: &HostRuntime, order: &CloseOrder) -> Result<u8, ProgramFault> {
    let path = order.journal.as_str();
    match open_file(rt, path) {
        Ok(Some(storage)) => close_file(rt, path, storage),
        Ok(None) => {
            explain(rt, path, MISSING);
            Err(ProgramFault::Command(CommandFault::Read))
        }
        Err(error) => {
            if error == JournalFileError::Write {
                explain(rt, path, NOT_OPENED);
            }
            Err(fault_of(rt, path, error))
        }
    }
}
