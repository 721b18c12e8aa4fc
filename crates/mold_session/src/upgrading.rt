//! Rewrites the file of a journal in version 2.

ghost use Rattle.std.specs.Prelude.{◌≡◌, IfOk, IfErr};
ghost use Rattle.mold_session.specs.Loading.{CountsLoad};
ghost use Rattle.mold_session.specs.Upgrading.{Upgrades, RefusesUpgrade, CountsSave};
ghost use Rattle.mold_session.specs.declared.error.FileError.{FileError};

use crate::error::FileError;
use crate::loading::load_file;
use crate::saving::save_file;
use mold_devices::{Sink, Source};
use mold_wire::MAX_MESSAGE;
use std::alloc::Global;

/// What `upgrade` read and wrote.
#[derive(Clone, Copy, Debug, PartialEq, Eq)]
pub struct Upgraded {
    /// The number of messages in the journal.
    pub messages: u64,
    /// Whether the new file states that the session is closed.
    pub closed: bool,
    /// The version of the file that was read: 1, 2 or 3.
    pub from: u8,
}

/// Reads the file of a journal, of any version, and writes it in version 2. The new file is closed if the old one
/// was or if `close` is true.
///
/// If the old file is refused, nothing is written; after `Write`, a prefix of the new file is.
pub fn upgrade<S: Source, K: Sink>(
    alloc: Global,
    source: &mut S,
    sink: &mut K,
    close: bool,
) -> Result<Upgraded, FileError>
    ensures whole { IfOk result (λ upgraded. Upgrades (S.left source.old)
        (K.held sink.old) (K.held sink.new) close upgraded) }
    ensures refused { IfErr result (λ error. RefusesUpgrade (S.left source.old)
        (K.held sink.old) (K.held sink.new) close error) }
    ensures untouched { IfErr result (λ error. (error ≡ FileError.Write → ⊥) → sink.new ≡ sink.old) }
    ensures read_failures { CountsLoad (S.failed source.old) (S.failed source.new) result }
    ensures write_failures { CountsSave (K.failed sink.old) (K.failed sink.new) result }
{
    let (head, list) = load_file(alloc, MAX_MESSAGE, source)?;
    let closed = head.closed || close;
    let messages = list.len() as u64;
    let Ok(()) = save_file(head.session, closed, &list, sink) else {
        return Err(FileError::Write);
    };
    Ok(Upgraded {
        messages,
        closed,
        from: head.version.number(),
    })
}
