//! Opens the journal's file.

use crate::problem::Problem;
use mold_durable::{DurableJournal, FileStorage, create_file, open_file, sync_folder};
use mold_wire::Session;

/// The session of each journal.
pub(crate) const SESSION: Session = Session(*b"DURABLE   ");

/// The largest length of a message, in bytes.
pub(crate) const MAX_MESSAGE: u16 = u16::MAX;

/// Opens the journal's file, or creates it if it does not exist.
pub(crate) fn open_journal(
    rt: &HostRuntime,
    path: &str,
) -> Result<DurableJournal<FileStorage>, Problem> {
    let journal = match open_file(rt, path)? {
        Some(storage) => resume(rt, storage)?,
        None => create(rt, path)?,
    };
    sync_folder(rt, path)?;
    Ok(journal)
}

fn resume(rt: &HostRuntime, storage: FileStorage) -> Result<DurableJournal<FileStorage>, Problem> {
    match DurableJournal::open(rt.alloc(), MAX_MESSAGE, storage) {
        Ok(journal) => Ok(journal),
        Err(_) => Err(Problem::File),
    }
}

/// Creates the journal's file. It fails if the file exists.
pub(crate) fn create(rt: &HostRuntime, path: &str) -> Result<DurableJournal<FileStorage>, Problem> {
    match create_file(rt, path, SESSION, MAX_MESSAGE)? {
        Some(journal) => Ok(journal),
        None => Err(Problem::File),
    }
}
