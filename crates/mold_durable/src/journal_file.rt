//! Opens, locks and creates the file of a journal.

use crate::durable_journal::DurableJournal;
use crate::error::OpenError;
use crate::file_storage::{FileStorage, read_all_at};
use crate::head::{UNFINISHED_LENGTH, is_unfinished};
use crate::journal_file_error::JournalFileError;
use crate::obstacle::Obstacle;
use mold_wire::Session;
use std::fs::{self, File, Metadata, OpenOptions, TryLockError};
use std::io::{self, ErrorKind};
use std::os::unix::fs::MetadataExt;

/// The number of attempts to open a file whose name changes before it is locked.
const TRIES: u32 = 100;

/// Opens the file at `path` for reading and writing, and locks it until the storage is dropped. The file is unchanged.
/// Returns `None` if nothing has the name `path`. A symbolic link to a file that does not exist is an error.
pub fn open_file(rt: &HostRuntime, path: &str) -> Result<Option<FileStorage>, JournalFileError> {
    for _ in 0..TRIES {
        if let Some(file) = lock_file(rt, path, false)? {
            return Ok(Some(FileStorage::new(file)));
        }
        match fs::symlink_metadata(rt, path) {
            Ok(found) if found.is_symlink() => {
                return Err(JournalFileError::Obstructed(Obstacle::LinkToNothing));
            }
            // Another process has created the file since.
            Ok(_) => {}
            Err(error) if error.kind() == ErrorKind::NotFound => return Ok(None),
            Err(_) => return Err(JournalFileError::Write),
        }
    }
    Err(JournalFileError::Locked)
}

/// Creates the file at `path` with an open journal without messages, and locks it until the journal is dropped. Returns
/// `None` if the file exists.
///
/// The journal is written to a new file with `.new` after its name, which then gets the name `path` too, and loses its
/// first name. So a file at `path` has a journal at every moment. Call `sync_folder` afterwards: until then, a power
/// failure may remove the name. The file system has to support hard links.
///
/// If the name of the new file is taken, what has it is removed only if an interrupted creation left it. Otherwise it
/// stays as it is, and the error is `Locked` or `Obstructed`.
pub fn create_file(
    rt: &HostRuntime,
    path: &str,
    session: Session,
    max_message: u16,
) -> Result<Option<DurableJournal<FileStorage>>, JournalFileError> {
    let alloc = rt.alloc();
    let Ok(new_path) = format!(in alloc; "{path}.new") else {
        return Err(JournalFileError::Memory);
    };
    let storage = FileStorage::new(new_file(rt, new_path.as_str(), path)?);
    let journal = match DurableJournal::create(alloc, session, max_message, storage) {
        Ok(journal) => journal,
        Err(fault) if fault.error == OpenError::Memory => return Err(JournalFileError::Memory),
        Err(_) => return Err(JournalFileError::Write),
    };
    let linked = fs::hard_link(rt, new_path.as_str(), path);
    if fs::remove_file(rt, new_path.as_str()).is_err() {
        return Err(JournalFileError::Write);
    }
    match linked {
        Ok(()) => Ok(Some(journal)),
        Err(error) if error.kind() == ErrorKind::AlreadyExists => Ok(None),
        Err(_) => Err(JournalFileError::Write),
    }
}

/// Makes the name of the file at `path` durable, by a sync of its folder.
pub fn sync_folder(rt: &HostRuntime, path: &str) -> Result<(), JournalFileError> {
    let folder = match path.rsplit_once('/') {
        Some(("", _)) => "/",
        Some((folder, _)) => folder,
        None => ".",
    };
    let Ok(folder) = File::open(rt, folder) else {
        return Err(JournalFileError::Write);
    };
    match folder.sync_all() {
        Ok(()) => Ok(()),
        Err(_) => Err(JournalFileError::Write),
    }
}

// Creates the file at `new_path`, without bytes, and locks it. If an interrupted creation of the journal at `path` has
// left a file there, removes that one first.
fn new_file(rt: &HostRuntime, new_path: &str, path: &str) -> Result<File, JournalFileError> {
    for _ in 0..TRIES {
        if let Some(file) = created_file(rt, new_path)? {
            return Ok(file);
        }
        remove_unfinished(rt, new_path, path)?;
    }
    Err(JournalFileError::Locked)
}

// Creates a file at `path` and locks it. Returns `None` if the name is taken, or was removed before the lock.
fn created_file(rt: &HostRuntime, path: &str) -> Result<Option<File>, JournalFileError> {
    let mut options = open_options(false);
    let file = match options.create_new(true).open(rt, path) {
        Ok(file) => file,
        Err(error) if error.kind() == ErrorKind::AlreadyExists => return Ok(None),
        Err(_) => return Err(JournalFileError::Write),
    };
    lock(&file)?;
    let opened = written(file.metadata())?;
    if is_at(rt, path, &opened)? {
        Ok(Some(file))
    } else {
        Ok(None)
    }
}

// Removes the file at `new_path` if an interrupted creation of the journal at `path` has left it. Does nothing if the
// name is free or changes meanwhile. A symbolic link is not followed, and only a regular file is opened.
fn remove_unfinished(rt: &HostRuntime, new_path: &str, path: &str) -> Result<(), JournalFileError> {
    let found = match fs::symlink_metadata(rt, new_path) {
        Ok(found) if found.is_symlink() => return obstructed(Obstacle::Link),
        Ok(found) if !found.is_file() => return obstructed(Obstacle::NotRegular),
        Ok(found) => found,
        Err(error) if error.kind() == ErrorKind::NotFound => return Ok(()),
        Err(_) => return Err(JournalFileError::Write),
    };
    let file = match open_options(false).open(rt, new_path) {
        Ok(file) => file,
        Err(error) if error.kind() == ErrorKind::NotFound => return Ok(()),
        Err(_) => return obstructed(Obstacle::NotOpened),
    };
    // Between the two calls, another file may have got the name.
    if !is_same(&found, &written(file.metadata())?) {
        return Ok(());
    }
    lock(&file)?;
    if !is_at(rt, new_path, &found)? {
        return Ok(());
    }
    if !is_at(rt, path, &found)? && !has_unfinished_head(&file)? {
        return obstructed(Obstacle::OtherFile);
    }
    written(fs::remove_file(rt, new_path))
}

fn obstructed(obstacle: Obstacle) -> Result<(), JournalFileError> {
    Err(JournalFileError::Obstructed(obstacle))
}

// Returns whether the bytes of the file are those that an interrupted creation leaves.
fn has_unfinished_head(file: &File) -> Result<bool, JournalFileError> {
    let mut bytes = [0; UNFINISHED_LENGTH + 1];
    match read_all_at(file, 0, &mut bytes) {
        Ok(count) => Ok(is_unfinished(&bytes[..count])),
        Err(_) => Err(JournalFileError::Write),
    }
}

// Opens the file at `path` for reading and writing, and locks it. If `creates` is set, a file that does not exist is
// created; otherwise `None` is returned for it.
pub(crate) fn lock_file(
    rt: &HostRuntime,
    path: &str,
    creates: bool,
) -> Result<Option<File>, JournalFileError> {
    for _ in 0..TRIES {
        let file = match open_options(creates).open(rt, path) {
            Ok(file) => file,
            Err(error) if !creates && error.kind() == ErrorKind::NotFound => return Ok(None),
            Err(_) => return Err(JournalFileError::Write),
        };
        lock(&file)?;
        match is_named(rt, path, &file) {
            Ok(true) => return Ok(Some(file)),
            Ok(false) => {}
            Err(_) => return Err(JournalFileError::Write),
        }
    }
    Err(JournalFileError::Locked)
}

// Locks the file until it is closed.
fn lock(file: &File) -> Result<(), JournalFileError> {
    match file.try_lock() {
        Ok(()) => Ok(()),
        Err(TryLockError::WouldBlock) => Err(JournalFileError::Locked),
        Err(TryLockError::Error(_)) => Err(JournalFileError::Write),
    }
}

// Returns the outcome of a call of the system.
fn written<T>(outcome: io::Result<T>) -> Result<T, JournalFileError> {
    match outcome {
        Ok(value) => Ok(value),
        Err(_) => Err(JournalFileError::Write),
    }
}

fn open_options(creates: bool) -> OpenOptions {
    let mut options = OpenOptions::new();
    options.read(true).write(true).create(creates);
    options
}

// Returns whether `path` is a name of the file. Between the opening and the lock, its process may have removed that
// name.
fn is_named(rt: &HostRuntime, path: &str, file: &File) -> io::Result<bool> {
    let named = match fs::metadata(rt, path) {
        Ok(named) => named,
        Err(error) if error.kind() == ErrorKind::NotFound => return Ok(false),
        Err(error) => return Err(error),
    };
    Ok(is_same(&named, &file.metadata()?))
}

// Returns whether the file has the name `path`. A symbolic link is not followed.
fn is_at(rt: &HostRuntime, path: &str, file: &Metadata) -> Result<bool, JournalFileError> {
    match fs::symlink_metadata(rt, path) {
        Ok(named) => Ok(is_same(&named, file)),
        Err(error) if error.kind() == ErrorKind::NotFound => Ok(false),
        Err(_) => Err(JournalFileError::Write),
    }
}

// Returns whether two files are the same.
fn is_same(one: &Metadata, other: &Metadata) -> bool {
    one.dev() == other.dev() && one.ino() == other.ino()
}
