//! A writer that replaces the contents of a file, unless another process writes the file.

use crate::journal_file::lock_file;
use crate::journal_file_error::JournalFileError;
use std::fs::{self, File};
use std::io::{self, Error, ErrorKind, Write};

/// A writer to the file at a path. Its first write creates the file, or empties it if it exists. So a file does not
/// change if nothing is written.
///
/// A regular file is locked before it is emptied, until this value is dropped. So the journal that another process
/// writes is never emptied. Other files, such as devices and pipes, are not locked.
#[derive(Drop)]
pub struct ReplacedFile<'a> {
    rt: &'a HostRuntime,
    path: &'a str,
    file: Option<File>,
    is_begun: bool,
    is_locked: bool,
}

impl<'a> ReplacedFile<'a> {
    /// Makes a writer to the file at `path`. A regular file that exists is locked at once, and not changed.
    pub fn open(rt: &'a HostRuntime, path: &'a str) -> Result<ReplacedFile<'a>, JournalFileError> {
        let file = match fs::metadata(rt, path) {
            Ok(found) if found.is_file() => lock_file(rt, path, false)?,
            _ => None,
        };
        Ok(ReplacedFile {
            rt,
            path,
            file,
            is_begun: false,
            is_locked: false,
        })
    }

    /// Returns whether a write failed because another process writes the file, which it has created in the meantime.
    pub fn is_locked(&self) -> bool {
        self.is_locked
    }

    // Creates the file, or empties it.
    fn begin(&mut self) -> io::Result<()> {
        if self.file.is_none() {
            self.file = Some(self.created()?);
        }
        if let Some(file) = &self.file {
            if file.metadata()?.is_file() {
                file.set_len(0)?;
            }
        }
        self.is_begun = true;
        Ok(())
    }

    // Opens the file, which did not exist when this writer was made, or is not a regular file.
    fn created(&mut self) -> io::Result<File> {
        if let Ok(found) = fs::metadata(self.rt, self.path) {
            if !found.is_file() {
                return fs::create(self.rt, self.path);
            }
        }
        match lock_file(self.rt, self.path, true) {
            Ok(Some(file)) => Ok(file),
            Err(JournalFileError::Locked) => {
                self.is_locked = true;
                Err(Error::from(ErrorKind::WouldBlock))
            }
            _ => Err(Error::from(ErrorKind::Other)),
        }
    }
}

impl Write for ReplacedFile<'_> {
    fn write(&mut self, bytes: &[u8]) -> io::Result<usize> {
        if !self.is_begun {
            self.begin()?;
        }
        match &mut self.file {
            Some(file) => file.write(bytes),
            None => Err(Error::from(ErrorKind::Other)),
        }
    }

    fn flush(&mut self) -> io::Result<()> {
        match &mut self.file {
            Some(file) => file.flush(),
            None => Ok(()),
        }
    }
}
