//! A file as a storage that does not wait for the disk.

use mold_devices::DeviceFault;
use mold_durable::{FileStorage, Storage};

/// A file as a storage whose sync does nothing. What is written survives the end of the process, and may be lost if the
/// machine fails.
#[derive(Drop)]
pub(crate) struct UnsyncedFile {
    file: FileStorage,
}

impl UnsyncedFile {
    /// Makes a storage in a file that is open for reading and writing.
    pub(crate) fn new(file: FileStorage) -> UnsyncedFile {
        UnsyncedFile { file }
    }
}

impl Storage for UnsyncedFile {
    ghost shows = { λ s bytes. ⊥ };

    ghost may_leave = { λ s bytes. ⊥ };

    ghost moment = { λ s. 0 };

    ghost left_since = { λ s earlier bytes. ⊥ };

    ghost failed = { λ s. ⟦<FileStorage as Storage>⟧.failed s.file };

    ghost counts_now = { λ s earlier bytes le left. left };

    ghost only_now = { λ s bytes left. left };

    fn read_at(&mut self, at: u64, buffer: &mut [u8]) -> Result<usize, DeviceFault> {
        self.file.read_at(at, buffer)
    }

    fn write_at(&mut self, at: u64, bytes: &[u8]) -> Result<(), DeviceFault> {
        self.file.write_at(at, bytes)
    }

    fn sync(&mut self) -> Result<(), DeviceFault> {
        Ok(())
    }

    fn failures(&self) -> u64 {
        self.file.failures()
    }
}
