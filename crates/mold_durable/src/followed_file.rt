//! A file that another process writes.

ghost use Rattle.mold_durable.specs.GrowingFile.{no_later};

use crate::file_storage::{MAX_LENGTH, read_all_at};
use crate::growing_file::GrowingFile;
use mold_devices::DeviceFault;
use std::fs::File;

/// A file of the system that another process writes. It reads with `pread` and syncs with `fdatasync`.
///
/// No contract can state what a file contains. So no history is possible here, and the clauses of `GrowingFile` about
/// bytes state nothing. The tests check what they would state.
#[derive(Drop)]
pub struct FollowedFile {
    file: File,
    failures: u64,
}

impl FollowedFile {
    /// Makes a followed file of a file that is open for reading.
    pub fn new(file: File) -> FollowedFile {
        FollowedFile { file, failures: 0 }
    }
}

impl GrowingFile for FollowedFile {
    ghost history = { λ f bytes. ⊥ };

    ghost moment = { λ f. 0 };

    ghost synced = { λ f. 0 };

    ghost failed = { λ f. f.failures };

    ghost synced_now = { λ f. no_later 0 0 };

    fn read_at(&mut self, at: u64, buffer: &mut [u8]) -> Result<usize, DeviceFault> {
        let most = MAX_LENGTH.saturating_sub(at).min(buffer.len() as u64) as usize;
        match read_all_at(&self.file, at, &mut buffer[..most]) {
            Ok(count) => Ok(count),
            Err(_) => {
                self.failures = self.failures.saturating_add(1);
                Err(DeviceFault)
            }
        }
    }

    fn sync(&mut self) -> Result<(), DeviceFault> {
        if self.file.sync_data().is_ok() {
            return Ok(());
        }
        self.failures = self.failures.saturating_add(1);
        Err(DeviceFault)
    }

    fn failures(&self) -> u64 {
        self.failures
    }
}
