//! A storage in a file.

ghost use Rattle.std.specs.Prelude.{◌≡◌, ◌+◌, ◌<◌, ◌≤◌, ◌^◌, length, IfOk, OnOk};
ghost use Rattle.std.specs.Io.{ReadsAtMost};
ghost use Rattle.mold_devices.specs.Devices.{Counts};

use crate::storage::Storage;
use mold_devices::DeviceFault;
use std::fs::File;
use std::io;
use std::os::unix::fs::FileExt;

/// The greatest length of a file, in bytes.
pub const MAX_LENGTH: u64 = i64::MAX as u64;

/// A file as a storage. It reads with `pread`, writes with `pwrite` and syncs with `fdatasync`.
///
/// No contract can state what a file contains. So no bytes satisfy `shows` or `may_leave` here, and the clauses of
/// `Storage` about bytes state nothing. The tests check what they would state.
#[derive(Drop)]
pub struct FileStorage {
    file: File,
    failures: u64,
}

impl FileStorage {
    /// Makes a storage in a file that is open for reading and writing.
    pub fn new(file: File) -> FileStorage {
        FileStorage { file, failures: 0 }
    }
}

impl Storage for FileStorage {
    ghost shows = { λ s bytes. ⊥ };

    ghost may_leave = { λ s bytes. ⊥ };

    ghost moment = { λ s. 0 };

    ghost left_since = { λ s earlier bytes. ⊥ };

    ghost failed = { λ s. s.failures };

    ghost counts_now = { λ s earlier bytes le left. left };

    ghost only_now = { λ s bytes left. left };

    fn read_at(&mut self, at: u64, buffer: &mut [u8]) -> Result<usize, DeviceFault> {
        let most = MAX_LENGTH.saturating_sub(at).min(buffer.len() as u64) as usize;
        match read_all_at(&self.file, at, &mut buffer[..most]) {
            Ok(count) => Ok(count),
            Err(_) => {
                self.failures = self.failures.saturating_add(1);
                Err(DeviceFault)
            }
        }
    }

    fn write_at(&mut self, at: u64, bytes: &[u8]) -> Result<(), DeviceFault> {
        let ends_within = at <= MAX_LENGTH && bytes.len() as u64 <= MAX_LENGTH - at;
        if ends_within && self.file.write_all_at(bytes, at).is_ok() {
            return Ok(());
        }
        self.failures = self.failures.saturating_add(1);
        Err(DeviceFault)
    }

    fn sync(&mut self) -> Result<(), DeviceFault> {
        if self.file.sync_data().is_ok() {
            return Ok(());
        }
        self.failures = self.failures.saturating_add(1);
        Err(DeviceFault)
    }

    fn failures(&self) -> u64 {
        self.failures
    }
}

/// Reads from offset `at` on until the buffer is full or the file ends, and returns how many bytes.
// Each call that reads something reads at least one byte, so the loop ends in time.
pub fn read_all_at(file: &File, at: u64, buffer: &mut [u8]) -> io::Result<usize>
    ensures count { ReadsAtMost result buffer.new }
    ensures same { length buffer.new ≡ length buffer.old }
{
    let mut count = 0;
    for _ in 0..buffer.len() {
        let read = file.read_at(&mut buffer[count..], at.saturating_add(count as u64))?;
        if read == 0 {
            break;
        }
        count += read;
        if count == buffer.len() {
            break;
        }
    }
    Ok(count)
}
