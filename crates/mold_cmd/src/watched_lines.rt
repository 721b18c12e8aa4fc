//! Lines whose reading is shown on a terminal.

ghost use Rattle.std.specs.Prelude.{◌≡◌};

use crate::progress::Progress;
use mold_capture_commands::Watch;
use mold_devices::{DeviceFault, Source};

/// A source of lines that are datagrams. While it is read, a line on a terminal states how far.
#[derive(Drop)]
pub(crate) struct WatchedLines<'a, S> {
    source: S,
    progress: Progress<'a>,
    bytes: u64,
    lines: u64,
}

impl<'a, S> WatchedLines<'a, S> {
    pub(crate) fn new(source: S, progress: Progress<'a>) -> WatchedLines<'a, S> {
        WatchedLines {
            source,
            progress,
            bytes: 0,
            lines: 0,
        }
    }

    /// Removes the line from the terminal.
    pub(crate) fn end(&mut self) {
        self.progress.end();
    }

    // Counts the bytes that were read, and the lines in them.
    fn count(&mut self, bytes: &[u8])
        ensures { self.new.source ≡ self.old.source }
    {
        if !self.progress.is_on() {
            return;
        }
        self.bytes = self.bytes.saturating_add(bytes.len() as u64);
        let lines = bytes.iter().filter(|byte| **byte == b'\n').count();
        self.lines = self.lines.saturating_add(lines as u64);
        self.progress.watch(self.bytes, self.lines);
    }
}

impl<S: Source> Source for WatchedLines<'_, S> {
    ghost left = { λ s. S.left s.source };

    ghost bound = { λ s. S.bound s.source };

    ghost failed = { λ s. S.failed s.source };

    fn read(&mut self, buffer: &mut [u8]) -> Result<usize, DeviceFault> {
        let count = self.source.read(buffer)?;
        self.count(&buffer[..count]);
        Ok(count)
    }

    fn failures(&self) -> u64 {
        self.source.failures()
    }
}
