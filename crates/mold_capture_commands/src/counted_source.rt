//! A source that counts the bytes that were read.

ghost use Rattle.std.specs.Prelude.{◌≡◌, ◌+◌, ◌<◌, ◌≤◌, IfErr, IfOk};
ghost use Rattle.std.specs.Io.{ReadsAtMost};
ghost use Rattle.std.specs.Io.Iter.{u64_saturate};
ghost use Rattle.std.specs.Io.KnownBytes.{ReadConsumes};
ghost use Rattle.mold_devices.specs.Devices.{Counts};

use mold_devices::{DeviceFault, Source};
use std::marker::Model;

/// A source that counts the bytes that were read from another source.
#[derive(Drop)]
pub struct CountedSource<S> {
    source: S,
    count: u64,
}

impl<S> Model for CountedSource<S> {
    ghost use Rattle.mold_capture_commands.specs.CountedSource.{CountedState};

    ghost Value = { CountedState S };

    ghost view = { λ s. record { source = s.source; count = s.count } };
}

impl<S> CountedSource<S> {
    /// Makes a source that reads from `source`. No byte is counted.
    pub fn new(source: S) -> CountedSource<S>
        ensures source { result.source ≡ source }
        ensures count { result.count ≡ 0 }
    {
        CountedSource { source, count: 0 }
    }

    /// Returns the number of bytes that were read. It stays at `u64::MAX` once it is there.
    pub fn count(&self) -> u64
        ensures { result ≡ self.now.count }
    {
        self.count
    }
}

impl<S: Source> Source for CountedSource<S> {
    ghost left = { λ s. S.left s.source };

    ghost bound = { λ s. S.bound s.source };

    ghost failed = { λ s. S.failed s.source };

    fn read(&mut self, buffer: &mut [u8]) -> Result<usize, DeviceFault>
        ensures count { ReadsAtMost result buffer.new }
        ensures bytes { ReadConsumes (S.left self.old.source) (S.left self.new.source) result buffer.new }
        ensures bound { IfOk result (λ n. 0 < n → S.bound self.new.source < S.bound self.old.source) }
        ensures kept { S.bound self.new.source ≤ S.bound self.old.source }
        ensures failures { Counts (S.failed self.old.source) (S.failed self.new.source) result }

        // A read that fails reads no byte.
        ensures counted { IfOk result (λ n. self.new.count ≡ u64_saturate (self.old.count + n)) }
        ensures none { IfErr result (λ _. self.new.count ≡ self.old.count) }
    {
        let count = self.source.read(buffer)?;
        self.count = self.count.saturating_add(count as u64);
        Ok(count)
    }

    fn failures(&self) -> u64 {
        self.source.failures()
    }
}
