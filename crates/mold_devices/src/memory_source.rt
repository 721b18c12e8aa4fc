//! A source in memory.

ghost use Rattle.std.specs.Prelude.{◌≡◌, ◌+◌, ◌-◌, ◌<◌, ◌≤◌, ◌↔◌, ◌++◌, min, take, drop, length, Some, IfOk, IsErr};
ghost use Rattle.std.specs.Prelude.{OnErr};
ghost use Rattle.std.specs.Io.{ReadsAtMost};
ghost use Rattle.std.specs.Io.KnownBytes.{ReadConsumes};
ghost use Rattle.mold_devices.specs.Devices.{Counts};

use crate::device_fault::DeviceFault;
use crate::failure_plan::FailurePlan;
use crate::source::Source;
use std::marker::Model;

/// A source that reads bytes from memory. It fails only if `fail_at` says so.
#[derive(Drop)]
pub struct MemorySource<'a> {
    left: &'a [u8],
    plan: FailurePlan,
}

impl<'a> Model for MemorySource<'a> {
    ghost use Rattle.mold_devices.specs.Devices.{MemoryLeft};

    ghost Value = { MemoryLeft };

    ghost view = { λ s. record {
      left = s.left.now;
      fails_at = s.plan.fails_at;
      most = s.plan.most;
      failures = s.plan.failures;
    } };
}

impl<'a> MemorySource<'a> {
    /// Makes a source of these bytes. No call fails, and each call may return any number of bytes.
    pub fn new(bytes: &'a [u8]) -> MemorySource<'a>
        ensures { result ≡ record { left = bytes.now; fails_at = 0; most = usize.MAX; failures = 0 } }
    {
        MemorySource {
            left: bytes,
            plan: FailurePlan::new(),
        }
    }

    /// Makes the `k`-th call of `read` from now on fail, counted from 1, and no other call. 0 means that no
    /// call fails.
    pub fn fail_at(&mut self, k: u64)
        ensures { self.new ≡ record self.old { fails_at = k } }
    {
        self.plan.fails_at = k;
    }

    /// Limits each call to `n` bytes.
    pub fn at_most(&mut self, n: usize)
        requires { 0 < n }
        ensures { self.new ≡ record self.old { most = n } }
    {
        self.plan.most = n;
    }
}

impl<'a> Source for MemorySource<'a> {
    ghost left = { λ s. Some s.left };

    ghost bound = { λ s. length s.left };

    ghost failed = { λ s. s.failures };

    fn read(&mut self, buffer: &mut [u8]) -> Result<usize, DeviceFault>
        // The contract of every source.
        ensures count { ReadsAtMost result buffer.new }
        ensures bytes { ReadConsumes (Some self.old.left) (Some self.new.left) result buffer.new }
        ensures bound { IfOk result (λ n. 0 < n → length self.new.left < length self.old.left) }
        ensures kept { length self.new.left ≤ length self.old.left }
        ensures failures { Counts self.old.failures self.new.failures result }

        // What this source does in addition.
        ensures fails { IsErr result ↔ (self.old.fails_at ≡ 1) }
        ensures moved { IfOk result (λ n. n ≡ min (length self.old.left) (min (length buffer.old) self.old.most)) }
        ensures left { IfOk result (λ n. self.new.left ≡ drop n self.old.left) }
        ensures buffer { IfOk result (λ n. buffer.new ≡ take n self.old.left ++ drop n buffer.old) }
        ensures untouched { OnErr result (buffer.new ≡ buffer.old) }
        ensures fails_at { self.new.fails_at ≡ self.old.fails_at - 1 }
        ensures most { self.new.most ≡ self.old.most }
    {
        self.plan.begin()?;
        let count = self.left.len().min(buffer.len().min(self.plan.most));
        let (given, left) = self.left.split_at(count);
        buffer[..count].copy_from_slice(given);
        self.left = left;
        Ok(count)
    }

    fn failures(&self) -> u64 {
        self.plan.failures
    }
}
