//! A sink in memory.

ghost use Rattle.std.specs.Prelude.{◌≡◌, ◌+◌, ◌-◌, ◌<◌, ◌≤◌, ◌⊎◌, ◌++◌, min, take, length, [], Some, IfOk, IsErr};
ghost use Rattle.std.specs.Prelude.{MatchResult, false};
ghost use Rattle.mold_devices.specs.Devices.{Counts};

use crate::device_fault::DeviceFault;
use crate::failure_plan::FailurePlan;
use crate::sink::Sink;
use std::alloc::Global;
use std::marker::Model;

/// A sink that stores its bytes in memory. It fails only if `fail_at` says so or if an allocation fails.
#[derive(Drop)]
pub struct MemorySink {
    held: Vec<u8>,
    plan: FailurePlan,
}

impl Model for MemorySink {
    ghost use Rattle.std.specs.Prelude.{vec_capacity};
    ghost use Rattle.mold_devices.specs.Devices.{MemoryHeld};

    ghost Value = { MemoryHeld };

    ghost view = { λ s. record {
      held = s.held.items;
      room = vec_capacity s.held;
      fails_at = s.plan.fails_at;
      most = s.plan.most;
      failures = s.plan.failures;
    } };
}

impl MemorySink {
    /// Makes an empty sink. It does not allocate.
    pub fn new(alloc: Global) -> MemorySink
        ensures { result ≡ record { held = []; room = 0; fails_at = 0; most = usize.MAX; failures = 0 } }
    {
        MemorySink {
            held: Vec::new(alloc),
            plan: FailurePlan::new(),
        }
    }

    /// Returns the bytes that the sink has taken.
    pub fn bytes(&self) -> &[u8]
        ensures { result.now ≡ self.now.held }
    {
        self.held.as_slice()
    }

    /// Makes the `k`-th call of `write` from now on fail, counted from 1, and no other call. 0 means that no
    /// call fails.
    pub fn fail_at(&mut self, k: u64)
        ensures { self.new ≡ record self.old { fails_at = k } }
    {
        self.plan.fails_at = k;
    }

    /// Limits each call to `n` bytes.
    pub fn at_most(&mut self, n: usize)
        requires { 0 < n }
        ensures { self.new ≡ record self.old { most = n } }
    {
        self.plan.most = n;
    }
}

impl Sink for MemorySink {
    ghost held = { λ s. Some s.held };

    ghost failed = { λ s. s.failures };

    ghost live = { λ s. false };

    fn write(&mut self, bytes: &[u8]) -> Result<usize, DeviceFault>
        ensures fails { self.old.fails_at ≡ 1 → IsErr result }

        // Besides the call that `fail_at` names, a call fails only if an allocation fails.
        ensures refused { IsErr result → (self.old.fails_at ≡ 1)
            ⊎ (self.old.room < length self.old.held + min (length bytes.now) self.old.most) }
        ensures count { IfOk result (λ n. n ≡ min (length bytes.now) self.old.most) }
        ensures some { IfOk result (λ n. 0 < length bytes.now → 0 < n) }
        ensures held { MatchResult result (λ n. self.new.held ≡ self.old.held ++ take n bytes.now)
            (λ _. self.new.held ≡ self.old.held) }
        ensures room { self.old.room ≤ self.new.room }
        ensures fails_at { self.new.fails_at ≡ self.old.fails_at - 1 }
        ensures most { self.new.most ≡ self.old.most }
        ensures failures { Counts self.old.failures self.new.failures result }
    {
        self.plan.begin()?;
        let count = bytes.len().min(self.plan.most);
        match self.held.extend_from_slice(&bytes[..count]) {
            Ok(()) => Ok(count),
            Err(_) => Err(self.plan.fail()),
        }
    }

    fn failures(&self) -> u64 {
        self.plan.failures
    }

    fn is_live(&self) -> bool {
        false
    }
}
