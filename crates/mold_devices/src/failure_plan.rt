//! The failures and the transfer limit of a device in memory.

ghost use Rattle.std.specs.Prelude.{◌≡◌, ◌-◌, ◌<◌, ◌↔◌, IsErr};
ghost use Rattle.mold_devices.specs.Devices.{Counts, one_more};

use crate::device_fault::DeviceFault;

/// The plan for the calls of a device in memory: which one fails, and how many bytes a call moves at most.
#[derive(Clone, Copy)]
pub struct FailurePlan {
    /// The call that fails, counted from 1 for the next call. 0 means that no call fails.
    pub fails_at: u64,
    /// The greatest number of bytes that a call moves.
    pub most: usize,
    /// The number of calls that failed. It stays at `u64::MAX` once it is there.
    pub failures: u64,
    ghost moves: { 0 < most },
}

impl FailurePlan {
    /// Makes a plan in which no call fails and a call moves any number of bytes.
    pub fn new() -> FailurePlan
        ensures fails_at { result.fails_at ≡ 0 }
        ensures most { result.most ≡ usize.MAX }
        ensures failures { result.failures ≡ 0 }
    {
        FailurePlan {
            fails_at: 0,
            most: usize::MAX,
            failures: 0,
        }
    }

    /// Starts a call. It returns the fault if the plan lets this call fail.
    pub fn begin(&mut self) -> Result<(), DeviceFault>
        ensures fails { IsErr result ↔ (self.old.fails_at ≡ 1) }
        ensures fails_at { self.new.fails_at ≡ self.old.fails_at - 1 }
        ensures most { self.new.most ≡ self.old.most }
        ensures failures { Counts self.old.failures self.new.failures result }
    {
        let fails = self.fails_at == 1;
        self.fails_at = self.fails_at.saturating_sub(1);
        if fails {
            return Err(self.fail());
        }
        Ok(())
    }

    /// Counts a failure and returns the fault.
    pub fn fail(&mut self) -> DeviceFault
        ensures fails_at { self.new.fails_at ≡ self.old.fails_at }
        ensures most { self.new.most ≡ self.old.most }
        ensures failures { self.new.failures ≡ one_more self.old.failures }
    {
        self.failures = self.failures.saturating_add(1);
        DeviceFault
    }
}
