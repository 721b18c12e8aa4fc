//! The failures of a storage in memory, and its crash.

ghost use Rattle.std.specs.Prelude.{◌≡◌, ◌↔◌, false, IsErr};
ghost use Rattle.mold_devices.specs.Devices.{Counts, one_more};
ghost use Rattle.mold_durable.specs.Memory.{fails_next};

use mold_devices::DeviceFault;

/// The plan for the calls of a storage in memory: which one fails, and whether all later calls fail too.
#[derive(Clone, Copy)]
pub(crate) struct StoragePlan {
    // The call that fails, counted from 1 for the next call. 0 means that no call fails.
    pub fails_at: u64,
    // Whether that call is a crash, after which every call fails.
    pub crashes: bool,
    // The number of calls that failed. It stays at `u64::MAX` once it is there.
    pub failures: u64,
}

impl StoragePlan {
    // Makes a plan in which no call fails.
    pub(crate) fn new() -> StoragePlan
        ensures { result ≡ record { fails_at = 0; crashes = false; failures = 0 } }
    {
        StoragePlan {
            fails_at: 0,
            crashes: false,
            failures: 0,
        }
    }

    // Starts a call. It returns the fault if the plan lets this call fail.
    pub(crate) fn begin(&mut self) -> Result<(), DeviceFault>
        ensures fails { IsErr result ↔ (self.old.fails_at ≡ 1) }
        ensures fails_at { self.new.fails_at ≡ fails_next self.old.crashes self.old.fails_at }
        ensures crashes { self.new.crashes ≡ self.old.crashes }
        ensures failures { Counts self.old.failures self.new.failures result }
    {
        if self.fails_at != 1 {
            self.fails_at = self.fails_at.saturating_sub(1);
            return Ok(());
        }
        if !self.crashes {
            self.fails_at = 0;
        }
        Err(self.fail())
    }

    // Counts a failure and returns the fault.
    pub(crate) fn fail(&mut self) -> DeviceFault
        ensures { self.new ≡ record self.old { failures = one_more self.old.failures } }
    {
        self.failures = self.failures.saturating_add(1);
        DeviceFault
    }
}
