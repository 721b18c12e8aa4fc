//! The options of a repairer as the fields of a struct.

ghost use Rattle.std.specs.Prelude.{◌≡◌, true};
ghost use Rattle.mold_ffi.specs.Repairer.MoldRepairOptions.{are_fields, default_options, options_of};

use mold_repair::RepairOptions;

// The length of the struct in bytes.
const SIZE: u64 = 88;

/// What a repairer keeps to. Times are in nanoseconds.
#[repr(C)]
#[derive(Clone, Copy)]
pub struct MoldRepairOptions {
    /// The length of the struct in bytes.
    pub size: u64,
    /// The number of the first message to deliver.
    pub next: u64,
    /// How long a message has to be missing before it is requested. If it is 0, that adapts to the delays between the
    /// lines.
    pub patience: u64,
    /// How long the first request for a message waits for a response.
    pub timeout: u64,
    /// The longest wait for a response.
    pub ceiling: u64,
    /// How long a request waits after a response that did not bring all of its messages.
    pub settle: u64,
    /// The time after which another request may be sent.
    pub interval: u64,
    /// The window, in messages.
    pub window: u32,
    /// The number of requests that may be sent at once.
    pub bucket: u32,
    /// The greatest number of requests in flight.
    pub places: u32,
    /// The number of servers.
    pub servers: u32,
    /// After how many requests in a row without a response missing messages are given up. If it is 0, they never are.
    pub give_up: u32,
    /// The number of delivered messages of which digests are kept.
    pub audit: u32,
    /// The room of the store, in bytes. If it is 0, the store is not limited.
    pub store: u64,
}

impl MoldRepairOptions {
    /// The options of a repairer.
    pub(crate) fn options(&self) -> RepairOptions
        ensures { result ≡ options_of self.now }
    {
        RepairOptions {
            patience: self.patience,
            timeout: self.timeout,
            ceiling: self.ceiling,
            settle: self.settle,
            interval: self.interval,
            bucket: self.bucket,
            places: self.places,
            servers: self.servers,
            give_up: self.give_up,
            audit: self.audit,
        }
    }

    /// Whether the fields are of this version, and each number except `next`, `window` and `store` is in its range.
    pub(crate) fn are_valid(&self) -> bool
        ensures { result ≡ are_fields self.now }
    {
        self.size == SIZE && self.options().are_valid()
    }
}

/// Writes the default of each option.
#[unsafe(no_mangle)]
pub extern "C" fn mold_repair_options_default(options: &mut MoldRepairOptions)
    ensures defaults { options.new ≡ default_options }
    ensures valid { are_fields options.new ≡ true }
{
    *options = MoldRepairOptions {
        size: SIZE,
        next: 1,
        patience: 0,
        timeout: 50_000_000,
        ceiling: 1_000_000_000,
        settle: 2_000_000,
        interval: 1_000_000,
        window: 65_536,
        bucket: 32,
        places: 256,
        servers: 1,
        give_up: 0,
        audit: 0,
        store: 0,
    };
}
