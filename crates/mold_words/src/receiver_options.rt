//! The options of `mold receive` about the receiver and its reports.

ghost use Rattle.std.specs.Prelude.{◌≤◌};
ghost use Rattle.mold_wire.specs.declared.limits.TheConstants.{MAX_WIDE_WINDOW};

use mold_input::MessageFormat;

/// What the receiver keeps, when it ends and when it reports, as the fields of `ReceiveOrder` with these names.
#[derive(Clone, Copy)]
pub(crate) struct ReceiverOptions {
    pub window: u32,
    pub store: u32,
    pub audit: u32,
    pub quiet: u32,
    pub stats: u32,
    pub output: MessageFormat,
    ghost windowed: { (1 ≤ window) × (window ≤ MAX_WIDE_WINDOW) },
    ghost storing: { (1 ≤ store) × (store ≤ 1048576) },
    ghost audited: { audit ≤ 1048576 },
    ghost daily: { (quiet ≤ 86400) × (stats ≤ 86400) },
}
