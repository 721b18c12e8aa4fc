//! The order of `mold dump`.

ghost use Rattle.std.specs.Prelude.{◌≤◌};
ghost use Rattle.mold_wire.specs.declared.limits.TheConstants.{MAX_NUMBER};

use mold_input::MessageFormat;

/// Which messages of which journal file `dump` prints, and how its output encodes them.
#[derive(Drop)]
pub struct DumpOrder {
    /// The name of the journal file.
    pub journal: String,
    /// Whether messages are printed as another process adds them to the file.
    pub follow: bool,
    /// The sequence number of the first message that is printed, 1 to `MAX_NUMBER`.
    pub from: u64,
    /// The maximum number of messages that are printed. With `MAX_NUMBER` all messages from `from` on are printed,
    /// since no journal has more.
    pub count: u64,
    /// How the output encodes the messages.
    pub output: MessageFormat,
    ghost first: { (1 ≤ from) × (from ≤ MAX_NUMBER) },
}
