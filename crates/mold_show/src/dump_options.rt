//! The options of `mold dump`.

use mold_input::MessageFormat;

/// Which messages of a journal `dump_file` writes, and how.
#[derive(Clone, Copy)]
pub struct DumpOptions {
    /// The sequence number of the first message that is written. 0 counts as 1.
    pub from: u64,
    /// The maximum number of messages that are written.
    pub count: u64,
    /// How the output encodes the messages.
    pub format: MessageFormat,
}
