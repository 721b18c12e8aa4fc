//! The order of `mold receive` with a journal.

use crate::receive_order::ReceiveOrder;

/// The session that `receive` keeps in a durable journal.
#[derive(Drop)]
pub struct RecordOrder {
    /// How the session is received. It starts at message 1, gives up no message, and prints no blocks.
    pub receive: ReceiveOrder,
    /// The name of the journal file.
    pub journal: String,
    /// Whether a commit waits for the disk.
    pub sync: bool,
}
