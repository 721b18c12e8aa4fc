//! Where `mold check` and `mold extract` read datagrams.

use crate::capture_order::CaptureOrder;

/// Where `check` and `extract` read their datagrams.
#[derive(Drop)]
pub enum InputOrder {
    /// From the folder of this name. Each of its files whose name ends in `.pkt` is a datagram.
    Folder(String),
    /// From standard input, each given as a line of hexadecimal digits.
    Lines,
    /// From captures.
    Captures(CaptureOrder),
}
