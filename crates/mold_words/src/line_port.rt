//! The port that receives a line.

use crate::address::Address;

/// The port that receives a line.
#[derive(Clone, Copy)]
pub enum LinePort {
    /// An address of this machine. It is not a multicast group, whose first byte is 224 to 239.
    Address(Address),
    /// The descriptor of an open UDP socket that the process was started with, 3 to 1,023.
    Descriptor(u16),
}
