//! What a part without a frame changes.

use crate::interface::Interface;
use crate::order::Order;
use crate::resolution::Resolution;

/// What a part without a frame changes.
#[derive(Clone, Copy)]
pub enum Next {
    /// The head of a classic capture.
    Head {
        order: Order,
        link: u16,
        resolution: Resolution,
    },
    /// A section header.
    Section {
        order: Order,
    },
    /// An interface description.
    Described {
        interface: Interface,
    },
}
