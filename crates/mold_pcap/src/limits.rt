//! The limits of what is read.

/// The greatest number of captured bytes in a record of a classic capture.
pub const MAX_CAPTURED: usize = 262_144;

/// The greatest total length of a section header, an interface description and a packet block, in bytes. Other blocks
/// have any length.
pub const MAX_BLOCK: usize = 327_680;

/// The number of interfaces that are kept of a section. A packet of a later interface is refused as `NoInterface`.
pub const MAX_INTERFACES: usize = 1024;
