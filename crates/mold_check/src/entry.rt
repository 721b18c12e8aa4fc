//! An entry of a folder.

/// An entry of a folder, in memory. It is a datagram if its name ends in `.pkt`. The bytes of other entries are
/// not read, so they may be left empty.
#[derive(Drop)]
pub struct Entry {
    /// The name of the entry within its folder.
    pub name: String,
    /// The contents of the entry, which for a datagram are its UDP payload.
    pub bytes: Vec<u8>,
}
