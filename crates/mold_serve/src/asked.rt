//! A request that arrived.

/// A request that arrived.
pub struct Asked<'a, P> {
    /// The address that it came from.
    pub from: P,
    /// The bytes of the datagram.
    pub bytes: &'a [u8],
}
