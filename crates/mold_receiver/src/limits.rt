//! Limits of a receiver.

/// A store with a limit has room for at least this many bytes, those of the longest datagram. So an empty store has
/// room for each datagram.
pub const MIN_STORE: u64 = 65_507;
