//! The calls of a storage in memory that change what a crash may leave.

/// A call of a storage in memory, as far as it changes what a crash may leave.
#[derive(Drop)]
pub enum MemoryCall {
    /// A write of `count` bytes from offset `at` on. It may have failed.
    Write { at: u64, count: usize },
    /// A sync that succeeded, with the bytes that it made durable.
    Sync { bytes: Vec<u8> },
}
