//! Why catching up stops early.

use thiserror::Error;

/// An allocation for a datagram's messages failed.
#[derive(Clone, Copy, Debug, PartialEq, Eq, Error)]
#[error("out of memory")]
pub struct Memory;
