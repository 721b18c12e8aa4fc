//! The error of a verdict.

use thiserror::Error;

/// The allocation for a verdict failed.
#[derive(Clone, Copy, Debug, PartialEq, Eq, Error)]
#[error("out of memory")]
pub struct Memory;
