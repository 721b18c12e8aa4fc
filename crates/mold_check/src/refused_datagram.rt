//! A datagram that is refused.

use mold_rule::Refusal;

/// A datagram that is refused after those before it.
#[derive(Clone, Copy, Debug, PartialEq, Eq)]
pub struct RefusedDatagram {
    /// The number that the caller gave to the datagram.
    pub number: u64,
    /// The first reason that applies.
    pub why: Refusal,
}
