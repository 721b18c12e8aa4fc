//! The digests of a check: datagrams in which each message is replaced by 16 bytes.
#![tactic(auto)]

mod digested;
mod key;
pub mod laws;

pub use key::{DIGEST_BYTES, DigestKey, KEY_BYTES};
