//! The library for programs in C, C++ and Rust. Each call of its header is an export here, and the contracts cite the
//! definitions of the other crates.
#![tactic(auto)]

mod buffer;
mod checker;
mod code;
mod handle;
pub mod laws;
mod listener;
mod packets;
mod publisher;
mod repairer;
mod server;
mod version;
