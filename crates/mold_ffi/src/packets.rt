//! Packets and requests: calls without a handle.
pub(crate) mod mold_packet;
pub(crate) mod mold_place;
pub(crate) mod packer;
pub(crate) mod read;
pub(crate) mod request;
