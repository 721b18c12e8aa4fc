//! What a captured frame carries: it finds the UDP datagram in the bytes of a frame, by the frame's link type.
#![tactic(auto)]

mod carried;
mod datagram;
mod extension;
mod ip_address;
mod ipv4;
mod ipv6;
pub mod laws;
mod link;
mod part;
mod payload;
mod tagged;
mod target;
mod udp;

pub use carried::Carried;
pub use datagram::Datagram;
pub use ip_address::IpAddress;
pub use link::read_frame;
pub use target::Target;
