//! Ports that send and receive datagrams: UDP sockets, and scripts in memory for tests.
#![tactic(auto)]

mod datagrams;
mod memory_port;
mod outlook;
mod step;
mod udp_port;
mod waiting;

pub use datagrams::Datagrams;
pub use memory_port::MemoryPort;
pub use outlook::Outlook;
pub use step::Step;
pub use udp_port::UdpPort;
