//! Sets of ports that a process waits for together: UDP sockets, and scripts in memory for tests.
#![tactic(auto)]

mod address;
mod clock;
mod descriptor;
mod drop_table;
mod memory_port_set;
mod opened;
mod port_datagram;
mod port_set;
mod port_set_call;
mod port_set_step;
mod row;
mod script;
mod sender_filter;
mod sender_list;
mod socket_number;
mod udp_port_set;

pub use memory_port_set::MemoryPortSet;
pub use opened::Opened;
pub use port_datagram::PortDatagram;
pub use port_set::PortSet;
pub use port_set_call::PortSetCall;
pub use port_set_step::PortSetStep;
pub use sender_list::{SENDERS, SenderList};
pub use udp_port_set::{PORTS, UdpPortSet};
