//! The publisher over a port: the messages of a source are published, and each datagram is sent on two
//! lines.
#![tactic(auto)]

mod closing;
mod publication;
mod publish_devices;
mod publish_options;
mod publishing;
mod sending;

pub use publish_devices::PublishDevices;
pub use publish_options::PublishOptions;
pub use publishing::{publish, publish_loop};
pub use sending::publisher_holds;
