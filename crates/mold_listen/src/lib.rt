//! The listener over ports: it receives two lines of a session and requests missing messages.
#![tactic(auto)]

mod ending;
mod feed_listener;
mod handed;
mod listen_options;
mod listen_ports;
mod listening;
mod printer;
mod receiving;

pub use ending::push_end;
pub use listen_options::ListenOptions;
pub use listen_ports::ListenPorts;
pub use listening::{listen, listen_loop, push_last};
pub use printer::{Printer, print_handed, print_message};
pub use receiving::receive_on;
