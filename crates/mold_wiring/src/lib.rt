//! Makes the publisher, server or arbiter of a command over ports from the parsed command line. It also determines how
//! the program ends.
#![tactic(auto)]

mod addresses;
mod ending;
mod explaining;
pub mod laws;
mod limits;
mod listening;
mod opening;
mod program_fault;
mod publishing;
mod receiving;
mod serving;

pub use addresses::{peer_address, socket_address};
pub use ending::{exit_code, flushed, print_fault};
pub use explaining::print_explanation;
pub use limits::longest_message;
pub use listening::make_arbiter;
pub use opening::open_port;
pub use program_fault::ProgramFault;
pub use publishing::make_publisher;
pub use receiving::{make_repairer, repair_options};
pub use serving::{load_journal, make_server, print_file_refusal};
