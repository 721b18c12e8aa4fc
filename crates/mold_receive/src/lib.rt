//! The receiver over ports that repairs itself: the loop of `mold receive`.
#![tactic(auto)]

mod calls;
mod came;
mod feed_receiver;
mod first_packet;
mod last_line;
mod lines;
mod opening;
mod printing;
mod receive_options;
mod receiving;
mod refusal_limit;
mod reporting;
mod statistics;

pub use feed_receiver::{AT_ONCE, FeedReceiver, origin_of};
pub use first_packet::FirstPacket;
pub use last_line::{Unopened, end_unopened, last_status};
pub use opening::{Opened, await_session};
pub use receive_options::ReceiveOptions;
pub use receiving::{ReceiveParts, Received, receive_loop};
