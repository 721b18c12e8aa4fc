//! The receiver of MoldUDP64 downstream packets. It delivers each message once, in sequence, and stores messages that
//! arrive above a gap. An arbiter receives the packets of two lines.
#![tactic(auto)]

mod arbiter;
mod batch;
mod conflict;
mod error;
mod gap;
mod hand;
mod heard;
mod keep;
pub mod laws;
mod limits;
mod line;
mod occupied;
mod origin;
mod place;
mod receiver;
mod release;
mod ring;
mod room;
mod run;
mod segment;
mod segments;
mod shelf;
mod slots;
mod taken;

pub use arbiter::Arbiter;
pub use batch::Batch;
pub use error::ReceiverError;
pub use gap::Gap;
pub use heard::Heard;
pub use limits::MIN_STORE;
pub use line::{Line, LineReport};
pub use mold_messages::MessageIterator;
pub use mold_rule::{Refusal, Refusal as Refused};
pub use mold_wire::{MAX_WIDE_WINDOW, MAX_WINDOW};
pub use origin::Origin;
pub use receiver::Receiver;
pub use taken::{Accepted, Taken};
