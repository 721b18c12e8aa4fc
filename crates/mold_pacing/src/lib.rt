//! The policy by which a receiver requests missing messages: when a request may be sent, for which numbers, and to
//! which server. It has no clock and no receiver. A request is *in flight* until it is over: a step frees it, or it
//! runs out. A response with its last number frees it, and so does the arrival of all its numbers. It runs out when its
//! timeout has passed, or the time `settle` after another response.
#![tactic(auto)]

mod arrival;
mod ask;
mod bounds;
mod bucket;
mod cursor;
mod delay;
mod delays;
mod flight;
mod gap;
mod hole;
pub mod laws;
mod mark;
mod options;
mod pacer;
mod place;
mod repeat;
mod response;
mod state;
mod step;
mod table;
mod waiting;

pub use arrival::Arrival;
pub use ask::Ask;
pub use cursor::Cursor;
pub use delay::Delay;
pub use delays::{Delays, FIRST_PATIENCE};
pub use flight::Flight;
pub use gap::{Gap, are_in_order};
pub use hole::Hole;
pub use mark::Mark;
pub use options::PacerOptions;
pub use pacer::Pacer;
pub use state::PacerState;
pub use step::Step;
