//! A whole MoldUDP64 session as a model: a publisher, a re-request server, the network and receivers. Its laws state
//! what every receiver delivers, whatever the network does.
#![tactic(auto)]

mod beginning;
mod burst;
mod event;
pub mod laws;
mod participants;
mod refusal;
mod report;
mod stopped;
mod subscriber;
mod way;
mod world;

pub use event::{Event, EventOf};
pub use mold_messages::MessageIterator;
pub use mold_rounds::{Memory, catch_up};
pub use mold_session::SessionError;
pub use report::{Report, WorldError};
pub use stopped::Stopped;
pub use way::Way;
pub use world::World;
