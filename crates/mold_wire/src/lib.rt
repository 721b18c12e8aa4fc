//! The MoldUDP64 packet codec: it reads downstream packets and requests from datagrams and writes them.
#![tactic(auto)]

mod block;
mod blocks;
mod buffer;
mod error;
mod header;
pub mod laws;
mod limits;
mod messages;
mod packer;
mod packet;
mod reading;
mod request;
mod session;

pub use block::{LENGTH_BYTES, MAX_MESSAGE};
pub use blocks::Blocks;
pub use buffer::{add_in, can_hold, end_in, fits_in, is_limit, start_in};
pub use error::{DecodeError, PackerError, RequestError};
pub use header::{END_OF_SESSION, HEADER_LENGTH};
pub use limits::{
    MAX_BURST, MAX_COUNT, MAX_LIMIT, MAX_NUMBER, MAX_WIDE_WINDOW, MAX_WINDOW, MESSAGE_OVERHEAD,
    MIN_LIMIT,
};
pub use messages::Messages;
pub use packer::Packer;
pub use packet::{Body, Packet};
pub use reading::{decode, decode_plain};
pub use request::Request;
pub use session::{SESSION_LENGTH, Session};
