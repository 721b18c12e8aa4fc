//! The messages of an input: lines of hexadecimal digits, or message blocks (Nasdaq's BinaryFILE). What an input holds
//! is defined as a list of entries, so callers need not know which of the two it is.
#![tactic(auto)]

mod blocks_to_empty;
mod hex_lines;
mod input_fault;
mod input_kind;
mod joining;
pub mod laws;
mod limits;
mod line_part;
mod message_blocks;
mod message_format;
mod message_reader;
mod next;
mod packet_lines;
mod packet_part;
mod part;

pub use blocks_to_empty::BlocksToEmpty;
pub use hex_lines::HexLines;
pub use input_fault::InputFault;
pub use input_kind::InputKind;
pub use limits::MAX_LINE;
pub use line_part::LinePart;
pub use message_blocks::MessageBlocks;
pub use message_format::MessageFormat;
pub use message_reader::MessageReader;
pub use next::Next;
pub use packet_lines::PacketLines;
