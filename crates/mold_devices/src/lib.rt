//! Sources and sinks of bytes. They count their failures, so that a fault can be distinguished from the end
//! of the input. The crate also splits input into lines and writes text in large pieces.
#![tactic(auto)]

mod device_fault;
mod failure_plan;
mod fault;
mod from_read;
mod input_reader;
mod into_write;
mod line_command;
mod lines;
mod memory_sink;
mod memory_source;
mod output;
mod piece;
mod sink;
mod slice_source;
mod source;
mod turn;

pub use device_fault::DeviceFault;
pub use fault::{CommandFault, ReadFault};
pub use from_read::FromRead;
pub use input_reader::InputReader;
pub use into_write::IntoWrite;
pub use line_command::{LineCommand, run_lines};
pub use lines::Lines;
pub use memory_sink::MemorySink;
pub use memory_source::MemorySource;
pub use output::{LARGE, end_with, send, send_large};
pub use piece::Piece;
pub use sink::{Sink, write_all};
pub use slice_source::SliceSource;
pub use source::Source;
pub use turn::Turn;
