//! Writes the messages of a checker: as lines, as message blocks, or as the journal of a whole session.
#![tactic(auto)]

mod block_buffer;
mod blocks;
mod carried_range;
mod extracted;
mod fullness;
mod journal;
pub mod laws;
mod lines;
mod number_range;

pub use blocks::extract_blocks;
pub use extracted::Extracted;
pub use journal::save_journal;
pub use lines::extract_lines;
pub use number_range::NumberRange;
