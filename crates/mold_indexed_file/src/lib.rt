//! A journal in a file that a server responds from. Only the index of the file is in memory.
#![tactic(auto)]

mod growing;
mod indexed_file;
pub mod laws;
mod opening;
mod packing;
mod piece_buffer;
mod storage_index;

pub use indexed_file::IndexedFile;
pub use opening::open_indexed;
pub use storage_index::StorageIndex;
