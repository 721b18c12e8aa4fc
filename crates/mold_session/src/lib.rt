//! A published session: its journal, the publisher that packs messages into datagrams, and the server that
//! responds to requests for messages of the journal.
#![tactic(auto)]

mod checking;
mod error;
mod file_version;
mod journal;
pub mod laws;
mod length_taker;
mod loading;
mod magic;
mod packing;
mod piece;
mod plan;
mod publisher;
mod putting;
mod reader;
mod records;
mod request_check;
mod saving;
mod served_journal;
mod server;
mod upgrading;
mod write_buffer;

pub use error::{
    AnswerError, AppendError, FileError, PublisherError, ServerError, SessionError, Unsent,
};
pub use file_version::FileVersion;
pub use journal::{Journal, MAX_MESSAGES};
pub use length_taker::LengthTaker;
pub use loading::FileHead;
pub use mold_devices::{
    DeviceFault, FromRead, IntoWrite, MemorySink, MemorySource, Sink, SliceSource, Source,
};
pub use mold_wire::MAX_BURST;
pub use plan::Plan;
pub use publisher::Publisher;
pub use reader::JournalReader;
pub use records::{CLOSING_KIND, MESSAGE_KIND, OPEN_GATE, RECORD_HEAD, recorded_length};
pub use served_journal::ServedJournal;
pub use server::Server;
pub use upgrading::{Upgraded, upgrade};
