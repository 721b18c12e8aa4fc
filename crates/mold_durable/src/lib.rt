//! A journal in a storage that outlives the process. After a crash at any moment it continues with all messages that
//! were committed.
#![tactic(auto)]

mod crash;
mod durable_journal;
mod error;
mod file_storage;
mod followed_file;
mod follower;
mod following;
mod gate;
mod group;
mod growing_file;
mod head;
mod journal_file;
mod journal_file_error;
pub mod laws;
mod memory_call;
mod memory_storage;
mod message_taker;
mod obstacle;
mod opened;
mod record_follower;
mod records;
mod recovery;
mod replaced_file;
mod scripted_file;
mod storage;
mod storage_plan;

pub use crash::{Step, open_after_crash, take_steps};
pub use durable_journal::DurableJournal;
pub use error::{CommitError, NotOpened, OpenError, WaitingError};
pub use file_storage::FileStorage;
pub use followed_file::FollowedFile;
pub use follower::Follower;
pub use growing_file::GrowingFile;
pub use journal_file::{create_file, open_file, sync_folder};
pub use journal_file_error::JournalFileError;
pub use memory_storage::MemoryStorage;
pub use message_taker::MessageTaker;
pub use obstacle::Obstacle;
pub use opened::Opened;
pub use record_follower::RecordFollower;
pub use replaced_file::ReplacedFile;
pub use scripted_file::ScriptedFile;
pub use storage::Storage;
