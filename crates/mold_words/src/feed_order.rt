//! The order of `mold feed`.

ghost use Rattle.std.specs.Prelude.{◌≡◌, ◌≤◌, true};
ghost use Rattle.std.specs.List.{list_all};
ghost use Rattle.mold_words.specs.Values.{is_character};
ghost use Rattle.mold_wire.specs.declared.limits.TheConstants.{MAX_BURST};
ghost use Rattle.mold_wire.specs.declared.limits.TheConstants.{MAX_LIMIT, MIN_LIMIT};

use crate::address::Address;
use crate::feed_times::FeedTimes;
use crate::sent_lines::SentLines;
use mold_input::MessageFormat;

/// The session that `feed` keeps in a durable journal and sends, and how.
#[derive(Drop)]
pub struct FeedOrder {
    /// The session's name in characters 20 to 7E (hexadecimal), padded with spaces on the right.
    pub session: [u8; 10],
    /// The maximum length of a datagram in bytes, `MIN_LIMIT` to `MAX_LIMIT`.
    pub limit: usize,
    /// The lines that the session is sent on.
    pub lines: SentLines,
    /// The name of the journal file.
    pub journal: String,
    /// Whether the input has only the messages that follow those of an existing file. Otherwise it has the whole session.
    pub append: bool,
    /// The address that receives requests. With `None` no request is responded to.
    pub bind: Option<Address>,
    /// The maximum number of responses to one request, 1 to `MAX_BURST`.
    pub burst: u16,
    /// When messages and heartbeats are sent, and how long requests are responded to.
    pub times: FeedTimes,
    /// How the input encodes the messages.
    pub input: MessageFormat,
    /// How many heartbeats are sent after the messages, 0 to 1,000.
    pub beats: u32,
    /// How many end packets are sent after the heartbeats, 0 to 1,000.
    pub ends: u32,
    /// Whether the session stays open after the input has ended.
    pub open: bool,
    ghost named: { list_all is_character session ≡ true },
    ghost limited: { (MIN_LIMIT ≤ limit) × (limit ≤ MAX_LIMIT) },
    ghost bursting: { (1 ≤ burst) × (burst ≤ MAX_BURST) },
    ghost beating: { beats ≤ 1000 },
    ghost ending: { ends ≤ 1000 },
}
