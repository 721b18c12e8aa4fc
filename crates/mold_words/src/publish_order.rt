//! The order of `mold publish`.

ghost use Rattle.std.specs.Prelude.{◌≡◌, ◌≤◌, true};
ghost use Rattle.std.specs.List.{list_all};
ghost use Rattle.mold_words.specs.Values.{is_character};
ghost use Rattle.mold_wire.specs.declared.limits.TheConstants.{MAX_LIMIT, MIN_LIMIT};

use crate::address::Address;
use mold_input::MessageFormat;

/// The session that `publish` sends on two lines, and how.
#[derive(Drop)]
pub struct PublishOrder {
    /// The session's name in characters 20 to 7E (hexadecimal), padded with spaces on the right.
    pub session: [u8; 10],
    /// The maximum length of a datagram in bytes, `MIN_LIMIT` to `MAX_LIMIT`.
    pub limit: usize,
    /// The address that line A is sent to.
    pub a: Address,
    /// The address that line B is sent to.
    pub b: Address,
    /// The name of the file that the journal is saved in.
    pub journal: String,
    /// How many heartbeats are sent after the messages, 0 to 1,000.
    pub beats: u32,
    /// How many end packets are sent after the heartbeats, 0 to 1,000.
    pub ends: u32,
    /// How the input encodes the messages.
    pub input: MessageFormat,
    ghost named: { list_all is_character session ≡ true },
    ghost limited: { (MIN_LIMIT ≤ limit) × (limit ≤ MAX_LIMIT) },
    ghost beating: { beats ≤ 1000 },
    ghost ending: { ends ≤ 1000 },
}
