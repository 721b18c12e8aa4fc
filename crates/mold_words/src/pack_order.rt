//! The order of `mold pack`.

ghost use Rattle.std.specs.Prelude.{◌≡◌, ◌≤◌, true};
ghost use Rattle.std.specs.List.{list_all};
ghost use Rattle.mold_words.specs.Values.{is_character};
ghost use Rattle.mold_wire.specs.declared.limits.TheConstants.{MAX_LIMIT, MIN_LIMIT};

use mold_input::MessageFormat;

/// The session whose packets `pack` prints, how long its datagrams may be, and how its input encodes messages.
#[derive(Clone, Copy)]
pub struct PackOrder {
    /// The session's name in characters 20 to 7E (hexadecimal), padded with spaces on the right.
    pub session: [u8; 10],
    /// The maximum length of a datagram in bytes, `MIN_LIMIT` to `MAX_LIMIT`.
    pub limit: usize,
    /// How the input encodes the messages.
    pub input: MessageFormat,
    ghost named: { list_all is_character session ≡ true },
    ghost limited: { (MIN_LIMIT ≤ limit) × (limit ≤ MAX_LIMIT) },
}
