//! The order of `mold sim`.

ghost use Rattle.std.specs.Prelude.{◌≡◌, ◌≤◌, true};
ghost use Rattle.std.specs.List.{list_all};
ghost use Rattle.mold_words.specs.Values.{is_character};
ghost use Rattle.mold_wire.specs.declared.limits.TheConstants.{MAX_BURST, MAX_WINDOW};

use crate::limits::Limits;

/// The session that `sim` runs, its server and its receivers.
#[derive(Clone, Copy)]
pub struct SimOrder {
    /// The session's name in characters 20 to 7E (hexadecimal), padded with spaces on the right.
    pub session: [u8; 10],
    /// The maximum datagram lengths of the publisher and of its server.
    pub limits: Limits,
    /// The window of each receiver in messages, 1 to `MAX_WINDOW`.
    pub window: u32,
    /// The number of receivers, 1 to 8.
    pub receivers: usize,
    /// The maximum number of responses to one request, 1 to `MAX_BURST`.
    pub burst: u16,
    ghost named: { list_all is_character session ≡ true },
    ghost windowed: { (1 ≤ window) × (window ≤ MAX_WINDOW) },
    ghost received: { (1 ≤ receivers) × (receivers ≤ 8) },
    ghost bursting: { (1 ≤ burst) × (burst ≤ MAX_BURST) },
}
