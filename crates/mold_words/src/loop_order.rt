//! The order of `mold loop`.

ghost use Rattle.std.specs.Prelude.{◌≡◌, ◌≤◌, true};
ghost use Rattle.std.specs.List.{list_all};
ghost use Rattle.mold_words.specs.Values.{is_character};
ghost use Rattle.mold_wire.specs.declared.limits.TheConstants.{MAX_BURST, MAX_WINDOW};

use crate::limits::Limits;
use mold_input::MessageFormat;

/// The session that `loop` publishes and receives in one process, and how.
#[derive(Clone, Copy)]
pub struct LoopOrder {
    /// The session's name in characters 20 to 7E (hexadecimal), padded with spaces on the right.
    pub session: [u8; 10],
    /// The maximum datagram lengths of the publisher and of its server.
    pub limits: Limits,
    /// The receiver's window in messages, 1 to `MAX_WINDOW`.
    pub window: u32,
    /// The maximum number of responses to one request, 1 to `MAX_BURST`.
    pub burst: u16,
    /// Every `drop_a`-th data packet is not sent on line A, 0 to 1,000. With 0 each is sent.
    pub drop_a: u32,
    /// Every `drop_b`-th data packet is not sent on line B, 0 to 1,000. With 0 each is sent.
    pub drop_b: u32,
    /// The maximum number of rounds of requests after the messages, 1 to 1,000,000.
    pub turns: u32,
    /// Whether reports of both lines are printed before the last line.
    pub report: bool,
    /// How the input encodes the messages, and the format in which they are printed.
    pub format: MessageFormat,
    ghost named: { list_all is_character session ≡ true },
    ghost windowed: { (1 ≤ window) × (window ≤ MAX_WINDOW) },
    ghost bursting: { (1 ≤ burst) × (burst ≤ MAX_BURST) },
    ghost dropping: { (drop_a ≤ 1000) × (drop_b ≤ 1000) },
    ghost turning: { (1 ≤ turns) × (turns ≤ 1000000) },
}
