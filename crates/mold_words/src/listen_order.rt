//! The order of `mold listen`.

ghost use Rattle.std.specs.Prelude.{◌≡◌, ◌≤◌, true};
ghost use Rattle.std.specs.List.{list_all};
ghost use Rattle.mold_words.specs.Values.{is_character};
ghost use Rattle.mold_wire.specs.declared.limits.TheConstants.{MAX_BURST, MAX_WINDOW};

use crate::address::Address;
use mold_input::MessageFormat;

/// The session that `listen` receives on two lines, and how.
#[derive(Clone, Copy)]
pub struct ListenOrder {
    /// The session's name in characters 20 to 7E (hexadecimal), padded with spaces on the right.
    pub session: [u8; 10],
    /// The sequence number of the first message that is printed, 1 to 9,223,372,036,854,775,807.
    pub next: u64,
    /// The receiver's window in messages, 1 to `MAX_WINDOW`.
    pub window: u32,
    /// The address that receives line A.
    pub a: Address,
    /// The address that receives line B.
    pub b: Address,
    /// The address that requests are sent to.
    pub server: Address,
    /// The maximum number of receives for the responses to one request, 1 to `MAX_BURST`.
    pub burst: u16,
    /// The maximum number of turns, 1 to 1,000,000.
    pub turns: u32,
    /// Whether text is written at the end of each turn, instead of being gathered for large writes.
    pub live: bool,
    /// Whether reports of both lines are printed before the last line.
    pub report: bool,
    /// The format in which messages are printed.
    pub output: MessageFormat,
    ghost named: { list_all is_character session ≡ true },
    ghost first: { (1 ≤ next) × (next ≤ 9223372036854775807) },
    ghost windowed: { (1 ≤ window) × (window ≤ MAX_WINDOW) },
    ghost bursting: { (1 ≤ burst) × (burst ≤ MAX_BURST) },
    ghost turning: { (1 ≤ turns) × (turns ≤ 1000000) },
}
