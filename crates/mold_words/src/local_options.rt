//! The options that `mold sim` and `mold loop` share. Both run a publisher, a server and receivers in one process.

ghost use Rattle.std.specs.Prelude.{◌≡◌, ◌≤◌, true};
ghost use Rattle.std.specs.List.{list_all};
ghost use Rattle.mold_words.specs.Values.{is_character};
ghost use Rattle.mold_wire.specs.declared.limits.TheConstants.{MAX_BURST, MAX_WINDOW};

use crate::limits::Limits;

/// The session and its parts, as the fields of `SimOrder` and `LoopOrder` with these names.
#[derive(Clone, Copy)]
pub(crate) struct LocalOptions {
    pub session: [u8; 10],
    pub limits: Limits,
    pub window: u32,
    pub burst: u16,
    ghost named: { list_all is_character session ≡ true },
    ghost windowed: { (1 ≤ window) × (window ≤ MAX_WINDOW) },
    ghost bursting: { (1 ≤ burst) × (burst ≤ MAX_BURST) },
}
