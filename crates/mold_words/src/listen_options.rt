//! The options of `mold listen` apart from its addresses and its output.

ghost use Rattle.std.specs.Prelude.{◌≡◌, ◌≤◌, true};
ghost use Rattle.std.specs.List.{list_all};
ghost use Rattle.mold_words.specs.Values.{is_character};
ghost use Rattle.mold_wire.specs.declared.limits.TheConstants.{MAX_BURST, MAX_WINDOW};

/// The session that is received and how, as the fields of `ListenOrder` with these names.
#[derive(Clone, Copy)]
pub(crate) struct ListenOptions {
    pub session: [u8; 10],
    pub next: u64,
    pub window: u32,
    pub burst: u16,
    pub turns: u32,
    ghost named: { list_all is_character session ≡ true },
    ghost first: { (1 ≤ next) × (next ≤ 9223372036854775807) },
    ghost windowed: { (1 ≤ window) × (window ≤ MAX_WINDOW) },
    ghost bursting: { (1 ≤ burst) × (burst ≤ MAX_BURST) },
    ghost turning: { (1 ≤ turns) × (turns ≤ 1000000) },
}
