//! The options of `mold receive` about the start of a session.

ghost use Rattle.std.proofs.Props.{props};
ghost use Rattle.std.specs.Prelude.{◌≡◌, ◌≤◌, IfSome, true};
ghost use Rattle.std.specs.List.{list_all};
ghost use Rattle.mold_words.specs.Values.{is_character};

/// The session and its first message, as the fields of `ReceiveOrder` with these names.
#[derive(Clone, Copy)]
pub(crate) struct StartOptions {
    pub session: Option<[u8; 10]>,
    pub next: Option<u64>,
    ghost named: { IfSome session (λ name. list_all is_character name ≡ true) } by { Prim.hlevel props },
    ghost first: { IfSome next (λ number. (1 ≤ number) × (number ≤ 9223372036854775807)) } by { Prim.hlevel props },
}
