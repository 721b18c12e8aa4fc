//! The options of `mold receive` about lines.

ghost use Rattle.std.proofs.Props.{props};
ghost use Rattle.std.specs.Prelude.{◌≡◌, IfSome, is_some, true};
ghost use Rattle.mold_words.specs.LinePorts.{is_line_port};

use crate::line_port::LinePort;

/// The ports and the senders of the lines, as the fields of `ReceiveOrder` with these names.
#[derive(Clone, Copy)]
pub(crate) struct LineOptions {
    pub a: LinePort,
    pub b: Option<LinePort>,
    pub source_a: Option<[u8; 4]>,
    pub source_b: Option<[u8; 4]>,
    ghost ported_a: { is_line_port a ≡ true },
    ghost ported_b: { IfSome b (λ port. is_line_port port ≡ true) } by { Prim.hlevel props },
    ghost sourced: { is_some source_b ≡ true → is_some b ≡ true },
}
