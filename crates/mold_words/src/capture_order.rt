//! The order of the commands over captures.

ghost use Rattle.std.proofs.Props.{props};
ghost use Rattle.std.specs.Prelude.{◌≡◌, ◌<◌, IfSome, length, true};
ghost use Rattle.std.specs.List.{list_all};
ghost use Rattle.mold_words.specs.CaptureOptions.{is_port};
ghost use Rattle.mold_words.specs.Values.{is_character};

use mold_frame::IpAddress;

/// The captures that `check`, `show` and `sessions` read, and which of their datagrams pass.
#[derive(Drop)]
pub struct CaptureOrder {
    /// The names of the capture files, in the order in which they are read: at least one. `-` is standard input, and
    /// occurs at most once.
    pub captures: Vec<String>,
    /// The destination ports that pass, each from 1 to 65,535. If there are none, every port passes.
    pub ports: Vec<u16>,
    /// The destination addresses that pass. If there are none, every address passes.
    pub groups: Vec<IpAddress>,
    /// The name of the session that passes, in characters 20 to 7E (hexadecimal), padded with spaces on the right. With
    /// `None` every session passes.
    pub session: Option<[u8; 10]>,
    ghost captured: { 0 < length captures.items },
    ghost ported: { list_all is_port ports.items ≡ true },
    ghost named: { IfSome session (λ name. list_all is_character name ≡ true) } by { Prim.hlevel props },
}
