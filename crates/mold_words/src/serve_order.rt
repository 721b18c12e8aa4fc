//! The order of `mold serve`.

ghost use Rattle.std.specs.Prelude.{◌≤◌, IfSome};
ghost use Rattle.std.proofs.Props.{props};
ghost use Rattle.mold_wire.specs.declared.limits.TheConstants.{MAX_BURST};
ghost use Rattle.mold_wire.specs.declared.limits.TheConstants.{MAX_LIMIT, MIN_LIMIT};

use crate::address::Address;

/// The journal that `serve` responds from, and how.
#[derive(Drop)]
pub struct ServeOrder {
    /// The name of the journal file.
    pub journal: String,
    /// Whether new records of the file are read while requests are answered.
    pub follow: bool,
    /// The maximum length of a response in bytes, `MIN_LIMIT` to `MAX_LIMIT`.
    pub limit: usize,
    /// The maximum number of responses to one request, 1 to `MAX_BURST`.
    pub burst: u16,
    /// The address that receives requests.
    pub bind: Address,
    /// The number of turns, each of which makes one receive, 1 to 1,000,000. `None` serves until the process is killed.
    pub turns: Option<u32>,
    /// Whether text is written at the end of each turn, instead of being gathered for large writes.
    pub live: bool,
    ghost limited: { (MIN_LIMIT ≤ limit) × (limit ≤ MAX_LIMIT) },
    ghost bursting: { (1 ≤ burst) × (burst ≤ MAX_BURST) },
    ghost turning: { IfSome turns (λ number. (1 ≤ number) × (number ≤ 1000000)) } by { Prim.hlevel props },
}
