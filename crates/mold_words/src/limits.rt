//! The maximum datagram lengths of a publisher and its server.

ghost use Rattle.std.specs.Prelude.{◌≤◌};
ghost use Rattle.mold_wire.specs.declared.limits.TheConstants.{MAX_LIMIT, MIN_LIMIT};

/// The maximum datagram lengths of a publisher and its re-request server, in bytes. Both are `MIN_LIMIT` to
/// `MAX_LIMIT`.
#[derive(Clone, Copy)]
pub struct Limits {
    /// The publisher's limit.
    pub limit: usize,
    /// The server's limit, which is at least the publisher's. So each of the publisher's messages fits a response.
    pub server_limit: usize,
    ghost limited: { (MIN_LIMIT ≤ limit) × (limit ≤ MAX_LIMIT) },
    ghost served: { (limit ≤ server_limit) × (server_limit ≤ MAX_LIMIT) },
}
