//! The limit on requests for any span of time.

ghost use Rattle.std.specs.Prelude.{◌≡◌, ◌<◌, ◌^◌, ◌+◌, nat_le};

/// Returns whether a request may be sent at `now`. `opens` is the time from which on one may be sent, and `tolerance`
/// is how much earlier it may be sent.
pub(crate) fn is_open(opens: u64, tolerance: u64, now: u64) -> bool
    requires { now + tolerance < 2 ^ 64 }
    ensures { result ≡ nat_le opens (now + tolerance) }
{
    opens <= now + tolerance
}
