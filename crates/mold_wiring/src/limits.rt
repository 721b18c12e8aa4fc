//! The length limits of messages.

ghost use Rattle.std.specs.Prelude.{◌≡◌, ◌-◌, ◌≤◌};
ghost use Rattle.mold_wire.specs.declared.limits.TheConstants.{MAX_LIMIT, MESSAGE_OVERHEAD, MIN_LIMIT};

use mold_wire::MESSAGE_OVERHEAD;

/// Returns the length in bytes of the longest message that fits alone in a packet of this limit.
pub fn longest_message(limit: usize) -> u16
    requires least { MIN_LIMIT ≤ limit }
    requires most { limit ≤ MAX_LIMIT }
    ensures { result ≡ limit - MESSAGE_OVERHEAD }
{
    (limit - MESSAGE_OVERHEAD) as u16
}
