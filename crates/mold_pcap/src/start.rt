//! The first part of a capture.

ghost use Rattle.std.specs.Prelude.{◌≡◌};
ghost use Rattle.mold_pcap.specs.Looks.{start_at};

use crate::blocks::{SECTION_HEADER, look_at_section};
use crate::classic::look_by_magic;
use crate::look::Look;
use crate::order::Order;

/// The length of what a capture begins with: the magic, or the kind of a section header.
const MAGIC: usize = 4;

/// Looks at the first part of a capture, which begins at byte `at`.
#[tactic(auto, unfolding(crate::specs::Looks::start_at))]
pub fn look_at_start(at: u64, bytes: &[u8]) -> Look
    ensures { result ≡ start_at at bytes.now }
{
    if bytes.len() < MAGIC {
        return Look::Short { need: MAGIC };
    }
    let magic = Order::Big.u32_at(bytes, 0);
    if magic == SECTION_HEADER {
        return look_at_section(at, bytes);
    }
    look_by_magic(magic, bytes)
}
