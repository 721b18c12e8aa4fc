//! A slice of a list's bytes, by two offsets.

ghost use Rattle.std.specs.Prelude.{◌≡◌, ◌-◌, ◌≤◌, length, take, drop};

/// Returns the bytes from offset `start` to before offset `end`.
pub fn part(bytes: &[u8], start: usize, end: usize) -> &[u8]
    requires ordered { start ≤ end }
    requires within { end ≤ length bytes.now }
    ensures { result.now ≡ take (end - start) (drop start bytes.entry.now) }
{
    &bytes[start..end]
}
