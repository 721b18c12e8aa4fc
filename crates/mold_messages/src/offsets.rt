//! The offsets at which the messages of a list end.

ghost use Rattle.std.specs.Prelude.{◌≡◌, ◌≤◌, length};
ghost use Rattle.mold_messages.specs.Offsets.{start_at};

/// Returns the offset at which the message before index `i` ends, or 0 for index 0.
pub fn offset_of(ends: &[usize], i: usize) -> usize
    requires { i ≤ length ends.now }
    ensures { result ≡ start_at 0 ends.now i }
{
    if i == 0 { 0 } else { ends[i - 1] }
}
