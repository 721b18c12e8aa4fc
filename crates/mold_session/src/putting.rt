//! Bytes copied into a buffer at an offset.

ghost use Rattle.std.specs.Prelude.{◌≡◌, ◌+◌, ◌≤◌, ◌++◌, length, take, drop};

/// Copies `text` into the buffer after its first `used` bytes. The bytes after `text` are unchanged.
pub fn put_after(bytes: &mut [u8], used: usize, text: &[u8])
    requires { used + length text.now ≤ length bytes.old }
    ensures { bytes.new ≡ take used bytes.old ++ (text.now ++ drop (length text.now) (drop used bytes.old)) }
{
    let (_, behind) = bytes.split_at_mut(used);
    let (slot, _) = behind.split_at_mut(text.len());
    slot.copy_from_slice(text);
}
