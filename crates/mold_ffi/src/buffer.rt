//! Copies bytes to the buffer of the caller.

ghost use Rattle.std.specs.Prelude.{◌≡◌, ◌≤◌, length, IfSome, IfNone};
ghost use Rattle.mold_ffi.specs.declared.code.TheConstants as codes;
ghost use Rattle.mold_session.specs.Putting.{Puts};

use crate::code::{ABSENT, DONE};

/// Copies the text to the start of the buffer. The other bytes of the buffer are unchanged.
pub(crate) fn copy_to_front(buffer: &mut [u8], text: &[u8])
    requires { length text.now ≤ length buffer.old }
    ensures { Puts buffer.old buffer.new text.now (length text.now) }
{
    let (front, _) = buffer.split_at_mut(text.len());
    front.copy_from_slice(text);
}

/// Copies the bytes to the start of the buffer and writes their length. If there are none, the buffer is
/// unchanged, the length is 0, and the code is `ABSENT`.
pub(crate) fn copy_if_some(found: Option<&[u8]>, buffer: &mut [u8], size: &mut usize) -> u32
    requires { IfSome found (λ bytes. length bytes.now ≤ length buffer.old) }
    ensures absent { IfNone found.entry ((result ≡ codes.ABSENT) × (size.new ≡ 0) × (buffer.new ≡ buffer.old)) }
    ensures put { IfSome found.entry (λ bytes. (result ≡ codes.DONE) × Puts buffer.old buffer.new bytes.now size.new) }
{
    let Some(bytes) = found else {
        *size = 0;
        return ABSENT;
    };
    copy_to_front(buffer, bytes);
    *size = bytes.len();
    DONE
}
