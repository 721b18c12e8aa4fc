//! The name of a session.

ghost use Rattle.std.specs.Prelude.{◌≡◌, length};
ghost use Rattle.std.specs.Str.{bytes_eq};

use byteorder::{BigEndian, ByteOrder};

/// The size of a session's name in bytes.
pub const SESSION_LENGTH: usize = 10;

/// The ten bytes that name a session. Any bytes are valid, and names are compared byte by byte. The field is
/// at offset 0 of a downstream packet and of a request packet.
#[derive(Clone, Copy, Debug, PartialEq, Eq, Hash)]
pub struct Session(pub [u8; SESSION_LENGTH]);

// Returns whether two ten-byte names are equal. It compares them as two numbers, which is faster than byte by
// byte. It is inlined, since a call costs more than both comparisons.
#[inline(always)]
fn same_name(name: &[u8], other: &[u8]) -> bool
    requires name { length name.now ≡ 10 }
    requires other { length other.now ≡ 10 }
    ensures { result ≡ bytes_eq name.now other.now }
{
    let (front, back) = name.split_at(8);
    let (other_front, other_back) = other.split_at(8);
    BigEndian::read_u64(front) == BigEndian::read_u64(other_front)
        && BigEndian::read_u16(back) == BigEndian::read_u16(other_back)
}

impl Session {
    /// Returns whether `other` has the same name, as `==` does, but faster. It is called for each datagram.
    // Inlined for the same reason as `same_name`.
    #[inline(always)]
    pub fn is_same(&self, other: &Session) -> bool
        ensures { result ≡ bytes_eq self.now.0 other.now.0 }
    {
        same_name(&self.0, &other.0)
    }
}
