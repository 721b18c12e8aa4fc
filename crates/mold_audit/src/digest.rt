//! The digest of a message.

ghost use Rattle.std.specs.Prelude.{◌≡◌, ◌<◌, length};
ghost use Rattle.byteorder.specs.Endian.{little_number};
ghost use Rattle.mold_audit.specs.Digest.{digest, last_word, stepped};

use byteorder::{ByteOrder, LittleEndian};

// The size in bytes of a word.
const WORD_BYTES: usize = 8;

// The factor of a step: 2^64 divided by the golden ratio, whose bits have no pattern. It is odd, so the multiplication
// loses no difference.
pub(crate) const FACTOR: u64 = 0x9E37_79B9_7F4A_7C15;

// Returns the digest after another word.
#[inline(always)]
fn step(digest: u64, word: u64) -> u64
    ensures { result ≡ stepped digest word }
{
    let product = (digest ^ word).wrapping_mul(FACTOR);
    product ^ (product >> 32)
}

// Returns the bytes of a message that is shorter than a word, as a word that ends with zeros.
fn short_word(message: &[u8]) -> u64
    requires { length message.now < 8 }
    ensures { result ≡ little_number 8 message.now }
{
    if message.is_empty() {
        return 0;
    }
    LittleEndian::read_uint(message, message.len())
}

// Returns the last word of a message.
#[inline(always)]
fn last_word(message: &[u8]) -> u64
    ensures { result ≡ last_word message.now }
{
    if message.len() < WORD_BYTES {
        return short_word(message);
    }
    let (_, last) = message.split_at(message.len() - WORD_BYTES);
    LittleEndian::read_u64(last)
}

/// Returns the digest of a message, which is never 0. It reads eight bytes at a time.
///
/// The digest is not cryptographic: it is easy to choose two messages with the same digest. Two messages that differ by
/// accident have the same digest with a chance of about 1 in 2^64.
pub fn digest_of(message: &[u8]) -> u64
    ensures { result ≡ digest message.now }
{
    let mut digest = message.len() as u64;
    let mut rest = message;
    while rest.len() > WORD_BYTES {
        digest = step(digest, LittleEndian::read_u64(rest));
        let (_, behind) = rest.split_at(WORD_BYTES);
        rest = behind;
    }
    step(digest, last_word(message)).max(1)
}
