//! The key of the digests of a check.

ghost use Rattle.std.specs.Prelude.{◌≡◌};

use crate::digested::push_digested;
use sha2::{Digest, Sha256};
use std::alloc::AllocError;
use std::fmt::{Debug, Formatter};
use std::marker::Model;
use std::random::RandomSource;
use std::{fmt, io};

/// The size of a key in bytes.
pub const KEY_BYTES: usize = 16;

/// The size of a digest in bytes.
pub const DIGEST_BYTES: usize = 16;

/// A secret key for digests. Nobody can prepare two messages with the same digest without it, so each check has a new
/// one. `Debug` does not print it.
#[derive(Drop)]
pub struct DigestKey {
    bytes: [u8; KEY_BYTES],
}

impl Debug for DigestKey {
    fn fmt<W: fmt::Write>(&self, f: &mut Formatter<W>) -> fmt::Result {
        f.debug_struct("DigestKey").finish_non_exhaustive()
    }
}

impl Model for DigestKey {
    ghost use Rattle.std.specs.Prelude.{ℕ, List};

    ghost Value = { List ℕ };

    ghost view = { λ k. k.bytes };
}

impl DigestKey {
    ghost use Rattle.std.specs.Prelude.{◌<◌, ◌≤◌, [], OnOk, OnErr, length, vec_capacity};
    ghost use Rattle.mold_digest.specs.Key.{digest};
    ghost use Rattle.mold_digest.specs.Digested.{digested};

    /// Makes a key from bytes that nobody else knows.
    pub fn new(bytes: [u8; KEY_BYTES]) -> DigestKey
        ensures { result ≡ bytes }
    {
        DigestKey { bytes }
    }

    /// Draws a key from the system's random bytes. The error is that of the system.
    pub fn draw(rt: &impl RandomSource) -> io::Result<DigestKey> {
        let mut bytes = [0; KEY_BYTES];
        rt.fill_bytes(&mut bytes)?;
        Ok(DigestKey::new(bytes))
    }

    /// Returns the digest of a message: the first 16 bytes of SHA-256 of the key followed by the message. It allocates
    /// nothing. A message of up to 39 bytes takes one block of SHA-256, and each further 64 bytes take one more.
    #[tactic(auto, unfolding(crate::specs::Key::digest))]
    pub fn digest(&self, message: &[u8]) -> [u8; DIGEST_BYTES]
        ensures { result ≡ digest self.now message.now }
    {
        let mut hasher = Sha256::new();
        hasher.update(self.bytes.as_slice());
        hasher.update(message);
        let whole = hasher.finalize();
        let (first, _) = whole.split_at(DIGEST_BYTES);
        let mut digest = [0; DIGEST_BYTES];
        digest.copy_from_slice(first);
        digest
    }

    /// Replaces the contents of `out` with the datagram in which each message is replaced by its digest. Bytes that do
    /// not encode a data packet stay the same. The digested datagram of a data packet has 18 bytes for each message
    /// after the header, so it may be longer than the datagram. With one `out` for all datagrams, it allocates only for
    /// the longest one so far. An error means that an allocation failed.
    pub fn digested(&self, datagram: &[u8], out: &mut Vec<u8>) -> Result<(), AllocError>
        ensures ok { OnOk result (out.new.items ≡ digested self.now datagram.now) }
        ensures err { OnErr result (out.new.items ≡ []) }
        ensures full { OnErr result (vec_capacity out.old < length (digested self.now datagram.now)) }
        ensures capacity { vec_capacity out.old ≤ vec_capacity out.new }
    {
        out.clear();
        let done = push_digested(self, datagram, out);
        if done.is_err() {
            out.clear();
        }
        done
    }
}
