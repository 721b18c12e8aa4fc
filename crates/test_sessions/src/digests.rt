//! Digests of messages and digested datagrams. The digests are those of the examples of FIPS 180-4, whose first 16
//! bytes are the key here, and of Python's `hashlib`. `tests/cases/extract.txt` has checks by digest.

use crate::comparisons::{holds, holds_at};
use mold_digest::DigestKey;
use std::alloc::AllocError;
use std::process::Abort;
use std::test::Fail;

// Message 5 is `A` and message 6 is `BC`.
const DATA: &[u8] = b"SESSION001\0\0\0\0\0\0\0\x05\0\x02\0\x01A\0\x02BC";

const DIGESTED: &[u8] = b"SESSION001\0\0\0\0\0\0\0\x05\0\x02\
    \0\x10\xc0\x23\xf1\xa5\x96\xe0\x4d\x2e\xe3\x85\xbb\xee\x3c\x8c\x55\xd4\
    \0\x10\xf3\x3c\x22\xd6\xc4\x72\x9b\xb9\x1e\xf8\x7f\x8c\xf8\x85\x2d\x1e";

/// The key and the rest of a text, and the first 16 bytes of the digest of the whole text.
const EXAMPLES: [([u8; 16], &[u8], [u8; 16]); 3] = [
    (
        *b"abcdbcdecdefdefg",
        b"efghfghighijhijkijkljklmklmnlmnomnopnopq",
        *b"\x24\x8d\x6a\x61\xd2\x06\x38\xb8\xe5\xc0\x26\x93\x0c\x3e\x60\x39",
    ),
    (
        *b"abcdefghbcdefghi",
        b"cdefghijdefghijkefghijklfghijklmghijklmnhijklmnoijklmnopjklmnopqklmnopqrlmnopqrsmnopqrstnopqrstu",
        *b"\xcf\x5b\x16\xa7\x78\xaf\x83\x80\x03\x6c\xe5\x9e\x7b\x04\x92\x37",
    ),
    (
        *b"abcdbcdecdefdefg",
        b"",
        *b"\x3d\xf4\x5d\x14\x95\xc5\xd2\x40\x05\x0c\xf2\x2c\xad\x81\x23\xa0",
    ),
];

#[test]
fn no_allocation_of_digests_of_the_standard(rt: HostRuntime) -> Result<(), Fail> {
    for (at, (key, message, digest)) in EXAMPLES.iter().enumerate() {
        let found = DigestKey::new(*key).digest(message);
        holds_at(&rt, found == *digest, "digest", at);
    }
    Ok(())
}

// The datagram is digested. If an allocation fails, `out` is empty, and the datagram is digested again.
fn expect_digested(rt: &impl Abort, out: &mut Vec<u8>) -> Result<(), AllocError> {
    let key = DigestKey::new(*b"abcdbcdecdefdefg");
    if key.digested(DATA, out).is_err() {
        holds(rt, out.is_empty());
        key.digested(DATA, out)?;
    }
    holds(rt, out.as_slice() == DIGESTED);
    Ok(())
}

#[test]
fn out_of_memory_leaves_no_digested_datagram(rt: HostRuntime) -> Result<(), Fail> {
    let mut out = Vec::new(rt.alloc());
    Ok(expect_digested(&rt, &mut out)?)
}

#[test]
fn no_allocation_for_another_datagram(rt: HostRuntime) -> Result<(), Fail> {
    let key = DigestKey::new(*b"abcdbcdecdefdefg");
    let mut out = Vec::new(rt.alloc());
    key.digested(DATA, &mut out)?;
    holds(&rt, key.digested(DATA, &mut out).is_ok());
    Ok(())
}

#[test]
fn keys_that_are_drawn_differ(rt: HostRuntime) -> Result<(), Fail> {
    let (one, other) = (DigestKey::draw(&rt)?, DigestKey::draw(&rt)?);
    holds(&rt, one.digest(b"A") != other.digest(b"A"));
    Ok(())
}
