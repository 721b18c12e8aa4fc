//! The bytes of one read from a source.

ghost use Rattle.std.specs.Prelude.{◌≡◌, ◌<◌, ◌≤◌, [], drop, length, IfOk, OnErr};
ghost use Rattle.std.specs.Io.KnownBytes.{Consumes, IsAtEnd, Keeps};
ghost use Rattle.mold_devices.specs.Devices.{Counts};

use crate::device_fault::DeviceFault;
use crate::source::Source;
use std::marker::Model;

/// A buffer for the bytes of one read, at most `N`, which tracks the bytes that are not used yet. It does not
/// allocate.
#[derive(Drop)]
pub struct Piece<const N: usize> {
    bytes: [u8; N],
    start: usize,
    end: usize,
}

impl<const N: usize> Model for Piece<N> {
    ghost use Rattle.std.specs.Prelude.{◌≡◌, ◌-◌, ◌<◌, ◌≤◌, ℕ, List, take, drop, length};

    ghost Value = { List ℕ };

    ghost view = { λ p. take (p.end - p.start) (drop p.start p.bytes) };

    ghost invariant = { λ p. (p.start ≤ p.end) × (p.end ≤ N) × (length p.bytes ≡ N) × (0 < N) };
}

impl<const N: usize> Piece<N> {
    /// Makes an empty piece. A piece is a buffer for the bytes of one read.
    pub fn new() -> Piece<N>
        requires { 0 < N }
        ensures { result ≡ [] }
    {
        Piece {
            bytes: [0; N],
            start: 0,
            end: 0,
        }
    }

    /// Returns the bytes that are not used yet.
    pub fn rest(&self) -> &[u8]
        ensures value { result.now ≡ self.now }
        ensures bound { length self.now ≤ N }
    {
        let bytes = &self.bytes[..];
        &bytes[self.start..self.end]
    }

    /// Marks `n` more bytes as used.
    pub fn skip(&mut self, n: usize)
        requires { n ≤ length self.old }
        ensures { self.new ≡ drop n self.old }
    {
        self.start += n;
    }

    /// Reads once into the piece, discards the bytes that were not used, and returns the number of bytes read, which is
    /// 0 at the end of the source. After a fault, the piece is empty, and the source has lost no bytes.
    pub fn refill<S: Source>(&mut self, source: &mut S) -> Result<usize, DeviceFault>
        ensures len { IfOk result (λ n. length self.new ≡ n) }
        ensures most { IfOk result (λ n. n ≤ N) }
        ensures bytes { IfOk result (λ _. Consumes (S.left source.old) (S.left source.new) self.new) }
        ensures end { IfOk result (λ n. n ≡ 0 → IsAtEnd (S.left source.new)) }
        ensures bound { IfOk result (λ n. 0 < n → S.bound source.new < S.bound source.old) }
        ensures kept { S.bound source.new ≤ S.bound source.old }
        ensures none { OnErr result (self.new ≡ []) }
        ensures left { OnErr result (Keeps (S.left source.old) (S.left source.new)) }
        ensures failures { Counts (S.failed source.old) (S.failed source.new) result }
    {
        self.start = 0;
        self.end = 0;
        let count = source.read(&mut self.bytes)?;
        self.end = count;
        Ok(count)
    }
}
