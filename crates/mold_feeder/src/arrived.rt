//! The bytes of an input that have come, as a source.

ghost use Rattle.std.specs.Prelude.{◌≡◌, ◌+◌, ◌++◌, ◌≤◌, ◌<◌, min, drop, length, replicate, take, Some, Ok, [], IfOk};
ghost use Rattle.std.specs.Io.{ReadsAtMost};
ghost use Rattle.std.specs.Io.KnownBytes.{ReadConsumes};
ghost use Rattle.mold_devices.specs.Devices.{Counts};
ghost use Rattle.mold_input.specs.LongLines.{bytes_of};

use mold_devices::{DeviceFault, Source};
use mold_input::LinePart;
use std::alloc::Global;
use std::marker::Model;

/// The whole entries of an input that have come, as a source that ends after them.
#[derive(Drop)]
pub struct Arrived {
    // The number of digits 0 that are read first, in place of the digits that were counted and not kept.
    digits: usize,
    bytes: Vec<u8>,
    // The number of these bytes that are read.
    read: usize,
}

impl Model for Arrived {
    ghost use Rattle.std.specs.Prelude.{◌≤◌, ◌++◌, ℕ, List, drop, replicate, vec_len};

    ghost Value = { List ℕ };

    ghost view = { λ a. replicate a.digits 48 ++ drop a.read a.bytes.items };

    ghost invariant = { λ a. a.read ≤ vec_len a.bytes };
}

impl Arrived {
    /// Returns a source without bytes.
    pub(crate) fn new(alloc: Global) -> Arrived
        ensures { result ≡ [] }
    {
        Arrived {
            digits: 0,
            bytes: Vec::new(alloc),
            read: 0,
        }
    }

    /// Returns a source of the bytes of this part.
    pub(crate) fn of(part: LinePart) -> Arrived
        ensures { result ≡ bytes_of part }
    {
        let (digits, bytes) = part.into_parts();
        Arrived {
            digits,
            bytes,
            read: 0,
        }
    }
}

impl Source for Arrived {
    ghost left = { λ s. Some s };

    ghost bound = { λ s. length s };

    ghost failed = { λ _. 0 };

    fn read(&mut self, buffer: &mut [u8]) -> Result<usize, DeviceFault>
        // The contract of every source.
        ensures count { ReadsAtMost result buffer.new }
        ensures bytes { ReadConsumes (Some self.old) (Some self.new) result buffer.new }
        ensures bound { IfOk result (λ n. 0 < n → length self.new < length self.old) }
        ensures kept { length self.new ≤ length self.old }
        ensures failures { Counts 0 0 result }

        // What this source does in addition.
        ensures moved { result ≡ Ok (min (length self.old) (length buffer.old)) }
        ensures left { self.new ≡ drop (length buffer.old) self.old }
    {
        let digits = self.digits.min(buffer.len());
        put_digits(buffer, digits);
        let count = (self.bytes.len() - self.read).min(buffer.len() - digits);
        let end = self.read + count;
        put_bytes(buffer, digits, &self.bytes[self.read..end]);
        self.digits -= digits;
        self.read = end;
        Ok(digits + count)
    }

    fn failures(&self) -> u64 {
        0
    }
}

// Replaces the first `count` bytes by digits 0.
fn put_digits(buffer: &mut [u8], count: usize)
    requires { count ≤ length buffer.old }
    ensures { buffer.new ≡ replicate count 48 ++ drop count buffer.old }
{
    buffer[..count].fill(b'0');
}

// Replaces the bytes from index `at` on by others.
fn put_bytes(buffer: &mut [u8], at: usize, bytes: &[u8])
    requires { at + length bytes.now ≤ length buffer.old }
    ensures { buffer.new ≡ take at buffer.old ++ (bytes.now ++ drop (at + length bytes.now) buffer.old) }
{
    let end = at + bytes.len();
    buffer[at..end].copy_from_slice(bytes);
}
