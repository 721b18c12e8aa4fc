//! The order of the bytes of a number.

ghost use Rattle.std.specs.Prelude.{◌≡◌, ◌+◌, ◌≤◌, drop, length};
ghost use Rattle.mold_pcap.specs.Numbers.{number};

use byteorder::{BigEndian, ByteOrder, LittleEndian};

/// The order of the bytes of a capture's numbers.
#[derive(Clone, Copy)]
pub enum Order {
    /// The most significant byte is first.
    Big,
    /// The least significant byte is first.
    Little,
}

impl Order {
    /// Returns the number in the two bytes at `offset`.
    #[inline(always)]
    pub fn u16_at(self, bytes: &[u8], offset: usize) -> u16
        requires { offset + 2 ≤ length bytes.now }
        ensures { result ≡ number self 2 (drop offset bytes.now) }
    {
        match self {
            Order::Big => BigEndian::read_u16(&bytes[offset..]),
            Order::Little => LittleEndian::read_u16(&bytes[offset..]),
        }
    }

    /// Returns the number in the four bytes at `offset`.
    #[inline(always)]
    pub fn u32_at(self, bytes: &[u8], offset: usize) -> u32
        requires { offset + 4 ≤ length bytes.now }
        ensures { result ≡ number self 4 (drop offset bytes.now) }
    {
        match self {
            Order::Big => BigEndian::read_u32(&bytes[offset..]),
            Order::Little => LittleEndian::read_u32(&bytes[offset..]),
        }
    }

    /// Returns the number in the eight bytes at `offset`.
    pub fn u64_at(self, bytes: &[u8], offset: usize) -> u64
        requires { offset + 8 ≤ length bytes.now }
        ensures { result ≡ number self 8 (drop offset bytes.now) }
    {
        match self {
            Order::Big => BigEndian::read_u64(&bytes[offset..]),
            Order::Little => LittleEndian::read_u64(&bytes[offset..]),
        }
    }
}
