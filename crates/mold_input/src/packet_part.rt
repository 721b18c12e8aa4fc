//! The part of a packet's line that has been read. A line that can only be refused is not kept whole.

ghost use Rattle.std.specs.Prelude.{◌≡◌, ◌+◌, ◌*◌, ◌++◌, ◌∷◌, ◌≤◌, [], length, take, true, IfOk, OnErr, OnOk};
ghost use Rattle.std.specs.List.{list_all};
ghost use Rattle.hex.specs.Hex.{decode_of, is_hex_digit};
ghost use Rattle.mold_input.specs.LongLines.{IsSameStart};
ghost use Rattle.mold_input.specs.PacketLines.{Content, content};
ghost use Rattle.mold_input.specs.PacketPart.{end_of_digits, even_part, odd_digit};

use crate::part::Part;
use mold_digits::{are_digits, decode};
use mold_wire::DecodeError;
use std::alloc::{AllocError, Global};
use std::marker::Model;

/// Two bytes that are not digits.
const NO_DIGITS: [u8; 2] = *b"..";

/// A digit that makes the number of digits odd.
const ODD_DIGIT: [u8; 1] = *b"0";

/// The number of bytes of a line at which it is examined first.
const FIRST_EXAMINED: usize = 65536;

/// The part of a packet's line that has been read. A line that can still hold a packet is kept whole, however long it
/// is. It is examined once it has `FIRST_EXAMINED` bytes, and again each time that its length has doubled. So the time
/// to read it is in proportion to its length. Once it can only be refused, only the bytes by which it is refused are
/// kept. At most `FIRST_EXAMINED` bytes are kept, or twice as many as the line has where it can only be refused, and
/// those of one more read.
#[derive(Drop)]
pub struct PacketPart {
    kept: Vec<u8>,
    // The number of bytes at which the line is examined next.
    examined_at: usize,
    // Whether the line can only be refused.
    refused: bool,
    alloc: Global,
}

impl Model for PacketPart {
    ghost use Rattle.std.specs.Prelude.{◌≡◌, ℕ, List, true, false};
    ghost use Rattle.std.specs.List.{list_all};
    ghost use Rattle.hex.specs.Hex.{is_hex_digit};
    ghost use Rattle.mold_input.specs.PacketPart.{IsDecided};

    ghost Value = { List ℕ };

    ghost view = { λ p. p.kept.items };

    ghost invariant = { λ p. (p.refused ≡ true → IsDecided p.kept.items)
        × (p.refused ≡ false → list_all is_hex_digit p.kept.items ≡ true) };
}

impl PacketPart {
    /// Returns a part without bytes. It does not allocate.
    pub fn new(alloc: Global) -> PacketPart
        ensures { result ≡ [] }
    {
        PacketPart {
            kept: Vec::new(alloc),
            examined_at: FIRST_EXAMINED,
            refused: false,
            alloc,
        }
    }

    /// Returns the bytes that are kept.
    pub fn kept(&self) -> &[u8]
        ensures { result.now ≡ self.now }
    {
        self.kept.as_slice()
    }

    // Replaces all bytes by two that are not digits. After an error, no bytes are kept.
    fn refuse(&mut self) -> Result<(), AllocError>
        ensures { OnOk result (self.new ≡ 46 ∷ 46 ∷ []) }
    {
        self.refused = false;
        self.kept = Vec::new(self.alloc);
        self.kept.extend_from_slice(&NO_DIGITS)?;
        self.refused = true;
        Ok(())
    }

    // Examines whether the line, whose bytes are digits, can only be refused. If so, a shorter line takes its place.
    fn examine(&mut self) -> Result<(), AllocError>
        requires { list_all is_hex_digit self.old ≡ true }
        ensures { OnOk result (IsSameStart content self.new self.old) }
    {
        let even = self.kept.len() / 2 * 2;
        if let Some(at) = packet_end(&self.kept[..even], self.alloc)? {
            self.kept = shortened(self.kept.as_slice(), at, self.alloc)?;
            self.refused = true;
        } else {
            self.examined_at = self.kept.len().saturating_mul(2);
        }
        Ok(())
    }
}

impl Part for PacketPart {
    ghost Meaning = { Content };

    ghost meaning = { content };

    ghost bytes = { λ p. p };

    fn clear(&mut self) {
        self.kept.clear();
        self.examined_at = FIRST_EXAMINED;
        self.refused = false;
    }

    fn is_empty(&self) -> bool {
        self.kept.is_empty()
    }

    fn add(&mut self, more: &[u8]) -> Result<(), AllocError> {
        if !are_digits(more) {
            return self.refuse();
        }
        if self.refused {
            return count_digits(&mut self.kept, more.len());
        }
        self.kept.extend_from_slice(more)?;
        if self.kept.len() < self.examined_at {
            return Ok(());
        }
        self.examine()
    }
}

// Adds `more` digits to a line that can only be refused. Only whether the number of bytes is odd is kept.
fn count_digits(kept: &mut Vec<u8>, more: usize) -> Result<(), AllocError>
    ensures kept { OnOk result (kept.new.items
        ≡ even_part kept.old.items ++ odd_digit (length kept.old.items + more)) }
    ensures failed { OnErr result (kept.new.items ≡ even_part kept.old.items) }
{
    let len = kept.len();
    kept.truncate(len / 2 * 2);
    if (len % 2 + more % 2) % 2 == 1 {
        kept.extend_from_slice(&ODD_DIGIT)?;
    }
    Ok(())
}

// Returns where the packet that the digits encode ends, if more bytes follow it.
fn packet_end(digits: &[u8], alloc: Global) -> Result<Option<usize>, AllocError>
    ensures { IfOk result (λ end. end ≡ end_of_digits (decode_of digits.now)) }
{
    let mut bytes = Vec::new(alloc);
    if !decode(digits, &mut bytes)? {
        return Ok(None);
    }
    match mold_wire::decode(bytes.as_slice()) {
        Err(DecodeError::Trailing { at }) => Ok(Some(at)),
        _ => Ok(None),
    }
}

// Returns the digits of the first `at + 1` bytes, and one more if the number of digits is odd.
fn shortened(digits: &[u8], at: usize, alloc: Global) -> Result<Vec<u8>, AllocError>
    requires { 2 * (at + 1) ≤ length digits.now }
    ensures { IfOk result (λ kept. kept.items
        ≡ take (2 * (at + 1)) digits.now ++ odd_digit (length digits.now)) }
{
    let mut kept = Vec::new(alloc);
    kept.extend_from_slice(&digits[..2 * (at + 1)])?;
    if digits.len() % 2 == 1 {
        kept.extend_from_slice(&ODD_DIGIT)?;
    }
    Ok(kept)
}
