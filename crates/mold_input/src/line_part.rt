//! The part of an entry that has been read. Of a line that is too long for a message, only the digits are counted.

ghost use Rattle.std.specs.Prelude.{◌≡◌, ◌+◌, ◌++◌, ◌≤◌, ◌==◌, [], drop, length, take, IfOk, IfSome, OnOk};
ghost use Rattle.mold_input.specs.Entries.{Entry, line_entry};
ghost use Rattle.mold_input.specs.LongLines.{IsEntry, IsSameStart, bytes_of};
ghost use Rattle.mold_input.specs.declared.limits.TheConstants.{MAX_LINE};

use crate::input_fault::InputFault;
use crate::limits::MAX_LINE;
use crate::next::Next;
use crate::part::Part;
use mold_digits::{are_digits, decode};
use std::alloc::{AllocError, Global};
use std::marker::Model;
use std::mem;

/// A byte that is not a digit.
const NO_DIGIT: u8 = b'.';

/// The part of an entry that has been read.
#[derive(Drop)]
pub struct LinePart {
    // The number of digits that were counted and not kept. They read as the digit 0, and precede the kept bytes.
    counted: usize,
    kept: Vec<u8>,
}

impl Model for LinePart {
    ghost use Rattle.std.specs.Prelude.{◌<◌};
    ghost use Rattle.mold_input.specs.LongLines.{PartState};
    ghost use Rattle.mold_input.specs.declared.limits.TheConstants.{MAX_LINE};

    ghost Value = { PartState };

    ghost view = { λ p. record { counted = p.counted; kept = p.kept.items } };

    ghost invariant = { λ p. 0 < p.counted → MAX_LINE < p.counted };
}

impl LinePart {
    /// Returns a part without bytes. It does not allocate.
    pub fn new(alloc: Global) -> LinePart
        ensures { result ≡ record { counted = 0; kept = [] } }
    {
        LinePart {
            counted: 0,
            kept: Vec::new(alloc),
        }
    }

    /// Removes all bytes.
    pub fn clear(&mut self)
        ensures { self.new ≡ record { counted = 0; kept = [] } }
    {
        self.counted = 0;
        self.kept.clear();
    }

    /// Returns whether no byte has been read.
    pub fn is_empty(&self) -> bool
        ensures { result ≡ (length (bytes_of self.now) == 0) }
    {
        self.counted == 0 && self.kept.is_empty()
    }

    /// Adds bytes of a line. A line that is too long for a message is not kept: if all its bytes are digits, they are
    /// counted. Otherwise a single byte that is not a digit takes its place. It fails if an allocation fails, or if
    /// there are more digits than can be counted.
    pub fn add(&mut self, bytes: &[u8]) -> Result<(), AllocError>
        ensures same { OnOk result (IsSameStart line_entry (bytes_of self.new) (bytes_of self.old ++ bytes.now)) }
        ensures few { length self.old.kept ≤ MAX_LINE → length self.new.kept ≤ MAX_LINE }
    {
        if self.counted == 0 && bytes.len() <= MAX_LINE.saturating_sub(self.kept.len()) {
            return self.kept.extend_from_slice(bytes);
        }
        if are_digits(self.kept.as_slice()) && are_digits(bytes) {
            let Some(counted) = self.length_with(bytes.len()) else {
                return Err(AllocError);
            };
            self.counted = counted;
            self.kept.clear();
            return Ok(());
        }
        self.clear();
        self.kept.extend_from_slice(&[NO_DIGIT])?;
        Ok(())
    }

    /// Adds bytes of a block. It keeps all of them.
    pub fn extend(&mut self, bytes: &[u8]) -> Result<(), AllocError>
        ensures { OnOk result (self.new ≡ record self.old { kept = self.old.kept ++ bytes.now }) }
    {
        self.kept.extend_from_slice(bytes)
    }

    /// Returns the bytes that are kept.
    pub fn kept(&self) -> &[u8]
        ensures { result.now ≡ self.now.kept }
    {
        self.kept.as_slice()
    }

    /// Takes the counted digits and the first `count` kept bytes, and leaves the other bytes. After an error the bytes
    /// are lost.
    pub fn split(&mut self, count: usize, alloc: Global) -> Result<LinePart, AllocError>
        requires { count ≤ length self.old.kept }
        ensures whole { IfOk result (λ whole. whole ≡ record self.old { kept = take count self.old.kept }) }
        ensures left { OnOk result (self.new ≡ record { counted = 0; kept = drop count self.old.kept }) }
    {
        let mut whole = mem::replace(self, LinePart::new(alloc));
        self.kept.extend_from_slice(&whole.kept[count..])?;
        whole.kept.truncate(count);
        Ok(whole)
    }

    /// Returns the number of counted digits, and the kept bytes.
    pub fn into_parts(self) -> (usize, Vec<u8>)
        ensures counted { result.0 ≡ self.counted }
        ensures kept { result.1.items ≡ self.kept }
    {
        let LinePart { counted, kept } = self;
        (counted, kept)
    }

    // Returns the number of bytes, if `more` follow.
    fn length_with(&self, more: usize) -> Option<usize>
        ensures { IfSome result (λ len. len ≡ length (bytes_of self.now) + more) }
    {
        self.counted.checked_add(self.kept.len())?.checked_add(more)
    }

    /// Reads the part as a whole line. `message` gets the message that it encodes. It fails if an allocation fails.
    pub fn read(&self, message: &mut Vec<u8>) -> Result<Next, AllocError>
        ensures { IfOk result (λ next. IsEntry (line_entry (bytes_of self.now)) next message.new.items) }
    {
        if self.counted == 0 {
            return read_line(self.kept.as_slice(), message);
        }
        let Some(len) = self.length_with(0) else {
            return Err(AllocError);
        };
        if len % 2 == 0 && are_digits(self.kept.as_slice()) {
            let why = InputFault::TooLong { len: len / 2 };
            return Ok(Next::Fault { why });
        }
        Ok(Next::Fault {
            why: InputFault::NotHex,
        })
    }
}

impl Part for LinePart {
    ghost Meaning = { Entry };

    ghost meaning = { line_entry };

    ghost bytes = { bytes_of };

    fn clear(&mut self) {
        LinePart::clear(self);
    }

    fn is_empty(&self) -> bool {
        LinePart::is_empty(self)
    }

    fn add(&mut self, more: &[u8]) -> Result<(), AllocError> {
        LinePart::add(self, more)
    }
}

/// Reads a whole line. `message` gets the message that it encodes. It fails if an allocation fails.
pub(crate) fn read_line(line: &[u8], message: &mut Vec<u8>) -> Result<Next, AllocError>
    ensures { IfOk result (λ next. IsEntry (line_entry line.now) next message.new.items) }
{
    let why = if !decode(line, message)? {
        InputFault::NotHex
    } else if line.len() > MAX_LINE {
        InputFault::TooLong { len: message.len() }
    } else {
        return Ok(Next::Message);
    };
    Ok(Next::Fault { why })
}
