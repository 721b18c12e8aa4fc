//! Writes a text whose last line was just appended.

ghost use Rattle.std.specs.Prelude.{◌≡◌, ◌++◌, List, ℕ, length, take, OnErr, OnOk};
ghost use Rattle.mold_check.specs.Report.{Printed};

use mold_devices::{CommandFault, Sink, end_with, send};
use std::alloc::AllocError;

/// Writes the text, and returns this status. If the last line could not be appended, writes the first `len` bytes, which
/// are the text without it.
pub(crate) fn print_pushed<K: Sink>(
    sink: &mut K,
    text: &mut Vec<u8>,
    len: usize,
    pushed: Result<(), AllocError>,
    status: u8,
) -> Result<u8, CommandFault>
    ensures { (before line : List ℕ) → len ≡ length before → OnOk pushed (text.old.items ≡ before ++ line) →
        OnErr pushed (take (length before) text.old.items ≡ before) →
        Printed (K.held sink.old) (K.held sink.new) (K.failed sink.old) (K.failed sink.new) before line status
        text.new.items result }
{
    let Ok(()) = pushed else {
        return Err(end_with(sink, text, len, CommandFault::Memory));
    };
    match send(sink, text) {
        Ok(()) => Ok(status),
        Err(fault) => Err(fault),
    }
}
