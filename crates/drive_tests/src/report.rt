//! The lines that several kinds of calls print.

use mold_devices::DeviceFault;
use mold_text::{Word, push_line};
use std::alloc::AllocError;

/// Appends `none`.
pub(crate) fn push_none(out: &mut Vec<u8>) -> Result<(), AllocError> {
    push_line(out, &[Word::Text(b"none")])
}

/// Appends the line for a line of the input that names no call.
pub(crate) fn push_syntax(out: &mut Vec<u8>) -> Result<(), AllocError> {
    push_line(out, &[Word::Text(b"refused"), Word::Text(b"Syntax")])
}

/// Appends `fault`.
pub(crate) fn push_fault(out: &mut Vec<u8>) -> Result<(), AllocError> {
    push_line(out, &[Word::Text(b"fault")])
}

/// Appends `done` or `fault`.
pub(crate) fn push_done(
    out: &mut Vec<u8>,
    outcome: Result<(), DeviceFault>,
) -> Result<(), AllocError> {
    match outcome {
        Ok(()) => push_line(out, &[Word::Text(b"done")]),
        Err(_) => push_fault(out),
    }
}

/// Appends the number with the word before it.
pub(crate) fn push_count(
    out: &mut Vec<u8>,
    name: &'static [u8],
    count: u64,
) -> Result<(), AllocError> {
    push_line(out, &[Word::Text(name), Word::Number(count)])
}

/// Appends the bytes that a call gave with the word before them.
pub(crate) fn push_bytes(
    out: &mut Vec<u8>,
    name: &'static [u8],
    bytes: &[u8],
) -> Result<(), AllocError> {
    push_line(out, &[Word::Text(name), Word::Message(bytes)])
}
