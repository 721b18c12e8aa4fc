//! How far the input is read, as a line on a terminal.

use mold_capture_commands::Watch;
use std::fs;
use std::io::{IsTerminal, Write};
use std::time::Instant;

/// After how many calls of `watch` the clock is read. Reading it takes about as long as reading a frame.
const CALLS: u32 = 64;

/// A line on standard error that states once a second how far the input is read: the bytes, of how many if that is
/// known, and the datagrams. If standard error is not a terminal, nothing is written.
#[derive(Drop)]
pub(crate) struct Progress<'a> {
    rt: &'a HostRuntime,
    // When the line was written last. `None` if no line is to be written.
    last: Option<Instant>,
    // Whether the terminal shows a line.
    shown: bool,
    calls: u32,
    // The bytes of the captures before the current one, and those of the current one.
    earlier: u64,
    current: u64,
    // The bytes of the whole input, if they are known.
    size: Option<u64>,
}

// Returns the bytes of all captures. They are known only if each is a file.
fn size_of(rt: &HostRuntime, captures: &[String]) -> Option<u64> {
    let mut size: u64 = 0;
    for name in captures {
        match fs::metadata(rt, name.as_str()) {
            Ok(found) if found.is_file() => size = size.saturating_add(found.len()),
            _ => return None,
        }
    }
    Some(size)
}

impl<'a> Progress<'a> {
    /// Makes the line of these captures. Nothing is written before a second has passed.
    pub(crate) fn of_captures(rt: &'a HostRuntime, captures: &[String]) -> Progress<'a> {
        Progress::new(rt, size_of(rt, captures))
    }

    /// Makes the line of an input of unknown size.
    pub(crate) fn of_unknown(rt: &'a HostRuntime) -> Progress<'a> {
        Progress::new(rt, None)
    }

    fn new(rt: &'a HostRuntime, size: Option<u64>) -> Progress<'a> {
        let last = if rt.stderr().is_terminal() {
            Instant::now(rt).ok()
        } else {
            None
        };
        Progress {
            rt,
            last,
            shown: false,
            calls: 0,
            earlier: 0,
            current: 0,
            size,
        }
    }

    /// Returns whether a line is ever written.
    pub(crate) fn is_on(&self) -> bool {
        self.last.is_some()
    }

    /// Begins the next capture.
    pub(crate) fn begin(&mut self) {
        self.earlier = self.earlier.saturating_add(self.current);
        self.current = 0;
    }

    /// Removes the line.
    pub(crate) fn end(&mut self) {
        if self.shown {
            let _ = self.rt.stderr().write_all(b"\r\x1b[K");
            self.shown = false;
        }
    }

    // Writes the line, in place of the one before.
    fn write(&mut self, datagrams: u64) {
        let bytes = self.earlier.saturating_add(self.current);
        let alloc = self.rt.alloc();
        let line = match self.size {
            Some(size) => {
                format!(in alloc; "\r{bytes} of {size} bytes, {datagrams} datagrams\x1b[K")
            }
            None => format!(in alloc; "\r{bytes} bytes, {datagrams} datagrams\x1b[K"),
        };
        if let Ok(line) = line {
            let _ = self.rt.stderr().write_all(line.as_bytes());
            self.shown = true;
        }
    }
}

impl Watch for Progress<'_> {
    fn watch(&mut self, bytes: u64, datagrams: u64) {
        self.current = bytes;
        self.calls = self.calls.wrapping_add(1) % CALLS;
        if self.calls != 0 {
            return;
        }
        let Some(last) = self.last else {
            return;
        };
        let Ok(now) = Instant::now(self.rt) else {
            return;
        };
        if now.duration_since(last).as_secs() > 0 {
            self.last = Some(now);
            self.write(datagrams);
        }
    }
}
