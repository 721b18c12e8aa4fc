//! The bytes that were read from a source and not passed yet.

ghost use Rattle.std.specs.Prelude.{◌≡◌, ◌+◌, ◌-◌, ◌<◌, ◌≤◌, ℕ, [], drop, take, length, IfOk};
ghost use Rattle.std.specs.Bool.{OnFalse, OnTrue};
ghost use Rattle.std.specs.Io.KnownBytes.{Consumes, IsAtEnd, Keeps, prepend_known};
ghost use Rattle.mold_devices.specs.Devices.{Counts};
ghost use Rattle.mold_devices.specs.Lines.{work_left};
ghost use Rattle.mold_pcap.specs.Windows.{IsShort, Passes, Reads, ReadsAfter};
ghost use Rattle.mold_pcap.specs.declared.limits.TheConstants.{MAX_BLOCK};

use crate::limits::MAX_BLOCK;
use mold_devices::{DeviceFault, Source};
use std::alloc::{AllocError, Global};
use std::marker::Model;

/// The greatest number of bytes that one read takes.
const PIECE: usize = 65_536;

/// The size of the window: room for one read after fewer bytes than the longest part has.
const WINDOW: usize = MAX_BLOCK + PIECE;

/// The bytes that were read from a source and not passed yet. Its memory is allocated once.
#[derive(Drop)]
pub struct Window {
    bytes: Vec<u8>,
    start: usize,
    end: usize,
}

impl Model for Window {
    ghost use Rattle.std.specs.Prelude.{◌≡◌, ◌-◌, ◌≤◌, ℕ, List, take, drop, length};
    ghost use Rattle.mold_pcap.specs.declared.window.TheConstants.{WINDOW};

    ghost Value = { List ℕ };

    ghost view = { λ w. take (w.end - w.start) (drop w.start w.bytes.items) };

    ghost invariant = { λ w. (w.start ≤ w.end) × (w.end ≤ WINDOW) × (length w.bytes.items ≡ WINDOW) };
}

// Moves the bytes from `start` to `end` to the start of the memory.
fn move_down(bytes: &mut [u8], start: usize, end: usize)
    requires order { start ≤ end }
    requires within { end ≤ length bytes.old }
    ensures moved { take (end - start) bytes.new ≡ take (end - start) (drop start bytes.old) }
    ensures len { length bytes.new ≡ length bytes.old }
{
    if start > 0 {
        bytes.copy_within(start..end, 0);
    }
}

// Reads once after the first `end` bytes of the memory. Returns the number of bytes read, which is 0 at the end of the
// source.
fn read_after<S: Source>(bytes: &mut [u8], end: usize, source: &mut S) -> Result<usize, DeviceFault>
    requires { end + PIECE ≤ length bytes.old }
    ensures read { IfOk result (λ count. ReadsAfter end count bytes.old bytes.new
        (S.left source.old) (S.left source.new)) }
    ensures len { length bytes.new ≡ length bytes.old }
    ensures end { IfOk result (λ count. count ≡ 0 → IsAtEnd (S.left source.new)) }
    ensures bound { IfOk result (λ count. 0 < count → S.bound source.new < S.bound source.old) }
    ensures kept { S.bound source.new ≤ S.bound source.old }
    ensures failures { Counts (S.failed source.old) (S.failed source.new) result }
{
    let count = source.read(&mut bytes[end..end + PIECE])?;
    Ok(count)
}

impl Window {
    /// Allocates an empty window.
    pub fn new(alloc: Global) -> Result<Window, AllocError>
        ensures { IfOk result (λ window. window ≡ []) }
    {
        Ok(Window {
            bytes: vec![in alloc; 0; WINDOW]?,
            start: 0,
            end: 0,
        })
    }

    /// Returns the bytes that were not passed.
    #[inline(always)]
    pub fn rest(&self) -> &[u8]
        ensures { result.now ≡ self.now }
    {
        &self.bytes[self.start..self.end]
    }

    /// Passes `n` bytes.
    #[inline(always)]
    pub fn skip(&mut self, n: usize)
        requires { n ≤ length self.old }
        ensures { self.new ≡ drop n self.old }
    {
        self.start += n;
    }

    // Moves the bytes that were not passed to the start of the memory, and reads once after them. Returns the number of
    // bytes read, which is 0 at the end of the source.
    fn read<S: Source>(&mut self, source: &mut S) -> Result<usize, DeviceFault>
        requires { length self.old ≤ MAX_BLOCK }
        ensures read { IfOk result (λ count. Reads count self.old self.new (S.left source.old) (S.left source.new)) }
        ensures end { IfOk result (λ count. count ≡ 0 → IsAtEnd (S.left source.new)) }
        ensures bound { IfOk result (λ count. 0 < count → S.bound source.new < S.bound source.old) }
        ensures kept { S.bound source.new ≤ S.bound source.old }
        ensures failures { Counts (S.failed source.old) (S.failed source.new) result }
    {
        move_down(&mut self.bytes, self.start, self.end);
        self.end -= self.start;
        self.start = 0;
        let count = read_after(&mut self.bytes, self.end, source)?;
        self.end += count;
        Ok(count)
    }

    /// Reads until the window has `need` bytes. Returns false if the source ends first.
    pub fn fill<S: Source>(&mut self, need: usize, source: &mut S) -> Result<bool, DeviceFault>
        requires { need ≤ MAX_BLOCK }
        ensures same { IfOk result (λ _. Keeps
            (prepend_known self.old (S.left source.old)) (prepend_known self.new (S.left source.new))) }
        ensures whole { IfOk result (λ whole. OnTrue whole (need ≤ length self.new)) }
        ensures short { IfOk result (λ whole. OnFalse whole (length self.new < need)) }
        ensures end { IfOk result (λ whole. OnFalse whole (IsAtEnd (S.left source.new))) }
        ensures work { IfOk result (λ _.
            work_left (S.bound source.new) self.new ≤ work_left (S.bound source.old) self.old) }
        ensures less { IfOk result (λ whole. OnTrue whole (length self.old < need →
            work_left (S.bound source.new) self.new < work_left (S.bound source.old) self.old)) }
        ensures failures { Counts (S.failed source.old) (S.failed source.new) result }
    {
        while self.rest().len() < need {
            if self.read(source)? == 0 {
                return Ok(false);
            }
        }
        Ok(true)
    }

    /// Passes `count` bytes, and reads those of them that are not in the window. Returns false if the source ends
    /// first. It never holds more than the window, whatever the count.
    pub fn pass<S: Source>(&mut self, count: usize, source: &mut S) -> Result<bool, DeviceFault>
        ensures passed { IfOk result (λ whole. OnTrue whole (Passes count
            (prepend_known self.old (S.left source.old)) (prepend_known self.new (S.left source.new)))) }
        ensures short { IfOk result (λ whole. OnFalse whole (IsShort count
            (prepend_known self.old (S.left source.old)))) }
        ensures work { IfOk result (λ _.
            work_left (S.bound source.new) self.new ≤ work_left (S.bound source.old) self.old) }
        ensures less { IfOk result (λ whole. OnTrue whole (0 < count →
            work_left (S.bound source.new) self.new < work_left (S.bound source.old) self.old)) }
        ensures failures { Counts (S.failed source.old) (S.failed source.new) result }
    {
        let mut left = count;
        while left > 0 {
            if !self.fill(1, source)? {
                return Ok(false);
            }
            let part = self.rest().len().min(left);
            self.skip(part);
            left -= part;
        }
        Ok(true)
    }
}
