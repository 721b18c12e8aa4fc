//! A buffer for pieces of a file or a storage.

ghost use Rattle.std.specs.Prelude.{◌≡◌, ◌↔◌, ◌≤◌, ℕ, List, [], length, take, OnErr, OnOk, IfOk, IsTrue};
ghost use Rattle.mold_devices.specs.Devices.{Counts};
ghost use Rattle.mold_durable.specs.GrowingFile.{Passes};
ghost use Rattle.mold_durable.specs.Storage.{OnlyReads};
ghost use Rattle.mold_indexed_file.specs.Read.{IsRead};

use mold_devices::DeviceFault;
use mold_durable::{GrowingFile, Storage};
use mold_index::{Entry, Piece};
use std::alloc::{AllocError, Global};
use std::boxed::BoxedSlice;
use std::marker::Model;

// The length of no piece.
const NONE: usize = 0;

/// A buffer of fixed size, and the piece of a file or a storage that was read into it last.
#[derive(Drop)]
pub struct PieceBuffer {
    buffer: BoxedSlice<u8>,
    // Where the piece begins.
    entry: Entry,
    // The length of the piece. It is 0 if the last read failed.
    len: usize,
}

impl Model for PieceBuffer {
    ghost use Rattle.std.specs.Prelude.{◌≤◌, length, take};
    ghost use Rattle.std.specs.Box.{boxed_slice_items};
    ghost use Rattle.mold_indexed_file.specs.Buffer.{BufferState};

    ghost Value = { BufferState };

    ghost view = { λ p. record {
      size = length (boxed_slice_items p.buffer);
      entry = p.entry;
      bytes = take p.len (boxed_slice_items p.buffer);
    } };

    ghost invariant = { λ p. p.len ≤ length (boxed_slice_items p.buffer) };
}

impl PieceBuffer {
    /// Allocates a buffer for pieces of at most `size` bytes.
    pub fn new(alloc: Global, size: usize) -> Result<PieceBuffer, AllocError>
        ensures size { IfOk result (λ buffer. buffer.size ≡ size) }
        ensures empty { IfOk result (λ buffer. buffer.bytes ≡ []) }
    {
        let buffer = vec![in alloc; 0; size]?;
        Ok(PieceBuffer {
            buffer: buffer.into_boxed_slice(),
            entry: Entry {
                number: 0,
                offset: 0,
            },
            len: 0,
        })
    }

    /// Returns where the piece begins.
    pub fn entry(&self) -> Entry
        ensures { result ≡ self.now.entry }
    {
        self.entry
    }

    /// Returns the bytes of the piece.
    pub fn bytes(&self) -> &[u8]
        ensures { result.now ≡ self.now.bytes }
    {
        &self.buffer[..self.len]
    }

    /// Returns whether the buffer has all bytes of this piece.
    pub fn has(&self, piece: Piece) -> bool
        ensures { IsTrue result ↔ ((self.now.entry ≡ piece.entry) × (length self.now.bytes ≡ piece.len)) }
    {
        self.entry.number == piece.entry.number
            && self.entry.offset == piece.entry.offset
            && self.len as u64 == piece.len
    }

    /// Removes the piece.
    pub fn clear(&mut self)
        ensures { self.new ≡ record self.old { bytes = [] } }
    {
        self.len = NONE;
    }

    /// Reads a piece of a file. If the file ends before the piece, the bytes up to there are taken.
    pub fn read<F: GrowingFile>(&mut self, file: &mut F, piece: Piece) -> Result<(), DeviceFault>
        requires { piece.len ≤ self.old.size }
        ensures read { (bytes : ℕ → List ℕ) → F.history file.old bytes → OnOk result
            (IsRead bytes (F.moment file.old) (F.moment file.new) piece self.new.bytes) }
        ensures entry { OnOk result (self.new.entry ≡ piece.entry) }
        ensures none { OnErr result (self.new.bytes ≡ []) }
        ensures size { self.new.size ≡ self.old.size }
        ensures passes { Passes F.history F.moment F.synced file.old file.new }
        ensures failures { Counts (F.failed file.old) (F.failed file.new) result }
    {
        self.len = 0;
        let count = read_piece(file, piece, &mut self.buffer)?;
        self.entry = piece.entry;
        self.len = count;
        Ok(())
    }

    /// Reads a piece of a storage. If the storage ends before the piece, the bytes up to there are taken.
    pub fn read_stored<S: Storage>(
        &mut self,
        storage: &mut S,
        piece: Piece,
    ) -> Result<(), DeviceFault>
        requires { piece.len ≤ self.old.size }
        ensures read { (bytes : List ℕ) → S.shows storage.old bytes → OnOk result
            (IsRead (λ moment. bytes) 0 0 piece self.new.bytes) }
        ensures entry { OnOk result (self.new.entry ≡ piece.entry) }
        ensures none { OnErr result (self.new.bytes ≡ []) }
        ensures size { self.new.size ≡ self.old.size }
        ensures storage { OnlyReads S.shows S.may_leave S.moment S.left_since storage.old storage.new }
        ensures failures { Counts (S.failed storage.old) (S.failed storage.new) result }
    {
        let Piece { entry, len: _ } = piece;
        let (len, done) = match read_stored_piece(storage, piece, &mut self.buffer) {
            Ok(len) => (len, Ok(())),
            Err(fault) => (NONE, Err(fault)),
        };
        self.entry = entry;
        self.len = len;
        done
    }
}

// Reads a piece of a file to the start of the buffer, and returns the number of its bytes.
fn read_piece<F: GrowingFile>(
    file: &mut F,
    piece: Piece,
    buffer: &mut [u8],
) -> Result<usize, DeviceFault>
    requires { piece.len ≤ length buffer.old }
    ensures few { IfOk result (λ count. count ≤ piece.len) }
    ensures read { (bytes : ℕ → List ℕ) → F.history file.old bytes → IfOk result (λ count.
        IsRead bytes (F.moment file.old) (F.moment file.new) piece (take count buffer.new)) }
    ensures same { length buffer.new ≡ length buffer.old }
    ensures passes { Passes F.history F.moment F.synced file.old file.new }
    ensures failures { Counts (F.failed file.old) (F.failed file.new) result }
{
    let count = file.read_at(piece.entry.offset, &mut buffer[..piece.len as usize])?;
    Ok(count)
}

// Reads a piece of a storage to the start of the buffer, and returns the number of its bytes.
fn read_stored_piece<S: Storage>(
    storage: &mut S,
    piece: Piece,
    buffer: &mut [u8],
) -> Result<usize, DeviceFault>
    requires { piece.len ≤ length buffer.old }
    ensures few { IfOk result (λ count. count ≤ piece.len) }
    ensures read { (bytes : List ℕ) → S.shows storage.old bytes → IfOk result (λ count.
        IsRead (λ moment. bytes) 0 0 piece (take count buffer.new)) }
    ensures same { length buffer.new ≡ length buffer.old }
    ensures storage { OnlyReads S.shows S.may_leave S.moment S.left_since storage.old storage.new }
    ensures failures { Counts (S.failed storage.old) (S.failed storage.new) result }
{
    let count = storage.read_at(piece.entry.offset, &mut buffer[..piece.len as usize])?;
    Ok(count)
}
