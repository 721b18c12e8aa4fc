//! Opens the file of a journal: reads it once, and makes its index.

ghost use Rattle.std.specs.Prelude.{◌≡◌, ◌<◌, ◌≤◌, ◌++◌, ◌∷◌, [], ℕ, List, Some, length, IfErr, IfOk, IfSome, OnOk};
ghost use Rattle.std.specs.Io.KnownBytes.{IsAtEnd};
ghost use Rattle.mold_session.specs.Journal.{JournalState};
ghost use Rattle.mold_session.specs.Loading.{CountsLoad, Refuses};
ghost use Rattle.mold_session.specs.declared.error.FileError.{FileError};
ghost use Rattle.mold_index.specs.Index.{Indexes};
ghost use Rattle.mold_index.specs.Layouts.{layout_of};
ghost use Rattle.mold_indexed_file.specs.Opened.{AddFault, IsIndexOf, IsLoaded, IsOpened, OpenFault};
ghost use Rattle.mold_indexed_file.specs.Shown.{IsInFile, Shows};

use crate::indexed_file::IndexedFile;
use mold_devices::{Piece, Source};
use mold_durable::GrowingFile;
use mold_index::{Index, IndexError, Layout};
use mold_session::{FileError, FileHead, JournalReader};
use std::alloc::Global;

// Adds the next message, of `len` bytes, to the index of a file. After an error the index is unchanged.
fn add_message(index: &mut Index, len: u16) -> Result<(), FileError>
    ensures indexes { (lengths : List ℕ) → Indexes index.old lengths →
        OnOk result (Indexes index.new (lengths ++ len ∷ [])) }
    ensures layout { index.new.layout ≡ index.old.layout }
    ensures refused { IfErr result (AddFault index.old len) }
{
    match index.push(len) {
        Ok(()) => Ok(()),
        Err(IndexError::Full) => Err(FileError::Full),
        Err(IndexError::Memory) => Err(FileError::Memory),
    }
}

// Reads on to the end of the source.
fn read_to_end<S: Source>(source: &mut S) -> Result<(), FileError>
    ensures spent { OnOk result (IsAtEnd (S.left source.new)) }
    ensures refused { IfErr result (λ error. error ≡ FileError.Read) }
    ensures failures { CountsLoad (S.failed source.old) (S.failed source.new) result }
{
    let mut piece = Piece::<4096>::new();
    'bytes: loop {
        match piece.refill(source) {
            Ok(0) => return Ok(()),
            Ok(_) => {}
            Err(_) => return Err(FileError::Read),
        }
    }
}

// Reads the file of a journal whose messages have at most `max_message` bytes. Returns its head and its index.
fn read_index<S: Source>(
    alloc: Global,
    max_message: u16,
    source: &mut S,
) -> Result<(FileHead, Index), FileError>
    ensures is { IfOk result (λ read. IfSome (S.left source.old) (λ bytes. IsIndexOf max_message bytes read.0 read.1)) }
    ensures layout { IfOk result (λ read. read.1.layout ≡ layout_of read.0.version) }
    ensures spent { IfOk result (λ _. IsAtEnd (S.left source.new)) }
    ensures refused { IfErr result (λ error. Refuses (OpenFault max_message) (S.left source.old) error) }
    ensures failures { CountsLoad (S.failed source.old) (S.failed source.new) result }
{
    let mut reader = JournalReader::new(alloc, source)?;
    let mut index = Index::new(alloc, Layout::of(reader.head().version));
    'messages: while reader.advance_within(source, max_message)? {
        add_message(&mut index, reader.message().len() as u16)?;
        // The other messages of the same read are passed, and only their lengths are used.
        reader.pass_messages(max_message, &mut index);
    }
    read_to_end(source)?;
    Ok((reader.head(), index))
}

/// Opens the journal in a file of version 1, 2 or 3, whose messages have at most `max_message` bytes. `source` reads
/// the same file from its beginning.
///
/// It reads the source once, to its end, in reads of at most 32,768 bytes, and keeps only the index. While it reads, it
/// holds the bytes of one read, and at most the longest message so far. Besides reading a message's bytes, it takes
/// constant time for each message, except when the memory of the index is doubled. It reads nothing through `file`.
///
/// The errors are those of `Journal::load`. `Full` is also returned for a file that is longer than
/// 9,223,372,036,854,775,807 bytes, and `Memory` if an allocation for the index or for the buffer fails.
pub fn open_indexed<F: GrowingFile + Drop, S: Source>(
    alloc: Global,
    max_message: u16,
    file: F,
    source: &mut S,
) -> Result<IndexedFile<F>, FileError>
    ensures shown { IfOk result (λ indexed. (bytes : List ℕ) (journal : JournalState) →
        S.left source.old ≡ Some bytes → IsLoaded max_message bytes journal → F.history file (λ moment. bytes) →
        Shows F.history F.moment indexed journal) }
    ensures growing { IfOk result (λ indexed. (bytes : List ℕ) (journal : JournalState) →
        S.left source.old ≡ Some bytes → IsLoaded max_message bytes journal →
        IsInFile F.history F.moment file indexed.version journal → Shows F.history F.moment indexed journal) }
    ensures opened { IfOk result (λ indexed. IfSome (S.left source.old) (λ bytes. IsOpened max_message bytes indexed)) }
    ensures kept { IfOk result (λ indexed. (indexed.file ≡ file) × (indexed.max_message ≡ max_message)) }
    ensures spent { IfOk result (λ _. IsAtEnd (S.left source.new)) }
    ensures refused { IfErr result (λ error. Refuses (OpenFault max_message) (S.left source.old) error) }
    ensures failures { CountsLoad (S.failed source.old) (S.failed source.new) result }
{
    let (head, index) = read_index(alloc, max_message, source)?;
    match IndexedFile::with_index(alloc, file, head, max_message, index) {
        Ok(indexed) => Ok(indexed),
        Err(_) => Err(FileError::Memory),
    }
}
