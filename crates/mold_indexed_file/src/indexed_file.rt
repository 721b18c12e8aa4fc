//! The journal in a file, of which only the index is in memory.

ghost use Rattle.std.specs.Prelude.{◌≡◌, ◌⊎◌, ◌-◌, ◌+◌, ◌<◌, ◌≤◌, [], ℕ, List, length, IfOk, IfErr, OnOk, OnErr, IsOk};
ghost use Rattle.std.specs.Prelude.{None, Ok, false, unwrap_or};
ghost use Rattle.mold_wire.specs.declared.limits.TheConstants.{MAX_LIMIT};
ghost use Rattle.mold_session.specs.Journal.{IsJournal, JournalState, appended};
ghost use Rattle.mold_session.specs.Loading.{CountsLoad};
ghost use Rattle.mold_session.specs.Serving.{HasBegunNext, HasPackedNext, MayPack};
ghost use Rattle.mold_session.specs.declared.error.FileError.{FileError};
ghost use Rattle.mold_durable.specs.GrowingFile.{Passes};
ghost use Rattle.mold_index.specs.Adding.{needs_entry, push_refusal};
ghost use Rattle.mold_index.specs.Index.{HasNumber, IsIndex, fresh_index};
ghost use Rattle.mold_index.specs.Layouts.{layout_of};
ghost use Rattle.mold_index.specs.declared.error.IndexError.{IndexError};
ghost use Rattle.mold_indexed_file.specs.Packed.{HasPackedPiece, IsPackError, missing};
ghost use Rattle.mold_indexed_file.specs.Buffer.{most_bytes};
ghost use Rattle.mold_indexed_file.specs.Growing.{WasRead};
ghost use Rattle.mold_indexed_file.specs.Read.{HasReadFor};
ghost use Rattle.mold_indexed_file.specs.Shown.{IndexedState, IsInFile, Shows};

use crate::packing::{missing, pack_piece};
use crate::piece_buffer::PieceBuffer;
use mold_durable::GrowingFile;
use mold_index::{Index, IndexError, Layout, STRIDE_BYTES};
use mold_session::{FileError, FileHead, FileVersion, Plan, ServedJournal};
use mold_wire::laws::{front_law, packet_length_law};
use mold_wire::{MAX_LIMIT, Packer, Session};
use std::alloc::{AllocError, Global};
use std::marker::Model;

// Returns the number of bytes that the messages of a datagram, and the first message that no longer fits, have at most.
pub(crate) fn most_bytes(version: FileVersion, limit: usize, max_message: u16) -> u64
    requires { limit ≤ MAX_LIMIT }
    ensures { result ≡ most_bytes version limit max_message }
{
    let messages = match version {
        FileVersion::One | FileVersion::Two { .. } => limit as u64,
        FileVersion::Three => 2 * limit as u64,
    };
    messages + u64::from(max_message)
}

/// The journal in a file, of which only the index is in memory. The messages are read from the file when they are sent.
/// The file has version 1, 2 or 3, and may grow.
///
/// Besides the entries of the index, it holds a buffer of at most 229,317 bytes.
#[derive(Drop)]
pub struct IndexedFile<F> {
    pub(crate) file: F,
    session: Session,
    version: FileVersion,
    max_message: u16,
    index: Index,
    buffer: PieceBuffer,
}

impl<F> Model for IndexedFile<F> {
    ghost use Rattle.mold_indexed_file.specs.Shown.{IndexedState, IsIndexed};

    ghost Value = { IndexedState F };

    ghost view = { λ f. record {
      file = f.file;
      session = f.session;
      version = f.version;
      max_message = f.max_message;
      index = f.index;
      buffer = f.buffer;
    } };

    ghost invariant = { λ f. IsIndexed f.session f.version f.max_message f.index.layout f.buffer.size };
}

impl<F: GrowingFile + Drop> IndexedFile<F> {
    /// Makes an indexed file of a file with this head. It has no message yet. `max_message` is the largest length of a
    /// message, in bytes. This allocates the buffer. It reads nothing.
    pub fn new(
        alloc: Global,
        file: F,
        head: FileHead,
        max_message: u16,
    ) -> Result<IndexedFile<F>, AllocError>
        ensures shown { IfOk result (λ indexed. (journal : JournalState) → journal.session ≡ head.session →
            journal.max_message ≡ max_message → journal.messages ≡ [] →
            IsInFile F.history F.moment file head.version journal → Shows F.history F.moment indexed journal) }
        ensures fresh { IfOk result (λ indexed. indexed ≡ record {
          file = file;
          session = head.session;
          version = head.version;
          max_message = max_message;
          index = fresh_index (layout_of head.version);
          buffer = indexed.buffer;
        }) }
    {
        let index = Index::new(alloc, Layout::of(head.version));
        IndexedFile::with_index(alloc, file, head, max_message, index)
    }

    // Makes an indexed file of a file with this head and this index. This allocates the buffer. It reads nothing.
    pub(crate) fn with_index(
        alloc: Global,
        file: F,
        head: FileHead,
        max_message: u16,
        index: Index,
    ) -> Result<IndexedFile<F>, AllocError>
        requires { index.layout ≡ layout_of head.version }
        ensures made { IfOk result (λ indexed. indexed ≡ record {
          file = file;
          session = head.session;
          version = head.version;
          max_message = max_message;
          index = index;
          buffer = indexed.buffer;
        }) }
        ensures empty { IfOk result (λ indexed. indexed.buffer.bytes ≡ []) }
    {
        let most = most_bytes(head.version, MAX_LIMIT, max_message);
        let buffer = PieceBuffer::new(alloc, (most + STRIDE_BYTES) as usize)?;
        Ok(IndexedFile {
            file,
            session: head.session,
            version: head.version,
            max_message,
            index,
            buffer,
        })
    }
}

impl<F: GrowingFile> IndexedFile<F> {
    /// Adds the file's next message, which has `len` bytes. It reads nothing. After an error the index is unchanged.
    pub fn push(&mut self, len: u16) -> Result<(), IndexError>
        ensures shown { (journal : JournalState) (message : List ℕ) → Shows F.history F.moment self.old journal →
            length message ≡ len → IsJournal (appended journal message) →
            IsInFile F.history F.moment self.old.file self.old.version (appended journal message) →
            OnOk result (Shows F.history F.moment self.new (appended journal message)) }
        ensures kept { self.new ≡ record self.old { index = self.new.index } }
        ensures ok { OnOk result (push_refusal self.old.index len ≡ None) }
        ensures refused { IfErr result (λ error.
            error ≡ unwrap_or (push_refusal self.old.index len) IndexError.Memory) }
        ensures same { OnErr result (self.new ≡ self.old) }
        ensures succeeds { push_refusal self.old.index len ≡ None → needs_entry self.old.index ≡ false → IsOk result }
        ensures counted { OnOk result (self.new.index.count ≡ self.old.index.count + 1) }
        ensures index { IsIndex self.old.index }
    {
        // `count` ensures that the index is that of some messages.
        let _count = self.index.count();
        self.index.push(len)
    }

    // Reads the piece of the file that has the messages of a plan's next datagram, which has at most `limit` bytes. If
    // the buffer has that piece, nothing is read.
    fn read_next(&mut self, plan: &Plan, limit: usize) -> Result<(), FileError>
        requires some { plan.now.from < plan.now.to }
        requires limit { limit ≤ MAX_LIMIT }
        ensures read { (bytes : ℕ → List ℕ) → F.history self.old.file bytes → OnOk result
            (HasReadFor self.old.index plan.now.from plan.now.to
            (most_bytes self.old.version limit self.old.max_message) bytes (F.moment self.old.file)
            (F.moment self.new.file) self.old.buffer self.new.buffer) }
        ensures shown { (journal : JournalState) → Shows F.history F.moment self.old journal →
            Shows F.history F.moment self.new journal }
        ensures before { OnOk result (self.new.buffer.entry.number ≤ plan.now.from) }
        ensures there { OnOk result (HasNumber self.old.index plan.now.from) }
        ensures refused { IfErr result (λ error. (error ≡ FileError.Read)
            ⊎ ((error ≡ missing self.old.version plan.now.from) × (¬ HasNumber self.old.index plan.now.from))) }
        ensures kept { self.new ≡ record self.old { file = self.new.file; buffer = self.new.buffer } }
        ensures passes { Passes F.history F.moment F.synced self.old.file self.new.file }
        ensures failures { CountsLoad (F.failed self.old.file) (F.failed self.new.file) result }
    {
        let most = most_bytes(self.version, limit, self.max_message);
        let Some(piece) = self.index.piece(plan.from(), plan.to(), most) else {
            return Err(missing(self.version, plan.from()));
        };
        if self.buffer.has(piece) {
            return Ok(());
        }
        match self.buffer.read(&mut self.file, piece) {
            Ok(()) => Ok(()),
            Err(_) => Err(FileError::Read),
        }
    }
}

impl<F: GrowingFile> ServedJournal for IndexedFile<F> {
    ghost shows = { λ f journal. Shows F.history F.moment f journal };

    ghost stays = { λ earlier f. WasRead F.history F.moment F.synced earlier f };

    ghost failed = { λ f. F.failed f.file };

    fn session(&self) -> Session
        ensures { result ≡ self.now.session }
    {
        self.session
    }

    fn max_message(&self) -> u16
        ensures { result ≡ self.now.max_message }
    {
        self.max_message
    }

    fn next(&self) -> u64
        ensures value { result ≡ self.now.index.count + 1 }
        ensures journal { (journal : JournalState) → Shows F.history F.moment self.now journal → IsJournal journal }
    {
        self.index.count() + 1
    }

    /// Packs the next datagram of a plan and returns the number of its messages.
    ///
    /// It reads the file once, at most the bytes that the datagram can need and 32,767 bytes more. A datagram can need
    /// as many bytes as its limit, or twice as many in version 3, and as many as the longest message. The piece that
    /// was read is kept: if the next datagram of the plan begins between the same entries of the index, nothing is
    /// read. Of at most 63 messages before the datagram's, only the lengths are read. For a plan without messages,
    /// nothing is read.
    ///
    /// `Read` is returned if the read fails. If a message that the datagram needs is not whole in the file, `BlockCut`
    /// has its number, or `Damaged` in version 3. The same error has the number of the plan's next message if the index
    /// does not have it, or if it is too long for a datagram. After an error, the contents of the packer are
    /// unspecified.
    fn pack(&mut self, packer: &mut Packer, plan: &Plan) -> Result<u64, FileError>
        ensures packed { IfOk result (λ count. (journal : JournalState) → Shows F.history F.moment self.old journal →
            MayPack journal packer.old.limit plan.now →
            HasPackedNext packer.old packer.new journal plan.now count) }
        ensures begun { IfOk result (HasBegunNext packer.old packer.new plan.now) }
        ensures limit { packer.new.limit ≡ packer.old.limit }
        ensures refused { IfErr result (λ error. (journal : JournalState) → Shows F.history F.moment self.old journal →
            MayPack journal packer.old.limit plan.now → error ≡ FileError.Read) }
        ensures shown { (journal : JournalState) → Shows F.history F.moment self.old journal →
            Shows F.history F.moment self.new journal }
        ensures stays { (earlier : IndexedState F) → WasRead F.history F.moment F.synced earlier self.old →
            WasRead F.history F.moment F.synced earlier self.new }
        ensures failures { CountsLoad (F.failed self.old.file) (F.failed self.new.file) result }

        // What is packed, and which errors are returned, even if the file does not have the journal.
        ensures piece { IfOk result (λ count. plan.now.from < plan.now.to →
            HasPackedPiece self.old.version self.new.buffer plan.now packer.new count) }
        ensures read { (bytes : ℕ → List ℕ) → F.history self.old.file bytes → plan.now.from < plan.now.to →
            OnOk result (HasReadFor self.old.index plan.now.from plan.now.to
            (most_bytes self.old.version packer.old.limit self.old.max_message) bytes (F.moment self.old.file)
            (F.moment self.new.file) self.old.buffer self.new.buffer) }
        ensures lacking { (bytes : ℕ → List ℕ) → F.history self.old.file bytes → IfErr result (λ error.
            (error ≡ FileError.Read) ⊎ ((¬ HasNumber self.old.index plan.now.from)
            ⊎ HasReadFor self.old.index plan.now.from plan.now.to
            (most_bytes self.old.version packer.old.limit self.old.max_message) bytes (F.moment self.old.file)
            (F.moment self.new.file) self.old.buffer self.new.buffer)) }
        ensures error { IfErr result (λ error. IsPackError self.old.version self.old.index self.new.buffer plan.now
            packer.new error) }
        ensures kept { self.new ≡ record self.old { file = self.new.file; buffer = self.new.buffer } }
        ensures spent { plan.now.from ≡ plan.now.to → (result ≡ Ok 0) × (self.new ≡ self.old) }
        ensures passes { Passes F.history F.moment F.synced self.old.file self.new.file }
    {
        front_law();
        packet_length_law();
        // `bytes` ensures that the packer has the limit of a datagram.
        let _ = packer.bytes();
        if plan.from() == plan.to() {
            packer.start(plan.session(), plan.from());
            return Ok(0);
        }
        self.read_next(plan, packer.limit())?;
        let first = self.buffer.entry().number;
        match pack_piece(packer, plan, self.version, first, self.buffer.bytes()) {
            Ok(0) => Err(missing(self.version, plan.from())),
            Ok(count) => Ok(count),
            Err(none) => Err(missing(self.version, first + none.index)),
        }
    }
}
