//! The index of a journal in a storage that this process writes.

ghost use Rattle.std.specs.Prelude.{◌≡◌, ◌⊎◌, ◌+◌, ◌<◌, ◌≤◌, ◌++◌, ◌∷◌, [], ℕ, List, length, IfOk, IfErr, OnOk, OnErr};
ghost use Rattle.std.specs.Prelude.{IsOk, Ok, Err, None, false, unwrap_or};
ghost use Rattle.mold_wire.specs.declared.limits.TheConstants.{MAX_LIMIT};
ghost use Rattle.mold_wire.specs.declared.session.Session.{Session};
ghost use Rattle.mold_session.specs.Journal.{IsJournal, JournalState, appended};
ghost use Rattle.mold_session.specs.Loading.{CountsLoad};
ghost use Rattle.mold_session.specs.Serving.{HasBegunNext, HasPackedNext, MayPack};
ghost use Rattle.mold_session.specs.declared.error.FileError.{FileError};
ghost use Rattle.mold_session.specs.declared.file_version.FileVersion.TheVariants.{Three};
ghost use Rattle.mold_durable.specs.Storage.{OnlyReads};
ghost use Rattle.mold_index.specs.Adding.{needs_entry, push_refusal};
ghost use Rattle.mold_index.specs.Index.{HasLast, HasNumber, Indexes, IsIndex, fresh_index};
ghost use Rattle.mold_index.specs.Layouts.{layout_of};
ghost use Rattle.mold_index.specs.declared.error.IndexError.{IndexError};
ghost use Rattle.mold_indexed_file.specs.Buffer.{most_bytes};
ghost use Rattle.mold_indexed_file.specs.Packed.{IsPackError, missing};
ghost use Rattle.mold_indexed_file.specs.Read.{HasReadFor};
ghost use Rattle.mold_indexed_file.specs.Stored.{IsOfJournal, ShowsStored};

use crate::indexed_file::most_bytes;
use crate::packing::{missing, pack_piece};
use crate::piece_buffer::PieceBuffer;
use mold_durable::Storage;
use mold_index::{Index, IndexError, Layout, STRIDE_BYTES};
use mold_session::{FileError, FileVersion, Plan};
use mold_wire::laws::{front_law, packet_length_law};
use mold_wire::{MAX_LIMIT, Packer, Session};
use std::alloc::{AllocError, Global};
use std::marker::Model;

/// The index of a journal in a storage that this process writes. The messages are read from the storage when they are
/// sent. The storage has version 3.
///
/// The storage is passed to each call that reads it, so its owner can write it between two calls. Besides the entries
/// of the index, it holds a buffer of at most 229,317 bytes.
#[derive(Drop)]
pub struct StorageIndex {
    session: Session,
    max_message: u16,
    index: Index,
    buffer: PieceBuffer,
}

impl Model for StorageIndex {
    ghost use Rattle.mold_session.specs.declared.file_version.FileVersion.TheVariants.{Three};
    ghost use Rattle.mold_indexed_file.specs.Shown.{IsIndexed};
    ghost use Rattle.mold_indexed_file.specs.Stored.{StoredState};

    ghost Value = { StoredState };

    ghost view = { λ s. record {
      session = s.session;
      max_message = s.max_message;
      index = s.index;
      buffer = s.buffer;
    } };

    ghost invariant = { λ s. IsIndexed s.session Three s.max_message s.index.layout s.buffer.size };
}

impl StorageIndex {
    /// Makes the index of a journal without messages. `max_message` is the largest length of a message, in bytes. This
    /// allocates the buffer.
    pub fn new(
        alloc: Global,
        session: Session,
        max_message: u16,
    ) -> Result<StorageIndex, AllocError>
        ensures is { IfOk result (λ stored. (journal : JournalState) → journal.session ≡ session →
            journal.max_message ≡ max_message → journal.messages ≡ [] → IsOfJournal stored journal) }
        ensures fresh { IfOk result (λ stored. stored ≡ record {
          session = session;
          max_message = max_message;
          index = fresh_index (layout_of Three);
          buffer = stored.buffer;
        }) }
    {
        let most = most_bytes(FileVersion::Three, MAX_LIMIT, max_message);
        let buffer = PieceBuffer::new(alloc, (most + STRIDE_BYTES) as usize)?;
        Ok(StorageIndex {
            session,
            max_message,
            index: Index::new(alloc, Layout::of(FileVersion::Three)),
            buffer,
        })
    }

    /// Returns the session that the messages belong to.
    pub fn session(&self) -> Session
        ensures { result ≡ self.now.session }
    {
        self.session
    }

    /// Returns the largest length of a message, in bytes.
    pub fn max_message(&self) -> u16
        ensures { result ≡ self.now.max_message }
    {
        self.max_message
    }

    /// Returns the sequence number of the next message: one more than the number of messages.
    pub fn next(&self) -> u64
        ensures { result ≡ self.now.index.count + 1 }
    {
        self.index.count() + 1
    }

    /// Adds the journal's next message, which has `len` bytes. It reads nothing. After an error the index is unchanged.
    pub fn push(&mut self, len: u16) -> Result<(), IndexError>
        ensures is { (journal : JournalState) (message : List ℕ) → IsOfJournal self.old journal →
            length message ≡ len → IsJournal (appended journal message) →
            OnOk result (IsOfJournal self.new (appended journal message)) }
        ensures indexes { (lengths : List ℕ) → Indexes self.old.index lengths →
            OnOk result (Indexes self.new.index (lengths ++ len ∷ [])) }
        ensures kept { self.new ≡ record self.old { index = self.new.index } }
        ensures layout { self.old.index.layout ≡ layout_of Three }
        ensures ok { OnOk result (push_refusal self.old.index len ≡ None) }
        ensures refused { IfErr result (λ error.
            error ≡ unwrap_or (push_refusal self.old.index len) IndexError.Memory) }
        ensures same { OnErr result (self.new ≡ self.old) }
        ensures succeeds { push_refusal self.old.index len ≡ None → needs_entry self.old.index ≡ false → IsOk result }
        ensures index { IsIndex self.old.index }
    {
        // `count` ensures that the index is that of some messages.
        let _count = self.index.count();
        self.index.push(len)
    }

    /// Removes the journal's last message, which has `len` bytes. So a caller that also keeps the message elsewhere can
    /// undo `push` if that fails. It takes constant time and keeps the memory.
    pub fn retract(&mut self, len: u16)
        requires last { HasLast self.old.index len }
        ensures is { (journal : JournalState) (message : List ℕ) → IsOfJournal self.old (appended journal message) →
            length message ≡ len → IsOfJournal self.new journal }
        ensures indexes { (lengths : List ℕ) → Indexes self.old.index (lengths ++ len ∷ []) →
            Indexes self.new.index lengths }
        ensures session { self.new.session ≡ self.old.session }
        ensures longest { self.new.max_message ≡ self.old.max_message }
    {
        self.index.retract(len);
        // The piece may have bytes of the removed message.
        self.buffer.clear();
    }

    // Reads the piece of the storage that has the messages of a plan's next datagram, which has at most `limit` bytes.
    // If the buffer has that piece, nothing is read.
    fn read_next<S: Storage>(
        &mut self,
        storage: &mut S,
        plan: &Plan,
        limit: usize,
    ) -> Result<(), FileError>
        requires some { plan.now.from < plan.now.to }
        requires limit { limit ≤ MAX_LIMIT }
        ensures read { (bytes : List ℕ) → S.shows storage.old bytes → OnOk result
            (HasReadFor self.old.index plan.now.from plan.now.to
            (most_bytes Three limit self.old.max_message) (λ moment. bytes) 0 0 self.old.buffer self.new.buffer) }
        ensures shown { (journal : JournalState) → ShowsStored (S.shows storage.old) self.old journal →
            ShowsStored (S.shows storage.new) self.new journal }
        ensures before { OnOk result (self.new.buffer.entry.number ≤ plan.now.from) }
        ensures there { OnOk result (HasNumber self.old.index plan.now.from) }
        ensures refused { IfErr result (λ error. (error ≡ FileError.Read)
            ⊎ ((error ≡ missing Three plan.now.from) × (¬ HasNumber self.old.index plan.now.from))) }
        ensures kept { self.new ≡ record self.old { buffer = self.new.buffer } }
        ensures storage { OnlyReads S.shows S.may_leave S.moment S.left_since storage.old storage.new }
        ensures failures { CountsLoad (S.failed storage.old) (S.failed storage.new) result }
    {
        let most = most_bytes(FileVersion::Three, limit, self.max_message);
        let Some(piece) = self.index.piece(plan.from(), plan.to(), most) else {
            return Err(missing(FileVersion::Three, plan.from()));
        };
        if self.buffer.has(piece) {
            return Ok(());
        }
        match self.buffer.read_stored(storage, piece) {
            Ok(()) => Ok(()),
            Err(_) => Err(FileError::Read),
        }
    }

    /// Packs the next datagram of a plan and returns the number of its messages.
    ///
    /// It reads the storage once, at most twice the limit of a datagram and 32,767 bytes more, and as many bytes as the
    /// longest message has. The piece that was read is kept: if the next datagram of the plan begins between the same
    /// entries of the index, nothing is read. For a plan without messages, nothing is read.
    ///
    /// `Read` is returned if the read fails. If a message that the datagram needs is not whole in the storage,
    /// `Damaged` has its number. `Damaged` has the number of the plan's next message if the index does not have it, or
    /// if it is too long for a datagram. After an error, the contents of the packer are unspecified.
    pub fn pack_from<S: Storage>(
        &mut self,
        storage: &mut S,
        packer: &mut Packer,
        plan: &Plan,
    ) -> Result<u64, FileError>
        ensures packed { IfOk result (λ count. (journal : JournalState) →
            ShowsStored (S.shows storage.old) self.old journal → MayPack journal packer.old.limit plan.now →
            HasPackedNext packer.old packer.new journal plan.now count) }
        ensures begun { IfOk result (HasBegunNext packer.old packer.new plan.now) }
        ensures limit { packer.new.limit ≡ packer.old.limit }
        ensures refused { IfErr result (λ error. (journal : JournalState) →
            ShowsStored (S.shows storage.old) self.old journal → MayPack journal packer.old.limit plan.now →
            error ≡ FileError.Read) }
        ensures error { IfErr result (λ error. IsPackError Three self.old.index self.new.buffer plan.now packer.new
            error) }
        ensures shown { (journal : JournalState) → ShowsStored (S.shows storage.old) self.old journal →
            ShowsStored (S.shows storage.new) self.new journal }
        ensures kept { self.new ≡ record self.old { buffer = self.new.buffer } }
        ensures spent { plan.now.from ≡ plan.now.to →
            (result ≡ Ok 0) × (self.new ≡ self.old) × (storage.new ≡ storage.old) }
        ensures storage { OnlyReads S.shows S.may_leave S.moment S.left_since storage.old storage.new }
        ensures failures { CountsLoad (S.failed storage.old) (S.failed storage.new) result }
    {
        front_law();
        packet_length_law();
        // `bytes` ensures that the packer has the limit of a datagram.
        let _ = packer.bytes();
        if plan.from() == plan.to() {
            packer.start(plan.session(), plan.from());
            return Ok(0);
        }
        self.read_next(storage, plan, packer.limit())?;
        let first = self.buffer.entry().number;
        match pack_piece(packer, plan, FileVersion::Three, first, self.buffer.bytes()) {
            Ok(0) => Err(missing(FileVersion::Three, plan.from())),
            Ok(count) => Ok(count),
            Err(none) => Err(missing(FileVersion::Three, first + none.index)),
        }
    }
}
