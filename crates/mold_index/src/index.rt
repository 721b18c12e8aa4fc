//! The index of a file.

ghost use Rattle.std.specs.Prelude.{◌≡◌, ◌<◌, ◌≤◌, ◌↔◌, ◌∷◌, ◌++◌, [], ℕ, List, None, unwrap_or, IsSome, IfSome};
ghost use Rattle.std.specs.Prelude.{false, IfErr, IsOk, IsTrue, OnErr, OnOk};
ghost use Rattle.mold_session.specs.declared.journal.TheConstants.{MAX_MESSAGES};
ghost use Rattle.mold_index.specs.Adding.{needs_entry, push_refusal};
ghost use Rattle.mold_index.specs.Index.{HasLast, HasNumber, Indexes, IsIndex, LeadsTo, fresh_index};
ghost use Rattle.mold_index.specs.Piece.{IsPiece};
ghost use Rattle.mold_index.specs.declared.error.IndexError.{IndexError};

use crate::entries::{STRIDE_BYTES, add_if_due, count_up_to, offset_or, remove_above};
use crate::entry::Entry;
use crate::error::IndexError;
use crate::layout::Layout;
use crate::piece::Piece;
use crate::room::{Room, room_after};
use mold_session::{LengthTaker, MAX_MESSAGES};
use std::alloc::Global;
use std::marker::Model;

/// The largest offset in a file.
pub const MAX_END: u64 = 9_223_372_036_854_775_807;

/// The index of a file: where each message begins. It takes memory only for its entries, 16 bytes for each, and at most
/// twice that, since the memory is doubled when it is full. There is an entry for the first message, and for each
/// message that is 64 messages or more, or 32,768 bytes or more, after the entry before it.
#[derive(Drop)]
pub struct Index {
    layout: Layout,
    // The number of messages.
    count: u64,
    // The offset at which the last message ends.
    end: u64,
    entries: Vec<Entry>,
    // Which messages `push` takes without a check.
    room: Room,
}

impl Model for Index {
    ghost use Rattle.mold_index.specs.Adding.{IsRoom};
    ghost use Rattle.mold_index.specs.Index.{IndexState, IsIndex};

    ghost Value = { IndexState };

    ghost view = { λ i. record { layout = i.layout; count = i.count; end = i.end; entries = i.entries.items } };

    ghost invariant = { λ i.
        IsIndex (record { layout = i.layout; count = i.count; end = i.end; entries = i.entries.items })
        × IsRoom i.entries.items i.room };
}

impl Index {
    /// Makes the index of a file that has no messages yet. It does not allocate.
    pub fn new(alloc: Global, layout: Layout) -> Index
        ensures { result ≡ fresh_index layout }
    {
        Index {
            layout,
            count: 0,
            end: u64::from(layout.start),
            entries: Vec::new(alloc),
            room: Room::none(),
        }
    }

    /// Returns how the file is laid out.
    pub fn layout(&self) -> Layout
        ensures { result ≡ self.now.layout }
    {
        self.layout
    }

    /// Returns the number of messages, which is also the number of the last one.
    pub fn count(&self) -> u64
        ensures value { result ≡ self.now.count }
        ensures index { IsIndex self.now }
    {
        self.count
    }

    /// Returns the offset at which the last message ends. If there is no message, it is the offset at which the first
    /// one will begin.
    pub fn end(&self) -> u64
        ensures value { result ≡ self.now.end }
        ensures index { IsIndex self.now }
    {
        self.end
    }

    // Appends a message, which may need an entry.
    // For the optimizer: `push` without this code is inlined.
    #[inline(never)]
    fn push_checked(&mut self, len: u16) -> Result<(), IndexError>
        ensures indexes { (lengths : List ℕ) → Indexes self.old lengths →
            OnOk result (Indexes self.new (lengths ++ len ∷ [])) }
        ensures layout { self.new.layout ≡ self.old.layout }
        ensures ok { OnOk result (push_refusal self.old len ≡ None) }
        ensures refused { IfErr result (λ error.
            error ≡ unwrap_or (push_refusal self.old len) IndexError.Memory) }
        ensures same { OnErr result (self.new ≡ self.old) }
        ensures succeeds { push_refusal self.old len ≡ None → needs_entry self.old ≡ false → IsOk result }
    {
        let size = u64::from(self.layout.overhead) + u64::from(len);
        if self.count == MAX_MESSAGES || MAX_END < self.end + size {
            return Err(IndexError::Full);
        }
        let next = Entry {
            number: self.count + 1,
            offset: self.end,
        };
        if let Err(_) = add_if_due(&mut self.entries, next) {
            return Err(IndexError::Memory);
        }
        self.room = room_after(&self.entries);
        self.count = next.number;
        self.end += size;
        Ok(())
    }

    /// Appends a message of `len` bytes: the next one of the file. After an error the index is unchanged.
    ///
    /// It allocates only if the message needs an entry and the memory of the entries is full. Otherwise it takes
    /// constant time.
    // For the optimizer: most messages need no entry, and then two comparisons replace all checks.
    #[inline(always)]
    pub fn push(&mut self, len: u16) -> Result<(), IndexError>
        ensures indexes { (lengths : List ℕ) → Indexes self.old lengths →
            OnOk result (Indexes self.new (lengths ++ len ∷ [])) }
        ensures layout { self.new.layout ≡ self.old.layout }
        ensures ok { OnOk result (push_refusal self.old len ≡ None) }
        ensures refused { IfErr result (λ error.
            error ≡ unwrap_or (push_refusal self.old len) IndexError.Memory) }
        ensures same { OnErr result (self.new ≡ self.old) }
        ensures succeeds { push_refusal self.old len ≡ None → needs_entry self.old ≡ false → IsOk result }
    {
        if !self.room.has(self.count, self.end) {
            return self.push_checked(len);
        }
        self.count += 1;
        self.end += u64::from(self.layout.overhead) + u64::from(len);
        Ok(())
    }

    /// Removes the last message, which has `len` bytes. So a caller that also keeps the message elsewhere can undo `push`
    /// if that fails. It takes constant time and keeps the memory.
    pub fn retract(&mut self, len: u16)
        requires last { HasLast self.old len }
        ensures indexes { (lengths : List ℕ) → Indexes self.old (lengths ++ len ∷ []) → Indexes self.new lengths }
        ensures layout { self.new.layout ≡ self.old.layout }
    {
        self.count -= 1;
        self.end -= u64::from(self.layout.overhead) + u64::from(len);
        self.room = Room::none();
        remove_above(&mut self.entries, self.count);
    }

    // Returns whether the file has a message with this number.
    fn has(&self, number: u64) -> bool
        ensures value { IsTrue result ↔ HasNumber self.now number }
        ensures index { IsIndex self.now }
    {
        1 <= number && number <= self.count
    }

    /// Returns the last entry at or before message `number`, or `None` if there is no such message. From there, the
    /// message is found by reading the lengths of at most 63 messages. It takes time that is at most logarithmic in the
    /// number of entries.
    pub fn find(&self, number: u64) -> Option<Entry>
        ensures some { IsSome result ↔ HasNumber self.now number }
        ensures found { (lengths : List ℕ) → Indexes self.now lengths →
            IfSome result (LeadsTo self.now.layout lengths number) }
        ensures index { IsIndex self.now }
    {
        if !self.has(number) {
            return None;
        }
        let above = count_up_to(&self.entries, number);
        Some(self.entries[above - 1])
    }

    /// Returns the piece of the file to read for messages from `from` up to, but not including, `to`, of which at most
    /// `most` bytes are needed. It begins with the entry that `find` returns for `from`. It has each of these messages
    /// that ends at most `most` bytes after the offset at which message `from` begins. If there is no message `from`,
    /// or `to` is not above it, `None` is returned.
    ///
    /// So one read gets the messages of a datagram, into a buffer of `most` and 32,767 bytes. The messages of a
    /// datagram take fewer bytes than its limit in a file of blocks, and fewer than twice its limit in a file of
    /// records.
    pub fn piece(&self, from: u64, to: u64, most: u64) -> Option<Piece>
        ensures some { IsSome result ↔ (HasNumber self.now from × (from < to)) }
        ensures found { (lengths : List ℕ) → Indexes self.now lengths →
            IfSome result (IsPiece self.now.layout lengths from to most) }
        ensures index { IsIndex self.now }
    {
        if !self.has(from) {
            return None;
        }
        if to <= from {
            return None;
        }
        let above = count_up_to(&self.entries, from);
        let entry = self.entries[above - 1];
        // Message `from` begins at this offset or before it.
        let latest = offset_or(&self.entries, above, self.end).min(
            entry.offset + (STRIDE_BYTES - 1),
        );
        let stop = offset_or(&self.entries, count_up_to(&self.entries, to - 1), self.end);
        Some(Piece {
            entry,
            len: latest.saturating_add(most).min(stop) - entry.offset,
        })
    }
}

impl LengthTaker for Index {
    ghost use Rattle.mold_index.specs.Index.{Appends};

    ghost takes = { λ earlier index lengths. Appends earlier index lengths };

    /// Appends a message of `len` bytes, as `push` does. Returns false if it is not appended.
    // For the optimizer: a reader calls it for each message of a file.
    #[inline(always)]
    fn take(&mut self, len: u16) -> bool {
        match self.push(len) {
            Ok(()) => true,
            Err(_) => false,
        }
    }
}
