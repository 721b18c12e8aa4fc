//! An input that comes in pieces.

ghost use Rattle.std.specs.Prelude.{◌≡◌, ◌&&◌, ◌++◌, [], false, true, not, IfOk, OnOk};
ghost use Rattle.mold_feeder.specs.Input.{IsInput, KeepsRest, bytes_come, entries_after, entries_of_rest};
ghost use Rattle.mold_feeder.specs.ToEmpty.{bytes_in, left_at, source_left};
ghost use Rattle.mold_input.specs.Entries.{known_entries};
ghost use Rattle.mold_input.specs.LongLines.{bytes_of};

use crate::arrived::Arrived;
use crate::feed_input::FeedInput;
use crate::piece_reader::PieceReader;
use crate::piece_source::PieceSource;
use mold_devices::{ReadFault, Source};
use mold_input::LinePart;
use std::alloc::{AllocError, Global};
use std::mem;

/// An input that comes in pieces: what has come of it, and the source of the next piece.
#[derive(Drop)]
pub struct PieceInput<M, K> {
    alloc: Global,
    /// The whole entries that have come.
    pub come: FeedInput<M, Arrived>,
    // The part of the next entry that has come.
    part: LinePart,
    // What the pieces are read from.
    source: PieceSource<K>,
    // Whether an entry that has come may remain, or the input has ended.
    ready: bool,
    // Whether the source has ended.
    ended: bool,
}

impl<M: PieceReader, K: Source + Drop> PieceInput<M, K> {
    /// Returns the input that this source gives. If `to_empty` is true, it is blocks, and ends before the first empty
    /// block. `laws::marked_law` states which entries it then has. It fails if the allocation of its buffers fails.
    pub fn new(alloc: Global, source: K, to_empty: bool) -> Result<PieceInput<M, K>, AllocError>
        ensures input { IfOk result (IsInput M.is_part M.unread K.left) }
        ensures rest { IfOk result (λ input. entries_of_rest M.unread K.left M.entries input
            ≡ known_entries M.entries (left_at to_empty false [] (K.left source))) }
    {
        M::empty_law();
        let come = FeedInput {
            messages: M::new(alloc)?,
            source: Arrived::new(alloc),
            ready: false,
        };
        Ok(PieceInput {
            alloc,
            come,
            part: LinePart::new(alloc),
            source: PieceSource::new(alloc, source, to_empty)?,
            ready: false,
            ended: false,
        })
    }

    /// Returns whether an entry that has come may remain, or the input has ended.
    pub(crate) fn is_ready(&self) -> bool
        ensures { result ≡ self.now.ready }
    {
        self.ready
    }

    /// Returns whether all entries that have come were taken, and the input has not ended.
    pub(crate) fn lacks(&self) -> bool
        ensures { result ≡ (not self.now.ready && not self.now.ended) }
    {
        !self.ready && !self.ended
    }

    /// Returns whether all entries that have come were taken, and the input has ended.
    pub(crate) fn is_over(&self) -> bool
        ensures { result ≡ (not self.now.ready && self.now.ended) }
    {
        !self.ready && self.ended
    }

    // Adds what the piece has to what has come.
    fn add_piece(&mut self) -> Result<(), AllocError>
        requires none { self.old.come.source ≡ [] }
        requires part { M.is_part self.old.part }
        ensures part { OnOk result (M.is_part self.new.part) }
        ensures split { OnOk result (
            entries_after M.entries (M.entries self.new.come.source) (bytes_of self.new.part)
            (source_left K.left self.new.source)
            ≡ entries_after M.entries [] (bytes_of self.old.part ++ bytes_in self.old.source)
            (source_left K.left self.old.source)) }
        ensures rest { self.new ≡ record self.old { come = self.new.come; part = self.new.part } }
        ensures messages { self.new.come.messages ≡ self.old.come.messages }
    {
        let whole = M::add(&mut self.part, self.source.bytes(), self.alloc)?;
        self.come.source = Arrived::of(whole);
        Ok(())
    }

    /// Reads the next piece: at most 65,536 bytes, as many as the source gives. At the end of the input, the part of an
    /// entry that has come is the last entry. An empty block ends the input at once.
    pub(crate) fn pull(&mut self) -> Result<(), ReadFault>
        requires input { IsInput M.is_part M.unread K.left self.old }
        requires lacks { (not self.old.ready && not self.old.ended) ≡ true }
        ensures input { OnOk result (IsInput M.is_part M.unread K.left self.new) }
        ensures rest { OnOk result (KeepsRest (entries_of_rest M.unread K.left M.entries self.old)
            (entries_of_rest M.unread K.left M.entries self.new)) }
    {
        M::empty_law();
        let more = self.source.refill()?;
        self.ready = true;
        if !more {
            self.ended = true;
            let last = mem::replace(&mut self.part, LinePart::new(self.alloc));
            self.come.source = Arrived::of(last);
            return Ok(());
        }
        self.add_piece()?;
        self.ended = self.source.is_over() && self.part.is_empty();
        Ok(())
    }

    /// Notes that all entries that have come were taken. It fails if an allocation fails.
    pub(crate) fn note_taken(&mut self) -> Result<(), AllocError>
        ensures taken { OnOk result (bytes_come M.unread self.new ≡ []) }
        ensures ready { OnOk result (self.new.ready ≡ false) }
        ensures same { self.new ≡ record self.old { come = self.new.come; ready = self.new.ready } }
    {
        self.come.messages = M::new(self.alloc)?;
        self.come.source = Arrived::new(self.alloc);
        self.ready = false;
        Ok(())
    }
}
