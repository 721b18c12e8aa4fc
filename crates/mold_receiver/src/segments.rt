//! The segments of the store: where blocks are appended, and when memory is given back.

ghost use Rattle.std.specs.Prelude.{◌≡◌, ◌+◌, ◌-◌, ◌*◌, ◌<◌, ◌≤◌, ◌^◌, ◌⊎◌, [], length, min, IfNone, IfOk};
ghost use Rattle.std.specs.Prelude.{IfSome, OnErr, OnOk, Some, None, ℕ, take, vec_capacity};
ghost use Rattle.mold_receiver.specs.Batch.{followed_by};
ghost use Rattle.mold_receiver.specs.Places.{end_from, ends_from, messages_from};
ghost use Rattle.slab.specs.Slab.{entries, slab_len, SameValues, Updates};
ghost use Rattle.mold_receiver.specs.Segments.{AreLeft, AreSegments, HasAppended, HasGained, HasLost, IsMemory};
ghost use Rattle.mold_receiver.specs.Segments.{IsMemoryFor, bytes_at, live_at, memory_of, room_at, size_at, used_of};
ghost use Rattle.mold_receiver.specs.declared.place.TheConstants.{NO_START};
ghost use Rattle.mold_receiver.specs.declared.segment.TheConstants.{SEGMENT_BYTES};
ghost use Rattle.mold_receiver.specs.declared.segments.TheConstants.{MAX_SPARE};

use crate::batch::Batch;
use crate::place::{NO_START, Place};
use crate::segment::{SEGMENT_BYTES, Segment, memory};
use slab::Slab;
use std::alloc::{AllocError, Global};
use std::mem;

/// The memory of at most this many segments is kept while no stored message needs it. The roomy segment is one of them,
/// and another is smaller than `SEGMENT_BYTES`.
pub(crate) const MAX_SPARE: usize = 16;

// The table of segments keeps its memory while it is empty, if it has room for at most this many.
const MAX_EMPTY: usize = 256;

/// The segments in use, each with a key. A segment's memory is at most twice as large as its bytes, but one segment may
/// have `SEGMENT_BYTES` bytes: the roomy one, which grew last. A segment is given back when its last stored message is
/// gone: its memory is kept as spare, or freed.
#[derive(Drop)]
pub(crate) struct Segments {
    table: Slab<Segment>,
    // The key of the roomy segment.
    roomy: Option<u32>,
    // Memory of segments that were given back, each of `SEGMENT_BYTES` bytes.
    spare: Vec<Vec<u8>>,
    // The smaller memory that was given back last.
    small: Vec<u8>,
    // The bytes in use of all segments.
    used: usize,
}

impl Segments {
    /// Returns no segments, and room to keep spare ones.
    pub(crate) fn new(alloc: Global) -> Result<Segments, AllocError>
        ensures whole { IfOk result (λ segments. AreSegments segments) }
        ensures empty { IfOk result (λ segments. (key : ℕ) → live_at segments key ≡ 0) }
        ensures none { IfOk result (λ segments. (key : ℕ) → bytes_at segments key ≡ []) }
    {
        Ok(Segments {
            table: Slab::new(alloc),
            roomy: None,
            spare: Vec::with_capacity(alloc, MAX_SPARE)?,
            small: Vec::new(alloc),
            used: 0,
        })
    }

    /// Returns the number of segments, together with the spare ones.
    pub(crate) fn count(&self) -> usize
        requires { AreSegments self.now }
        ensures { result ≤ slab_len self.now.table + MAX_SPARE }
    {
        self.table
            .len()
            .saturating_add(self.spare.len() + usize::from(!self.small.is_empty()))
    }

    /// Returns the memory of all segments in bytes, together with the spare memory.
    pub(crate) fn memory(&self) -> usize
        requires { AreSegments self.now }
        ensures { result ≡ min (length self.now.spare.items * SEGMENT_BYTES + vec_capacity self.now.small
            + memory_of (entries self.now.table)) (2 ^ 64 - 1) }
    {
        let mut memory = self.spare.len() * SEGMENT_BYTES + self.small.capacity();
        for (_, segment) in self.table.iter() {
            memory = memory.saturating_add(segment.bytes.capacity());
        }
        memory
    }

    /// Returns the number of bytes in use of all segments.
    pub(crate) fn used(&self) -> usize
        requires { AreSegments self.now }
        ensures { result ≡ used_of self.now.table.slots }
    {
        self.used
    }

    /// Returns the bytes in use of a segment.
    pub(crate) fn bytes(&self, key: u32) -> &[u8]
        requires { AreSegments self.now }
        ensures { result.now ≡ bytes_at self.now key }
    {
        match self.table.get(key as usize) {
            Some(segment) => segment.filled(),
            None => &[],
        }
    }

    /// Returns the number of stored messages of a segment, and its bytes in use.
    pub(crate) fn stored(&self, key: u32) -> (u32, &[u8])
        requires { AreSegments self.now }
        ensures count { result.0 ≡ live_at self.now key }
        ensures bytes { result.1.now ≡ bytes_at self.now key }
    {
        match self.table.get(key as usize) {
            Some(segment) => (segment.live, segment.filled()),
            None => (0, &[]),
        }
    }

    /// Returns the size of a segment's memory, in bytes.
    pub(crate) fn size(&self, key: u32) -> usize
        ensures { result ≡ size_at self.now key }
    {
        match self.table.get(key as usize) {
            Some(segment) => segment.bytes.len(),
            None => 0,
        }
    }

    // Appends bytes to a segment, if its memory has room for them. Returns where they begin.
    fn fill(&mut self, key: u32, bytes: &[u8]) -> Option<Place>
        requires { AreSegments self.old }
        ensures whole { AreSegments self.new }
        ensures appended { IfSome result (λ place. HasAppended self.old self.new place bytes.now) }
        ensures there { IfSome result (λ place. place.segment ≡ key) }
        ensures same { IfNone result (AreLeft self.old self.new) }
    {
        let segment = self.table.get_mut(key as usize)?;
        if bytes.len() > segment.bytes.len() - segment.used {
            return None;
        }
        let start = segment.used;
        segment.fill(bytes);
        self.used = self.used.saturating_add(bytes.len());
        Some(Place {
            segment: key,
            start: start as u32,
        })
    }

    // Returns memory of `SEGMENT_BYTES` bytes: spare memory if there is some, or else new memory.
    fn large_memory(&mut self, alloc: Global) -> Result<Vec<u8>, AllocError>
        requires whole { AreSegments self.old }
        ensures whole { AreSegments self.new }
        ensures table { self.new.table ≡ self.old.table }
        ensures roomy { self.new.roomy ≡ self.old.roomy }
        ensures large { IfOk result (λ bytes. IsMemory bytes SEGMENT_BYTES) }
    {
        match self.spare.pop() {
            Some(bytes) => Ok(bytes),
            None => memory(alloc, SEGMENT_BYTES),
        }
    }

    // Returns memory for `used` bytes, which is at most twice as large: the small memory if it fits.
    fn memory_for(&mut self, alloc: Global, used: usize) -> Result<Vec<u8>, AllocError>
        requires whole { AreSegments self.old }
        requires few { used < NO_START }
        ensures whole { AreSegments self.new }
        ensures table { self.new.table ≡ self.old.table }
        ensures roomy { self.new.roomy ≡ self.old.roomy }
        ensures fits { IfOk result (λ bytes. IsMemoryFor bytes used 0) }
    {
        if used <= self.small.len() && self.small.len() <= 2 * used {
            return Ok(mem::replace(&mut self.small, Vec::new(alloc)));
        }
        if used <= SEGMENT_BYTES && SEGMENT_BYTES <= 2 * used {
            return self.large_memory(alloc);
        }
        memory(alloc, used)
    }

    // Keeps memory of `SEGMENT_BYTES` bytes for later use, if there is not enough yet. Of smaller memory it keeps only
    // the last. Other memory is freed, as is memory whose capacity is not its length.
    fn save(&mut self, bytes: Vec<u8>)
        requires whole { AreSegments self.old }
        ensures whole { AreSegments self.new }
        ensures table { self.new.table ≡ self.old.table }
        ensures roomy { self.new.roomy ≡ self.old.roomy }
    {
        if bytes.is_empty() || bytes.capacity() > bytes.len() {
            return;
        }
        if bytes.len() < SEGMENT_BYTES {
            self.small = bytes;
        } else if bytes.len() == SEGMENT_BYTES && self.spare.len() + 2 < MAX_SPARE {
            self.spare.push_reserved(bytes);
        }
    }

    // Moves a segment's bytes to other memory and appends these bytes. Returns where they begin. The memory that the
    // segment had is saved.
    fn move_to(&mut self, key: u32, memory: Vec<u8>, bytes: &[u8]) -> Place
        requires whole { AreSegments self.old }
        requires there { 0 < length (bytes_at self.old key) }
        requires fits { IsMemoryFor memory (length (bytes_at self.old key) + length bytes.now)
            (room_at self.old.roomy key) }
        ensures whole { AreSegments self.new }
        ensures appended { HasAppended self.old self.new result bytes.now }
        ensures there { result.segment ≡ key }
        ensures roomy { self.new.roomy ≡ self.old.roomy }
        ensures size { size_at self.new key ≡ length memory.items }
    {
        let start = self.bytes(key).len();
        if let Some(segment) = self.table.get_mut(key as usize) {
            let old = segment.move_to(memory, bytes);
            self.used = self.used.saturating_add(bytes.len());
            self.save(old);
        }
        Place {
            segment: key,
            start: start as u32,
        }
    }

    // Moves the bytes of the roomy segment to memory that is twice as large as they are, if it has more. Then there is
    // no roomy segment.
    fn tighten(&mut self, alloc: Global) -> Result<(), AllocError>
        requires whole { AreSegments self.old }
        ensures whole { AreSegments self.new }
        ensures none { OnOk result (self.new.roomy ≡ None) }
        ensures same { AreLeft self.old self.new }
    {
        if let Some(key) = self.roomy {
            let used = self.bytes(key).len();
            if self.size(key) > 2 * used {
                let memory = memory(alloc, 2 * used)?;
                self.move_to(key, memory, &[]);
            }
            self.roomy = None;
        }
        Ok(())
    }

    // Moves a segment's bytes to memory of `SEGMENT_BYTES` bytes and appends these bytes. Returns where they begin.
    fn grow(&mut self, alloc: Global, key: u32, bytes: &[u8]) -> Result<Place, AllocError>
        requires whole { AreSegments self.old }
        requires there { 0 < length (bytes_at self.old key) }
        requires small { length (bytes_at self.old key) + length bytes.now ≤ SEGMENT_BYTES }
        ensures whole { AreSegments self.new }
        ensures appended { IfOk result (λ place. HasAppended self.old self.new place bytes.now) }
        ensures there { IfOk result (λ place. place.segment ≡ key) }
        ensures same { OnErr result (AreLeft self.old self.new) }
    {
        self.tighten(alloc)?;
        let memory = self.large_memory(alloc)?;
        self.roomy = Some(key);
        Ok(self.move_to(key, memory, bytes))
    }

    // Makes a segment of these bytes. Returns where they begin.
    fn open(&mut self, alloc: Global, bytes: &[u8]) -> Result<Place, AllocError>
        requires whole { AreSegments self.old }
        requires some { 0 < length bytes.now }
        ensures whole { AreSegments self.new }
        ensures appended { IfOk result (λ place. HasAppended self.old self.new place bytes.now) }
        ensures new { IfOk result (λ place. bytes_at self.old place.segment ≡ []) }
        ensures same { OnErr result (AreLeft self.old self.new) }
    {
        if bytes.len() >= NO_START as usize {
            return Err(AllocError);
        }
        let memory = self.memory_for(alloc, bytes.len())?;
        self.table.reserve(1)?;
        let key = self.table.vacant_key();
        if key > u32::MAX as usize {
            return Err(AllocError);
        }
        let segment = self.table.insert_reserved(Segment::new(memory, bytes));
        self.used = self.used.saturating_add(bytes.len());
        Ok(Place {
            segment: segment as u32,
            start: 0,
        })
    }

    /// Appends bytes to the segment `beside`, if there is one and it stays small. Otherwise it makes a segment of them.
    /// Returns where they begin. If an allocation fails, the segments are unchanged.
    pub(crate) fn append(
        &mut self,
        alloc: Global,
        beside: Option<u32>,
        bytes: &[u8],
    ) -> Result<Place, AllocError>
        requires whole { AreSegments self.old }
        requires there { IfSome beside (λ key. 0 < length (bytes_at self.old key)) }
        requires some { 0 < length bytes.now }
        ensures whole { AreSegments self.new }
        ensures appended { IfOk result (λ place. HasAppended self.old self.new place bytes.now) }
        ensures beside { IfOk result
            (λ place. (beside ≡ Some place.segment) ⊎ (bytes_at self.old place.segment ≡ [])) }
        ensures same { OnErr result (AreLeft self.old self.new) }
    {
        let Some(key) = beside else {
            return self.open(alloc, bytes);
        };
        if let Some(place) = self.fill(key, bytes) {
            return Ok(place);
        }
        if self.bytes(key).len() + bytes.len() > SEGMENT_BYTES {
            return self.open(alloc, bytes);
        }
        self.grow(alloc, key, bytes)
    }

    // Gives a segment back. Its memory becomes spare, or is freed.
    fn give_back(&mut self, key: usize)
        requires { AreSegments self.old }
        ensures whole { AreSegments self.new }
        ensures gone { Updates self.old.table self.new.table key None }
    {
        let Some(Segment { bytes, used, .. }) = self.table.try_remove(key) else {
            return;
        };
        self.used = self.used.saturating_sub(used);
        self.save(bytes);
    }

    // Frees the table's memory, if no segment is left and the table is large.
    fn shrink(&mut self)
        requires { AreSegments self.old }
        ensures whole { AreSegments self.new }
        ensures same { SameValues self.old.table self.new.table }
    {
        if self.table.is_empty() && self.table.capacity() > MAX_EMPTY {
            self.table.shrink_to_fit();
        }
    }

    // Removes a segment and returns its memory, which begins with its bytes in use.
    fn take_out(&mut self, key: u32) -> Vec<u8>
        requires whole { AreSegments self.old }
        requires some { 0 < length (bytes_at self.old key) }
        ensures whole { AreSegments self.new }
        ensures gone { Updates self.old.table self.new.table key None }
        ensures bytes { take (length (bytes_at self.old key)) result.items ≡ bytes_at self.old key }
    {
        let Segment { bytes, used, .. } = self.table.remove(key as usize);
        self.used = self.used.saturating_sub(used);
        self.shrink();
        bytes
    }

    /// Gives the memory of a segment to the batch, which is empty and delivers the segment's messages from it. They end
    /// at the offsets `ends`, and the first has the number `next`. The segment is removed. The memory that the batch no
    /// longer needs becomes spare, or is freed.
    pub(crate) fn deliver(&mut self, key: u32, next: u64, ends: Vec<usize>, batch: &mut Batch)
        requires whole { AreSegments self.old }
        requires some { 0 < length (bytes_at self.old key) }
        requires ends { ends.items ≡ ends_from (bytes_at self.old key) 0 (live_at self.old key) }
        requires blocks { end_from (bytes_at self.old key) 0 (live_at self.old key) ≡ length (bytes_at self.old key) }
        requires empty { batch.old ≡ record { first = 0; messages = [] } }
        requires counted { next + live_at self.old key < 2 ^ 64 }
        ensures whole { AreSegments self.new }
        ensures lost { HasLost self.old self.new key (live_at self.old key) }
        ensures added { batch.new ≡
            followed_by batch.old next (messages_from (bytes_at self.old key) 0 (live_at self.old key)) }
    {
        let memory = self.take_out(key);
        let old = batch.take_over(next, memory, ends);
        self.save(old);
    }

    /// Counts `count` more stored messages of a segment.
    pub(crate) fn hold(&mut self, key: u32, count: u32)
        requires whole { AreSegments self.old }
        requires some { 0 < length (bytes_at self.old key) }
        requires few { live_at self.old key + count < 2 ^ 32 }
        ensures whole { AreSegments self.new }
        ensures gained { HasGained self.old self.new key count }
    {
        if let Some(segment) = self.table.get_mut(key as usize) {
            segment.live += count;
        }
    }

    /// Subtracts `count` from a segment's count of stored messages. After its last one, the segment is given back.
    pub(crate) fn let_go(&mut self, key: u32, count: u32)
        requires whole { AreSegments self.old }
        requires some { count ≤ live_at self.old key }
        ensures whole { AreSegments self.new }
        ensures lost { HasLost self.old self.new key count }
    {
        if count == 0 {
            return;
        }
        if let Some(segment) = self.table.get_mut(key as usize) {
            if segment.live > count {
                segment.live -= count;
                return;
            }
        }
        self.give_back(key as usize);
        self.shrink();
    }
}
