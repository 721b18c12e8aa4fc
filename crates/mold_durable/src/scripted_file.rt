//! A file in memory that grows, for tests.

ghost use Rattle.std.specs.Prelude.{◌≡◌, ◌⊎◌, ◌+◌, ◌-◌, ◌<◌, ◌≤◌, min, ℕ, List, length, slice_index};
ghost use Rattle.mold_durable.specs.GrowingFile.{no_later};
ghost use Rattle.mold_durable.specs.ScriptedFile.{IsByteAt, IsScript, contents};

use crate::growing_file::GrowingFile;
use crate::storage_plan::StoragePlan;
use mold_devices::DeviceFault;

/// A file in memory that grows, for tests. It has a snapshot for each moment; after the last moment it does not change.
/// Each read begins at the moment at which the last one ended, and takes one moment: its first `split` bytes are of the
/// later moment, and the others of the earlier one, as far as that had them. A call fails only if `fail_at` selected
/// it.
#[derive(Drop)]
pub struct ScriptedFile {
    snapshots: Vec<Vec<u8>>,
    split: usize,
    moment: u64,
    synced: u64,
    plan: StoragePlan,
}

impl ScriptedFile {
    /// Makes a file with these snapshots, at the moment of the first one.
    pub fn new(snapshots: Vec<Vec<u8>>, split: usize) -> ScriptedFile {
        ScriptedFile {
            snapshots,
            split,
            moment: 0,
            synced: 0,
            plan: StoragePlan::new(),
        }
    }

    /// Makes the `k`-th read or sync from now on fail, counted from 1, and no other call. 0 means that no call fails.
    pub fn fail_at(&mut self, k: u64) {
        self.plan.fails_at = k;
    }
}

impl GrowingFile for ScriptedFile {
    ghost history = { λ f. IsScript f.snapshots.items };

    ghost moment = { λ f. f.moment };

    ghost synced = { λ f. min f.synced f.moment };

    ghost failed = { λ f. f.plan.failures };

    ghost synced_now = { λ f. no_later f.synced f.moment };

    fn read_at(&mut self, at: u64, buffer: &mut [u8]) -> Result<usize, DeviceFault> {
        self.plan.begin()?;
        let start = self.moment;
        self.moment = start.saturating_add(1);
        let earlier = contents_at(&self.snapshots, start);
        let later = contents_at(&self.snapshots, self.moment);
        Ok(copy_split(earlier, later, self.split, at, buffer))
    }

    fn sync(&mut self) -> Result<(), DeviceFault> {
        self.plan.begin()?;
        self.synced = self.moment;
        Ok(())
    }

    fn failures(&self) -> u64 {
        self.plan.failures
    }
}

// Returns the contents of the file at a moment.
fn contents_at(snapshots: &[Vec<u8>], moment: u64) -> &[u8]
    ensures { result.now ≡ contents snapshots.now moment }
{
    let last = snapshots.len().saturating_sub(1);
    match snapshots.get(moment.min(last as u64) as usize) {
        Some(snapshot) => snapshot.as_slice(),
        None => &[],
    }
}

// Returns the byte at an offset of `later`, or of `earlier` if `is_earlier` and it has one there.
fn byte_at(earlier: &[u8], later: &[u8], is_earlier: bool, offset: usize) -> u8
    requires { offset < length later.now }
    ensures { IsByteAt earlier.now offset result ⊎ IsByteAt later.now offset result }
{
    if is_earlier && offset < earlier.len() {
        return earlier[offset];
    }
    later[offset]
}

// Copies the bytes of `later` from offset `at` on to the start of the buffer, as many as there are or as fit, and
// returns how many. From index `split` on, the bytes of `earlier` are copied instead, as far as it has them.
fn copy_split(earlier: &[u8], later: &[u8], split: usize, at: u64, buffer: &mut [u8]) -> usize
    ensures fits { result ≤ length buffer.new }
    ensures same { length buffer.new ≡ length buffer.old }
    ensures each { (index : ℕ) → index < result → IsByteAt earlier.now (at + index) (slice_index buffer.new index)
        ⊎ IsByteAt later.now (at + index) (slice_index buffer.new index) }
    ensures all { min (length buffer.new) (length later.now - at) ≤ result }
    ensures inside { 0 < result → at + result ≤ length later.now }
{
    let count = (later.len() as u64)
        .saturating_sub(at)
        .min(buffer.len() as u64) as usize;
    'bytes: for i in 0..count {
        buffer[i] = byte_at(earlier, later, split <= i, at as usize + i);
    }
    count
}
