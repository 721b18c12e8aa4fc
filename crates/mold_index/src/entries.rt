//! The entries of an index, in ascending order.

ghost use Rattle.std.specs.Prelude.{◌≡◌, ◌+◌, ◌-◌, ◌<◌, ◌≤◌, false, length, slice_get, IsOk, IsTrue, OnErr, OnOk};
ghost use Rattle.std.specs.List.Sorted.{IsNonDecreasingBy, IsPartitionPoint};
ghost use Rattle.mold_index.specs.Adding.{is_due, offset_or, with_entry, without_above};

use crate::entry::Entry;
use std::alloc::AllocError;

/// The number of messages after which an index has another entry at the latest.
pub const STRIDE_MESSAGES: u64 = 64;

/// The number of bytes after which an index has another entry at the latest: the next message that begins has one.
pub const STRIDE_BYTES: u64 = 32_768;

// Returns whether the next message needs an entry after these.
fn is_due(entries: &[Entry], next: Entry) -> bool
    ensures { result ≡ is_due (slice_get entries.now (length entries.now - 1)) next }
{
    match entries.last() {
        Some(last) => {
            next.number.saturating_sub(last.number) >= STRIDE_MESSAGES
                || next.offset.saturating_sub(last.offset) >= STRIDE_BYTES
        }
        None => true,
    }
}

/// Appends an entry for the next message, if it needs one.
pub(crate) fn add_if_due(entries: &mut Vec<Entry>, next: Entry) -> Result<(), AllocError>
    ensures added { OnOk result (entries.new.items ≡ with_entry entries.old.items next) }
    ensures same { OnErr result (entries.new.items ≡ entries.old.items) }
    ensures succeeds { is_due (slice_get entries.old.items (length entries.old.items - 1)) next ≡ false →
        IsOk result }
{
    if !is_due(entries, next) {
        return Ok(());
    }
    entries.push(next)?;
    Ok(())
}

/// Removes the last entry if it is above message `number`.
pub(crate) fn remove_above(entries: &mut Vec<Entry>, number: u64)
    ensures { entries.new.items ≡ without_above number entries.old.items }
{
    let Some(last) = entries.last() else {
        return;
    };
    if last.number > number {
        entries.truncate(entries.len() - 1);
    }
}

// Returns whether the entry at index `i` is the last one up to message `number`.
fn is_last_up_to(entries: &[Entry], i: usize, number: u64) -> bool
    ensures within { IsTrue result → i < length entries.now }
    ensures split { IsTrue result → IsNonDecreasingBy (λ entry. entry.number) entries.now →
        IsPartitionPoint (λ entry. entry.number ≤ number) (λ entry. number < entry.number) entries.now (i + 1) }
{
    if i >= entries.len() {
        return false;
    }
    if number < entries[i].number {
        return false;
    }
    i + 1 == entries.len() || number < entries[i + 1].number
}

/// Returns the number of entries up to message `number`. It takes constant time if each entry is 64 messages after the
/// one before it, as in a file of short messages, and otherwise time that is logarithmic in the number of entries.
pub(crate) fn count_up_to(entries: &[Entry], number: u64) -> usize
    ensures bound { result ≤ length entries.now }
    ensures split { IsNonDecreasingBy (λ entry. entry.number) entries.now →
        IsPartitionPoint (λ entry. entry.number ≤ number) (λ entry. number < entry.number) entries.now result }
{
    let likely = (number.saturating_sub(1) / STRIDE_MESSAGES) as usize;
    if is_last_up_to(entries, likely, number) {
        return likely + 1;
    }
    entries.partition_point(|entry| entry.number <= number)
}

/// Returns the offset of the entry at index `i`, or `end` if there are at most `i` entries.
pub(crate) fn offset_or(entries: &[Entry], i: usize, end: u64) -> u64
    ensures { result ≡ offset_or (slice_get entries.now i) end }
{
    match entries.get(i) {
        Some(entry) => entry.offset,
        None => end,
    }
}
