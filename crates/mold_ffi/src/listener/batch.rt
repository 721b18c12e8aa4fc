//! The calls that read the batch: the messages that a listener delivered.

ghost use Rattle.std.specs.Prelude.{◌≡◌, ◌≤◌, ◌<◌, ◌++◌, ℕ, List, None, Some, length, take, drop, map, min};
ghost use Rattle.std.specs.Prelude.{slice_get, unwrap_or};
ghost use Rattle.std.specs.Borrow.{sem};
ghost use Rattle.std.specs.Io.BufRead.{Rests};
ghost use Rattle.std.specs.Option.{option_copied};
ghost use Rattle.mold_ffi.specs.Handle.Borrow.{listening};
ghost use Rattle.mold_ffi.specs.Listener.BatchedArbiter.{BatchedArbitration};
ghost use Rattle.mold_ffi.specs.contracts.handle.mold_handle.MoldHandle.{the_row};
ghost use Rattle.mold_ffi.specs.declared.code.TheConstants as codes;
ghost use Rattle.mold_receiver.specs.Batch.{Handed, first_of};

use crate::code::{ABSENT, BROKEN, DONE, ROOM};
use crate::handle::borrow::lend_batch;
use crate::handle::mold_handle::MoldHandle;
use mold_receiver::Batch;

/// The number of messages of the batch; 0 if the handle holds no listener.
#[unsafe(no_mangle)]
pub extern "C" fn mold_listener_count(listener: &mut MoldHandle) -> usize
    ensures count { (batched : BatchedArbitration) → listening listener.old.handle.value ≡ Some batched →
        result ≡ length batched.batch.messages }
    ensures broken { listening listener.old.handle.value ≡ None → result ≡ 0 }
    ensures same { listener.new.handle.value ≡ listener.old.handle.value }
{
    match lend_batch(listener) {
        Some(batch) => batch.len(),
        None => 0,
    }
}

/// The sequence number of the first message of the batch; 0 if the batch is empty or the handle holds no listener.
#[unsafe(no_mangle)]
pub extern "C" fn mold_listener_first(listener: &mut MoldHandle) -> u64
    ensures first { (batched : BatchedArbitration) → listening listener.old.handle.value ≡ Some batched →
        result ≡ unwrap_or (first_of batched.batch) 0 }
    ensures broken { listening listener.old.handle.value ≡ None → result ≡ 0 }
    ensures same { listener.new.handle.value ≡ listener.old.handle.value }
{
    match lend_batch(listener) {
        Some(batch) => batch.first().unwrap_or(0),
        None => 0,
    }
}

// Writes a slice of the message at index `i` of the batch, if there are both.
fn write_message<'a>(lent: Option<&'a Batch>, i: usize, message: &mut &'a [u8]) -> u32
    ensures lent { (batch : Handed) (bytes : List ℕ) →
        option_copied lent.entry ≡ Some batch → slice_get batch.messages i ≡ Some bytes →
        (result ≡ codes.DONE) × (message.new.now ≡ bytes) }
    ensures absent { (batch : Handed) →
        option_copied lent.entry ≡ Some batch → slice_get batch.messages i ≡ None →
        (result ≡ codes.ABSENT) × (message.new ≡ message.old) }
    ensures broken { option_copied lent.entry ≡ None → (result ≡ codes.BROKEN) × (message.new ≡ message.old) }
{
    let Some(batch) = lent else {
        return BROKEN;
    };
    match batch.get(i) {
        Some(bytes) => {
            *message = bytes;
            DONE
        }
        None => ABSENT,
    }
}

/// Writes a slice of the message at index `i` of the batch, counted from 0. The slice is valid until the next call on
/// this handle. If the code is not 0, nothing is written.
#[unsafe(no_mangle)]
pub extern "C" fn mold_listener_message<'a>(
    listener: &'a mut MoldHandle,
    i: usize,
    message: &mut &'a [u8],
) -> u32
    ensures* after { sem 𝓛 (Rests the_row listener.entry (λ new. new.handle.value ≡ listener.old.handle.value)) }
    ensures lent { (batched : BatchedArbitration) (bytes : List ℕ) →
        listening listener.old.handle.value ≡ Some batched → slice_get batched.batch.messages i ≡ Some bytes →
        (result ≡ codes.DONE) × (message.new.now ≡ bytes) }
    ensures absent { (batched : BatchedArbitration) →
        listening listener.old.handle.value ≡ Some batched → slice_get batched.batch.messages i ≡ None →
        (result ≡ codes.ABSENT) × (message.new ≡ message.old) }
    ensures broken { listening listener.old.handle.value ≡ None →
        (result ≡ codes.BROKEN) × (message.new ≡ message.old) }
{
    write_message(lend_batch(listener), i, message)
}

/// Copies the message at index `i` of the batch to the start of the buffer, and writes its length. If the buffer is
/// too small, only the length is written.
#[unsafe(no_mangle)]
pub extern "C" fn mold_listener_copy(
    listener: &mut MoldHandle,
    i: usize,
    buffer: &mut [u8],
    size: &mut usize,
) -> u32
    ensures copied { (batched : BatchedArbitration) (bytes : List ℕ) →
        listening listener.old.handle.value ≡ Some batched → slice_get batched.batch.messages i ≡ Some bytes →
        length bytes ≤ length buffer.old →
        (result ≡ codes.DONE) × (size.new ≡ length bytes) × (buffer.new ≡ bytes ++ drop (length bytes) buffer.old) }
    ensures room { (batched : BatchedArbitration) (bytes : List ℕ) →
        listening listener.old.handle.value ≡ Some batched → slice_get batched.batch.messages i ≡ Some bytes →
        length buffer.old < length bytes →
        (result ≡ codes.ROOM) × (size.new ≡ length bytes) × (buffer.new ≡ buffer.old) }
    ensures absent { (batched : BatchedArbitration) →
        listening listener.old.handle.value ≡ Some batched → slice_get batched.batch.messages i ≡ None →
        (result ≡ codes.ABSENT) × (size.new ≡ size.old) × (buffer.new ≡ buffer.old) }
    ensures broken { listening listener.old.handle.value ≡ None →
        (result ≡ codes.BROKEN) × (size.new ≡ size.old) × (buffer.new ≡ buffer.old) }
    ensures same { listener.new.handle.value ≡ listener.old.handle.value }
{
    let Some(batch) = lend_batch(listener) else {
        return BROKEN;
    };
    let Some(bytes) = batch.get(i) else {
        return ABSENT;
    };
    *size = bytes.len();
    if buffer.len() < bytes.len() {
        return ROOM;
    }
    buffer[..bytes.len()].copy_from_slice(bytes);
    DONE
}

// Writes slices of the first messages of the batch, if there is one, and returns how many.
fn write_messages<'a>(lent: Option<&'a Batch>, messages: &mut [&'a [u8]]) -> usize
    ensures count { (batch : Handed) → option_copied lent.entry ≡ Some batch →
        result ≡ min (length messages.old) (length batch.messages) }
    ensures lent { (batch : Handed) → option_copied lent.entry ≡ Some batch →
        map (λ bytes. bytes.now) (take result messages.new) ≡ take result batch.messages }
    ensures behind { drop result messages.new ≡ drop result messages.old }
    ensures broken { option_copied lent.entry ≡ None → (result ≡ 0) × (messages.new ≡ messages.old) }
{
    match lent {
        Some(batch) => lend_messages(batch, messages),
        None => 0,
    }
}

// Writes slices of the first messages of a batch, as many as the array has room for, and returns how many.
// For the optimizer: apart from `lend_messages`, which then saves no registers for a batch of one message.
#[inline(never)]
fn lend_each<'a>(batch: &'a Batch, messages: &mut [&'a [u8]]) -> usize
    ensures count { result ≡ min (length messages.old) (length batch.now.messages) }
    ensures lent { map (λ bytes. bytes.now) (take result messages.new) ≡ take result batch.now.messages }
    ensures behind { drop result messages.new ≡ drop result messages.old }
{
    let mut filled = 0;
    for bytes in batch.iter() {
        if filled == messages.len() {
            return filled;
        }
        messages[filled] = bytes;
        filled += 1;
    }
    filled
}

// Writes slices of the first messages of a batch, as `lend_each` does, but faster if the batch has one message.
fn lend_messages<'a>(batch: &'a Batch, messages: &mut [&'a [u8]]) -> usize
    ensures count { result ≡ min (length messages.old) (length batch.now.messages) }
    ensures lent { map (λ bytes. bytes.now) (take result messages.new) ≡ take result batch.now.messages }
    ensures behind { drop result messages.new ≡ drop result messages.old }
{
    if batch.len() == 1 && !messages.is_empty() {
        if let Some(bytes) = batch.get(0) {
            messages[0] = bytes;
            return 1;
        }
    }
    lend_each(batch, messages)
}

/// Writes slices of the first messages of the batch, as many as the array has room for, and returns how many; 0 if the
/// handle holds no listener. The slices are valid until the next call on this handle. The other elements of the array
/// are unchanged.
#[unsafe(no_mangle)]
pub extern "C" fn mold_listener_messages<'a>(
    listener: &'a mut MoldHandle,
    messages: &mut [&'a [u8]],
) -> usize
    ensures* after { sem 𝓛 (Rests the_row listener.entry (λ new. new.handle.value ≡ listener.old.handle.value)) }
    ensures count { (batched : BatchedArbitration) → listening listener.old.handle.value ≡ Some batched →
        result ≡ min (length messages.old) (length batched.batch.messages) }
    ensures lent { (batched : BatchedArbitration) → listening listener.old.handle.value ≡ Some batched →
        map (λ bytes. bytes.now) (take result messages.new) ≡ take result batched.batch.messages }
    ensures behind { drop result messages.new ≡ drop result messages.old }
    ensures broken { listening listener.old.handle.value ≡ None → (result ≡ 0) × (messages.new ≡ messages.old) }
{
    write_messages(lend_batch(listener), messages)
}
