//! A storage in memory.

ghost use Rattle.std.specs.Prelude.{◌≡◌, ◌+◌, ◌<◌, ◌≤◌, ◌^◌, ◌++◌, ◌∷◌, [], true, false, ℕ, List, length, take, drop};
ghost use Rattle.std.specs.Prelude.{IfOk, OnOk, OnErr, IsErr, ◌↔◌};
ghost use Rattle.std.specs.Io.{ReadsAtMost};
ghost use Rattle.mold_devices.specs.Devices.{Counts};
ghost use Rattle.mold_durable.specs.Memory.{MayLeave, LeftSince, left_by, left_now, left_only, fails_next, torn_over};
ghost use Rattle.mold_durable.specs.Storage.{AreSame, Elapses, Follows, IsPartAt, IsWithin, IsWritten, MayTear};
ghost use Rattle.mold_durable.specs.declared.memory_call.MemoryCall.TheVariants.{Write, Sync};

use crate::memory_call::MemoryCall;
use crate::storage::Storage;
use crate::storage_plan::StoragePlan;
use mold_devices::DeviceFault;
use std::alloc::{AllocError, Global};
use std::marker::Model;

/// A storage in memory, for tests. A call fails only if `fail_at` or `crash_at` selected it, if a write begins after
/// the end of the bytes, or if an allocation fails. The storage records each write and each sync, so its memory grows.
#[derive(Drop)]
pub struct MemoryStorage {
    alloc: Global,
    bytes: Vec<u8>,
    calls: Vec<MemoryCall>,
    plan: StoragePlan,
}

impl Model for MemoryStorage {
    ghost use Rattle.mold_durable.specs.Memory.{MayLeave, MemoryState};

    ghost Value = { MemoryState };

    ghost view = { λ s. record {
      bytes = s.bytes.items;
      calls = s.calls.items;
      fails_at = s.plan.fails_at;
      crashes = s.plan.crashes;
      failures = s.plan.failures;
    } };

    // The bytes that a read returns are among those that a crash may leave.
    ghost invariant = { λ s. MayLeave s.calls.items s.bytes.items };
}

impl MemoryStorage {
    /// Makes a storage without bytes. It does not allocate.
    pub fn new(alloc: Global) -> MemoryStorage
        ensures { result ≡ record { bytes = []; calls = []; fails_at = 0; crashes = false; failures = 0 } }
    {
        MemoryStorage {
            alloc,
            bytes: Vec::new(alloc),
            calls: Vec::new(alloc),
            plan: StoragePlan::new(),
        }
    }

    /// Makes a storage with these bytes, which are durable. It fails if an allocation fails.
    pub fn with_bytes(alloc: Global, bytes: &[u8]) -> Result<MemoryStorage, AllocError>
        ensures bytes { IfOk result (λ storage. storage.bytes ≡ bytes.now) }
        ensures durable { IfOk result (λ storage.
            (left : List ℕ) → MayLeave storage.calls left → left ≡ bytes.now) }
        ensures plan { IfOk result (λ storage. storage ≡ record storage {
          fails_at = 0;
          crashes = false;
          failures = 0;
        }) }
    {
        let mut calls = Vec::new(alloc);
        calls.push(MemoryCall::Sync {
            bytes: bytes.to_vec(alloc)?,
        })?;
        Ok(MemoryStorage {
            alloc,
            bytes: bytes.to_vec(alloc)?,
            calls,
            plan: StoragePlan::new(),
        })
    }

    /// Returns the bytes, as a read does.
    pub fn bytes(&self) -> &[u8]
        ensures { result.now ≡ self.now.bytes }
    {
        self.bytes.as_slice()
    }

    /// Makes the `k`-th read, write or sync from now on fail, counted from 1, and no other call. 0 means that no call
    /// fails. A failed write does not change what a read returns, but a crash may leave any bytes in its range.
    pub fn fail_at(&mut self, k: u64)
        ensures { self.new ≡ record self.old { fails_at = k; crashes = false } }
    {
        self.plan.fails_at = k;
        self.plan.crashes = false;
    }

    /// Makes the `k`-th read, write or sync from now on a crash, counted from 1: it and all later calls fail.
    /// `after_crash` returns what the crash leaves.
    pub fn crash_at(&mut self, k: u64)
        ensures { self.new ≡ record self.old { fails_at = k; crashes = true } }
    {
        self.plan.fails_at = k;
        self.plan.crashes = true;
    }

    /// Returns a storage with the bytes that a crash at this moment leaves. `tears[i]` has the bytes that write `i`
    /// after the last sync leaves at its offset. Bytes beyond the length of that write are ignored. A write without a
    /// tear leaves nothing. It fails if an allocation fails.
    pub fn after_crash(&self, tears: &[Vec<u8>]) -> Result<MemoryStorage, AllocError>
        ensures left { IfOk result (λ storage.
            storage.bytes ≡ left_by tears.now [] self.now.calls tears.now) }
        ensures possible { IfOk result (λ storage. MayLeave self.now.calls storage.bytes) }
        ensures durable { IfOk result (λ storage.
            (left : List ℕ) → MayLeave storage.calls left → left ≡ storage.bytes) }
    {
        let left = bytes_left(self.alloc, &self.calls, tears)?;
        MemoryStorage::with_bytes(self.alloc, &left)
    }
}

impl Storage for MemoryStorage {
    ghost shows = { λ s bytes. bytes ≡ s.bytes };

    ghost may_leave = { λ s. MayLeave s.calls };

    ghost moment = { λ s. length s.calls };

    ghost left_since = { λ s. LeftSince s.calls };

    ghost failed = { λ s. s.failures };

    ghost counts_now = { λ s earlier bytes le left. left_now s.calls earlier bytes le left };

    ghost only_now = { λ s bytes left. left_only s.calls bytes left };

    fn read_at(&mut self, at: u64, buffer: &mut [u8]) -> Result<usize, DeviceFault>
        // The contract of every storage.
        ensures count { ReadsAtMost result buffer.new }
        ensures bytes { IfOk result (λ count. (bytes : List ℕ) → bytes ≡ self.old.bytes →
            IsPartAt at bytes count buffer.new) }
        ensures within { IfOk result (λ count. 0 < count → at + count < 2 ^ 63) }
        ensures shown { AreSame (λ bytes. bytes ≡ self.old.bytes) (λ bytes. bytes ≡ self.new.bytes) }
        ensures crash { IsWithin (MayLeave self.old.calls) (MayLeave self.new.calls) }
        ensures time { Elapses (length self.old.calls) (length self.new.calls) (LeftSince self.old.calls)
            (LeftSince self.new.calls) (MayLeave self.new.calls) }
        ensures failures { Counts self.old.failures self.new.failures result }

        // What this storage does in addition.
        ensures fails { IsErr result ↔ (self.old.fails_at ≡ 1) }
        ensures plan { self.new ≡ record self.old {
          fails_at = fails_next self.old.crashes self.old.fails_at;
          failures = self.new.failures;
        } }
    {
        self.plan.begin()?;
        Ok(copy_part(&self.bytes, at, buffer))
    }

    fn write_at(&mut self, at: u64, bytes: &[u8]) -> Result<(), DeviceFault>
        // The contract of every storage.
        ensures written { OnOk result (Follows (IsWritten at bytes.now) (λ bytes. bytes ≡ self.old.bytes)
            (λ bytes. bytes ≡ self.new.bytes)) }
        ensures within { OnOk result (at + length bytes.now < 2 ^ 63) }
        ensures crash { Follows (MayTear at (length bytes.now)) (MayLeave self.old.calls) (MayLeave self.new.calls) }
        ensures time { Elapses (length self.old.calls) (length self.new.calls) (LeftSince self.old.calls)
            (LeftSince self.new.calls) (MayLeave self.new.calls) }
        ensures failures { Counts self.old.failures self.new.failures result }

        // What this storage does in addition.
        ensures fails { self.old.fails_at ≡ 1 → IsErr result }
        ensures inside { OnOk result (at ≤ length self.old.bytes) }
        ensures done { OnOk result (self.new ≡ record self.old {
          bytes = torn_over at bytes.now self.old.bytes;
          calls = self.old.calls ++ Write at (length bytes.now) ∷ [];
          fails_at = fails_next self.old.crashes self.old.fails_at;
        }) }
        ensures same { OnErr result (self.new.bytes ≡ self.old.bytes) }
    {
        if at > self.bytes.len() as u64 {
            return Err(self.plan.fail());
        }
        match add_write(&mut self.calls, at, bytes.len()) {
            Ok(()) => {}
            Err(_) => return Err(self.plan.fail()),
        }
        self.plan.begin()?;
        match written_over(self.alloc, &self.bytes, at, bytes) {
            Ok(next) => {
                self.bytes = next;
                Ok(())
            }
            Err(_) => Err(self.plan.fail()),
        }
    }

    fn sync(&mut self) -> Result<(), DeviceFault>
        // The contract of every storage.
        ensures durable { OnOk result (IsWithin (λ bytes. bytes ≡ self.old.bytes) (MayLeave self.new.calls)) }
        ensures shown { AreSame (λ bytes. bytes ≡ self.old.bytes) (λ bytes. bytes ≡ self.new.bytes) }
        ensures crash { IsWithin (MayLeave self.old.calls) (MayLeave self.new.calls) }
        ensures time { Elapses (length self.old.calls) (length self.new.calls) (LeftSince self.old.calls)
            (LeftSince self.new.calls) (MayLeave self.new.calls) }
        ensures failures { Counts self.old.failures self.new.failures result }

        // What this storage does in addition.
        ensures fails { self.old.fails_at ≡ 1 → IsErr result }
        ensures plan { OnOk result (self.new ≡ record self.old {
          calls = self.new.calls;
          fails_at = fails_next self.old.crashes self.old.fails_at;
        }) }
        ensures same { OnErr result (self.new.calls ≡ self.old.calls) }
    {
        self.plan.begin()?;
        match add_sync(self.alloc, &mut self.calls, &self.bytes) {
            Ok(()) => Ok(()),
            Err(_) => Err(self.plan.fail()),
        }
    }

    fn failures(&self) -> u64 {
        self.plan.failures
    }
}

// Copies the bytes from offset `at` on to the start of the buffer, as many as there are or as fit, and returns how
// many.
fn copy_part(bytes: &[u8], at: u64, buffer: &mut [u8]) -> usize
    ensures part { IsPartAt at bytes.now result buffer.new }
    ensures same { length buffer.new ≡ length buffer.old }
{
    let Some(rest) = bytes.get(at as usize..) else {
        return 0;
    };
    let count = rest.len().min(buffer.len());
    buffer[..count].copy_from_slice(&rest[..count]);
    count
}

// Returns the bytes `old` with `bytes` written over them from offset `at` on, or after their end if `at` is greater.
fn written_over(alloc: Global, old: &[u8], at: u64, bytes: &[u8]) -> Result<Vec<u8>, AllocError>
    ensures { IfOk result (λ new. new.items ≡ torn_over at bytes.now old.now) }
{
    let start = at.min(old.len() as u64) as usize;
    let mut new = old[..start].to_vec(alloc)?;
    new.extend_from_slice(bytes)?;
    if bytes.len() < old.len() - start {
        new.extend_from_slice(&old[start + bytes.len()..])?;
    }
    Ok(new)
}

// Returns the bytes that a crash leaves after these calls, if each write since the last sync leaves its tear.
fn bytes_left(alloc: Global, calls: &[MemoryCall], tears: &[Vec<u8>]) -> Result<Vec<u8>, AllocError>
    ensures { IfOk result (λ left. left.items ≡ left_by tears.now [] calls.now tears.now) }
{
    let mut left = Vec::new(alloc);
    let mut rest = tears;
    for call in calls {
        match call {
            MemoryCall::Sync { bytes } => {
                left = bytes.to_vec(alloc)?;
                rest = tears;
            }
            MemoryCall::Write { at, count } => {
                if let Some((tear, others)) = rest.split_first() {
                    left = written_over(alloc, &left, *at, &tear[..tear.len().min(*count)])?;
                    rest = others;
                }
            }
        }
    }
    Ok(left)
}

// Adds a write to the calls.
fn add_write(calls: &mut Vec<MemoryCall>, at: u64, count: usize) -> Result<(), AllocError>
    ensures added { OnOk result (calls.new.items ≡ calls.old.items ++ Write at count ∷ []) }
    ensures same { OnErr result (calls.new.items ≡ calls.old.items) }
{
    calls.push(MemoryCall::Write { at, count })?;
    Ok(())
}

// Adds a sync of these bytes to the calls.
fn add_sync(alloc: Global, calls: &mut Vec<MemoryCall>, bytes: &[u8]) -> Result<(), AllocError>
    ensures added { OnOk result ((copy : _) × (copy.items ≡ bytes.now)
        × (calls.new.items ≡ calls.old.items ++ Sync copy ∷ [])) }
    ensures same { OnErr result (calls.new.items ≡ calls.old.items) }
{
    let copy = bytes.to_vec(alloc)?;
    calls.push(MemoryCall::Sync { bytes: copy })?;
    Ok(())
}
