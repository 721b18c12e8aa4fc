//! A script in memory as a port, for tests.

ghost use Rattle.std.specs.Prelude.{◌≡◌, ◌-◌, ◌≤◌, ◌⊎◌, ℕ, Bool, true, [], length, map, is_err, IfOk, IfSome, IsErr};
ghost use Rattle.mold_devices.specs.Devices.{Counts};
ghost use Rattle.mold_ports.specs.Memory.{AsksMemory, kept_datagram, datagram_of, receipt_at};
ghost use Rattle.mold_ports.specs.Ports.{Port, cut, next_of, offered, receipt_of, received};

use crate::datagrams::Datagrams;
use crate::step::Step;
use mold_devices::DeviceFault;
use std::alloc::{AllocError, Global};
use std::marker::Model;

/// A script as a port. Each receive gives the next step of the script. After the last step, receives give nothing. The
/// port keeps what is sent. A send fails only if `fail_send` says so, or if there is no memory to keep the datagram.
#[derive(Drop)]
pub struct MemoryPort {
    alloc: Global,
    script: Vec<Step>,
    // The number of steps that were taken.
    used: usize,
    sent: Vec<(u32, Vec<u8>)>,
    // The send that fails, counted from 1 for the next one. If this is 0, no send fails.
    fails_at: u64,
    failures: u64,
}

impl Model for MemoryPort {
    ghost use Rattle.std.specs.Prelude.{drop, map, vec_capacity};
    ghost use Rattle.mold_ports.specs.Memory.{MemoryState, datagram_of, receipt_at};

    ghost Value = { MemoryState };

    ghost view = { λ s. record {
      port = record {
        comes = map receipt_at (drop s.used s.script.items);
        sent = map datagram_of s.sent.items;
        failures = s.failures;
      };
      room = vec_capacity s.sent;
      fails_at = s.fails_at;
    } };
}

impl MemoryPort {
    /// Returns a port on which each receive gives the next of these steps. This allocates no memory.
    pub fn new(alloc: Global, script: Vec<Step>) -> MemoryPort
        ensures { result ≡ record {
          port = record { comes = map receipt_at script.items; sent = []; failures = 0 };
          room = 0;
          fails_at = 0;
        } }
    {
        MemoryPort {
            alloc,
            script,
            used: 0,
            sent: Vec::new(alloc),
            fails_at: 0,
            failures: 0,
        }
    }

    /// Makes the `k`-th send from now on fail, counted from 1, and no other. If `k` is 0, no send fails.
    pub fn fail_send(&mut self, k: u64)
        ensures { self.new ≡ record self.old { fails_at = k } }
    {
        self.fails_at = k;
    }

    /// Returns the datagrams that were sent, in order, each with the peer that it was sent to. Failed sends are not
    /// included.
    pub fn sent(&self) -> &[(u32, Vec<u8>)]
        ensures { map datagram_of result.now ≡ self.now.port.sent }
    {
        self.sent.as_slice()
    }

    /// Returns the number of steps that were not taken yet.
    pub fn left(&self) -> usize
        ensures { result ≡ length self.now.port.comes }
    {
        self.script.len().saturating_sub(self.used)
    }

    // Keeps a datagram.
    fn keep(&mut self, to: u32, bytes: &[u8]) -> Result<(), AllocError>
        ensures kept { self.new.port ≡ kept_datagram (is_err result) to bytes.now self.old.port }
        ensures refused { IsErr result → AsksMemory self.old bytes.now }
        ensures room { self.old.room ≤ self.new.room }
        ensures fails_at { self.new.fails_at ≡ self.old.fails_at }
    {
        let mut copy = Vec::new(self.alloc);
        copy.extend_from_slice(bytes)?;
        self.sent.push((to, copy))?;
        Ok(())
    }
}

impl Datagrams for MemoryPort {
    type Peer = u32;

    ghost modeled = { true };

    ghost port = { λ s. s.port };

    fn send(&mut self, to: u32, bytes: &[u8]) -> Result<(), DeviceFault>
        // Clauses of every port.
        ensures sent { self.new.port ≡ offered (is_err result) to bytes.now self.old.port }
        ensures failures { Counts self.old.port.failures self.new.port.failures result }

        // Clauses of this port only.
        ensures fails { self.old.fails_at ≡ 1 → IsErr result }

        // Apart from the send that is made to fail, a send fails only if an allocation fails.
        ensures refused { IsErr result → (self.old.fails_at ≡ 1) ⊎ AsksMemory self.old bytes.now }
        ensures room { self.old.room ≤ self.new.room }
        ensures fails_at { self.new.fails_at ≡ self.old.fails_at - 1 }
    {
        let fails = self.fails_at == 1;
        self.fails_at = self.fails_at.saturating_sub(1);
        if fails || self.keep(to, bytes).is_err() {
            self.failures = self.failures.saturating_add(1);
            return Err(DeviceFault);
        }
        Ok(())
    }

    fn receive(&mut self, buffer: &mut [u8]) -> Result<Option<(usize, u32)>, DeviceFault>
        // Clauses of every port.
        ensures count { IfOk result (λ answer. IfSome answer (λ found. found.0 ≤ length buffer.new)) }
        ensures came { receipt_of result buffer.new ≡ cut (length buffer.new) (next_of self.old.port) }
        ensures left { self.new.port ≡ received self.old.port }
        ensures failures { Counts self.old.port.failures self.new.port.failures result }

        // Clauses of this port only.
        ensures room { self.new.room ≡ self.old.room }
        ensures fails_at { self.new.fails_at ≡ self.old.fails_at }
    {
        let Some(step) = self.script.get(self.used) else {
            return Ok(None);
        };
        self.used += 1;
        match step {
            Step::Come { from, bytes } => {
                let count = bytes.len().min(buffer.len());
                buffer[..count].copy_from_slice(&bytes[..count]);
                Ok(Some((count, *from)))
            }
            Step::Quiet => Ok(None),
            Step::Fail => {
                self.failures = self.failures.saturating_add(1);
                Err(DeviceFault)
            }
        }
    }

    fn failures(&self) -> u64 {
        self.failures
    }
}
