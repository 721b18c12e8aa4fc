//! A script in memory as a set of ports, for tests.

ghost use Rattle.std.specs.Prelude.{◌≡◌, ◌≤◌, ◌⊎◌, ◌++◌, true, [], None, length, map, is_err, is_some};
ghost use Rattle.std.specs.Prelude.{IfOk, IfSome, IsErr, IsSome};
ghost use Rattle.std.specs.List.{list_any};
ghost use Rattle.mold_devices.specs.Devices.{Counts, one_more};
ghost use Rattle.mold_port_set.specs.Memory.{AsksMemory, given_at, given_of, is_fault, is_ready, next_step, sent_of};
ghost use Rattle.mold_port_set.specs.Memory.{steps_after, waited};
ghost use Rattle.mold_port_set.specs.PortSet.{given_by, sent_by};
ghost use Rattle.mold_port_set.specs.declared.port_set_call.PortSetCall.TheVariants.{Wait, Receive, Send};

use crate::clock::LAST_TIME;
use crate::port_datagram::PortDatagram;
use crate::port_set::PortSet;
use crate::port_set_call::PortSetCall;
use crate::port_set_step::PortSetStep;
use crate::script::Script;
use mold_devices::DeviceFault;
use std::alloc::{AllocError, Global};
use std::marker::Model;

/// A script as a set of ports. Every index is a port. The clock starts at 0, and only a wait moves it.
///
/// A step of the script is due when the clock has reached its time. Each call takes the first due step that is for this
/// call. A step is taken once. The set keeps the datagrams that receives gave and those that were sent.
#[derive(Drop)]
pub struct MemoryPortSet {
    alloc: Global,
    script: Script,
    // It has room for the datagrams of all steps.
    given: Vec<PortDatagram>,
    sent: Vec<(u32, PortDatagram)>,
    time: u64,
    failures: u64,
}

impl Model for MemoryPortSet {
    ghost use Rattle.std.specs.Prelude.{◌+◌, ◌<◌, ◌≤◌, ◌^◌, map, vec_capacity, vec_len};
    ghost use Rattle.mold_port_set.specs.Memory.{MemorySetState, given_of, sent_of};

    ghost Value = { MemorySetState };

    ghost view = { λ s. record {
      ports = record {
        given = map given_of s.given.items;
        sent = map sent_of s.sent.items;
        now = s.time;
        failures = s.failures;
      };
      left = s.script.steps.items;
      room = vec_capacity s.sent;
    } };

    ghost invariant = { λ s. (s.time < 2 ^ 62) × (vec_len s.script.steps + vec_len s.given ≤ vec_capacity s.given) };
}

impl MemoryPortSet {
    /// Returns a set with this script. It fails if an allocation fails.
    pub fn new(alloc: Global, script: Vec<PortSetStep>) -> Result<MemoryPortSet, AllocError>
        ensures { IfOk result (λ set. set ≡ record {
          ports = record { given = []; sent = []; now = 0; failures = 0 };
          left = script.items;
          room = 0;
        }) }
    {
        let given = Vec::with_capacity(alloc, script.len())?;
        Ok(MemoryPortSet {
            alloc,
            script: Script { steps: script },
            given,
            sent: Vec::new(alloc),
            time: 0,
            failures: 0,
        })
    }

    /// Returns the datagrams that receives gave, in order, truncated as they were.
    pub fn given(&self) -> &[PortDatagram]
        ensures { map given_of result.now ≡ self.now.ports.given }
    {
        self.given.as_slice()
    }

    /// Returns the datagrams that were sent, in order, each with the peer that it was sent to. Failed sends are not
    /// included.
    pub fn sent(&self) -> &[(u32, PortDatagram)]
        ensures { map sent_of result.now ≡ self.now.ports.sent }
    {
        self.sent.as_slice()
    }

    /// Returns the number of steps that were not taken yet.
    pub fn left(&self) -> usize
        ensures { result ≡ length self.now.left }
    {
        self.script.steps.len()
    }

    // Keeps a datagram that is sent.
    fn keep(&mut self, port: usize, to: u32, bytes: &[u8]) -> Result<(), AllocError>
        ensures kept { self.new.ports ≡ record self.old.ports {
          sent = self.old.ports.sent ++ sent_by (is_err result) port to bytes.now;
        } }
        ensures refused { IsErr result → AsksMemory self.old bytes.now }
        ensures room { self.old.room ≤ self.new.room }
        ensures left { self.new.left ≡ self.old.left }
    {
        let mut copy = Vec::new(self.alloc);
        copy.extend_from_slice(bytes)?;
        let datagram = PortDatagram { port, bytes: copy };
        self.sent.push((to, datagram))?;
        Ok(())
    }

    // Counts a failure.
    fn fail(&mut self) -> DeviceFault
        ensures { self.new ≡ record self.old {
          ports = record self.old.ports { failures = one_more self.old.ports.failures };
        } }
    {
        self.failures = self.failures.saturating_add(1);
        DeviceFault
    }
}

impl PortSet for MemoryPortSet {
    type Peer = u32;

    ghost modeled = { true };

    ghost state = { λ s. s.ports };

    fn now(&self) -> u64 {
        self.time
    }

    /// Moves the clock to the earlier of `until` and the least time of a remaining step for a wait or a receive. The
    /// clock never falls, and stops below 2^62. Returns whether a step for a receive is then due. It fails if a step
    /// `Fail` for a wait is then due, and takes that step.
    fn wait(&mut self, until: u64) -> Result<bool, DeviceFault>
        // Clauses of every set of ports.
        ensures given { self.new.ports.given ≡ self.old.ports.given }
        ensures sent { self.new.ports.sent ≡ self.old.ports.sent }
        ensures clock { self.old.ports.now ≤ self.new.ports.now }
        ensures failures { Counts self.old.ports.failures self.new.ports.failures result }

        // Clauses of this set only.
        ensures time { self.new.ports.now ≡ waited self.old.ports.now until self.old.left }
        ensures fails { is_err result ≡ is_some (next_step Wait self.new.ports.now self.old.left) }
        ensures ready { IfOk result (λ ready. ready ≡ list_any (is_ready self.new.ports.now) self.old.left) }
        ensures left { self.new.left ≡ steps_after Wait self.new.ports.now self.old.left }
        ensures room { self.new.room ≡ self.old.room }
    {
        let end = self.script.end_of_wait(until);
        self.time = end.min(LAST_TIME).max(self.time);
        if self.script.take(PortSetCall::Wait, self.time).is_some() {
            return Err(self.fail());
        }
        Ok(self.script.is_ready(self.time))
    }

    /// Takes a step for a receive on the port. If it is a datagram, copies it to a prefix of `buffer`, truncated to the
    /// buffer's length, and returns the length of the prefix. If it is `Fail`, the receive fails. Returns `None` if no
    /// step is due.
    fn receive(&mut self, port: usize, buffer: &mut [u8]) -> Result<Option<usize>, DeviceFault>
        // Clauses of every set of ports.
        ensures count { IfOk result (λ answer. IfSome answer (λ count. count ≤ length buffer.new)) }
        ensures same { length buffer.new ≡ length buffer.old }
        ensures given { self.new.ports.given ≡ self.old.ports.given ++ given_by port result buffer.new }
        ensures sent { self.new.ports.sent ≡ self.old.ports.sent }
        ensures clock { self.old.ports.now ≤ self.new.ports.now }
        ensures failures { Counts self.old.ports.failures self.new.ports.failures result }

        // Clauses of this set only.
        ensures came { let step = next_step (Receive port) self.old.ports.now self.old.left in
            given_by port result buffer.new ≡ given_at port (length buffer.old) step }
        ensures fails { is_err result ≡ is_fault (next_step (Receive port) self.old.ports.now self.old.left) }
        ensures left { self.new.left ≡ steps_after (Receive port) self.old.ports.now self.old.left }
        ensures time { self.new.ports.now ≡ self.old.ports.now }
        ensures room { self.new.room ≡ self.old.room }
    {
        match self.script.take(PortSetCall::Receive { port }, self.time) {
            Some(PortSetStep::Come { bytes, .. }) => {
                let mut bytes = bytes;
                let count = bytes.len().min(buffer.len());
                bytes.truncate(count);
                buffer[..count].copy_from_slice(&bytes);
                let _ = self.given.push(PortDatagram { port, bytes });
                Ok(Some(count))
            }
            Some(PortSetStep::Fail { .. }) => Err(self.fail()),
            None => Ok(None),
        }
    }

    /// Sends a datagram, which the set keeps. It fails if it takes a step, or if an allocation fails.
    fn send(&mut self, port: usize, to: u32, bytes: &[u8]) -> Result<(), DeviceFault>
        // Clauses of every set of ports.
        ensures given { self.new.ports.given ≡ self.old.ports.given }
        ensures sent { self.new.ports.sent ≡ self.old.ports.sent ++ sent_by (is_err result) port to bytes.now }
        ensures clock { self.new.ports.now ≡ self.old.ports.now }
        ensures failures { Counts self.old.ports.failures self.new.ports.failures result }

        // Clauses of this set only.
        ensures fails { IsSome (next_step (Send port) self.old.ports.now self.old.left) → IsErr result }

        // Apart from the sends that the script makes fail, a send fails only if an allocation fails.
        ensures refused { IsErr result →
            IsSome (next_step (Send port) self.old.ports.now self.old.left) ⊎ AsksMemory self.old bytes.now }
        ensures left { self.new.left ≡ steps_after (Send port) self.old.ports.now self.old.left }
        ensures room { self.old.room ≤ self.new.room }
    {
        let step = self.script.take(PortSetCall::Send { port }, self.time);
        if step.is_some() || self.keep(port, to, bytes).is_err() {
            return Err(self.fail());
        }
        Ok(())
    }

    /// Returns `None`: a script drops nothing, and counts nothing.
    fn drops(&mut self) -> Option<u64>
        ensures same { self.new ≡ self.old }
        ensures none { result ≡ None }
    {
        None
    }

    /// Returns 0: a script knows no senders.
    fn passed_over(&self, port: usize) -> u64
        ensures { result ≡ 0 }
    {
        let _ = port;
        0
    }

    fn failures(&self) -> u64 {
        self.failures
    }
}
