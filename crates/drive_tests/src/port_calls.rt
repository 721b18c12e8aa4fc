//! The calls of a set of ports, and of a single port.

use crate::calls::Calls;
use crate::report::{push_bytes, push_count, push_done, push_fault, push_none, push_syntax};
use crate::words::Words;
use mold_devices::DeviceFault;
use mold_digits::decode;
use mold_port_set::PortSet;
use mold_ports::Datagrams;
use mold_text::{Word, push_line};
use std::alloc::{AllocError, Global};
use std::net::SocketAddr;

/// The most bytes of a receive.
const MOST: u32 = 1 << 16;

/// A set of ports. The calls are `wait TIME`, `receive PORT SIZE`, `send PORT PEER BYTES`, `drops` and `failures`. A wait
/// is for this many nanoseconds from the time of the set on. PEER is an index in the list of peers.
#[derive(Drop)]
pub(crate) struct SetCalls<P, A> {
    ports: P,
    peers: Vec<A>,
    bytes: Vec<u8>,
}

/// A port. The calls are `receive SIZE`, `send PEER BYTES` and `failures`.
#[derive(Drop)]
pub(crate) struct PortCalls<P, A> {
    port: P,
    peers: Vec<A>,
    bytes: Vec<u8>,
}

/// The address of a peer, as it is printed.
pub(crate) trait PeerNumber: Copy {
    fn number(self) -> u64;
}

impl PeerNumber for u32 {
    fn number(self) -> u64 {
        u64::from(self)
    }
}

impl PeerNumber for SocketAddr {
    /// Returns the port number.
    fn number(self) -> u64 {
        u64::from(self.port())
    }
}

// Makes room for the bytes of a receive.
fn prepare(size: u32, bytes: &mut Vec<u8>) -> Result<(), AllocError> {
    bytes.clear();
    bytes.resize(size.min(MOST) as usize, 0)
}

// The word for the outcome of a wait.
fn wait_word(outcome: Result<bool, DeviceFault>) -> &'static [u8] {
    match outcome {
        Ok(true) => b"ready",
        Ok(false) => b"quiet",
        Err(_) => b"fault",
    }
}

impl<P: PortSet> SetCalls<P, P::Peer> {
    pub(crate) fn new(alloc: Global, ports: P, peers: Vec<P::Peer>) -> SetCalls<P, P::Peer> {
        SetCalls {
            ports,
            peers,
            bytes: Vec::new(alloc),
        }
    }

    // Waits, and appends the outcome and how far the clock of the set went.
    fn wait(&mut self, mut words: Words<'_>, out: &mut Vec<u8>) -> Result<(), AllocError> {
        let Some(time) = words.next_number() else {
            return push_syntax(out);
        };
        let began = self.ports.now();
        let outcome = self.ports.wait(began.saturating_add(time));
        push_count(
            out,
            wait_word(outcome),
            self.ports.now().saturating_sub(began),
        )
    }

    fn receive(&mut self, mut words: Words<'_>, out: &mut Vec<u8>) -> Result<(), AllocError> {
        let (Some(port), Some(size)) = (words.next_small(), words.next_small()) else {
            return push_syntax(out);
        };
        prepare(size, &mut self.bytes)?;
        match self.ports.receive(port as usize, self.bytes.as_mut_slice()) {
            Ok(Some(count)) => push_bytes(out, b"datagram", &self.bytes[..count]),
            Ok(None) => push_none(out),
            Err(_) => push_fault(out),
        }
    }

    fn send(&mut self, mut words: Words<'_>, out: &mut Vec<u8>) -> Result<(), AllocError> {
        let (Some(port), Some(to)) = (words.next_small(), words.next_small()) else {
            return push_syntax(out);
        };
        let Some(to) = self.peers.get(to as usize) else {
            return push_syntax(out);
        };
        if !decode(words.next_word(), &mut self.bytes)? {
            return push_syntax(out);
        }
        push_done(
            out,
            self.ports.send(port as usize, *to, self.bytes.as_slice()),
        )
    }

    fn push_drops(&mut self, out: &mut Vec<u8>) -> Result<(), AllocError> {
        match self.ports.drops() {
            Some(count) => push_count(out, b"drops", count),
            None => push_none(out),
        }
    }
}

impl<P: PortSet> Calls for SetCalls<P, P::Peer> {
    fn apply(&mut self, line: &[u8], out: &mut Vec<u8>) -> Result<(), AllocError> {
        let mut words = Words::new(line);
        match words.next_word() {
            b"wait" => self.wait(words, out),
            b"receive" => self.receive(words, out),
            b"send" => self.send(words, out),
            b"drops" => self.push_drops(out),
            b"failures" => push_count(out, b"failures", self.ports.failures()),
            _ => push_syntax(out),
        }
    }
}

impl<A: PeerNumber, P: Datagrams<Peer = A>> PortCalls<P, A> {
    pub(crate) fn new(alloc: Global, port: P, peers: Vec<A>) -> PortCalls<P, A> {
        PortCalls {
            port,
            peers,
            bytes: Vec::new(alloc),
        }
    }

    // Receives a datagram, and appends its sender and its bytes.
    fn receive(&mut self, mut words: Words<'_>, out: &mut Vec<u8>) -> Result<(), AllocError> {
        let Some(size) = words.next_small() else {
            return push_syntax(out);
        };
        prepare(size, &mut self.bytes)?;
        match self.port.receive(self.bytes.as_mut_slice()) {
            Ok(Some((count, from))) => push_line(
                out,
                &[
                    Word::Text(b"datagram"),
                    Word::Number(from.number()),
                    Word::Message(&self.bytes[..count]),
                ],
            ),
            Ok(None) => push_none(out),
            Err(_) => push_fault(out),
        }
    }

    fn send(&mut self, mut words: Words<'_>, out: &mut Vec<u8>) -> Result<(), AllocError> {
        let Some(to) = words.next_small() else {
            return push_syntax(out);
        };
        let Some(to) = self.peers.get(to as usize) else {
            return push_syntax(out);
        };
        if !decode(words.next_word(), &mut self.bytes)? {
            return push_syntax(out);
        }
        push_done(out, self.port.send(*to, self.bytes.as_slice()))
    }
}

impl<A: PeerNumber, P: Datagrams<Peer = A>> Calls for PortCalls<P, A> {
    fn apply(&mut self, line: &[u8], out: &mut Vec<u8>) -> Result<(), AllocError> {
        let mut words = Words::new(line);
        match words.next_word() {
            b"receive" => self.receive(words, out),
            b"send" => self.send(words, out),
            b"failures" => push_count(out, b"failures", self.port.failures()),
            _ => push_syntax(out),
        }
    }
}
