//! Scripts of ports in memory, and what loops over them wrote and sent.

use crate::comparisons::{holds_at, same_text};
use mold_devices::{CommandFault, MemorySink};
use mold_ports::{MemoryPort, Step};
use std::alloc::{AllocError, Global};
use std::process::Abort;

/// The peer whose datagrams scripts give.
pub const PEER: u32 = 7;

/// What one receive gives: a datagram, no datagram, or a failure.
#[derive(Clone, Copy)]
pub enum Given {
    Bytes(&'static [u8]),
    Quiet,
    Fail,
}

/// Datagrams that were sent, each after its peer.
pub type Sent = &'static [(u32, &'static [u8])];

/// A port that receives nothing.
pub fn silent(alloc: Global) -> MemoryPort {
    MemoryPort::new(alloc, Vec::new(alloc))
}

fn step(alloc: Global, given: Given) -> Result<Step, AllocError> {
    match given {
        Given::Bytes(bytes) => Ok(Step::Come {
            from: PEER,
            bytes: bytes.to_vec(alloc)?,
        }),
        Given::Quiet => Ok(Step::Quiet),
        Given::Fail => Ok(Step::Fail),
    }
}

fn push_steps(alloc: Global, script: &mut Vec<Step>, given: &[Given]) -> Result<(), AllocError> {
    for one in given {
        script.push(step(alloc, *one)?)?;
    }
    Ok(())
}

/// Replaces a port by one that gives this script.
pub fn give(alloc: Global, port: &mut MemoryPort, given: &[Given]) -> Result<(), AllocError> {
    let mut script = Vec::new(alloc);
    push_steps(alloc, &mut script, given)?;
    *port = MemoryPort::new(alloc, script);
    Ok(())
}

/// The loop ended with status 0, and wrote this text.
pub fn expect_written(
    rt: &impl Abort,
    sink: &MemorySink,
    outcome: Result<u8, CommandFault>,
    text: &[u8],
    at: usize,
) {
    holds_at(rt, outcome == Ok(0), "outcome", at);
    same_text(rt, sink.bytes(), text, at);
}

fn is_letter(letter: Option<&(u32, Vec<u8>)>, to: u32, bytes: &[u8]) -> bool {
    match letter {
        Some(letter) => letter.0 == to && letter.1.as_slice() == bytes,
        None => false,
    }
}

fn is_sent(port: &MemoryPort, letters: &[(u32, &[u8])]) -> bool {
    for (index, (to, bytes)) in letters.iter().enumerate() {
        if !is_letter(port.sent().get(index), *to, bytes) {
            return false;
        }
    }
    port.sent().len() == letters.len()
}

/// The port sent these datagrams, and no others.
pub fn expect_sent(rt: &impl Abort, port: &MemoryPort, letters: &[(u32, &[u8])], at: usize) {
    holds_at(rt, is_sent(port, letters), "sent", at);
}
