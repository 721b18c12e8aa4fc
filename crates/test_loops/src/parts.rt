//! What the tests of receivers of line A share.

use mold_devices::MemorySink;
use mold_input::MessageFormat;
use mold_port_set::{MemoryPortSet, PortSetStep};
use mold_receive::{ReceiveOptions, ReceiveParts};
use mold_receiver::{Arbiter, Receiver};
use mold_repair::{RepairOptions, Repairer};
use mold_wire::Session;
use std::alloc::{AllocError, Global};
use std::test::Fail;

pub const SESSION: Session = Session(*b"SESSION001");

pub const DATA_1: &[u8] = b"SESSION001\0\0\0\0\0\0\0\x01\0\x01\0\x01A";

pub const DATA_2: &[u8] = b"SESSION001\0\0\0\0\0\0\0\x02\0\x01\0\x01B";

pub const DATA_3: &[u8] = b"SESSION001\0\0\0\0\0\0\0\x03\0\x01\0\x01C";

pub const END_4: &[u8] = b"SESSION001\0\0\0\0\0\0\0\x04\xff\xff";

const MILLI: u64 = 1_000_000;

/// The options of a receiver without servers.
const OPTIONS: RepairOptions = RepairOptions {
    patience: MILLI,
    timeout: 50 * MILLI,
    ceiling: 1000 * MILLI,
    settle: 2 * MILLI,
    interval: MILLI,
    bucket: 32,
    places: 256,
    servers: 0,
    give_up: 0,
    audit: 4,
};

/// A datagram, after its time in milliseconds.
pub type Timed = (u32, &'static [u8]);

fn step(alloc: Global, timed: &Timed) -> Result<PortSetStep, AllocError> {
    Ok(PortSetStep::Come {
        at: u64::from(timed.0) * MILLI,
        port: 0,
        bytes: timed.1.to_vec(alloc)?,
    })
}

pub fn ports(alloc: Global, script: &[Timed]) -> Result<MemoryPortSet, AllocError> {
    let mut steps = Vec::new(alloc);
    for timed in script {
        steps.push(step(alloc, timed)?)?;
    }
    MemoryPortSet::new(alloc, steps)
}

/// A repairer of a receiver that begins at message 1.
pub fn repairer(alloc: Global, options: RepairOptions) -> Result<Repairer, Fail> {
    let receiver = Receiver::new(alloc, SESSION, 1, 16)?;
    Ok(Repairer::new(alloc, Arbiter::new(receiver), options)?)
}

pub fn parts(alloc: Global, script: &[Timed]) -> Result<ReceiveParts<MemoryPortSet>, Fail> {
    Ok(ReceiveParts {
        repairer: repairer(alloc, OPTIONS)?,
        ports: ports(alloc, script)?,
        first: None,
    })
}

/// The options of a receiver that prints statistics each second, and ends after two seconds without a datagram.
pub fn options(alloc: Global) -> Result<ReceiveOptions<u32>, Fail> {
    match ReceiveOptions::new(1, Vec::new(alloc), MessageFormat::Lines, 1000) {
        Some(options) => Ok(options.with_quiet(2).with_stats(1)),
        None => Err(Fail::new("no options")),
    }
}

/// Standard output and standard error.
#[derive(Drop)]
pub struct Sinks {
    pub sink: MemorySink,
    pub errors: MemorySink,
}

pub fn new_sinks(alloc: Global) -> Sinks {
    Sinks {
        sink: MemorySink::new(alloc),
        errors: MemorySink::new(alloc),
    }
}
