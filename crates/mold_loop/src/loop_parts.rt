//! The types that a loop in one process is made of: ports, options, listener, parts.

use mold_listen::Printer;
use mold_ports::Datagrams;
use mold_receiver::Arbiter;
use mold_session::{Publisher, Server};
use std::alloc::Global;

/// The five ports of a loop.
#[derive(Drop)]
pub struct LoopPorts<D: Datagrams + Drop> {
    /// Sends the publisher's datagrams.
    pub publisher: D,
    /// Receives requests and sends the server's responses.
    pub server: D,
    /// Receives line A.
    pub a: D,
    /// Receives line B.
    pub b: D,
    /// Sends the listener's requests and receives the responses.
    pub requests: D,
}

/// The addresses of the three ports of a loop that datagrams are sent to.
#[derive(Clone, Copy)]
pub struct LoopPeers<P: Copy> {
    /// The address that line A is sent to.
    pub a: P,
    /// The address that line B is sent to.
    pub b: P,
    /// The address that requests are sent to.
    pub server: P,
}

/// The data packets that each line leaves out: every k-th one, counted from 1. With 0 a line leaves none out.
#[derive(Clone, Copy)]
pub struct Drops {
    /// Line A leaves out every `a`-th data packet.
    pub a: u32,
    /// Line B leaves out every `b`-th data packet.
    pub b: u32,
}

/// The options of a loop.
#[derive(Clone, Copy)]
pub struct LoopOptions<P: Copy> {
    /// The addresses that the loop sends to.
    pub peers: LoopPeers<P>,
    /// The data packets that each line leaves out.
    pub drops: Drops,
    /// The maximum number of rounds of requests.
    pub turns: u32,
    /// Whether reports of both lines are printed before the last line.
    pub reporting: bool,
}

/// The lines that a datagram is sent on.
#[derive(Clone, Copy)]
pub struct Routes {
    /// Whether it is sent on line A.
    pub a: bool,
    /// Whether it is sent on line B.
    pub b: bool,
}

/// The listener of a loop.
#[derive(Drop)]
pub struct Listener {
    /// Arbitrates between the two lines.
    pub arbiter: Arbiter,
    /// Holds the text that is not yet written, and the count of failures.
    pub printer: Printer,
}

/// The parts of a loop other than its ports and options.
#[derive(Drop)]
pub struct LoopParts {
    /// The allocator of the loop's buffers.
    pub alloc: Global,
    /// Publishes the lines of the source.
    pub publisher: Publisher,
    /// Responds to the listener's requests.
    pub server: Server,
    /// Receives both lines, and determines which messages to request.
    pub listener: Listener,
}
