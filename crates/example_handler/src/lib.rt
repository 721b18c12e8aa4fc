//! An example of a feed handler: what it does with each datagram of two lines.
#![tactic(auto)]

#[cfg(test)]
mod tests;

use mold_receiver::{Arbiter, Batch, Line, Receiver, Refusal};
use mold_wire::decode;
use std::alloc::Global;

/// Returns an arbiter that starts at message 1 of the datagram's session. Returns `None` if the datagram is not a valid
/// packet or an allocation fails.
pub fn begin(alloc: Global, datagram: &[u8]) -> Option<Arbiter> {
    let packet = decode(datagram).ok()?;
    let receiver = Receiver::new(alloc, packet.session, 1, 1024).ok()?;
    Some(Arbiter::new(receiver))
}

/// Takes a datagram that came on a line. The messages to handle are then in `batch`. Returns the encoding of a request
/// for the missing messages, if any are missing.
pub fn hear(
    arbiter: &mut Arbiter,
    line: Line,
    datagram: &[u8],
    batch: &mut Batch,
) -> Result<Option<[u8; 20]>, Refusal> {
    batch.clear();
    arbiter.take(line, datagram, batch)?;
    Ok(arbiter.receiver().wanted().map(|request| request.encode()))
}
