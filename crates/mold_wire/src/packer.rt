//! The packer, which writes messages into downstream packets.

ghost use Rattle.std.specs.Prelude.{◌≡◌, ◌↔◌, ◌≤◌, length, IfOk, IsOk, IsTrue, []};
ghost use Rattle.std.specs.Bool.{OnTrue, OnFalse};

use crate::buffer::{add_in, end_in, fits_in, is_limit, start_in};
use crate::error::PackerError;
use crate::session::Session;
use std::alloc::Global;
use std::boxed::BoxedSlice;
use std::fmt;
use std::fmt::{Debug, Formatter};
use std::marker::Model;

/// Writes downstream packets, one after another, into one buffer. Only `new` allocates: the buffer is a boxed
/// slice, so it cannot grow.
#[derive(Drop)]
pub struct Packer {
    // Its length is the limit.
    buffer: BoxedSlice<u8>,
    // The length in bytes of the current packet.
    used: usize,
    // The number of messages of the open packet.
    count: u16,
    is_open: bool,
}

impl Debug for Packer {
    fn fmt<W: fmt::Write>(&self, f: &mut Formatter<W>) -> fmt::Result {
        f.debug_struct("Packer").finish_non_exhaustive()
    }
}

impl Model for Packer {
    ghost use Rattle.mold_wire.specs.Packer.{PackerState};

    ghost Value = { PackerState };

    ghost use Rattle.mold_wire.specs.Buffer.{fields_of, state_of, begun_in, Holds};

    ghost view = { λ p. state_of (fields_of p) };

    ghost invariant = { λ p. Holds (fields_of p) (begun_in (fields_of p)) };
}

impl Packer {
    ghost use Rattle.mold_wire.specs.Packer.{Nothing, Open, Ended, IsLimit, SpellsBegun, HasRoom, FitsBegun};
    ghost use Rattle.mold_wire.specs.Packer.{with_message};
    ghost use Rattle.mold_wire.specs.declared.error.PackerError.{PackerError};

    /// Makes a packer for datagrams of at most `limit` bytes, with no packet begun. It allocates a buffer of `limit`
    /// bytes.
    pub fn new(alloc: Global, limit: usize) -> Result<Packer, PackerError>
        ensures made { IfOk result (λ packer. packer ≡ record { limit = limit; begun = Nothing }) }
        ensures ok { IsOk result → IsLimit limit }
        ensures limit { (result ≡ Err PackerError.Limit) ↔ (¬ IsLimit limit) }
        ensures memory { result ≡ Err PackerError.Memory → IsLimit limit }
    {
        if !is_limit(limit) {
            return Err(PackerError::Limit);
        }
        let Ok(buffer) = vec![in alloc; 0; limit] else {
            return Err(PackerError::Memory);
        };
        Ok(Packer {
            buffer: buffer.into_boxed_slice(),
            used: 0,
            count: 0,
            is_open: false,
        })
    }

    /// Returns the greatest length of a datagram, in bytes.
    pub fn limit(&self) -> usize
        ensures { result ≡ self.now.limit }
    {
        self.buffer.len()
    }

    /// Opens a packet without messages and discards the current packet. A packet without messages is a
    /// heartbeat.
    pub fn start(&mut self, session: Session, sequence: u64)
        ensures { self.new ≡ record self.old { begun = Open session sequence [] } }
    {
        self.used = start_in(&mut self.buffer, session, sequence);
        self.count = 0;
        self.is_open = true;
    }

    /// Returns whether a packet is open that has room for one more message of `len` bytes.
    pub fn fits(&self, len: usize) -> bool
        ensures { IsTrue result ↔ HasRoom self.now.limit self.now.begun len }
    {
        fits_in(&self.buffer, self.used, self.is_open, len)
    }

    /// Appends a message to the open packet and returns true if it fits. Otherwise it changes nothing and
    /// returns false.
    pub fn add(&mut self, message: &[u8]) -> bool
        ensures fits { IsTrue result ↔ HasRoom self.old.limit self.old.begun (length message.now) }
        ensures added { OnTrue result
            (self.new ≡ record self.old { begun = with_message message.now self.old.begun }) }
        ensures same { OnFalse result (self.new ≡ self.old) }
    {
        if !self.fits(message.len()) {
            return false;
        }
        self.used = add_in(&mut self.buffer, self.used, self.count, message);
        self.count += 1;
        true
    }

    /// Writes an end packet and discards the current packet. No packet is open afterwards.
    pub fn end(&mut self, session: Session, sequence: u64)
        ensures { self.new ≡ record self.old { begun = Ended session sequence } }
    {
        self.used = end_in(&mut self.buffer, session, sequence);
        self.is_open = false;
    }

    /// Returns the bytes of the current packet. They are empty before the first call of `start` or `end`.
    pub fn bytes(&self) -> &[u8]
        ensures spelled { SpellsBegun self.now.begun result.now }
        ensures within { length result.now ≤ self.now.limit }
        ensures limit { IsLimit self.now.limit }
        ensures fits { FitsBegun self.now.limit self.now.begun }
    {
        &self.buffer[..self.used]
    }
}
