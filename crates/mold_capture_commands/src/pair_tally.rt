//! What is counted for the datagrams of a pair.

ghost use Rattle.std.specs.Prelude.{◌≡◌, ◌+◌, ◌-◌, ◌<◌, ◌^◌, max, min, length, Ok, Some};
ghost use Rattle.mold_capture_commands.specs.Pairs.{greatest, joint, least, numbers_from};
ghost use Rattle.mold_capture_commands.specs.SessionState.{no_tally, tally_more};
ghost use Rattle.mold_wire.specs.declared.header.TheConstants.{END_OF_SESSION};

use mold_wire::{Blocks, Body, DecodeError, Packet};

/// What is counted for the datagrams of a pair. The counts stay at `u64::MAX` once they are there.
#[derive(Clone, Copy, Debug, PartialEq, Eq)]
pub(crate) struct PairTally {
    pub(crate) datagrams: u64,
    // The least number of a message that a data packet carried.
    pub(crate) first: Option<u64>,
    // The greatest one, which can exceed 64 bits.
    pub(crate) last: Option<u128>,
    pub(crate) heartbeats: u64,
    // The sequence number of the last end packet.
    pub(crate) end: Option<u64>,
}

// Returns the lesser of the number and a known one, if there is one.
fn lesser(known: Option<u64>, number: u64) -> u64
    ensures { Some result ≡ joint min known (Some number) }
{
    match known {
        Some(known) => known.min(number),
        None => number,
    }
}

// Returns the greater of the number and a known one, if there is one.
fn greater(known: Option<u128>, number: u128) -> u128
    ensures { Some result ≡ joint max known (Some number) }
{
    match known {
        Some(known) => known.max(number),
        None => number,
    }
}

// Returns the number of the last message of a data packet. That of the first one is the packet's sequence number.
fn last_number(sequence: u64, blocks: &Blocks<'_>) -> u128
    ensures first { least (numbers_from sequence blocks.now) ≡ Some sequence }
    ensures last { greatest (numbers_from sequence blocks.now) ≡ Some result }
{
    u128::from(sequence) + u128::from(blocks.len()) - 1
}

impl PairTally {
    /// Returns the tally of no datagram.
    pub(crate) fn new() -> PairTally
        ensures { result ≡ no_tally }
    {
        PairTally {
            datagrams: 0,
            first: None,
            last: None,
            heartbeats: 0,
            end: None,
        }
    }

    // Counts the messages of a data packet.
    fn add_messages(&mut self, sequence: u64, blocks: &Blocks<'_>)
        ensures { self.new ≡ record self.old {
          first = joint min self.old.first (least (numbers_from sequence blocks.now));
          last = joint max self.old.last (greatest (numbers_from sequence blocks.now));
        } }
    {
        self.first = Some(lesser(self.first, sequence));
        self.last = Some(greater(self.last, last_number(sequence, blocks)));
    }

    // Counts a datagram that encodes this packet.
    fn add_packet(&mut self, packet: &Packet<'_>)
        ensures { self.new ≡ tally_more self.old (Ok packet.now) }
    {
        self.datagrams = self.datagrams.saturating_add(1);
        match &packet.body {
            Body::Data(blocks) => self.add_messages(packet.sequence, blocks),
            Body::Heartbeat => self.heartbeats = self.heartbeats.saturating_add(1),
            Body::End => self.end = Some(packet.sequence),
        }
    }

    /// Counts a datagram, which was decoded to this.
    pub(crate) fn add(&mut self, read: &Result<Packet<'_>, DecodeError>)
        ensures { self.new ≡ tally_more self.old read.now }
    {
        match read {
            Ok(packet) => self.add_packet(packet),
            Err(_) => self.datagrams = self.datagrams.saturating_add(1),
        }
    }
}
