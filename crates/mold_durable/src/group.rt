//! The messages that wait to be committed, in the form in which they are written.

ghost use Rattle.std.specs.Prelude.{◌≡◌, ◌+◌, ◌-◌, ◌<◌, ◌≤◌, ◌^◌, ◌++◌, ◌∷◌, [], false, length, take};
ghost use Rattle.std.specs.Prelude.{OnOk, OnErr, IfOk, ◌==◌};
ghost use Rattle.mold_wire.specs.Block.{be16};
ghost use Rattle.mold_durable.specs.Group.{GroupState, HasRecord, IsTextOf, last_gate_of};
ghost use Rattle.mold_session.specs.Records.{record_of};

use crate::gate::SHUT_GATE;
use byteorder::{BigEndian, ByteOrder};
use mold_session::{CLOSING_KIND, MESSAGE_KIND, OPEN_GATE, RECORD_HEAD};
use std::alloc::{AllocError, Global};
use std::marker::Model;

/// The bytes that a group keeps after its records: the shut gate, and two more bytes. Once the gate is open, the three
/// bytes are the closing record.
const END: [u8; 3] = [SHUT_GATE, CLOSING_KIND, SHUT_GATE];

/// Messages that wait to be committed. They are kept as the records that a commit writes, so a commit copies nothing.
/// A message takes its bytes and 4 more. The group keeps its memory until it is dropped.
#[derive(Drop)]
pub struct Group {
    // The records of the messages, and the bytes of `END` after them. If the group closes the session, the first byte
    // of `END` is an open gate.
    bytes: Vec<u8>,
    count: u64,
    closes: bool,
}

impl Model for Group {
    ghost use Rattle.mold_durable.specs.Group.{GroupState, IsGroup, messages_in};

    ghost Value = { GroupState };

    ghost view = { λ g. record { messages = messages_in g.count g.bytes.items; closes = g.closes } };

    ghost invariant = { λ g. IsGroup g.count g.closes g.bytes.items };
}

impl Group {
    /// Makes a group without messages. It allocates the few bytes that follow the records.
    pub fn new(alloc: Global) -> Result<Group, AllocError>
        ensures { IfOk result (λ group. group ≡ record { messages = []; closes = false }) }
    {
        let mut bytes = Vec::new(alloc);
        bytes.extend_from_slice(&END)?;
        Ok(Group {
            bytes,
            count: 0,
            closes: false,
        })
    }

    /// Returns the number of messages.
    pub fn len(&self) -> u64
        ensures { result ≡ length self.now.messages }
    {
        self.count
    }

    /// Returns whether the group has no message.
    pub fn is_empty(&self) -> bool
        ensures { result ≡ (length self.now.messages == 0) }
    {
        self.count == 0
    }

    /// Appends a message to a group that does not close the session. It fails if an allocation fails, and then nothing
    /// changes.
    pub fn push(&mut self, message: &[u8]) -> Result<(), AllocError>
        requires short { length message.now < 2 ^ 16 }
        requires few { length self.old.messages + 1 < 2 ^ 64 }
        requires open { self.old.closes ≡ false }
        ensures added { OnOk result (self.new ≡ record self.old {
          messages = self.old.messages ++ message.now ∷ [];
        }) }
        ensures same { OnErr result (self.new ≡ self.old) }
    {
        put_record(&mut self.bytes, message)?;
        self.count += 1;
        Ok(())
    }

    /// Sets whether the group closes the session.
    pub fn set_closes(&mut self, closes: bool)
        ensures { self.new ≡ record self.old { closes = closes } }
    {
        let gate = self.bytes.len() - END.len();
        self.bytes[gate] = last_gate(closes);
        self.closes = closes;
    }

    /// Returns what a commit writes after the shut gate of the file: the records without their first gate, and a shut
    /// gate after them.
    pub fn text(&self) -> &[u8]
        requires { HasRecord self.now }
        ensures { IsTextOf self.now result.now }
    {
        if self.closes {
            return &self.bytes[1..];
        }
        &self.bytes[1..self.bytes.len() - 2]
    }

    /// Removes all messages. The group does not close the session, and it keeps its memory.
    pub fn clear(&mut self)
        ensures { self.new ≡ record { messages = []; closes = false } }
    {
        self.bytes[0] = END[0];
        self.bytes[1] = END[1];
        self.bytes[2] = END[2];
        self.bytes.truncate(END.len());
        self.count = 0;
        self.closes = false;
    }
}

// The gate after the records of a group.
fn last_gate(closes: bool) -> u8
    ensures { result ≡ last_gate_of closes }
{
    if closes { OPEN_GATE } else { SHUT_GATE }
}

// The bytes of a message's record before the message.
fn record_head(message: &[u8]) -> [u8; RECORD_HEAD]
    requires { length message.now < 2 ^ 16 }
    ensures { result ≡ 1 ∷ 0 ∷ be16 (length message.now) }
{
    let mut length = [0; 2];
    BigEndian::write_u16(&mut length, message.len() as u16);
    [OPEN_GATE, MESSAGE_KIND, length[0], length[1]]
}

// Puts the record of the message before the last three bytes, which are those of `END`.
fn put_record(bytes: &mut Vec<u8>, message: &[u8]) -> Result<(), AllocError>
    requires short { length message.now < 2 ^ 16 }
    requires ended { 3 ≤ length bytes.old.items }
    ensures put { OnOk result (bytes.new.items
        ≡ take (length bytes.old.items - 3) bytes.old.items ++ (record_of message.now ++ 0 ∷ 1 ∷ 0 ∷ [])) }
    ensures same { OnErr result (bytes.new.items ≡ bytes.old.items) }
{
    // With the room that is reserved first, none of the later calls fails.
    bytes.reserve(RECORD_HEAD + message.len())?;
    bytes.truncate(bytes.len() - END.len());
    bytes.extend_from_slice(&record_head(message))?;
    bytes.extend_from_slice(message)?;
    bytes.extend_from_slice(&END)
}
