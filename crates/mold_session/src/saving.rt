//! Writes the file of a journal, in version 2.

ghost use Rattle.std.specs.Prelude.{◌≡◌, ◌<◌, ◌≤◌, ◌^◌, ◌++◌, length, OnOk, OnErr};
ghost use Rattle.mold_wire.specs.Block.{be16, block};
ghost use Rattle.mold_wire.specs.declared.block.TheConstants.{MAX_MESSAGE};
ghost use Rattle.mold_devices.specs.Devices.{AppendsPrefix, Counts};
ghost use Rattle.mold_session.specs.File.{head_2, file_length, AppendsFile, AppendsFilePrefix};
ghost use Rattle.mold_session.specs.Journal.{AreMessages};
ghost use Rattle.mold_session.specs.Moving.{Moves};
ghost use Rattle.mold_session.specs.Putting.{PutsFile};

use crate::magic::second_magic;
use crate::putting::put_after;
use crate::write_buffer::WriteBuffer;
use byteorder::{BigEndian, ByteOrder};
use mold_devices::{DeviceFault, Sink};
use mold_messages::MessageList;
use mold_wire::{LENGTH_BYTES, Session};

/// The length of the head, the bytes before the first block.
pub const HEAD_LENGTH: usize = 27;

// The bytes before the first block.
fn head(session: Session, closed: bool, count: u64) -> [u8; HEAD_LENGTH]
    ensures named { length session.0 ≡ 10 }
    ensures head { result ≡ head_2 session.0 closed count }
{
    let mut number = [0; 8];
    BigEndian::write_u64(&mut number, count);
    let mut bytes = [0; HEAD_LENGTH];
    put_after(&mut bytes, 0, &second_magic());
    put_after(&mut bytes, 8, &session.0);
    put_after(&mut bytes, 18, &[u8::from(closed)]);
    put_after(&mut bytes, 19, &number);
    bytes
}

// The length field of a message's block.
fn length_of(message: &[u8]) -> [u8; LENGTH_BYTES]
    requires { length message.now < 2 ^ 16 }
    ensures { result ≡ be16 (length message.now) }
{
    let mut bytes = [0; LENGTH_BYTES];
    BigEndian::write_u16(&mut bytes, message.len() as u16);
    bytes
}

// Puts the block of a message into the buffer.
fn put_block<K: Sink>(
    buffer: &mut WriteBuffer,
    sink: &mut K,
    message: &[u8],
) -> Result<(), DeviceFault>
    requires { length message.now < 2 ^ 16 }
    ensures moved { OnOk result (Moves (K.held sink.old) (K.held sink.new) buffer.old (block message.now) buffer.new) }
    ensures front { OnErr result (AppendsPrefix (K.held sink.old) (K.held sink.new) (buffer.old ++ block message.now)) }
    ensures failures { Counts (K.failed sink.old) (K.failed sink.new) result }
{
    buffer.put(sink, &length_of(message))?;
    buffer.put(sink, message)
}

/// Writes these messages as a file of version 2, without an allocation. After a fault, a prefix of the file was
/// written.
pub fn save_file<K: Sink>(
    session: Session,
    closed: bool,
    list: &MessageList,
    sink: &mut K,
) -> Result<(), DeviceFault>
    requires { AreMessages MAX_MESSAGE list.now.messages }
    ensures whole { OnOk result (AppendsFile (K.held sink.old) (K.held sink.new) session list.now.messages closed) }
    ensures front { OnErr result
        (AppendsFilePrefix (K.held sink.old) (K.held sink.new) session list.now.messages closed) }
    ensures failures { Counts (K.failed sink.old) (K.failed sink.new) result }
{
    let mut buffer = WriteBuffer::new();
    buffer.keep(&head(session, closed, list.len() as u64));
    for message in list.iter() {
        put_block(&mut buffer, sink, message)?;
    }
    buffer.flush(sink)
}

/// Writes these messages as a file of version 2 to the start of the buffer, and returns the file's length.
pub fn put_file(bytes: &mut [u8], session: Session, closed: bool, list: &MessageList) -> usize
    requires messages { AreMessages MAX_MESSAGE list.now.messages }
    requires room { file_length list.now.messages ≤ length bytes.old }
    ensures put { PutsFile bytes.old bytes.new session list.now.messages closed result }
    ensures size { result ≡ file_length list.now.messages }
{
    put_after(bytes, 0, &head(session, closed, list.len() as u64));
    let mut used = HEAD_LENGTH;
    for message in list.iter() {
        put_after(bytes, used, &length_of(message));
        used += LENGTH_BYTES;
        put_after(bytes, used, message);
        used += message.len();
    }
    used
}
