//! A buffer that gathers bytes into large writes to a sink.

ghost use Rattle.std.specs.Prelude.{◌≡◌, ◌+◌, ◌≤◌, ◌++◌, [], length, OnOk, OnErr};
ghost use Rattle.std.specs.Io.KnownBytes.{Appends};
ghost use Rattle.mold_devices.specs.Devices.{AppendsPrefix, Counts};
ghost use Rattle.mold_devices.specs.Writing.{Moves};

use mold_devices::{DeviceFault, Sink, write_all};
use std::marker::Model;

/// The size of the buffer, in bytes.
const ROOM: usize = 65536;

/// Gathers bytes, so that they are written in large writes. It has a fixed size and allocates nothing.
#[derive(Drop)]
pub(crate) struct BlockBuffer {
    bytes: [u8; ROOM],
    used: usize,
}

impl Model for BlockBuffer {
    ghost use Rattle.std.specs.Prelude.{◌≡◌, ◌≤◌, ℕ, List, take, length};

    ghost Value = { List ℕ };

    ghost view = { λ b. take b.used b.bytes };

    ghost invariant = { λ b. (b.used ≤ 65536) × (length b.bytes ≡ 65536) };
}

impl BlockBuffer {
    /// Returns an empty buffer.
    pub(crate) fn new() -> BlockBuffer
        ensures { result ≡ [] }
    {
        BlockBuffer {
            bytes: [0; ROOM],
            used: 0,
        }
    }

    /// Appends `text` to the kept bytes.
    #[inline(always)]
    pub(crate) fn keep(&mut self, text: &[u8])
        requires { length self.old + length text.now ≤ 65536 }
        ensures { self.new ≡ self.old ++ text.now }
    {
        let end = self.used + text.len();
        self.bytes[self.used..end].copy_from_slice(text);
        self.used = end;
    }

    /// Writes the kept bytes. After a fault, a prefix of them was written.
    pub(crate) fn flush<K: Sink>(&mut self, sink: &mut K) -> Result<(), DeviceFault>
        ensures whole { OnOk result (Appends (K.held sink.old) (K.held sink.new) self.old) }
        ensures empty { OnOk result (self.new ≡ []) }
        ensures front { OnErr result (AppendsPrefix (K.held sink.old) (K.held sink.new) self.old) }
        ensures failures { Counts (K.failed sink.old) (K.failed sink.new) result }
    {
        write_all(sink, &self.bytes[..self.used])?;
        self.used = 0;
        Ok(())
    }

    /// Puts `text` after the kept bytes. If it doesn't fit into the buffer, the kept bytes are written first.
    /// If it is longer than the buffer, it is then written directly. After a fault, a prefix of the kept bytes
    /// followed by `text` was written.
    #[inline(always)]
    pub(crate) fn put<K: Sink>(&mut self, sink: &mut K, text: &[u8]) -> Result<(), DeviceFault>
        ensures moved { OnOk result (Moves (K.held sink.old) (K.held sink.new) (self.old ++ text.now) self.new) }
        ensures front { OnErr result (AppendsPrefix (K.held sink.old) (K.held sink.new) (self.old ++ text.now)) }
        ensures failures { Counts (K.failed sink.old) (K.failed sink.new) result }
    {
        if text.len() <= ROOM - self.used {
            self.keep(text);
            return Ok(());
        }
        self.flush(sink)?;
        if text.len() > ROOM {
            return write_all(sink, text);
        }
        self.keep(text);
        Ok(())
    }
}
