//! The calls of a storage, and of a file that another process writes.

use crate::calls::Calls;
use crate::report::{push_bytes, push_count, push_done, push_fault, push_syntax};
use crate::words::Words;
use mold_digits::decode;
use mold_durable::{GrowingFile, Storage};
use std::alloc::{AllocError, Global};

/// The most bytes of a read.
const MOST: u32 = 1 << 20;

/// A storage. The calls are `read AT COUNT`, `write AT BYTES`, `sync` and `failures`.
#[derive(Drop)]
pub(crate) struct StorageCalls<S> {
    storage: S,
    bytes: Vec<u8>,
}

/// A file that another process writes. The calls are `read AT COUNT`, `sync` and `failures`.
#[derive(Drop)]
pub(crate) struct FileCalls<F> {
    file: F,
    bytes: Vec<u8>,
}

// Makes room for the bytes of a read. Returns its offset, or `None` if the words state no read.
fn prepare(mut words: Words<'_>, bytes: &mut Vec<u8>) -> Result<Option<u64>, AllocError> {
    match (words.next_number(), words.next_small()) {
        (Some(at), Some(count)) => {
            bytes.clear();
            bytes.resize(count.min(MOST) as usize, 0)?;
            Ok(Some(at))
        }
        _ => Ok(None),
    }
}

impl<S: Storage> StorageCalls<S> {
    pub(crate) fn new(alloc: Global, storage: S) -> StorageCalls<S> {
        StorageCalls {
            storage,
            bytes: Vec::new(alloc),
        }
    }

    fn read(&mut self, words: Words<'_>, out: &mut Vec<u8>) -> Result<(), AllocError> {
        let Some(at) = prepare(words, &mut self.bytes)? else {
            return push_syntax(out);
        };
        match self.storage.read_at(at, self.bytes.as_mut_slice()) {
            Ok(count) => push_bytes(out, b"read", &self.bytes[..count]),
            Err(_) => push_fault(out),
        }
    }

    fn write(&mut self, mut words: Words<'_>, out: &mut Vec<u8>) -> Result<(), AllocError> {
        let Some(at) = words.next_number() else {
            return push_syntax(out);
        };
        if !decode(words.next_word(), &mut self.bytes)? {
            return push_syntax(out);
        }
        push_done(out, self.storage.write_at(at, self.bytes.as_slice()))
    }
}

impl<S: Storage> Calls for StorageCalls<S> {
    fn apply(&mut self, line: &[u8], out: &mut Vec<u8>) -> Result<(), AllocError> {
        let mut words = Words::new(line);
        match words.next_word() {
            b"read" => self.read(words, out),
            b"write" => self.write(words, out),
            b"sync" => push_done(out, self.storage.sync()),
            b"failures" => push_count(out, b"failures", self.storage.failures()),
            _ => push_syntax(out),
        }
    }
}

impl<F: GrowingFile> FileCalls<F> {
    pub(crate) fn new(alloc: Global, file: F) -> FileCalls<F> {
        FileCalls {
            file,
            bytes: Vec::new(alloc),
        }
    }

    fn read(&mut self, words: Words<'_>, out: &mut Vec<u8>) -> Result<(), AllocError> {
        let Some(at) = prepare(words, &mut self.bytes)? else {
            return push_syntax(out);
        };
        match self.file.read_at(at, self.bytes.as_mut_slice()) {
            Ok(count) => push_bytes(out, b"read", &self.bytes[..count]),
            Err(_) => push_fault(out),
        }
    }
}

impl<F: GrowingFile> Calls for FileCalls<F> {
    fn apply(&mut self, line: &[u8], out: &mut Vec<u8>) -> Result<(), AllocError> {
        let mut words = Words::new(line);
        match words.next_word() {
            b"read" => self.read(words, out),
            b"sync" => push_done(out, self.file.sync()),
            b"failures" => push_count(out, b"failures", self.file.failures()),
            _ => push_syntax(out),
        }
    }
}
