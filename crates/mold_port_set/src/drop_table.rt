//! The system's table of UDP sockets, which has the number of datagrams dropped at each.

ghost use Rattle.std.specs.Prelude.{◌≡◌, length};

use crate::row::Row;
use std::fs::{File, Files};
use std::os::unix::fs::FileExt;

/// The table of the sockets of the process's own network namespace.
const TABLE: &str = "/proc/self/net/udp";

/// The number of bytes of a read. The system gives at most a page.
const PIECE: usize = 4096;

/// The most reads of one pass over the table.
const READS: u32 = 1 << 20;

/// A socket and the number of datagrams that were dropped at it.
#[derive(Clone, Copy)]
pub(crate) struct Drops {
    /// The system's number of the socket, or `None` if it is not known.
    pub(crate) socket: Option<u64>,
    /// The number of datagrams, or `None` if the table had no row of the socket yet.
    pub(crate) count: Option<u64>,
}

/// The table, or nothing if the system has none.
#[derive(Drop)]
pub(crate) struct DropTable {
    file: Option<File>,
}

impl DropTable {
    /// Opens the table.
    pub(crate) fn open<R: Files<File = File>>(rt: &R) -> DropTable {
        DropTable {
            file: File::open(rt, TABLE).ok(),
        }
    }

    /// Reads the table and updates the counts of these sockets. A socket that has no row keeps its count.
    pub(crate) fn update(&self, sockets: &mut [Drops])
        ensures { length sockets.new ≡ length sockets.old }
    {
        let Some(file) = &self.file else {
            return;
        };
        let mut row = Row::new();
        let mut piece = [0u8; PIECE];
        let mut offset = 0u64;
        for _ in 0..READS {
            match file.read_at(&mut piece, offset) {
                Ok(count) if count > 0 => {
                    take_piece(&mut row, &piece[..count], sockets);
                    offset = offset.saturating_add(count as u64);
                }
                _ => return,
            }
        }
    }
}

fn take_piece(row: &mut Row, piece: &[u8], sockets: &mut [Drops])
    ensures { length sockets.new ≡ length sockets.old }
{
    for byte in piece {
        if let Some((socket, count)) = row.take(*byte) {
            note(sockets, socket, count);
        }
    }
}

fn note(sockets: &mut [Drops], socket: u64, count: u64)
    ensures { length sockets.new ≡ length sockets.old }
{
    for known in sockets {
        if known.socket == Some(socket) {
            known.count = Some(count);
        }
    }
}
