//! A row of the system's table of UDP sockets.

/// The column of a socket's number, counted from 1.
const SOCKET_COLUMN: u8 = 10;

/// The column of the number of datagrams that the system dropped at the socket. It is the last column.
const DROPS_COLUMN: u8 = 13;

/// The part of a row that was read. Columns are separated by spaces, and a row ends with a line feed. Both numbers are
/// decimal.
#[derive(Drop)]
pub(crate) struct Row {
    column: u8,
    in_column: bool,
    number: u64,
    socket: u64,
}

impl Row {
    /// Returns the start of a row.
    pub(crate) fn new() -> Row {
        Row {
            column: 0,
            in_column: false,
            number: 0,
            socket: 0,
        }
    }

    /// Takes the next byte. At the end of a row it returns the socket's number and the number of its drops, unless it
    /// is the row of titles.
    pub(crate) fn take(&mut self, byte: u8) -> Option<(u64, u64)> {
        match byte {
            b'\n' => return self.end(),
            b' ' => self.end_column(),
            _ => self.take_in_column(byte),
        }
        None
    }

    fn take_in_column(&mut self, byte: u8) {
        if !self.in_column {
            self.in_column = true;
            self.column = self.column.saturating_add(1);
            self.number = 0;
        }
        let digit = byte.wrapping_sub(b'0');
        self.number = self
            .number
            .saturating_mul(10)
            .saturating_add(u64::from(digit));
    }

    fn end_column(&mut self) {
        self.in_column = false;
        if self.column == SOCKET_COLUMN {
            self.socket = self.number;
        }
    }

    fn end(&mut self) -> Option<(u64, u64)> {
        let found = (self.column == DROPS_COLUMN).then_some((self.socket, self.number));
        *self = Row::new();
        found
    }
}
