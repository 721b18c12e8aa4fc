//! The verdict of a checker.

/// A range of sequence numbers.
#[derive(Clone, Copy, Debug, PartialEq, Eq)]
pub struct Range {
    /// The first number of the range.
    pub first: u64,
    /// The last number, which belongs to the range.
    pub last: u64,
}

/// Whether datagrams come from one whole session.
#[derive(Debug, PartialEq, Eq, Drop)]
pub enum Verdict {
    /// One session explains the datagrams, an end packet is among them, and each message is carried. No other
    /// list of messages does so.
    Whole {
        /// The number of messages in the session.
        messages: u64,
    },
    /// A session explains the datagrams, but they are not a whole session.
    Incomplete {
        /// The longest ranges of numbers that no packet carries, from 1 up to, but not including, the largest
        /// top. They are in ascending order.
        missing: Vec<Range>,
        /// The sequence number of the end packet, which is one more than the number of messages. It is `None`
        /// if no end packet is among the datagrams.
        end: Option<u64>,
    },
}
