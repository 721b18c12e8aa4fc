//! The order of `mold receive`.

ghost use Rattle.std.proofs.Props.{props};
ghost use Rattle.std.specs.Prelude.{◌≡◌, ◌<◌, ◌≤◌, IfSome, is_some, length, true};
ghost use Rattle.std.specs.List.{list_all};
ghost use Rattle.mold_words.specs.LinePorts.{is_line_port};
ghost use Rattle.mold_words.specs.Values.{is_character};
ghost use Rattle.mold_wire.specs.declared.limits.TheConstants.{MAX_WIDE_WINDOW};

use crate::address::Address;
use crate::line_port::LinePort;
use mold_input::MessageFormat;

/// The session that `receive` receives on one or two lines, and how it repairs gaps.
#[derive(Drop)]
pub struct ReceiveOrder {
    /// The session's name in characters 20 to 7E (hexadecimal), padded with spaces on the right. `None` asks to receive
    /// the session of the first data packet or heartbeat.
    pub session: Option<[u8; 10]>,
    /// The sequence number of the first message that is printed, 1 to 9,223,372,036,854,775,807. `None` asks to start
    /// at the number of the first data packet or heartbeat of the session.
    pub next: Option<u64>,
    /// The port that receives line A.
    pub a: LinePort,
    /// The port that receives line B, if there is a second line.
    pub b: Option<LinePort>,
    /// The IPv4 address that sends line A. `None` accepts datagrams from all senders.
    pub source_a: Option<[u8; 4]>,
    /// The same for line B. It is `None` if there is no line B.
    pub source_b: Option<[u8; 4]>,
    /// The addresses that requests are sent to, at most 8, in the order in which they are given.
    pub servers: Vec<Address>,
    /// Whether responses are accepted from all senders. Otherwise the sender has the IPv4 address of a server.
    pub any_responder: bool,
    /// The receiver's window in messages, 1 to `MAX_WIDE_WINDOW`.
    pub window: u32,
    /// The maximum size of the stored messages, in MiB, 1 to 1,048,576.
    pub store: u32,
    /// How long a message is missing before it is requested, in microseconds, 200 to 1,000,000. With 0 it adapts to the
    /// delay between the lines.
    pub patience: u32,
    /// How long the first request for a message waits for its response, in milliseconds, 1 to 60,000.
    pub timeout: u32,
    /// The maximum to which the timeout doubles, in milliseconds, `timeout` to 600,000.
    pub ceiling: u32,
    /// The maximum number of requests in a second, 1 to 1,000,000.
    pub requests: u32,
    /// The maximum number of requests in flight, 1 to 4,096.
    pub in_flight: u32,
    /// The number of unanswered requests after which the first missing message is given up, 0 to 1,000. With 0 none is.
    pub give_up: u32,
    /// The number of delivered messages whose digests are kept for the audit, 0 to 1,048,576.
    pub audit: u32,
    /// The time without an accepted datagram after which `receive` ends, in seconds, 0 to 86,400. With 0 it does not
    /// end.
    pub quiet: u32,
    /// The time between two lines of statistics, in seconds, 0 to 86,400. With 0 none is printed.
    pub stats: u32,
    /// The format in which messages are printed. Among blocks, all other text is printed on standard error.
    pub output: MessageFormat,
    ghost named: { IfSome session (λ name. list_all is_character name ≡ true) } by { Prim.hlevel props },
    ghost first: { IfSome next (λ number. (1 ≤ number) × (number ≤ 9223372036854775807)) } by { Prim.hlevel props },
    ghost ported_a: { is_line_port a ≡ true },
    ghost ported_b: { IfSome b (λ port. is_line_port port ≡ true) } by { Prim.hlevel props },
    ghost sourced: { is_some source_b ≡ true → is_some b ≡ true },
    ghost served: { length servers.items ≤ 8 },
    ghost windowed: { (1 ≤ window) × (window ≤ MAX_WIDE_WINDOW) },
    ghost storing: { (1 ≤ store) × (store ≤ 1048576) },
    ghost patient: { (0 < patience → 200 ≤ patience) × (patience ≤ 1000000) },
    ghost timed: { (1 ≤ timeout) × (timeout ≤ 60000) },
    ghost doubling: { (timeout ≤ ceiling) × (ceiling ≤ 600000) },
    ghost asking: { (1 ≤ requests) × (requests ≤ 1000000) },
    ghost flying: { (1 ≤ in_flight) × (in_flight ≤ 4096) },
    ghost giving_up: { give_up ≤ 1000 },
    ghost audited: { audit ≤ 1048576 },
    ghost daily: { (quiet ≤ 86400) × (stats ≤ 86400) },
}
