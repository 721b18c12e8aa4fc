//! The table of the program's commands and options, with their help texts.

/// How an option is given.
#[derive(Clone, Copy)]
pub enum Kind {
    /// A flag, which has no value.
    Flag,
    /// An option with a value, which may be left out.
    Optional,
    /// An option with a value, which may be given several times, or left out.
    Repeated,
    /// An option with a value, which must be given.
    Required,
    /// An option with a value, which must be given, and may be given several times.
    RequiredRepeated,
    /// A positional argument, which may be left out.
    Word,
}

/// An option of a command, or a positional argument.
#[derive(Clone, Copy)]
pub struct OptionRow {
    /// The name. On the command line two dashes precede it, unless it is a positional argument.
    pub name: &'static str,
    /// How it is given.
    pub kind: Kind,
    /// Its lines of help.
    pub help: &'static str,
}

/// A command of the program.
#[derive(Clone, Copy)]
pub struct CommandRow {
    /// The name.
    pub name: &'static str,
    /// What the command does, in one line of help.
    pub about: &'static str,
    /// Its options, in the order in which help lists them.
    pub options: &'static [OptionRow],
    /// The end of its help: an example of a call.
    pub example: &'static str,
}

/// Returns the name of an option's value in help and in faults.
pub(crate) fn value_name(option: &str) -> &'static str {
    match option {
        "session" => "NAME",
        "a" | "b" | "server" | "bind" => "ADDRESS",
        "journal" | "to" | "capture" => "FILE",
        "folder" => "FOLDER",
        _ => ip_name(option),
    }
}

// For the prover, the functions that follow are apart from `value_name`: the cost of a `match` over texts grows with
// the square of their number.

// Returns the name of an option's value that is an address without a port.
fn ip_name(option: &str) -> &'static str {
    match option {
        "source-a" | "source-b" | "interface-a" | "interface-b" | "group" => "IP",
        _ => time_name(option),
    }
}

// Returns the name of an option's value that is a time.
fn time_name(option: &str) -> &'static str {
    match option {
        "patience" => "US",
        "timeout" | "ceiling" | "idle" | "linger" => "MS",
        "quiet" | "stats" => "SECONDS",
        _ => number_name(option),
    }
}

// Returns the name of an option's value that is another number.
fn number_name(option: &str) -> &'static str {
    match option {
        "limit" | "server-limit" => "BYTES",
        "window" | "rate" => "MESSAGES",
        "burst" => "PACKETS",
        "next" | "from" => "NUMBER",
        "port" => "PORT",
        "ttl" => "HOPS",
        "store" => "MIB",
        _ => "COUNT",
    }
}

const SESSION: OptionRow = OptionRow {
    name: "session",
    kind: Kind::Required,
    help: "The session's name, 1 to 10 characters from space to ~",
};

// The maximum length of a datagram.
const LIMIT: OptionRow = OptionRow {
    name: "limit",
    kind: Kind::Optional,
    help: "The maximum size of a packet in bytes, 64 to 65507 [default: 1400]",
};

// The maximum length of a response.
const SERVER_LIMIT: OptionRow = OptionRow {
    name: "server-limit",
    kind: Kind::Optional,
    help: "The maximum size of a response in bytes, 64 to 65507 [default: 1400]\n\
        It is at least the limit",
};

const WINDOW: OptionRow = OptionRow {
    name: "window",
    kind: Kind::Optional,
    help: "How many messages ahead can be stored, 1 to 65536 [default: 1024]",
};

// The maximum number of responses to a request.
const BURST: OptionRow = OptionRow {
    name: "burst",
    kind: Kind::Optional,
    help: "The maximum number of responses to a request, 1 to 64 [default: 1]",
};

// Reads new records of the journal file, which another process writes.
const FOLLOW: OptionRow = OptionRow {
    name: "follow",
    kind: Kind::Flag,
    help: "Read the records of a file in version 3 that another process adds",
};

// Writes text at the end of each turn, for a reader who follows it.
const LIVE: OptionRow = OptionRow {
    name: "live",
    kind: Kind::Flag,
    help: "Write output at the end of each turn instead of buffering it",
};

const REPORT: OptionRow = OptionRow {
    name: "report",
    kind: Kind::Flag,
    help: "Report the datagrams, refusals and lag of lines A and B\n\
        before the last line of output",
};

// Reads message blocks in place of lines.
const BLOCKS: OptionRow = OptionRow {
    name: "blocks",
    kind: Kind::Flag,
    help: "Read message blocks (BinaryFILE). A block is the length of a message\n\
        in two bytes, most significant first, and the message",
};

// Prints message blocks in place of lines.
const BLOCKS_OUT: OptionRow = OptionRow {
    name: "blocks",
    kind: Kind::Flag,
    help: "Print messages as message blocks (BinaryFILE), and all other text on\n\
        standard error",
};

// Reads and prints message blocks in place of lines.
const BLOCKS_BOTH: OptionRow = OptionRow {
    name: "blocks",
    kind: Kind::Flag,
    help: "Read and print message blocks (BinaryFILE), and print all other text\n\
        on standard error",
};

// Ends the input of blocks before the first empty one.
const END_AT_EMPTY: OptionRow = OptionRow {
    name: "end-at-empty",
    kind: Kind::Flag,
    help: "End the input of --blocks before its first empty block, which must exist",
};

// Ends the output of blocks with an empty one.
const END_AT_EMPTY_OUT: OptionRow = OptionRow {
    name: "end-at-empty",
    kind: Kind::Flag,
    help: "End the output of --blocks with an empty block if the status is 0; end\n\
        with status 2 before an empty message",
};

// Ends the input of blocks before the first empty one, and their output with an empty one.
const END_AT_EMPTY_BOTH: OptionRow = OptionRow {
    name: "end-at-empty",
    kind: Kind::Flag,
    help: "End the input of --blocks before its first empty block, and the\n\
        output with an empty block if the session is finished",
};

const CAPTURE_HELP: &str =
    "The capture file, pcap or pcapng; - reads standard input. May be given\n\
    several times. The files are read one after the other";

// Reads captures in place of the command's other input.
const CAPTURE: OptionRow = OptionRow {
    name: "capture",
    kind: Kind::Repeated,
    help: CAPTURE_HELP,
};

// Filters the datagrams of captures by their destination port.
const PORT: OptionRow = OptionRow {
    name: "port",
    kind: Kind::Repeated,
    help: "Read only datagrams that are sent to this UDP port, 1 to 65535. May be\n\
        given several times",
};

// Filters the datagrams of captures by their destination address.
const GROUP: OptionRow = OptionRow {
    name: "group",
    kind: Kind::Repeated,
    help: "Read only datagrams that are sent to this IPv4 or IPv6 address. May be\n\
        given several times",
};

// Reads a folder, or lines, in place of captures.
const FOLDER: OptionRow = OptionRow {
    name: "folder",
    kind: Kind::Word,
    help: "The folder; each of its files whose name ends in .pkt is a datagram\n\
        - reads datagrams as lines of hexadecimal digits on standard input\n\
        Required unless --capture is given",
};

// The sequence number of the first message.
const FROM: OptionRow = OptionRow {
    name: "from",
    kind: Kind::Optional,
    help: "The number of the first message, 1 to 18446744073709551615 [default: 1]",
};

// The maximum number of messages.
const COUNT: OptionRow = OptionRow {
    name: "count",
    kind: Kind::Optional,
    help: "The maximum number of messages, 0 to 18446744073709551615 [default: all]",
};

// Filters the datagrams of captures by their session.
const SESSION_OF_CAPTURE: OptionRow = OptionRow {
    name: "session",
    kind: Kind::Optional,
    help: "Read only datagrams of this session, 1 to 10 characters from space to ~",
};

// The commands, in the order in which help lists them. For the prover, each one is a static: the cost of a function
// that names a static grows with the square of the number of texts in it.

/// The command `show`.
pub static SHOW: CommandRow = CommandRow {
    name: "show",
    about: "Print packets given as lines of hexadecimal digits on standard input or in captures",
    options: &[
        OptionRow {
            name: "request",
            kind: Kind::Flag,
            help: "Read each line as a request packet",
        },
        CAPTURE,
        PORT,
        GROUP,
        SESSION_OF_CAPTURE,
    ],
    example: "Example:\n  echo 53455353494f4e30303100000000000000010002000241420000 | mold show\
            \n  mold show --capture day.pcap --port 26477",
};

/// The command `pack`.
pub static PACK: CommandRow = CommandRow {
    name: "pack",
    about: "Pack messages from standard input and print the packets",
    options: &[
        SESSION,
        LIMIT,
        OptionRow {
            name: "journal",
            kind: Kind::Optional,
            help: "The file to save a journal in instead of printing packets",
        },
        BLOCKS,
        END_AT_EMPTY,
    ],
    example: "Example:\n  printf '4142\\n4344\\n' | mold pack --session SESSION001",
};

/// The command `sim`.
pub static SIM: CommandRow = CommandRow {
    name: "sim",
    about: "Run a script of events from standard input and print what each event does",
    options: &[
        SESSION,
        LIMIT,
        SERVER_LIMIT,
        WINDOW,
        OptionRow {
            name: "receivers",
            kind: Kind::Optional,
            help: "The number of receivers, 1 to 8 [default: 2]",
        },
        BURST,
    ],
    example: "Example:\n  printf '%s\\n' 'publish 41' datagram 'deliver 0 a 0' | mold sim --session SESSION001",
};

/// The command `check`.
pub static CHECK: CommandRow = CommandRow {
    name: "check",
    about: "Report whether captured datagrams are one whole session",
    options: &[
        FOLDER,
        CAPTURE,
        PORT,
        GROUP,
        SESSION_OF_CAPTURE,
        OptionRow {
            name: "journal",
            kind: Kind::Optional,
            help: "Write the messages of a whole session to a new journal",
        },
        OptionRow {
            name: "each",
            kind: Kind::Flag,
            help: "Check every session by itself",
        },
        OptionRow {
            name: "digest",
            kind: Kind::Flag,
            help: "Keep a digest of 16 bytes for each message, not the message",
        },
    ],
    example: "Example:\n  mold check captures\
            \n  mold check --capture day.pcap --group 239.192.1.1 --port 26477",
};

/// The command `extract`.
pub static EXTRACT: CommandRow = CommandRow {
    name: "extract",
    about: "Write the messages of captured datagrams to a file",
    options: &[
        FOLDER,
        CAPTURE,
        PORT,
        GROUP,
        SESSION_OF_CAPTURE,
        OptionRow {
            name: "to",
            kind: Kind::Required,
            help: "The file to write, which is created or replaced",
        },
        OptionRow {
            name: "blocks",
            kind: Kind::Flag,
            help: "Write message blocks (BinaryFILE). No message may be missing between\n\
                    the first and the last one",
        },
        OptionRow {
            name: "lines",
            kind: Kind::Flag,
            help: "Write each message as a line: its number, and its bytes in hexadecimal\n\
                    digits. One of --blocks and --lines is required",
        },
        FROM,
        COUNT,
    ],
    example: "Example:\n  mold extract --capture day.pcap --group 239.192.1.1 --port 26477 \\\
            \n    --to messages --blocks",
};

/// The command `sessions`.
pub static SESSIONS: CommandRow = CommandRow {
    name: "sessions",
    about: "List the destinations and the sessions of the datagrams in captures",
    options: &[
        OptionRow {
            name: "capture",
            kind: Kind::RequiredRepeated,
            help: CAPTURE_HELP,
        },
        PORT,
        GROUP,
    ],
    example: "Example:\n  mold sessions --capture day.pcap",
};

/// The command `publish`.
pub static PUBLISH: CommandRow = CommandRow {
    name: "publish",
    about: "Publish messages from standard input on two lines",
    options: &[
        SESSION,
        LIMIT,
        OptionRow {
            name: "a",
            kind: Kind::Required,
            help: "The address that line A is sent to, such as 127.0.0.1:9000",
        },
        OptionRow {
            name: "b",
            kind: Kind::Required,
            help: "The address that line B is sent to",
        },
        OptionRow {
            name: "journal",
            kind: Kind::Required,
            help: "The file to save the journal in",
        },
        OptionRow {
            name: "beats",
            kind: Kind::Optional,
            help: "The number of heartbeats after the messages, 0 to 1000 [default: 1]",
        },
        OptionRow {
            name: "ends",
            kind: Kind::Optional,
            help: "The number of end packets after the heartbeats, 0 to 1000 [default: 1]",
        },
        BLOCKS,
        END_AT_EMPTY,
    ],
    example: "Example:\n  mold publish --session SESSION001 --a 127.0.0.1:9001 --b 127.0.0.1:9002 \\\
            \n    --journal day.journal < messages",
};

/// The command `feed`.
pub static FEED: CommandRow = CommandRow {
    name: "feed",
    about: "Publish messages from standard input as they come, and serve requests",
    options: &[
        SESSION,
        LIMIT,
        OptionRow {
            name: "a",
            kind: Kind::Required,
            help: "The address that line A is sent to, such as 239.192.1.1:26477",
        },
        OptionRow {
            name: "b",
            kind: Kind::Optional,
            help: "The same for line B, if there is one",
        },
        OptionRow {
            name: "interface-a",
            kind: Kind::Optional,
            help: "The IPv4 address of this machine that line A is sent from\n\
                    [default: 0.0.0.0, the system chooses one]",
        },
        OptionRow {
            name: "interface-b",
            kind: Kind::Optional,
            help: "The same for line B",
        },
        OptionRow {
            name: "ttl",
            kind: Kind::Optional,
            help: "The TTL of datagrams to multicast groups, 0 to 255 [default: 1]",
        },
        OptionRow {
            name: "journal",
            kind: Kind::Required,
            help: "The file to keep the session in. If it exists, the session is continued",
        },
        OptionRow {
            name: "append",
            kind: Kind::Flag,
            help: "Read only new messages. Without --append the input begins with the\n\
                    messages that an existing file has",
        },
        OptionRow {
            name: "bind",
            kind: Kind::Optional,
            help: "The address to receive requests on, such as 127.0.0.1:9000",
        },
        BURST,
        OptionRow {
            name: "rate",
            kind: Kind::Optional,
            help: "The maximum number of messages in a second, 0 to 10000000 [default: 0]\n\
                    0 sets no maximum",
        },
        OptionRow {
            name: "idle",
            kind: Kind::Optional,
            help: "The time without a datagram after which a heartbeat is sent, in\n\
                    milliseconds, 0 to 60000 [default: 1000]. 0 sends none",
        },
        OptionRow {
            name: "beats",
            kind: Kind::Optional,
            help: "The number of heartbeats after the messages, 0 to 1000 [default: 1]",
        },
        OptionRow {
            name: "ends",
            kind: Kind::Optional,
            help: "The number of end packets after the heartbeats, 0 to 1000 [default: 1]",
        },
        OptionRow {
            name: "open",
            kind: Kind::Flag,
            help: "Leave the session open at the end of the input, and send no end packets",
        },
        OptionRow {
            name: "linger",
            kind: Kind::Optional,
            help: "How long requests are served after the end of the input, in\n\
                    milliseconds, 0 to 86400000 [default: 10000 with --bind, otherwise 0]",
        },
        BLOCKS,
        END_AT_EMPTY,
    ],
    example: "Example:\n  mold feed --session SESSION001 --a 127.0.0.1:9001 --b 127.0.0.1:9002 \\\
            \n    --journal day.journal --bind 127.0.0.1:9003 < messages",
};

/// The command `serve`.
pub static SERVE: CommandRow = CommandRow {
    name: "serve",
    about: "Serve requests for messages of a journal file",
    options: &[
        OptionRow {
            name: "journal",
            kind: Kind::Required,
            help: "The journal file",
        },
        FOLLOW,
        LIMIT,
        BURST,
        OptionRow {
            name: "bind",
            kind: Kind::Required,
            help: "The address to receive requests on, such as 127.0.0.1:9000",
        },
        OptionRow {
            name: "turns",
            kind: Kind::Optional,
            help: "The number of turns, 1 to 1000000 [default: 1000, with --follow no bound]\n\
                    A turn is one receive, which waits at most 100 ms",
        },
        LIVE,
    ],
    example: "Example:\n  mold serve --journal day.journal --bind 127.0.0.1:9003 --turns 1000000",
};

/// The command `listen`.
pub static LISTEN: CommandRow = CommandRow {
    name: "listen",
    about: "Receive a session on two lines, request what is missing, and print the messages",
    options: &[
        SESSION,
        OptionRow {
            name: "next",
            kind: Kind::Optional,
            help: "The sequence number to start at, 1 to 9223372036854775807 [default: 1]",
        },
        WINDOW,
        OptionRow {
            name: "a",
            kind: Kind::Required,
            help: "The address to receive line A on, such as 127.0.0.1:9000",
        },
        OptionRow {
            name: "b",
            kind: Kind::Required,
            help: "The address to receive line B on",
        },
        OptionRow {
            name: "server",
            kind: Kind::Required,
            help: "The address that requests are sent to",
        },
        BURST,
        OptionRow {
            name: "turns",
            kind: Kind::Optional,
            help: "The maximum number of turns, 1 to 1000000 [default: 1000]\n\
                    A turn makes one receive on A and one on B, and sends one request if\n\
                    messages are missing; each receive waits at most 100 ms",
        },
        LIVE,
        REPORT,
        BLOCKS_OUT,
        END_AT_EMPTY_OUT,
    ],
    example: "Example:\n  mold listen --session SESSION001 --a 127.0.0.1:9001 --b 127.0.0.1:9002 \\\
            \n    --server 127.0.0.1:9003 --turns 1000000 > received",
};

/// The command `receive`.
pub static RECEIVE: CommandRow = CommandRow {
    name: "receive",
    about: "Receive a session on one or two lines, repair its gaps, and print the messages",
    options: &[
        OptionRow {
            name: "session",
            kind: Kind::Optional,
            help: "The session's name, 1 to 10 characters from space to ~",
        },
        OptionRow {
            name: "learn",
            kind: Kind::Flag,
            help: "Receive the session of the first data packet or heartbeat,\n\
                    in place of --session",
        },
        OptionRow {
            name: "next",
            kind: Kind::Optional,
            help: "The sequence number to start at, 1 to 9223372036854775807 [default: 1]",
        },
        OptionRow {
            name: "from-now",
            kind: Kind::Flag,
            help: "Start at the sequence number of the first data packet or heartbeat of\n\
                    the session, in place of --next",
        },
        OptionRow {
            name: "a",
            kind: Kind::Required,
            help: "The address to receive line A on, such as 127.0.0.1:9000, or fd:N for\n\
                    an open UDP socket with descriptor N, 3 to 1023; mold-join opens\n\
                    sockets that receive multicast groups",
        },
        OptionRow {
            name: "b",
            kind: Kind::Optional,
            help: "The same for line B, if there is one",
        },
        OptionRow {
            name: "source-a",
            kind: Kind::Optional,
            help: "Ignore datagrams on line A from all senders except this IPv4 address",
        },
        OptionRow {
            name: "source-b",
            kind: Kind::Optional,
            help: "The same for line B",
        },
        OptionRow {
            name: "server",
            kind: Kind::Repeated,
            help: "An address that requests are sent to. May be given up to 8 times",
        },
        OptionRow {
            name: "any-responder",
            kind: Kind::Flag,
            help: "Accept responses from all senders. Without --any-responder, responses\n\
                    are ignored unless their sender has the IPv4 address of a --server",
        },
        OptionRow {
            name: "window",
            kind: Kind::Optional,
            help: "How many messages ahead can be stored, 1 to 1048576 [default: 1048576]",
        },
        OptionRow {
            name: "store",
            kind: Kind::Optional,
            help: "The maximum size of the stored messages in MiB, 1 to 1048576\n\
                    [default: 1024]. What exceeds it is dropped, and requested later",
        },
        OptionRow {
            name: "patience",
            kind: Kind::Optional,
            help: "How long a message is missing before it is requested, in microseconds,\n\
                    200 to 1000000 [default: adaptive]",
        },
        OptionRow {
            name: "timeout",
            kind: Kind::Optional,
            help: "How long a request waits for its response before the next one, in\n\
                    milliseconds, 1 to 60000 [default: 50]",
        },
        OptionRow {
            name: "ceiling",
            kind: Kind::Optional,
            help: "The maximum to which the timeout doubles, in milliseconds, 1 to 600000\n\
                    [default: 1000]. It is at least the timeout",
        },
        OptionRow {
            name: "requests",
            kind: Kind::Optional,
            help: "The maximum number of requests in a second, 1 to 1000000\n\
                    [default: 1000]",
        },
        OptionRow {
            name: "in-flight",
            kind: Kind::Optional,
            help: "The maximum number of requests in flight, 1 to 4096 [default: 256]",
        },
        OptionRow {
            name: "give-up",
            kind: Kind::Optional,
            help: "The number of unanswered requests after which the first missing\n\
                    message is given up, 0 to 1000 [default: 0]. 0 never gives up",
        },
        OptionRow {
            name: "audit",
            kind: Kind::Optional,
            help: "The number of delivered messages that later copies are compared with,\n\
                    0 to 1048576 [default: 65536]",
        },
        OptionRow {
            name: "quiet",
            kind: Kind::Optional,
            help: "End after this time without an accepted datagram, 0 to 86400\n\
                    [default: 0]. 0 never ends",
        },
        OptionRow {
            name: "stats",
            kind: Kind::Optional,
            help: "The time between two lines of statistics on standard error, 0 to 86400\n\
                    [default: 0]. 0 prints none",
        },
        OptionRow {
            name: "journal",
            kind: Kind::Optional,
            help: "The file to keep the session in, instead of printing its messages. If\n\
                    it exists, the session is continued",
        },
        OptionRow {
            name: "no-sync",
            kind: Kind::Flag,
            help: "Do not wait for the disk. If the machine fails, the file of --journal\n\
                    can't be continued",
        },
        BLOCKS_OUT,
        END_AT_EMPTY_OUT,
    ],
    example: "Example:\n  mold receive --session SESSION001 --a 127.0.0.1:9001 --b 127.0.0.1:9002 \\\
            \n    --server 127.0.0.1:9003 > received",
};

/// The command `loop`.
pub static LOOP: CommandRow = CommandRow {
    name: "loop",
    about: "Publish, serve and listen in one process over ports of 127.0.0.1",
    options: &[
        SESSION,
        LIMIT,
        SERVER_LIMIT,
        WINDOW,
        BURST,
        OptionRow {
            name: "drop-a",
            kind: Kind::Optional,
            help: "Drop every COUNT-th data packet on line A, 0 to 1000 [default: 0]\n\
                    0 drops none",
        },
        OptionRow {
            name: "drop-b",
            kind: Kind::Optional,
            help: "Drop every COUNT-th data packet on line B, 0 to 1000 [default: 0]\n\
                    0 drops none",
        },
        OptionRow {
            name: "turns",
            kind: Kind::Optional,
            help: "The maximum number of rounds of requests, 1 to 1000000 [default: 1000]",
        },
        REPORT,
        BLOCKS_BOTH,
        END_AT_EMPTY_BOTH,
    ],
    example: "Example:\n  printf '4142\\n4344\\n' | mold loop --session SESSION001 --drop-a 1 --drop-b 1",
};

/// The command `upgrade`.
pub static UPGRADE: CommandRow = CommandRow {
    name: "upgrade",
    about: "Write a journal file anew, in version 2 of the format",
    options: &[
        OptionRow {
            name: "journal",
            kind: Kind::Required,
            help: "The file to read",
        },
        OptionRow {
            name: "to",
            kind: Kind::Required,
            help: "The file to write, which is created or replaced",
        },
        OptionRow {
            name: "close",
            kind: Kind::Flag,
            help: "Close the journal",
        },
    ],
    example: "Example:\n  mold upgrade --journal old.journal --to new.journal",
};

/// The command `close`.
pub static CLOSE: CommandRow = CommandRow {
    name: "close",
    about: "Close a journal file of version 3",
    options: &[OptionRow {
        name: "journal",
        kind: Kind::Required,
        help: "The journal file",
    }],
    example: "Example:\n  mold close --journal day.journal",
};

/// The command `dump`.
pub static DUMP: CommandRow = CommandRow {
    name: "dump",
    about: "Print the messages of a journal file",
    options: &[
        OptionRow {
            name: "journal",
            kind: Kind::Required,
            help: "The journal file",
        },
        FOLLOW,
        FROM,
        COUNT,
        OptionRow {
            name: "blocks",
            kind: Kind::Flag,
            help: "Print message blocks (BinaryFILE) instead of lines of hexadecimal digits,\n\
                    and refusals on standard error",
        },
        OptionRow {
            name: "end-at-empty",
            kind: Kind::Flag,
            help: "End the output of --blocks with an empty block if the journal is closed and\n\
                    printed to its end; refuse an empty message",
        },
    ],
    example: "Example:\n  mold dump --journal day.journal | mold publish --session SESSION001 \\\
            \n    --a 127.0.0.1:9001 --b 127.0.0.1:9002 --journal new.journal",
};
