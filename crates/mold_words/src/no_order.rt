//! The reasons why arguments that `clap` accepts give no order.

ghost use Rattle.std.specs.Prelude.{◌≡◌, is_err, true};

use crate::table::value_name;
use std::alloc::{AllocError, Global};

/// Why arguments that `clap` accepts give no order.
#[derive(Clone, Copy)]
pub(crate) enum NoOrder {
    /// The command is not one of the program's.
    Command,
    /// This option has no value.
    Missing {
        name: &'static str,
    },
    /// The value of `--session` is not a session name.
    Session,
    /// The value of this option is not a number in its range.
    Number {
        name: &'static str,
        least: u64,
        most: u64,
    },
    /// The value of this option is not an address.
    Address {
        name: &'static str,
    },
    /// The value of this option is neither an address nor a descriptor.
    LinePort {
        name: &'static str,
    },
    /// The value of this option is a multicast group.
    Group {
        name: &'static str,
    },
    /// The value of this option is not an IPv4 address.
    Host {
        name: &'static str,
    },
    /// A value of this option is not an address of IPv4 or IPv6.
    Ip {
        name: &'static str,
    },
    /// Neither a session nor `--learn` is given.
    NoSession,
    /// Both of these options are given, which exclude each other.
    Both {
        first: &'static str,
        second: &'static str,
    },
    /// `--source-b` is given without `--b`.
    SourceWithoutLine,
    /// `--interface-b` is given without `--b`.
    InterfaceWithoutLine,
    /// More servers are given than `MAX_SERVERS`.
    TooManyServers,
    /// The ceiling is below the timeout.
    Ceiling,
    /// The server's limit is below the publisher's.
    ServerLimit,
    /// The two file names are equal.
    SameFiles,
    /// `--end-at-empty` is given without `--blocks`.
    EndWithoutBlocks,
    /// `--no-sync` is given without `--journal`.
    NoSyncWithoutJournal,
    /// `--next` is above 1, and `--journal` is given.
    NextWithJournal,
    /// `--give-up` is above 0, and `--journal` is given.
    GiveUpWithJournal,
    /// Neither a folder nor `--capture` is given.
    NoFolder,
    /// Neither `--blocks` nor `--lines` is given.
    NoForm,
    /// Both a folder and `--capture` are given.
    FolderWithCapture,
    /// This option is given without `--capture`.
    FilterWithoutCapture {
        name: &'static str,
    },
    /// `--capture -` is given more than once.
    InputTwice,
    /// An allocation failed.
    Memory,
}

impl From<AllocError> for NoOrder {
    ghost use Rattle.std.specs.Prelude.{◌≡◌};
    ghost use Rattle.mold_words.specs.declared.no_order.NoOrder.TheVariants.{Memory};

    ghost from_gives = { λ _ none. none ≡ Memory };

    fn from(_error: AllocError) -> NoOrder {
        NoOrder::Memory
    }
}

// Returns the text for an option that has no value.
fn missing_value(alloc: Global, name: &'static str) -> Result<String, AllocError> {
    let value = value_name(name);
    format!(in alloc; "error: '--{name} <{value}>' has no value\n")
}

// Returns the text for an invalid value of an option.
fn invalid_value(alloc: Global, name: &'static str, reason: &str) -> Result<String, AllocError> {
    let value = value_name(name);
    format!(in alloc; "error: invalid value for '--{name} <{value}>': {reason}\n")
}

// Returns the text for a value of an option that is not a number in its range.
fn invalid_number(
    alloc: Global,
    name: &'static str,
    least: u64,
    most: u64,
) -> Result<String, AllocError> {
    let value = value_name(name);
    format!(in alloc;
        "error: invalid value for '--{name} <{value}>': not a number from {least} to {most}\n"
    )
}

impl NoOrder {
    ghost use Rattle.mold_words.specs.NoOrders.{is_address};

    /// Whether the reason is a value that is not an address.
    pub(crate) fn is_address(self) -> bool
        ensures { result ≡ is_address self }
    {
        matches!(
            self,
            NoOrder::Address { name: _ }
                | NoOrder::LinePort { name: _ }
                | NoOrder::Group { name: _ }
                | NoOrder::Host { name: _ }
                | NoOrder::Ip { name: _ }
        )
    }

    /// Returns the text for the user, in whole lines.
    pub(crate) fn text(self, alloc: Global) -> Result<String, AllocError>
        ensures { self ≡ NoOrder.Memory → is_err result ≡ true }
    {
        match self {
            NoOrder::Missing { name } => missing_value(alloc, name),
            NoOrder::Session => {
                invalid_value(alloc, "session", "not 1 to 10 characters from space to ~")
            }
            NoOrder::Number { name, least, most } => invalid_number(alloc, name, least, most),
            NoOrder::Address { name }
            | NoOrder::LinePort { name }
            | NoOrder::Group { name }
            | NoOrder::Host { name }
            | NoOrder::Ip { name } => invalid_value(alloc, name, self.address_reason()),
            NoOrder::FilterWithoutCapture { name } => {
                format!(in alloc; "error: '--{name}' requires '--capture'\n")
            }
            NoOrder::Both { first, second } => {
                format!(in alloc; "error: '--{first}' and '--{second}' exclude each other\n")
            }
            NoOrder::Memory => Err(AllocError),
            NoOrder::Command
            | NoOrder::NoSession
            | NoOrder::SourceWithoutLine
            | NoOrder::InterfaceWithoutLine
            | NoOrder::TooManyServers
            | NoOrder::Ceiling
            | NoOrder::ServerLimit
            | NoOrder::SameFiles
            | NoOrder::EndWithoutBlocks
            | NoOrder::NoSyncWithoutJournal
            | NoOrder::NextWithJournal
            | NoOrder::GiveUpWithJournal
            | NoOrder::NoFolder
            | NoOrder::NoForm
            | NoOrder::FolderWithCapture
            | NoOrder::InputTwice => String::from_str(alloc, self.fixed_text()),
        }
    }

    // Returns why a value is not the address that its option takes. It is empty for other reasons.
    fn address_reason(self) -> &'static str {
        match self {
            NoOrder::Address { name: _ } => "not an address such as 127.0.0.1:9000",
            NoOrder::LinePort { name: _ } => {
                "not an address such as 127.0.0.1:9000, and not fd:3 to fd:1023"
            }
            NoOrder::Group { name: _ } => "a multicast group, which mold-join joins",
            NoOrder::Host { name: _ } => "not an IPv4 address such as 127.0.0.1",
            NoOrder::Ip { name: _ } => "not an address such as 239.192.1.1 or ff02::1",
            _ => "",
        }
    }

    // Returns the text of a reason that names its options itself. It is empty for other reasons.
    fn fixed_text(self) -> &'static str {
        match self {
            NoOrder::Command => "error: no command of the program\n",
            NoOrder::NoSession => "error: '--session' or '--learn' is required\n",
            NoOrder::SourceWithoutLine => "error: '--source-b' requires '--b'\n",
            NoOrder::InterfaceWithoutLine => "error: '--interface-b' requires '--b'\n",
            NoOrder::TooManyServers => "error: '--server' is given more than 8 times\n",
            NoOrder::Ceiling => "error: '--ceiling' is below '--timeout'\n",
            NoOrder::ServerLimit => "error: '--server-limit' is below '--limit'\n",
            NoOrder::SameFiles => "error: '--journal' and '--to' name one file\n",
            NoOrder::EndWithoutBlocks => "error: '--end-at-empty' requires '--blocks'\n",
            NoOrder::NoSyncWithoutJournal => "error: '--no-sync' requires '--journal'\n",
            NoOrder::NextWithJournal =>
                "error: '--next' above 1 and '--journal' exclude each other\n",
            NoOrder::GiveUpWithJournal => {
                "error: '--give-up' above 0 and '--journal' exclude each other\n"
            }
            NoOrder::NoFolder => "error: '<FOLDER>' or '--capture' is required\n",
            NoOrder::NoForm => "error: '--blocks' or '--lines' is required\n",
            NoOrder::FolderWithCapture => "error: '<FOLDER>' and '--capture' exclude each other\n",
            NoOrder::InputTwice => "error: '--capture -' is given more than once\n",
            _ => "",
        }
    }
}
