//! The order: the parsed command line.

use crate::capture_order::CaptureOrder;
use crate::check_order::CheckOrder;
use crate::close_order::CloseOrder;
use crate::dump_order::DumpOrder;
use crate::extract_order::ExtractOrder;
use crate::feed_order::FeedOrder;
use crate::listen_order::ListenOrder;
use crate::loop_order::LoopOrder;
use crate::pack_journal_order::PackJournalOrder;
use crate::pack_order::PackOrder;
use crate::publish_order::PublishOrder;
use crate::receive_order::ReceiveOrder;
use crate::record_order::RecordOrder;
use crate::serve_order::ServeOrder;
use crate::sim_order::SimOrder;
use crate::upgrade_order::UpgradeOrder;

/// The parsed command line. There is one variant for each command, and two for `show`, `pack` and `receive`.
#[derive(Drop)]
pub enum Order {
    /// Prints the packets on standard input, each given as a line of hexadecimal digits.
    Show {
        /// Whether each line is read as a request.
        request: bool,
    },
    /// Prints the packets of a session as lines of hexadecimal digits. Its messages are read from standard input.
    Pack(PackOrder),
    /// Saves the same messages as a journal in a file, and prints no packets.
    PackJournal(PackJournalOrder),
    /// Runs a script of events from standard input, and prints the result of each event.
    Sim(SimOrder),
    /// Checks whether datagrams are those of complete sessions.
    Check(CheckOrder),
    /// Writes the messages of such datagrams to a file.
    Extract(ExtractOrder),
    /// Prints the packets of the datagrams of captures.
    ShowCaptures(CaptureOrder),
    /// Prints the sessions of the datagrams of captures, with their destinations.
    Sessions(CaptureOrder),
    /// Sends a session, whose messages are read from standard input, on two lines. Saves its journal.
    Publish(PublishOrder),
    /// Keeps a session, whose messages are read from standard input, in a durable journal, sends it on one or two lines,
    /// and responds to requests.
    Feed(FeedOrder),
    /// Responds to requests from a journal file.
    Serve(ServeOrder),
    /// Prints the messages of a session that is received on two lines, and requests the missing ones.
    Listen(ListenOrder),
    /// Prints the messages of a session that is received on one or two lines, and repairs gaps in the time that its
    /// options give.
    Receive(ReceiveOrder),
    /// Keeps the messages of such a session in a journal file, and prints none.
    Record(RecordOrder),
    /// Publishes a session, whose messages are read from standard input, and receives it in the same process.
    Loop(LoopOrder),
    /// Writes the journal of one file to another one, in version 2 of the format.
    Upgrade(UpgradeOrder),
    /// Closes the journal of a file of version 3.
    Close(CloseOrder),
    /// Prints the messages of a journal file, each as a line of hexadecimal digits.
    Dump(DumpOrder),
}
