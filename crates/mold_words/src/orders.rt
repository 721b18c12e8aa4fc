//! Makes the order of the command that a parse found.

ghost use Rattle.std.specs.Prelude.{◌≡◌, ◌⊎◌, ◌≤◌, MatchResult, None, Some, false, length, map, not, true};
ghost use Rattle.clap.specs.Words.{found_of, rows_of, subcommand_rows_of};
ghost use Rattle.mold_words.specs.NoOrders.{LacksOrder, LacksValue, is_address};
ghost use Rattle.mold_words.specs.Orders.{check_of, close_of, dump_of, excludes_journal, extract_of, feed_of, is_blocks};
ghost use Rattle.mold_words.specs.Orders.{kept_in, lacks_address, listen_in, listen_of, loop_of, order_at, order_in, pack_of};
ghost use Rattle.mold_words.specs.Orders.{port_order_at, publish_of, receive_in, receive_of, received, serve_of};
ghost use Rattle.mold_words.specs.Orders.{sessions_of, show_of, sim_of, upgrade_of};
ghost use Rattle.mold_words.specs.Addresses.{address_view};
ghost use Rattle.mold_words.specs.Arguments.{line_options_view, listen_options_view, receive_view};
ghost use Rattle.mold_words.specs.Arguments.{receiver_options_view, request_options_view, start_options_view, view};

use crate::address::Address;
use crate::address_checks::check_addresses;
use crate::capture_options::{captures_in, check_unfiltered, is_given};
use crate::check_order::CheckOrder;
use crate::close_order::CloseOrder;
use crate::dump_order::DumpOrder;
use crate::extract_order::ExtractOrder;
use crate::feed_options::{address_or_none, feed_times_in, sent_lines_in};
use crate::feed_order::FeedOrder;
use crate::input_options::{form_in, input_in, judging_in};
use crate::line_options::LineOptions;
use crate::listen_options::ListenOptions;
use crate::listen_order::ListenOrder;
use crate::loop_order::LoopOrder;
use crate::no_order::NoOrder;
use crate::options::{
    address_in, bound_in, burst_in, count_in, file_in, flag_in, follow_in, format_in, from_in,
    journal_in, limit_in, live_in, local_in, number_in, published_in, report_in, required_in,
    session_in, text_in, turns_in, window_in,
};
use crate::pack_journal_order::PackJournalOrder;
use crate::pack_order::PackOrder;
use crate::publish_order::PublishOrder;
use crate::receive_options::{lines_in, receiver_in, requests_in, servers_in, session_start_in};
use crate::receive_order::ReceiveOrder;
use crate::receiver_options::ReceiverOptions;
use crate::record_order::RecordOrder;
use crate::request_options::RequestOptions;
use crate::serve_order::ServeOrder;
use crate::sim_order::SimOrder;
use crate::start_options::StartOptions;
use crate::types::Order;
use crate::upgrade_order::UpgradeOrder;
use clap::ArgMatches;
use mold_input::MessageFormat;
use std::alloc::Global;

/// The greatest sequence number that a listener may start at.
const MAX_NEXT: u64 = 9_223_372_036_854_775_807;

/// Returns the order of the command that the parse found. Without a command it is the order to show packets.
pub(crate) fn order_from(alloc: Global, matches: &ArgMatches<'_>) -> Result<Order, NoOrder>
    ensures { MatchResult result
        (λ order. order_in (subcommand_rows_of matches.now) ≡ Some (view order))
        (λ none. (none ≡ NoOrder.Memory) ⊎ ((order_in (subcommand_rows_of matches.now) ≡ None)
        × (is_address none ≡ lacks_address (subcommand_rows_of matches.now)))) }
{
    match matches.subcommand() {
        Some((name, options)) => {
            check_addresses(name, options)?;
            order_at(alloc, name, options)
        }
        None => Ok(Order::Show { request: false }),
    }
}

// Returns the order of the command over ports that has this name. For the prover, this is apart from `order_at`: the
// cost of a `match` over texts grows with the square of their number.
#[tactic(auto, unfolding(crate::specs::Orders::port_order_at))]
fn port_order_at(alloc: Global, name: &str, options: &ArgMatches<'_>) -> Result<Order, NoOrder>
    ensures { MatchResult result
        (λ order. port_order_at name.now (rows_of (found_of options.now)) ≡ Some (view order))
        (LacksOrder (port_order_at name.now (rows_of (found_of options.now)))) }
{
    match name {
        "publish" => publish_order(alloc, options),
        "feed" => feed_order(alloc, options),
        "serve" => serve_order(alloc, options),
        "listen" => listen_order(options),
        "receive" => receive_order(alloc, options),
        "loop" => loop_order(options),
        _ => Err(NoOrder::Command),
    }
}

// Returns the order of the command of this name.
#[tactic(auto, unfolding(crate::specs::Orders::order_at))]
fn order_at(alloc: Global, name: &str, options: &ArgMatches<'_>) -> Result<Order, NoOrder>
    ensures { MatchResult result
        (λ order. order_at name.now (rows_of (found_of options.now)) ≡ Some (view order))
        (LacksOrder (order_at name.now (rows_of (found_of options.now)))) }
{
    match name {
        "show" => show_order(alloc, options),
        "pack" => pack_order(alloc, options),
        "sim" => sim_order(options),
        "check" => check_order(alloc, options),
        "extract" => extract_order(alloc, options),
        "sessions" => sessions_order(alloc, options),
        "upgrade" => upgrade_order(alloc, options),
        "close" => close_order(alloc, options),
        "dump" => dump_order(alloc, options),
        _ => port_order_at(alloc, name, options),
    }
}

#[tactic(auto, unfolding(crate::specs::Orders::show_of))]
fn show_order(alloc: Global, options: &ArgMatches<'_>) -> Result<Order, NoOrder>
    ensures { MatchResult result
        (λ order. show_of (rows_of (found_of options.now)) ≡ Some (view order))
        (LacksOrder (show_of (rows_of (found_of options.now)))) }
{
    let request = flag_in(options, "request");
    if !is_given(options, "capture") {
        check_unfiltered(options)?;
        return Ok(Order::Show { request });
    }
    if request {
        return Err(NoOrder::Both {
            first: "request",
            second: "capture",
        });
    }
    Ok(Order::ShowCaptures(captures_in(alloc, options)?))
}

#[tactic(auto, unfolding(crate::specs::Orders::pack_of))]
fn pack_order(alloc: Global, options: &ArgMatches<'_>) -> Result<Order, NoOrder>
    ensures { MatchResult result
        (λ order. pack_of (rows_of (found_of options.now)) ≡ Some (view order))
        (LacksOrder (pack_of (rows_of (found_of options.now)))) }
{
    let session = session_in(options)?;
    let limit = limit_in(options, "limit")?;
    let input = format_in(options)?;
    let pack = PackOrder {
        session,
        limit,
        input,
    };
    match text_in(options, "journal") {
        None => Ok(Order::Pack(pack)),
        Some(journal) => Ok(Order::PackJournal(PackJournalOrder {
            pack,
            journal: String::from_str(alloc, journal)?,
        })),
    }
}

#[tactic(auto, unfolding(crate::specs::Orders::upgrade_of))]
fn upgrade_order(alloc: Global, options: &ArgMatches<'_>) -> Result<Order, NoOrder>
    ensures { MatchResult result
        (λ order. upgrade_of (rows_of (found_of options.now)) ≡ Some (view order))
        (LacksOrder (upgrade_of (rows_of (found_of options.now)))) }
{
    let journal = required_in(options, "journal")?;
    let to = required_in(options, "to")?;
    if journal == to {
        return Err(NoOrder::SameFiles);
    }
    Ok(Order::Upgrade(UpgradeOrder {
        journal: String::from_str(alloc, journal)?,
        to: String::from_str(alloc, to)?,
        close: flag_in(options, "close"),
    }))
}

#[tactic(auto, unfolding(crate::specs::Orders::close_of))]
fn close_order(alloc: Global, options: &ArgMatches<'_>) -> Result<Order, NoOrder>
    ensures { MatchResult result
        (λ order. close_of (rows_of (found_of options.now)) ≡ Some (view order))
        (LacksOrder (close_of (rows_of (found_of options.now)))) }
{
    let journal = journal_in(alloc, options)?;
    Ok(Order::Close(CloseOrder { journal }))
}

#[tactic(auto, unfolding(crate::specs::Orders::dump_of))]
fn dump_order(alloc: Global, options: &ArgMatches<'_>) -> Result<Order, NoOrder>
    ensures { MatchResult result
        (λ order. dump_of (rows_of (found_of options.now)) ≡ Some (view order))
        (LacksOrder (dump_of (rows_of (found_of options.now)))) }
{
    let from = from_in(options)?;
    let count = count_in(options)?;
    let output = format_in(options)?;
    let journal = journal_in(alloc, options)?;
    Ok(Order::Dump(DumpOrder {
        journal,
        follow: follow_in(options),
        from,
        count,
        output,
    }))
}

#[tactic(auto, unfolding(crate::specs::Orders::sim_of))]
fn sim_order(options: &ArgMatches<'_>) -> Result<Order, NoOrder>
    ensures { MatchResult result
        (λ order. sim_of (rows_of (found_of options.now)) ≡ Some (view order))
        (LacksOrder (sim_of (rows_of (found_of options.now)))) }
{
    let local = local_in(options)?;
    let session = local.session;
    let receivers = number_in(options, "receivers", 2, 1, 8)?;
    Ok(Order::Sim(SimOrder {
        session,
        limits: local.limits,
        window: local.window,
        receivers: receivers as usize,
        burst: local.burst,
    }))
}

#[tactic(auto, unfolding(crate::specs::Orders::check_of))]
fn check_order(alloc: Global, options: &ArgMatches<'_>) -> Result<Order, NoOrder>
    ensures { MatchResult result
        (λ order. check_of (rows_of (found_of options.now)) ≡ Some (view order))
        (LacksOrder (check_of (rows_of (found_of options.now)))) }
{
    let judging = judging_in(alloc, options)?;
    let input = input_in(alloc, options)?;
    Ok(Order::Check(CheckOrder { input, judging }))
}

#[tactic(auto, unfolding(crate::specs::Orders::extract_of))]
fn extract_order(alloc: Global, options: &ArgMatches<'_>) -> Result<Order, NoOrder>
    ensures { MatchResult result
        (λ order. extract_of (rows_of (found_of options.now)) ≡ Some (view order))
        (LacksOrder (extract_of (rows_of (found_of options.now)))) }
{
    let from = from_in(options)?;
    let count = count_in(options)?;
    let form = form_in(options)?;
    let to = file_in(alloc, options, "to")?;
    let input = input_in(alloc, options)?;
    Ok(Order::Extract(ExtractOrder {
        input,
        to,
        form,
        from,
        count,
    }))
}

#[tactic(auto, unfolding(crate::specs::Orders::sessions_of))]
fn sessions_order(alloc: Global, options: &ArgMatches<'_>) -> Result<Order, NoOrder>
    ensures { MatchResult result
        (λ order. sessions_of (rows_of (found_of options.now)) ≡ Some (view order))
        (LacksOrder (sessions_of (rows_of (found_of options.now)))) }
{
    Ok(Order::Sessions(captures_in(alloc, options)?))
}

#[tactic(auto, unfolding(crate::specs::Orders::publish_of))]
fn publish_order(alloc: Global, options: &ArgMatches<'_>) -> Result<Order, NoOrder>
    ensures { MatchResult result
        (λ order. publish_of (rows_of (found_of options.now)) ≡ Some (view order))
        (LacksOrder (publish_of (rows_of (found_of options.now)))) }
{
    let published = published_in(options)?;
    let session = published.session;
    let a = address_in(options, "a")?;
    let b = address_in(options, "b")?;
    let input = format_in(options)?;
    let journal = journal_in(alloc, options)?;
    Ok(Order::Publish(PublishOrder {
        session,
        limit: published.limit,
        a,
        b,
        journal,
        beats: published.beats,
        ends: published.ends,
        input,
    }))
}

#[tactic(auto, unfolding(crate::specs::Orders::feed_of))]
fn feed_order(alloc: Global, options: &ArgMatches<'_>) -> Result<Order, NoOrder>
    ensures { MatchResult result
        (λ order. feed_of (rows_of (found_of options.now)) ≡ Some (view order))
        (LacksOrder (feed_of (rows_of (found_of options.now)))) }
{
    let published = published_in(options)?;
    let session = published.session;
    let lines = sent_lines_in(options)?;
    let bind = address_or_none(options, "bind")?;
    let burst = burst_in(options)?;
    let times = feed_times_in(options)?;
    let append = flag_in(options, "append");
    let open = flag_in(options, "open");
    let input = format_in(options)?;
    let journal = journal_in(alloc, options)?;
    Ok(Order::Feed(FeedOrder {
        session,
        limit: published.limit,
        lines,
        journal,
        append,
        bind,
        burst,
        times,
        input,
        beats: published.beats,
        ends: published.ends,
        open,
    }))
}

#[tactic(auto, unfolding(crate::specs::Orders::serve_of))]
fn serve_order(alloc: Global, options: &ArgMatches<'_>) -> Result<Order, NoOrder>
    ensures { MatchResult result
        (λ order. serve_of (rows_of (found_of options.now)) ≡ Some (view order))
        (LacksOrder (serve_of (rows_of (found_of options.now)))) }
{
    let limit = limit_in(options, "limit")?;
    let burst = burst_in(options)?;
    let bind = address_in(options, "bind")?;
    let turns = bound_in(options)?;
    let journal = journal_in(alloc, options)?;
    Ok(Order::Serve(ServeOrder {
        journal,
        follow: follow_in(options),
        limit,
        burst,
        bind,
        turns,
        live: live_in(options),
    }))
}

// Returns the options of `listen` apart from its addresses and its output.
#[tactic(auto, unfolding(crate::specs::Orders::listen_in))]
fn listen_in(options: &ArgMatches<'_>) -> Result<ListenOptions, NoOrder>
    ensures { MatchResult result
        (λ listen. listen_in (rows_of (found_of options.now)) ≡ Some (listen_options_view listen))
        (LacksValue (listen_in (rows_of (found_of options.now)))) }
{
    let session = session_in(options)?;
    let next = number_in(options, "next", 1, 1, MAX_NEXT)?;
    let window = window_in(options)?;
    let burst = burst_in(options)?;
    let turns = turns_in(options)?;
    Ok(ListenOptions {
        session,
        next,
        window,
        burst,
        turns,
    })
}

#[tactic(auto, unfolding(crate::specs::Orders::listen_of))]
fn listen_order(options: &ArgMatches<'_>) -> Result<Order, NoOrder>
    ensures { MatchResult result
        (λ order. listen_of (rows_of (found_of options.now)) ≡ Some (view order))
        (LacksOrder (listen_of (rows_of (found_of options.now)))) }
{
    let listen = listen_in(options)?;
    let session = listen.session;
    let a = address_in(options, "a")?;
    let b = address_in(options, "b")?;
    let server = address_in(options, "server")?;
    let format = format_in(options)?;
    Ok(Order::Listen(ListenOrder {
        session,
        next: listen.next,
        window: listen.window,
        a,
        b,
        server,
        burst: listen.burst,
        turns: listen.turns,
        live: live_in(options),
        report: report_in(options),
        output: format,
    }))
}

// Returns the order of `receive` with the values of its groups of options.
fn received(
    start: StartOptions,
    lines: LineOptions,
    requests: RequestOptions,
    receiver: ReceiverOptions,
    servers: Vec<Address>,
) -> ReceiveOrder
    requires { length servers.items ≤ 8 }
    ensures { receive_view result ≡ received (start_options_view start) (line_options_view lines)
        (request_options_view requests) (receiver_options_view receiver) (map address_view servers.items) }
{
    ReceiveOrder {
        session: start.session,
        next: start.next,
        a: lines.a,
        b: lines.b,
        source_a: lines.source_a,
        source_b: lines.source_b,
        servers,
        any_responder: requests.any_responder,
        window: receiver.window,
        store: receiver.store,
        patience: requests.patience,
        timeout: requests.timeout,
        ceiling: requests.ceiling,
        requests: requests.requests,
        in_flight: requests.in_flight,
        give_up: requests.give_up,
        audit: receiver.audit,
        quiet: receiver.quiet,
        stats: receiver.stats,
        output: receiver.output,
    }
}

// Returns how `receive` receives, apart from a journal.
#[tactic(auto, unfolding(crate::specs::Orders::receive_in))]
fn receive_in(alloc: Global, options: &ArgMatches<'_>) -> Result<ReceiveOrder, NoOrder>
    ensures { MatchResult result
        (λ order. receive_in (rows_of (found_of options.now)) ≡ Some (receive_view order))
        (LacksOrder (receive_in (rows_of (found_of options.now)))) }
{
    let start = session_start_in(options)?;
    let lines = lines_in(options)?;
    let requests = requests_in(options)?;
    let receiver = receiver_in(options)?;
    let servers = servers_in(alloc, options)?;
    Ok(received(start, lines, requests, receiver, servers))
}

// Returns whether messages are printed as blocks.
fn is_blocks(output: MessageFormat) -> bool
    ensures { result ≡ is_blocks output }
{
    match output {
        MessageFormat::Lines => false,
        MessageFormat::Blocks | MessageFormat::BlocksToEmpty => true,
    }
}

// Checks that a receiver with these options can keep a journal.
fn check_kept(receive: &ReceiveOrder) -> Result<(), NoOrder>
    ensures { MatchResult result
        (λ done. excludes_journal (receive_view receive.now) ≡ false)
        (λ none. (excludes_journal (receive_view receive.now) ≡ true) × (is_address none ≡ false)) }
{
    match receive.next {
        Some(1) => {}
        Some(_) => return Err(NoOrder::NextWithJournal),
        None => {
            return Err(NoOrder::Both {
                first: "journal",
                second: "from-now",
            });
        }
    }
    if receive.give_up > 0 {
        return Err(NoOrder::GiveUpWithJournal);
    }
    if is_blocks(receive.output) {
        return Err(NoOrder::Both {
            first: "journal",
            second: "blocks",
        });
    }
    Ok(())
}

// Returns the order to keep a session in this journal.
fn record_order(
    alloc: Global,
    receive: ReceiveOrder,
    journal: &str,
    sync: bool,
) -> Result<Order, NoOrder>
    ensures { MatchResult result
        (λ order. kept_in (Some journal.now) (not sync) (receive_view receive) ≡ Some (view order))
        (LacksOrder (kept_in (Some journal.now) (not sync) (receive_view receive))) }
{
    check_kept(&receive)?;
    Ok(Order::Record(RecordOrder {
        receive,
        journal: String::from_str(alloc, journal)?,
        sync,
    }))
}

#[tactic(auto, unfolding(crate::specs::Orders::receive_of))]
fn receive_order(alloc: Global, options: &ArgMatches<'_>) -> Result<Order, NoOrder>
    ensures { MatchResult result
        (λ order. receive_of (rows_of (found_of options.now)) ≡ Some (view order))
        (LacksOrder (receive_of (rows_of (found_of options.now)))) }
{
    let receive = receive_in(alloc, options)?;
    let no_sync = flag_in(options, "no-sync");
    let Some(journal) = text_in(options, "journal") else {
        if no_sync {
            return Err(NoOrder::NoSyncWithoutJournal);
        }
        return Ok(Order::Receive(receive));
    };
    record_order(alloc, receive, journal, !no_sync)
}

#[tactic(auto, unfolding(crate::specs::Orders::loop_of))]
fn loop_order(options: &ArgMatches<'_>) -> Result<Order, NoOrder>
    ensures { MatchResult result
        (λ order. loop_of (rows_of (found_of options.now)) ≡ Some (view order))
        (LacksOrder (loop_of (rows_of (found_of options.now)))) }
{
    let local = local_in(options)?;
    let session = local.session;
    let drop_a = number_in(options, "drop-a", 0, 0, 1000)?;
    let drop_b = number_in(options, "drop-b", 0, 0, 1000)?;
    let turns = turns_in(options)?;
    let format = format_in(options)?;
    Ok(Order::Loop(LoopOrder {
        session,
        limits: local.limits,
        window: local.window,
        burst: local.burst,
        drop_a: drop_a as u32,
        drop_b: drop_b as u32,
        turns,
        report: report_in(options),
        format,
    }))
}
