//! The commands that read lines or message blocks from a source and write to a sink.

ghost use Rattle.std.specs.Prelude.{◌≡◌, IfOk, IfSome};
ghost use Rattle.std.specs.Io.KnownBytes.{Appends};
ghost use Rattle.mold_commands.specs.Command.{IsStreamed, sim_start, text, status};
ghost use Rattle.mold_devices.specs.Devices.{AppendsPrefix};
ghost use Rattle.mold_devices.specs.Faults.{CountsCommand};
ghost use Rattle.mold_session.specs.Publisher.{fresh_publisher};
ghost use Rattle.mold_show.specs.Pack.{pack_status, pack_text};

use mold_check::check_lines;
use mold_devices::{CommandFault, Sink, Source, run_lines};
use mold_input::{BlocksToEmpty, HexLines, MessageBlocks, MessageFormat};
use mold_show::{Pack, PackOptions, ShowPackets, ShowRequests};
use mold_sim::Sim;
use mold_wire::Session;
use mold_words::{CheckOrder, InputOrder, Judging, Order, PackOrder, SimOrder};
use std::alloc::{AllocError, Global};

/// Runs an order that reads a source (`IsStreamed`) over the whole input of the source, and returns the status.
///
/// The status is 0 if all lines or blocks were accepted, 2 if one was refused, 1 if `check -` finds a session incomplete.
///
/// After a fault, the output written is a prefix of the whole output. `Read` is returned only if the source failed,
/// `Write` only if the sink failed, and `Memory` only if an allocation failed.
pub fn run_command<S: Source, K: Sink>(
    alloc: Global,
    order: &Order,
    source: &mut S,
    sink: &mut K,
) -> Result<u8, CommandFault>
    requires { IsStreamed order.now }
    ensures whole { IfOk result (λ answer. IfSome (S.left source.old) (λ input.
        Appends (K.held sink.old) (K.held sink.new) (text order.now input)
        × (answer ≡ status order.now input))) }
    ensures front { IfSome (S.left source.old) (λ input.
        AppendsPrefix (K.held sink.old) (K.held sink.new) (text order.now input)) }
    ensures failures { CountsCommand (S.failed source.old) (S.failed source.new)
        (K.failed sink.old) (K.failed sink.new) result }
{
    match order {
        Order::Show { request: false } => {
            run_lines(alloc, &mut ShowPackets::new(alloc), source, sink)
        }
        Order::Show { request: true } => run_lines(alloc, &mut ShowRequests::new(), source, sink),
        Order::Pack(order) => run_pack(alloc, order, source, sink),
        Order::Sim(order) => run_lines(alloc, &mut sim_of(alloc, order)?, source, sink),
        Order::Check(
            CheckOrder {
                input: InputOrder::Lines,
                judging: Judging::Whole { digest: false },
            },
        ) => check_lines(alloc, source, sink),
        // The contract requires an order that reads the source.
        Order::PackJournal(_)
        | Order::Check(_)
        | Order::Extract(_)
        | Order::ShowCaptures(_)
        | Order::Sessions(_)
        | Order::Publish(_)
        | Order::Feed(_)
        | Order::Serve(_)
        | Order::Listen(_)
        | Order::Receive(_)
        | Order::Record(_)
        | Order::Loop(_)
        | Order::Upgrade(_)
        | Order::Close(_)
        | Order::Dump(_) => unreachable!(),
    }
}

// Runs the order of `pack`. The format of the input determines the reader of its messages.
fn run_pack<S: Source, K: Sink>(
    alloc: Global,
    order: &PackOrder,
    source: &mut S,
    sink: &mut K,
) -> Result<u8, CommandFault>
    ensures whole { IfOk result (λ answer. IfSome (S.left source.old) (λ input.
        Appends (K.held sink.old) (K.held sink.new)
        (pack_text order.now.input (record { 0 = order.now.session }) order.now.limit input)
        × (answer ≡ pack_status order.now.input (record { 0 = order.now.session }) order.now.limit input))) }
    ensures front { IfSome (S.left source.old) (λ input. AppendsPrefix (K.held sink.old) (K.held sink.new)
        (pack_text order.now.input (record { 0 = order.now.session }) order.now.limit input)) }
    ensures failures { CountsCommand (S.failed source.old) (S.failed source.new)
        (K.failed sink.old) (K.failed sink.new) result }
{
    match order.input {
        MessageFormat::Lines => {
            run_lines(alloc, &mut pack_of::<HexLines>(alloc, order)?, source, sink)
        }
        MessageFormat::Blocks => {
            run_lines(
                alloc,
                &mut pack_of::<MessageBlocks>(alloc, order)?,
                source,
                sink,
            )
        }
        MessageFormat::BlocksToEmpty => {
            run_lines(
                alloc,
                &mut pack_of::<BlocksToEmpty>(alloc, order)?,
                source,
                sink,
            )
        }
    }
}

// Returns the `pack` command of an order. Its messages are read by a reader `M`.
fn pack_of<M>(alloc: Global, order: &PackOrder) -> Result<Pack<M>, AllocError>
    ensures { IfOk result (λ pack.
        pack ≡ fresh_publisher (record { 0 = order.now.session }) order.now.limit) }
{
    let options = PackOptions {
        session: Session(order.session),
        limit: order.limit,
    };
    Pack::new(alloc, options)
}

// Returns the `sim` command of an order.
fn sim_of(alloc: Global, order: &SimOrder) -> Result<Sim, AllocError>
    ensures { IfOk result (λ sim. sim ≡ sim_start order.now) }
{
    Sim::new(
        alloc,
        Session(order.session),
        order.limits.limit,
        order.limits.server_limit,
        order.burst,
        order.window,
        order.receivers,
    )
}
