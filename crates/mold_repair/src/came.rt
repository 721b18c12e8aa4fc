//! The numbers that a datagram brought.

ghost use Rattle.std.specs.Prelude.{◌≡◌, ◌≤◌, ◌⊎◌, ◌+◌, ◌∷◌, [], false};
ghost use Rattle.mold_wire.specs.Reading.{reading};
ghost use Rattle.mold_pacing.specs.declared.step.Step.TheVariants.{Arrive};
ghost use Rattle.mold_repair.specs.Came.{came_below, filled_steps, held_end, held_from, noted, noted_from, numbers};
ghost use Rattle.mold_repair.specs.Came.{response_steps};
ghost use Rattle.mold_repair.specs.Front.{HasGap, IsFront, NoneSpans};
ghost use Rattle.mold_repair.specs.declared.origin.RepairOrigin.TheVariants.{Server};
ghost use Rattle.mold_repair.specs.Taking.{HasLearned};
ghost use Rattle.mold_repair.specs.Timing.{is_timed};

use crate::front::Front;
use crate::header::Head;
use crate::options::RepairOptions;
use crate::origin::RepairOrigin;
use mold_pacing::{Flight, Gap, Pacer};
use mold_receiver::Arbiter;
use mold_wire::decode;

/// Returns the numbers of the datagram's messages. The range is empty if the datagram has no message.
pub(crate) fn numbers_of(datagram: &[u8]) -> Gap
    ensures { result ≡ numbers (reading datagram.now) }
{
    let Ok(packet) = decode(datagram) else {
        return Gap { first: 0, end: 0 };
    };
    Gap {
        first: packet.sequence,
        end: packet.top().unwrap_or(u64::MAX),
    }
}

// Returns the numbers of the datagram's messages that are below `next` plus `window`. The range is empty if the
// datagram has no message, or all are past the window.
fn came_below(datagram: &[u8], next: u64, window: u32) -> Gap
    ensures { result ≡ came_below (next + window) (reading datagram.now) }
{
    let came = numbers_of(datagram);
    let end = next.saturating_add(u64::from(window));
    Gap {
        first: came.first,
        end: came.end.min(end),
    }
}

// Returns the first number at or above `from` that is missing, or one more than the greatest known number.
fn held_end(arbiter: &Arbiter, from: u64) -> u64
    ensures { result ≡ held_end arbiter.now.view from }
{
    let receiver = arbiter.receiver();
    let next = receiver.next();
    if from < next {
        return next;
    }
    match arbiter.next_missing(from) {
        Some(gap) => gap.first,
        None => receiver.known().max(from),
    }
}

// Reports to the pacer that the numbers from `first` on arrived, up to the first missing one.
fn report_from(arbiter: &Arbiter, pacer: &mut Pacer, first: u64)
    ensures learned { HasLearned pacer.old pacer.new (Arrive (held_from arbiter.now.view first) ∷ []) }
    ensures now { pacer.new.state.now ≡ pacer.old.state.now }
    ensures options { pacer.new.options ≡ pacer.old.options }
{
    // Most datagrams of a line are above all requests. They need no look at what is missing.
    if pacer.none_begins_from(first) {
        return;
    }
    pacer.arrive(Gap {
        first,
        end: held_end(arbiter, first),
    });
}

// Reports to the pacer which numbers of the request arrived, from its first one on.
fn report_filled(arbiter: &Arbiter, pacer: &mut Pacer, request: Option<Flight>)
    ensures learned { HasLearned pacer.old pacer.new (filled_steps arbiter.now.view request) }
    ensures now { pacer.new.state.now ≡ pacer.old.state.now }
    ensures options { pacer.new.options ≡ pacer.old.options }
{
    let Some(request) = request else {
        return;
    };
    report_from(arbiter, pacer, request.first);
}

// Reports to the pacer that these numbers arrived, if a server sent them.
fn report_response(pacer: &mut Pacer, origin: RepairOrigin, came: Gap)
    ensures learned { HasLearned pacer.old pacer.new (response_steps origin came) }
    ensures now { pacer.new.state.now ≡ pacer.old.state.now }
    ensures options { pacer.new.options ≡ pacer.old.options }
{
    let RepairOrigin::Server(server) = origin else {
        return;
    };
    pacer.respond(server, came);
}

// Reports to the pacer what a datagram with these numbers brought. A request is no longer in flight if they were the
// last of its numbers that were missing.
fn report(arbiter: &Arbiter, pacer: &mut Pacer, origin: RepairOrigin, came: Gap)
    ensures learned { HasLearned pacer.old pacer.new (noted_from origin came arbiter.now.view pacer.old.state.now
        pacer.old.flights.items) }
    ensures now { pacer.new.state.now ≡ pacer.old.state.now }
    ensures options { pacer.new.options ≡ pacer.old.options }
{
    if came.first >= came.end {
        return;
    }
    let request = pacer.request_for(came.first);
    report_response(pacer, origin, came);
    report_from(arbiter, pacer, came.first);
    report_filled(arbiter, pacer, request);
}

// Returns the numbers that a datagram brought.
fn came_of(arbiter: &Arbiter, datagram: &[u8]) -> Gap
    ensures { result ≡ came_below (arbiter.now.view.next + arbiter.now.view.window) (reading datagram.now) }
{
    let receiver = arbiter.receiver();
    came_below(datagram, receiver.next(), receiver.window())
}

// Returns whether a request in flight can begin below this number and end above it. If it can't, the result is false.
fn is_spanned(pacer: &Pacer, number: u64) -> bool
    ensures { result ≡ false → NoneSpans pacer.now.flights.items pacer.now.state.now number }
{
    if number == 0 {
        return false;
    }
    if pacer.request_for(number - 1).is_none() {
        return false;
    }
    pacer.request_for(number).is_some()
}

// Returns which number of the front is left after a response with these numbers.
fn number_left(arbiter: &Arbiter, pacer: &Pacer, number: u64, came: Gap) -> u64
    ensures few { result ≤ number }
    ensures begins { (result ≡ 0)
        ⊎ (NoneSpans pacer.now.flights.items pacer.now.state.now came.first × HasGap arbiter.now.view came) }
{
    if is_spanned(pacer, came.first) {
        return 0;
    }
    if held_end(arbiter, came.first) < came.end {
        return 0;
    }
    number
}

// Returns which time of the front is left after a response with these numbers.
fn until_left(pacer: &Pacer, until: u64, came: Gap) -> u64
    ensures short { result ≤ until }
    ensures ends { (result ≤ pacer.now.state.now + pacer.now.options.settle)
        ⊎ NoneSpans pacer.now.flights.items pacer.now.state.now came.end }
{
    if is_spanned(pacer, came.end) {
        return until.min(pacer.settles());
    }
    until
}

/// Reports to the pacer what a response brought that was accepted. Returns what it leaves of the front.
pub(crate) fn note_response(
    arbiter: &Arbiter,
    pacer: &mut Pacer,
    front: Front,
    server: u32,
    datagram: &[u8],
) -> Front
    requires { IsFront arbiter.now.view pacer.old.flights.items front.number front.until }
    ensures noted { HasLearned pacer.old pacer.new (noted (Server server) datagram.now arbiter.now.view
        pacer.old.state.now pacer.old.flights.items) }
    ensures front { IsFront arbiter.now.view pacer.new.flights.items result.number result.until }
    ensures now { pacer.new.state.now ≡ pacer.old.state.now }
    ensures options { pacer.new.options ≡ pacer.old.options }
{
    let came = came_of(arbiter, datagram);
    let number = number_left(arbiter, pacer, front.number, came);
    let until = until_left(pacer, front.until, came);
    report(arbiter, pacer, RepairOrigin::Server(server), came);
    Front { number, until }
}

/// Reports to the pacer what a datagram brought that was accepted.
pub(crate) fn note(arbiter: &Arbiter, pacer: &mut Pacer, origin: RepairOrigin, datagram: &[u8])
    ensures noted { HasLearned pacer.old pacer.new (noted origin datagram.now arbiter.now.view pacer.old.state.now
        pacer.old.flights.items) }
    ensures now { pacer.new.state.now ≡ pacer.old.state.now }
    ensures options { pacer.new.options ≡ pacer.old.options }
{
    let came = came_of(arbiter, datagram);
    report(arbiter, pacer, origin, came);
}

/// Returns whether a datagram with this head counts for the delays between the lines.
pub(crate) fn is_timed(options: &RepairOptions, origin: RepairOrigin, head: Head) -> bool
    ensures { result ≡ is_timed options.now origin head }
{
    options.patience == 0 && origin.is_line() && head.first != head.end
}
