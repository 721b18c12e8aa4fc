//! The line of what an event did, and the line of each receiver at the end.

ghost use Rattle.std.specs.Prelude.{◌≡◌, ◌++◌, ◌∷◌, [], length, take, decimal, OnErr, OnOk, slice_get};
ghost use Rattle.mold_sim.specs.Reports.{burst_words, receiver_lines, report_words, some_receiver_line};
ghost use Rattle.mold_text.specs.Line.{line_of};
ghost use Rattle.mold_world.specs.declared.report.Report.TheVariants.{Delivered};

use mold_receiver::Taken;
use mold_text::{Word, push_line, push_refusal};
use mold_world::{Report, World};
use std::alloc::AllocError;

fn push_numbered<'a>(out: &mut Vec<u8>, name: &'a [u8], number: u64) -> Result<(), AllocError>
    ensures text { OnOk result (out.new.items ≡ out.old.items ++ line_of (name.now ∷ decimal number ∷ [])) }
    ensures kept { OnErr result (take (length out.old.items) out.new.items ≡ out.old.items) }
{
    push_line(out, &[Word::Text(name), Word::Number(number)])
}

fn push_burst(out: &mut Vec<u8>, first: usize, count: usize) -> Result<(), AllocError>
    ensures text { OnOk result (out.new.items ≡ out.old.items ++ line_of (burst_words first count)) }
    ensures kept { OnErr result (take (length out.old.items) out.new.items ≡ out.old.items) }
{
    if count < 2 {
        return push_numbered(out, b"sent", first as u64);
    }
    push_line(
        out,
        &[
            Word::Text(b"sent"),
            Word::Number(first as u64),
            Word::Text(b"to"),
            Word::LongNumber(first as u128 + count as u128 - 1),
        ],
    )
}

fn push_taken(out: &mut Vec<u8>, taken: Taken) -> Result<(), AllocError>
    ensures text { OnOk result (out.new.items ≡ out.old.items ++ line_of (report_words (Delivered taken))) }
    ensures kept { OnErr result (take (length out.old.items) out.new.items ≡ out.old.items) }
{
    push_line(
        out,
        &[
            Word::Text(b"delivered"),
            Word::Number(u64::from(taken.handed)),
            Word::Number(u64::from(taken.kept)),
            Word::Number(u64::from(taken.beyond)),
        ],
    )
}

/// Appends the line of what an event did.
pub fn push_report(out: &mut Vec<u8>, report: Report) -> Result<(), AllocError>
    ensures text { OnOk result (out.new.items ≡ out.old.items ++ line_of (report_words report)) }
    ensures kept { OnErr result (take (length out.old.items) out.new.items ≡ out.old.items) }
{
    match report {
        Report::Published { number } => push_numbered(out, b"published", number),
        Report::Sent { place } => push_numbered(out, b"sent", place as u64),
        Report::Burst { first, count } => push_burst(out, first, count),
        Report::Nothing => push_line(out, &[Word::Text(b"nothing")]),
        Report::Closed => push_line(out, &[Word::Text(b"closed")]),
        Report::Delivered(taken) => push_taken(out, taken),
        Report::NoiseRefused(why) => push_refusal(out, &[Word::Text(b"noise")], why),
        Report::Restarted { next } => push_numbered(out, b"restarted", next),
    }
}

// Appends the line of a receiver, or nothing if there is no such receiver.
fn push_receiver(out: &mut Vec<u8>, world: &World, r: usize) -> Result<(), AllocError>
    ensures text { OnOk result (out.new.items ≡
        out.old.items ++ some_receiver_line r (slice_get world.now.subscribers r)) }
    ensures kept { OnErr result (take (length out.old.items) out.new.items ≡ out.old.items) }
{
    let Some(receiver) = world.receiver(r) else {
        return Ok(());
    };
    let Some(book) = world.book(r) else {
        return Ok(());
    };
    let Some(finished) = world.finished(r) else {
        return Ok(());
    };
    let state = if finished {
        b"finished".as_slice()
    } else {
        b"open".as_slice()
    };
    push_line(
        out,
        &[
            Word::Text(b"receiver"),
            Word::Number(r as u64),
            Word::Text(b"next"),
            Word::Number(receiver.next()),
            Word::Text(b"known"),
            Word::Number(receiver.known()),
            Word::Text(b"book"),
            Word::Number(book.len() as u64),
            Word::Text(state),
        ],
    )
}

/// Appends a line for each receiver, in order.
pub fn push_receivers(out: &mut Vec<u8>, world: &World) -> Result<(), AllocError>
    ensures text { OnOk result (out.new.items ≡ out.old.items ++ receiver_lines 0 world.now.subscribers) }
    ensures kept { OnErr result (take (length out.old.items) out.new.items ≡ out.old.items) }
{
    'receivers: for r in 0..world.receivers() {
        push_receiver(out, world, r)?;
    }
    Ok(())
}
