//! Adds new messages to those of the accepted datagrams.

ghost use Rattle.std.specs.Prelude.{◌≡◌, ◌+◌, ◌<◌, ◌≤◌, ◌^◌, ◌++◌, ◌∷◌, ℕ, [], length, take, IfErr, OnOk, OnErr};
ghost use Rattle.mold_capture.specs.Runs.{AreFree, AreRuns, BeginWithin, IsSince, Runs, carried};
ghost use Rattle.mold_capture.specs.Seen.{pairs_with};
ghost use Rattle.mold_rule.specs.declared.refusal.Refusal.TheVariants.{Memory};
ghost use Rattle.mold_wire.specs.Block.{IsMessage};

use crate::kept::Kept;
use crate::run::{Run, grown_run, put_run, run_at, take_back};
use mold_rule::Refusal;
use mold_wire::Blocks;
use std::alloc::AllocError;
use std::collections::BTreeMap;

// Appends the messages of a packet to the kept ones. It returns an error if an allocation fails, and then
// nothing was added.
fn keep_all(kept: &mut Kept, blocks: &Blocks<'_>) -> Result<(), AllocError>
    ensures ok { OnOk result (kept.new ≡ kept.old ++ blocks.now) }
    ensures err { OnErr result (kept.new ≡ kept.old) }
{
    // For the prover: the messages of blocks are short enough to be kept.
    let _bytes = blocks.bytes();
    let start = kept.len();
    for message in blocks.iter() {
        if let Err(error) = kept.push(message) {
            kept.truncate(start);
            return Err(error);
        }
    }
    Ok(())
}

/// Adds the messages of a packet. No run may have one of their numbers. They extend the run that ends right before them
/// if it has the messages that were kept last; otherwise they become a run. So messages in order are one run. It returns
/// an error if an allocation fails, and then nothing was added.
pub(crate) fn add_all(
    runs: &mut BTreeMap<u64, Run>,
    kept: &mut Kept,
    first: u64,
    blocks: &Blocks<'_>,
) -> Result<(), Refusal>
    requires are { AreRuns runs.old (length kept.old) }
    requires few { first + length blocks.now < 2 ^ 64 }
    requires free { AreFree runs.old first (first + length blocks.now) }
    ensures are { AreRuns runs.new (length kept.new) }
    ensures ok { OnOk result (carried runs.new kept.new ≡ pairs_with (carried runs.old kept.old) first blocks.now) }
    ensures err { OnErr result (carried runs.new kept.new ≡ carried runs.old kept.old) }
    ensures memory { IfErr result (λ reason. reason ≡ Memory) }
{
    let start = kept.len();
    let (begin, run) = grown_run(runs, 0, start, first, u64::from(blocks.len()));
    if let Err(_) = keep_all(kept, blocks) {
        return Err(Refusal::Memory);
    }
    // For the prover: `len` bounds the number of messages, which `put_run` needs.
    let _len = kept.len();
    match put_run(runs, begin, run) {
        Ok(()) => Ok(()),
        Err(_) => {
            kept.truncate(start);
            Err(Refusal::Memory)
        }
    }
}

// Adds a message with a number that no run has. It extends a run that ends there, if that run starts at index
// `since` or later. It returns an error if an allocation fails, and then nothing was added.
fn add_message(
    runs: &mut BTreeMap<u64, Run>,
    kept: &mut Kept,
    since: usize,
    number: u64,
    message: &[u8],
) -> Result<(), AllocError>
    requires are { AreRuns runs.old (length kept.old) }
    requires since { since ≤ length kept.old }
    requires few { number + 1 < 2 ^ 64 }
    requires short { IsMessage message.now }
    requires free { AreFree runs.old number (number + 1) }
    ensures are { AreRuns runs.new (length kept.new) }
    ensures ok { OnOk result
        (carried runs.new kept.new ≡ pairs_with (carried runs.old kept.old) number (message.now ∷ [])) }
    ensures err { OnErr result (carried runs.new kept.new ≡ carried runs.old kept.old) }
    ensures since { (before : Runs) → AreRuns before since → IsSince before runs.old since →
        IsSince before runs.new since }
    ensures within { (low : ℕ) → low ≤ number → BeginWithin runs.old since low number →
        BeginWithin runs.new since low (number + 1) }
    ensures front { take since kept.new ≡ take since kept.old }
    ensures more { since ≤ length kept.new }
{
    let len = kept.len();
    let (first, run) = grown_run(runs, since, len, number, 1);
    kept.push(message)?;
    // For the prover, as in `add_all`.
    let _len = kept.len();
    match put_run(runs, first, run) {
        Ok(()) => Ok(()),
        Err(error) => {
            kept.truncate(len);
            Err(error)
        }
    }
}

// Adds a message unless a run already has its number.
fn add_new(
    runs: &mut BTreeMap<u64, Run>,
    kept: &mut Kept,
    since: usize,
    number: u64,
    message: &[u8],
) -> Result<(), AllocError>
    requires are { AreRuns runs.old (length kept.old) }
    requires since { since ≤ length kept.old }
    requires few { number + 1 < 2 ^ 64 }
    requires short { IsMessage message.now }
    ensures are { AreRuns runs.new (length kept.new) }
    ensures ok { OnOk result
        (carried runs.new kept.new ≡ pairs_with (carried runs.old kept.old) number (message.now ∷ [])) }
    ensures err { OnErr result (carried runs.new kept.new ≡ carried runs.old kept.old) }
    ensures since { (before : Runs) → AreRuns before since → IsSince before runs.old since →
        IsSince before runs.new since }
    ensures within { (low : ℕ) → low ≤ number → BeginWithin runs.old since low number →
        BeginWithin runs.new since low (number + 1) }
    ensures front { take since kept.new ≡ take since kept.old }
    ensures more { since ≤ length kept.new }
{
    if run_at(runs, None, number).is_some() {
        return Ok(());
    }
    add_message(runs, kept, since, number, message)
}

/// Adds those messages of a packet whose numbers no run has. It returns an error if an allocation fails, and
/// then it removes what it added. The time to remove it depends on the packet's messages, not on the runs.
pub(crate) fn add_each(
    runs: &mut BTreeMap<u64, Run>,
    kept: &mut Kept,
    first: u64,
    blocks: &Blocks<'_>,
) -> Result<(), Refusal>
    requires are { AreRuns runs.old (length kept.old) }
    requires few { first + length blocks.now < 2 ^ 64 }
    ensures are { AreRuns runs.new (length kept.new) }
    ensures ok { OnOk result (carried runs.new kept.new ≡ pairs_with (carried runs.old kept.old) first blocks.now) }
    ensures err { OnErr result (carried runs.new kept.new ≡ carried runs.old kept.old) }
    ensures memory { IfErr result (λ reason. reason ≡ Memory) }
{
    // For the prover, as in `keep_all`.
    let _bytes = blocks.bytes();
    let since = kept.len();
    let mut number = first;
    for message in blocks.iter() {
        if let Err(_) = add_new(runs, kept, since, number, message) {
            take_back(runs, since, first, number + 1);
            kept.truncate(since);
            return Err(Refusal::Memory);
        }
        number += 1;
    }
    Ok(())
}
