//! The start of a world: checks of its settings, and its receivers.

ghost use Rattle.std.specs.Prelude.{◌≡◌, ◌≤◌, None, Some, IfErr, IfOk, OnOk, length, map, not, position};
ghost use Rattle.mold_wire.specs.Packer.{IsLimit};
ghost use Rattle.mold_world.specs.Refusals.{is_window, world_refusal};
ghost use Rattle.mold_world.specs.World.{subscriber_at};

use crate::report::WorldError;
use crate::subscriber::Subscriber;
use mold_receiver::MAX_WINDOW;
use mold_session::MAX_BURST;
use mold_wire::{MAX_LIMIT, MIN_LIMIT, Session};
use std::alloc::{AllocError, Global};

// Returns whether the window is valid for a receiver.
fn is_window(window: u32) -> bool
    ensures { result ≡ is_window window }
{
    1 <= window && window <= MAX_WINDOW
}

// Returns the index of the first window that is not valid.
fn first_bad(windows: &[u32]) -> Option<usize>
    ensures { result ≡ position (λ window. not (is_window window)) windows.now }
{
    windows.iter().position(|window| !is_window(*window))
}

/// Returns the first reason against creating a world with these settings, if there is one.
pub(crate) fn check_world(
    limit: usize,
    server_limit: usize,
    burst: u16,
    windows: &[u32],
) -> Result<(), WorldError>
    ensures may { OnOk result (world_refusal limit server_limit burst windows.now ≡ None) }
    ensures refused { IfErr result (λ error. world_refusal limit server_limit burst windows.now ≡ Some error) }
    ensures limits { OnOk result (IsLimit limit × IsLimit server_limit × (limit ≤ server_limit)) }
{
    if limit < MIN_LIMIT || server_limit > MAX_LIMIT || server_limit < limit {
        return Err(WorldError::BadLimit);
    }
    if burst == 0 || MAX_BURST < burst {
        return Err(WorldError::BadBurst);
    }
    match first_bad(windows) {
        Some(r) => Err(WorldError::BadWindow { r }),
        None => Ok(()),
    }
}

/// Returns one receiver for each window. Each starts at message 1. It returns an error if an allocation fails or a
/// window is not valid.
pub(crate) fn make_subscribers(
    alloc: Global,
    session: Session,
    windows: &[u32],
) -> Result<Vec<Subscriber>, AllocError>
    ensures { IfOk result (λ subscribers. subscribers.items ≡ map (subscriber_at session) windows.now) }
{
    let mut subscribers = Vec::with_capacity(alloc, windows.len())?;
    for window in windows {
        subscribers.push(Subscriber::new(alloc, session, *window)?)?;
    }
    Ok(subscribers)
}

/// States that a session's name has ten bytes.
pub(crate) fn has_name(session: Session)
    ensures { length session.0 ≡ 10 }
{
    // For the prover: it knows the length of an array where the array is read.
    let _name = session.0;
}
