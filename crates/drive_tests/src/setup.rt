//! The first line of the input: the repairer to make.

use crate::words::Words;
use mold_receiver::{Arbiter, Receiver};
use mold_repair::{RepairOptions, Repairer};
use mold_wire::Session;
use std::alloc::Global;

/// The session of all datagrams.
const SESSION: Session = Session(*b"NETWORK   ");

fn read_options(words: &mut Words<'_>) -> Option<RepairOptions> {
    Some(RepairOptions {
        patience: words.next_number()?,
        timeout: words.next_number()?,
        ceiling: words.next_number()?,
        settle: words.next_number()?,
        interval: words.next_number()?,
        bucket: words.next_small()?,
        places: words.next_small()?,
        servers: words.next_small()?,
        give_up: words.next_small()?,
        audit: 0,
    })
}

/// Makes the repairer of these numbers: the first message, the window, and the options in the order of
/// `RepairOptions`, without `audit`, which is 0. Returns `None` if there are other words, if a number is outside its range,
/// or if an allocation fails.
pub(crate) fn make_repairer(alloc: Global, mut words: Words<'_>) -> Option<Repairer> {
    let next = words.next_number()?;
    let window = words.next_small()?;
    let options = read_options(&mut words)?;
    let receiver = Receiver::wide(alloc, SESSION, next, window).ok()?;
    Repairer::new(alloc, Arbiter::new(receiver), options).ok()
}
