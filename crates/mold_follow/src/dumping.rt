//! `mold dump --follow`: writes the messages of a journal file as another process adds them.

ghost use Rattle.std.specs.Prelude.{◌≡◌, ◌⊎◌, ◌+◌, ◌++◌, [], Bool, List, ℕ, None, Option, Some, length, IfErr, IfNone, IfOk};
ghost use Rattle.std.specs.Prelude.{IfSome, OnOk};
ghost use Rattle.mold_durable.specs.Follower.{Follows};
ghost use Rattle.mold_durable.specs.Following.{Writer, Writes};
ghost use Rattle.mold_serve.specs.FileError.{device_fault};
ghost use Rattle.mold_follow.specs.Dumping.{BreaksAfter, EndsAfter, EndsOrGoesOn, FollowsToEnd, FollowsToFault};
ghost use Rattle.mold_follow.specs.Dumping.{GoesOn, Looks, is_over, mark_of};
ghost use Rattle.mold_show.specs.Listed.{ListsUntil, first_refused, list_text};

use crate::dump_devices::DumpDevices;
use crate::file_error::load_error;
use crate::looked::Looked;
use mold_devices::{CommandFault, Sink, send};
use mold_durable::{Follower, GrowingFile};
use mold_messages::MessageList;
use mold_port_set::PortSet;
use mold_serve::device_fault;
use mold_session::FileError;
use mold_show::{DumpFault, DumpOptions, end_dump, push_end, push_listed};
use std::alloc::Global;

/// The time from one look to the next, in nanoseconds.
const PAUSE: u64 = 20_000_000;

/// The place of a dump in its journal.
#[derive(Clone, Copy)]
struct Place {
    /// The number of messages before the news.
    before: u64,
    /// The number of messages with the news.
    total: u64,
    /// Whether the journal is closed.
    closed: bool,
}

// Whether the dump is over after `total` messages.
fn is_over(options: DumpOptions, closed: bool, total: u64) -> bool
    ensures { result ≡ is_over options closed total }
{
    closed || options.count <= total.saturating_sub(options.from.saturating_sub(1))
}

// Appends the news, and the mark of the end if the dump is over and reaches it. Returns whether the dump is over.
fn push_news(
    text: &mut Vec<u8>,
    options: DumpOptions,
    place: Place,
    news: &MessageList,
) -> Result<bool, DumpFault>
    requires empty { text.old.items ≡ [] }
    requires counted { place.total ≡ place.before + length news.now.messages }
    ensures over { IfOk result (λ over. over ≡ is_over options place.closed place.total) }
    ensures whole { OnOk result (first_refused options place.before news.now.messages ≡ None) }
    ensures text { OnOk result (text.new.items
        ≡ list_text options place.before news.now.messages ++ mark_of options place.closed place.total) }
    ensures until { IfErr result (λ fault.
        ListsUntil options place.before news.now.messages text.new.items fault) }
{
    push_listed(text, options, place.before, news)?;
    if !is_over(options, place.closed, place.total) {
        return Ok(false);
    }
    push_end(text, options, place.closed, place.total)?;
    Ok(true)
}

// Writes the news to the output, and how the dump ended if it did. Returns the status in that case.
fn write_news<P, K: Sink, E: Sink>(
    text: &mut Vec<u8>,
    options: DumpOptions,
    place: Place,
    news: &MessageList,
    devices: &mut DumpDevices<P, K, E>,
) -> Result<Option<u8>, CommandFault>
    requires empty { text.old.items ≡ [] }
    requires counted { place.total ≡ place.before + length news.now.messages }
    ensures left { (told : List (List ℕ)) (start first : Option (List ℕ)) → place.before ≡ length told →
        GoesOn options told (start, K.held devices.old.sink) (first, E.held devices.old.errors) →
        IfOk result (EndsOrGoesOn options (told ++ news.now.messages) None place.closed
        (start, K.held devices.new.sink) (first, E.held devices.new.errors)) }
    ensures broken { (told : List (List ℕ)) (start first : Option (List ℕ)) → place.before ≡ length told →
        GoesOn options told (start, K.held devices.old.sink) (first, E.held devices.old.errors) →
        IfErr result (λ fault. BreaksAfter options (told ++ news.now.messages) fault
        (start, K.held devices.new.sink)) }
{
    let DumpDevices { sink, errors, .. } = devices;
    match push_news(text, options, place, news) {
        Ok(false) => {
            send(sink, text)?;
            Ok(None)
        }
        Ok(true) => Ok(Some(end_dump(text, None, options.format, sink, errors)?)),
        Err(fault) => Ok(Some(end_dump(text, Some(fault), options.format, sink, errors)?)),
    }
}

// Ends the dump because of an error of the file. If a call or an allocation failed, it is the fault. Otherwise it
// reports the error, and returns the status.
fn end_refused<P, K: Sink, E: Sink>(
    text: &mut Vec<u8>,
    options: DumpOptions,
    error: FileError,
    devices: &mut DumpDevices<P, K, E>,
) -> Result<u8, CommandFault>
    requires empty { text.old.items ≡ [] }
    ensures left { (told : List (List ℕ)) (start first : Option (List ℕ)) (closed : Bool) →
        GoesOn options told (start, K.held devices.old.sink) (first, E.held devices.old.errors) →
        IfOk result (λ status. EndsAfter options (told ++ []) (Some error) closed status
        (start, K.held devices.new.sink) (first, E.held devices.new.errors)) }
    ensures refused { OnOk result (device_fault error ≡ None) }
    ensures broken { (told : List (List ℕ)) (start first : Option (List ℕ)) →
        GoesOn options told (start, K.held devices.old.sink) (first, E.held devices.old.errors) →
        IfErr result (λ fault. BreaksAfter options (told ++ []) fault (start, K.held devices.new.sink)) }
{
    if let Some(fault) = device_fault(error) {
        return Err(fault);
    }
    let DumpDevices { sink, errors, .. } = devices;
    end_dump(
        text,
        Some(DumpFault::File(error)),
        options.format,
        sink,
        errors,
    )
}

// Returns the status of a dump that ended. Otherwise waits until the next look, unless the last one stopped. A wait may
// end early, and a failed one ends at once.
fn pause<P: PortSet>(looked: Looked, clock: &mut P) -> Option<u8>
    ensures ended { IfSome result (λ status. looked ≡ Looked.Ended status) }
    ensures going { IfNone result ((looked ≡ Looked.Stopped) ⊎ (looked ≡ Looked.Paused)) }
{
    match looked {
        Looked::Ended { status } => Some(status),
        Looked::Stopped => None,
        Looked::Paused => {
            let until = clock.now() + PAUSE;
            let _ = clock.wait(until);
            None
        }
    }
}

// Looks at the file once: reads new records, and writes their messages. `count` is the number of messages that earlier
// looks returned; those of this look are added.
fn take_look<F: GrowingFile, P, K: Sink, E: Sink>(
    follower: &mut Follower<F>,
    options: DumpOptions,
    count: &mut u64,
    text: &mut Vec<u8>,
    devices: &mut DumpDevices<P, K, E>,
) -> Result<Looked, CommandFault>
    ensures looks { (told : List (List ℕ)) (start first : Option (List ℕ)) → count.old ≡ length told →
        GoesOn options told (start, K.held devices.old.sink) (first, E.held devices.old.errors) →
        IfOk result (Looks F.history F.synced options follower.old follower.new told
        (start, K.held devices.new.sink) (first, E.held devices.new.errors)) }
    ensures broken { (told : List (List ℕ)) (start first : Option (List ℕ)) → count.old ≡ length told →
        GoesOn options told (start, K.held devices.old.sink) (first, E.held devices.old.errors) →
        IfErr result (λ fault. BreaksAfter options (told ++ follower.new.news) fault
        (start, K.held devices.new.sink)) }
    ensures follows { (writer : Writer) (bytes : ℕ → List ℕ) (told : List (List ℕ)) → Writes writer bytes →
        Follows F.history F.synced writer bytes follower.old told →
        Follows F.history F.synced writer bytes follower.new (told ++ follower.new.news) }
    ensures longest { follower.new.max_message ≡ follower.old.max_message }
    ensures counted { OnOk result (count.new ≡ count.old + length follower.new.news) }
{
    text.clear();
    let more = match follower.poll() {
        Ok(more) => more,
        Err(error) => {
            let status = end_refused(text, options, load_error(error), devices)?;
            return Ok(Looked::Ended { status });
        }
    };
    let gained = follower.news();
    let before = *count;
    // No journal has so many messages.
    let Some(total) = before.checked_add(gained.len() as u64) else {
        return Err(CommandFault::Memory);
    };
    *count = total;
    let place = Place {
        before,
        total,
        closed: follower.is_closed(),
    };
    match write_news(text, options, place, gained, devices)? {
        Some(status) => Ok(Looked::Ended { status }),
        None if more => Ok(Looked::Stopped),
        None => Ok(Looked::Paused),
    }
}

/// Writes the messages of a journal file that the options ask for, as another process adds them, in the format of
/// `dump_file`. The follower has returned no message yet.
///
/// It looks at the file every 20 milliseconds, at most `looks` times. At the end of a look, the messages that it
/// returned are written to the sink. The dump ends with status 0 when the journal is closed, or when the messages from
/// `from` on are at least `count`. At a record that is refused, and at an empty message that cannot be printed, it ends
/// as `dump_file` does, with status 2. If it goes on after the last look, `None` is returned.
///
/// The fault is `Read` if a read of the file failed, and `Write` if a sync of the file or a write failed. The messages
/// of the looks before are written then. It holds the messages of one look and their text, at most some 5 MiB.
pub fn follow_dump<F: GrowingFile, P: PortSet, K: Sink, E: Sink>(
    alloc: Global,
    follower: &mut Follower<F>,
    options: DumpOptions,
    looks: u64,
    devices: &mut DumpDevices<P, K, E>,
) -> Result<Option<u8>, CommandFault>
    ensures whole { IfOk result (FollowsToEnd F.history F.synced options follower.old follower.new
        (K.held devices.old.sink, K.held devices.new.sink) (E.held devices.old.errors, E.held devices.new.errors)) }
    ensures broken { IfErr result (FollowsToFault F.history F.synced options follower.old follower.new
        (K.held devices.old.sink, K.held devices.new.sink)) }
{
    let mut text = Vec::new(alloc);
    let mut count = 0;
    for _look in 0..looks {
        let looked = take_look(follower, options, &mut count, &mut text, devices)?;
        match pause(looked, &mut devices.clock) {
            Some(status) => return Ok(Some(status)),
            None => {}
        }
    }
    Ok(None)
}
