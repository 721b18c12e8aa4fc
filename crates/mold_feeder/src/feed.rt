//! A publisher over ports with its requests and its input: what it does in a turn.

ghost use Rattle.std.specs.Prelude.{◌≡◌, ◌≤◌, ◌+◌, ◌++◌, ◌&&◌, [], Some, ℕ, false, true, IfOk, length, List, not};
ghost use Rattle.std.specs.Prelude.{OnErr, OnOk};
ghost use Rattle.std.specs.Io.KnownBytes.{Appends, IsAtEnd};
ghost use Rattle.mold_durable.specs.Life.{Life};
ghost use Rattle.mold_durable.specs.Storage.{OnlyReads};
ghost use Rattle.mold_durable_publisher.specs.DurablePublisher.{IsAtRest, WasServed};
ghost use Rattle.mold_feeder.specs.FeedText.{failed_count, fed_line, first_text, stop_text};
ghost use Rattle.mold_feeder.specs.Feeding.{HasBroken, HasFed, MayClose, MayCloseAfter, MayCloseNow};
ghost use Rattle.mold_feeder.specs.Feeding.{MayNotClose, closes_at, state_of};
ghost use Rattle.mold_feeder.specs.Input.{IsInput, KeepsRest, bytes_come, entries_after, entries_of_rest};
ghost use Rattle.mold_feeder.specs.Gathering.{filled_for};
ghost use Rattle.mold_feeder.specs.ToEmpty.{source_left};
ghost use Rattle.mold_feeder.specs.Taking.{AllSent, ComparesCome, IsStop, Takes, TakesAfter, TakesCome, TakesInput};
ghost use Rattle.mold_feeder.specs.Taking.{filled_now, is_end, is_same, left_of, refusal_of, reopened, stop_at};
ghost use Rattle.mold_feeder.specs.Taking.{TakesNothing, TakesPart, TakesYet, taken_at};
ghost use Rattle.mold_feeder.specs.Feeder.{ended, sent_of};
ghost use Rattle.mold_feeder.specs.Comparison.{ComparesAll};
ghost use Rattle.mold_feeder.specs.JournalMessages.{HasMessages};
ghost use Rattle.mold_feeder.specs.declared.feed_lines.FeedLines.{FeedLines};
ghost use Rattle.mold_input.specs.LongLines.{bytes_of};
ghost use Rattle.mold_wire.specs.declared.limits.TheConstants.{MAX_LIMIT};

use crate::compared::Compared;
use crate::comparison::compare_all;
use crate::feed_lines::FeedLines;
use crate::feed_options::FeedOptions;
use crate::feed_ports::FeedPorts;
use crate::feed_stop::FeedStop;
use crate::feed_text::{push_compared, push_fed, push_resumed};
use crate::feeder::Feeder;
use crate::gathered::Gathered;
use crate::idle_clock::MILLISECOND;
use crate::journal_messages::JournalMessages;
use crate::piece_input::PieceInput;
use crate::piece_reader::PieceReader;
use crate::requests::Requests;
use mold_devices::{CommandFault, Sink, Source, send};
use mold_durable::Storage;
use mold_durable_publisher::laws::told_law;
use mold_ports::Datagrams;
use mold_publish::{MessageRefusal, push_message_refused};
use std::alloc::AllocError;

/// A publisher over ports, the requests that it answers, and its input.
#[derive(Drop)]
pub struct Feed<S, L, D, M, K> {
    /// The publisher.
    pub feeder: Feeder<S, L>,
    /// The requests.
    pub requests: Requests<D>,
    /// The input.
    pub input: PieceInput<M, K>,
}

impl<
    S: Storage + Drop,
    L: FeedPorts + Drop,
    D: Datagrams + Drop,
    M: PieceReader,
    K: Source + Drop,
> Feed<S, L, D, M, K> {
    // Returns the time at which something has to be sent, if no request and no more input comes.
    fn due(&self) -> u64 {
        if self.feeder.publisher.unsent() > 0 {
            return self.feeder.pace.opens().min(self.feeder.idle.due());
        }
        self.feeder.idle.due()
    }

    // Waits until something has to be sent, a request has come, or the input has bytes. If all messages were sent and
    // no entry has come, it then reads a piece of the input. It does not wait if an entry can be taken.
    fn pause(&mut self) -> Result<(), CommandFault>
        requires input { IsInput M.is_part M.unread K.left self.old.input }
        ensures input { OnOk result (IsInput M.is_part M.unread K.left self.new.input) }
        ensures rest { OnOk result (KeepsRest (entries_of_rest M.unread K.left M.entries self.old.input)
            (entries_of_rest M.unread K.left M.entries self.new.input)) }
        ensures feeder { self.new.feeder ≡ record self.old.feeder { ports = self.new.feeder.ports } }
        ensures sent { L.modeled ≡ true →
            sent_of L.state self.new.feeder ≡ sent_of L.state self.old.feeder }
        ensures requests { self.new.requests ≡ self.old.requests }
    {
        let idle = self.feeder.publisher.unsent() == 0;
        let until = if idle && self.input.is_ready() {
            0
        } else {
            self.due()
        };
        let lacks = idle && self.input.lacks();
        // If the wait fails, a read waits in its place.
        let came = match self.feeder.ports.wait_for_input(until, lacks) {
            Ok(came) => came,
            Err(_) => true,
        };
        if lacks && came {
            self.input.pull()?;
        }
        Ok(())
    }

    // Answers a request, if one has come. If a read of the journal fails, a part of the response is not sent.
    fn answer(&mut self, buffer: &mut [u8])
        requires longest { self.old.feeder.publisher.publisher.journal.max_message
            ≤ self.old.requests.server.max_message }
        requires buffer { length buffer.old ≡ MAX_LIMIT }
        ensures fed { (lines : FeedLines L.Peer) (life : Life) →
            IsAtRest S.shows S.may_leave self.old.feeder.publisher life →
            HasFed S.shows S.may_leave S.moment S.left_since S.failed L.modeled D.modeled lines life [] false
            (state_of L.state D.port self.old) (state_of L.state D.port self.new) }
        ensures publisher { self.new.feeder.publisher.publisher ≡ self.old.feeder.publisher.publisher }
        ensures served { WasServed S.shows S.may_leave S.moment S.left_since self.old.feeder.publisher
            self.new.feeder.publisher }
        ensures feeder { self.new.feeder ≡ record self.old.feeder { publisher = self.new.feeder.publisher } }
        ensures longest { self.new.feeder.publisher.publisher.journal.max_message
            ≤ self.new.requests.server.max_message }
        ensures input { self.new.input ≡ self.old.input }
        ensures buffer { length buffer.new ≡ MAX_LIMIT }
    {
        let _ = self
            .requests
            .answer_waiting(&mut self.feeder.publisher, buffer);
    }

    // Answers a request, if one has come, and sends what has to be sent now.
    fn serve(&mut self, lines: &FeedLines<L::Peer>, buffer: &mut [u8])
        requires longest { self.old.feeder.publisher.publisher.journal.max_message
            ≤ self.old.requests.server.max_message }
        requires buffer { length buffer.old ≡ MAX_LIMIT }
        ensures fed { (life : Life) → IsAtRest S.shows S.may_leave self.old.feeder.publisher life →
            HasFed S.shows S.may_leave S.moment S.left_since S.failed L.modeled D.modeled lines.now life [] false
            (state_of L.state D.port self.old) (state_of L.state D.port self.new) }
        ensures journal { self.new.feeder.publisher.publisher.journal ≡ self.old.feeder.publisher.publisher.journal }
        ensures storage { OnlyReads S.shows S.may_leave S.moment S.left_since
            self.old.feeder.publisher.durable.storage self.new.feeder.publisher.durable.storage }
        ensures durable { self.new.feeder.publisher.durable ≡ record self.old.feeder.publisher.durable {
          storage = self.new.feeder.publisher.durable.storage;
        } }
        ensures longest { self.new.feeder.publisher.publisher.journal.max_message
            ≤ self.new.requests.server.max_message }
        ensures input { self.new.input ≡ self.old.input }
        ensures buffer { length buffer.new ≡ MAX_LIMIT }
    {
        self.answer(buffer);
        self.feeder.send_due(lines);
    }

    // Takes a group of the entries that have come, if all messages were sent. Before and after it, it does what `serve`
    // does.
    fn take(
        &mut self,
        lines: &FeedLines<L::Peer>,
        buffer: &mut [u8],
    ) -> Result<Option<Gathered>, CommandFault>
        requires longest { self.old.feeder.publisher.publisher.journal.max_message
            ≤ self.old.requests.server.max_message }
        requires buffer { length buffer.old ≡ MAX_LIMIT }
        ensures fed { (life : Life) → IsAtRest S.shows S.may_leave self.old.feeder.publisher life → OnOk result
            ((groups : List (List (List ℕ)))
            × HasFed S.shows S.may_leave S.moment S.left_since S.failed L.modeled D.modeled lines.now life groups false
            (state_of L.state D.port self.old) (state_of L.state D.port self.new)) }
        ensures broken { (life : Life) → IsAtRest S.shows S.may_leave self.old.feeder.publisher life → OnErr result
            (HasBroken S.shows S.may_leave S.moment S.left_since S.failed L.modeled D.modeled lines.now
            (TakesPart M.input_kind self.old.feeder.publisher.publisher.journal
            (Some (M.entries (bytes_come M.unread self.old.input)))) MayNotClose life
            (state_of L.state D.port self.old) (state_of L.state D.port self.new)) }
        ensures taken { (life : Life) → IsAtRest S.shows S.may_leave self.old.feeder.publisher life → IfOk result
            (TakesCome M.input_kind self.old.feeder.publisher.publisher.journal
            self.new.feeder.publisher.publisher.journal
            (M.entries (bytes_come M.unread self.old.input))
            (M.entries (bytes_come M.unread self.new.input))) }
        ensures longest { self.new.feeder.publisher.publisher.journal.max_message
            ≤ self.new.requests.server.max_message }
        ensures input { self.new.input ≡ record self.old.input { come = self.new.input.come } }
        ensures buffer { length buffer.new ≡ MAX_LIMIT }
    {
        told_law();
        self.answer(buffer);
        self.input.come.ready = true;
        self.feeder.turn(lines, &mut self.input.come)
    }

    // Notes that all entries that have come were taken, if `taken` states it.
    fn note(&mut self, taken: Option<Gathered>) -> Result<(), CommandFault>
        requires ready { self.old.input.ready ≡ true }
        requires part { M.is_part self.old.input.part }
        requires over { self.old.input.ended ≡ true →
            (bytes_of self.old.input.part ≡ []) × IsAtEnd (source_left K.left self.old.input.source) }
        ensures input { OnOk result (IsInput M.is_part M.unread K.left self.new.input) }
        ensures rest { OnOk result (entries_of_rest M.unread K.left M.entries self.new.input
            ≡ entries_after M.entries (left_of taken (M.entries (bytes_come M.unread self.old.input)))
            (bytes_of self.old.input.part) (source_left K.left self.old.input.source)) }
        ensures feeder { self.new.feeder ≡ self.old.feeder }
        ensures requests { self.new.requests ≡ self.old.requests }
    {
        M::empty_law();
        if let Some(Gathered::End) = taken {
            self.input.note_taken()?;
        }
        Ok(())
    }

    // Makes a pause and a turn.
    fn turn(
        &mut self,
        lines: &FeedLines<L::Peer>,
        buffer: &mut [u8],
    ) -> Result<Option<Gathered>, CommandFault>
        requires longest { self.old.feeder.publisher.publisher.journal.max_message
            ≤ self.old.requests.server.max_message }
        requires input { IsInput M.is_part M.unread K.left self.old.input }
        requires buffer { length buffer.old ≡ MAX_LIMIT }
        ensures fed { (life : Life) → IsAtRest S.shows S.may_leave self.old.feeder.publisher life → OnOk result
            ((groups : List (List (List ℕ)))
            × HasFed S.shows S.may_leave S.moment S.left_since S.failed L.modeled D.modeled lines.now life groups false
            (state_of L.state D.port self.old) (state_of L.state D.port self.new)) }
        ensures broken { (life : Life) → IsAtRest S.shows S.may_leave self.old.feeder.publisher life → OnErr result
            (HasBroken S.shows S.may_leave S.moment S.left_since S.failed L.modeled D.modeled lines.now
            (TakesPart M.input_kind self.old.feeder.publisher.publisher.journal
            (entries_of_rest M.unread K.left M.entries self.old.input)) MayNotClose life
            (state_of L.state D.port self.old) (state_of L.state D.port self.new)) }
        ensures taken { (life : Life) → IsAtRest S.shows S.may_leave self.old.feeder.publisher life → IfOk result
            (λ taken. Takes M.input_kind self.old.feeder.publisher.publisher.journal
            self.new.feeder.publisher.publisher.journal
            (entries_of_rest M.unread K.left M.entries self.old.input)
            (entries_of_rest M.unread K.left M.entries self.new.input) (filled_now taken)) }
        ensures longest { OnOk result (self.new.feeder.publisher.publisher.journal.max_message
            ≤ self.new.requests.server.max_message) }
        ensures input { OnOk result (IsInput M.is_part M.unread K.left self.new.input) }
        ensures buffer { OnOk result (length buffer.new ≡ MAX_LIMIT) }
    {
        self.pause()?;
        if !self.input.is_ready() {
            self.serve(lines, buffer);
            return Ok(None);
        }
        let taken = self.take(lines, buffer)?;
        self.note(taken)?;
        Ok(taken)
    }

    // Returns why the input was taken no further, or `None` if more may be taken.
    fn stop_of(&self, taken: Option<Gathered>) -> Option<Gathered>
        ensures { result ≡ stop_at taken (not self.now.input.ready && self.now.input.ended) }
    {
        match taken {
            Some(Gathered::Refused { refusal }) => Some(Gathered::Refused { refusal }),
            Some(Gathered::End) => {
                if self.input.is_over() {
                    return Some(Gathered::End);
                }
                None
            }
            Some(Gathered::Full) => None,
            None => None,
        }
    }

    // Publishes the messages of the input until it ends or an entry is refused.
    fn publish(
        &mut self,
        lines: &FeedLines<L::Peer>,
        buffer: &mut [u8],
    ) -> Result<Gathered, CommandFault>
        requires longest { self.old.feeder.publisher.publisher.journal.max_message
            ≤ self.old.requests.server.max_message }
        requires input { IsInput M.is_part M.unread K.left self.old.input }
        requires buffer { length buffer.old ≡ MAX_LIMIT }
        ensures fed { (life : Life) → IsAtRest S.shows S.may_leave self.old.feeder.publisher life → OnOk result
            ((groups : List (List (List ℕ)))
            × HasFed S.shows S.may_leave S.moment S.left_since S.failed L.modeled D.modeled lines.now life groups false
            (state_of L.state D.port self.old) (state_of L.state D.port self.new)) }
        ensures broken { (life : Life) → IsAtRest S.shows S.may_leave self.old.feeder.publisher life → OnErr result
            (HasBroken S.shows S.may_leave S.moment S.left_since S.failed L.modeled D.modeled lines.now
            (TakesPart M.input_kind self.old.feeder.publisher.publisher.journal
            (entries_of_rest M.unread K.left M.entries self.old.input)) MayNotClose life
            (state_of L.state D.port self.old) (state_of L.state D.port self.new)) }
        ensures taken { (life : Life) → IsAtRest S.shows S.may_leave self.old.feeder.publisher life → IfOk result
            (λ gathered. Takes M.input_kind self.old.feeder.publisher.publisher.journal
            self.new.feeder.publisher.publisher.journal
            (entries_of_rest M.unread K.left M.entries self.old.input)
            (entries_of_rest M.unread K.left M.entries self.new.input) (filled_for gathered)) }
        ensures stops { IfOk result IsStop }
        ensures longest { OnOk result (self.new.feeder.publisher.publisher.journal.max_message
            ≤ self.new.requests.server.max_message) }
        ensures buffer { OnOk result (length buffer.new ≡ MAX_LIMIT) }
    {
        M::empty_law();
        for _ in 0..u64::MAX {
            let taken = self.turn(lines, buffer)?;
            if let Some(gathered) = self.stop_of(taken) {
                return Ok(gathered);
            }
        }
        Err(CommandFault::Read)
    }

    // Compares the entries that have come with the journal's messages from number `number` on. Returns the number at
    // which it stopped and how.
    fn compare_ready<J: Source + Drop>(
        &mut self,
        journal: &mut JournalMessages<J>,
        number: u64,
    ) -> Result<(u64, Compared), CommandFault>
        requires some { 1 ≤ number }
        requires within { number ≤ length self.old.feeder.publisher.publisher.journal.messages + 1 }
        ensures input { self.new.input ≡ record self.old.input { come = self.new.input.come } }
        ensures feeder { self.new.feeder ≡ self.old.feeder }
        ensures requests { self.new.requests ≡ self.old.requests }
        ensures compared { HasMessages J.left journal.old self.old.feeder.publisher.publisher.journal.messages number →
            IfOk result (λ found. ComparesAll self.old.feeder.publisher.publisher.journal number found.0
            (Some (M.entries (bytes_come M.unread self.old.input)))
            (Some (M.entries (bytes_come M.unread self.new.input))) found.1) }
        ensures messages { HasMessages J.left journal.old self.old.feeder.publisher.publisher.journal.messages number →
            IfOk result (λ found. HasMessages J.left journal.new self.old.feeder.publisher.publisher.journal.messages
            found.0) }
        ensures within { IfOk result (λ found. (1 ≤ found.0)
            × (found.0 ≤ length self.old.feeder.publisher.publisher.journal.messages + 1)) }
    {
        let publisher = &self.feeder.publisher;
        let come = &mut self.input.come;
        Ok(compare_all(
            publisher,
            journal,
            number,
            &mut come.messages,
            &mut come.source,
        )?)
    }

    // Compares the entries that have come with the journal's messages from number `number` on. Returns the number at
    // which it stopped and how. `End` means that no entry has come after those that are the same.
    fn compare_some<J: Source + Drop>(
        &mut self,
        journal: &mut JournalMessages<J>,
        number: u64,
    ) -> Result<(u64, Compared), CommandFault>
        requires input { IsInput M.is_part M.unread K.left self.old.input }
        requires some { 1 ≤ number }
        requires within { number ≤ length self.old.feeder.publisher.publisher.journal.messages + 1 }
        ensures input { OnOk result (IsInput M.is_part M.unread K.left self.new.input) }
        ensures feeder { self.new.feeder ≡ self.old.feeder }
        ensures requests { self.new.requests ≡ self.old.requests }
        ensures compared { HasMessages J.left journal.old self.old.feeder.publisher.publisher.journal.messages number →
            IfOk result (λ found. ComparesCome self.old.feeder.publisher.publisher.journal number found.0
            (entries_of_rest M.unread K.left M.entries self.old.input)
            (entries_of_rest M.unread K.left M.entries self.new.input) found.1) }
        ensures messages { HasMessages J.left journal.old self.old.feeder.publisher.publisher.journal.messages number →
            IfOk result (λ found. HasMessages J.left journal.new self.old.feeder.publisher.publisher.journal.messages
            found.0) }
        ensures within { IfOk result (λ found. (1 ≤ found.0)
            × (found.0 ≤ length self.old.feeder.publisher.publisher.journal.messages + 1)) }
    {
        if !self.input.is_ready() {
            return Ok((number, Compared::End));
        }
        let (at, compared) = self.compare_ready(journal, number)?;
        self.note(taken_at(compared))?;
        Ok((at, compared))
    }

    // Whether the comparison goes on after entries that have come were compared so.
    fn compares_on(&self, compared: Compared) -> bool
        ensures { result ≡ (is_end compared && not (not self.now.input.ready && self.now.input.ended)) }
    {
        is_end(compared) && !self.input.is_over()
    }

    // Compares the input with the journal's messages, while it comes. Returns the number at which it stopped and how.
    fn compare<J: Source + Drop>(
        &mut self,
        journal: &mut JournalMessages<J>,
        lines: &FeedLines<L::Peer>,
        buffer: &mut [u8],
    ) -> Result<(u64, Compared), CommandFault>
        requires longest { self.old.feeder.publisher.publisher.journal.max_message
            ≤ self.old.requests.server.max_message }
        requires input { IsInput M.is_part M.unread K.left self.old.input }
        requires buffer { length buffer.old ≡ MAX_LIMIT }
        ensures fed { (life : Life) → IsAtRest S.shows S.may_leave self.old.feeder.publisher life →
            HasFed S.shows S.may_leave S.moment S.left_since S.failed L.modeled D.modeled lines.now life [] false
            (state_of L.state D.port self.old) (state_of L.state D.port self.new) }
        ensures compared { HasMessages J.left journal.old self.old.feeder.publisher.publisher.journal.messages 1 →
            IfOk result (λ found. ComparesAll self.old.feeder.publisher.publisher.journal 1 found.0
            (entries_of_rest M.unread K.left M.entries self.old.input)
            (entries_of_rest M.unread K.left M.entries self.new.input) found.1) }
        ensures journal { self.new.feeder.publisher.publisher.journal ≡ self.old.feeder.publisher.publisher.journal }
        ensures longest { OnOk result (self.new.feeder.publisher.publisher.journal.max_message
            ≤ self.new.requests.server.max_message) }
        ensures input { OnOk result (IsInput M.is_part M.unread K.left self.new.input) }
        ensures buffer { OnOk result (length buffer.new ≡ MAX_LIMIT) }
    {
        M::empty_law();
        let mut number = 1;
        for _ in 0..u64::MAX {
            self.pause()?;
            self.serve(lines, buffer);
            let (at, compared) = self.compare_some(journal, number)?;
            if !self.compares_on(compared) {
                return Ok((at, compared));
            }
            number = at;
        }
        Err(CommandFault::Read)
    }

    // Waits until something has to be sent, a request has come or, if all messages were sent, it is the time `latest`.
    fn doze(&mut self, latest: u64)
        ensures feeder { self.new.feeder ≡ record self.old.feeder { ports = self.new.feeder.ports } }
        ensures sent { L.modeled ≡ true →
            sent_of L.state self.new.feeder ≡ sent_of L.state self.old.feeder }
        ensures requests { self.new.requests ≡ self.old.requests }
        ensures input { self.new.input ≡ self.old.input }
    {
        let due = self.due();
        let until = if self.feeder.publisher.unsent() > 0 {
            due
        } else {
            due.min(latest)
        };
        let _ = self.feeder.ports.wait_for_input(until, false);
    }

    // Serves until all messages were sent and it is the time `until`.
    fn serve_until(
        &mut self,
        lines: &FeedLines<L::Peer>,
        until: u64,
        buffer: &mut [u8],
    ) -> Result<(), CommandFault>
        requires longest { self.old.feeder.publisher.publisher.journal.max_message
            ≤ self.old.requests.server.max_message }
        requires buffer { length buffer.old ≡ MAX_LIMIT }
        ensures fed { (life : Life) → IsAtRest S.shows S.may_leave self.old.feeder.publisher life →
            HasFed S.shows S.may_leave S.moment S.left_since S.failed L.modeled D.modeled lines.now life [] false
            (state_of L.state D.port self.old) (state_of L.state D.port self.new) }
        ensures journal { self.new.feeder.publisher.publisher.journal ≡ self.old.feeder.publisher.publisher.journal }
        ensures sent { OnOk result (length self.new.feeder.publisher.publisher.journal.messages
            ≤ self.new.feeder.publisher.publisher.sent) }
        ensures longest { self.new.feeder.publisher.publisher.journal.max_message
            ≤ self.new.requests.server.max_message }
        ensures input { self.new.input ≡ self.old.input }
        ensures buffer { length buffer.new ≡ MAX_LIMIT }
    {
        for _ in 0..u64::MAX {
            if self.feeder.publisher.unsent() == 0 && until <= self.feeder.ports.now() {
                return Ok(());
            }
            self.doze(until);
            self.serve(lines, buffer);
        }
        Err(CommandFault::Read)
    }

    // Ends the session, and serves for the time that the options state. All messages must have been sent.
    fn end(&mut self, options: &FeedOptions<L::Peer>, buffer: &mut [u8]) -> Result<(), CommandFault>
        requires longest { self.old.feeder.publisher.publisher.journal.max_message
            ≤ self.old.requests.server.max_message }
        requires buffer { length buffer.old ≡ MAX_LIMIT }
        requires sent { length self.old.feeder.publisher.publisher.journal.messages
            ≤ self.old.feeder.publisher.publisher.sent }
        ensures fed { (life : Life) → IsAtRest S.shows S.may_leave self.old.feeder.publisher life → OnOk result
            (HasFed S.shows S.may_leave S.moment S.left_since S.failed L.modeled D.modeled options.now.lines life []
            (not options.now.end.stays_open) (state_of L.state D.port self.old) (state_of L.state D.port self.new)) }
        ensures broken { (life : Life) → IsAtRest S.shows S.may_leave self.old.feeder.publisher life → OnErr result
            (HasBroken S.shows S.may_leave S.moment S.left_since S.failed L.modeled D.modeled options.now.lines
            (TakesNothing self.old.feeder.publisher.publisher.journal)
            (MayCloseNow options.now.end self.old.feeder.publisher.publisher.journal) life
            (state_of L.state D.port self.old) (state_of L.state D.port self.new)) }
        ensures journal { OnOk result (self.new.feeder.publisher.publisher.journal
            ≡ (ended options.now.end self.old.feeder.publisher.publisher).journal) }
        ensures sent { OnOk result (length self.new.feeder.publisher.publisher.journal.messages
            ≤ self.new.feeder.publisher.publisher.sent) }
    {
        told_law();
        self.feeder.end(&options.lines, options.end)?;
        let now = self.feeder.ports.now();
        self.feeder.idle.note(now);
        let until = now + u64::from(options.linger) * MILLISECOND;
        self.serve_until(&options.lines, until, buffer)
    }

    // Publishes what the input has after the journal's messages. `begun` is the number of messages that came before the
    // first entry of the input. Ends the session if the input ends.
    fn publish_all(
        &mut self,
        begun: u64,
        options: &FeedOptions<L::Peer>,
        buffer: &mut [u8],
    ) -> Result<FeedStop, CommandFault>
        requires longest { self.old.feeder.publisher.publisher.journal.max_message
            ≤ self.old.requests.server.max_message }
        requires input { IsInput M.is_part M.unread K.left self.old.input }
        requires buffer { length buffer.old ≡ MAX_LIMIT }
        ensures fed { (life : Life) → IsAtRest S.shows S.may_leave self.old.feeder.publisher life → IfOk result (λ stop.
            (groups : List (List (List ℕ)))
            × HasFed S.shows S.may_leave S.moment S.left_since S.failed L.modeled D.modeled options.now.lines
            life groups
            (closes_at options.now.end stop) (state_of L.state D.port self.old) (state_of L.state D.port self.new)) }
        ensures broken { (life : Life) → IsAtRest S.shows S.may_leave self.old.feeder.publisher life → OnErr result
            (HasBroken S.shows S.may_leave S.moment S.left_since S.failed L.modeled D.modeled options.now.lines
            (TakesPart M.input_kind self.old.feeder.publisher.publisher.journal
            (entries_of_rest M.unread K.left M.entries self.old.input))
            (MayCloseAfter options.now.end M.input_kind begun self.old.feeder.publisher.publisher.journal
            (entries_of_rest M.unread K.left M.entries self.old.input)) life
            (state_of L.state D.port self.old) (state_of L.state D.port self.new)) }
        ensures taken { (life : Life) → IsAtRest S.shows S.may_leave self.old.feeder.publisher life → IfOk result
            (TakesAfter M.input_kind begun self.old.feeder.publisher.publisher.journal
            (reopened self.old.feeder.publisher.publisher.journal self.new.feeder.publisher.publisher.journal)
            (entries_of_rest M.unread K.left M.entries self.old.input)) }
        ensures all { IfOk result (AllSent self.new.feeder.publisher.publisher) }
    {
        let gathered = self.publish(&options.lines, buffer)?;
        self.serve_until(&options.lines, 0, buffer)?;
        if let Some(refusal) = refusal_of(gathered) {
            let number = (self.feeder.publisher.count() + 1).saturating_sub(begun);
            return Ok(FeedStop::Refused { number, refusal });
        }
        self.end(options, buffer)?;
        Ok(FeedStop::Ended)
    }

    /// Compares the input with the journal's messages, unless it continues after them, and publishes the messages after
    /// those. Ends the session if the input ends. Returns why it ended. `buffer` has `MAX_LIMIT` bytes. If the input
    /// continues after the messages, `journal` is not read.
    pub(crate) fn run<J: Source + Drop>(
        &mut self,
        options: &FeedOptions<L::Peer>,
        journal: &mut JournalMessages<J>,
        buffer: &mut [u8],
    ) -> Result<FeedStop, CommandFault>
        requires longest { self.old.feeder.publisher.publisher.journal.max_message
            ≤ self.old.requests.server.max_message }
        requires input { IsInput M.is_part M.unread K.left self.old.input }
        requires buffer { length buffer.old ≡ MAX_LIMIT }
        ensures fed { (life : Life) → IsAtRest S.shows S.may_leave self.old.feeder.publisher life → IfOk result (λ stop.
            (groups : List (List (List ℕ)))
            × HasFed S.shows S.may_leave S.moment S.left_since S.failed L.modeled D.modeled options.now.lines
            life groups
            (closes_at options.now.end stop) (state_of L.state D.port self.old) (state_of L.state D.port self.new)) }
        ensures broken { (life : Life) → IsAtRest S.shows S.may_leave self.old.feeder.publisher life → OnErr result
            (HasBroken S.shows S.may_leave S.moment S.left_since S.failed L.modeled D.modeled options.now.lines
            (TakesYet (HasMessages J.left journal.old self.old.feeder.publisher.publisher.journal.messages 1)
            options.now.appends M.input_kind self.old.feeder.publisher.publisher.journal
            (entries_of_rest M.unread K.left M.entries self.old.input))
            (MayClose (HasMessages J.left journal.old self.old.feeder.publisher.publisher.journal.messages 1)
            options.now.end options.now.appends M.input_kind self.old.feeder.publisher.publisher.journal
            (entries_of_rest M.unread K.left M.entries self.old.input)) life
            (state_of L.state D.port self.old) (state_of L.state D.port self.new)) }
        ensures taken { (life : Life) → IsAtRest S.shows S.may_leave self.old.feeder.publisher life → IfOk result
            (TakesInput (HasMessages J.left journal.old self.old.feeder.publisher.publisher.journal.messages 1)
            options.now.appends M.input_kind self.old.feeder.publisher.publisher.journal
            (reopened self.old.feeder.publisher.publisher.journal self.new.feeder.publisher.publisher.journal)
            (entries_of_rest M.unread K.left M.entries self.old.input)) }
        ensures all { IfOk result (AllSent self.new.feeder.publisher.publisher) }
    {
        if options.appends {
            let begun = self.feeder.publisher.count();
            return self.publish_all(begun, options, buffer);
        }
        let (number, compared) = self.compare(journal, &options.lines, buffer)?;
        if !is_same(compared) {
            return Ok(FeedStop::Other { number, compared });
        }
        self.publish_all(0, options, buffer)
    }

    // Appends the line that is printed last. If an allocation fails, a part of it may follow the earlier text.
    pub(crate) fn push_stop(&self, out: &mut Vec<u8>, stop: FeedStop) -> Result<(), AllocError>
        ensures text { OnOk result (out.new.items ≡ out.old.items ++ stop_text M.input_kind stop
            (fed_line (length self.now.feeder.publisher.publisher.journal.messages) self.now.feeder.datagrams
            self.now.requests.answered
            (failed_count (L.state self.now.feeder.ports).failures (D.port self.now.requests.port).failures
            self.now.requests.unread))) }
    {
        match stop {
            FeedStop::Other { number, compared } => push_compared(out, M::kind(), number, compared),
            FeedStop::Refused { number, refusal } => push_message_refused(out, number, refusal),
            FeedStop::Ended => {
                let messages = self.feeder.publisher.count();
                let failed = self
                    .feeder
                    .ports
                    .failures()
                    .saturating_add(self.requests.port.failures())
                    .saturating_add(self.requests.unread);
                push_fed(
                    out,
                    messages,
                    self.feeder.datagrams,
                    self.requests.answered,
                    failed,
                )
            }
        }
    }

    // If the journal existed, prints the number of its messages, and sends a heartbeat or an end packet.
    pub(crate) fn begin<O: Sink>(
        &mut self,
        options: &FeedOptions<L::Peer>,
        text: &mut Vec<u8>,
        sink: &mut O,
    ) -> Result<(), CommandFault>
        requires empty { text.old.items ≡ [] }
        requires longest { self.old.feeder.publisher.publisher.journal.max_message
            ≤ self.old.requests.server.max_message }
        ensures fed { (life : Life) → IsAtRest S.shows S.may_leave self.old.feeder.publisher life →
            HasFed S.shows S.may_leave S.moment S.left_since S.failed L.modeled D.modeled options.now.lines
            life [] false
            (state_of L.state D.port self.old) (state_of L.state D.port self.new) }
        ensures said { OnOk result (Appends (O.held sink.old) (O.held sink.new)
            (first_text options.now.resumed (length self.old.feeder.publisher.publisher.journal.messages))) }
        ensures empty { OnOk result (text.new.items ≡ []) }
        ensures longest { self.new.feeder.publisher.publisher.journal.max_message
            ≤ self.new.requests.server.max_message }
        ensures journal { self.new.feeder.publisher.publisher.journal ≡ self.old.feeder.publisher.publisher.journal }
        ensures input { self.new.input ≡ self.old.input }
    {
        if !options.resumed {
            return Ok(());
        }
        push_resumed(text, self.feeder.publisher.count())?;
        send(sink, text)?;
        self.feeder.send_beat(&options.lines);
        Ok(())
    }
}

// Returns whether a comparison stopped because there was no further entry.
fn is_end(compared: Compared) -> bool
    ensures { result ≡ is_end compared }
{
    match compared {
        Compared::End => true,
        Compared::Same => false,
        Compared::Differs => false,
        Compared::Refused { .. } => false,
    }
}

// Returns the end of what has come, if a comparison stopped there.
fn taken_at(compared: Compared) -> Option<Gathered>
    ensures { result ≡ taken_at compared }
{
    match compared {
        Compared::End => Some(Gathered::End),
        Compared::Same => None,
        Compared::Differs => None,
        Compared::Refused { .. } => None,
    }
}

// Returns why an entry is refused, if publishing stopped there.
fn refusal_of(gathered: Gathered) -> Option<MessageRefusal>
    ensures { result ≡ refusal_of gathered }
{
    match gathered {
        Gathered::Refused { refusal } => Some(refusal),
        Gathered::End => None,
        Gathered::Full => None,
    }
}

// Returns whether all messages of the journal were compared.
fn is_same(compared: Compared) -> bool
    ensures { result ≡ is_same compared }
{
    match compared {
        Compared::Same => true,
        Compared::Differs => false,
        Compared::Refused { .. } => false,
        Compared::End => false,
    }
}
