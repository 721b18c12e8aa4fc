//! A publisher over ports: what it sends, and when.

ghost use Rattle.std.specs.Prelude.{◌≡◌, ◌&&◌, ◌≤◌, [], ℕ, false, IfErr, IfOk, is_some, length, List, nat_le};
ghost use Rattle.std.specs.Prelude.{if◌then◌else◌, OnErr, OnOk, true};
ghost use Rattle.mold_durable.specs.Life.{Life, after as after_moment};
ghost use Rattle.mold_durable.specs.Life.Moment.{Close};
ghost use Rattle.mold_durable.specs.Storage.{LeavesOnly};
ghost use Rattle.mold_durable_publisher.specs.DurablePublisher.{Publishes, after_committed, next_committed};
ghost use Rattle.mold_durable_publisher.specs.Told.{IsTold, IsTrueNow};
ghost use Rattle.mold_devices.specs.declared.fault.CommandFault.{CommandFault};
ghost use Rattle.mold_feeder.specs.FeedLines.{datagram_of, repeated};
ghost use Rattle.mold_session.specs.Publisher.{closed, next_end, next_heartbeat};
ghost use Rattle.mold_feeder.specs.Feeder.{HasEnded, HasPaced, HasSent, HasSentBeats, HasTurned, IsFileAtEnd};
ghost use Rattle.mold_feeder.specs.Feeder.{TakesSome, ended, entries_left, next_beat, sends_at, takes_input};
ghost use Rattle.mold_feeder.specs.Gathering.{Grows, IsFileUpTo};
ghost use Rattle.mold_feeder.specs.IdleClock.{due_after};

use crate::feed_end::FeedEnd;
use crate::feed_input::FeedInput;
use crate::feed_lines::{FeedLines, send_often, send_on_lines};
use crate::gathered::Gathered;
use crate::gathering::take_group;
use crate::idle_clock::IdleClock;
use crate::pace::Pace;
use crate::send_counts::LineCounts;
use mold_devices::{CommandFault, Source};
use mold_durable::Storage;
use mold_durable_publisher::DurablePublisher;
use mold_durable_publisher::laws::told_law;
use mold_input::MessageReader;
use mold_port_set::PortSet;

/// A publisher over ports: the publisher, the ports, and when it may send.
#[derive(Drop)]
pub struct Feeder<S, L> {
    /// The publisher, whose journal is durable.
    pub publisher: DurablePublisher<S>,
    /// The ports of the lines, and the clock.
    pub ports: L,
    /// When the next data packet may be sent.
    pub pace: Pace,
    /// When the next heartbeat is due.
    pub idle: IdleClock,
    /// The number of data packets that were sent. Each is counted once for both lines. It stops at
    /// 18446744073709551615.
    pub datagrams: u64,
    /// The sends on each line.
    pub counts: LineCounts,
}

impl<S: Storage + Drop, L: PortSet + Drop> Feeder<S, L> {
    /// Returns a publisher that has sent nothing. It sends at most `rate` messages a second, or without a bound if
    /// `rate` is 0. A heartbeat is due after `idle` milliseconds, or never if `idle` is 0.
    pub fn new(publisher: DurablePublisher<S>, ports: L, rate: u32, idle: u32) -> Feeder<S, L>
        ensures { result ≡ record {
          publisher = publisher;
          ports = ports;
          pace = record { rate = rate; opens = 0 };
          idle = record { idle = idle; due = due_after idle (L.state ports).now };
          datagrams = 0;
          counts = record { a = record { sent = 0; failed = 0 }; b = record { sent = 0; failed = 0 } };
        } }
    {
        let idle = IdleClock::new(idle, ports.now());
        Feeder {
            publisher,
            ports,
            pace: Pace::new(rate),
            idle,
            datagrams: 0,
            counts: LineCounts::new(),
        }
    }

    // Sends the next data packet, if a committed message is unsent. Returns whether there was one.
    fn send_next(&mut self, lines: &FeedLines<L::Peer>) -> bool
        ensures sent { HasSent S.shows S.may_leave L.modeled L.state lines.now
            (datagram_of (next_committed self.old.publisher)) self.old self.new }
        ensures some { result ≡ is_some (next_committed self.old.publisher) }
        ensures publisher { self.new.publisher ≡ after_committed self.old.publisher }
        ensures paced { result ≡ true → HasPaced (L.state self.old.ports).now self.old self.new }
        ensures same { result ≡ false → self.new ≡ self.old }
    {
        let unsent = self.publisher.unsent();
        let Some(datagram) = self.publisher.next_datagram() else {
            return false;
        };
        send_on_lines(&mut self.ports, lines, &mut self.counts, datagram);
        let time = self.ports.now();
        self.pace.note(time, unsent - self.publisher.unsent());
        self.idle.note(time);
        self.datagrams = self.datagrams.saturating_add(1);
        true
    }

    /// Sends a heartbeat or, if the session is closed, an end packet.
    pub fn send_beat(&mut self, lines: &FeedLines<L::Peer>)
        ensures sent { HasSent S.shows S.may_leave L.modeled L.state lines.now
            (datagram_of (next_beat self.old.publisher.publisher)) self.old self.new }
        ensures publisher { self.new.publisher ≡ self.old.publisher }
    {
        self.idle.note(self.ports.now());
        if self.publisher.is_closed() {
            if let Some(end) = self.publisher.end() {
                send_on_lines(&mut self.ports, lines, &mut self.counts, end);
            }
        } else {
            if let Some(beat) = self.publisher.heartbeat() {
                send_on_lines(&mut self.ports, lines, &mut self.counts, beat);
            }
        }
    }

    // Sends the next data packet, if a committed message is unsent and the pace allows it. Returns whether it did.
    fn send_paced(&mut self, lines: &FeedLines<L::Peer>) -> bool
        ensures sent { result ≡ true → HasSent S.shows S.may_leave L.modeled L.state lines.now
            (datagram_of (next_committed self.old.publisher)) self.old self.new }
        ensures some { result ≡ (is_some (next_committed self.old.publisher)
            && nat_le self.old.pace.opens (L.state self.old.ports).now) }
        ensures publisher { result ≡ true → self.new.publisher ≡ after_committed self.old.publisher }
        ensures paced { result ≡ true → HasPaced (L.state self.old.ports).now self.old self.new }
        ensures same { result ≡ false → self.new ≡ self.old }
    {
        if !self.pace.is_open(self.ports.now()) {
            return false;
        }
        self.send_next(lines)
    }

    /// Sends what the publisher sends now: the next data packet if a committed message is unsent and the pace allows
    /// it, otherwise a heartbeat or an end packet if one is due.
    pub fn send_due(&mut self, lines: &FeedLines<L::Peer>)
        ensures sent { HasSent S.shows S.may_leave L.modeled L.state lines.now
            (sends_at (L.state self.old.ports).now self.old) self.old self.new }
        ensures paced { (is_some (next_committed self.old.publisher)
            && nat_le self.old.pace.opens (L.state self.old.ports).now) ≡ true →
            HasPaced (L.state self.old.ports).now self.old self.new }
    {
        if self.send_paced(lines) {
            return;
        }
        if self.idle.is_due(self.ports.now()) {
            self.send_beat(lines);
        }
    }

    // Takes a group of messages of the input and commits it, if the input is ready and all messages were sent. Returns
    // why the group is complete, or `None` if nothing was taken.
    fn take_input<M: MessageReader, K: Source>(
        &mut self,
        input: &mut FeedInput<M, K>,
    ) -> Result<Option<Gathered>, CommandFault>
        ensures taken { (life : Life) → Publishes S.shows S.may_leave self.old.publisher life →
            IfOk result (TakesSome S.shows S.may_leave life self.old self.new
            (entries_left M.input_kind M.entries M.unread K.left input.old)
            (entries_left M.input_kind M.entries M.unread K.left input.new)) }
        ensures grows { (life : Life) → Publishes S.shows S.may_leave self.old.publisher life → OnErr result
            (Grows M.input_kind (entries_left M.input_kind M.entries M.unread K.left input.old) self.old.publisher
            self.new.publisher) }
        ensures when { IfOk result (λ taken. is_some taken ≡ takes_input self.old input.old) }
        ensures told { (life : Life) (datagram : List ℕ) → Publishes S.shows S.may_leave self.old.publisher life →
            IsTrueNow life datagram →
            LeavesOnly S.moment S.left_since self.old.publisher.durable.storage self.new.publisher.durable.storage
            (IsTold datagram) }
        ensures crash { (life : Life) → Publishes S.shows S.may_leave self.old.publisher life →
            self.old.publisher.durable.broken ≡ false →
            LeavesOnly S.moment S.left_since self.old.publisher.durable.storage self.new.publisher.durable.storage
            (IsFileUpTo life self.new.publisher) }
        ensures intact { OnOk result (self.new.publisher.durable.broken ≡ self.old.publisher.durable.broken) }
        ensures unfailed { OnOk result
            (S.failed self.new.publisher.durable.storage ≡ S.failed self.old.publisher.durable.storage) }
        ensures longest { self.new.publisher.publisher.journal.max_message
            ≡ self.old.publisher.publisher.journal.max_message }
        ensures rest { self.new ≡ record self.old { publisher = self.new.publisher } }
    {
        told_law();
        if !input.ready || self.publisher.unsent() > 0 {
            return Ok(None);
        }
        let most = self.pace.group();
        let gathered = take_group(
            &mut self.publisher,
            most,
            &mut input.messages,
            &mut input.source,
        )?;
        Ok(Some(gathered))
    }

    /// Makes one turn. If the input is ready and all committed messages were sent, it takes a group of messages of the
    /// input and commits it. Then it sends what the publisher sends now.
    ///
    /// Returns why the group is complete, or `None` if no group was taken. After a fault nothing more may be sent.
    pub fn turn<M: MessageReader, K: Source>(
        &mut self,
        lines: &FeedLines<L::Peer>,
        input: &mut FeedInput<M, K>,
    ) -> Result<Option<Gathered>, CommandFault>
        ensures turned { (life : Life) → Publishes S.shows S.may_leave self.old.publisher life → life.waiting ≡ [] →
            IfOk result (HasTurned S.shows S.may_leave L.modeled L.state lines.now life self.old self.new
            (entries_left M.input_kind M.entries M.unread K.left input.old)
            (entries_left M.input_kind M.entries M.unread K.left input.new)) }
        ensures grows { (life : Life) → Publishes S.shows S.may_leave self.old.publisher life → OnErr result
            (Grows M.input_kind (entries_left M.input_kind M.entries M.unread K.left input.old) self.old.publisher
            self.new.publisher) }
        ensures when { IfOk result (λ taken. is_some taken ≡ takes_input self.old input.old) }
        ensures told { (life : Life) (datagram : List ℕ) → Publishes S.shows S.may_leave self.old.publisher life →
            IsTrueNow life datagram →
            LeavesOnly S.moment S.left_since self.old.publisher.durable.storage self.new.publisher.durable.storage
            (IsTold datagram) }
        ensures crash { (life : Life) → Publishes S.shows S.may_leave self.old.publisher life →
            self.old.publisher.durable.broken ≡ false →
            LeavesOnly S.moment S.left_since self.old.publisher.durable.storage self.new.publisher.durable.storage
            (IsFileUpTo life self.new.publisher) }
        ensures intact { OnOk result (self.new.publisher.durable.broken ≡ self.old.publisher.durable.broken) }
        ensures unfailed { OnOk result
            (S.failed self.new.publisher.durable.storage ≡ S.failed self.old.publisher.durable.storage) }
        ensures longest { self.new.publisher.publisher.journal.max_message
            ≡ self.old.publisher.publisher.journal.max_message }
        ensures silent { OnErr result (self.new.ports ≡ self.old.ports) }
    {
        let taken = self.take_input(input)?;
        self.send_due(lines);
        Ok(taken)
    }

    // Sends a heartbeat `times` times, if the session is open.
    fn send_beats(&mut self, lines: &FeedLines<L::Peer>, times: u32)
        ensures sent { HasSent S.shows S.may_leave L.modeled L.state lines.now
            (repeated times (next_heartbeat self.old.publisher.publisher)) self.old self.new }
        ensures publisher { self.new.publisher ≡ self.old.publisher }
    {
        if let Some(beat) = self.publisher.heartbeat() {
            send_often(&mut self.ports, lines, &mut self.counts, beat, times);
        }
    }

    // Sends an end packet `times` times, if the session is closed.
    fn send_ends(&mut self, lines: &FeedLines<L::Peer>, times: u32)
        ensures sent { HasSent S.shows S.may_leave L.modeled L.state lines.now
            (repeated times (next_end self.old.publisher.publisher)) self.old self.new }
        ensures publisher { self.new.publisher ≡ self.old.publisher }
    {
        if let Some(end) = self.publisher.end() {
            send_often(&mut self.ports, lines, &mut self.counts, end, times);
        }
    }

    // Closes the session, if it does not stay open. The fault is `Write`.
    fn close(&mut self, stays_open: bool) -> Result<(), CommandFault>
        requires { length self.old.publisher.publisher.journal.messages ≤ self.old.publisher.publisher.sent }
        ensures publishes { (life : Life) → Publishes S.shows S.may_leave self.old.publisher life → OnOk result
            (Publishes S.shows S.may_leave self.new.publisher (if stays_open then life else after_moment life Close)) }
        ensures told { (life : Life) (datagram : List ℕ) → Publishes S.shows S.may_leave self.old.publisher life →
            IsTrueNow life datagram →
            LeavesOnly S.moment S.left_since self.old.publisher.durable.storage self.new.publisher.durable.storage
            (IsTold datagram) }
        ensures crash { (life : Life) → Publishes S.shows S.may_leave self.old.publisher life →
            self.old.publisher.durable.broken ≡ false →
            LeavesOnly S.moment S.left_since self.old.publisher.durable.storage self.new.publisher.durable.storage
            (IsFileAtEnd stays_open life) }
        ensures intact { OnOk result (self.new.publisher.durable.broken ≡ self.old.publisher.durable.broken) }
        ensures unfailed { OnOk result
            (S.failed self.new.publisher.durable.storage ≡ S.failed self.old.publisher.durable.storage) }
        ensures publisher { OnOk result (self.new.publisher.publisher
            ≡ (if stays_open then self.old.publisher.publisher else closed self.old.publisher.publisher)) }
        ensures rest { self.new ≡ record self.old { publisher = self.new.publisher } }
        ensures fault { IfErr result (λ fault. fault ≡ CommandFault.Write) }
    {
        told_law();
        if stays_open {
            return Ok(());
        }
        match self.publisher.close() {
            Ok(()) => Ok(()),
            Err(_) => Err(CommandFault::Write),
        }
    }

    /// Ends the session after the last message. It sends heartbeats if the session is open, closes it unless it stays
    /// open, and sends end packets if it is closed. All messages must have been sent.
    ///
    /// The fault is `Write`: the closing is not committed, and no end packet is sent.
    pub fn end(&mut self, lines: &FeedLines<L::Peer>, end: FeedEnd) -> Result<(), CommandFault>
        requires { length self.old.publisher.publisher.journal.messages ≤ self.old.publisher.publisher.sent }
        ensures ended { (life : Life) → Publishes S.shows S.may_leave self.old.publisher life → OnOk result
            (HasEnded S.shows S.may_leave L.modeled L.state lines.now end life self.old self.new) }
        ensures beats_sent { OnErr result
            (HasSentBeats S.shows S.may_leave L.modeled L.state lines.now end.beats self.old self.new) }
        ensures told { (life : Life) (datagram : List ℕ) → Publishes S.shows S.may_leave self.old.publisher life →
            IsTrueNow life datagram →
            LeavesOnly S.moment S.left_since self.old.publisher.durable.storage self.new.publisher.durable.storage
            (IsTold datagram) }
        ensures crash { (life : Life) → Publishes S.shows S.may_leave self.old.publisher life →
            self.old.publisher.durable.broken ≡ false →
            LeavesOnly S.moment S.left_since self.old.publisher.durable.storage self.new.publisher.durable.storage
            (IsFileAtEnd end.stays_open life) }
        ensures intact { OnOk result (self.new.publisher.durable.broken ≡ self.old.publisher.durable.broken) }
        ensures unfailed { OnOk result
            (S.failed self.new.publisher.durable.storage ≡ S.failed self.old.publisher.durable.storage) }
        ensures publisher { OnOk result (self.new.publisher.publisher ≡ ended end self.old.publisher.publisher) }
        ensures fault { IfErr result (λ fault. fault ≡ CommandFault.Write) }
    {
        told_law();
        self.send_beats(lines, end.beats);
        match self.close(end.stays_open) {
            Ok(()) => {
                self.send_ends(lines, end.ends);
                Ok(())
            }
            Err(fault) => Err(fault),
        }
    }
}
