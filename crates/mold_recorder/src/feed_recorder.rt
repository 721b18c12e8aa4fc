//! A receiver over ports that keeps what it delivers in a durable journal: what it does in a turn.

ghost use Rattle.std.specs.Prelude.{◌≡◌, ◌+◌, ◌<◌, ◌^◌, [], ℕ, List, IfOk, false, true, OnErr, OnOk};
ghost use Rattle.mold_input.specs.declared.message_format.MessageFormat.TheVariants.{Blocks};
ghost use Rattle.mold_receive.specs.Receiving.{datagram_of_first, is_finished, last_line, last_status};
ghost use Rattle.mold_recorder.specs.Appending.{IsSaved};
ghost use Rattle.mold_recorder.specs.CommitPlan.{IsPlanOf, is_due};
ghost use Rattle.mold_recorder.specs.Recording.{HasBroken, HasEnded, HasEndedJournal, HasRecorded, HasSaid};
ghost use Rattle.mold_recorder.specs.Recording.{HasStopped, HasTaken, LeavesFiles, state_of};
ghost use Rattle.mold_repair.specs.declared.step.RepairStep.TheVariants.{Take};

use crate::appending::{append_batch, commit, save};
use crate::commit_plan::CommitPlan;
use mold_devices::{CommandFault, Sink};
use mold_durable::{DurableJournal, Storage};
use mold_port_set::PortSet;
use mold_receive::{AT_ONCE, FeedReceiver, FirstPacket, ReceiveOptions, last_status, origin_of};
use mold_repair::{RepairOrigin, Repairer};
use mold_wire::MAX_LIMIT;
use std::alloc::Global;

/// A receiver over ports, and when the messages that it delivered are committed. The journal that has them is an
/// argument of each call.
#[derive(Drop)]
pub(crate) struct FeedRecorder<D> {
    pub(crate) feed: FeedReceiver<D>,
    pub(crate) plan: CommitPlan,
    // The allocator of the receive buffer.
    pub(crate) alloc: Global,
}

impl<D: PortSet + Drop> FeedRecorder<D> {
    // Takes a datagram of this origin, and appends what it delivers.
    fn take<S: Storage>(
        &mut self,
        origin: RepairOrigin,
        datagram: &[u8],
        journal: &mut DurableJournal<S>,
    ) -> Result<(), CommandFault>
        requires plan { IsPlanOf self.old.plan journal.old.waiting }
        ensures taken { HasTaken S.shows S.may_leave S.moment S.left_since
            (Take (D.state self.old.feed.ports).now origin datagram.entry) self.old.feed.repairer
            self.new.feed.repairer journal.old journal.new result }
        ensures ports { self.new.feed.ports ≡ self.old.feed.ports }
        ensures plan { OnOk result (IsPlanOf self.new.plan journal.new.waiting) }
        ensures format { self.new.feed.outgoing.format ≡ self.old.feed.outgoing.format }
    {
        match self.feed.deliver(origin, datagram) {
            Ok(()) => {}
            Err(_) => return Err(CommandFault::Memory),
        }
        let now = self.feed.ports.now();
        append_batch(journal, &mut self.plan, &self.feed.batch, now)
    }

    // Takes the first packet, if there is one. The ports gave it before.
    fn take_first<S: Storage>(
        &mut self,
        first: &Option<FirstPacket>,
        journal: &mut DurableJournal<S>,
    ) -> Result<(), CommandFault>
        requires plan { IsPlanOf self.old.plan journal.old.waiting }
        ensures recorded { OnOk result ((lines : ℕ) (servers : List D.Peer) → HasRecorded lines servers D.modeled
            S.shows S.may_leave S.moment S.left_since (datagram_of_first lines first.now)
            (state_of D.state self.old.feed) (state_of D.state self.new.feed) journal.old journal.new) }
        ensures stopped { OnErr result ((lines : ℕ) (servers : List D.Peer) → HasStopped lines servers D.modeled
            S.shows S.may_leave S.moment S.left_since (datagram_of_first lines first.now)
            (state_of D.state self.old.feed) (state_of D.state self.new.feed) journal.old journal.new) }
        ensures saved { OnErr result (IsSaved journal.new) }
        ensures plan { OnOk result (IsPlanOf self.new.plan journal.new.waiting) }
        ensures format { self.new.feed.outgoing.format ≡ self.old.feed.outgoing.format }
    {
        let Some(first) = first else {
            return Ok(());
        };
        match self.take(first.origin, first.datagram.as_slice(), journal) {
            Ok(()) => Ok(()),
            Err(fault) => {
                save(journal);
                Err(fault)
            }
        }
    }

    // Takes the datagram that is at the port, if there is one. Returns whether there was one.
    fn receive_one<S: Storage>(
        &mut self,
        options: &ReceiveOptions<D::Peer>,
        port: usize,
        buffer: &mut [u8],
        journal: &mut DurableJournal<S>,
    ) -> Result<bool, CommandFault>
        requires port { port < options.now.lines + 2 ^ 32 }
        requires plan { IsPlanOf self.old.plan journal.old.waiting }
        ensures recorded { OnOk result (HasRecorded options.now.lines options.now.servers.items D.modeled
            S.shows S.may_leave S.moment S.left_since [] (state_of D.state self.old.feed)
            (state_of D.state self.new.feed) journal.old journal.new) }
        ensures stopped { OnErr result (HasStopped options.now.lines options.now.servers.items D.modeled
            S.shows S.may_leave S.moment S.left_since [] (state_of D.state self.old.feed)
            (state_of D.state self.new.feed) journal.old journal.new) }
        ensures plan { OnOk result (IsPlanOf self.new.plan journal.new.waiting) }
        ensures format { self.new.feed.outgoing.format ≡ self.old.feed.outgoing.format }
    {
        let origin = origin_of(options.lines(), port);
        match self.feed.ports.receive(port, buffer) {
            Ok(Some(count)) => {
                self.take(origin, &buffer[..count], journal)?;
                Ok(true)
            }
            Ok(None) => Ok(false),
            // The ports count it.
            Err(_) => Ok(false),
        }
    }

    // Takes what is at the port, at most `AT_ONCE` datagrams.
    fn receive_some<S: Storage>(
        &mut self,
        options: &ReceiveOptions<D::Peer>,
        port: usize,
        buffer: &mut [u8],
        journal: &mut DurableJournal<S>,
    ) -> Result<(), CommandFault>
        requires port { port < options.now.lines + 2 ^ 32 }
        requires plan { IsPlanOf self.old.plan journal.old.waiting }
        ensures recorded { OnOk result (HasRecorded options.now.lines options.now.servers.items D.modeled
            S.shows S.may_leave S.moment S.left_since [] (state_of D.state self.old.feed)
            (state_of D.state self.new.feed) journal.old journal.new) }
        ensures stopped { OnErr result (HasStopped options.now.lines options.now.servers.items D.modeled
            S.shows S.may_leave S.moment S.left_since [] (state_of D.state self.old.feed)
            (state_of D.state self.new.feed) journal.old journal.new) }
        ensures plan { OnOk result (IsPlanOf self.new.plan journal.new.waiting) }
        ensures format { self.new.feed.outgoing.format ≡ self.old.feed.outgoing.format }
    {
        for _ in 0..AT_ONCE {
            if !self.receive_one(options, port, buffer, journal)? {
                return Ok(());
            }
        }
        Ok(())
    }

    // Takes what is at all ports, at most `AT_ONCE` datagrams from each.
    fn receive_all<S: Storage>(
        &mut self,
        options: &ReceiveOptions<D::Peer>,
        buffer: &mut [u8],
        journal: &mut DurableJournal<S>,
    ) -> Result<(), CommandFault>
        requires plan { IsPlanOf self.old.plan journal.old.waiting }
        ensures recorded { OnOk result (HasRecorded options.now.lines options.now.servers.items D.modeled
            S.shows S.may_leave S.moment S.left_since [] (state_of D.state self.old.feed)
            (state_of D.state self.new.feed) journal.old journal.new) }
        ensures stopped { OnErr result (HasStopped options.now.lines options.now.servers.items D.modeled
            S.shows S.may_leave S.moment S.left_since [] (state_of D.state self.old.feed)
            (state_of D.state self.new.feed) journal.old journal.new) }
        ensures plan { OnOk result (IsPlanOf self.new.plan journal.new.waiting) }
        ensures format { self.new.feed.outgoing.format ≡ self.old.feed.outgoing.format }
    {
        for port in 0..options.ports() {
            self.receive_some(options, port, buffer, journal)?;
        }
        Ok(())
    }

    // Commits if this is due. `is_idle` states whether no port has a datagram.
    fn commit_due<S: Storage>(
        &mut self,
        is_idle: bool,
        journal: &mut DurableJournal<S>,
    ) -> Result<(), CommandFault>
        requires plan { IsPlanOf self.old.plan journal.old.waiting }
        ensures recorded { OnOk result ((lines : ℕ) (servers : List D.Peer) → HasRecorded lines servers D.modeled
            S.shows S.may_leave S.moment S.left_since [] (state_of D.state self.old.feed)
            (state_of D.state self.new.feed) journal.old journal.new) }
        ensures stopped { OnErr result ((lines : ℕ) (servers : List D.Peer) → HasStopped lines servers D.modeled
            S.shows S.may_leave S.moment S.left_since [] (state_of D.state self.old.feed)
            (state_of D.state self.new.feed) journal.old journal.new) }
        ensures feed { self.new.feed ≡ self.old.feed }
        ensures timely { OnOk result
            (is_due self.new.plan (D.state self.old.feed.ports).now is_idle ≡ false) }
        ensures plan { OnOk result (IsPlanOf self.new.plan journal.new.waiting) }
        ensures format { self.new.feed.outgoing.format ≡ self.old.feed.outgoing.format }
    {
        if !self.plan.is_due(self.feed.ports.now(), is_idle) {
            return Ok(());
        }
        commit(journal, &mut self.plan)
    }

    // Commits if this is due. Unless a datagram is at a port, waits, at most until the next commit is due.
    fn pause<S: Storage>(
        &mut self,
        options: &ReceiveOptions<D::Peer>,
        journal: &mut DurableJournal<S>,
    ) -> Result<(), CommandFault>
        requires plan { IsPlanOf self.old.plan journal.old.waiting }
        ensures recorded { OnOk result ((lines : ℕ) (servers : List D.Peer) → HasRecorded lines servers D.modeled
            S.shows S.may_leave S.moment S.left_since [] (state_of D.state self.old.feed)
            (state_of D.state self.new.feed) journal.old journal.new) }
        ensures stopped { OnErr result ((lines : ℕ) (servers : List D.Peer) → HasStopped lines servers D.modeled
            S.shows S.may_leave S.moment S.left_since [] (state_of D.state self.old.feed)
            (state_of D.state self.new.feed) journal.old journal.new) }
        ensures plan { OnOk result (IsPlanOf self.new.plan journal.new.waiting) }
        ensures format { self.new.feed.outgoing.format ≡ self.old.feed.outgoing.format }
    {
        if self.feed.is_busy() {
            return self.commit_due(false, journal);
        }
        self.commit_due(true, journal)?;
        self.feed.wait(options, self.plan.due_at());
        Ok(())
    }

    // Makes a pause and then a turn: takes what came, sends the requests that may be sent, and reports what is due.
    fn turn<S: Storage, E: Sink>(
        &mut self,
        options: &ReceiveOptions<D::Peer>,
        buffer: &mut [u8],
        journal: &mut DurableJournal<S>,
        errors: &mut E,
    ) -> Result<(), CommandFault>
        requires plan { IsPlanOf self.old.plan journal.old.waiting }
        ensures recorded { OnOk result (HasRecorded options.now.lines options.now.servers.items D.modeled
            S.shows S.may_leave S.moment S.left_since [] (state_of D.state self.old.feed)
            (state_of D.state self.new.feed) journal.old journal.new) }
        ensures stopped { OnErr result (HasStopped options.now.lines options.now.servers.items D.modeled
            S.shows S.may_leave S.moment S.left_since [] (state_of D.state self.old.feed)
            (state_of D.state self.new.feed) journal.old journal.new) }
        ensures plan { OnOk result (IsPlanOf self.new.plan journal.new.waiting) }
        ensures said { OnOk result (HasSaid (E.held errors.old) (E.held errors.new) []) }
        ensures format { self.new.feed.outgoing.format ≡ self.old.feed.outgoing.format }
    {
        self.pause(options, journal)?;
        self.receive_all(options, buffer, journal)?;
        self.feed.request_all(options);
        self.feed.report(options)?;
        self.feed.outgoing.send_side(errors)
    }

    // Makes turns until all messages of the session were delivered, or no datagram was accepted for too long. They are
    // at most those of the options.
    fn take_turns<S: Storage, E: Sink>(
        &mut self,
        options: &ReceiveOptions<D::Peer>,
        buffer: &mut [u8],
        journal: &mut DurableJournal<S>,
        errors: &mut E,
    ) -> Result<(), CommandFault>
        requires plan { IsPlanOf self.old.plan journal.old.waiting }
        ensures recorded { OnOk result (HasRecorded options.now.lines options.now.servers.items D.modeled
            S.shows S.may_leave S.moment S.left_since [] (state_of D.state self.old.feed)
            (state_of D.state self.new.feed) journal.old journal.new) }
        ensures stopped { OnErr result (HasStopped options.now.lines options.now.servers.items D.modeled
            S.shows S.may_leave S.moment S.left_since [] (state_of D.state self.old.feed)
            (state_of D.state self.new.feed) journal.old journal.new) }
        ensures said { OnOk result (HasSaid (E.held errors.old) (E.held errors.new) []) }
        ensures format { self.new.feed.outgoing.format ≡ self.old.feed.outgoing.format }
    {
        for _ in 0..options.turns() {
            self.turn(options, buffer, journal, errors)?;
            if is_finished(&self.feed.repairer) || self.feed.is_quiet(options) {
                return Ok(());
            }
        }
        Ok(())
    }

    // Ends the journal, prints the last line, and returns the status.
    fn end<S: Storage, E: Sink>(
        &mut self,
        options: &ReceiveOptions<D::Peer>,
        journal: &mut DurableJournal<S>,
        errors: &mut E,
    ) -> Result<u8, CommandFault>
        ensures ended { OnOk result (HasEndedJournal S.shows S.may_leave journal.old journal.new []
            (is_finished self.old.feed.repairer)) }
        ensures leaves { LeavesFiles S.shows S.may_leave S.moment S.left_since journal.old journal.new []
            (is_finished self.old.feed.repairer) }
        ensures saved { OnErr result (IsSaved journal.new) }
        ensures state { state_of D.state self.new.feed ≡ state_of D.state self.old.feed }
        ensures status { IfOk result (λ status. status ≡ last_status self.old.feed.repairer) }
        ensures said { self.old.feed.outgoing.format ≡ Blocks → OnOk result (HasSaid (E.held errors.old)
            (E.held errors.new)
            (last_line self.old.feed.repairer (D.state self.old.feed.ports).failures)) }
    {
        end_journal(&self.feed.repairer, journal)?;
        self.feed.push_end(options)?;
        self.feed.outgoing.send_side(errors)?;
        Ok(last_status(&self.feed.repairer))
    }

    // Makes the turns, with a buffer for datagrams.
    fn run_turns<S: Storage, E: Sink>(
        &mut self,
        options: &ReceiveOptions<D::Peer>,
        journal: &mut DurableJournal<S>,
        errors: &mut E,
    ) -> Result<(), CommandFault>
        requires plan { IsPlanOf self.old.plan journal.old.waiting }
        ensures recorded { OnOk result (HasRecorded options.now.lines options.now.servers.items D.modeled
            S.shows S.may_leave S.moment S.left_since [] (state_of D.state self.old.feed)
            (state_of D.state self.new.feed) journal.old journal.new) }
        ensures stopped { OnErr result (HasStopped options.now.lines options.now.servers.items D.modeled
            S.shows S.may_leave S.moment S.left_since [] (state_of D.state self.old.feed)
            (state_of D.state self.new.feed) journal.old journal.new) }
        ensures said { OnOk result (HasSaid (E.held errors.old) (E.held errors.new) []) }
        ensures format { self.new.feed.outgoing.format ≡ self.old.feed.outgoing.format }
    {
        let mut buffer = vec![in self.alloc; 0; MAX_LIMIT]?;
        self.take_turns(options, buffer.as_mut_slice(), journal, errors)
    }

    // Makes the turns, and ends.
    fn run<S: Storage, E: Sink>(
        &mut self,
        options: &ReceiveOptions<D::Peer>,
        journal: &mut DurableJournal<S>,
        errors: &mut E,
    ) -> Result<u8, CommandFault>
        requires plan { IsPlanOf self.old.plan journal.old.waiting }
        ensures ended { OnOk result (HasEnded options.now.lines options.now.servers.items D.modeled S.shows S.may_leave
            S.moment S.left_since [] (state_of D.state self.old.feed) (state_of D.state self.new.feed) journal.old
            journal.new) }
        ensures broken { OnErr result (HasBroken options.now.lines options.now.servers.items D.modeled S.shows
            S.may_leave S.moment S.left_since [] (state_of D.state self.old.feed) journal.old journal.new) }
        ensures saved { OnErr result (IsSaved journal.new) }
        ensures status { IfOk result (λ status. status ≡ last_status self.new.feed.repairer) }
        ensures said { self.old.feed.outgoing.format ≡ Blocks → OnOk result (HasSaid (E.held errors.old)
            (E.held errors.new)
            (last_line self.new.feed.repairer (D.state self.new.feed.ports).failures)) }
    {
        match self.run_turns(options, journal, errors) {
            Ok(()) => self.end(options, journal, errors),
            Err(fault) => {
                save(journal);
                Err(fault)
            }
        }
    }

    // Takes the first packet, if there is one, makes the turns, and ends.
    // For the prover: `record_loop` owns the recorder, so it makes no other call that may fail.
    pub(crate) fn receive<S: Storage, E: Sink>(
        &mut self,
        first: &Option<FirstPacket>,
        options: &ReceiveOptions<D::Peer>,
        journal: &mut DurableJournal<S>,
        errors: &mut E,
    ) -> Result<u8, CommandFault>
        requires plan { IsPlanOf self.old.plan journal.old.waiting }
        ensures ended { OnOk result (HasEnded options.now.lines options.now.servers.items D.modeled S.shows S.may_leave
            S.moment S.left_since (datagram_of_first options.now.lines first.now) (state_of D.state self.old.feed)
            (state_of D.state self.new.feed) journal.old journal.new) }
        ensures broken { OnErr result (HasBroken options.now.lines options.now.servers.items D.modeled S.shows
            S.may_leave S.moment S.left_since (datagram_of_first options.now.lines first.now)
            (state_of D.state self.old.feed) journal.old journal.new) }
        ensures saved { OnErr result (IsSaved journal.new) }
        ensures status { IfOk result (λ status. status ≡ last_status self.new.feed.repairer) }
        ensures said { self.old.feed.outgoing.format ≡ Blocks → OnOk result (HasSaid (E.held errors.old)
            (E.held errors.new)
            (last_line self.new.feed.repairer (D.state self.new.feed.ports).failures)) }
    {
        self.take_first(first, journal)?;
        self.run(options, journal, errors)
    }
}

// Returns whether the receiver has delivered all messages up to the known end of the session.
fn is_finished(repairer: &Repairer) -> bool
    ensures { result ≡ is_finished repairer.now }
{
    repairer.arbiter().receiver().finished()
}

// Commits all waiting messages. If the receiver is finished, closes the session too. The fault is `Write`.
fn end_journal<S: Storage>(
    repairer: &Repairer,
    journal: &mut DurableJournal<S>,
) -> Result<(), CommandFault>
    ensures ended { OnOk result (HasEndedJournal S.shows S.may_leave journal.old journal.new []
        (is_finished repairer.now)) }
    ensures broken { OnErr result (journal.new.broken ≡ true) }
    ensures leaves { LeavesFiles S.shows S.may_leave S.moment S.left_since journal.old journal.new []
        (is_finished repairer.now) }
{
    if is_finished(repairer) {
        return match journal.close() {
            Ok(()) => Ok(()),
            Err(_) => Err(CommandFault::Write),
        };
    }
    match journal.commit() {
        Ok(()) => Ok(()),
        Err(_) => Err(CommandFault::Write),
    }
}
