//! A receiver over ports: what it does in a turn.

ghost use Rattle.std.specs.Prelude.{◌≡◌, ◌+◌, ◌<◌, ◌≤◌, ◌^◌, ◌++◌, ◌==◌, [], ℕ, IfOk, IfSome, IsSome, List, None};
ghost use Rattle.std.specs.Prelude.{length, take, OnErr, OnOk};
ghost use Rattle.std.specs.Io.KnownBytes.{Appends};
ghost use Rattle.mold_devices.specs.Devices.{AppendsPrefix};
ghost use Rattle.mold_listen.specs.Text.{end_text, stop_line};
ghost use Rattle.mold_receive.specs.Receiving.{EndsIn, HasAsked, HasBegun, HasBroken, HasEnded, HasFailed, HasPrinted};
ghost use Rattle.mold_receive.specs.Receiving.{HasStopped, HasWritten, datagram_of_first, last_line, last_status};
ghost use Rattle.mold_receive.specs.Receiving.{lost_text, port_of, started, state_of};
ghost use Rattle.mold_repair.specs.Run.{HasLostSome, HasTaken, delivers};
ghost use Rattle.mold_repair.specs.declared.origin.RepairOrigin.TheVariants.{Line as OnLine};
ghost use Rattle.mold_repair.specs.declared.step.RepairStep.TheVariants.{Take};
ghost use Rattle.mold_turns.specs.Outgoing.{IsBounded, note_side, note_text};

use crate::calls;
use crate::first_packet::FirstPacket;
use crate::last_line::{last_status, push_last, push_mark, push_stop};
use crate::lines::{name_of, push_refused_from};
use crate::printing::print_batch;
use crate::receive_options::{NEVER, ReceiveOptions};
use crate::receiving::Received;
use crate::reporting::Reporting;
use crate::statistics::Statistics;
use mold_devices::{CommandFault, Sink};
use mold_input::MessageFormat;
use mold_pacing::Gap;
use mold_port_set::PortSet;
use mold_receiver::{Batch, Line, Refusal};
use mold_repair::{RepairOrigin, Repairer};
use mold_text::{Word, push_line};
use mold_turns::Outgoing;
use mold_wire::MAX_LIMIT;
use std::alloc::{AllocError, Global};

/// The most datagrams that are taken from a port before the next one is looked at.
pub const AT_ONCE: u32 = 64;

/// The most ranges that are given up in a turn. The others follow in the next one.
const MOST_LOST: u32 = 64;

/// The most requests that are sent in a turn.
const MOST_REQUESTS: u32 = 65_536;

/// The status of a receiver that stopped printing before an empty message.
const STOPPED: u8 = 2;

/// A receiver over ports: the ports, the repairer, a batch for what a call delivers, and what is still to be printed.
#[derive(Drop)]
pub struct FeedReceiver<D> {
    /// The ports: those of the lines, and then those of the servers.
    pub ports: D,
    /// The repairer.
    pub repairer: Repairer,
    /// The messages that the last call delivered. The memory is kept for the next call.
    pub batch: Batch,
    /// The text that is still to be written.
    pub outgoing: Outgoing,
    // What was reported on standard error, and when the next report is due.
    reporting: Reporting,
}

impl<D: PortSet + Drop> FeedReceiver<D> {
    /// Returns a receiver that took no datagram and printed nothing. It prints in this format. This allocates no
    /// memory.
    pub fn new(
        alloc: Global,
        ports: D,
        repairer: Repairer,
        options: &ReceiveOptions<D::Peer>,
        format: MessageFormat,
    ) -> FeedReceiver<D>
        ensures started { state_of D.state result ≡ started repairer (D.state ports) }
        ensures format { result.outgoing.format ≡ format }
        ensures side { result.outgoing.side ≡ [] }
    {
        let reporting = Reporting::new(ports.now(), options.stats);
        FeedReceiver {
            ports,
            repairer,
            batch: Batch::new(alloc),
            outgoing: Outgoing::with_format(alloc, format),
            reporting,
        }
    }

    // Prints why a datagram was refused, if a line about it is due.
    fn refuse(
        &mut self,
        origin: RepairOrigin,
        why: Refusal,
        datagram: &[u8],
    ) -> Result<(), AllocError>
        ensures repairer { self.new.repairer ≡ self.old.repairer }
        ensures batch { self.new.batch ≡ self.old.batch }
        ensures ports { self.new.ports ≡ self.old.ports }
        ensures text { self.new.outgoing.text ≡ self.old.outgoing.text }
        ensures format { self.new.outgoing.format ≡ self.old.outgoing.format }
    {
        if !self
            .reporting
            .refusals
            .admit(origin, &why, self.ports.now())
        {
            return Ok(());
        }
        push_refused_from(&mut self.outgoing.side, origin, why, datagram)
    }

    /// Takes a datagram of this origin. The batch then has what it delivers. If it is refused, a line with the reason
    /// is printed, unless such a line was printed a short time ago. An error means out of memory.
    pub fn deliver(&mut self, origin: RepairOrigin, datagram: &[u8]) -> Result<(), AllocError>
        ensures taken { HasTaken self.old.repairer self.new.repairer (D.state self.old.ports).now origin datagram.now
            self.new.batch }
        ensures options { self.new.repairer.options ≡ self.old.repairer.options }
        ensures ports { self.new.ports ≡ self.old.ports }
        ensures text { self.new.outgoing.text ≡ self.old.outgoing.text }
        ensures format { self.new.outgoing.format ≡ self.old.outgoing.format }
    {
        self.batch.clear();
        let now = self.ports.now();
        match calls::take(&mut self.repairer, now, origin, datagram, &mut self.batch) {
            Ok(()) => {
                self.reporting.accept(now);
                Ok(())
            }
            Err(Refusal::Memory) => Err(AllocError),
            Err(why) => self.refuse(origin, why, datagram),
        }
    }

    // Takes a datagram of this origin. Prints what it delivers, or why it is refused. Writes the text when it is large.
    // Here and in the functions above it, an error with a number in `stopped` is that of `print_batch`.
    fn take<K: Sink>(
        &mut self,
        origin: RepairOrigin,
        datagram: &[u8],
        sink: &mut K,
        stopped: &mut Option<u64>,
    ) -> Result<(), CommandFault>
        requires going { stopped.old ≡ None }
        ensures called { HasPrinted self.old.outgoing.format
            (Take (D.state self.old.ports).now origin datagram.entry) None self.old.repairer self.new.repairer
            self.old.outgoing.text self.new.outgoing.text (K.held sink.old) (K.held sink.new) stopped.new result }
        ensures going { OnOk result (stopped.new ≡ None) }
        ensures ports { self.new.ports ≡ self.old.ports }
        ensures bounded { OnOk result (IsBounded (K.live sink.old) self.new.outgoing.text) }
        ensures format { self.new.outgoing.format ≡ self.old.outgoing.format }
    {
        let Ok(()) = self.deliver(origin, datagram) else {
            let len = self.outgoing.unwritten();
            return Err(self.outgoing.end_with(len, CommandFault::Memory, sink));
        };
        print_batch(&mut self.outgoing, &self.batch, sink, stopped)
    }

    // Takes the first packet, if there is one. The ports gave it before. Prints what it delivers.
    fn take_first<K: Sink>(
        &mut self,
        first: &Option<FirstPacket>,
        sink: &mut K,
        stopped: &mut Option<u64>,
    ) -> Result<(), CommandFault>
        requires going { stopped.old ≡ None }
        ensures begun { OnOk result ((lines : ℕ) (servers : List D.Peer) → HasBegun lines servers
            self.old.outgoing.format D.modeled (datagram_of_first lines first.now)
            (state_of D.state self.old) (state_of D.state self.new) (K.held sink.old) (K.held sink.new)) }
        ensures failed { OnErr result ((lines : ℕ) (servers : List D.Peer) → HasBroken lines servers
            self.old.outgoing.format D.modeled (datagram_of_first lines first.now)
            (state_of D.state self.old) (K.held sink.old) (K.held sink.new)) }
        ensures cut { OnErr result (IfSome stopped.new (λ number. (lines : ℕ) (servers : List D.Peer) →
            HasStopped lines servers self.old.outgoing.format D.modeled (datagram_of_first lines first.now)
            (state_of D.state self.old) self.new.repairer (D.state self.new.ports)
            (K.held sink.old) (K.held sink.new) number)) }
        ensures going { OnOk result (stopped.new ≡ None) }
        ensures format { self.new.outgoing.format ≡ self.old.outgoing.format }
    {
        let Some(first) = first else {
            return Ok(());
        };
        self.take(first.origin, first.datagram.as_slice(), sink, stopped)
    }

    // Takes the datagram that is at the port, if there is one. Returns whether there was one.
    fn receive_one<K: Sink>(
        &mut self,
        options: &ReceiveOptions<D::Peer>,
        port: usize,
        buffer: &mut [u8],
        sink: &mut K,
        stopped: &mut Option<u64>,
    ) -> Result<bool, CommandFault>
        requires port { port < options.now.lines + 2 ^ 32 }
        requires going { stopped.old ≡ None }
        ensures written { OnOk result (HasWritten options.now.lines options.now.servers.items
            self.old.outgoing.format D.modeled (state_of D.state self.old) (state_of D.state self.new)
            (K.held sink.old) (K.held sink.new)) }
        ensures failed { OnErr result (HasFailed options.now.lines options.now.servers.items
            self.old.outgoing.format D.modeled (state_of D.state self.old) (K.held sink.old) (K.held sink.new)) }
        ensures cut { OnErr result (IfSome stopped.new (HasStopped options.now.lines options.now.servers.items
            self.old.outgoing.format D.modeled [] (state_of D.state self.old) self.new.repairer
            (D.state self.new.ports) (K.held sink.old) (K.held sink.new))) }
        ensures going { OnOk result (stopped.new ≡ None) }
        ensures format { self.new.outgoing.format ≡ self.old.outgoing.format }
    {
        let origin = origin_of(options.lines, port);
        match self.ports.receive(port, buffer) {
            Ok(Some(count)) => {
                self.take(origin, &buffer[..count], sink, stopped)?;
                Ok(true)
            }
            Ok(None) => Ok(false),
            // The ports count it.
            Err(_) => Ok(false),
        }
    }

    // Takes what is at the port, at most `AT_ONCE` datagrams.
    fn receive_some<K: Sink>(
        &mut self,
        options: &ReceiveOptions<D::Peer>,
        port: usize,
        buffer: &mut [u8],
        sink: &mut K,
        stopped: &mut Option<u64>,
    ) -> Result<(), CommandFault>
        requires port { port < options.now.lines + 2 ^ 32 }
        requires going { stopped.old ≡ None }
        ensures written { OnOk result (HasWritten options.now.lines options.now.servers.items
            self.old.outgoing.format D.modeled (state_of D.state self.old) (state_of D.state self.new)
            (K.held sink.old) (K.held sink.new)) }
        ensures failed { OnErr result (HasFailed options.now.lines options.now.servers.items
            self.old.outgoing.format D.modeled (state_of D.state self.old) (K.held sink.old) (K.held sink.new)) }
        ensures cut { OnErr result (IfSome stopped.new (HasStopped options.now.lines options.now.servers.items
            self.old.outgoing.format D.modeled [] (state_of D.state self.old) self.new.repairer
            (D.state self.new.ports) (K.held sink.old) (K.held sink.new))) }
        ensures going { OnOk result (stopped.new ≡ None) }
        ensures format { self.new.outgoing.format ≡ self.old.outgoing.format }
    {
        for _ in 0..AT_ONCE {
            if !self.receive_one(options, port, buffer, sink, stopped)? {
                return Ok(());
            }
        }
        Ok(())
    }

    // Takes what is at all ports, at most `AT_ONCE` datagrams from each.
    fn receive_all<K: Sink>(
        &mut self,
        options: &ReceiveOptions<D::Peer>,
        buffer: &mut [u8],
        sink: &mut K,
        stopped: &mut Option<u64>,
    ) -> Result<(), CommandFault>
        requires going { stopped.old ≡ None }
        ensures written { OnOk result (HasWritten options.now.lines options.now.servers.items
            self.old.outgoing.format D.modeled (state_of D.state self.old) (state_of D.state self.new)
            (K.held sink.old) (K.held sink.new)) }
        ensures failed { OnErr result (HasFailed options.now.lines options.now.servers.items
            self.old.outgoing.format D.modeled (state_of D.state self.old) (K.held sink.old) (K.held sink.new)) }
        ensures cut { OnErr result (IfSome stopped.new (HasStopped options.now.lines options.now.servers.items
            self.old.outgoing.format D.modeled [] (state_of D.state self.old) self.new.repairer
            (D.state self.new.ports) (K.held sink.old) (K.held sink.new))) }
        ensures going { OnOk result (stopped.new ≡ None) }
        ensures format { self.new.outgoing.format ≡ self.old.outgoing.format }
    {
        for port in 0..options.lines + options.servers.len() {
            self.receive_some(options, port, buffer, sink, stopped)?;
        }
        Ok(())
    }

    // Gives up the first missing messages, if that is due, and prints the line about them. The batch then has what was
    // stored after them.
    fn lose(&mut self) -> Result<Option<Gap>, AllocError>
        ensures lost { IfOk result (λ lost. HasLostSome self.old.repairer self.new.repairer
            (D.state self.old.ports).now self.new.batch (delivers self.old.repairer self.new.repairer None lost)) }
        ensures line { IfOk result (λ lost. self.new.outgoing.text
            ≡ self.old.outgoing.text ++ lost_text self.old.outgoing.format lost) }
        ensures kept { OnErr result
            (take (length self.old.outgoing.text) self.new.outgoing.text ≡ self.old.outgoing.text) }
        ensures options { self.new.repairer.options ≡ self.old.repairer.options }
        ensures ports { self.new.ports ≡ self.old.ports }
        ensures format { self.new.outgoing.format ≡ self.old.outgoing.format }
    {
        self.batch.clear();
        let lost = calls::lost(&mut self.repairer, self.ports.now(), &mut self.batch)?;
        push_lost(&mut self.outgoing, lost)?;
        Ok(lost)
    }

    // Gives up the first missing messages, if that is due, and prints what was stored after them. Writes the text when
    // it is large. Returns whether it was due.
    fn lose_one<K: Sink>(
        &mut self,
        sink: &mut K,
        stopped: &mut Option<u64>,
    ) -> Result<bool, CommandFault>
        requires going { stopped.old ≡ None }
        ensures written { OnOk result ((lines : ℕ) (servers : List D.Peer) → HasWritten lines servers
            self.old.outgoing.format D.modeled (state_of D.state self.old) (state_of D.state self.new)
            (K.held sink.old) (K.held sink.new)) }
        ensures failed { OnErr result ((lines : ℕ) (servers : List D.Peer) → HasFailed lines servers
            self.old.outgoing.format D.modeled (state_of D.state self.old) (K.held sink.old) (K.held sink.new)) }
        ensures cut { OnErr result (IfSome stopped.new (λ number. (lines : ℕ) (servers : List D.Peer) →
            HasStopped lines servers self.old.outgoing.format D.modeled [] (state_of D.state self.old)
            self.new.repairer (D.state self.new.ports) (K.held sink.old) (K.held sink.new) number)) }
        ensures going { OnOk result (stopped.new ≡ None) }
        ensures bounded { OnOk result (IsBounded (K.live sink.old) self.new.outgoing.text) }
        ensures format { self.new.outgoing.format ≡ self.old.outgoing.format }
    {
        let before = self.outgoing.unwritten();
        let Ok(lost) = self.lose() else {
            return Err(self.outgoing.end_with(before, CommandFault::Memory, sink));
        };
        print_batch(&mut self.outgoing, &self.batch, sink, stopped)?;
        Ok(lost.is_some())
    }

    // Gives up what is due, at most `MOST_LOST` ranges.
    fn lose_all<K: Sink>(
        &mut self,
        sink: &mut K,
        stopped: &mut Option<u64>,
    ) -> Result<(), CommandFault>
        requires going { stopped.old ≡ None }
        ensures written { OnOk result ((lines : ℕ) (servers : List D.Peer) → HasWritten lines servers
            self.old.outgoing.format D.modeled (state_of D.state self.old) (state_of D.state self.new)
            (K.held sink.old) (K.held sink.new)) }
        ensures failed { OnErr result ((lines : ℕ) (servers : List D.Peer) → HasFailed lines servers
            self.old.outgoing.format D.modeled (state_of D.state self.old) (K.held sink.old) (K.held sink.new)) }
        ensures cut { OnErr result (IfSome stopped.new (λ number. (lines : ℕ) (servers : List D.Peer) →
            HasStopped lines servers self.old.outgoing.format D.modeled [] (state_of D.state self.old)
            self.new.repairer (D.state self.new.ports) (K.held sink.old) (K.held sink.new) number)) }
        ensures going { OnOk result (stopped.new ≡ None) }
        ensures format { self.new.outgoing.format ≡ self.old.outgoing.format }
    {
        for _ in 0..MOST_LOST {
            if !self.lose_one(sink, stopped)? {
                return Ok(());
            }
        }
        Ok(())
    }

    // Sends the request that the repairer returns, if it returns one. Returns whether there was a request.
    fn request_one(&mut self, options: &ReceiveOptions<D::Peer>) -> bool
        ensures asked { HasAsked options.now.lines options.now.servers.items self.old.outgoing.format
            D.modeled (state_of D.state self.old) (state_of D.state self.new) }
        ensures text { self.new.outgoing.text ≡ self.old.outgoing.text }
        ensures format { self.new.outgoing.format ≡ self.old.outgoing.format }
    {
        let Some(ask) = calls::poll(&mut self.repairer, self.ports.now()) else {
            return false;
        };
        if let Some(server) = options.servers.get(ask.server as usize) {
            let port = options.lines + ask.server as usize;
            let _ = self.ports.send(port, *server, &ask.request.encode());
        }
        true
    }

    /// Sends all requests that may be sent now.
    pub fn request_all(&mut self, options: &ReceiveOptions<D::Peer>)
        ensures asked { HasAsked options.now.lines options.now.servers.items self.old.outgoing.format
            D.modeled (state_of D.state self.old) (state_of D.state self.new) }
        ensures text { self.new.outgoing.text ≡ self.old.outgoing.text }
        ensures format { self.new.outgoing.format ≡ self.old.outgoing.format }
    {
        for _ in 0..MOST_REQUESTS {
            if !self.request_one(options) {
                return;
            }
        }
    }

    /// Waits until a datagram is at a port, or until the repairer or the reports have something to do, but at most
    /// until the time `latest`.
    pub fn wait(&mut self, options: &ReceiveOptions<D::Peer>, latest: u64)
        ensures asked { (lines : ℕ) (servers : List D.Peer) → HasAsked lines servers
            self.old.outgoing.format D.modeled (state_of D.state self.old) (state_of D.state self.new) }
        ensures text { self.new.outgoing.text ≡ self.old.outgoing.text }
        ensures format { self.new.outgoing.format ≡ self.old.outgoing.format }
    {
        let until = calls::pass(&mut self.repairer, self.ports.now())
            .unwrap_or(NEVER)
            .min(latest)
            .min(self.reporting.stats_at())
            .min(self.reporting.quiet_at(options.quiet));
        let _ = self.ports.wait(until);
    }

    /// Returns whether a datagram may be at a port.
    pub fn is_busy(&mut self) -> bool
        ensures asked { (lines : ℕ) (servers : List D.Peer) → HasAsked lines servers
            self.old.outgoing.format D.modeled (state_of D.state self.old) (state_of D.state self.new) }
        ensures text { self.new.outgoing.text ≡ self.old.outgoing.text }
        ensures format { self.new.outgoing.format ≡ self.old.outgoing.format }
    {
        self.ports.wait(0).unwrap_or(false)
    }

    // Unless a datagram is at a port, writes all text, and waits.
    fn pause<K: Sink>(
        &mut self,
        options: &ReceiveOptions<D::Peer>,
        sink: &mut K,
    ) -> Result<(), CommandFault>
        ensures written { OnOk result ((lines : ℕ) (servers : List D.Peer) → HasWritten lines servers
            self.old.outgoing.format D.modeled (state_of D.state self.old) (state_of D.state self.new)
            (K.held sink.old) (K.held sink.new)) }
        ensures failed { OnErr result ((lines : ℕ) (servers : List D.Peer) → HasFailed lines servers
            self.old.outgoing.format D.modeled (state_of D.state self.old) (K.held sink.old) (K.held sink.new)) }
        ensures format { self.new.outgoing.format ≡ self.old.outgoing.format }
    {
        if self.is_busy() {
            return Ok(());
        }
        self.outgoing.send(sink)?;
        self.wait(options, NEVER);
        Ok(())
    }

    // Prints the statistics.
    fn push_stats(&mut self, options: &ReceiveOptions<D::Peer>) -> Result<(), AllocError>
        ensures repairer { self.new.repairer ≡ self.old.repairer }
        ensures ports { D.state self.new.ports ≡ D.state self.old.ports }
        ensures text { self.new.outgoing.text ≡ self.old.outgoing.text }
        ensures format { self.new.outgoing.format ≡ self.old.outgoing.format }
    {
        let statistics = Statistics {
            time: self.ports.now(),
            both: options.has_both(),
            stats: self.repairer.stats(),
            drops: self.ports.drops(),
        };
        statistics.push(&mut self.outgoing.side)?;
        self.push_all_passed(options)
    }

    // Prints how many datagrams of other senders the lines and the servers' ports ignored.
    fn push_all_passed(&mut self, options: &ReceiveOptions<D::Peer>) -> Result<(), AllocError>
        ensures repairer { self.new.repairer ≡ self.old.repairer }
        ensures ports { self.new.ports ≡ self.old.ports }
        ensures text { self.new.outgoing.text ≡ self.old.outgoing.text }
        ensures format { self.new.outgoing.format ≡ self.old.outgoing.format }
    {
        let at_servers = self.passed_at_servers(options);
        let side = &mut self.outgoing.side;
        push_passed(side, name_of(Line::A), self.ports.passed_over(0))?;
        if options.has_both() {
            push_passed(side, name_of(Line::B), self.ports.passed_over(1))?;
        }
        push_passed(side, b"server", at_servers)
    }

    // Returns the number of datagrams that the servers' ports ignored. It stops at `u64::MAX`.
    fn passed_at_servers(&self, options: &ReceiveOptions<D::Peer>) -> u64 {
        let mut passed = 0u64;
        for port in options.lines..options.lines + options.servers.len() {
            passed = passed.saturating_add(self.ports.passed_over(port));
        }
        passed
    }

    /// Prints a contradiction and the statistics, if they are due. An error means out of memory.
    pub fn report(&mut self, options: &ReceiveOptions<D::Peer>) -> Result<(), AllocError>
        ensures repairer { self.new.repairer ≡ self.old.repairer }
        ensures ports { D.state self.new.ports ≡ D.state self.old.ports }
        ensures text { self.new.outgoing.text ≡ self.old.outgoing.text }
        ensures format { self.new.outgoing.format ≡ self.old.outgoing.format }
    {
        let now = self.ports.now();
        let counts = self.repairer.counts();
        if let Some(number) = self.reporting.take_contradiction(now, &counts) {
            let words = [Word::Text(b"contradiction"), Word::Number(number)];
            push_line(&mut self.outgoing.side, &words)?;
        }
        if self.reporting.take_stats(now, options.stats) {
            self.push_stats(options)?;
        }
        Ok(())
    }

    // Makes a pause and then a turn: takes what came, gives up what is due, sends the requests that may be sent, and
    // reports what is due.
    fn turn<K: Sink, E: Sink>(
        &mut self,
        options: &ReceiveOptions<D::Peer>,
        buffer: &mut [u8],
        sink: &mut K,
        errors: &mut E,
        stopped: &mut Option<u64>,
    ) -> Result<(), CommandFault>
        requires going { stopped.old ≡ None }
        ensures written { OnOk result (HasWritten options.now.lines options.now.servers.items
            self.old.outgoing.format D.modeled (state_of D.state self.old) (state_of D.state self.new)
            (K.held sink.old) (K.held sink.new)) }
        ensures failed { OnErr result (HasFailed options.now.lines options.now.servers.items
            self.old.outgoing.format D.modeled (state_of D.state self.old) (K.held sink.old) (K.held sink.new)) }
        ensures cut { OnErr result (IfSome stopped.new (HasStopped options.now.lines options.now.servers.items
            self.old.outgoing.format D.modeled [] (state_of D.state self.old) self.new.repairer
            (D.state self.new.ports) (K.held sink.old) (K.held sink.new))) }
        ensures going { OnOk result (stopped.new ≡ None) }
        ensures format { self.new.outgoing.format ≡ self.old.outgoing.format }
    {
        self.pause(options, sink)?;
        self.receive_all(options, buffer, sink, stopped)?;
        self.lose_all(sink, stopped)?;
        self.request_all(options);
        let Ok(()) = self.report(options) else {
            let len = self.outgoing.unwritten();
            return Err(self.outgoing.end_with(len, CommandFault::Memory, sink));
        };
        self.outgoing.send_side(errors)
    }

    /// Returns whether no datagram was accepted for the time of `ReceiveOptions::with_quiet`.
    pub fn is_quiet(&self, options: &ReceiveOptions<D::Peer>) -> bool {
        self.reporting.quiet_at(options.quiet) <= self.ports.now()
    }

    // Makes turns until all messages of the session were delivered or given up, or no datagram was accepted for too
    // long. They are at most `options.turns`.
    fn take_turns<K: Sink, E: Sink>(
        &mut self,
        options: &ReceiveOptions<D::Peer>,
        buffer: &mut [u8],
        sink: &mut K,
        errors: &mut E,
        stopped: &mut Option<u64>,
    ) -> Result<(), CommandFault>
        requires going { stopped.old ≡ None }
        ensures written { OnOk result (HasWritten options.now.lines options.now.servers.items
            self.old.outgoing.format D.modeled (state_of D.state self.old) (state_of D.state self.new)
            (K.held sink.old) (K.held sink.new)) }
        ensures failed { OnErr result (HasFailed options.now.lines options.now.servers.items
            self.old.outgoing.format D.modeled (state_of D.state self.old) (K.held sink.old) (K.held sink.new)) }
        ensures cut { OnErr result (IfSome stopped.new (HasStopped options.now.lines options.now.servers.items
            self.old.outgoing.format D.modeled [] (state_of D.state self.old) self.new.repairer
            (D.state self.new.ports) (K.held sink.old) (K.held sink.new))) }
        ensures going { OnOk result (stopped.new ≡ None) }
        ensures format { self.new.outgoing.format ≡ self.old.outgoing.format }
    {
        for _ in 0..options.turns {
            self.turn(options, buffer, sink, errors, stopped)?;
            if self.repairer.arbiter().receiver().finished() || self.is_quiet(options) {
                return Ok(());
            }
        }
        Ok(())
    }

    /// Prints the last statistics, if statistics are printed, and the last line. An error means out of memory.
    pub fn push_end(&mut self, options: &ReceiveOptions<D::Peer>) -> Result<(), AllocError>
        ensures line { OnOk result (self.new.outgoing.text ≡ self.old.outgoing.text
            ++ note_text self.old.outgoing.format (last_line self.old.repairer (D.state self.old.ports).failures)) }
        ensures side { OnOk result (EndsIn (note_side self.old.outgoing.format
            (last_line self.old.repairer (D.state self.old.ports).failures)) self.new.outgoing.side) }
        ensures kept { OnErr result
            (take (length self.old.outgoing.text) self.new.outgoing.text ≡ self.old.outgoing.text) }
        ensures format { OnOk result (self.new.outgoing.format ≡ self.old.outgoing.format) }
        ensures repairer { self.new.repairer ≡ self.old.repairer }
        ensures ports { D.state self.new.ports ≡ D.state self.old.ports }
    {
        if options.has_stats() {
            self.push_stats(options)?;
        }
        push_last(&mut self.outgoing, &self.repairer, self.ports.failures())
    }

    // Appends what `push_end` prints, and the mark of the end if the format has one and the status is 0. Returns the
    // status.
    fn push_closing(&mut self, options: &ReceiveOptions<D::Peer>) -> Result<u8, AllocError>
        ensures status { IfOk result (λ status. status ≡ last_status self.old.repairer) }
        ensures text { OnOk result (self.new.outgoing.text ≡ self.old.outgoing.text
            ++ end_text self.old.outgoing.format None (last_status self.old.repairer == 0)
            (last_line self.old.repairer (D.state self.old.ports).failures)) }
        ensures kept { OnErr result
            (take (length self.old.outgoing.text) self.new.outgoing.text ≡ self.old.outgoing.text) }
        ensures repairer { self.new.repairer ≡ self.old.repairer }
        ensures ports { D.state self.new.ports ≡ D.state self.old.ports }
    {
        self.push_end(options)?;
        let status = last_status(&self.repairer);
        push_mark(&mut self.outgoing, status == 0)?;
        Ok(status)
    }

    // Appends the last line and the mark of the end, and writes all text. Returns the status.
    fn end<K: Sink, E: Sink>(
        &mut self,
        options: &ReceiveOptions<D::Peer>,
        sink: &mut K,
        errors: &mut E,
    ) -> Result<u8, CommandFault>
        ensures status { IfOk result (λ status. status ≡ last_status self.old.repairer) }
        ensures written { OnOk result (Appends (K.held sink.old) (K.held sink.new)
            (self.old.outgoing.text ++ end_text self.old.outgoing.format None (last_status self.old.repairer == 0)
            (last_line self.old.repairer (D.state self.old.ports).failures))) }
        ensures front { OnErr result (AppendsPrefix (K.held sink.old) (K.held sink.new)
            (self.old.outgoing.text ++ end_text self.old.outgoing.format None (last_status self.old.repairer == 0)
            (last_line self.old.repairer (D.state self.old.ports).failures))) }
        ensures repairer { self.new.repairer ≡ self.old.repairer }
        ensures ports { D.state self.new.ports ≡ D.state self.old.ports }
    {
        let before = self.outgoing.unwritten();
        let Ok(status) = self.push_closing(options) else {
            return Err(self.outgoing.end_with(before, CommandFault::Memory, sink));
        };
        self.outgoing.send_side(errors)?;
        self.outgoing.send(sink)?;
        Ok(status)
    }

    // Takes the first packet, makes the turns, and ends. An error with a number in `stopped` is that of `print_batch`.
    pub(crate) fn run<K: Sink, E: Sink>(
        &mut self,
        alloc: Global,
        first: &Option<FirstPacket>,
        options: &ReceiveOptions<D::Peer>,
        sink: &mut K,
        errors: &mut E,
        stopped: &mut Option<u64>,
    ) -> Result<u8, CommandFault>
        requires going { stopped.old ≡ None }
        ensures ended { IfOk result (HasEnded options.now.lines options.now.servers.items
            self.old.outgoing.format D.modeled (datagram_of_first options.now.lines first.now)
            (state_of D.state self.old) self.new.repairer (D.state self.new.ports)
            (K.held sink.old) (K.held sink.new)) }
        ensures failed { OnErr result (HasBroken options.now.lines options.now.servers.items
            self.old.outgoing.format D.modeled (datagram_of_first options.now.lines first.now)
            (state_of D.state self.old) (K.held sink.old) (K.held sink.new)) }
        ensures cut { OnErr result (IfSome stopped.new (HasStopped options.now.lines options.now.servers.items
            self.old.outgoing.format D.modeled (datagram_of_first options.now.lines first.now)
            (state_of D.state self.old) self.new.repairer (D.state self.new.ports)
            (K.held sink.old) (K.held sink.new))) }
    {
        self.take_first(first, sink, stopped)?;
        let mut buffer = vec![in alloc; 0; MAX_LIMIT]?;
        self.take_turns(options, buffer.as_mut_slice(), sink, errors, stopped)?;
        self.end(options, sink, errors)
    }

    // Prints the line of the empty message `number`, before which printing stopped, on standard error.
    fn say_stop<E: Sink>(&mut self, number: u64, errors: &mut E) -> Result<(), CommandFault>
        ensures said { OnOk result (Appends (E.held errors.old) (E.held errors.new)
            (self.old.outgoing.side ++ stop_line number)) }
        ensures repairer { self.new.repairer ≡ self.old.repairer }
        ensures ports { self.new.ports ≡ self.old.ports }
    {
        push_stop(&mut self.outgoing.side, number)?;
        self.outgoing.send_side(errors)
    }

    // Ends a receiver whose run returned the error `fault`. If printing stopped before an empty message, prints its
    // line on standard error, and the status is 2. Otherwise the error is a fault.
    pub(crate) fn stop<E: Sink>(
        self,
        fault: CommandFault,
        stopped: Option<u64>,
        errors: &mut E,
    ) -> Result<Received<D>, CommandFault>
        ensures { IfOk result (λ received. (received.stopped ≡ stopped) × IsSome received.stopped
            × (received.status ≡ 2) × (received.ports ≡ self.ports) × (received.repairer ≡ self.repairer)) }
    {
        let Some(number) = stopped else {
            return Err(fault);
        };
        let mut receiver = self;
        receiver.say_stop(number, errors)?;
        let mut received = receiver.into_received(STOPPED);
        received.stopped = stopped;
        Ok(received)
    }

    /// Returns what a receiver that ended with this status leaves.
    pub fn into_received(self, status: u8) -> Received<D>
        ensures status { result.status ≡ status }
        ensures stopped { result.stopped ≡ None }
        ensures ports { result.ports ≡ self.ports }
        ensures repairer { result.repairer ≡ self.repairer }
    {
        let FeedReceiver {
            ports,
            repairer,
            ..
        } = self;
        Received {
            status,
            stopped: None,
            ports,
            repairer,
        }
    }
}

// Returns the line whose port has this index.
fn line_at(port: usize) -> Line
    requires { port < 2 }
    ensures { port_of 2 (OnLine result) ≡ port }
{
    if port == 0 { Line::A } else { Line::B }
}

/// Returns the origin of the datagrams of the port. The ports of the servers follow those of the lines.
pub fn origin_of(lines: usize, port: usize) -> RepairOrigin
    requires lines { lines ≤ 2 }
    requires few { port < lines + 2 ^ 32 }
    ensures { port ≡ port_of lines result }
{
    if port < lines {
        return RepairOrigin::Line(line_at(port));
    }
    RepairOrigin::Server((port - lines) as u32)
}

// Appends the line of the messages that were given up, if there are any.
fn push_lost(outgoing: &mut Outgoing, lost: Option<Gap>) -> Result<(), AllocError>
    ensures line { OnOk result (outgoing.new.text
        ≡ outgoing.old.text ++ lost_text outgoing.old.format lost) }
    ensures kept { OnErr result (take (length outgoing.old.text) outgoing.new.text ≡ outgoing.old.text) }
    ensures format { outgoing.new.format ≡ outgoing.old.format }
{
    let Some(gap) = lost else {
        return Ok(());
    };
    let words = [
        Word::Text(b"lost"),
        Word::Number(gap.first),
        Word::Number(gap.end.saturating_sub(1)),
    ];
    outgoing.push_note(&words)
}

// Appends the count of datagrams of other senders that were ignored on a line or at the servers' ports, if there are
// any.
fn push_passed(out: &mut Vec<u8>, name: &[u8], passed: u64) -> Result<(), AllocError> {
    if passed == 0 {
        return Ok(());
    }
    let words = [
        Word::Text(b"passed"),
        Word::Text(name),
        Word::Number(passed),
    ];
    push_line(out, &words)
}
