//! The listener at work: it receives on two lines, requests missing messages, and prints what the arbiter delivers.

ghost use Rattle.std.specs.Prelude.{◌≡◌, ◌⊎◌, [], true, length, IfErr, OnErr, OnOk};
ghost use Rattle.std.specs.Io.KnownBytes.{Appends};
ghost use Rattle.mold_devices.specs.Faults.{CountsSink};
ghost use Rattle.mold_input.specs.declared.message_format.MessageFormat.TheVariants.{Lines};
ghost use Rattle.mold_listen.specs.Listening.{Agrees, HasAsked, HasTurned, IsInNextTurn, IsSame, asking_state};
ghost use Rattle.mold_listen.specs.Listening.{is_over, listened_lines, listened_side, listening, progress, put_before};
ghost use Rattle.mold_listen.specs.Listening.{put_beside, receive_responses, receives, side_text, state, status};
ghost use Rattle.mold_ports.specs.Ports.{received};
ghost use Rattle.mold_turns.specs.Outgoing.{IsBounded, KeepsSide};
ghost use Rattle.mold_turns.specs.Runs.{Begins, WrittenInTime};
ghost use Rattle.mold_turns.specs.Sides.{CountsSinks, RanBeside, RestsBeside, TurnRestsBeside};
ghost use Rattle.mold_receiver.specs.Wanted.{wanted};
ghost use Rattle.mold_wire.specs.declared.limits.TheConstants.{MAX_LIMIT};

use crate::ending::push_end;
use crate::listen_options::ListenOptions;
use crate::printer::Printer;
use crate::receiving::receive_on;
use mold_devices::{CommandFault, Sink};
use mold_ports::Datagrams;
use mold_receiver::{Arbiter, Line, Origin};
use std::alloc::AllocError;

/// A listener at work: the ports of its two lines, the port that requests are sent from, the arbiter, and what is
/// still to be printed.
#[derive(Drop)]
pub(crate) struct FeedListener<'a, D> {
    pub(crate) a: &'a mut D,
    pub(crate) b: &'a mut D,
    pub(crate) requests: &'a mut D,
    pub(crate) arbiter: &'a mut Arbiter,
    pub(crate) printer: &'a mut Printer,
}

impl<'a, D: Datagrams> FeedListener<'a, D> {
    // Receives responses, at most `most`. Stops after the first receive that gives no datagram.
    fn receive_responses(&mut self, most: u16, buffer: &mut [u8]) -> Result<(), AllocError>
        requires { length buffer.old ≡ MAX_LIMIT }
        ensures sent { D.modeled ≡ true → (D.port self.new.requests.now).sent ≡ (D.port self.old.requests.now).sent }
        ensures received { D.modeled ≡ true → OnOk result (asking_state D.port self.new
            ≡ receive_responses (receives most (D.port self.old.requests.now).comes) (asking_state D.port self.old)) }
        ensures a { self.new.a ≡ self.old.a }
        ensures b { self.new.b ≡ self.old.b }
        ensures prints { Begins self.old.printer.now.outgoing.text self.new.printer.now.outgoing.text }
        ensures keeps { KeepsSide self.old.printer.now.outgoing self.new.printer.now.outgoing }
        ensures same { IsSame self.old self.new }
    {
        for _ in 0..most {
            if !receive_on(
                self.requests,
                Origin::Response,
                buffer,
                self.arbiter,
                self.printer,
            )? {
                break;
            }
        }
        Ok(())
    }

    // If messages are missing, sends the server a request for them. If the send succeeds, receives at most `burst`
    // responses. A failed send is counted.
    fn ask(&mut self, server: D::Peer, burst: u16, buffer: &mut [u8]) -> Result<(), AllocError>
        requires { length buffer.old ≡ MAX_LIMIT }
        ensures asked { D.modeled ≡ true → HasAsked (wanted self.old.arbiter.now.view) server burst result
            (asking_state D.port self.old) (asking_state D.port self.new) }
        ensures a { self.new.a ≡ self.old.a }
        ensures b { self.new.b ≡ self.old.b }
        ensures prints { Begins self.old.printer.now.outgoing.text self.new.printer.now.outgoing.text }
        ensures keeps { KeepsSide self.old.printer.now.outgoing self.new.printer.now.outgoing }
        ensures same { IsSame self.old self.new }
    {
        let Some(request) = self.arbiter.receiver().wanted() else {
            return Ok(());
        };
        if self.requests.send(server, &request.encode()).is_err() {
            self.printer.outgoing.count_failure();
            return Ok(());
        }
        self.receive_responses(burst, buffer)
    }

    // Makes one turn.
    fn take_turn(
        &mut self,
        server: D::Peer,
        burst: u16,
        buffer: &mut [u8],
    ) -> Result<(), AllocError>
        requires { length buffer.old ≡ MAX_LIMIT }
        ensures turned { D.modeled ≡ true →
            HasTurned server burst result (state D.port self.old) (state D.port self.new) }
        ensures a { D.modeled ≡ true → D.port self.new.a.now ≡ received (D.port self.old.a.now) }
        ensures b { D.modeled ≡ true → (D.port self.new.b.now ≡ D.port self.old.b.now)
            ⊎ (D.port self.new.b.now ≡ received (D.port self.old.b.now)) }
        ensures prints { Begins self.old.printer.now.outgoing.text self.new.printer.now.outgoing.text }
        ensures keeps { KeepsSide self.old.printer.now.outgoing self.new.printer.now.outgoing }
        ensures same { IsSame self.old self.new }
    {
        receive_on(
            self.a,
            Origin::Line(Line::A),
            buffer,
            self.arbiter,
            self.printer,
        )?;
        receive_on(
            self.b,
            Origin::Line(Line::B),
            buffer,
            self.arbiter,
            self.printer,
        )?;
        self.ask(server, burst, buffer)
    }

    // Makes one turn. Then writes the text for standard error, and the text if it has at least 65,536 bytes or the sink
    // is live. If the turn fails, writes the text of the turns before it.
    fn write_turn<K: Sink, E: Sink>(
        &mut self,
        options: ListenOptions<D::Peer>,
        buffer: &mut [u8],
        sink: &mut K,
        errors: &mut E,
    ) -> Result<(), CommandFault>
        requires { length buffer.old ≡ MAX_LIMIT }
        ensures run { D.modeled ≡ true →
            TurnRestsBeside (listening options.server options.burst) put_before put_beside side_text
            (state D.port self.old) result (K.held sink.old) (K.held sink.new) (E.held errors.old) (E.held errors.new)
            (state D.port self.new) }
        ensures a { D.modeled ≡ true → D.port self.new.a.now ≡ received (D.port self.old.a.now) }
        ensures b { D.modeled ≡ true → (D.port self.new.b.now ≡ D.port self.old.b.now)
            ⊎ (D.port self.new.b.now ≡ received (D.port self.old.b.now)) }
        ensures bounded { OnOk result (IsBounded (K.live sink.old) self.new.printer.now.outgoing.text) }
        ensures said { OnOk result (self.new.printer.now.outgoing.side ≡ []) }
        ensures kept { IfErr result (λ fault. fault ≡ CommandFault.Memory →
            Appends (K.held sink.old) (K.held sink.new) self.old.printer.now.outgoing.text) }
        ensures live { K.live sink.new ≡ K.live sink.old }
        ensures same { IsSame self.old self.new }
        ensures sinks { CountsSinks (K.failed sink.old) (K.failed sink.new) (E.failed errors.old) (E.failed errors.new)
            result }
        ensures format { self.new.printer.now.outgoing.format ≡ self.old.printer.now.outgoing.format }
        ensures lines { self.old.printer.now.outgoing.format ≡ Lines → self.old.printer.now.outgoing.side ≡ [] →
            (errors.new ≡ errors.old) × CountsSink (K.failed sink.old) (K.failed sink.new) result }
    {
        let told = self.printer.outgoing.unwritten();
        let Ok(()) = self.take_turn(options.server, options.burst, buffer) else {
            let outgoing = &mut self.printer.outgoing;
            return Err(outgoing.end_with(told, CommandFault::Memory, sink));
        };
        self.printer.outgoing.send_side(errors)?;
        self.printer.outgoing.send_large(sink)?;
        Ok(())
    }

    // Whether the listener ends after a turn: printing stopped before an empty message, or the receiver is finished.
    fn is_over(&self) -> bool
        ensures { result ≡ is_over (progress self.now.arbiter.now self.now.printer.now.outgoing) }
    {
        let outgoing = &self.printer.outgoing;
        match outgoing.stopped {
            Some(_) => true,
            None => self.arbiter.receiver().finished(),
        }
    }

    // Makes at most `options.turns` turns. Stops after the first turn after which the listener is over. Text that is
    // too short for a large write is kept for a later write.
    fn take_turns<K: Sink, E: Sink>(
        &mut self,
        options: ListenOptions<D::Peer>,
        buffer: &mut [u8],
        sink: &mut K,
        errors: &mut E,
    ) -> Result<(), CommandFault>
        requires { length buffer.old ≡ MAX_LIMIT }
        ensures run { D.modeled ≡ true →
            RestsBeside (listening options.server options.burst) put_before put_beside side_text options.turns
            (state D.port self.old) result (K.held sink.old) (K.held sink.new) (E.held errors.old) (E.held errors.new)
            (state D.port self.new) }
        ensures bounded { OnOk result (IsBounded (K.live sink.old) self.old.printer.now.outgoing.text →
            IsBounded (K.live sink.old) self.new.printer.now.outgoing.text) }
        ensures timely { OnErr result (D.modeled ≡ true →
            IsBounded (K.live sink.old) self.old.printer.now.outgoing.text →
            WrittenInTime (listening options.server options.burst) (state D.port self.old) (K.live sink.old)
            (K.held sink.old) (K.held sink.new) (IsInNextTurn (D.port self.new.a.now) (D.port self.new.b.now))) }
        ensures live { K.live sink.new ≡ K.live sink.old }
        ensures same { IsSame self.old self.new }
        ensures sinks { CountsSinks (K.failed sink.old) (K.failed sink.new) (E.failed errors.old) (E.failed errors.new)
            result }
        ensures said { OnOk result (self.old.printer.now.outgoing.side ≡ [] → self.new.printer.now.outgoing.side ≡ []) }
        ensures format { self.new.printer.now.outgoing.format ≡ self.old.printer.now.outgoing.format }
        ensures lines { self.old.printer.now.outgoing.format ≡ Lines → self.old.printer.now.outgoing.side ≡ [] →
            (errors.new ≡ errors.old) × CountsSink (K.failed sink.old) (K.failed sink.new) result }
    {
        for _turn in 0..options.turns {
            self.write_turn(options, buffer, sink, errors)?;
            if self.is_over() {
                return Ok(());
            }
        }
        Ok(())
    }

    /// Makes the turns, appends what `push_end` does, writes it, and returns its status. `buffer` has `MAX_LIMIT`
    /// bytes.
    pub(crate) fn listen<K: Sink, E: Sink>(
        &mut self,
        options: ListenOptions<D::Peer>,
        buffer: &mut [u8],
        sink: &mut K,
        errors: &mut E,
    ) -> Result<u8, CommandFault>
        requires { length buffer.old ≡ MAX_LIMIT }
        ensures run { D.modeled ≡ true →
            RanBeside (listening options.server options.burst) side_text options.turns (state D.port self.old)
            (listened_lines options.reporting) (listened_side options.reporting) status
            (Agrees (D.port self.new.a.now) (D.port self.new.b.now) (D.port self.new.requests.now) self.new.arbiter.now)
            result (K.held sink.old) (K.held sink.new) (E.held errors.old) (E.held errors.new)
            (D.port self.new.requests.now).sent }
        ensures timely { OnErr result (D.modeled ≡ true →
            IsBounded (K.live sink.old) self.old.printer.now.outgoing.text →
            WrittenInTime (listening options.server options.burst) (state D.port self.old) (K.live sink.old)
            (K.held sink.old) (K.held sink.new) (IsInNextTurn (D.port self.new.a.now) (D.port self.new.b.now))) }
        ensures same { IsSame self.old self.new }
        ensures sinks { CountsSinks (K.failed sink.old) (K.failed sink.new) (E.failed errors.old) (E.failed errors.new)
            result }
        ensures lines { self.old.printer.now.outgoing.format ≡ Lines → self.old.printer.now.outgoing.side ≡ [] →
            (errors.new ≡ errors.old) × CountsSink (K.failed sink.old) (K.failed sink.new) result }
    {
        self.take_turns(options, buffer, sink, errors)?;
        let outgoing = &mut self.printer.outgoing;
        let told = outgoing.unwritten();
        let Ok(status) = push_end(self.arbiter, options.reporting, outgoing) else {
            return Err(outgoing.end_with(told, CommandFault::Memory, sink));
        };
        outgoing.send_side(errors)?;
        outgoing.send(sink)?;
        Ok(status)
    }
}
