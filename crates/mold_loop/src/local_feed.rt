//! The state of a running loop, and its steps: publish, receive, repair, print.

ghost use Rattle.std.specs.Prelude.{◌≡◌, ◌+◌, ◌≤◌, [], ◌∷◌, true, None, Some, Bool, List, length, IfErr, IfOk};
ghost use Rattle.std.specs.Prelude.{IfSome, OnOk};
ghost use Rattle.mold_devices.specs.Faults.{CountsCommand};
ghost use Rattle.mold_input.specs.Entries.{known_input};
ghost use Rattle.mold_listen.specs.Listening.{receive_responses};
ghost use Rattle.std.specs.Io.KnownBytes.{Appends};
ghost use Rattle.mold_loop.specs.LocalFeed.{HasBuffer, IsSame, OnlyPasses, OnlyRepairs, Passes, PassesAndWrites};
ghost use Rattle.mold_loop.specs.LocalFeed.{asking_state, lines, outgoing, rounds, unwritten};
ghost use Rattle.mold_loop.specs.Looping.{ReceivesMessages, LoopRun, after_routes};
ghost use Rattle.mold_loop.specs.Passing.{routed, routed_end};
ghost use Rattle.mold_send.specs.PublishLoop.{left_journal, spelled_some};
ghost use Rattle.mold_loop.specs.Repairing.{HasRepaired, answers_sent, repaired, repairing, requested, rounds_side};
ghost use Rattle.mold_loop.specs.Repairing.{side_before, text_before};
ghost use Rattle.mold_loop.specs.Writing.{CountsLoop, IsPlain, IsQuiet};
ghost use Rattle.mold_turns.specs.Outgoing.{IsBounded, KeepsSide};
ghost use Rattle.mold_receiver.specs.Wanted.{wanted};
ghost use Rattle.mold_turns.specs.Runs.{Begins};
ghost use Rattle.mold_turns.specs.Sides.{CountsSinks, RestsOfTwo, TurnRestsOfTwo};
ghost use Rattle.mold_serve.specs.Serving.{service_of};
ghost use Rattle.mold_publish.specs.Publishing.{HasRoom, input_published};
ghost use Rattle.mold_session.specs.Publisher.{after_datagram, closed, next_datagram};

use crate::loop_parts::{Listener, LoopOptions, LoopPorts, Routes};
use crate::looping::{print_last, print_refused};
use crate::passing::{routes_of, send_on};
use crate::receiving::{receive_if, receive_once};
use crate::writing::write_large;
use mold_devices::{CommandFault, Sink, Source};
use mold_input::{InputKind, MessageReader};
use mold_ports::Datagrams;
use mold_publish::{Filled, MessageRefusal, fill};
use mold_receiver::{Line, Origin};
use mold_send::publisher_holds;
use mold_serve::{Tally, serve_once};
use mold_session::laws::packing_law;
use mold_session::{Journal, Publisher, Server};
use mold_wire::Request;
use mold_wire::laws::front_law;
use std::alloc::{AllocError, Global};

/// The state of a running loop: its ports, its options, a receive buffer, the listener and the allocator.
// The options are borrowed, as the peers of `TwoLines` are.
#[derive(Drop)]
pub(crate) struct LocalFeed<'a, 'p, D: Datagrams + Drop> {
    pub(crate) ports: &'a mut LoopPorts<D>,
    pub(crate) options: &'p LoopOptions<D::Peer>,
    pub(crate) buffer: &'a mut [u8],
    pub(crate) listener: &'a mut Listener,
    pub(crate) alloc: Global,
}

impl<'a, 'p, D: Datagrams + Drop> LocalFeed<'a, 'p, D> {
    // Makes one receive on each line of `routes`.
    fn receive_on_lines(&mut self, routes: Routes) -> Result<(), AllocError>
        requires { HasBuffer self.old }
        ensures received { D.modeled ≡ true →
            OnOk result (lines D.port self.new ≡ after_routes routes (lines D.port self.old)) }
        ensures publisher { self.new.ports.now.publisher ≡ self.old.ports.now.publisher }
        ensures only { OnlyPasses D.modeled D.port self.old self.new }
        ensures prints { Begins (unwritten self.old) (unwritten self.new) }
        ensures keeps { KeepsSide (outgoing self.old) (outgoing self.new) }
    {
        let a = &mut self.ports.a;
        receive_if(a, routes.a, Line::A, self.buffer, self.listener)?;
        let b = &mut self.ports.b;
        receive_if(b, routes.b, Line::B, self.buffer, self.listener)
    }

    // Sends a datagram on the lines of `routes`, and makes one receive on each line where the send succeeded.
    fn pass(&mut self, routes: Routes, datagram: &[u8]) -> Result<(), AllocError>
        requires { HasBuffer self.old }
        ensures passed { D.modeled ≡ true → Passes D.port ((routes, datagram.now) ∷ []) result self.old self.new }
        ensures only { OnlyPasses D.modeled D.port self.old self.new }
        ensures prints { Begins (unwritten self.old) (unwritten self.new) }
        ensures keeps { KeepsSide (outgoing self.old) (outgoing self.new) }
    {
        let port = &mut self.ports.publisher;
        let options = self.options;
        let sent = send_on(port, &options.peers, routes, datagram, self.listener);
        self.receive_on_lines(sent)
    }

    // Passes the publisher's next datagram, if there is one. `number` counts the datagrams.
    fn pass_next(&mut self, publisher: &mut Publisher, number: &mut u64) -> Result<(), AllocError>
        requires buffer { HasBuffer self.old }
        requires few { number.old ≤ publisher.old.sent }
        ensures counted { number.new ≡ number.old + length (spelled_some (next_datagram publisher.old)) }
        ensures sent { publisher.new ≡ after_datagram publisher.old }
        ensures passed { D.modeled ≡ true → Passes D.port
            (routed self.old.options.now.drops (number.old + 1) (spelled_some (next_datagram publisher.old)))
            result self.old self.new }
        ensures only { OnlyPasses D.modeled D.port self.old self.new }
        ensures prints { Begins (unwritten self.old) (unwritten self.new) }
        ensures keeps { KeepsSide (outgoing self.old) (outgoing self.new) }
    {
        publisher_holds(publisher);
        let Some(datagram) = publisher.datagram() else {
            return Ok(());
        };
        *number += 1;
        let routes = routes_of(self.options.drops, *number);
        self.pass(routes, datagram)
    }

    // Makes one step of `pass_next`. Then writes the text for standard error, and the text for standard output if it
    // has at least 65,536 bytes or the sink is live. If memory runs out in the step, writes the text for standard
    // output before it.
    fn write_next<K: Sink, E: Sink>(
        &mut self,
        publisher: &mut Publisher,
        number: &mut u64,
        sink: &mut K,
        errors: &mut E,
    ) -> Result<(), CommandFault>
        requires buffer { HasBuffer self.old }
        requires few { number.old ≤ publisher.old.sent }
        ensures counted { number.new ≡ number.old + length (spelled_some (next_datagram publisher.old)) }
        ensures sent { publisher.new ≡ after_datagram publisher.old }
        ensures passed { D.modeled ≡ true → PassesAndWrites D.port
            (routed self.old.options.now.drops (number.old + 1) (spelled_some (next_datagram publisher.old)))
            result self.old self.new (K.held sink.old) (K.held sink.new) (E.held errors.old) (E.held errors.new) }
        ensures bounded { OnOk result (IsBounded (K.live sink.old) (unwritten self.new)) }
        ensures kept { IfErr result (λ fault. fault ≡ CommandFault.Memory →
            Appends (K.held sink.old) (K.held sink.new) (unwritten self.old)) }
        ensures live { K.live sink.new ≡ K.live sink.old }
        ensures only { OnlyPasses D.modeled D.port self.old self.new }
        ensures sinks { CountsSinks (K.failed sink.old) (K.failed sink.new) (E.failed errors.old) (E.failed errors.new)
            result }
        ensures plain { OnOk result (IsPlain (outgoing self.old) → IsPlain (outgoing self.new)) }
        ensures quiet { IsPlain (outgoing self.old) →
            IsQuiet (K.failed sink.old) (K.failed sink.new) errors.old errors.new result }
    {
        let told = self.listener.printer.outgoing.unwritten();
        let Ok(()) = self.pass_next(publisher, number) else {
            let outgoing = &mut self.listener.printer.outgoing;
            return Err(outgoing.end_with(told, CommandFault::Memory, sink));
        };
        write_large(&mut self.listener.printer.outgoing, sink, errors)
    }

    // Publishes the messages of the source. Passes a datagram each time the publisher is full, and the rest after the
    // last message. After each datagram, writes text as `write_next` does. Returns the refusal if an entry is refused.
    // The rest is then passed unless the input is of lines. If reading fails or memory runs out, writes the text for
    // standard output of the datagrams before that.
    fn pass_messages<M: MessageReader, S: Source, K: Sink, E: Sink>(
        &mut self,
        publisher: &mut Publisher,
        source: &mut S,
        sink: &mut K,
        errors: &mut E,
    ) -> Result<Option<MessageRefusal>, CommandFault>
        requires room { HasRoom publisher.old }
        requires buffer { HasBuffer self.old }
        ensures received { D.modeled ≡ true → ReceivesMessages self.old.options.now.drops
            self.old.options.now.peers.a self.old.options.now.peers.b
            publisher.old publisher.new (known_input M.input_kind M.entries (S.left source.old)) result
            (lines D.port self.old) (lines D.port self.new)
            (K.held sink.old) (K.held sink.new) (E.held errors.old) (E.held errors.new) }
        ensures only { OnlyPasses D.modeled D.port self.old self.new }
        ensures all { IfOk result (λ refused. refused ≡ None →
            publisher.new.sent ≡ length publisher.new.journal.messages) }
        ensures limit { OnOk result (publisher.new.limit ≡ publisher.old.limit) }
        ensures bounded { OnOk result
            (IsBounded (K.live sink.old) (unwritten self.old) → IsBounded (K.live sink.old) (unwritten self.new)) }
        ensures live { K.live sink.new ≡ K.live sink.old }
        ensures plain { OnOk result (IsPlain (outgoing self.old) → IsPlain (outgoing self.new)) }
        ensures quiet { IsPlain (outgoing self.old) → (errors.new ≡ errors.old)
            × CountsCommand (S.failed source.old) (S.failed source.new) (K.failed sink.old) (K.failed sink.new) result }
        ensures failures { CountsLoop (S.failed source.old) (S.failed source.new)
            (K.failed sink.old) (K.failed sink.new) (E.failed errors.old) (E.failed errors.new) result }
    {
        front_law();
        packing_law();
        let mut messages = M::new(self.alloc)?;
        let mut number = 0;
        'passing: loop {
            match fill(publisher, &mut messages, source) {
                Ok(Filled::Full) => self.write_next(publisher, &mut number, sink, errors)?,
                Ok(Filled::End) => {
                    self.write_next(publisher, &mut number, sink, errors)?;
                    return Ok(None);
                }
                Ok(Filled::Refused { refusal }) => match refusal.kind {
                    InputKind::Lines => return Ok(Some(refusal)),
                    InputKind::Blocks => {
                        self.write_next(publisher, &mut number, sink, errors)?;
                        return Ok(Some(refusal));
                    }
                },
                Err(fault) => {
                    let met = CommandFault::from(fault);
                    let outgoing = &mut self.listener.printer.outgoing;
                    let len = outgoing.unwritten();
                    return Err(outgoing.end_with(len, met, sink));
                }
            }
        }
    }

    // Closes the session, whose messages are all sent, and passes its end packet on both lines.
    fn pass_end(&mut self, publisher: &mut Publisher) -> Result<(), AllocError>
        requires buffer { HasBuffer self.old }
        requires sent { publisher.old.sent ≡ length publisher.old.journal.messages }
        ensures limit { publisher.new.limit ≡ publisher.old.limit }
        ensures closed { publisher.new ≡ closed publisher.old }
        ensures passed { D.modeled ≡ true →
            Passes D.port (routed_end publisher.old.journal None) result self.old self.new }
        ensures only { OnlyPasses D.modeled D.port self.old self.new }
        ensures prints { Begins (unwritten self.old) (unwritten self.new) }
        ensures keeps { KeepsSide (outgoing self.old) (outgoing self.new) }
    {
        let _ = publisher.close();
        match publisher.end() {
            Some(end) => {
                let routes = Routes { a: true, b: true };
                self.pass(routes, end)
            }
            None => Ok(()),
        }
    }

    // Makes the step of `pass_end`. Then writes text as `write_next` does. If memory runs out in the step, writes the
    // text for standard output before it.
    fn write_end<K: Sink, E: Sink>(
        &mut self,
        publisher: &mut Publisher,
        sink: &mut K,
        errors: &mut E,
    ) -> Result<(), CommandFault>
        requires buffer { HasBuffer self.old }
        requires sent { publisher.old.sent ≡ length publisher.old.journal.messages }
        ensures limit { publisher.new.limit ≡ publisher.old.limit }
        ensures closed { publisher.new ≡ closed publisher.old }
        ensures passed { D.modeled ≡ true → PassesAndWrites D.port (routed_end publisher.old.journal None)
            result self.old self.new (K.held sink.old) (K.held sink.new) (E.held errors.old) (E.held errors.new) }
        ensures bounded { OnOk result (IsBounded (K.live sink.old) (unwritten self.new)) }
        ensures kept { IfErr result (λ fault. fault ≡ CommandFault.Memory →
            Appends (K.held sink.old) (K.held sink.new) (unwritten self.old)) }
        ensures live { K.live sink.new ≡ K.live sink.old }
        ensures only { OnlyPasses D.modeled D.port self.old self.new }
        ensures sinks { CountsSinks (K.failed sink.old) (K.failed sink.new) (E.failed errors.old) (E.failed errors.new)
            result }
        ensures plain { OnOk result (IsPlain (outgoing self.old) → IsPlain (outgoing self.new)) }
        ensures quiet { IsPlain (outgoing self.old) →
            IsQuiet (K.failed sink.old) (K.failed sink.new) errors.old errors.new result }
    {
        let told = self.listener.printer.outgoing.unwritten();
        let Ok(()) = self.pass_end(publisher) else {
            let outgoing = &mut self.listener.printer.outgoing;
            return Err(outgoing.end_with(told, CommandFault::Memory, sink));
        };
        let outgoing = &mut self.listener.printer.outgoing;
        write_large(outgoing, sink, errors)
    }

    // Makes `count` receives for the responses to a request.
    fn take_answers(&mut self, count: u64) -> Result<(), AllocError>
        requires { HasBuffer self.old }
        ensures sent { D.modeled ≡ true →
            (D.port self.new.ports.now.requests).sent ≡ (D.port self.old.ports.now.requests).sent }
        ensures received { D.modeled ≡ true → OnOk result
            (asking_state D.port self.new ≡ receive_responses count (asking_state D.port self.old)) }
        ensures server { self.new.ports.now.server ≡ self.old.ports.now.server }
        ensures only { OnlyRepairs self.old self.new }
        ensures prints { Begins (unwritten self.old) (unwritten self.new) }
        ensures keeps { KeepsSide (outgoing self.old) (outgoing self.new) }
    {
        for _answer in 0..count {
            let requests = &mut self.ports.requests;
            receive_once(requests, Origin::Response, self.buffer, self.listener)?;
        }
        Ok(())
    }

    // Lets the server take one turn, in which it responds to a request in its port. Then receives the responses.
    fn repair(&mut self, server: &mut Server, journal: &Journal) -> Result<(), AllocError>
        requires buffer { HasBuffer self.old }
        requires longest { journal.now.max_message ≤ server.old.max_message }
        ensures repaired { D.modeled ≡ true → (fails : List Bool) ×
            HasRepaired result (rounds D.port server.new self.new)
            (repaired (service_of journal.now server.old) fails (rounds D.port server.old self.old)) }
        ensures server { server.new ≡ record server.old { answered = server.new.answered } }
        ensures only { OnlyRepairs self.old self.new }
        ensures prints { Begins (unwritten self.old) (unwritten self.new) }
        ensures keeps { KeepsSide (outgoing self.old) (outgoing self.new) }
    {
        let mut tally = Tally::new(self.alloc);
        let mut served = journal;
        let port = &mut self.ports.server;
        // The journal is in memory, so a turn fails only if an allocation does.
        let Ok(()) = serve_once(port, server, &mut served, &mut tally, self.buffer) else {
            return Err(AllocError);
        };
        let answered = tally.answered;
        let failures = tally.outgoing.failures();
        self.listener.printer.outgoing.count_failures(failures);
        self.take_answers(answered)
    }

    // Makes one round: sends a request to the server, and receives the responses. A failed send is counted.
    fn round(
        &mut self,
        server: &mut Server,
        journal: &Journal,
        request: &Request,
    ) -> Result<(), AllocError>
        requires buffer { HasBuffer self.old }
        requires longest { journal.now.max_message ≤ server.old.max_message }
        ensures requested { D.modeled ≡ true → (choice : Bool × List Bool) × HasRepaired result
            (rounds D.port server.new self.new)
            (requested (Some request.now) self.old.options.now.peers.server (service_of journal.now server.old) choice
            (rounds D.port server.old self.old)) }
        ensures server { server.new ≡ record server.old { answered = server.new.answered } }
        ensures only { OnlyRepairs self.old self.new }
        ensures prints { Begins (unwritten self.old) (unwritten self.new) }
        ensures keeps { KeepsSide (outgoing self.old) (outgoing self.new) }
    {
        let to = self.options.peers.server;
        if self.ports.requests.send(to, &request.encode()).is_err() {
            self.listener.printer.outgoing.count_failure();
            return Ok(());
        }
        self.repair(server, journal)
    }

    // Makes one round for the wanted messages. Then writes text as `write_next` does. If memory runs out in the round,
    // writes the text for standard output before it.
    fn write_round<K: Sink, E: Sink>(
        &mut self,
        server: &mut Server,
        journal: &Journal,
        request: &Request,
        sink: &mut K,
        errors: &mut E,
    ) -> Result<(), CommandFault>
        requires buffer { HasBuffer self.old }
        requires longest { journal.now.max_message ≤ server.old.max_message }
        requires wanted { wanted self.old.listener.now.arbiter.view ≡ Some request.now }
        ensures rests { D.modeled ≡ true → TurnRestsOfTwo
            (repairing self.old.options.now.peers.server (service_of journal.now server.old)) answers_sent text_before
            side_before rounds_side
            (rounds D.port server.old self.old) result (K.held sink.old) (K.held sink.new)
            (E.held errors.old) (E.held errors.new) (rounds D.port server.new self.new) }
        ensures server { server.new ≡ record server.old { answered = server.new.answered } }
        ensures bounded { OnOk result (IsBounded (K.live sink.old) (unwritten self.new)) }
        ensures kept { IfErr result (λ fault. fault ≡ CommandFault.Memory →
            Appends (K.held sink.old) (K.held sink.new) (unwritten self.old)) }
        ensures live { K.live sink.new ≡ K.live sink.old }
        ensures only { OnlyRepairs self.old self.new }
        ensures sinks { CountsSinks (K.failed sink.old) (K.failed sink.new) (E.failed errors.old) (E.failed errors.new)
            result }
        ensures plain { OnOk result (IsPlain (outgoing self.old) → IsPlain (outgoing self.new)) }
        ensures quiet { IsPlain (outgoing self.old) →
            IsQuiet (K.failed sink.old) (K.failed sink.new) errors.old errors.new result }
    {
        let told = self.listener.printer.outgoing.unwritten();
        let Ok(()) = self.round(server, journal, request) else {
            let outgoing = &mut self.listener.printer.outgoing;
            return Err(outgoing.end_with(told, CommandFault::Memory, sink));
        };
        write_large(&mut self.listener.printer.outgoing, sink, errors)
    }

    // Makes at most `turns` rounds, and stops when the receiver wants no message. Between rounds, less than 65,536
    // bytes of text are unwritten, and none if the sink is live.
    fn repair_all<K: Sink, E: Sink>(
        &mut self,
        server: &mut Server,
        journal: &Journal,
        sink: &mut K,
        errors: &mut E,
    ) -> Result<(), CommandFault>
        requires buffer { HasBuffer self.old }
        requires longest { journal.now.max_message ≤ server.old.max_message }
        requires bounded { IsBounded (K.live sink.old) (unwritten self.old) }
        ensures rests { D.modeled ≡ true → RestsOfTwo
            (repairing self.old.options.now.peers.server (service_of journal.now server.old)) answers_sent text_before
            side_before rounds_side self.old.options.now.turns
            (rounds D.port server.old self.old) result (K.held sink.old) (K.held sink.new)
            (E.held errors.old) (E.held errors.new) (rounds D.port server.new self.new) }
        ensures server { server.new ≡ record server.old { answered = server.new.answered } }
        ensures only { OnlyRepairs self.old self.new }
        ensures bounded { OnOk result (IsBounded (K.live sink.old) (unwritten self.new)) }
        ensures live { K.live sink.new ≡ K.live sink.old }
        ensures sinks { CountsSinks (K.failed sink.old) (K.failed sink.new) (E.failed errors.old) (E.failed errors.new)
            result }
        ensures plain { OnOk result (IsPlain (outgoing self.old) → IsPlain (outgoing self.new)) }
        ensures quiet { IsPlain (outgoing self.old) →
            IsQuiet (K.failed sink.old) (K.failed sink.new) errors.old errors.new result }
    {
        for _turn in 0..self.options.turns {
            let Some(request) = self.listener.arbiter.receiver().wanted() else {
                return Ok(());
            };
            self.write_round(server, journal, &request, sink, errors)?;
        }
        Ok(())
    }

    /// Passes all datagrams, repairs what is missing then, and prints the last line. The reports of the lines precede
    /// the last line if the options ask for them. Returns the status.
    pub(crate) fn run<M: MessageReader, S: Source, K: Sink, E: Sink>(
        &mut self,
        publisher: &mut Publisher,
        server: &mut Server,
        source: &mut S,
        sink: &mut K,
        errors: &mut E,
    ) -> Result<u8, CommandFault>
        requires buffer { HasBuffer self.old }
        requires room { HasRoom publisher.old }
        requires longest { publisher.old.journal.max_message ≤ server.old.max_message }
        ensures run { D.modeled ≡ true → IfSome (known_input M.input_kind M.entries (S.left source.old)) (λ input.
            LoopRun self.old.options.now.reporting self.old.options.now.drops
            self.old.options.now.peers.a self.old.options.now.peers.b self.old.options.now.peers.server
            self.old.options.now.turns publisher.old.limit publisher.old.sent
            (input_published publisher.old.journal input)
            server.old (lines D.port self.old) (rounds D.port server.old self.old) result
            (K.held sink.old) (K.held sink.new) (E.held errors.old) (E.held errors.new)
            (lines D.port self.new) (rounds D.port server.new self.new)) }
        ensures a { D.modeled ≡ true → (D.port self.new.ports.now.a).sent ≡ (D.port self.old.ports.now.a).sent }
        ensures b { D.modeled ≡ true → (D.port self.new.ports.now.b).sent ≡ (D.port self.old.ports.now.b).sent }
        ensures journal { D.modeled ≡ true → OnOk result (IfSome (known_input M.input_kind M.entries
            (S.left source.old)) (λ input.
            publisher.new.journal ≡ left_journal (input_published publisher.old.journal input))) }
        ensures limit { OnOk result (publisher.new.limit ≡ publisher.old.limit) }
        ensures server { server.new ≡ record server.old { answered = server.new.answered } }
        ensures same { IsSame self.old self.new }
        ensures quiet { IsPlain (outgoing self.old) → (errors.new ≡ errors.old)
            × CountsCommand (S.failed source.old) (S.failed source.new) (K.failed sink.old) (K.failed sink.new) result }
        ensures failures { CountsLoop (S.failed source.old) (S.failed source.new)
            (K.failed sink.old) (K.failed sink.new) (E.failed errors.old) (E.failed errors.new) result }
    {
        publisher_holds(publisher);
        let options = self.options;
        let refused = self.pass_messages::<M, S, K, E>(publisher, source, sink, errors)?;
        if let Some(refusal) = refused {
            let number = publisher.journal().next();
            let outgoing = &mut self.listener.printer.outgoing;
            return print_refused(outgoing, number, refusal, sink, errors);
        }
        self.write_end(publisher, sink, errors)?;
        publisher_holds(publisher);
        let journal = publisher.journal();
        self.repair_all(server, journal, sink, errors)?;
        print_last(self.listener, options.reporting, sink, errors)
    }
}
