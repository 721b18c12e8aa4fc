//! Waits for the first packet of a session whose name or number is not known.

ghost use Rattle.std.specs.Prelude.{◌≡◌, IfNone, IfOk, IfSome, OnErr, false};
ghost use Rattle.mold_receive.specs.Opening.{HasAwaited, HasLooked, IsOpening, first_in, opens_with};
ghost use Rattle.mold_receive.specs.Receiving.{port_of};

use crate::came::Came;
use crate::feed_receiver::{AT_ONCE, origin_of};
use crate::first_packet::FirstPacket;
use crate::lines::push_refused_from;
use crate::receive_options::ReceiveOptions;
use crate::refusal_limit::RefusalLimit;
use mold_devices::{CommandFault, Sink, send};
use mold_port_set::PortSet;
use mold_receiver::Refusal;
use mold_repair::RepairOrigin;
use mold_rule::check_header;
use mold_text::{Word, push_line};
use mold_wire::{Body, MAX_LIMIT, Session, decode};
use std::alloc::{AllocError, Global};

/// What a wait for a session leaves.
#[derive(Drop)]
pub struct Opened<D> {
    /// The ports.
    pub ports: D,
    /// The first packet, if one arrived.
    pub first: Option<FirstPacket>,
}

// The session and the sequence number of a packet that opens a session.
struct Opener {
    session: Session,
    sequence: u64,
}

// A receiver that waits for a session.
#[derive(Drop)]
struct Opening<D> {
    alloc: Global,
    ports: D,
    // The session, if it is known.
    session: Option<Session>,
    refusals: RefusalLimit,
    // The text for standard error that is still to be written.
    side: Vec<u8>,
}

// Returns session and sequence number of the packet that the datagram encodes, if it opens the session, and none for
// an end packet. An error is the reason why the datagram is refused.
fn opener_of(session: Option<Session>, datagram: &[u8]) -> Result<Option<Opener>, Refusal>
    ensures opens { IfOk result (λ found. IfSome found (λ opener.
        IsOpening session datagram.now opener.session opener.sequence)) }
    ensures end { IfOk result (λ found. IfNone found (opens_with session datagram.now ≡ false)) }
    ensures refused { OnErr result (opens_with session datagram.now ≡ false) }
{
    let packet = match decode(datagram) {
        Ok(packet) => packet,
        Err(fault) => return Err(Refusal::Malformed(fault)),
    };
    check_header(&packet, session, 0, None)?;
    match packet.body {
        Body::End => Ok(None),
        Body::Data(_) | Body::Heartbeat => Ok(Some(Opener {
            session: packet.session,
            sequence: packet.sequence,
        })),
    }
}

impl<D: PortSet + Drop> Opening<D> {
    // Prints why a datagram was refused, if a line about it is due.
    fn refuse(
        &mut self,
        origin: RepairOrigin,
        why: Refusal,
        datagram: &[u8],
    ) -> Result<(), AllocError>
        ensures ports { self.new.ports ≡ self.old.ports }
        ensures session { self.new.session ≡ self.old.session }
    {
        if !self.refusals.admit(origin, &why, self.ports.now()) {
            return Ok(());
        }
        push_refused_from(&mut self.side, origin, why, datagram)
    }

    // Looks at a datagram of this origin.
    fn look(&mut self, origin: RepairOrigin, datagram: &[u8]) -> Result<Came, AllocError>
        ensures looked { IfOk result (HasLooked self.old.session origin datagram.now) }
        ensures ports { self.new.ports ≡ self.old.ports }
        ensures session { self.new.session ≡ self.old.session }
    {
        match opener_of(self.session, datagram) {
            Ok(Some(Opener { session, sequence })) => {
                let mut copy = Vec::new(self.alloc);
                copy.extend_from_slice(datagram)?;
                Ok(Came::First(FirstPacket {
                    origin,
                    session,
                    sequence,
                    datagram: copy,
                }))
            }
            Ok(None) => Ok(Came::Other),
            Err(why) => {
                self.refuse(origin, why, datagram)?;
                Ok(Came::Other)
            }
        }
    }

    // Looks at the datagram that is at the port, if there is one.
    fn receive(
        &mut self,
        options: &ReceiveOptions<D::Peer>,
        origin: RepairOrigin,
        port: usize,
        buffer: &mut [u8],
    ) -> Result<Came, AllocError>
        requires { port ≡ port_of options.now.lines origin }
        ensures awaited { IfOk result (λ came. HasAwaited options.now.lines self.old.session D.modeled
            (D.state self.old.ports) (D.state self.new.ports) (first_in came)) }
        ensures session { self.new.session ≡ self.old.session }
    {
        match self.ports.receive(port, buffer) {
            Ok(Some(count)) => self.look(origin, &buffer[..count]),
            Ok(None) => Ok(Came::Nothing),
            // The ports count it.
            Err(_) => Ok(Came::Nothing),
        }
    }

    // Looks at what is at the port, at most `AT_ONCE` datagrams.
    fn receive_some(
        &mut self,
        options: &ReceiveOptions<D::Peer>,
        origin: RepairOrigin,
        port: usize,
        buffer: &mut [u8],
    ) -> Result<Option<FirstPacket>, AllocError>
        requires { port ≡ port_of options.now.lines origin }
        ensures awaited { IfOk result (HasAwaited options.now.lines self.old.session D.modeled
            (D.state self.old.ports) (D.state self.new.ports)) }
        ensures session { self.new.session ≡ self.old.session }
    {
        for _ in 0..AT_ONCE {
            match self.receive(options, origin, port, buffer)? {
                Came::Nothing => return Ok(None),
                Came::Other => {}
                Came::First(first) => return Ok(Some(first)),
            }
        }
        Ok(None)
    }

    // Looks at what is at all ports, at most `AT_ONCE` datagrams from each.
    fn receive_all(
        &mut self,
        options: &ReceiveOptions<D::Peer>,
        buffer: &mut [u8],
    ) -> Result<Option<FirstPacket>, AllocError>
        ensures awaited { IfOk result (HasAwaited options.now.lines self.old.session D.modeled
            (D.state self.old.ports) (D.state self.new.ports)) }
        ensures session { self.new.session ≡ self.old.session }
    {
        for port in 0..options.lines + options.servers.len() {
            let origin = origin_of(options.lines, port);
            if let Some(first) = self.receive_some(options, origin, port, buffer)? {
                return Ok(Some(first));
            }
        }
        Ok(None)
    }

    // Waits for a datagram, at most until the time `until`, and looks at what arrived. Writes why datagrams were
    // refused.
    fn turn<E: Sink>(
        &mut self,
        options: &ReceiveOptions<D::Peer>,
        until: u64,
        buffer: &mut [u8],
        errors: &mut E,
    ) -> Result<Option<FirstPacket>, CommandFault>
        ensures awaited { IfOk result (HasAwaited options.now.lines self.old.session D.modeled
            (D.state self.old.ports) (D.state self.new.ports)) }
        ensures session { self.new.session ≡ self.old.session }
    {
        let _ = self.ports.wait(until);
        let first = self.receive_all(options, buffer)?;
        if !self.side.is_empty() {
            send(errors, &mut self.side)?;
        }
        Ok(first)
    }

    // Waits for the first packet, at most for the turns of the options, and until nothing was accepted for too long.
    fn run<E: Sink>(
        &mut self,
        options: &ReceiveOptions<D::Peer>,
        buffer: &mut [u8],
        errors: &mut E,
    ) -> Result<Option<FirstPacket>, CommandFault>
        ensures awaited { IfOk result (HasAwaited options.now.lines self.old.session D.modeled
            (D.state self.old.ports) (D.state self.new.ports)) }
        ensures session { self.new.session ≡ self.old.session }
    {
        let until = self.ports.now().saturating_add(options.quiet);
        for _ in 0..options.turns {
            if let Some(first) = self.turn(options, until, buffer, errors)? {
                return Ok(Some(first));
            }
            if until <= self.ports.now() {
                return Ok(None);
            }
        }
        Ok(None)
    }

    // Prints the session of the first packet, if the session was not known.
    fn print_session<E: Sink>(
        &mut self,
        first: &Option<FirstPacket>,
        errors: &mut E,
    ) -> Result<(), CommandFault>
        ensures ports { self.new.ports ≡ self.old.ports }
    {
        let (None, Some(first)) = (self.session, first) else {
            return Ok(());
        };
        let words = [Word::Text(b"session"), Word::Digits(&first.session.0)];
        push_line(&mut self.side, &words)?;
        send(errors, &mut self.side)
    }
}

/// Waits for the first data packet or heartbeat of a session, and returns it. `session` is the session, if it is known;
/// otherwise the first packet's session is printed on `errors`, as `session SESSION`. End packets before the first
/// packet are ignored. Other datagrams are refused as a receiver refuses them, and some of them reported on `errors`,
/// as `receive_loop` does. No request is sent.
///
/// It returns no packet if none arrived in the time of `ReceiveOptions::with_quiet`, or in the turns of the options. A
/// failed wait or receive is counted, and the wait continues.
pub fn await_session<D: PortSet + Drop, E: Sink>(
    alloc: Global,
    ports: D,
    session: Option<Session>,
    options: &ReceiveOptions<D::Peer>,
    errors: &mut E,
) -> Result<Opened<D>, CommandFault>
    ensures { IfOk result (λ opened.
        HasAwaited options.now.lines session D.modeled (D.state ports) (D.state opened.ports) opened.first) }
{
    let mut buffer = vec![in alloc; 0; MAX_LIMIT]?;
    let mut opening = Opening {
        alloc,
        ports,
        session,
        refusals: RefusalLimit::new(),
        side: Vec::new(alloc),
    };
    let first = opening.run(options, buffer.as_mut_slice(), errors)?;
    opening.print_session(&first, errors)?;
    let Opening { ports, .. } = opening;
    Ok(Opened { ports, first })
}
