//! Ports of UDP over the loopback address: what they receive, and how long they wait.

use crate::comparisons::holds_at;
use mold_devices::DeviceFault;
use mold_ports::{Datagrams, Outlook, UdpPort};
use std::net::{Ipv4Addr, Net, SocketAddr, SocketAddrV4};
use std::process::Abort;
use std::test::Fail;
use std::time::{Clock, Instant};

// The loopback address with a port number. The system chooses the port of number 0.
fn loopback(port: u16) -> SocketAddrV4 {
    SocketAddrV4::new(Ipv4Addr::new(127, 0, 0, 1), port)
}

// An address to which no datagram can be sent.
fn nowhere() -> SocketAddr {
    SocketAddr::V4(loopback(0))
}

fn open(rt: &impl Net) -> Result<UdpPort, DeviceFault> {
    UdpPort::bind(rt, loopback(0))
}

/// Three ports of the loopback address.
#[derive(Drop)]
struct Ports {
    quiet: UdpPort,
    busy: UdpPort,
    server: UdpPort,
}

/// One of the three.
#[derive(Clone, Copy)]
enum Side {
    Quiet,
    Busy,
    Server,
}

/// A call of one of the ports that succeeds.
#[derive(Clone, Copy)]
enum Call {
    /// The quiet port stands beside the busy one.
    StandBeside,
    /// And the busy port beside the quiet one.
    StandOpposite,
    /// A port sends these bytes to another one.
    Send(Side, Side, &'static [u8]),
    /// A send of the quiet port fails, and is counted.
    FailedSend,
    /// The quiet port is in this state.
    Outlook(Outlook),
    /// A port receives these bytes from another one.
    Receive(Side, &'static [u8], Side),
    /// A port receives nothing.
    Nothing(Side),
    /// The shortest of this many receives of the quiet port takes at least so many milliseconds.
    Waits(u8, u128),
    /// The shortest of this many receives of the quiet port takes fewer milliseconds.
    WaitEnds(u8, u128),
}

impl Ports {
    fn new(rt: &impl Net) -> Result<Ports, DeviceFault> {
        Ok(Ports {
            quiet: open(rt)?,
            busy: open(rt)?,
            server: open(rt)?,
        })
    }

    fn address(&self, side: Side) -> SocketAddr {
        match side {
            Side::Quiet => self.quiet.address(),
            Side::Busy => self.busy.address(),
            Side::Server => self.server.address(),
        }
    }

    fn port(&mut self, side: Side) -> &mut UdpPort {
        match side {
            Side::Quiet => &mut self.quiet,
            Side::Busy => &mut self.busy,
            Side::Server => &mut self.server,
        }
    }

    fn is_received(&mut self, at: Side, bytes: &[u8], from: Side) -> bool {
        let mut buffer = [0u8; 16];
        let received = self.port(at).receive(&mut buffer);
        received == Ok(Some((bytes.len(), self.address(from)))) && buffer.starts_with(bytes)
    }

    fn is_nothing_received(&mut self, at: Side) -> bool {
        let mut buffer = [0u8; 16];
        matches!(self.port(at).receive(&mut buffer), Ok(None))
    }

    fn is_failed_send(&mut self) -> bool {
        self.quiet.send(nowhere(), b"abc").is_err() && self.quiet.failures() == 1
    }

    // How many milliseconds the shortest of some receives takes. Other work of the machine may delay some.
    fn least_wait(&mut self, rt: &impl Clock, receives: u8) -> Result<u128, Fail> {
        let mut buffer = [0u8; 16];
        let mut least = 1000;
        for _ in 0..receives {
            let start = Instant::now(rt)?;
            self.quiet.receive(&mut buffer)?;
            least = start.elapsed(rt)?.as_millis().min(least);
        }
        Ok(least)
    }

    fn succeeds(&mut self, rt: &impl Clock, call: Call) -> Result<bool, Fail> {
        match call {
            Call::StandBeside => self.quiet.stand_beside(&self.busy),
            Call::StandOpposite => self.busy.stand_beside(&self.quiet),
            Call::Send(from, to, bytes) => {
                let to = self.address(to);
                return Ok(self.port(from).send(to, bytes).is_ok());
            }
            Call::FailedSend => return Ok(self.is_failed_send()),
            Call::Outlook(outlook) => return Ok(self.quiet.outlook() == outlook),
            Call::Receive(at, bytes, from) => return Ok(self.is_received(at, bytes, from)),
            Call::Nothing(at) => return Ok(self.is_nothing_received(at)),
            Call::Waits(receives, least) => return Ok(self.least_wait(rt, receives)? >= least),
            Call::WaitEnds(receives, most) => return Ok(self.least_wait(rt, receives)? < most),
        }
        Ok(true)
    }
}

const BY_SOCKETS: &[Call] = &[
    Call::Send(Side::Quiet, Side::Busy, b"abc"),
    Call::Receive(Side::Busy, b"abc", Side::Quiet),
    Call::FailedSend,
    Call::Outlook(Outlook::Asking),
];

/// A receive of nothing waits its full time. If a port beside it has a datagram, the wait ends at once. After a send it
/// ends when the time for a response is over.
const WAITS_ENDED: &[Call] = &[
    Call::Waits(1, 90),
    Call::StandBeside,
    Call::Send(Side::Busy, Side::Busy, b"abc"),
    Call::WaitEnds(5, 90),
    // After a send the port waits two milliseconds for the response alone.
    Call::Send(Side::Quiet, Side::Busy, b"ask"),
    Call::Waits(1, 2),
    Call::Receive(Side::Busy, b"abc", Side::Busy),
];

/// A wait that another port ended does not shorten the next one. If no port has a datagram, that wait lasts its full
/// time, also after a send.
const FULL_WAITS: &[Call] = &[
    Call::StandBeside,
    Call::Send(Side::Busy, Side::Busy, b"abc"),
    Call::Nothing(Side::Quiet),
    Call::Receive(Side::Busy, b"abc", Side::Busy),
    Call::Waits(1, 90),
    Call::Send(Side::Quiet, Side::Server, b"ask"),
    Call::Waits(1, 90),
];

/// Each receive returns a datagram that has arrived, whatever an earlier wait reported, and whether or not the receive
/// before returned one.
const LOOKS: &[Call] = &[
    Call::StandBeside,
    Call::StandOpposite,
    Call::Send(Side::Busy, Side::Busy, b"abc"),
    Call::Nothing(Side::Quiet),
    Call::Send(Side::Busy, Side::Quiet, b"late"),
    Call::Receive(Side::Quiet, b"late", Side::Busy),
    Call::Nothing(Side::Quiet),
    Call::Send(Side::Busy, Side::Quiet, b"more"),
    Call::Send(Side::Busy, Side::Quiet, b"last"),
    Call::Receive(Side::Quiet, b"more", Side::Busy),
    Call::Receive(Side::Quiet, b"last", Side::Busy),
    Call::Receive(Side::Busy, b"abc", Side::Busy),
    Call::Nothing(Side::Busy),
];

const SCRIPTS: &[(&str, &[Call])] = &[
    ("by sockets", BY_SOCKETS),
    ("waits that end", WAITS_ENDED),
    ("full waits", FULL_WAITS),
    ("each receive looks", LOOKS),
];

// The calls succeed, one after the other.
fn expect_calls(
    rt: &(impl Abort + Clock),
    ports: &mut Ports,
    name: &str,
    calls: &[Call],
) -> Result<(), Fail> {
    for (i, call) in calls.iter().enumerate() {
        holds_at(rt, ports.succeeds(rt, *call)?, name, i);
    }
    Ok(())
}

// The calls succeed at new ports.
fn expect_script(rt: &(impl Abort + Net + Clock), name: &str, calls: &[Call]) -> Result<(), Fail> {
    let mut ports = Ports::new(rt)?;
    expect_calls(rt, &mut ports, name, calls)
}

#[test]
fn ports_receive_wait_and_look(rt: HostRuntime) -> Result<(), Fail> {
    for (name, calls) in SCRIPTS {
        expect_script(&rt, name, calls)?;
    }
    Ok(())
}
