//! The UDP sockets that lines are sent from, and the wait for standard input and for requests.

ghost use Rattle.std.specs.Prelude.{◌≡◌, ◌≤◌, [], false, length, IfOk, IfSome};
ghost use Rattle.mold_devices.specs.Devices.{Counts};

use crate::failed_sends::FailedSends;
use crate::waiting::{NO_DESCRIPTOR, wait_for, watched};
use libc::net::POLLIN;
use libc::{EIO, STDIN_FILENO};
use mold_devices::DeviceFault;
use mold_feeder::FeedPorts;
use mold_port_set::{PortSet, UdpPortSet};
use std::io;
use std::marker::Model;
use std::net::{Ipv4Addr, Net, SocketAddr, SocketAddrV4, UdpSocket};
use std::os::fd::{AsRawFd, RawFd};
use std::time::Duration;

/// The longest time in milliseconds that a send waits until the system has room for the datagram.
const SEND_WAIT: u64 = 100;

/// The UDP sockets that lines are sent from, and a clock. Line A has the port with index 0, and line B the port with
/// index 1. No port receives.
///
/// A send waits at most 100 milliseconds until the system has room for the datagram. The first failed send of each line
/// is printed on standard error. A wait is for standard input, and for the socket of the requests.
#[derive(Drop)]
pub struct FeedSockets {
    a: UdpSocket,
    b: Option<UdpSocket>,
    // The descriptor of the socket that receives requests, or `NO_DESCRIPTOR`.
    requests: RawFd,
    // A set without ports, whose clock is that of the sockets.
    clock: UdpPortSet,
    failures: u64,
    failed_sends: FailedSends,
}

impl Model for FeedSockets {
    ghost use Rattle.mold_feed_command.specs.Ports.{SocketsState};

    ghost Value = { SocketsState };

    ghost view = { λ s. record { time = s.clock.time; failures = s.failures } };
}

impl FeedSockets {
    /// Opens a socket for line A and, if `b` is not `None`, one for line B. Each is bound to its IPv4 address of this
    /// machine; 0.0.0.0 lets the system choose one. On Linux the address also chooses the interface of a multicast group.
    /// `ttl` is that of datagrams to groups. `requests` is the descriptor of the socket that receives requests, if there
    /// is one. It must stay open as long as these sockets. The fault means that the system refuses a socket.
    pub fn bind(
        rt: &HostRuntime,
        a: Ipv4Addr,
        b: Option<Ipv4Addr>,
        ttl: u8,
        requests: Option<RawFd>,
    ) -> Result<FeedSockets, DeviceFault>
        ensures { IfOk result (λ sockets. sockets ≡ record { time = 0; failures = 0 }) }
    {
        let a = open(rt, a, ttl).map_err(|_| DeviceFault)?;
        let b = match b {
            Some(host) => Some(open(rt, host, ttl).map_err(|_| DeviceFault)?),
            None => None,
        };
        Ok(FeedSockets {
            a,
            b,
            requests: requests.unwrap_or(NO_DESCRIPTOR),
            clock: UdpPortSet::new(rt),
            failures: 0,
            failed_sends: FailedSends::new(rt.alloc(), rt.stderr()),
        })
    }

    // Returns the outcome of a call of the system, and counts a failure.
    fn counted<T>(&mut self, outcome: Result<T, DeviceFault>) -> Result<T, DeviceFault>
        ensures time { self.new.time ≡ self.old.time }
        ensures failures { Counts self.old.failures self.new.failures result }
    {
        if outcome.is_err() {
            self.failures = self.failures.saturating_add(1);
        }
        outcome
    }

    // Reads the clock. The time never falls.
    fn read_clock(&mut self)
        ensures clock { self.old.time ≤ self.new.time }
        ensures failures { self.new.failures ≡ self.old.failures }
    {
        let _ = self.clock.wait(0);
    }

    // Returns the socket of a port.
    fn socket(&self, port: usize) -> Option<&UdpSocket> {
        match port {
            0 => Some(&self.a),
            1 => self.b.as_ref(),
            _ => None,
        }
    }

    // Waits until a request is here or, if `input` is true, until standard input can be read. Returns whether it can.
    fn wait_until(&self, until: u64, input: bool) -> Result<bool, DeviceFault> {
        let descriptor = if input { STDIN_FILENO } else { NO_DESCRIPTOR };
        let mut asked = [watched(self.requests, POLLIN), watched(descriptor, POLLIN)];
        wait_for(&mut asked, until.saturating_sub(self.clock.now()))?;
        Ok(asked[1].revents != 0)
    }
}

impl PortSet for FeedSockets {
    type Peer = SocketAddrV4;

    ghost modeled = { false };

    ghost state = { λ s. record { given = []; sent = []; now = s.time; failures = s.failures } };

    /// Returns the time of the last wait, in nanoseconds since the sockets were opened. It never falls, and it stops below
    /// 2^62.
    fn now(&self) -> u64 {
        self.clock.now()
    }

    /// Waits for the time `until` or a request.
    fn wait(&mut self, until: u64) -> Result<bool, DeviceFault>
        ensures clock { self.old.time ≤ self.new.time }
        ensures failures { Counts self.old.failures self.new.failures result }
    {
        self.wait_for_input(until, false)
    }

    /// Returns `None`: no port receives.
    fn receive(&mut self, _port: usize, buffer: &mut [u8]) -> Result<Option<usize>, DeviceFault>
        ensures count { IfOk result (λ answer. IfSome answer (λ count. count ≤ length buffer.new)) }
        ensures same { length buffer.new ≡ length buffer.old }
        ensures clock { self.old.time ≤ self.new.time }
        ensures failures { Counts self.old.failures self.new.failures result }
    {
        let _ = buffer;
        Ok(None)
    }

    /// Sends a datagram from the port. It fails if there is no such port, or if the system does not take the datagram
    /// within 100 milliseconds. The first failure of each line is printed.
    fn send(&mut self, port: usize, to: SocketAddrV4, bytes: &[u8]) -> Result<(), DeviceFault>
        ensures clock { self.new.time ≡ self.old.time }
        ensures failures { Counts self.old.failures self.new.failures result }
    {
        let sent = match self.socket(port) {
            Some(socket) => send_from(socket, to, bytes),
            None => Err(EIO),
        };
        if let Err(code) = sent {
            self.failed_sends.note(port == 0, to, code);
        }
        self.counted(sent.map_err(|_| DeviceFault))
    }

    /// Returns `None`: no port receives.
    fn drops(&mut self) -> Option<u64>
        ensures { self.new ≡ self.old }
    {
        None
    }

    /// Returns 0: no port receives.
    fn passed_over(&self, _port: usize) -> u64 {
        0
    }

    fn failures(&self) -> u64 {
        self.failures
    }
}

impl FeedPorts for FeedSockets {
    /// Waits until a request is at its socket, until standard input can be read if `input` is true, or until the time
    /// `until`. It may end before, at the latest after a second. If `until` has passed, it does not wait.
    fn wait_for_input(&mut self, until: u64, input: bool) -> Result<bool, DeviceFault>
        ensures clock { self.old.time ≤ self.new.time }
        ensures failures { Counts self.old.failures self.new.failures result }
    {
        self.read_clock();
        let ready = self.wait_until(until, input);
        self.read_clock();
        self.counted(ready)
    }
}

// Opens a socket at the address, and sets the TTL of its datagrams to groups.
fn open<R: Net>(rt: &R, host: Ipv4Addr, ttl: u8) -> io::Result<UdpSocket> {
    let socket = UdpSocket::bind(rt, SocketAddr::V4(SocketAddrV4::new(host, 0)))?;
    socket.set_multicast_ttl_v4(u32::from(ttl))?;
    socket.set_write_timeout(Some(Duration::from_millis(SEND_WAIT)))?;
    Ok(socket)
}

// Sends a whole datagram. If that fails, returns the number of the system's error.
fn send_from(socket: &UdpSocket, to: SocketAddrV4, bytes: &[u8]) -> Result<(), i32> {
    match socket.send_to(bytes, SocketAddr::V4(to)) {
        Ok(count) if count == bytes.len() => Ok(()),
        Ok(_) => Err(EIO),
        Err(error) => Err(error.raw_os_error().unwrap_or(EIO)),
    }
}
