//! The port that receives requests.

ghost use Rattle.std.specs.Prelude.{◌≡◌, ◌≤◌, [], false, length, IfOk, IfSome};
ghost use Rattle.mold_devices.specs.Devices.{Counts};

use crate::waiting::{wait_for, watched};
use libc::net::POLLOUT;
use mold_devices::DeviceFault;
use mold_ports::Datagrams;
use std::io::{self, ErrorKind};
use std::marker::Model;
use std::net::{Net, SocketAddr, SocketAddrV4, UdpSocket};
use std::os::fd::{AsRawFd, RawFd};

/// The longest time in nanoseconds that a send waits until the system has room for the datagram.
const SEND_WAIT: u64 = 100_000_000;

/// A UDP socket that receives requests, or no socket. A receive does not wait. Without a socket it gives nothing.
#[derive(Drop)]
pub struct RequestPort {
    socket: Option<UdpSocket>,
    failures: u64,
}

impl Model for RequestPort {
    ghost use Rattle.mold_feed_command.specs.Ports.{RequestPortState};

    ghost Value = { RequestPortState };

    ghost view = { λ s. record { failures = s.failures } };
}

impl RequestPort {
    /// Opens a socket at an address of this machine; for port number 0, the system chooses one. Without an address, there
    /// is no socket. The fault means that the system refuses the socket.
    pub fn bind<R: Net>(rt: &R, address: Option<SocketAddrV4>) -> Result<RequestPort, DeviceFault>
        ensures { IfOk result (λ port. port ≡ record { failures = 0 }) }
    {
        let socket = match address {
            Some(address) => Some(open(rt, address).map_err(|_| DeviceFault)?),
            None => None,
        };
        Ok(RequestPort {
            socket,
            failures: 0,
        })
    }

    /// Returns the descriptor of the socket, if there is one. It is open as long as this port.
    pub fn descriptor(&self) -> Option<RawFd> {
        match &self.socket {
            Some(socket) => Some(socket.as_raw_fd()),
            None => None,
        }
    }

    // Takes the datagram that is here, or returns `None`.
    fn take(&self, buffer: &mut [u8]) -> Result<Option<(usize, SocketAddr)>, DeviceFault>
        ensures { IfOk result (λ answer. IfSome answer (λ found. found.0 ≤ length buffer.new)) }
    {
        let Some(socket) = &self.socket else {
            return Ok(None);
        };
        match socket.recv_from(buffer) {
            Ok(found) => Ok(Some(found)),
            Err(error) if error.kind() == ErrorKind::WouldBlock => Ok(None),
            Err(_) => Err(DeviceFault),
        }
    }

    // Returns the outcome of a call of the system, and counts a failure.
    fn counted<T>(&mut self, outcome: Result<T, DeviceFault>) -> Result<T, DeviceFault>
        ensures value { result ≡ outcome }
        ensures failures { Counts self.old.failures self.new.failures result }
    {
        if outcome.is_err() {
            self.failures = self.failures.saturating_add(1);
        }
        outcome
    }
}

impl Datagrams for RequestPort {
    type Peer = SocketAddr;

    ghost modeled = { false };

    ghost port = { λ p. record { comes = []; sent = []; failures = p.failures } };

    fn send(&mut self, to: SocketAddr, bytes: &[u8]) -> Result<(), DeviceFault>
        ensures failures { Counts self.old.failures self.new.failures result }
    {
        let sent = match &self.socket {
            Some(socket) => send_in_time(socket, to, bytes),
            None => Err(DeviceFault),
        };
        self.counted(sent)
    }

    fn receive(&mut self, buffer: &mut [u8]) -> Result<Option<(usize, SocketAddr)>, DeviceFault>
        ensures count { IfOk result (λ answer. IfSome answer (λ found. found.0 ≤ length buffer.new)) }
        ensures failures { Counts self.old.failures self.new.failures result }
    {
        let answer = self.take(buffer);
        self.counted(answer)
    }

    fn failures(&self) -> u64 {
        self.failures
    }
}

// Opens a socket at the address whose calls do not wait.
fn open<R: Net>(rt: &R, address: SocketAddrV4) -> io::Result<UdpSocket> {
    let socket = UdpSocket::bind(rt, SocketAddr::V4(address))?;
    socket.set_nonblocking(true)?;
    Ok(socket)
}

// Sends a whole datagram. If the system has no room for it, waits for the room.
fn send_in_time(socket: &UdpSocket, to: SocketAddr, bytes: &[u8]) -> Result<(), DeviceFault> {
    let mut sent = socket.send_to(bytes, to);
    if matches!(&sent, Err(error) if error.kind() == ErrorKind::WouldBlock) {
        wait_for(&mut [watched(socket.as_raw_fd(), POLLOUT)], SEND_WAIT)?;
        sent = socket.send_to(bytes, to);
    }
    match sent {
        Ok(count) if count == bytes.len() => Ok(()),
        _ => Err(DeviceFault),
    }
}
