//! A UDP socket as a port.

ghost use Rattle.std.specs.Prelude.{◌≡◌, ◌≤◌, false, [], length, IfOk, IfSome};
ghost use Rattle.mold_devices.specs.Devices.{Counts, one_more};
ghost use Rattle.mold_ports.specs.Outlook.{after_receive, after_send};
ghost use Rattle.mold_ports.specs.declared.outlook.Outlook.TheVariants.{Quiet};

use crate::datagrams::Datagrams;
use crate::outlook::Outlook;
use crate::waiting::{NO_DESCRIPTOR, time_after, wait_for, wait_until, watched};
use libc::net::{POLLIN, POLLOUT, SO_RCVBUF, SOL_SOCKET, setsockopt};
use mold_devices::DeviceFault;
use std::io;
use std::io::ErrorKind;
use std::marker::Model;
use std::net::{Net, SocketAddr, SocketAddrV4, UdpSocket};
use std::os::fd::{AsRawFd, RawFd};
use std::time::Duration;

/// The longest time in milliseconds that a receive or a send waits.
const WAIT: u16 = 100;

/// The part of this time, in milliseconds, in which a receive after a send waits only for the response. Most responses
/// are here by then. A second request before the first response would let responses pile up.
const ANSWER_WAIT: u16 = 2;

/// The number of bytes of datagrams not received yet that the system is asked to keep. It may keep fewer.
const RECEIVE_BUFFER: i32 = 1 << 22;

/// A UDP socket over IPv4 as a port. A receive waits at most 100 milliseconds for a datagram. It returns `None` only
/// if the system reports that no datagram is here. If the port is beside others, the wait ends early when one of them
/// has a datagram. The table at [`Outlook`] states what a receive does first. After a send, the first two milliseconds
/// of the wait are only for the response.
///
/// A receive fails if the system refuses its wait. It also fails if a datagram was here and cannot be taken, for
/// example because of a wrong checksum. If a signal interrupts a wait, the wait goes on for the rest of its time. The
/// port allocates no memory. Its socket is closed when the port is dropped.
#[derive(Drop)]
pub struct UdpPort {
    socket: UdpSocket,
    // The address that the port was opened at. Its port number may be 0.
    bound: SocketAddrV4,
    address: SocketAddr,
    // The descriptors of the ports beside this one.
    beside: [RawFd; 2],
    outlook: Outlook,
    failures: u64,
}

impl Model for UdpPort {
    ghost use Rattle.mold_ports.specs.Udp.{UdpState};

    ghost Value = { UdpState };

    ghost view = { λ p. record { bound = p.bound; failures = p.failures; outlook = p.outlook } };
}

impl UdpPort {
    /// Opens a port at an address of this machine; for port 0, the system chooses one. It fails if the address is not
    /// the machine's or is taken, or if no socket is available.
    pub fn bind<R: Net>(rt: &R, address: SocketAddrV4) -> Result<UdpPort, DeviceFault>
        ensures { IfOk result (λ port. port ≡ record { bound = address; failures = 0; outlook = Quiet }) }
    {
        match open(rt, address) {
            Ok((socket, chosen)) => Ok(UdpPort {
                socket,
                bound: address,
                address: chosen,
                beside: [NO_DESCRIPTOR, NO_DESCRIPTOR],
                outlook: Outlook::Quiet,
                failures: 0,
            }),
            Err(_) => Err(DeviceFault),
        }
    }

    /// Returns the address and port that the socket is bound to.
    pub fn address(&self) -> SocketAddr {
        self.address
    }

    /// Returns the state of this port, which depends on its earlier sends and receives. If the port is beside others,
    /// the state decides how the next receive waits, as `Outlook` describes.
    pub fn outlook(&self) -> Outlook
        ensures { result ≡ self.now.outlook }
    {
        self.outlook
    }

    /// Puts this port beside another one, so that a datagram at the other port also ends a wait on this one. A port can
    /// be beside two others; a further call replaces the older of them. The caller must keep the others as long as this
    /// port. It should also receive from them, since a datagram that stays there ends every wait on this port. If the
    /// system cannot make the socket nonblocking, this call does nothing.
    pub fn stand_beside(&mut self, other: &UdpPort)
        ensures { self.new ≡ self.old }
    {
        if self.socket.set_nonblocking(true).is_ok() {
            self.beside = [other.socket.as_raw_fd(), self.beside[0]];
        }
    }

    // Whether the port is beside no other port. Then each socket call waits by itself.
    fn is_alone(&self) -> bool {
        self.beside[0] == NO_DESCRIPTOR
    }

    // Takes a datagram that is here, or returns `None`. The port is beside others, so this does not wait.
    fn take(&self, buffer: &mut [u8]) -> Result<Option<(usize, SocketAddr)>, DeviceFault>
        ensures { IfOk result (λ answer. IfSome answer (λ found. found.0 ≤ length buffer.new)) }
    {
        match self.socket.recv_from(buffer) {
            Ok(found) => Ok(Some(found)),
            Err(error) if error.kind() == ErrorKind::WouldBlock => Ok(None),
            Err(_) => Err(DeviceFault),
        }
    }

    // Waits for a response at this port only. Returns whether a datagram is here.
    fn wait_for_answer(&self) -> Result<bool, DeviceFault> {
        let mut asked = [watched(self.socket.as_raw_fd(), POLLIN)];
        wait_for(&mut asked, ANSWER_WAIT)?;
        Ok(asked[0].revents != 0)
    }

    // Waits until a datagram is at this port or at one beside it, or the time is over. Returns whether one is at this
    // port.
    fn wait(&self) -> Result<bool, DeviceFault> {
        let mut time = WAIT;
        if self.outlook == Outlook::Asking {
            if self.wait_for_answer()? {
                return Ok(true);
            }
            time -= ANSWER_WAIT;
        }
        let [one, other] = self.beside;
        let mut asked = [
            watched(self.socket.as_raw_fd(), POLLIN),
            watched(one, POLLIN),
            watched(other, POLLIN),
        ];
        wait_for(&mut asked, time)?;
        Ok(asked[0].revents != 0)
    }

    // Waits, and takes the datagram that is then here, or returns `None`.
    fn take_after_wait(&self, buffer: &mut [u8]) -> Result<Option<(usize, SocketAddr)>, DeviceFault>
        ensures { IfOk result (λ answer. IfSome answer (λ found. found.0 ≤ length buffer.new)) }
    {
        if !self.wait()? {
            return Ok(None);
        }
        match self.take(buffer)? {
            Some(found) => Ok(Some(found)),
            None => Err(DeviceFault),
        }
    }

    // Takes the next datagram of a port that is alone, or returns `None` if none comes within the port's time. If a
    // signal interrupts the wait, it goes on for the rest of the time.
    fn take_alone(&self, buffer: &mut [u8]) -> Result<Option<(usize, SocketAddr)>, DeviceFault>
        ensures { IfOk result (λ answer. IfSome answer (λ found. found.0 ≤ length buffer.new)) }
    {
        let until = time_after(WAIT);
        for _ in 0..u64::MAX {
            match self.socket.recv_from(buffer) {
                Ok(found) => return Ok(Some(found)),
                Err(error) if error.kind() == ErrorKind::WouldBlock => return Ok(None),
                Err(error) if error.kind() == ErrorKind::Interrupted => {}
                Err(_) => return Err(DeviceFault),
            }
            let mut asked = [watched(self.socket.as_raw_fd(), POLLIN)];
            wait_until(&mut asked, until, WAIT)?;
            if asked[0].revents == 0 {
                return Ok(None);
            }
        }
        Err(DeviceFault)
    }

    // Takes a datagram that is here or comes within the port's time, or returns `None`.
    fn take_in_time(&self, buffer: &mut [u8]) -> Result<Option<(usize, SocketAddr)>, DeviceFault>
        ensures { IfOk result (λ answer. IfSome answer (λ found. found.0 ≤ length buffer.new)) }
    {
        if self.is_alone() {
            return self.take_alone(buffer);
        }
        if self.outlook == Outlook::Busy {
            if let Some(found) = self.take(buffer)? {
                return Ok(Some(found));
            }
        }
        self.take_after_wait(buffer)
    }

    // Sends a datagram. If the system has no room for it and the port is beside other ports, or a signal interrupts the
    // wait for room, this waits for room and sends it again.
    fn send_in_time(&self, to: SocketAddr, bytes: &[u8]) -> io::Result<usize> {
        let sent = self.socket.send_to(bytes, to);
        if !self.waits_for_room(&sent) {
            return sent;
        }
        let mut asked = [watched(self.socket.as_raw_fd(), POLLOUT)];
        let _ = wait_for(&mut asked, WAIT);
        self.socket.send_to(bytes, to)
    }

    // Whether a datagram may be sent once the system has room for it.
    fn waits_for_room(&self, sent: &io::Result<usize>) -> bool {
        match sent {
            Ok(_) => false,
            Err(error) if error.kind() == ErrorKind::WouldBlock => !self.is_alone(),
            Err(error) => error.kind() == ErrorKind::Interrupted,
        }
    }

    // Counts a failure.
    fn fail(&mut self) -> DeviceFault
        ensures { self.new ≡ record self.old { failures = one_more self.old.failures } }
    {
        self.failures = self.failures.saturating_add(1);
        DeviceFault
    }
}

impl Datagrams for UdpPort {
    type Peer = SocketAddr;

    ghost modeled = { false };

    ghost port = { λ p. record { comes = []; sent = []; failures = p.failures } };

    fn send(&mut self, to: SocketAddr, bytes: &[u8]) -> Result<(), DeviceFault>
        // Clauses of every port.
        ensures failures { Counts self.old.failures self.new.failures result }

        // Clauses of this port only.
        ensures outlook { self.new.outlook ≡ after_send result self.old.outlook }
    {
        match self.send_in_time(to, bytes) {
            Ok(count) if count == bytes.len() => {
                self.outlook = self.outlook.after_sent();
                Ok(())
            }
            _ => Err(self.fail()),
        }
    }

    fn receive(&mut self, buffer: &mut [u8]) -> Result<Option<(usize, SocketAddr)>, DeviceFault>
        // Clauses of every port.
        ensures count { IfOk result (λ answer. IfSome answer (λ found. found.0 ≤ length buffer.new)) }
        ensures failures { Counts self.old.failures self.new.failures result }

        // Clauses of this port only.
        ensures outlook { self.new.outlook ≡ after_receive result self.old.outlook }
    {
        let answer = self.take_in_time(buffer);
        self.outlook = match &answer {
            Ok(Some(_)) => Outlook::Busy,
            Ok(None) | Err(_) => self.outlook.after_nothing(),
        };
        match answer {
            Ok(answer) => Ok(answer),
            Err(_) => Err(self.fail()),
        }
    }

    fn failures(&self) -> u64 {
        self.failures
    }
}

// Opens a socket at the address, each call of which waits at most `WAIT`. Returns it with the address that it is bound
// to.
fn open<R: Net>(rt: &R, address: SocketAddrV4) -> io::Result<(UdpSocket, SocketAddr)> {
    let socket = UdpSocket::bind(rt, SocketAddr::V4(address))?;
    let time = Duration::from_millis(u64::from(WAIT));
    socket.set_read_timeout(Some(time))?;
    socket.set_write_timeout(Some(time))?;
    // The toolchain's `setsockopt` takes a value of 16 bytes for every option, and reads the first 4 of this one.
    let mut size = [0u8; 16];
    size[..4].copy_from_slice(&RECEIVE_BUFFER.to_ne_bytes());
    // If the system refuses the option, fewer datagrams are kept and more are lost, which may happen anyway.
    let _ = unsafe { setsockopt(socket.as_raw_fd(), SOL_SOCKET, SO_RCVBUF, &size, 4) };
    let address = socket.local_addr()?;
    Ok((socket, address))
}
