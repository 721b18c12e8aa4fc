//! UDP sockets as a set of ports.

ghost use Rattle.std.specs.Prelude.{◌≡◌, ◌+◌, ◌-◌, ◌*◌, ◌<◌, ◌≤◌, ◌^◌, ◌∷◌, ◌++◌, ◌↔◌, false, [], length, slice_get};
ghost use Rattle.std.specs.Prelude.{Contains, IfOk, IfSome, IsErr, IsTrue, IsSome, OnErr, OnOk};
ghost use Rattle.mold_devices.specs.Devices.{Counts, one_more};
ghost use Rattle.mold_port_set.specs.declared.opened.Opened.TheVariants.{Bound, Adopted};

use crate::clock::{LAST_TIME, monotonic};
use crate::descriptor::Descriptor;
use crate::drop_table::{DropTable, Drops};
use crate::opened::Opened;
use crate::port_set::PortSet;
use crate::sender_filter::receive_wanted;
use crate::sender_list::SenderList;
use crate::socket_number::socket_number;
use libc::close;
use libc::net::{POLLIN, poll};
use libc::types::pollfd;
use mold_devices::DeviceFault;
use std::fs::{File, Files};
use std::marker::Model;
use std::net::{Net, SocketAddr, SocketAddrV4, UdpSocket};
use std::os::fd::{AsRawFd, IntoRawFd, RawFd};

/// The most ports of a set of UDP ports.
pub const PORTS: usize = 10;

const NANOS_PER_MILLI: u64 = 1_000_000;

/// The longest wait in milliseconds if there is no deadline.
const WAIT: i32 = 1000;

/// The least descriptor that can be adopted. Those below are the standard streams.
const FIRST_ADOPTED: u16 = 3;

/// The greatest descriptor that can be adopted.
const LAST_ADOPTED: u16 = 1023;

/// The value that `poll` takes for no descriptor.
const NO_DESCRIPTOR: RawFd = -1;

/// UDP sockets over IPv4, each a port with an index. The first port has index 0, and a set has at most [`PORTS`].
///
/// The set allocates no memory. It closes its sockets when it is dropped, those that it adopted too.
pub struct UdpPortSet {
    // The number of ports. From this index on, the entries of the next five arrays are unused.
    count: usize,
    opened: [Opened; PORTS],
    // The sockets' descriptors. `revents` is not 0 if a datagram may be at the port.
    watched: [pollfd; PORTS],
    // The senders whose datagrams the ports give, or `None` for all senders.
    senders: [Option<SenderList>; PORTS],
    // The numbers of ignored datagrams. They stop at `u64::MAX`.
    passed_over: [u64; PORTS],
    drops: [Drops; PORTS],
    table: DropTable,
    // The clock when the set was made.
    start: u64,
    time: u64,
    failures: u64,
}

impl Model for UdpPortSet {
    ghost use Rattle.std.specs.Prelude.{◌<◌, ◌≤◌, ◌^◌, take};
    ghost use Rattle.mold_port_set.specs.Udp.{UdpSetState};

    ghost Value = { UdpSetState };

    ghost view = { λ s. record {
      ports = take s.count s.opened;
      senders = take s.count s.senders;
      time = s.time;
      failures = s.failures;
    } };

    ghost invariant = { λ s. (s.count ≤ 10) × (s.time < 2 ^ 62) };
}

impl UdpPortSet {
    /// Returns a set with no port. Its clock starts now. If the system's table of sockets cannot be opened, `drops`
    /// returns `None`, and the other calls work.
    pub fn new<R: Files<File = File>>(rt: &R) -> UdpPortSet
        ensures { result ≡ record { ports = []; senders = []; time = 0; failures = 0 } }
    {
        UdpPortSet {
            count: 0,
            opened: [Opened::Adopted(0); PORTS],
            watched: [watched(NO_DESCRIPTOR); PORTS],
            senders: [None; PORTS],
            passed_over: [0; PORTS],
            drops: [Drops {
                socket: None,
                count: None,
            }; PORTS],
            table: DropTable::open(rt),
            start: monotonic(),
            time: 0,
            failures: 0,
        }
    }

    /// Adds a port at an address of this machine; for port number 0, the system chooses one. If `senders` is not
    /// `None`, the port gives only datagrams from these IP addresses. It fails if the address is not the machine's or
    /// is taken, if no socket is available, or if the set has [`PORTS`] ports already.
    pub fn bind<R: Net>(
        &mut self,
        rt: &R,
        address: SocketAddrV4,
        senders: Option<SenderList>,
    ) -> Result<(), DeviceFault>
        ensures ok { OnOk result (self.new ≡ record self.old {
          ports = self.old.ports ++ Bound address ∷ [];
          senders = self.old.senders ++ senders ∷ [];
        }) }
        ensures err { OnErr result (self.new ≡ self.old) }
        ensures full { 10 ≤ length self.old.ports → IsErr result }
    {
        if self.count >= PORTS {
            return Err(DeviceFault);
        }
        let socket = UdpSocket::bind(rt, SocketAddr::V4(address)).map_err(|_| DeviceFault)?;
        self.add(Opened::Bound(address), socket.into_raw_fd(), senders);
        Ok(())
    }

    /// Adds a port over an open UDP socket that the process was started with, and takes the socket over. If `senders`
    /// is not `None`, the port gives only datagrams from these IP addresses. It fails if the descriptor is not from 3
    /// to 1023, or is not a UDP socket over IPv4 that is bound to a port. It also fails if the socket is one of this
    /// set, or if the set has [`PORTS`] ports already. In these cases the descriptor stays open. Don't adopt a socket
    /// that the process opened itself: call this before other sockets are opened, so that the descriptor can't be one
    /// of theirs.
    ///
    /// The socket's modes stay as they are, so another process that has the socket too can use it as before.
    pub fn adopt<R: Net>(
        &mut self,
        _rt: &R,
        descriptor: u16,
        senders: Option<SenderList>,
    ) -> Result<(), DeviceFault>
        ensures ok { OnOk result (self.new ≡ record self.old {
          ports = self.old.ports ++ Adopted descriptor ∷ [];
          senders = self.old.senders ++ senders ∷ [];
        }) }
        ensures err { OnErr result (self.new ≡ self.old) }
        ensures full { 10 ≤ length self.old.ports → IsErr result }
        ensures range { OnOk result ((3 ≤ descriptor) × (descriptor ≤ 1023)) }
        ensures twice { Contains self.old.ports (Adopted descriptor) → IsErr result }
    {
        if self.count >= PORTS || !(FIRST_ADOPTED..=LAST_ADOPTED).contains(&descriptor) {
            return Err(DeviceFault);
        }
        let raw = RawFd::from(descriptor);
        if self.is_adopted(descriptor) || self.has_socket(raw) || !is_udp_socket(Descriptor(raw)) {
            return Err(DeviceFault);
        }
        self.add(Opened::Adopted(descriptor), raw, senders);
        Ok(())
    }

    // Adds a port.
    fn add(&mut self, opened: Opened, descriptor: RawFd, senders: Option<SenderList>)
        requires { length self.old.ports < 10 }
        ensures { self.new ≡ record self.old {
          ports = self.old.ports ++ opened ∷ [];
          senders = self.old.senders ++ senders ∷ [];
        } }
    {
        Descriptor(descriptor).ask_receive_buffer();
        self.opened[self.count] = opened;
        self.watched[self.count] = watched(descriptor);
        self.senders[self.count] = senders;
        self.passed_over[self.count] = 0;
        self.drops[self.count] = Drops {
            socket: socket_number(descriptor),
            count: None,
        };
        self.count += 1;
    }

    // Whether the descriptor was adopted before.
    fn is_adopted(&self, descriptor: u16) -> bool
        ensures { Contains self.now.ports (Adopted descriptor) → IsTrue result }
    {
        self.opened[..self.count].contains(&Opened::Adopted(descriptor))
    }

    // Whether the descriptor is of a socket of the set, as far as the system reports the sockets' numbers.
    fn has_socket(&self, descriptor: RawFd) -> bool {
        let socket = socket_number(descriptor);
        socket.is_some()
            && self.drops[..self.count]
                .iter()
                .any(|port| port.socket == socket)
    }

    /// Returns how the port was opened, or `None` if the set has no such port.
    pub fn opened(&self, port: usize) -> Option<Opened>
        ensures { result ≡ slice_get self.now.ports port }
    {
        self.opened[..self.count].get(port).copied()
    }

    /// Returns the address that the port's socket is bound to, or `None` if the set has no such port.
    pub fn address(&self, port: usize) -> Option<SocketAddrV4> {
        self.descriptor(port)?.address()
    }

    // The descriptor of a port, or `None` if the set has no such port.
    fn descriptor(&self, port: usize) -> Option<Descriptor>
        ensures { IsSome result ↔ (port < length self.now.ports) }
    {
        if port >= self.count {
            return None;
        }
        Some(Descriptor(self.watched[port].fd))
    }

    // Reads the clock. The time never falls.
    fn read_clock(&mut self)
        ensures ports { self.new.ports ≡ self.old.ports }
        ensures senders { self.new.senders ≡ self.old.senders }
        ensures clock { self.old.time ≤ self.new.time }
        ensures failures { self.new.failures ≡ self.old.failures }
    {
        let elapsed = monotonic().saturating_sub(self.start);
        self.time = elapsed.min(LAST_TIME).max(self.time);
    }

    // Counts a failure.
    fn fail(&mut self) -> DeviceFault
        ensures { self.new ≡ record self.old { failures = one_more self.old.failures } }
    {
        self.failures = self.failures.saturating_add(1);
        DeviceFault
    }
}

impl PortSet for UdpPortSet {
    type Peer = SocketAddrV4;

    ghost modeled = { false };

    ghost state = { λ s. record { given = []; sent = []; now = s.time; failures = s.failures } };

    /// Returns the time of the last wait, or of the last receive that looked at its port, in nanoseconds since the set
    /// was made. It never falls, and it stops below 2^62.
    fn now(&self) -> u64 {
        self.time
    }

    /// Waits until a datagram is at any port, or until the time `until`, in nanoseconds since the set was made. The
    /// wait is rounded up to a whole millisecond. If `until` is `u64::MAX`, there is no deadline, and the wait ends
    /// after one second. If `until` has passed, it does not wait. Returns whether a datagram is at a port, of any
    /// sender. It fails if the system refuses or interrupts the wait.
    fn wait(&mut self, until: u64) -> Result<bool, DeviceFault>
        // Clauses of every set of ports.
        ensures clock { self.old.time ≤ self.new.time }
        ensures failures { Counts self.old.failures self.new.failures result }

        // Clauses of this set only.
        ensures ports { self.new.ports ≡ self.old.ports }
        ensures senders { self.new.senders ≡ self.old.senders }
    {
        self.read_clock();
        let ready = poll(&mut self.watched, wait_time(self.time, until));
        self.read_clock();
        if ready < 0 {
            return Err(self.fail());
        }
        Ok(ready > 0)
    }

    /// Receives a datagram into a prefix of `buffer`, truncated to the buffer's length, and returns its length. It
    /// never waits. Datagrams of other senders than those of the port are ignored and counted. Returns `None` if no
    /// datagram remains at the port, or if 64 datagrams were ignored. It fails if the set has no such port, or if the
    /// system reports an error of the socket. If it returns no length, the contents of `buffer` are unspecified.
    ///
    /// A port that a wait found empty, or for which this returned `None`, is not looked at again before the next wait.
    fn receive(&mut self, port: usize, buffer: &mut [u8]) -> Result<Option<usize>, DeviceFault>
        // Clauses of every set of ports.
        ensures count { IfOk result (λ answer. IfSome answer (λ count. count ≤ length buffer.new)) }
        ensures same { length buffer.new ≡ length buffer.old }
        ensures clock { self.old.time ≤ self.new.time }
        ensures failures { Counts self.old.failures self.new.failures result }

        // Clauses of this set only.
        ensures ports { self.new.ports ≡ self.old.ports }
        ensures senders { self.new.senders ≡ self.old.senders }
        ensures index { length self.old.ports ≤ port → IsErr result }
    {
        let Some(descriptor) = self.descriptor(port) else {
            return Err(self.fail());
        };
        if self.watched[port].revents == 0 {
            return Ok(None);
        }
        let passed_over = &mut self.passed_over[port];
        let answer = receive_wanted(descriptor, &self.senders[port], buffer, passed_over);
        self.read_clock();
        match answer {
            Ok(Some(count)) => Ok(Some(count)),
            Ok(None) => {
                self.watched[port].revents = 0;
                Ok(None)
            }
            Err(_) => Err(self.fail()),
        }
    }

    /// Sends a datagram from the port. It never waits. It fails if the set has no such port, or if the system does not
    /// take the datagram now.
    fn send(&mut self, port: usize, to: SocketAddrV4, bytes: &[u8]) -> Result<(), DeviceFault>
        // Clauses of every set of ports.
        ensures clock { self.new.time ≡ self.old.time }
        ensures failures { Counts self.old.failures self.new.failures result }

        // Clauses of this set only.
        ensures ports { self.new.ports ≡ self.old.ports }
        ensures senders { self.new.senders ≡ self.old.senders }
        ensures index { length self.old.ports ≤ port → IsErr result }
    {
        let sent = match self.descriptor(port) {
            Some(descriptor) => descriptor.send(to, bytes),
            None => Err(DeviceFault),
        };
        match sent {
            Ok(()) => Ok(()),
            Err(_) => Err(self.fail()),
        }
    }

    /// Returns the number of datagrams that the system dropped at the set's sockets, for example because a receive
    /// buffer was full. It is counted from the opening of each socket, which for an adopted one may be before the
    /// process started. Returns `None` if the system does not report it for each of them. This reads a table with a
    /// row for each UDP socket of the machine, so its cost grows with their number.
    fn drops(&mut self) -> Option<u64>
        ensures { self.new ≡ self.old }
    {
        self.table.update(&mut self.drops);
        let mut total = 0u64;
        for port in &self.drops[..self.count] {
            total = total.saturating_add(port.count?);
        }
        Some(total)
    }

    /// Returns the number of datagrams of other senders that were ignored at the port. It stops at `u64::MAX`. If the
    /// set has no such port, it is 0.
    fn passed_over(&self, port: usize) -> u64 {
        self.passed_over[..self.count]
            .get(port)
            .copied()
            .unwrap_or(0)
    }

    fn failures(&self) -> u64 {
        self.failures
    }
}

impl Drop for UdpPortSet {
    fn drop(self) {
        let UdpPortSet {
            count: _,
            opened: _,
            watched,
            senders: _,
            passed_over: _,
            drops: _,
            table: _table,
            start: _,
            time: _,
            failures: _,
        } = self;
        close_all(watched);
    }
}

// Closes the descriptors of these entries.
fn close_all(ports: [pollfd; PORTS]) {
    for port in &ports {
        if port.fd != NO_DESCRIPTOR {
            close(port.fd);
        }
    }
}

// Whether this is an open UDP socket over IPv4 that is bound to a port.
fn is_udp_socket(descriptor: Descriptor) -> bool {
    match descriptor.address() {
        Some(address) => {
            address.port() != 0 && !descriptor.is_tcp() && !descriptor.is_bound_again(address)
        }
        None => false,
    }
}

// Returns the time for `poll` to wait from `now` until `until`, in milliseconds.
fn wait_time(now: u64, until: u64) -> i32 {
    if until == u64::MAX {
        return WAIT;
    }
    i32::try_from(millis_between(now, until)).unwrap_or(i32::MAX)
}

// Returns the milliseconds from `now` until `until`, rounded up.
fn millis_between(now: u64, until: u64) -> u64
    ensures reached { until ≤ now + result * 1000000 }
    ensures least { result * 1000000 < (until - now) + 1000000 }
{
    until.saturating_sub(now).div_ceil(NANOS_PER_MILLI)
}

// Returns the entry for `poll` that reports whether a datagram is at the descriptor. A new port may have one.
// `NO_DESCRIPTOR` never has.
fn watched(descriptor: RawFd) -> pollfd {
    pollfd {
        fd: descriptor,
        events: POLLIN,
        revents: POLLIN,
    }
}
