//! The calls on a socket by its descriptor. None of them waits.

ghost use Rattle.std.specs.Prelude.{◌≡◌, ◌≤◌, length, IfOk, IfSome};

use crate::address::{ADDRESS_LENGTH, STORAGE_LENGTH, decode, encode};
use libc::EAGAIN;
use libc::net::{
    _SS_SIZE, IPPROTO_TCP, MSG_DONTWAIT, MSG_NOSIGNAL, SO_RCVBUF, SOL_SOCKET, TCP_NODELAY, bind,
    getsockname, getsockopt, recvfrom, sendto, setsockopt,
};
use mold_devices::DeviceFault;
use os::errno;
use std::net::SocketAddrV4;
use std::os::fd::RawFd;

/// The number of bytes of datagrams not received yet that the system is asked to keep. It may keep fewer.
const RECEIVE_BUFFER: i32 = 1 << 22;

/// The toolchain's calls for options take a value of 16 bytes for every option. These options have the first 4.
type OptionValue = [u8; 16];

const OPTION_LENGTH: u32 = 4;

/// A descriptor. The calls fail if it is not an open socket.
#[derive(Clone, Copy)]
pub(crate) struct Descriptor(pub(crate) RawFd);

impl Descriptor {
    /// Returns the address that the socket is bound to, or `None` if it is not an IPv4 address.
    pub(crate) fn address(self) -> Option<SocketAddrV4> {
        let mut raw = [0u8; _SS_SIZE];
        let mut length = STORAGE_LENGTH;
        if unsafe { getsockname(self.0, &mut raw, &mut length) } != 0 {
            return None;
        }
        decode(&raw)
    }

    /// Returns whether the socket has the options of TCP, so it is not a UDP socket.
    pub(crate) fn is_tcp(self) -> bool {
        let mut value: OptionValue = [0; 16];
        let mut length = OPTION_LENGTH;
        unsafe { getsockopt(self.0, IPPROTO_TCP, TCP_NODELAY, &mut value, &mut length) == 0 }
    }

    /// Returns whether the socket can be given the address that it has. A UDP socket that is bound to a port cannot. A
    /// raw socket can, which changes nothing of it.
    pub(crate) fn is_bound_again(self, address: SocketAddrV4) -> bool {
        unsafe { bind(self.0, &encode(address), ADDRESS_LENGTH) == 0 }
    }

    /// Asks for a larger receive buffer, unless it is large enough already. If the system refuses, fewer datagrams are
    /// kept and more are lost, which may happen anyway.
    pub(crate) fn ask_receive_buffer(self) {
        if self.receive_buffer() < RECEIVE_BUFFER {
            let mut size: OptionValue = [0; 16];
            size[..4].copy_from_slice(&RECEIVE_BUFFER.to_ne_bytes());
            let _ = unsafe { setsockopt(self.0, SOL_SOCKET, SO_RCVBUF, &size, OPTION_LENGTH) };
        }
    }

    // The bytes of the receive buffer, or 0 if the system does not report them.
    fn receive_buffer(self) -> i32 {
        let mut size: OptionValue = [0; 16];
        let mut length = OPTION_LENGTH;
        if unsafe { getsockopt(self.0, SOL_SOCKET, SO_RCVBUF, &mut size, &mut length) } != 0 {
            return 0;
        }
        i32::from_ne_bytes([size[0], size[1], size[2], size[3]])
    }

    /// Takes the datagram that is here, or returns `None`. A longer datagram is truncated to the buffer's length. A
    /// fault means that the system reports an error of the socket.
    pub(crate) fn receive(
        self,
        buffer: &mut [u8],
    ) -> Result<Option<(usize, SocketAddrV4)>, DeviceFault>
        ensures count { IfOk result (λ answer. IfSome answer (λ found. found.0 ≤ length buffer.new)) }
        ensures same { length buffer.new ≡ length buffer.old }
    {
        let mut raw = [0u8; _SS_SIZE];
        let mut length = STORAGE_LENGTH;
        let count = unsafe { recvfrom(self.0, buffer, MSG_DONTWAIT, &mut raw, &mut length) };
        if count >= 0 {
            let from = decode(&raw).ok_or(DeviceFault)?;
            return Ok(Some((count.unsigned_abs(), from)));
        }
        if errno() == EAGAIN {
            return Ok(None);
        }
        Err(DeviceFault)
    }

    /// Sends a datagram. It fails if the system has no room for the datagram now.
    pub(crate) fn send(self, to: SocketAddrV4, bytes: &[u8]) -> Result<(), DeviceFault> {
        let flags = MSG_NOSIGNAL | MSG_DONTWAIT;
        let sent = unsafe { sendto(self.0, bytes, flags, &encode(to), ADDRESS_LENGTH) };
        if sent < 0 || sent.unsigned_abs() != bytes.len() {
            return Err(DeviceFault);
        }
        Ok(())
    }
}
