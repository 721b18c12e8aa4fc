//! Sets of ports: UDP ports over the loopback address, and a script in memory.

use crate::comparisons::holds;
use mold_devices::DeviceFault;
use mold_port_set::{MemoryPortSet, PortSet, PortSetStep, SenderList, UdpPortSet};
use std::alloc::Global;
use std::fs::{File, Files};
use std::net::{Ipv4Addr, Net, SocketAddrV4};
use std::process::Abort;
use std::test::Fail;

// The longest wait for a datagram that was sent over loopback, in nanoseconds.
const SOON: u64 = 1_000_000_000;

// The loopback address. The system chooses the port.
fn loopback() -> SocketAddrV4 {
    SocketAddrV4::new(Ipv4Addr::new(127, 0, 0, 1), 0)
}

// Another address of this machine.
fn other() -> SocketAddrV4 {
    SocketAddrV4::new(Ipv4Addr::new(127, 0, 0, 2), 0)
}

// Returns the address of a port that the set has.
fn address(set: &UdpPortSet, port: usize) -> SocketAddrV4 {
    set.address(port).unwrap_or(loopback())
}

// A receive on the port gives these bytes, or nothing.
fn expect_datagram(rt: &impl Abort, set: &mut impl PortSet, port: usize, wanted: Option<&[u8]>) {
    let mut buffer = [0u8; 16];
    let received = set.receive(port, &mut buffer);
    let is_received = match wanted {
        Some(wanted) => received == Ok(Some(wanted.len())) && buffer.starts_with(wanted),
        None => received == Ok(None),
    };
    holds(rt, is_received);
}

fn expect_wait(rt: &impl Abort, set: &mut UdpPortSet, nanos: u64, wanted: bool) {
    let until = set.now().saturating_add(nanos);
    let found = set.wait(until);
    holds(rt, found == Ok(wanted) && (wanted || set.now() >= until));
}

fn expect_exchange(rt: &impl Abort, set: &mut UdpPortSet) -> Result<(), DeviceFault> {
    expect_wait(rt, set, 2_500_000, false);
    let second = address(set, 1);
    set.send(0, second, b"")?;
    expect_wait(rt, set, SOON, true);
    expect_datagram(rt, set, 1, Some(b""));
    expect_datagram(rt, set, 1, None);
    let is_failed = set.send(0, loopback(), b"abc").is_err();
    holds(rt, is_failed && set.failures() == 1);
    Ok(())
}

// Binds three ports. The first gives only datagrams of the second's address. The third is at another one.
fn bind_three(rt: &impl Net, set: &mut UdpPortSet) -> Result<(), DeviceFault> {
    set.bind(rt, loopback(), Some(SenderList::of(*loopback().ip())))?;
    set.bind(rt, loopback(), None)?;
    set.bind(rt, other(), None)
}

// Sends datagrams of another sender to the first port, and then one of its sender.
fn send_after(set: &mut UdpPortSet, others: u32, bytes: &[u8]) -> Result<(), DeviceFault> {
    let first = address(set, 0);
    for _ in 0..others {
        set.send(2, first, b"other")?;
    }
    set.send(1, first, bytes)
}

// A receive passes over at most 64 datagrams.
fn expect_filtered(rt: &impl Abort, set: &mut UdpPortSet) -> Result<(), DeviceFault> {
    send_after(set, 63, b"abc")?;
    expect_wait(rt, set, SOON, true);
    expect_datagram(rt, set, 0, Some(b"abc"));
    send_after(set, 64, b"de")?;
    expect_wait(rt, set, SOON, true);
    expect_datagram(rt, set, 0, None);
    expect_wait(rt, set, SOON, true);
    expect_datagram(rt, set, 0, Some(b"de"));
    holds(rt, set.passed_over(0) == 127);
    Ok(())
}

// The set gives datagrams of the sender of a port, and waits for all its ports.
fn expect_set(rt: &(impl Abort + Net), set: &mut UdpPortSet) -> Result<(), DeviceFault> {
    bind_three(rt, set)?;
    expect_filtered(rt, set)?;
    expect_exchange(rt, set)
}

#[test]
fn a_set_waits_for_all_its_ports(rt: HostRuntime) -> Result<(), Fail> {
    let mut set = UdpPortSet::new(&rt);
    expect_set(&rt, &mut set)?;
    // Without the system's table the number is not known.
    holds(&rt, matches!(set.drops(), None | Some(0)));
    Ok(())
}

fn scripted(alloc: Global) -> Result<MemoryPortSet, Fail> {
    let mut script = Vec::new(alloc);
    script.push(PortSetStep::Come {
        at: 0,
        port: 0,
        bytes: b"abc".to_vec(alloc)?,
    })?;
    Ok(MemoryPortSet::new(alloc, script)?)
}

// Sends bytes from port 0 to peer 1. If an allocation fails, the send fails and nothing is kept of it, and the bytes
// are sent again.
fn send_again(rt: &impl Abort, set: &mut MemoryPortSet, bytes: &[u8]) -> Result<(), DeviceFault> {
    let (failures, kept) = (set.failures(), set.sent().len());
    if set.send(0, 1, bytes).is_ok() {
        return Ok(());
    }
    holds(
        rt,
        set.failures() == failures.saturating_add(1) && set.sent().len() == kept,
    );
    set.send(0, 1, bytes)
}

fn receive_and_send(rt: &impl Abort, set: &mut MemoryPortSet) -> Result<(), DeviceFault> {
    expect_datagram(rt, set, 0, Some(b"abc"));
    send_again(rt, set, b"ab")?;
    send_again(rt, set, b"")?;
    holds(
        rt,
        (set.left(), set.given().len(), set.sent().len()) == (0, 1, 2),
    );
    Ok(())
}

/// A receive allocates nothing.
#[test]
fn out_of_memory_is_a_failed_send(rt: HostRuntime) -> Result<(), Fail> {
    let mut set = scripted(rt.alloc())?;
    match receive_and_send(&rt, &mut set) {
        Ok(()) => Ok(()),
        Err(DeviceFault) => Err(Fail::from("Memory")),
    }
}
