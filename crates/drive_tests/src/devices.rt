//! Opens real and simulated devices, as the words of the input's first line state.

use crate::opened::{MAX_MESSAGE, SESSION, create};
use crate::port_calls::{PortCalls, SetCalls};
use crate::problem::Problem;
use crate::storage_calls::{FileCalls, StorageCalls};
use crate::words::Words;
use mold_digits::decode;
use mold_durable::{
    DurableJournal, FileStorage, FollowedFile, MemoryStorage, ScriptedFile, open_file,
};
use mold_port_set::{MemoryPortSet, PortSetCall, PortSetStep, UdpPortSet};
use mold_ports::{MemoryPort, Step, UdpPort};
use std::alloc::Global;
use std::fs::File;
use std::net::{Ipv4Addr, SocketAddr, SocketAddrV4};

// An address of this machine. The system chooses the port of number 0.
fn loopback(port: u16) -> SocketAddrV4 {
    SocketAddrV4::new(Ipv4Addr::new(127, 0, 0, 1), port)
}

// Reads a path.
fn path_of<'a>(words: &mut Words<'a>) -> Result<&'a str, Problem> {
    match str::from_utf8(words.next_word()) {
        Ok(path) => Ok(path),
        Err(_) => Err(Problem::Options),
    }
}

fn number_of(words: &mut Words<'_>) -> Result<u64, Problem> {
    match words.next_number() {
        Some(number) => Ok(number),
        None => Err(Problem::Options),
    }
}

fn small_of(words: &mut Words<'_>) -> Result<u32, Problem> {
    match words.next_small() {
        Some(number) => Ok(number),
        None => Err(Problem::Options),
    }
}

// Reads bytes, of which the word has the hexadecimal digits.
fn bytes_of(alloc: Global, words: &mut Words<'_>) -> Result<Vec<u8>, Problem> {
    let mut bytes = Vec::new(alloc);
    if decode(words.next_word(), &mut bytes)? {
        Ok(bytes)
    } else {
        Err(Problem::Options)
    }
}

// Appends a value to a list.
fn push<T: Drop>(list: &mut Vec<T>, value: T) -> Result<(), Problem> {
    match list.push(value) {
        Ok(()) => Ok(()),
        Err(_) => Err(Problem::Device),
    }
}

/// Opens a file as a storage. The words are `create PATH` or `open PATH`.
pub(crate) fn real_storage(
    rt: &HostRuntime,
    mut words: Words<'_>,
) -> Result<StorageCalls<FileStorage>, Problem> {
    let does_create = words.next_word() == b"create".as_slice();
    let path = path_of(&mut words)?;
    let storage = if does_create {
        create(rt, path)?.into_storage()
    } else {
        match open_file(rt, path)? {
            Some(storage) => storage,
            None => return Err(Problem::File),
        }
    };
    Ok(StorageCalls::new(rt.alloc(), storage))
}

/// Makes a storage in memory. The words are `create`, or `open FAILS BYTES`. The call of number FAILS fails.
pub(crate) fn simulated_storage(
    alloc: Global,
    mut words: Words<'_>,
) -> Result<StorageCalls<MemoryStorage>, Problem> {
    if words.next_word() == b"create".as_slice() {
        let storage = MemoryStorage::new(alloc);
        return match DurableJournal::create(alloc, SESSION, MAX_MESSAGE, storage) {
            Ok(journal) => Ok(StorageCalls::new(alloc, journal.into_storage())),
            Err(_) => Err(Problem::Device),
        };
    }
    let fails_at = number_of(&mut words)?;
    let bytes = bytes_of(alloc, &mut words)?;
    let mut storage = MemoryStorage::with_bytes(alloc, &bytes)?;
    storage.fail_at(fails_at);
    Ok(StorageCalls::new(alloc, storage))
}

/// Opens a file that another process writes. The word is its path.
pub(crate) fn real_file(
    rt: &HostRuntime,
    mut words: Words<'_>,
) -> Result<FileCalls<FollowedFile>, Problem> {
    match File::open(rt, path_of(&mut words)?) {
        Ok(file) => Ok(FileCalls::new(rt.alloc(), FollowedFile::new(file))),
        Err(_) => Err(Problem::File),
    }
}

/// Makes a file in memory. The words are `FAILS COUNT` and this many snapshots. The call of number FAILS fails. A read
/// shows the whole snapshot of the moment at which it ends.
pub(crate) fn simulated_file(
    alloc: Global,
    mut words: Words<'_>,
) -> Result<FileCalls<ScriptedFile>, Problem> {
    let fails_at = number_of(&mut words)?;
    let mut snapshots = Vec::new(alloc);
    for _ in 0..small_of(&mut words)? {
        push(&mut snapshots, bytes_of(alloc, &mut words)?)?;
    }
    let mut file = ScriptedFile::new(snapshots, usize::MAX);
    file.fail_at(fails_at);
    Ok(FileCalls::new(alloc, file))
}

// Reads the address of a peer on this machine, of which the word is the port number.
fn peer_of(words: &mut Words<'_>) -> Result<SocketAddrV4, Problem> {
    match u16::try_from(small_of(words)?) {
        Ok(port) => Ok(loopback(port)),
        Err(_) => Err(Problem::Options),
    }
}

// Adds ports to the set, and their addresses to its peers.
fn bind_ports(
    rt: &HostRuntime,
    count: u32,
    ports: &mut UdpPortSet,
    peers: &mut Vec<SocketAddrV4>,
) -> Result<(), Problem> {
    for port in 0..count {
        if ports.bind(rt, loopback(0), None).is_err() {
            return Err(Problem::Device);
        }
        match ports.address(port as usize) {
            Some(address) => push(peers, address)?,
            None => return Err(Problem::Device),
        }
    }
    Ok(())
}

/// Opens a set of UDP ports. The words are their number and the port number of another peer. The first peers are the
/// ports.
pub(crate) fn real_set(
    rt: &HostRuntime,
    mut words: Words<'_>,
) -> Result<SetCalls<UdpPortSet, SocketAddrV4>, Problem> {
    let count = small_of(&mut words)?;
    let peer = peer_of(&mut words)?;
    let mut ports = UdpPortSet::new(rt);
    let mut peers = Vec::new(rt.alloc());
    bind_ports(rt, count, &mut ports, &mut peers)?;
    push(&mut peers, peer)?;
    Ok(SetCalls::new(rt.alloc(), ports, peers))
}

// Makes a list of the numbers below `count`.
fn numbers_below(alloc: Global, count: u32) -> Result<Vec<u32>, Problem> {
    let mut numbers = Vec::new(alloc);
    for number in 0..count {
        push(&mut numbers, number)?;
    }
    Ok(numbers)
}

// Reads a step of a set of ports: `come TIME PORT BYTES`, or `fail TIME PORT` for a send that fails.
fn set_step(alloc: Global, word: &[u8], words: &mut Words<'_>) -> Result<PortSetStep, Problem> {
    let at = number_of(words)?;
    let port = small_of(words)? as usize;
    match word {
        b"come" => Ok(PortSetStep::Come {
            at,
            port,
            bytes: bytes_of(alloc, words)?,
        }),
        b"fail" => Ok(PortSetStep::Fail {
            at,
            call: PortSetCall::Send { port },
        }),
        _ => Err(Problem::Options),
    }
}

/// Makes a set of ports in memory. The words are the number of its peers and the steps of the script.
pub(crate) fn simulated_set(
    alloc: Global,
    mut words: Words<'_>,
) -> Result<SetCalls<MemoryPortSet, u32>, Problem> {
    let peers = numbers_below(alloc, small_of(&mut words)?)?;
    let mut script = Vec::new(alloc);
    for _ in 0..u64::MAX {
        let word = words.next_word();
        if word.is_empty() {
            break;
        }
        push(&mut script, set_step(alloc, word, &mut words)?)?;
    }
    Ok(SetCalls::new(alloc, MemoryPortSet::new(alloc, script)?, peers))
}

/// Opens a UDP port. The word is the port number of a peer. The first peer is the port.
pub(crate) fn real_port(
    rt: &HostRuntime,
    mut words: Words<'_>,
) -> Result<PortCalls<UdpPort, SocketAddr>, Problem> {
    let peer = peer_of(&mut words)?;
    let Ok(port) = UdpPort::bind(rt, loopback(0)) else {
        return Err(Problem::Device);
    };
    let mut peers = Vec::new(rt.alloc());
    push(&mut peers, port.address())?;
    push(&mut peers, SocketAddr::V4(peer))?;
    Ok(PortCalls::new(rt.alloc(), port, peers))
}

// Reads a step of a port: `come FROM BYTES`, `quiet` or `fail`.
fn port_step(alloc: Global, word: &[u8], words: &mut Words<'_>) -> Result<Step, Problem> {
    match word {
        b"come" => Ok(Step::Come {
            from: small_of(words)?,
            bytes: bytes_of(alloc, words)?,
        }),
        b"quiet" => Ok(Step::Quiet),
        b"fail" => Ok(Step::Fail),
        _ => Err(Problem::Options),
    }
}

/// Makes a port in memory. The words are the send that fails and the steps of the script.
pub(crate) fn simulated_port(
    alloc: Global,
    mut words: Words<'_>,
) -> Result<PortCalls<MemoryPort, u32>, Problem> {
    let fails_at = number_of(&mut words)?;
    let mut script = Vec::new(alloc);
    for _ in 0..u64::MAX {
        let word = words.next_word();
        if word.is_empty() {
            break;
        }
        push(&mut script, port_step(alloc, word, &mut words)?)?;
    }
    let mut port = MemoryPort::new(alloc, script);
    port.fail_send(fails_at);
    Ok(PortCalls::new(alloc, port, numbers_below(alloc, 2)?))
}
