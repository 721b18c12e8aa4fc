//! A list of senders.

ghost use Rattle.std.specs.Prelude.{◌≡◌, ◌↔◌, ◌∷◌, Contains, IsTrue, None, Some, replicate};

use std::net::Ipv4Addr;

/// The most addresses in a list of senders.
pub const SENDERS: usize = 8;

/// The IPv4 addresses of senders.
#[derive(Clone, Copy)]
pub struct SenderList {
    /// The addresses. An entry may be empty.
    pub hosts: [Option<Ipv4Addr>; SENDERS],
}

impl SenderList {
    /// Returns a list without addresses.
    pub fn new() -> SenderList
        ensures { result.hosts ≡ replicate 8 None }
    {
        SenderList {
            hosts: [None; SENDERS],
        }
    }

    /// Returns a list of this address.
    pub fn of(host: Ipv4Addr) -> SenderList
        ensures { result.hosts ≡ Some host ∷ replicate 7 None }
    {
        let mut list = SenderList::new();
        list.hosts[0] = Some(host);
        list
    }

    /// Whether the list has this address.
    pub fn contains(&self, host: Ipv4Addr) -> bool
        ensures { IsTrue result ↔ Contains self.now.hosts (Some host) }
    {
        self.hosts.contains(&Some(host))
    }
}
