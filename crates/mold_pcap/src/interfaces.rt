//! The interfaces of a section.

ghost use Rattle.std.specs.Prelude.{◌≡◌, [], IfOk, slice_get};
ghost use Rattle.mold_pcap.specs.Formats.{with_interface};

use crate::clock::Clock;
use crate::interface::Interface;
use crate::limits::MAX_INTERFACES;
use std::alloc::{AllocError, Global};
use std::marker::Model;

/// The first interfaces of a section, at most `MAX_INTERFACES`. The memory for them is allocated once.
#[derive(Drop)]
pub struct Interfaces {
    table: Vec<Interface>,
    count: usize,
}

impl Model for Interfaces {
    ghost use Rattle.std.specs.Prelude.{◌≡◌, ◌≤◌, List, length, take};
    ghost use Rattle.mold_pcap.specs.declared.interface.Interface.{Interface};
    ghost use Rattle.mold_pcap.specs.declared.limits.TheConstants.{MAX_INTERFACES};

    ghost Value = { List Interface };

    ghost view = { λ i. take i.count i.table.items };

    ghost invariant = { λ i. (i.count ≤ MAX_INTERFACES) × (length i.table.items ≡ MAX_INTERFACES) };
}

impl Interfaces {
    /// Allocates the memory for `MAX_INTERFACES` interfaces.
    pub fn new(alloc: Global) -> Result<Interfaces, AllocError>
        ensures { IfOk result (λ interfaces. interfaces ≡ []) }
    {
        let unused = Interface {
            link: 0,
            snaplen: 0,
            clock: Clock::new(),
        };
        Ok(Interfaces {
            table: vec![in alloc; unused; MAX_INTERFACES]?,
            count: 0,
        })
    }

    /// Forgets all interfaces.
    pub fn clear(&mut self)
        ensures { self.new ≡ [] }
    {
        self.count = 0;
    }

    /// Adds an interface. If there are `MAX_INTERFACES` already, it is dropped.
    pub fn push(&mut self, interface: Interface)
        ensures { self.new ≡ with_interface self.old interface }
    {
        if self.count < MAX_INTERFACES {
            self.table[self.count] = interface;
            self.count += 1;
        }
    }

    /// Returns the interface with this number, counted from 0.
    pub fn get(&self, number: u32) -> Option<Interface>
        ensures { result ≡ slice_get self.now number }
    {
        let number = number as usize;
        if number < self.count {
            Some(self.table[number])
        } else {
            None
        }
    }
}
