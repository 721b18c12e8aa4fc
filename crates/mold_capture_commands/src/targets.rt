//! Whether the datagram that a check refuses has another destination than the first accepted one.

ghost use Rattle.std.specs.Prelude.{◌≡◌, IfOk, OnOk};
ghost use Rattle.mold_capture_commands.specs.Targets.{accepted, aimed, destination_of, differ, differs, no_targets};
ghost use Rattle.mold_capture_commands.specs.Targets.{refused};
ghost use Rattle.mold_frame.specs.Lent.{lent_datagram};

use mold_frame::Datagram;
use std::alloc::{AllocError, Global};
use std::marker::Model;

// Where a datagram goes.
#[derive(Drop)]
struct Endpoint {
    address: Vec<u8>,
    port: u16,
}

impl Model for Endpoint {
    ghost use Rattle.mold_capture_commands.specs.Targets.{Destination};

    ghost Value = { Destination };

    ghost view = { λ e. record { address = e.address.items; port = e.port } };
}

impl Endpoint {
    fn new(alloc: Global, datagram: &Datagram<'_>) -> Result<Endpoint, AllocError>
        ensures { IfOk result (λ endpoint. endpoint ≡ destination_of (lent_datagram datagram.now)) }
    {
        Ok(Endpoint {
            address: datagram.target.to_vec(alloc)?,
            port: datagram.target_port,
        })
    }

    fn differs(&self, datagram: &Datagram<'_>) -> bool
        ensures { result ≡ differ self.now (destination_of (lent_datagram datagram.now)) }
    {
        !(self.address.as_slice() == datagram.target && self.port == datagram.target_port)
    }
}

/// The destination of the first accepted datagram, and whether the first refused one has another.
#[derive(Drop)]
pub(crate) struct Targets {
    first: Option<Endpoint>,
    other: bool,
    alloc: Global,
}

impl Model for Targets {
    ghost use Rattle.mold_capture_commands.specs.Targets.{TargetState};

    ghost Value = { TargetState };

    ghost view = { λ t. record { first = t.first; other = t.other } };
}

impl Targets {
    /// Returns the state before the first datagram. This allocates nothing.
    pub(crate) fn new(alloc: Global) -> Targets
        ensures { result ≡ no_targets }
    {
        Targets {
            first: None,
            other: false,
            alloc,
        }
    }

    /// Returns whether a datagram was refused that has another destination than the first accepted one: another address
    /// or another port.
    pub(crate) fn other(&self) -> bool
        ensures { result ≡ self.now.other }
    {
        self.other
    }

    fn accept(&mut self, datagram: &Datagram<'_>) -> Result<(), AllocError>
        ensures { OnOk result (self.new ≡ accepted self.old (destination_of (lent_datagram datagram.now))) }
    {
        if self.first.is_none() {
            self.first = Some(Endpoint::new(self.alloc, datagram)?);
        }
        Ok(())
    }

    fn refuse(&mut self, datagram: &Datagram<'_>)
        ensures { self.new ≡ refused self.old (destination_of (lent_datagram datagram.now)) }
    {
        self.other = match &self.first {
            Some(first) => first.differs(datagram),
            None => false,
        };
    }

    /// Takes the next datagram, given whether the judge had decided before and after it. Only the first accepted datagram
    /// allocates, the bytes of its address.
    pub(crate) fn take(
        &mut self,
        before: bool,
        after: bool,
        datagram: &Datagram<'_>,
    ) -> Result<(), AllocError>
        ensures { OnOk result (self.new ≡
            aimed self.old before after (destination_of (lent_datagram datagram.now))) }
    {
        match (before, after) {
            (true, _) => Ok(()),
            (false, false) => self.accept(datagram),
            (false, true) => {
                self.refuse(datagram);
                Ok(())
            }
        }
    }
}
