//! What is known of a capture from the parts that were read.

ghost use Rattle.std.specs.Prelude.{◌≡◌, ◌↔◌, IfOk, IsTrue};
ghost use Rattle.mold_pcap.specs.Formats.{at_start, ends, moved_format, passed_format, spent_format};
ghost use Rattle.mold_pcap.specs.Looks.{IsLook, look};
ghost use Rattle.mold_pcap.specs.declared.kind.Kind.TheVariants.{Spent};

use crate::blocks::look_at_block;
use crate::classic::look_at_record;
use crate::fault::CaptureFault;
use crate::interfaces::Interfaces;
use crate::kind::Kind;
use crate::look::Look;
use crate::next::Next;
use crate::order::Order;
use crate::start::look_at_start;
use std::alloc::{AllocError, Global};
use std::marker::Model;

/// What is known of a capture from the parts that were read, and where the next part begins.
#[derive(Drop)]
pub struct Format {
    kind: Kind,
    order: Order,
    at: u64,
    interfaces: Interfaces,
}

impl Model for Format {
    ghost use Rattle.mold_pcap.specs.Formats.{FormatState};

    ghost Value = { FormatState };

    ghost view = { λ f. record { kind = f.kind; order = f.order; at = f.at; interfaces = f.interfaces } };
}

impl Format {
    /// Returns the format of a capture of which nothing was read. It allocates the memory for the interfaces.
    pub fn new(alloc: Global) -> Result<Format, AllocError>
        ensures { IfOk result (λ format. format ≡ at_start) }
    {
        Ok(Format {
            kind: Kind::Start,
            order: Order::Big,
            at: 0,
            interfaces: Interfaces::new(alloc)?,
        })
    }

    /// Returns the offset of the next part.
    pub fn at(&self) -> u64
        ensures { result ≡ self.now.at }
    {
        self.at
    }

    /// Returns whether the reader is spent.
    pub fn is_spent(&self) -> bool
        ensures { IsTrue result ↔ (self.now.kind ≡ Spent) }
    {
        matches!(self.kind, Kind::Spent)
    }

    /// Returns the order of the capture's numbers.
    pub fn order(&self) -> Order
        ensures { result ≡ self.now.order }
    {
        self.order
    }

    /// Looks at the next part, of which these bytes are available. Bytes after the part may follow.
    #[inline(always)]
    #[tactic(auto, using(crate::proofs::LookLemmas::is_look), unfolding(crate::specs::Looks::look))]
    pub fn look(&self, bytes: &[u8]) -> Look
        ensures look { result ≡ look self.now bytes.now }
        ensures fits { IsLook result bytes.now }
    {
        match self.kind {
            Kind::Start => look_at_start(self.at, bytes),
            Kind::Classic { link, resolution } => {
                look_at_record(self.at, self.order, link, resolution, bytes)
            }
            Kind::Blocks => look_at_block(self.at, self.order, &self.interfaces, bytes),
            Kind::Spent => Look::Ended,
        }
    }

    /// Passes a part of `used` bytes.
    #[inline(always)]
    pub fn advance(&mut self, used: usize)
        ensures { self.new ≡ moved_format self.old used }
    {
        self.at = self.at.saturating_add(used as u64);
    }

    /// Passes a part of `used` bytes without a frame.
    pub fn pass(&mut self, next: Next, used: usize)
        ensures { self.new ≡ passed_format self.old next used }
    {
        self.advance(used);
        match next {
            Next::Head {
                order,
                link,
                resolution,
            } => {
                self.kind = Kind::Classic { link, resolution };
                self.order = order;
                self.interfaces.clear();
            }
            Next::Section { order } => {
                self.kind = Kind::Blocks;
                self.order = order;
                self.interfaces.clear();
            }
            Next::Described { interface } => self.interfaces.push(interface),
        }
    }

    /// Makes the reader spent: nothing more is read.
    pub fn spend(&mut self)
        ensures { self.new ≡ spent_format self.old }
    {
        self.kind = Kind::Spent;
    }

    /// Returns the fault of a capture that ends here, if it has one. `is_empty` is whether it ends before the next
    /// part.
    pub fn ending(&self, is_empty: bool) -> Option<CaptureFault>
        ensures { result ≡ ends self.now.kind self.now.at is_empty }
    {
        let cut = CaptureFault::Cut { at: self.at };
        match self.kind {
            Kind::Start => Some(cut),
            Kind::Spent => None,
            _ if is_empty => None,
            _ => Some(cut),
        }
    }
}
