//! Which datagrams of a capture pass.

ghost use Rattle.std.specs.Prelude.{◌≡◌};
ghost use Rattle.std.specs.List.{list_any};
ghost use Rattle.std.specs.Str.{bytes_eq};
ghost use Rattle.mold_capture_commands.specs.Filter.{found, found_part, lent_found, passes, passes_group};
ghost use Rattle.mold_capture_commands.specs.Filter.{may_pass_port, passes_port, passes_session, passes_target};
ghost use Rattle.mold_frame.specs.IpAddress.{address_bytes};
ghost use Rattle.mold_frame.specs.Lent.{lent_carried, lent_datagram, lent_target};

use crate::found::Found;
use mold_frame::{Carried, Datagram, IpAddress, Target};
use mold_wire::Session;

/// The filters of a capture. A datagram passes if it passes each of them.
#[derive(Drop)]
pub struct CaptureFilter {
    /// The destination ports that pass. If there are none, every port passes.
    pub ports: Vec<u16>,
    /// The destination addresses that pass. If there are none, every address passes.
    pub groups: Vec<IpAddress>,
    /// The session that passes: the first ten bytes of the payload. If there is none, every payload passes.
    pub session: Option<Session>,
}

fn is_address(group: &IpAddress, address: &[u8]) -> bool
    ensures { result ≡ bytes_eq (address_bytes group.now) address.now }
{
    group.as_bytes() == address
}

fn is_any_address(groups: &[IpAddress], address: &[u8]) -> bool
    ensures { result ≡ list_any (λ group. bytes_eq (address_bytes group) address.now) groups.now }
{
    groups.iter().any(|group| is_address(group, address))
}

fn passes_port(ports: &[u16], port: u16) -> bool
    ensures { result ≡ passes_port ports.now port }
{
    ports.is_empty() || ports.contains(&port)
}

fn passes_group(groups: &[IpAddress], address: &[u8]) -> bool
    ensures { result ≡ passes_group groups.now address.now }
{
    groups.is_empty() || is_any_address(groups, address)
}

fn passes_session(session: Option<Session>, payload: &[u8]) -> bool
    ensures { result ≡ passes_session session payload.now }
{
    match session {
        Some(session) => payload.starts_with(&session.0),
        None => true,
    }
}

fn may_pass_port(ports: &[u16], port: Option<u16>) -> bool
    ensures { result ≡ may_pass_port ports.now port }
{
    match port {
        Some(port) => passes_port(ports, port),
        None => true,
    }
}

// Returns whether a datagram with this destination passes by its address, and by its port if it is known.
#[inline(always)]
#[tactic(auto, unfolding(crate::specs::Filter::passes_target))]
fn passes_target(filter: &CaptureFilter, port: Option<u16>, address: &[u8]) -> bool
    ensures { result ≡ passes_target filter.now port address.now }
{
    may_pass_port(filter.ports.as_slice(), port) && passes_group(filter.groups.as_slice(), address)
}

fn found_part<'a>(filter: &CaptureFilter, target: &Target<'_>) -> Found<'a>
    ensures { lent_found result ≡ found_part filter.now (lent_target target.now) }
{
    if passes_target(filter, target.port, target.address) {
        Found::Partial
    } else {
        Found::Skipped
    }
}

impl CaptureFilter {
    /// Returns whether the datagram passes: by its destination port, its destination address and its session.
    #[inline(always)]
    #[tactic(auto, unfolding(crate::specs::Filter::passes))]
    pub fn passes(&self, datagram: &Datagram<'_>) -> bool
        ensures { result ≡ passes self.now (lent_datagram datagram.now) }
    {
        passes_target(self, Some(datagram.target_port), datagram.target)
            && passes_session(self.session, datagram.payload)
    }

    /// Returns what a frame counts as that carries this. The session of a fragment or of a datagram that was cut is not
    /// judged.
    #[inline(always)]
    pub fn find<'a>(&self, carried: Carried<'a>) -> Found<'a>
        ensures { lent_found result ≡ found self.now (lent_carried carried.entry) }
    {
        match carried {
            Carried::Whole(datagram) => {
                if self.passes(&datagram) {
                    Found::Passed(datagram)
                } else {
                    Found::Skipped
                }
            }
            Carried::Fragment(target) => found_part(self, &target),
            Carried::Cut(target) => found_part(self, &target),
            Carried::Other => Found::Skipped,
            Carried::Unread => Found::Unread,
        }
    }
}
