//! Whether captures have several sessions.

ghost use Rattle.std.specs.Prelude.{◌≡◌};
ghost use Rattle.mold_capture_commands.specs.Pairs.{session_read};
ghost use Rattle.mold_capture_commands.specs.RefusedAt.{is_other, no_sessions_seen, session_seen};
ghost use Rattle.mold_wire.specs.Reading.{reading};

use mold_wire::{Session, decode};

/// The session of the first packet of captures, and whether another packet has another one.
#[derive(Clone, Copy, Debug, PartialEq, Eq)]
pub(crate) struct SessionsSeen {
    pub(crate) first: Option<Session>,
    pub(crate) several: bool,
}

// Returns the session of a payload. Bytes that do not encode a packet have none.
fn session_in(payload: &[u8]) -> Option<Session>
    ensures { result ≡ session_read (reading payload.now) }
{
    match decode(payload) {
        Ok(packet) => Some(packet.session),
        Err(_) => None,
    }
}

// Returns whether both are sessions, and differ.
fn is_other(first: Option<Session>, other: Option<Session>) -> bool
    ensures { result ≡ is_other first other }
{
    match (first, other) {
        (Some(first), Some(other)) => !(first.0 == other.0),
        _ => false,
    }
}

impl SessionsSeen {
    /// Returns the state before the first datagram.
    pub(crate) fn new() -> SessionsSeen
        ensures { result ≡ no_sessions_seen }
    {
        SessionsSeen {
            first: None,
            several: false,
        }
    }

    // Notes the session of the next datagram.
    fn note(&mut self, decided: bool, session: Option<Session>)
        ensures { self.new ≡ session_seen self.old decided session }
    {
        self.several = self.several || (decided && is_other(self.first, session));
        if self.first.is_none() {
            self.first = session;
        }
    }

    /// Takes the payload of the next datagram, given whether the judge has decided after it. An accepted datagram that
    /// is not the first one is not decoded again.
    #[inline(always)]
    pub(crate) fn take(&mut self, decided: bool, payload: &[u8])
        ensures { self.new ≡ session_seen self.old decided (session_read (reading payload.now)) }
    {
        if self.first.is_none() || (decided && !self.several) {
            self.note(decided, session_in(payload));
        }
    }
}
