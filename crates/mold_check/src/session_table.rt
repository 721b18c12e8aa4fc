//! The sessions of a check, each with its judge.

ghost use Rattle.std.specs.Prelude.{◌≡◌, ◌++◌, [], IfOk, IfSome, None, OnOk, Some, length, max, position, slice_get, ◌==◌};
ghost use Rattle.std.specs.Io.KnownBytes.{Appends};
ghost use Rattle.std.specs.Map.{keys_of, values_of};
ghost use Rattle.indexmap.specs.IndexMap.{set_value_at};
ghost use Rattle.mold_check.specs.EachCheck.{entries_added, entries_statuses, entries_text, entry_status_by, entry_text};
ghost use Rattle.mold_check.specs.EachCheck.{entry_text_by, greatest, none_text, same_key, session_line, some_whole};
ghost use Rattle.mold_devices.specs.Devices.{AppendsPrefix};
ghost use Rattle.mold_devices.specs.Faults.{CountsSink};
ghost use Rattle.mold_devices.specs.Writing.{Moves};

use crate::fresh_judge::FreshJudge;
use crate::judge::Judge;
use crate::naming::Naming;
use crate::session_key::SessionKey;
use indexmap::IndexMap;
use mold_devices::{CommandFault, Sink, send};
use mold_text::{Word, push_line};
use mold_wire::Session;
use std::alloc::{AllocError, Global};
use std::marker::Model;

/// The sessions of a check in the order of their first appearance, each with its judge. A datagram of the session of the
/// last one costs a comparison, any other one a search of a hash table.
#[derive(Drop)]
pub(crate) struct SessionTable<J> {
    map: IndexMap<SessionKey, J>,
    // The index of the session of the last datagram.
    last: usize,
    alloc: Global,
}

impl<J> Model for SessionTable<J> {
    ghost use Rattle.std.specs.Prelude.{List};
    ghost use Rattle.mold_check.specs.declared.session_key.SessionKey.{SessionKey};

    ghost Value = { List (SessionKey × J) };

    ghost view = { λ c. c.map.entries };
}

impl<J: FreshJudge> SessionTable<J> {
    /// Returns a table of no session. This allocates nothing.
    pub(crate) fn new(alloc: Global) -> SessionTable<J>
        ensures { result ≡ [] }
    {
        SessionTable {
            map: IndexMap::new(alloc),
            last: 0,
            alloc,
        }
    }

    /// Returns whether there is no session.
    pub(crate) fn is_empty(&self) -> bool
        ensures { result ≡ (length self.now == 0) }
    {
        self.map.is_empty()
    }

    // Returns the index of the session, if it is there.
    fn find(&self, key: &SessionKey) -> Option<usize>
        ensures { result ≡ position (same_key key.now) (keys_of self.now) }
    {
        // For the prover: `as_slice` states that no session is in the map twice.
        if let Some((known, _)) = self.map.as_slice().get_index(self.last) {
            if key == known {
                return Some(self.last);
            }
        }
        self.map.get_index_of(key)
    }

    // Adds a datagram to the session at this index, if there is one.
    fn add_at(&mut self, index: usize, number: u64, bytes: &[u8]) -> Result<(), AllocError>
        ensures { IfSome (slice_get (values_of self.old) index) (λ judge. OnOk result
            (self.new ≡ set_value_at self.old index (J.judging.added judge number bytes.now))) }
    {
        match self.map.get_index_mut(index) {
            Some(judge) => judge.add(number, bytes),
            None => Ok(()),
        }
    }

    // Adds a session that is not there, with its first datagram.
    fn add_new(&mut self, key: SessionKey, number: u64, bytes: &[u8]) -> Result<(), AllocError>
        requires { position (same_key key) (keys_of self.old) ≡ None }
        ensures { OnOk result (self.new ≡ entries_added J.judging self.old key number bytes.now) }
    {
        let mut judge = J::new(self.alloc);
        judge.add(number, bytes)?;
        self.map.insert(key, judge)?;
        Ok(())
    }

    /// Adds a datagram of this session, which has this number in the report. It returns an error if an allocation fails.
    pub(crate) fn add(
        &mut self,
        key: SessionKey,
        number: u64,
        bytes: &[u8],
    ) -> Result<(), AllocError>
        ensures { OnOk result (self.new ≡ entries_added J.judging self.old key number bytes.now) }
    {
        match self.find(&key) {
            Some(index) => {
                self.last = index;
                self.add_at(index, number, bytes)
            }
            None => {
                self.last = self.map.len();
                self.add_new(key, number, bytes)
            }
        }
    }

    /// Writes the text and the lines of the sessions, and may leave a part of them in the text. `refused` is the number of
    /// datagrams that do not encode a packet. Returns the greatest status, or 0 without a session.
    pub(crate) fn print<K: Sink, N: Naming>(
        &self,
        sink: &mut K,
        text: &mut Vec<u8>,
        naming: &N,
        refused: u64,
    ) -> Result<u8, CommandFault>
        ensures moved { IfOk result (λ status. Moves (K.held sink.old) (K.held sink.new)
            (text.old.items ++ entries_text J.judging (N.named naming.now) refused self.now) text.new.items
            × (status ≡ greatest (entries_statuses J.judging self.now))) }
        ensures front { AppendsPrefix (K.held sink.old) (K.held sink.new)
            (text.old.items ++ entries_text J.judging (N.named naming.now) refused self.now) }
        ensures failures { CountsSink (K.failed sink.old) (K.failed sink.new) result }
    {
        let mut greatest = 0;
        for (key, judge) in self.map.iter() {
            let status = print_entry(sink, text, (key, judge), naming, refused)?;
            greatest = greater(greatest, status);
        }
        Ok(greatest)
    }

    /// Returns whether some session is whole. It returns an error if an allocation fails.
    pub(crate) fn is_some_whole(&self) -> Result<bool, AllocError>
        ensures { IfOk result (λ whole. whole ≡ some_whole J.judging self.now) }
    {
        for (key, judge) in self.map.iter() {
            if key.session.is_some() && judge.is_whole()? {
                return Ok(true);
            }
        }
        Ok(false)
    }
}

fn greater(status: u8, other: u8) -> u8
    ensures { result ≡ max status other }
{
    status.max(other)
}

fn push_session(text: &mut Vec<u8>, session: &Session) -> Result<(), AllocError>
    ensures { OnOk result (text.new.items ≡ text.old.items ++ session_line session.now) }
{
    push_line(text, &[Word::Text(b"session"), Word::Digits(&session.0)])
}

fn push_none(text: &mut Vec<u8>, refused: u64) -> Result<(), AllocError>
    ensures { OnOk result (text.new.items ≡ text.old.items ++ none_text refused) }
{
    push_line(text, &[Word::Text(b"session"), Word::Text(b"none")])?;
    push_line(text, &[Word::Text(b"refused"), Word::Number(refused)])
}

// Writes the text and the number of datagrams that do not encode a packet, and returns their status. The text is empty
// afterwards.
fn print_none<K: Sink>(sink: &mut K, text: &mut Vec<u8>, refused: u64) -> Result<u8, CommandFault>
    ensures whole { IfOk result (λ status. Appends (K.held sink.old) (K.held sink.new)
        (text.old.items ++ none_text refused) × (status ≡ 2)) }
    ensures empty { OnOk result (text.new.items ≡ []) }
    ensures front { AppendsPrefix (K.held sink.old) (K.held sink.new) (text.old.items ++ none_text refused) }
    ensures failures { CountsSink (K.failed sink.old) (K.failed sink.new) result }
{
    push_none(text, refused)?;
    send(sink, text)?;
    Ok(2)
}

// Writes the text and the lines of a session, and returns the status of the session. The text is empty afterwards.
fn print_named<J: Judge, K: Sink, N: Naming>(
    sink: &mut K,
    text: &mut Vec<u8>,
    session: &Session,
    judge: &J,
    naming: &N,
) -> Result<u8, CommandFault>
    ensures whole { IfOk result (λ status. Appends (K.held sink.old) (K.held sink.new)
        (text.old.items ++ (session_line session.now ++ J.judging.text (N.named naming.now) judge.now))
        × (status ≡ J.judging.status judge.now)) }
    ensures empty { OnOk result (text.new.items ≡ []) }
    ensures front { AppendsPrefix (K.held sink.old) (K.held sink.new)
        (text.old.items ++ (session_line session.now ++ J.judging.text (N.named naming.now) judge.now)) }
    ensures failures { CountsSink (K.failed sink.old) (K.failed sink.new) result }
{
    push_session(text, session)?;
    let status = judge.print(sink, text, naming)?;
    text.clear();
    Ok(status)
}

// Writes the text and the lines of an entry, and returns its status. The text is empty afterwards.
fn print_entry<J: Judge, K: Sink, N: Naming>(
    sink: &mut K,
    text: &mut Vec<u8>,
    entry: (&SessionKey, &J),
    naming: &N,
    refused: u64,
) -> Result<u8, CommandFault>
    ensures whole { IfOk result (λ status. Appends (K.held sink.old) (K.held sink.new)
        (text.old.items
        ++ entry_text_by J.judging (N.named naming.now) refused entry.entry.0.now.session entry.entry.1.now)
        × (status ≡ entry_status_by J.judging entry.entry.0.now.session entry.entry.1.now)) }
    ensures empty { OnOk result (text.new.items ≡ []) }
    ensures front { AppendsPrefix (K.held sink.old) (K.held sink.new)
        (text.old.items
        ++ entry_text_by J.judging (N.named naming.now) refused entry.entry.0.now.session entry.entry.1.now) }
    ensures failures { CountsSink (K.failed sink.old) (K.failed sink.new) result }
{
    let (key, judge) = entry;
    match &key.session {
        Some(session) => print_named(sink, text, session, judge, naming),
        None => print_none(sink, text, refused),
    }
}
