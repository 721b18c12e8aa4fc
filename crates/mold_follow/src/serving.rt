//! `mold serve --follow`: serves requests from a journal file that another process writes.

ghost use Rattle.std.specs.Prelude.{◌≡◌, ◌≤◌, ◌+◌, ◌⊎◌, None, true, false, Bool, List, ℕ, length, take, IfErr, IfNone};
ghost use Rattle.std.specs.Prelude.{IfOk, IfSome, OnErr, OnOk};
ghost use Rattle.mold_durable.specs.Following.{Writer, Writes};
ghost use Rattle.mold_follow.specs.Serving.{CountsFile, CountsTurn, HasLooked, Serves, ServesAll};
ghost use Rattle.mold_follow.specs.Serving.{ServesMore, is_ahead, is_looked_up, journal_of};
ghost use Rattle.mold_indexed_file.specs.Growing.{WasRead};
ghost use Rattle.mold_indexed_file.specs.Shown.{Shows};
ghost use Rattle.mold_ports.specs.Ports.{cut, next_of};
ghost use Rattle.mold_serve.specs.Answering.{Reaches};
ghost use Rattle.mold_serve.specs.FileError.{IsReadOrMemory, device_fault};
ghost use Rattle.mold_serve.specs.Serving.{MayAnswer, replied, reply, responder_of, serve_turn, service_of};
ghost use Rattle.mold_serve.specs.Tally.{served_line, with_outgoing};
ghost use Rattle.mold_session.specs.Journal.{JournalState};
ghost use Rattle.mold_session.specs.Loading.{CountsLoad};
ghost use Rattle.mold_turns.specs.Outgoing.{with_more};
ghost use Rattle.mold_turns.specs.Runs.{Begins};
ghost use Rattle.mold_wire.specs.declared.limits.TheConstants.{MAX_LIMIT};

use crate::catching_up::catch_up;
use mold_devices::{CommandFault, Sink};
use mold_durable::{GrowingFile, RecordFollower};
use mold_indexed_file::IndexedFile;
use mold_ports::Datagrams;
use mold_serve::{Asked, Tally, answer_once, end_refused};
use mold_session::{FileError, ServedJournal, Server};
use mold_text::Word;
use mold_wire::{MAX_LIMIT, Request, Session};
use std::alloc::{AllocError, Global};

/// A server that follows the file of its journal.
#[derive(Drop)]
pub struct FollowingServer<F, D> {
    /// The file, and the index of the messages that the follower returned.
    pub indexed: IndexedFile<F>,
    /// The follower of that file.
    pub follower: RecordFollower,
    /// The server, which counts the requests that it answers.
    pub server: Server,
    /// The port that requests are received on and responses are sent from.
    pub port: D,
    /// What was printed and counted so far.
    pub tally: Tally,
}

// Whether the bytes are a request that is refused because a journal of this session, whose next message has number
// `next`, does not have its first message yet.
fn is_ahead(session: Session, next: u64, bytes: &[u8]) -> bool
    ensures { (journal : JournalState) → journal.session ≡ session → length journal.messages + 1 ≡ next →
        result ≡ is_ahead journal bytes.now }
{
    let Ok(request) = Request::decode(bytes) else {
        return false;
    };
    if request.session != session {
        return false;
    }
    if request.sequence == 0 {
        return false;
    }
    if request.count == 0 {
        return false;
    }
    request.sequence >= next
}

// Reads the new records of the file if the request would be refused as `Ahead`.
fn look_up<F: GrowingFile>(
    indexed: &mut IndexedFile<F>,
    follower: &mut RecordFollower,
    request: &[u8],
) -> Result<(), FileError>
    ensures all { (writer : Writer) (bytes : ℕ → List ℕ) (told : List (List ℕ)) → Writes writer bytes →
        Serves F.history F.moment F.synced writer bytes indexed.old follower.old told →
        is_ahead (journal_of follower.old told) request.now ≡ true →
        OnOk result (ServesAll F.history F.moment F.synced writer bytes indexed.new follower.new told
        (F.moment indexed.old.file)) }
    ensures waits { (journal : JournalState) → Shows F.history F.moment indexed.old journal →
        is_ahead journal request.now ≡ false →
        (indexed.new ≡ indexed.old) × (follower.new ≡ follower.old) }
    ensures kept { indexed.new ≡ record indexed.old { file = indexed.new.file; index = indexed.new.index } }
    ensures failures { CountsFile (F.failed indexed.old.file) (F.failed indexed.new.file) result }
    ensures follower { follower.new ≡ record follower.old {
      count = follower.new.count;
      end = follower.new.end;
      closed = follower.new.closed;
      news = follower.new.news;
    } }
{
    if is_ahead(indexed.session(), indexed.next(), request) {
        return catch_up(indexed, follower);
    }
    Ok(())
}

// Appends the last line of a server. If an allocation fails, a part of it may follow the earlier text.
fn push_served(tally: &mut Tally) -> Result<(), AllocError>
    ensures line { OnOk result
        (tally.new ≡ with_outgoing (with_more (served_line tally.old) tally.old.outgoing) tally.old) }
    ensures kept { OnErr result
        (take (length tally.old.outgoing.text) tally.new.outgoing.text ≡ tally.old.outgoing.text) }
{
    let words = [
        Word::Text(b"answered"),
        Word::Number(tally.answered),
        Word::Text(b"refused"),
        Word::Number(tally.refused),
        Word::Text(b"quiet"),
        Word::Number(tally.quiet),
        Word::Text(b"failed"),
        Word::Number(tally.outgoing.failures()),
    ];
    tally.outgoing.push_line(&words)
}

impl<F: GrowingFile, D: Datagrams> FollowingServer<F, D> {
    // Answers a request from the indexed file, or refuses it, as `serve` does.
    fn answer(&mut self, from: D::Peer, request: &[u8]) -> Result<(), FileError>
        ensures replied { (journal : JournalState) →
            MayAnswer (Shows F.history F.moment) self.old.indexed self.old.server journal → D.modeled ≡ true →
            (fails : List Bool) × Reaches result (responder_of (D.port self.new.port) self.new.tally self.new.server)
            (replied from fails (reply (service_of journal self.old.server) request.now)
            (responder_of (D.port self.old.port) self.old.tally self.old.server)) }
        ensures prints { Begins self.old.tally.outgoing.text self.new.tally.outgoing.text }
        ensures refused { IfErr result (λ error. (journal : JournalState) →
            MayAnswer (Shows F.history F.moment) self.old.indexed self.old.server journal → IsReadOrMemory error) }
        ensures shown { (journal : JournalState) →
            Shows F.history F.moment self.old.indexed journal → Shows F.history F.moment self.new.indexed journal }
        ensures read { WasRead F.history F.moment F.synced self.old.indexed self.new.indexed }
        ensures failures { CountsLoad (F.failed self.old.indexed.file) (F.failed self.new.indexed.file) result }
        ensures limits { self.new.server ≡ record self.old.server { answered = self.new.server.answered } }
        ensures follower { self.new.follower ≡ self.old.follower }
    {
        let asked = Asked {
            from,
            bytes: request,
        };
        answer_once(
            &mut self.port,
            &mut self.server,
            &mut self.indexed,
            &mut self.tally,
            asked,
        )
    }

    /// Makes one turn: receives once, and answers or refuses what was received. Before a request is refused as `Ahead`,
    /// and if nothing was received, it reads the new records of the file. `buffer` has `MAX_LIMIT` bytes.
    ///
    /// The error is that of a record, or `Read`, `Write` or `Memory` if a read, a sync or an allocation failed. If the
    /// file was damaged after a record was read, it states that fault. A request is then not answered, or only in part.
    pub fn take_turn(&mut self, buffer: &mut [u8]) -> Result<(), FileError>
        requires longest { self.old.follower.max_message ≤ self.old.server.max_message }
        requires buffer { length buffer.old ≡ MAX_LIMIT }
        ensures turn { (writer : Writer) (bytes : ℕ → List ℕ) (told : List (List ℕ)) → Writes writer bytes →
            Serves F.history F.moment F.synced writer bytes self.old.indexed self.old.follower told →
            D.modeled ≡ true → (after : List (List ℕ)) × (HasLooked F.history F.moment F.synced writer bytes result
            (is_looked_up (journal_of self.old.follower told) (cut MAX_LIMIT (next_of (D.port self.old.port))))
            (F.moment self.old.indexed.file) told self.new.indexed self.new.follower after
            × ((fails : List Bool) × Reaches result
            (responder_of (D.port self.new.port) self.new.tally self.new.server)
            (serve_turn (service_of (journal_of self.old.follower after) self.old.server) fails
            (responder_of (D.port self.old.port) self.old.tally self.old.server)))) }
        ensures serves { (writer : Writer) (bytes : ℕ → List ℕ) (told : List (List ℕ)) → Writes writer bytes →
            Serves F.history F.moment F.synced writer bytes self.old.indexed self.old.follower told →
            OnOk result (ServesMore F.history F.moment F.synced writer bytes self.new.indexed self.new.follower told) }
        ensures refused { IfErr result (λ error. (writer : Writer) (bytes : ℕ → List ℕ) (told : List (List ℕ)) →
            Writes writer bytes →
            Serves F.history F.moment F.synced writer bytes self.old.indexed self.old.follower told →
            device_fault error ≡ None → self.new.tally.outgoing.text ≡ self.old.tally.outgoing.text) }
        ensures failures { CountsTurn (F.failed self.old.indexed.file) (F.failed self.new.indexed.file) result }
        ensures prints { Begins self.old.tally.outgoing.text self.new.tally.outgoing.text }
        ensures limits { self.new.server ≡ record self.old.server { answered = self.new.server.answered } }
        ensures kept { self.new.indexed ≡ record self.old.indexed {
          file = self.new.indexed.file;
          index = self.new.indexed.index;
          buffer = self.new.indexed.buffer;
        } }
        ensures follower { self.new.follower ≡ record self.old.follower {
          count = self.new.follower.count;
          end = self.new.follower.end;
          closed = self.new.follower.closed;
          news = self.new.follower.news;
        } }
    {
        match self.port.receive(buffer) {
            Ok(Some((len, from))) => {
                look_up(&mut self.indexed, &mut self.follower, &buffer[..len])?;
                self.answer(from, &buffer[..len])
            }
            Ok(None) => {
                catch_up(&mut self.indexed, &mut self.follower)?;
                self.tally.quiet = self.tally.quiet.saturating_add(1);
                Ok(())
            }
            Err(_) => {
                self.tally.outgoing.count_failure();
                Ok(())
            }
        }
    }

    // Makes one turn. Then writes the text if it has at least 65,536 bytes or the sink is live. Returns the status if an
    // error of a record ended the command.
    fn write_turn<K: Sink>(
        &mut self,
        buffer: &mut [u8],
        sink: &mut K,
    ) -> Result<Option<u8>, CommandFault>
        requires longest { self.old.follower.max_message ≤ self.old.server.max_message }
        requires buffer { length buffer.old ≡ MAX_LIMIT }
        ensures serves { (writer : Writer) (bytes : ℕ → List ℕ) (told : List (List ℕ)) → Writes writer bytes →
            Serves F.history F.moment F.synced writer bytes self.old.indexed self.old.follower told →
            IfOk result (λ ended. IfNone ended
            (ServesMore F.history F.moment F.synced writer bytes self.new.indexed self.new.follower told)) }
        ensures status { IfOk result (λ ended. IfSome ended (λ status. status ≡ 2)) }
        ensures limits { OnOk result (self.new.server ≡ record self.old.server { answered = self.new.server.answered }) }
        ensures follower { OnOk result (self.new.follower ≡ record self.old.follower {
          count = self.new.follower.count;
          end = self.new.follower.end;
          closed = self.new.follower.closed;
          news = self.new.follower.news;
        }) }
    {
        let told = self.tally.outgoing.unwritten();
        if let Err(error) = self.take_turn(buffer) {
            return Ok(Some(end_refused(&mut self.tally.outgoing, told, error, sink)?));
        }
        self.tally.outgoing.send_large(sink)?;
        Ok(None)
    }

    // Makes the turns. Returns the status if an error of a record ended the command.
    fn take_turns<K: Sink>(
        &mut self,
        turns: u64,
        buffer: &mut [u8],
        sink: &mut K,
    ) -> Result<Option<u8>, CommandFault>
        requires longest { self.old.follower.max_message ≤ self.old.server.max_message }
        requires buffer { length buffer.old ≡ MAX_LIMIT }
        ensures serves { (writer : Writer) (bytes : ℕ → List ℕ) (told : List (List ℕ)) → Writes writer bytes →
            Serves F.history F.moment F.synced writer bytes self.old.indexed self.old.follower told →
            IfOk result (λ ended. IfNone ended
            (ServesMore F.history F.moment F.synced writer bytes self.new.indexed self.new.follower told)) }
        ensures status { IfOk result (λ ended. IfSome ended (λ status. status ≡ 2)) }
    {
        for _turn in 0..turns {
            match self.write_turn(buffer, sink)? {
                Some(status) => return Ok(Some(status)),
                None => {}
            }
        }
        Ok(None)
    }

    // Makes the turns, prints the last line, and returns the status.
    fn serve<K: Sink>(
        &mut self,
        turns: u64,
        buffer: &mut [u8],
        sink: &mut K,
    ) -> Result<u8, CommandFault>
        requires longest { self.old.follower.max_message ≤ self.old.server.max_message }
        requires buffer { length buffer.old ≡ MAX_LIMIT }
        ensures serves { (writer : Writer) (bytes : ℕ → List ℕ) (told : List (List ℕ)) → Writes writer bytes →
            Serves F.history F.moment F.synced writer bytes self.old.indexed self.old.follower told →
            IfOk result (λ status. status ≡ 0 →
            ServesMore F.history F.moment F.synced writer bytes self.new.indexed self.new.follower told) }
        ensures status { IfOk result (λ status. (status ≡ 0) ⊎ (status ≡ 2)) }
    {
        match self.take_turns(turns, buffer, sink)? {
            Some(status) => return Ok(status),
            None => {}
        }
        let told = self.tally.outgoing.unwritten();
        let Ok(()) = push_served(&mut self.tally) else {
            return Err(
                self.tally
                    .outgoing
                    .end_with(told, CommandFault::Memory, sink),
            );
        };
        self.tally.outgoing.send(sink)?;
        Ok(0)
    }
}

/// Serves requests for the messages of a journal file that another process writes, for `turns` turns of one receive
/// each. It does what `serve_loop` does, but reads the new records of the file before a request is refused as `Ahead`,
/// and after each receive that gave nothing.
///
/// The index has the messages that the follower returned, and the follower's maximum message length must not exceed the
/// server's. After all turns the status is 0. At a record that is refused, and if the file was damaged, its line is
/// written after the text of the turns before, and the status is 2. If a read of the file, its sync or an allocation
/// failed, that is the fault.
pub fn follow_serve<F: GrowingFile, D: Datagrams, K: Sink>(
    alloc: Global,
    server: &mut FollowingServer<F, D>,
    turns: u64,
    sink: &mut K,
) -> Result<u8, CommandFault>
    requires { server.old.follower.max_message ≤ server.old.server.max_message }
    ensures serves { (writer : Writer) (bytes : ℕ → List ℕ) (told : List (List ℕ)) → Writes writer bytes →
        Serves F.history F.moment F.synced writer bytes server.old.indexed server.old.follower told →
        IfOk result (λ status. status ≡ 0 →
        ServesMore F.history F.moment F.synced writer bytes server.new.indexed server.new.follower told) }
    ensures status { IfOk result (λ status. (status ≡ 0) ⊎ (status ≡ 2)) }
{
    let mut buffer = vec![in alloc; 0; MAX_LIMIT]?;
    server.serve(turns, buffer.as_mut_slice(), sink)
}
