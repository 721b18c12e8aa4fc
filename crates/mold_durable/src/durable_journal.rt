//! The durable journal: a session's messages in a storage, committed in groups.

ghost use Rattle.std.specs.Prelude.{◌≡◌, ◌⊎◌, ◌+◌, ◌<◌, ◌++◌, ◌∷◌, [], true, false, ℕ};
ghost use Rattle.std.specs.Prelude.{List, length, None, IfOk, IfErr, OnOk, OnErr, unwrap_or, IsOk};
ghost use Rattle.std.specs.List.{AllByRecursion};
ghost use Rattle.mold_devices.specs.Devices.{Counts};
ghost use Rattle.mold_session.specs.Journal.{IsWithin};
ghost use Rattle.mold_session.specs.declared.error.AppendError.{AppendError};
ghost use Rattle.mold_durable.specs.DurableJournal.{CountsCommit, CountsOpened, IsBeforeOrAfter, IsEmpty};
ghost use Rattle.mold_durable.specs.DurableJournal.{IsSettled, storage_of, waiting_refusal};
ghost use Rattle.mold_durable.specs.Head.{IsNoneOrEmpty};
ghost use Rattle.mold_durable.specs.Life.{IsFileAround, IsFileOf, Life, Lives, MayHappen, after, born, journal_of};
ghost use Rattle.mold_durable.specs.Life.Moment.{Append, Close, Commit, Crash};
ghost use Rattle.mold_durable.specs.Opened.{IsOpenedWith, without_taker};
ghost use Rattle.mold_durable.specs.Reading.{IsOfDevice, IsOpened, OpenFault};
ghost use Rattle.mold_durable.specs.Storage.{AreSame, LeavesOnly};
ghost use Rattle.mold_durable.specs.declared.error.CommitError.{CommitError};
ghost use Rattle.mold_durable.specs.declared.error.OpenError.{OpenError};
ghost use Rattle.mold_durable.specs.declared.error.WaitingError.TheVariants as waiting;

use crate::error::{CommitError, NotOpened, OpenError, WaitingError};
use crate::gate::put_after_gate;
use crate::group::Group;
use crate::head::{HEAD_LENGTH, write_head};
use crate::laws::one_session_law;
use crate::message_taker::{MessageTaker, SkipMessages};
use crate::opened::Opened;
use crate::recovery::{Recovered, recover};
use crate::storage::Storage;
use mold_session::{AppendError, MAX_MESSAGES};
use mold_wire::Session;
use std::alloc::Global;
use std::marker::Model;

/// The journal of a session in a storage. It holds the messages that wait to be committed, and no message that was
/// committed. Its first message has sequence number 1.
///
/// After a call that returned `Write`, the journal is broken: `append`, `commit` and `close` return `Broken` from then
/// on.
#[derive(Drop)]
pub struct DurableJournal<S> {
    /// The storage. Only this journal may write to it.
    pub storage: S,
    session: Session,
    max_message: u16,
    // The number of committed messages.
    committed: u64,
    // The offset of the shut gate or, if the session is closed, of the last byte of the closing record.
    end: u64,
    closed: bool,
    group: Group,
    broken: bool,
}

impl<S> Model for DurableJournal<S> {
    ghost use Rattle.mold_durable.specs.DurableJournal.{DurableState, IsDurable};

    ghost Value = { DurableState S };

    ghost view = { λ j. record {
      storage = j.storage;
      session = j.session;
      max_message = j.max_message;
      committed = j.committed;
      end = j.end;
      closed = j.closed;
      waiting = j.group.messages;
      broken = j.broken;
    } };

    ghost invariant = { λ j. IsDurable j.max_message j.committed j.end j.closed j.group };
}

impl<S: Storage> DurableJournal<S> {
    /// Creates the open journal of a session without messages, over a storage without bytes. It writes three times and
    /// syncs three times. `Write` and `Memory` are the only errors.
    ///
    /// A crash at any moment of the call leaves bytes that are not a journal, or the journal without messages.
    pub fn create(
        alloc: Global,
        session: Session,
        max_message: u16,
        storage: S,
    ) -> Result<DurableJournal<S>, NotOpened<S>>
        ensures settled { IsEmpty S.shows S.may_leave storage →
            IfOk result (λ journal. Lives S.shows S.may_leave journal (born session)) }
        ensures any_moment { IsEmpty S.shows S.may_leave storage →
            LeavesOnly S.moment S.left_since storage (storage_of result) (IsNoneOrEmpty session) }
        ensures fresh { IfOk result (λ journal. journal ≡ record {
          storage = journal.storage;
          session = session;
          max_message = max_message;
          committed = 0;
          end = 18;
          closed = false;
          waiting = [];
          broken = false;
        }) }
        ensures refused { IfErr result (λ fault.
            (fault.error ≡ OpenError.Write) ⊎ (fault.error ≡ OpenError.Memory)) }
        ensures cause { CountsOpened S.failed storage result }
    {
        let mut storage = storage;
        let Ok(group) = Group::new(alloc) else {
            return Err(NotOpened {
                error: OpenError::Memory,
                storage,
            });
        };
        match write_head(&mut storage, session) {
            Ok(()) => Ok(DurableJournal {
                storage,
                session,
                max_message,
                committed: 0,
                end: HEAD_LENGTH as u64,
                closed: false,
                group,
                broken: false,
            }),
            Err(_) => Err(NotOpened {
                error: OpenError::Write,
                storage,
            }),
        }
    }

    /// Opens the journal that a storage has. It reads all records, and then syncs. It writes nothing, and holds no
    /// message that was read.
    ///
    /// The journal has exactly the messages of the file. A crash at any moment of the call leaves only what a crash
    /// before it could leave. Once the journal is open, every crash leaves the messages that were found. `Memory` is
    /// returned only if an allocation failed.
    pub fn open(
        alloc: Global,
        max_message: u16,
        storage: S,
    ) -> Result<DurableJournal<S>, NotOpened<S>>
        ensures settled { IfOk result (IsOpened S.shows S.may_leave) }
        ensures any_moment { LeavesOnly S.moment S.left_since storage (storage_of result) (S.may_leave storage) }
        ensures shown { AreSame (S.shows storage) (S.shows (storage_of result)) }
        ensures fresh { IfOk result (λ journal. journal ≡ record {
          storage = journal.storage;
          session = journal.session;
          max_message = max_message;
          committed = journal.committed;
          end = journal.end;
          closed = journal.closed;
          waiting = [];
          broken = false;
        }) }
        ensures found { (life : Life) (bytes : List ℕ) → S.shows storage bytes → IsFileOf life bytes →
            IfOk result (λ journal. Lives S.shows S.may_leave journal (after life Crash)) }
        ensures accepted { (life : Life) (bytes : List ℕ) → S.shows storage bytes → IsFileOf life bytes →
            AllByRecursion (IsWithin max_message) life.committed → IfErr result (λ fault. IsOfDevice fault.error) }
        ensures refused { IfErr result (λ fault. (bytes : List ℕ) → S.shows storage bytes →
            OpenFault max_message bytes fault.error) }
        ensures cause { CountsOpened S.failed storage result }
    {
        match DurableJournal::open_with::<SkipMessages>(alloc, max_message, storage) {
            Ok(opened) => {
                let Opened { journal, taker: _ } = opened;
                Ok(journal)
            }
            Err(fault) => Err(fault),
        }
    }

    /// Opens the journal that a storage has, as `open` does, and passes each message to a taker `T` while it reads the
    /// records. So the storage is read once. The taker then holds exactly the messages of the journal.
    ///
    /// `Memory` is also returned if the taker fails. After an error the taker is dropped.
    // The sync is necessary: if the process that wrote the records died before its sync, a crash could still lose them.
    pub fn open_with<T: MessageTaker>(
        alloc: Global,
        max_message: u16,
        storage: S,
    ) -> Result<Opened<S, T>, NotOpened<S>>
        ensures settled { IfOk result (IsOpenedWith S.shows S.may_leave T.holds) }
        ensures any_moment { LeavesOnly S.moment S.left_since storage (storage_of (without_taker result))
            (S.may_leave storage) }
        ensures shown { AreSame (S.shows storage) (S.shows (storage_of (without_taker result))) }
        ensures fresh { IfOk result (λ opened. opened.journal ≡ record {
          storage = opened.journal.storage;
          session = opened.journal.session;
          max_message = max_message;
          committed = opened.journal.committed;
          end = opened.journal.end;
          closed = opened.journal.closed;
          waiting = [];
          broken = false;
        }) }
        ensures found { (life : Life) (bytes : List ℕ) → S.shows storage bytes → IsFileOf life bytes →
            IfOk result (λ opened. Lives S.shows S.may_leave opened.journal (after life Crash)) }
        ensures taken { (life : Life) (bytes : List ℕ) → S.shows storage bytes → IsFileOf life bytes →
            IfOk result (λ opened. T.holds opened.taker (journal_of max_message life)) }
        ensures accepted { (life : Life) (bytes : List ℕ) → S.shows storage bytes → IsFileOf life bytes →
            AllByRecursion (IsWithin max_message) life.committed → IfErr result (λ fault. IsOfDevice fault.error) }
        ensures refused { IfErr result (λ fault. (bytes : List ℕ) → S.shows storage bytes →
            OpenFault max_message bytes fault.error) }
        ensures cause { CountsOpened S.failed storage (without_taker result) }
    {
        one_session_law();
        let mut storage = storage;
        let Ok(group) = Group::new(alloc) else {
            return Err(NotOpened {
                error: OpenError::Memory,
                storage,
            });
        };
        match recover::<S, T>(alloc, &mut storage, max_message) {
            Ok(found) => {
                let Recovered {
                    session,
                    records,
                    taker,
                } = found;
                let journal = DurableJournal {
                    storage,
                    session,
                    max_message,
                    committed: records.count,
                    end: records.end,
                    closed: records.closed,
                    group,
                    broken: false,
                };
                Ok(Opened { journal, taker })
            }
            Err(error) => Err(NotOpened { error, storage }),
        }
    }

    /// Returns the session that the messages belong to.
    pub fn session(&self) -> Session
        ensures { result ≡ self.now.session }
    {
        self.session
    }

    /// Returns the largest length of a message, in bytes.
    pub fn max_message(&self) -> u16
        ensures { result ≡ self.now.max_message }
    {
        self.max_message
    }

    /// Returns true if the closing of the session is committed.
    pub fn is_closed(&self) -> bool
        ensures { result ≡ self.now.closed }
    {
        self.closed
    }

    /// Returns the number of committed messages.
    pub fn committed(&self) -> u64
        ensures { result ≡ self.now.committed }
    {
        self.committed
    }

    /// Returns the sequence number that the next message gets: one more than the number of messages that are committed
    /// or wait.
    pub fn next(&self) -> u64
        ensures { result ≡ self.now.committed + length self.now.waiting + 1 }
    {
        self.committed + self.group.len() + 1
    }

    /// Returns the storage. Messages that wait are lost.
    pub fn into_storage(self) -> S
        ensures { result ≡ self.storage }
    {
        let DurableJournal {
            storage,
            session: _,
            max_message: _,
            committed: _,
            end: _,
            closed: _,
            group: _,
            broken: _,
        } = self;
        storage
    }

    /// Appends a message to those that wait to be committed, and returns its sequence number. It does not use the
    /// storage. After an error the journal is unchanged; `Memory` is returned only if an allocation failed.
    pub fn append(&mut self, message: &[u8]) -> Result<u64, WaitingError>
        ensures number { IfOk result (λ number.
            number ≡ self.old.committed + length self.old.waiting + 1) }
        ensures taken { OnOk result (waiting_refusal self.old message.now ≡ None) }
        ensures intact { OnOk result (self.old.broken ≡ false) }
        ensures added { OnOk result (self.new ≡ record self.old {
          waiting = self.old.waiting ++ message.now ∷ [];
        }) }
        ensures appended { (life : Life) → Lives S.shows S.may_leave self.old life → OnOk result
            (MayHappen life (Append message.now)
            × Lives S.shows S.may_leave self.new (after life (Append message.now))) }
        ensures broken { self.old.broken ≡ true → IfErr result (λ error. error ≡ waiting.Broken) }
        ensures refused { self.old.broken ≡ false → IfErr result (λ error.
            error ≡ waiting.Append (unwrap_or (waiting_refusal self.old message.now) AppendError.Memory)) }
        ensures same { OnErr result (self.new ≡ self.old) }
    {
        if self.broken {
            return Err(WaitingError::Broken);
        }
        if self.closed {
            return Err(WaitingError::Append(AppendError::Closed));
        }
        if message.len() > usize::from(self.max_message) {
            return Err(WaitingError::Append(AppendError::TooLong { len: message.len() }));
        }
        let number = self.next();
        if number > MAX_MESSAGES {
            return Err(WaitingError::Append(AppendError::Full));
        }
        match self.group.push(message) {
            Ok(()) => Ok(number),
            Err(_) => Err(WaitingError::Append(AppendError::Memory)),
        }
    }

    /// Makes the waiting messages durable. If none waits, it does nothing; otherwise it writes twice and syncs twice.
    /// It allocates nothing and reads nothing.
    ///
    /// A crash at any moment of the call leaves the messages before it, with all that waited or with none of them. Once
    /// it succeeded, every crash leaves all of them.
    pub fn commit(&mut self) -> Result<(), CommitError>
        ensures acknowledged { (life : Life) → Lives S.shows S.may_leave self.old life →
            OnOk result (Lives S.shows S.may_leave self.new (after life Commit)) }
        ensures any_moment { (life : Life) → Lives S.shows S.may_leave self.old life →
            LeavesOnly S.moment S.left_since self.old.storage self.new.storage (IsFileAround life Commit) }
        ensures done { OnOk result (self.new ≡ record self.old {
          storage = self.new.storage;
          committed = self.old.committed + length self.old.waiting;
          end = self.new.end;
          waiting = [];
        }) }
        ensures intact { OnOk result (self.old.broken ≡ false) }
        ensures idle { self.old.waiting ≡ [] → self.old.broken ≡ false → IsOk result × (self.new ≡ self.old) }
        ensures refused { IfErr result (λ error. (self.old.broken ≡ true) ⊎ (error ≡ CommitError.Write)) }
        ensures broken { self.old.broken ≡ true → IfErr result (λ error. error ≡ CommitError.Broken) }
        ensures unwritten { self.old.broken ≡ true → self.new ≡ self.old }
        ensures after { OnErr result (self.new ≡ record self.old { storage = self.new.storage; broken = true }) }
        ensures cause { CountsCommit (S.failed self.old.storage) (S.failed self.new.storage) result }
    {
        if self.broken {
            return Err(CommitError::Broken);
        }
        if self.group.is_empty() {
            return Ok(());
        }
        self.put(false)
    }

    /// Closes the session and makes this and the waiting messages durable. If the session is closed, it does nothing;
    /// otherwise it writes twice and syncs twice. It allocates nothing and reads nothing.
    ///
    /// A crash at any moment of the call leaves the messages before it, or the closed session with all messages.
    pub fn close(&mut self) -> Result<(), CommitError>
        ensures acknowledged { (life : Life) → Lives S.shows S.may_leave self.old life →
            OnOk result (Lives S.shows S.may_leave self.new (after life Close)) }
        ensures any_moment { (life : Life) → Lives S.shows S.may_leave self.old life →
            LeavesOnly S.moment S.left_since self.old.storage self.new.storage (IsFileAround life Close) }
        ensures done { OnOk result (self.new ≡ record self.old {
          storage = self.new.storage;
          committed = self.old.committed + length self.old.waiting;
          end = self.new.end;
          closed = true;
          waiting = [];
        }) }
        ensures intact { OnOk result (self.old.broken ≡ false) }
        ensures idle { self.old.closed ≡ true → self.old.broken ≡ false → IsOk result × (self.new ≡ self.old) }
        ensures refused { IfErr result (λ error. (self.old.broken ≡ true) ⊎ (error ≡ CommitError.Write)) }
        ensures broken { self.old.broken ≡ true → IfErr result (λ error. error ≡ CommitError.Broken) }
        ensures unwritten { self.old.broken ≡ true → self.new ≡ self.old }
        ensures after { OnErr result (self.new ≡ record self.old { storage = self.new.storage; broken = true }) }
        ensures cause { CountsCommit (S.failed self.old.storage) (S.failed self.new.storage) result }
    {
        if self.broken {
            return Err(CommitError::Broken);
        }
        if self.closed {
            return Ok(());
        }
        self.put(true)
    }

    // Commits the waiting messages, and the closing record if `closes`.
    fn put(&mut self, closes: bool) -> Result<(), CommitError>
        requires open { self.old.closed ≡ false }
        requires intact { self.old.broken ≡ false }
        requires some { (0 < length self.old.waiting) ⊎ (closes ≡ true) }
        ensures acknowledged { (messages : List (List ℕ)) → IsSettled S.shows S.may_leave self.old messages →
            OnOk result (IsSettled S.shows S.may_leave self.new (messages ++ self.old.waiting)) }
        ensures any_moment { (messages : List (List ℕ)) → IsSettled S.shows S.may_leave self.old messages →
            LeavesOnly S.moment S.left_since self.old.storage self.new.storage
            (IsBeforeOrAfter self.old.session messages false (messages ++ self.old.waiting) closes) }
        ensures done { OnOk result (self.new ≡ record self.old {
          storage = self.new.storage;
          committed = self.old.committed + length self.old.waiting;
          end = self.new.end;
          closed = closes;
          waiting = [];
        }) }
        ensures refused { IfErr result (λ error. error ≡ CommitError.Write) }
        ensures after { OnErr result (self.new ≡ record self.old { storage = self.new.storage; broken = true }) }
        ensures cause { Counts (S.failed self.old.storage) (S.failed self.new.storage) result }
    {
        self.group.set_closes(closes);
        let text = self.group.text();
        match put_after_gate(&mut self.storage, self.end, text) {
            Ok(()) => {
                self.end += text.len() as u64;
                self.committed += self.group.len();
                self.closed = closes;
                self.group.clear();
                Ok(())
            }
            Err(_) => {
                self.group.set_closes(false);
                self.broken = true;
                Err(CommitError::Write)
            }
        }
    }
}
