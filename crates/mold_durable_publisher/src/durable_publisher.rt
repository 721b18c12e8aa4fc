//! The durable publisher: a publisher and the durable journal of its session.

ghost use Rattle.std.specs.Prelude.{◌≡◌, ◌≢◌, ◌↔◌, ◌⊎◌, ◌+◌, ◌-◌, ◌≤◌, ◌++◌, ◌∷◌, [], true, false, ℕ, List, length};
ghost use Rattle.std.specs.Prelude.{Err, None, IfOk, IfErr, IfSome, IfNone, IsOk, IsTrue, OnOk, OnErr};
ghost use Rattle.std.specs.List.{AllByRecursion};
ghost use Rattle.std.specs.Option.{option_copied};
ghost use Rattle.mold_wire.specs.Packer.{IsLimit};
ghost use Rattle.mold_wire.specs.declared.limits.TheConstants.{MESSAGE_OVERHEAD};
ghost use Rattle.mold_session.specs.Journal.{IsJournal, IsWithin as IsWithinLength, JournalState, append_refusal};
ghost use Rattle.mold_session.specs.Journal.{appended};
ghost use Rattle.mold_session.specs.Loading.{CountsLoad};
ghost use Rattle.mold_session.specs.Publisher.{IsPublisher, Lends, MayResume, closed as closed_publisher, next_end};
ghost use Rattle.mold_session.specs.Publisher.{next_heartbeat, published, resumed_publisher};
ghost use Rattle.mold_session.specs.Serving.{HasBegunNext, HasPackedNext, MayPack};
ghost use Rattle.mold_session.specs.declared.error.FileError.{FileError};
ghost use Rattle.mold_durable.specs.DurableJournal.{CountsCommit};
ghost use Rattle.mold_durable.specs.Life.{IsFileAround, IsFileOf, Life, Lives, MayHappen, after as after_moment};
ghost use Rattle.mold_durable.specs.Life.Moment.{Append, Close, Commit, Crash};
ghost use Rattle.mold_durable.specs.Reading.{OpenFault};
ghost use Rattle.mold_durable.specs.Storage.{IsWithin, LeavesOnly};
ghost use Rattle.mold_durable.specs.declared.error.CommitError.{CommitError};
ghost use Rattle.mold_durable.specs.declared.error.OpenError.{OpenError};
ghost use Rattle.mold_index.specs.Index.{Indexes};
ghost use Rattle.mold_indexed_file.specs.Stored.{IsOfJournal};
ghost use Rattle.mold_durable_publisher.specs.DurablePublisher.{Agrees, HasSameMessages, IsAppendFault, IsOfDevice};
ghost use Rattle.mold_durable_publisher.specs.DurablePublisher.{IsStoreFault, Publishes, ShowsJournal, WasServed};
ghost use Rattle.mold_durable_publisher.specs.DurablePublisher.{after_committed, next_committed};
ghost use Rattle.mold_durable_publisher.specs.Told.{IsTold, IsTrueNow};
ghost use Rattle.mold_durable_publisher.specs.declared.durable_publisher.DurablePublisher.{DurablePublisher};
ghost use Rattle.mold_durable_publisher.specs.declared.error.CloseError.{CloseError};
ghost use Rattle.mold_durable_publisher.specs.declared.error.ResumeError.{ResumeError};
ghost use Rattle.mold_durable_publisher.specs.declared.error.StartError.{StartError};

use crate::error::{CloseError, ResumeError, StartError};
use mold_durable::{CommitError, DurableJournal, Opened, Storage, WaitingError};
use mold_indexed_file::StorageIndex;
use mold_session::{AppendError, FileError, Plan, PublisherError, ServedJournal, Unsent};
use mold_stored_journal::StoredJournal;
use mold_unsent::{CountedJournal, UnsentPublisher};
use mold_wire::laws::true_stays_law;
use mold_wire::{MAX_LIMIT, MESSAGE_OVERHEAD, MIN_LIMIT, Packer, Session};
use std::alloc::Global;

/// Publishes the messages of a session whose journal is durable. It sends a message only after it was committed. So
/// what a datagram states is true of every file that a crash leaves, at the moment when it is returned and later.
///
/// It holds the unsent messages in memory, those that wait once more, as the durable journal keeps them, and the index
/// of the file. A server responds from the file: see `ServedJournal`. A returned datagram is valid until the next call.
#[derive(Drop)]
pub struct DurablePublisher<S> {
    // The messages that are committed or wait.
    publisher: UnsentPublisher,
    durable: DurableJournal<S>,
    // Where each of these messages is in the file, or will be.
    index: StorageIndex,
}

// Whether no message waits in the durable journal, and both journals have the same session, number of messages, largest
// length and end.
fn is_same_journal<S: Storage>(journal: &CountedJournal, durable: &DurableJournal<S>) -> bool
    ensures { IsTrue result ↔ Agrees journal.now durable.now }
{
    journal.session() == durable.session()
        && journal.max_message() == durable.max_message()
        && journal.is_closed() == durable.is_closed()
        && journal.count() == durable.committed()
        && durable.next() - 1 == durable.committed()
}

impl<S: Storage + Drop> DurablePublisher<S> {
    ghost use Rattle.std.specs.Borrow.{sem};
    ghost use Rattle.std.specs.Io.BufRead.{Rests};
    ghost use Rattle.mold_durable_publisher.specs.contracts.durable_publisher.DurablePublisher.{the_row};

    /// Makes a publisher of a durable journal. `stored` has the number of its messages and their index: it is new if
    /// the durable journal was created, otherwise the taker that was returned with the journal. All messages count as
    /// sent. It allocates the buffer of `limit` bytes once.
    ///
    /// It compares the numbers of messages, but not the messages.
    pub fn resume(
        alloc: Global,
        stored: StoredJournal,
        durable: DurableJournal<S>,
        limit: usize,
    ) -> Result<DurablePublisher<S>, ResumeError>
        ensures made { IfOk result (λ publisher. publisher ≡ record {
          publisher = resumed_publisher stored.journal limit;
          durable = durable;
          index = stored.index;
        }) }
        ensures ok { IsOk result → Agrees stored.journal durable × MayResume stored.journal limit }
        ensures differs { (result ≡ Err ResumeError.Differs) ↔ (¬ Agrees stored.journal durable) }
        ensures limit { result ≡ Err ResumeError.Limit → ¬ MayResume stored.journal limit }
        ensures memory { result ≡ Err ResumeError.Memory → MayResume stored.journal limit }
        ensures resumed { (life : Life) → durable.broken ≡ false → Lives S.shows S.may_leave durable life →
            IsOfJournal stored.index stored.journal → stored.journal.messages ≡ life.committed →
            IfOk result (λ publisher. Publishes S.shows S.may_leave publisher life) }
    {
        let StoredJournal { journal, index } = stored;
        if !is_same_journal(&journal, &durable) {
            return Err(ResumeError::Differs);
        }
        match UnsentPublisher::resume(alloc, journal, limit) {
            Ok(publisher) => Ok(DurablePublisher {
                publisher,
                durable,
                index,
            }),
            Err(PublisherError::Limit) => Err(ResumeError::Limit),
            Err(PublisherError::Memory) => Err(ResumeError::Memory),
        }
    }

    /// Opens the journal that a storage has, and makes a publisher of it, whose datagrams have at most `limit` bytes. It
    /// reads the storage once, for the journal and for the index, and syncs it. All messages of the storage count as
    /// sent.
    ///
    /// After an error the storage is dropped.
    pub fn open(alloc: Global, limit: usize, storage: S) -> Result<DurablePublisher<S>, StartError>
        ensures resumed { (life : Life) (bytes : List ℕ) → S.shows storage bytes → IsFileOf life bytes →
            IfOk result (λ publisher. Publishes S.shows S.may_leave publisher (after_moment life Crash)) }
        ensures accepted { (life : Life) (bytes : List ℕ) → S.shows storage bytes → IsFileOf life bytes →
            IsLimit limit → AllByRecursion (IsWithinLength (limit - MESSAGE_OVERHEAD)) life.committed →
            IfErr result IsOfDevice }
        ensures refused { (error : OpenError) (bytes : List ℕ) → result ≡ Err (StartError.Open error) →
            S.shows storage bytes → OpenFault (limit - MESSAGE_OVERHEAD) bytes error }
        ensures limit { (¬ IsLimit limit) → result ≡ Err StartError.Limit }
        ensures within { result ≡ Err StartError.Limit → ¬ IsLimit limit }
    {
        if limit < MIN_LIMIT || MAX_LIMIT < limit {
            return Err(StartError::Limit);
        }
        let max_message = (limit - MESSAGE_OVERHEAD) as u16;
        let opened = match DurableJournal::open_with::<StoredJournal>(alloc, max_message, storage) {
            Ok(opened) => opened,
            Err(fault) => return Err(StartError::Open(fault.error)),
        };
        let Opened { journal, taker } = opened;
        match DurablePublisher::resume(alloc, taker, journal, limit) {
            Ok(publisher) => Ok(publisher),
            // The taker has the messages of the journal.
            Err(ResumeError::Differs) => unreachable!(),
            Err(ResumeError::Limit) => Err(StartError::Limit),
            Err(ResumeError::Memory) => Err(StartError::Memory),
        }
    }

    /// Returns the session that the messages belong to.
    pub fn session(&self) -> Session
        ensures { result ≡ self.now.publisher.journal.session }
    {
        self.publisher.session()
    }

    /// Returns the largest length of a message, in bytes.
    pub fn max_message(&self) -> u16
        ensures { result ≡ self.now.publisher.journal.max_message }
    {
        self.publisher.max_message()
    }

    /// Returns true if the session is closed.
    pub fn is_closed(&self) -> bool
        ensures { result ≡ self.now.publisher.journal.closed }
    {
        self.publisher.is_closed()
    }

    /// Returns the number of messages that are committed or wait. A server may respond with those that were sent: the
    /// messages with numbers below `count() + 1 - unsent()`. `Server::plan_from` plans such a response.
    pub fn count(&self) -> u64
        ensures value { result ≡ length self.now.publisher.journal.messages }
        ensures publisher { IsPublisher self.now.publisher }
    {
        self.publisher.count()
    }

    /// Returns the number of unsent messages: those that were not put into a datagram yet, whether committed or not.
    pub fn unsent(&self) -> u64
        ensures value { result ≡ length self.now.publisher.journal.messages - self.now.publisher.sent }
        ensures publisher { IsPublisher self.now.publisher }
    {
        self.publisher.unsent()
    }

    /// Returns the storage. Messages that wait are lost.
    pub fn into_storage(self) -> S
        ensures { result ≡ self.durable.storage }
    {
        let DurablePublisher {
            publisher: _,
            durable,
            index: _,
        } = self;
        durable.into_storage()
    }

    /// Appends a message to those that wait to be committed, and returns its sequence number. It does not use the
    /// storage. After an error the publisher is unchanged, except for the buffer of its index. `Append(Memory)` is
    /// returned only if an allocation failed, or if the file would be longer than 9,223,372,036,854,775,807 bytes.
    pub fn append(&mut self, message: &[u8]) -> Result<u64, WaitingError>
        ensures number { IfOk result (λ number.
            number ≡ length self.old.publisher.journal.messages + 1) }
        ensures taken { OnOk result (append_refusal self.old.publisher.journal message.now ≡ None) }
        ensures intact { OnOk result (self.old.durable.broken ≡ false) }
        ensures added { OnOk result (self.new ≡ record {
          publisher = published self.old.publisher message.now;
          durable = record self.old.durable { waiting = self.old.durable.waiting ++ message.now ∷ [] };
          index = record self.old.index { index = self.new.index.index };
        }) }
        ensures indexed { (lengths : List ℕ) → Indexes self.old.index.index lengths →
            OnOk result (Indexes self.new.index.index (lengths ++ length message.now ∷ [])) }
        ensures appended { (life : Life) → Publishes S.shows S.may_leave self.old life → OnOk result
            (MayHappen life (Append message.now)
            × Publishes S.shows S.may_leave self.new (after_moment life (Append message.now))) }
        ensures refused { IfErr result (IsAppendFault self.old message.now) }
        ensures same { OnErr result (self.new ≡ record self.old { index = self.new.index }) }
        ensures same_index { OnErr result (HasSameMessages self.old.index self.new.index) }
        ensures kept { (life : Life) → Publishes S.shows S.may_leave self.old life →
            OnErr result (Publishes S.shows S.may_leave self.new life) }
    {
        // For the prover: it states that the publisher has not sent more messages than it has.
        let _unsent = self.publisher.unsent();
        match self.publisher.publish(message) {
            Ok(number) => match self.append_published(message) {
                Ok(()) => Ok(number),
                Err(error) => {
                    self.publisher.retract();
                    Err(error)
                }
            },
            Err(error) => Err(WaitingError::Append(error)),
        }
    }

    // Appends a message that was just published to the index and to the durable journal.
    fn append_published(&mut self, message: &[u8]) -> Result<(), WaitingError>
        requires { length message.now ≤ self.old.publisher.journal.max_message }
        ensures added { OnOk result (self.new ≡ record self.old {
          durable = record self.old.durable { waiting = self.old.durable.waiting ++ message.now ∷ [] };
          index = record self.old.index { index = self.new.index.index };
        }) }
        ensures indexed { (lengths : List ℕ) → Indexes self.old.index.index lengths →
            OnOk result (Indexes self.new.index.index (lengths ++ length message.now ∷ [])) }
        ensures intact { OnOk result (self.old.durable.broken ≡ false) }
        ensures appended { (life : Life) → Lives S.shows S.may_leave self.old.durable life → OnOk result
            (MayHappen life (Append message.now)
            × Lives S.shows S.may_leave self.new.durable (after_moment life (Append message.now))) }
        ensures refused { IfErr result (IsStoreFault self.old.durable message.now) }
        ensures same { OnErr result (self.new ≡ record self.old { index = self.new.index }) }
        ensures same_index { OnErr result (HasSameMessages self.old.index self.new.index) }
        ensures part { (journal : JournalState) → IsOfJournal self.old.index journal →
            IsJournal (appended journal message.now) → OnErr result (IsOfJournal self.new.index journal) }
        ensures publisher { IsPublisher self.old.publisher }
    {
        // For the prover: it states that the message's length fits 16 bits.
        let _most = self.publisher.count();
        let len = message.len() as u16;
        let Ok(()) = self.index.push(len) else {
            return Err(WaitingError::Append(AppendError::Memory));
        };
        match self.durable.append(message) {
            Ok(_) => Ok(()),
            Err(error) => {
                self.index.retract(len);
                Err(error)
            }
        }
    }

    /// Makes the waiting messages durable, so that they can be sent. It writes and syncs as `DurableJournal::commit`.
    /// After an error, none of them is ever sent, although a crash may leave them.
    pub fn commit(&mut self) -> Result<(), CommitError>
        ensures acknowledged { (life : Life) → Publishes S.shows S.may_leave self.old life →
            OnOk result (Publishes S.shows S.may_leave self.new (after_moment life Commit)) }
        ensures kept { (life : Life) → Publishes S.shows S.may_leave self.old life →
            OnErr result (Publishes S.shows S.may_leave self.new life) }
        ensures any_moment { (life : Life) → Lives S.shows S.may_leave self.old.durable life →
            LeavesOnly S.moment S.left_since self.old.durable.storage self.new.durable.storage
            (IsFileAround life Commit) }
        ensures told { (life : Life) (datagram : List ℕ) → Publishes S.shows S.may_leave self.old life →
            IsTrueNow life datagram →
            LeavesOnly S.moment S.left_since self.old.durable.storage self.new.durable.storage (IsTold datagram) }
        ensures done { OnOk result (self.new ≡ record self.old {
          durable = record self.old.durable {
            storage = self.new.durable.storage;
            committed = self.old.durable.committed + length self.old.durable.waiting;
            end = self.new.durable.end;
            waiting = [];
          };
        }) }
        ensures intact { OnOk result (self.old.durable.broken ≡ false) }
        ensures refused { IfErr result (λ error.
            (self.old.durable.broken ≡ true) ⊎ (error ≡ CommitError.Write)) }
        ensures broken { self.old.durable.broken ≡ true → IfErr result (λ error. error ≡ CommitError.Broken) }
        ensures unwritten { self.old.durable.broken ≡ true → self.new ≡ self.old }
        ensures after { OnErr result (self.new ≡ record self.old {
          durable = record self.old.durable { storage = self.new.durable.storage; broken = true };
        }) }
        ensures cause { CountsCommit (S.failed self.old.durable.storage) (S.failed self.new.durable.storage) result }
    {
        true_stays_law();
        self.durable.commit()
    }

    /// Closes the session and makes this durable, if every message was committed and put into a datagram. From then on
    /// only end packets are sent. On a closed session it changes nothing.
    pub fn close(&mut self) -> Result<(), CloseError>
        ensures acknowledged { (life : Life) → Publishes S.shows S.may_leave self.old life →
            OnOk result (Publishes S.shows S.may_leave self.new (after_moment life Close)) }
        ensures kept { (life : Life) → Publishes S.shows S.may_leave self.old life →
            OnErr result (Publishes S.shows S.may_leave self.new life) }
        ensures any_moment { (life : Life) → Publishes S.shows S.may_leave self.old life →
            Lives S.shows S.may_leave self.old.durable life →
            LeavesOnly S.moment S.left_since self.old.durable.storage self.new.durable.storage
            (IsFileAround life Close) }
        ensures told { (life : Life) (datagram : List ℕ) → Publishes S.shows S.may_leave self.old life →
            IsTrueNow life datagram →
            LeavesOnly S.moment S.left_since self.old.durable.storage self.new.durable.storage (IsTold datagram) }
        ensures sent { OnOk result (self.old.publisher.sent ≡ length self.old.publisher.journal.messages) }
        ensures done { OnOk result (self.new ≡ record {
          publisher = closed_publisher self.old.publisher;
          durable = record self.old.durable {
            storage = self.new.durable.storage;
            committed = self.old.durable.committed + length self.old.durable.waiting;
            end = self.new.durable.end;
            closed = true;
            waiting = [];
          };
          index = self.old.index;
        }) }
        ensures unsent { (count : ℕ) → result ≡ Err (CloseError.Unsent (record { count = count })) →
            (self.new ≡ self.old) × (count ≡ length self.old.publisher.journal.messages - self.old.publisher.sent) }
        ensures unfailed { OnOk result
            (S.failed self.new.durable.storage ≡ S.failed self.old.durable.storage) }
    {
        true_stays_law();
        let count = self.publisher.unsent();
        if count > 0 {
            return Err(CloseError::Unsent(Unsent { count }));
        }
        match self.durable.close() {
            Ok(()) => match self.publisher.close() {
                Ok(()) => Ok(()),
                Err(unsent) => Err(CloseError::Unsent(unsent)),
            },
            Err(error) => Err(CloseError::Commit(error)),
        }
    }

    // Whether no message waits to be committed.
    fn all_committed(&self) -> bool
        ensures { IsTrue result ↔ (length self.now.durable.waiting ≡ 0) }
    {
        self.durable.next() - 1 == self.durable.committed()
    }

    /// Returns a datagram with the longest prefix of the unsent messages that fits, and counts these messages as sent.
    /// Returns `None` if no message is unsent, or while a message waits to be committed.
    pub fn next_datagram(&mut self) -> Option<&[u8]>
        ensures* after { sem 𝓛 (Rests (the_row S.row) self.entry (λ new. new ≡ after_committed self.old)) }
        ensures lent { Lends (next_committed self.old) (option_copied result) }
        ensures idle { IfNone result (after_committed self.old ≡ self.old) }
        ensures truth { (life : Life) → Publishes S.shows S.may_leave self.old life →
            IfSome result (λ bytes. IsTrueNow life bytes.now) }
        ensures told { (life : Life) → Publishes S.shows S.may_leave self.old life →
            IfSome result (λ bytes. IsWithin (IsTold bytes.now) (S.may_leave self.old.durable.storage)) }
    {
        true_stays_law();
        if self.all_committed() {
            return self.publisher.datagram();
        }
        None
    }

    /// Returns a heartbeat with the sequence number of the first unsent message, or of the next message if none is
    /// unsent. Returns `None` if the session is closed.
    pub fn heartbeat(&mut self) -> Option<&[u8]>
        ensures* after { sem 𝓛 (Rests (the_row S.row) self.entry (λ new. new ≡ self.old)) }
        ensures lent { Lends (next_heartbeat self.old.publisher) (option_copied result) }
        ensures truth { (life : Life) → Publishes S.shows S.may_leave self.old life →
            IfSome result (λ bytes. IsTrueNow life bytes.now) }
        ensures told { (life : Life) → Publishes S.shows S.may_leave self.old life →
            IfSome result (λ bytes. IsWithin (IsTold bytes.now) (S.may_leave self.old.durable.storage)) }
    {
        true_stays_law();
        self.publisher.heartbeat()
    }

    /// Returns an end packet, whose sequence number is one more than the number of messages. Returns `None` if the
    /// session is open.
    pub fn end(&mut self) -> Option<&[u8]>
        ensures* after { sem 𝓛 (Rests (the_row S.row) self.entry (λ new. new ≡ self.old)) }
        ensures lent { Lends (next_end self.old.publisher) (option_copied result) }
        ensures truth { (life : Life) → Publishes S.shows S.may_leave self.old life →
            IfSome result (λ bytes. IsTrueNow life bytes.now) }
        ensures told { (life : Life) → Publishes S.shows S.may_leave self.old life →
            IfSome result (λ bytes. IsWithin (IsTold bytes.now) (S.may_leave self.old.durable.storage)) }
    {
        true_stays_law();
        self.publisher.end()
    }
}

impl<S: Storage + Drop> ServedJournal for DurablePublisher<S> {
    ghost shows = { λ p journal. ShowsJournal S.shows S.may_leave p journal };

    ghost stays = { λ earlier p. WasServed S.shows S.may_leave S.moment S.left_since earlier p };

    ghost failed = { λ p. S.failed p.durable.storage };

    fn session(&self) -> Session
        ensures { result ≡ self.now.publisher.journal.session }
    {
        self.publisher.session()
    }

    fn max_message(&self) -> u16
        ensures { result ≡ self.now.publisher.journal.max_message }
    {
        self.publisher.max_message()
    }

    fn next(&self) -> u64
        ensures value { result ≡ length self.now.publisher.journal.messages + 1 }
        ensures journal { IsJournal self.now.publisher.journal }
    {
        self.count() + 1
    }

    /// Packs the next datagram of a plan and returns the number of its messages. It reads the storage as
    /// `StorageIndex::pack_from`, and returns the same errors.
    ///
    /// While a message waits to be committed, it reads nothing, and returns `Damaged` with the number of the plan's
    /// next message.
    fn pack(&mut self, packer: &mut Packer, plan: &Plan) -> Result<u64, FileError>
        ensures packed { IfOk result (λ count. (journal : JournalState) →
            ShowsJournal S.shows S.may_leave self.old journal → MayPack journal packer.old.limit plan.now →
            HasPackedNext packer.old packer.new journal plan.now count) }
        ensures begun { IfOk result (HasBegunNext packer.old packer.new plan.now) }
        ensures limit { packer.new.limit ≡ packer.old.limit }
        ensures refused { IfErr result (λ error. (journal : JournalState) →
            ShowsJournal S.shows S.may_leave self.old journal → MayPack journal packer.old.limit plan.now →
            error ≡ FileError.Read) }
        ensures waits { length self.old.durable.waiting ≢ 0 →
            (result ≡ Err (FileError.Damaged plan.now.from)) × (self.new ≡ self.old) }
        ensures shown { (journal : JournalState) → ShowsJournal S.shows S.may_leave self.old journal →
            ShowsJournal S.shows S.may_leave self.new journal }
        ensures served { WasServed S.shows S.may_leave S.moment S.left_since self.old self.new }
        ensures stays { (earlier : DurablePublisher S) →
            WasServed S.shows S.may_leave S.moment S.left_since earlier self.old →
            WasServed S.shows S.may_leave S.moment S.left_since earlier self.new }
        ensures failures { CountsLoad (S.failed self.old.durable.storage) (S.failed self.new.durable.storage) result }
    {
        if !self.all_committed() {
            return Err(FileError::Damaged {
                number: plan.from(),
            });
        }
        // For the prover: it states that the publisher's journal is one.
        let _count = self.publisher.count();
        self.index
            .pack_from(&mut self.durable.storage, packer, plan)
    }
}
