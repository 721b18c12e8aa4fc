//! The law of what a datagram states. A law is a function that exists only for its contract, which is a theorem.

ghost use Rattle.std.specs.Prelude.{ℕ, Bool, List};
ghost use Rattle.mold_wire.specs.declared.session.Session.{Session};
ghost use Rattle.mold_session.specs.Records.{SpellsJournal3};
ghost use Rattle.mold_durable.specs.Life.{IsFileAround, Life, MayHappen, Moment, after as after_moment, born};
ghost use Rattle.mold_durable_publisher.specs.Told.{IsLater, IsLaterFile, IsLife, IsTold, IsTrueNow, IsTrueOf};

use mold_wire::laws::true_stays_law;

/// What a datagram states stays true.
///
/// - `later`: it is true of the session's messages at any later time.
/// - `file`, `later_file`: so it is true of each file of the messages of which it was true, or of more.
/// - `moment`, `around`: it stays true of the life of the journal, whatever happens to it. A crash while this happens
///   leaves a file of which the datagram is true.
/// - `begins`, `goes_on`: what is known of every life holds of a new journal, and after everything that may happen.
pub fn told_law()
    ensures later { (session : Session) (before after : List (List ℕ)) (was is : Bool) (datagram : List ℕ) →
        IsLater before was after is → IsTrueOf session before was datagram → IsTrueOf session after is datagram }
    ensures file { (session : Session) (messages : List (List ℕ)) (closed : Bool) (datagram bytes : List ℕ) →
        IsTrueOf session messages closed datagram → SpellsJournal3 session messages closed bytes →
        IsTold datagram bytes }
    ensures later_file { (life : Life) (datagram bytes : List ℕ) →
        IsTrueNow life datagram → IsLaterFile life bytes → IsTold datagram bytes }
    ensures moment { (life : Life) (moment : Moment) (datagram : List ℕ) → IsLife life →
        IsTrueNow life datagram → IsTrueNow (after_moment life moment) datagram }
    ensures around { (life : Life) (moment : Moment) (datagram bytes : List ℕ) → IsLife life →
        IsTrueNow life datagram → IsFileAround life moment bytes → IsTold datagram bytes }
    ensures begins { (session : Session) → IsLife (born session) }
    ensures goes_on { (life : Life) (moment : Moment) → IsLife life → MayHappen life moment →
        IsLife (after_moment life moment) }
{
    true_stays_law();
}
