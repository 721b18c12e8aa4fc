//! Laws: theorems about the definitions alone. Each law is a function that does nothing, and its contract is
//! the theorem.

ghost use Rattle.std.specs.Prelude.{◌≡◌, ◌+◌, ◌<◌, ◌≤◌, ◌++◌, ◌∷◌, [], List, ℕ, Bool, length, take, None, Ok, Some};
ghost use Rattle.std.specs.Prelude.{Option, IfSome};
ghost use Rattle.std.specs.Prelude.{slice_get};
ghost use Rattle.std.specs.Io.KnownBytes.{prepend_known};
ghost use Rattle.std.specs.List.{AllByRecursion};
ghost use Rattle.mold_wire.specs.Block.{IsBytes};
ghost use Rattle.mold_wire.specs.Packet.{Spells, spelling_of};
ghost use Rattle.mold_wire.specs.Packing.{front};
ghost use Rattle.mold_wire.specs.declared.block.TheConstants.{MAX_MESSAGE};
ghost use Rattle.mold_wire.specs.declared.header.TheConstants.{HEADER_LENGTH};
ghost use Rattle.mold_wire.specs.declared.packet.Packet.{Packet};
ghost use Rattle.mold_wire.specs.declared.session.Session.{Session};
ghost use Rattle.mold_wire.specs.declared.request.Request.{Request};
ghost use Rattle.mold_wire.specs.Request.{SpellsRequest};
ghost use Rattle.mold_session.specs.Answer.{answer, PlanState, IsPlan, plan_for, IsSpent, planned, FitAlone};
ghost use Rattle.mold_session.specs.Answer.{HasFirst, SendsNext};
ghost use Rattle.mold_session.specs.Datagrams.{data_packet, first_part, packing};
ghost use Rattle.mold_session.specs.Journal.{IsJournal, IsWithin, JournalState, append_refusal, journal_below};
ghost use Rattle.mold_session.specs.Contents.{FileContents, Gives, IsFront};
ghost use Rattle.mold_session.specs.File.{SpellsJournal, SpellsJournal2};
ghost use Rattle.mold_session.specs.FileFault.{JournalFault};
ghost use Rattle.mold_session.specs.Records.{SpellsJournal3};
ghost use Rattle.mold_session.specs.declared.error.FileError.{FileError};
ghost use Rattle.mold_session.specs.declared.journal.TheConstants.{MAX_MESSAGES};
ghost use Rattle.mold_session.specs.declared.loading.FileHead.{FileHead};
ghost use Rattle.mold_session.specs.Publisher.{IsPublisher, MayPublish, PublisherState, after_datagram, closed};
ghost use Rattle.mold_session.specs.Publisher.{MayResume, next_datagram, next_end, next_heartbeat, published};
ghost use Rattle.mold_session.specs.Publisher.{resumed_publisher, retracted};
ghost use Rattle.mold_session.specs.Truthful.{MayAnswer, IsTrueDatagram};
ghost use Rattle.mold_session.specs.Loading.{Refuses, SpellsFile};
ghost use Rattle.mold_session.specs.Reader.{EndsWith, HasRead, PassesBlocks, ReaderState, ReadsNext, RestFault};
ghost use Rattle.mold_session.specs.Server.{ServerState, IsServer, IsAnswerable, checked_request, planning};

use mold_wire::laws::{
    front_law, one_spelling_law, packet_length_law, reading_law, spelling_length_law,
    true_packet_law,
};

/// The value of `MAX_MESSAGES`.
pub fn constants_law()
    ensures messages { MAX_MESSAGES ≡ 18446744073709551614 }
{}

/// How messages are packed: no messages give no packets. If the longest prefix that fits has a message, the first
/// packet has that prefix, and the messages after it are packed from the next sequence number on.
#[tactic(auto, using(crate::proofs::DatagramLemmas::packing_none, crate::proofs::DatagramLemmas::packing_first))]
pub fn packing_law()
    ensures none { (limit : ℕ) (session : Session) (sequence : ℕ) → packing limit session sequence [] ≡ [] }
    ensures first { (limit : ℕ) (session : Session) (sequence : ℕ) (messages found behind : List (List ℕ)) →
        front limit messages (length messages) ≡ found → 0 < length found → messages ≡ found ++ behind →
        packing limit session sequence messages
        ≡ data_packet session sequence found ∷ packing limit session (sequence + length found) behind }
{}

/// If `count` messages are requested, the first packet has the longest prefix of them that fits.
pub fn first_part_law()
    ensures { (limit count : ℕ) (messages : List (List ℕ)) → HEADER_LENGTH ≤ limit →
        first_part limit (take count messages) ≡ front limit messages count }
{
    front_law();
}

/// States what a plan still sends. A spent plan sends nothing. Any other plan sends its next packet, and then the
/// packets of the plan that remains after it. A plan never sends more than `left` packets, and messages that are
/// published meanwhile change nothing.
///
/// So the datagrams that `Server::datagram` returns, until it returns `None`, are all packets that the plan had at
/// first, in order.
pub fn planned_law()
    ensures spent { (published : List (List ℕ)) (limit : ℕ) (plan : PlanState) →
        IsSpent plan → planned published limit plan ≡ [] }
    ensures next { (published : List (List ℕ)) (limit : ℕ) (plan : PlanState) →
        FitAlone limit published → IsPlan plan → plan.to ≤ length published + 1 → ¬ IsSpent plan →
        SendsNext published limit plan }
    ensures few { (published : List (List ℕ)) (limit : ℕ) (plan : PlanState) →
        length (planned published limit plan) ≤ plan.left }
    ensures grown { (published more : List (List ℕ)) (limit : ℕ) (plan : PlanState) →
        IsPlan plan → plan.to ≤ length published + 1 →
        planned (published ++ more) limit plan ≡ planned published limit plan }
{
    front_law();
    packet_length_law();
}

/// A request is accepted exactly when it asks for messages that the journal has. The packets that its plan
/// sends are the responses to the request. If the plan is made from the messages below a number, they are the responses
/// that a journal with only these messages gives.
pub fn answered_law()
    ensures asked { (journal : JournalState) (request : Request) (bytes : List ℕ) →
        SpellsRequest request bytes → IsAnswerable journal request → checked_request journal bytes ≡ Ok request }
    ensures answerable { (journal : JournalState) (request : Request) (bytes : List ℕ) →
        checked_request journal bytes ≡ Ok request → IsAnswerable journal request }
    ensures planned { (journal : JournalState) (burst : ℕ) (request : Request) (bytes : List ℕ) →
        checked_request journal bytes ≡ Ok request →
        planning journal burst bytes ≡ Ok (plan_for journal burst request) }
    ensures plan { (journal : JournalState) (burst : ℕ) (request : Request) →
        IsAnswerable journal request → IsPlan (plan_for journal burst request) }
    ensures within { (journal : JournalState) (burst : ℕ) (request : Request) →
        (plan_for journal burst request).to ≤ length journal.messages + 1 }
    ensures answer { (journal : JournalState) (limit burst : ℕ) (request : Request) →
        IsAnswerable journal request → planned journal.messages limit (plan_for journal burst request)
        ≡ answer journal.messages journal.session limit request.sequence request.count burst }
    ensures below { (journal : JournalState) (below limit burst : ℕ) (request : Request) →
        IsAnswerable (journal_below journal below) request →
        planned journal.messages limit (plan_for (journal_below journal below) burst request)
        ≡ answer (journal_below journal below).messages journal.session limit request.sequence request.count burst }
{
    reading_law();
}

/// A request gets a first response, which has at least one message, if three conditions hold. The
/// requested number is that of a message, the message count is at least 1, and each message fits a datagram by
/// itself.
///
/// The third condition holds for every journal and every server that may respond from it.
pub fn answer_not_empty_law()
    ensures first { (published : List (List ℕ)) (session : Session) (limit number count burst : ℕ) →
        FitAlone limit published → 1 ≤ number → number ≤ length published → 1 ≤ count → 1 ≤ burst →
        HasFirst session number (answer published session limit number count burst) }
    ensures fit { (journal : JournalState) (server : ServerState) → IsJournal journal → IsServer server →
        journal.max_message ≤ server.max_message → FitAlone server.limit journal.messages }
{
    front_law();
    packet_length_law();
}

/// Every packet that a publisher sends next, and every packet of a plan, has an encoding that is true of the journal.
/// The session's name must have ten bytes. For a data packet of a publisher, the law also states that `spelling_of` is
/// its encoding.
pub fn sending_law()
    ensures spelled { (publisher : PublisherState) (packet : Packet) → IsPublisher publisher →
        length publisher.journal.session.0 ≡ 10 → next_datagram publisher ≡ Some packet →
        Spells packet (spelling_of packet) }
    ensures datagram { (publisher : PublisherState) (packet : Packet) → IsPublisher publisher →
        length publisher.journal.session.0 ≡ 10 → next_datagram publisher ≡ Some packet →
        IsTrueDatagram publisher.journal (spelling_of packet) }
    ensures heartbeat { (publisher : PublisherState) (packet : Packet) → IsPublisher publisher →
        length publisher.journal.session.0 ≡ 10 → next_heartbeat publisher ≡ Some packet →
        IsTrueDatagram publisher.journal (spelling_of packet) }
    ensures end { (publisher : PublisherState) (packet : Packet) → IsPublisher publisher →
        length publisher.journal.session.0 ≡ 10 → next_end publisher ≡ Some packet →
        IsTrueDatagram publisher.journal (spelling_of packet) }
    ensures planned { (journal : JournalState) (limit : ℕ) (plan : PlanState) (index : ℕ) (packet : Packet) →
        MayAnswer journal limit → IsPlan plan → plan.to ≤ length journal.messages + 1 →
        plan.session ≡ journal.session → slice_get (planned journal.messages limit plan) index ≡ Some packet →
        IsTrueDatagram journal (spelling_of packet) }
{
    front_law();
    one_spelling_law();
    packet_length_law();
    spelling_length_law();
    true_packet_law();
}

/// Bytes are the file of at most one journal, and in only one of the versions. The file has no fault if no message
/// of the journal is longer than the maximum that `Journal::load` is given. So a file determines what `Journal::load`
/// returns for it.
#[tactic(auto, using(crate::proofs::FileLawLemmas::one_reading, crate::proofs::RecordLawLemmas::one_record_reading))]
pub fn one_file_law()
    ensures one_journal { (one other : Session) (messages others : List (List ℕ)) (bytes : List ℕ) →
        SpellsJournal one messages bytes → SpellsJournal other others bytes →
        (one ≡ other) × (messages ≡ others) }
    ensures one_journal_2 { (one other : Session) (messages others : List (List ℕ)) (closed shut : Bool)
        (bytes : List ℕ) → SpellsJournal2 one messages closed bytes → SpellsJournal2 other others shut bytes →
        (one ≡ other) × (messages ≡ others) × (closed ≡ shut) }
    ensures one_journal_3 { (one other : Session) (messages others : List (List ℕ)) (closed shut : Bool)
        (bytes : List ℕ) → SpellsJournal3 one messages closed bytes → SpellsJournal3 other others shut bytes →
        (one ≡ other) × (messages ≡ others) × (closed ≡ shut) }
    ensures one_version { (one other : Session) (messages others : List (List ℕ)) (closed : Bool)
        (bytes : List ℕ) → SpellsJournal one messages bytes → ¬ SpellsJournal2 other others closed bytes }
    ensures one_version_1 { (one other : Session) (messages others : List (List ℕ)) (closed : Bool)
        (bytes : List ℕ) → SpellsJournal one messages bytes → ¬ SpellsJournal3 other others closed bytes }
    ensures one_version_2 { (one other : Session) (messages others : List (List ℕ)) (closed shut : Bool)
        (bytes : List ℕ) → SpellsJournal2 one messages closed bytes → ¬ SpellsJournal3 other others shut bytes }
    ensures one_file { (head other : FileHead) (messages others : List (List ℕ)) (bytes : List ℕ) →
        SpellsFile head messages head.version bytes → SpellsFile other others other.version bytes →
        (head.session ≡ other.session) × (messages ≡ others) × (head.closed ≡ other.closed) }
    ensures no_fault { (most : ℕ) (session : Session) (messages : List (List ℕ)) (bytes : List ℕ)
        (error : FileError) → most ≤ MAX_MESSAGE → SpellsJournal session messages bytes →
        AllByRecursion (IsWithin most) messages → ¬ JournalFault most bytes error }
    ensures no_fault_2 { (most : ℕ) (session : Session) (messages : List (List ℕ)) (closed : Bool)
        (bytes : List ℕ) (error : FileError) → most ≤ MAX_MESSAGE → SpellsJournal2 session messages closed bytes →
        AllByRecursion (IsWithin most) messages → ¬ JournalFault most bytes error }
    ensures no_fault_3 { (most : ℕ) (session : Session) (messages : List (List ℕ)) (closed : Bool)
        (bytes : List ℕ) (error : FileError) → most ≤ MAX_MESSAGE → SpellsJournal3 session messages closed bytes →
        AllByRecursion (IsWithin most) messages → ¬ JournalFault most bytes error }
{}

/// For a given maximum length of messages, a file has at most one fault. So a file determines the error of
/// `Journal::load`, except for `Read` and `Memory`.
pub fn one_fault_law()
    ensures { (most : ℕ) (bytes : List ℕ) (one other : FileError) → most ≤ MAX_MESSAGE →
        JournalFault most bytes one → JournalFault most bytes other → one ≡ other }
{}

/// Any bytes have contents as a file: a list of messages, and at most one fault. The contents are unique.
pub fn contents_law()
    ensures some { (bytes : List ℕ) → IsBytes bytes → FileContents bytes }
    ensures one { (bytes : List ℕ) (one other : FileContents bytes) →
        (one.messages ≡ other.messages) × (one.fault ≡ other.fault) }
{}

/// A reader has read all contents of a file when it reaches the end or a fault. Before that, it has read a
/// prefix of its messages. If the bytes of the file aren't known, the law states nothing.
pub fn reader_law()
    ensures next { (known left after : Option (List ℕ)) (reader next : ReaderState) (messages : List (List ℕ)) →
        HasRead known left reader messages → ReadsNext left after reader next →
        HasRead known after next (messages ++ next.message ∷ []) }
    ensures blocks { (known left : Option (List ℕ)) (reader next : ReaderState) (limit : ℕ)
        (messages more : List (List ℕ)) → HasRead known (prepend_known reader.rest left) reader messages →
        PassesBlocks limit reader next more → HasRead known (prepend_known next.rest left) next (messages ++ more) }
    ensures end { (known left : Option (List ℕ)) (reader : ReaderState) (messages : List (List ℕ)) (head : FileHead) →
        HasRead known left reader messages → EndsWith left reader head →
        IfSome known (λ bytes. Gives bytes messages None) }
    ensures file { (known left : Option (List ℕ)) (reader : ReaderState) (messages : List (List ℕ)) (head : FileHead) →
        HasRead known left reader messages → EndsWith left reader head →
        IfSome known (λ bytes. SpellsFile head messages head.version bytes) }
    ensures refused { (known left : Option (List ℕ)) (reader : ReaderState) (messages : List (List ℕ))
        (error : FileError) → HasRead known left reader messages →
        Refuses (RestFault MAX_MESSAGE reader.head.version reader.count) left error →
        Refuses (λ bytes why. Gives bytes messages (Some why)) known error }
    ensures refused_within { (most : ℕ) (known left : Option (List ℕ)) (reader : ReaderState)
        (messages : List (List ℕ)) (error : FileError) → HasRead known left reader messages →
        AllByRecursion (IsWithin most) messages →
        Refuses (RestFault most reader.head.version reader.count) left error →
        Refuses (JournalFault most) known error }
    ensures front { (known left : Option (List ℕ)) (reader : ReaderState) (messages : List (List ℕ)) →
        HasRead known left reader messages →
        IfSome known (λ bytes. (contents : FileContents bytes) → IsFront messages contents.messages) }
{}

/// Each step of a publisher keeps the properties of `IsPublisher`. The steps are: a message that nothing refuses is
/// published, a datagram is sent, the publisher is closed after all messages were sent, or the last message is
/// retracted, which is unsent. A resumed publisher has these properties too.
pub fn publisher_law()
    ensures may { (publisher : PublisherState) (message : List ℕ) →
        append_refusal publisher.journal message ≡ None → MayPublish publisher message }
    ensures published { (publisher : PublisherState) (message : List ℕ) → IsPublisher publisher →
        MayPublish publisher message → IsPublisher (published publisher message) }
    ensures sent { (publisher : PublisherState) (packet : Packet) → IsPublisher publisher →
        next_datagram publisher ≡ Some packet → IsPublisher (after_datagram publisher) }
    ensures closed { (publisher : PublisherState) → IsPublisher publisher →
        publisher.sent ≡ length publisher.journal.messages → IsPublisher (closed publisher) }
    ensures retracted { (publisher : PublisherState) → IsPublisher publisher →
        publisher.sent < length publisher.journal.messages → IsPublisher (retracted publisher) }
    ensures resumed { (journal : JournalState) (limit : ℕ) → IsJournal journal → MayResume journal limit →
        IsPublisher (resumed_publisher journal limit) }
{
    front_law();
}
