//! Reads the file of a journal, of version 1, 2 or 3.

ghost use Rattle.std.specs.Prelude.{◌≡◌, ◌<◌, ◌≤◌, ◌^◌, ◌∷◌, ℕ, false, length, take, IfOk, IfErr, IfSome, OnOk};
ghost use Rattle.std.specs.Bool.{OnTrue, OnFalse};
ghost use Rattle.std.specs.Io.KnownBytes.{Consumes, IsAtEnd, prepend_known};
ghost use Rattle.mold_wire.specs.Block.{be64, blocks};
ghost use Rattle.mold_wire.specs.declared.limits.TheConstants.{MAX_NUMBER};
ghost use Rattle.mold_devices.specs.Faults.{CountsRead};
ghost use Rattle.mold_session.specs.FileFault.{BlockFault, BlocksFault, JournalFault};
ghost use Rattle.mold_session.specs.Journal.{AreMessages};
ghost use Rattle.mold_session.specs.Loading.{work_left, stated_count, ReadsNumbers, NumbersFault, ReadsHead};
ghost use Rattle.mold_session.specs.Loading.{SpellsFile};
ghost use Rattle.mold_session.specs.Loading.{TakesMessage, TakesBlock, Refuses, CountsLoad, IsOfHead};
ghost use Rattle.mold_session.specs.Reader.{CountFault};
ghost use Rattle.mold_session.specs.declared.journal.TheConstants.{MAX_MESSAGES};

use crate::error::FileError;
use crate::file_version::FileVersion;
use crate::journal::MAX_MESSAGES;
use crate::magic::{MAGIC_LENGTH, first_magic, second_magic, third_magic};
use crate::piece::{Piece, has_more, next_byte};
use crate::records::read_records;
use byteorder::{BigEndian, ByteOrder};
use mold_devices::{ReadFault, Source};
use mold_messages::MessageList;
use mold_wire::{SESSION_LENGTH, Session};
use std::alloc::Global;

/// The head of a file: what precedes the messages.
#[derive(Clone, Copy)]
pub struct FileHead {
    /// The session of the messages.
    pub session: Session,
    /// Whether the session is closed. It is false for a file of version 1. Version 3 states it after the messages, so it
    /// is false until these were read.
    pub closed: bool,
    /// The version of the file.
    pub version: FileVersion,
}

// Fills `buffer` from the source, and returns how many bytes it filled. That is fewer than its length if the
// source ends first.
fn fill<S: Source>(piece: &mut Piece, source: &mut S, buffer: &mut [u8]) -> Result<usize, ReadFault>
    ensures filled { IfOk result (λ count. count ≤ length buffer.new) }
    ensures bytes { IfOk result (λ count. Consumes (prepend_known piece.old (S.left source.old))
        (prepend_known piece.new (S.left source.new)) (take count buffer.new)) }
    ensures end { IfOk result (λ count. count < length buffer.new →
        IsAtEnd (prepend_known piece.new (S.left source.new))) }
    ensures failures { CountsRead (S.failed source.old) (S.failed source.new) result }
{
    let mut count = 0;
    while count < buffer.len() {
        let Some(byte) = next_byte(piece, source)? else {
            return Ok(count);
        };
        buffer[count] = byte;
        count += 1;
    }
    Ok(count)
}

// Splits off the first byte and decodes the number after it.
fn split_numbers(bytes: &[u8]) -> (u8, u64)
    requires { length bytes.now ≡ 9 }
    ensures parts { bytes.now ≡ result.0 ∷ be64 result.1 }
    ensures fits { result.1 < 2 ^ 64 }
{
    let (first, number) = bytes.split_at(1);
    (first[0], BigEndian::read_u64(number))
}

// Reads what follows the session in a file of version 2.
fn read_numbers<S: Source>(
    piece: &mut Piece,
    source: &mut S,
    session: Session,
) -> Result<FileHead, FileError>
    ensures read { IfOk result (λ head. ReadsNumbers (prepend_known piece.old (S.left source.old))
        (prepend_known piece.new (S.left source.new)) session head) }
    ensures refused { IfErr result (λ error. Refuses NumbersFault
        (prepend_known piece.old (S.left source.old)) error) }
    ensures headed { IfErr result IsOfHead }
    ensures failures { CountsLoad (S.failed source.old) (S.failed source.new) result }
{
    let mut numbers = [0; 9];
    let count = fill(piece, source, &mut numbers)?;
    if count < 9 {
        return Err(FileError::Short { len: 18 + count });
    }
    let (byte, stated) = split_numbers(&numbers);
    if byte > 1 {
        return Err(FileError::BadFlag { byte });
    }
    Ok(FileHead {
        session,
        closed: byte == 1,
        version: FileVersion::Two { count: stated },
    })
}

// A head that does not state that the session is closed.
fn open_head(session: Session, version: FileVersion) -> FileHead
    ensures { result ≡ record { session = session; closed = false; version = version } }
{
    FileHead {
        session,
        closed: false,
        version,
    }
}

/// Reads the head of a file.
pub fn read_head<S: Source>(piece: &mut Piece, source: &mut S) -> Result<FileHead, FileError>
    ensures read { IfOk result (λ head. ReadsHead (prepend_known piece.old (S.left source.old))
        (prepend_known piece.new (S.left source.new)) head) }
    ensures refused { IfErr result (λ error. (most : ℕ) → Refuses (JournalFault most)
        (prepend_known piece.old (S.left source.old)) error) }
    ensures headed { IfErr result IsOfHead }
    ensures failures { CountsLoad (S.failed source.old) (S.failed source.new) result }
{
    let mut front = [0; 18];
    let count = fill(piece, source, &mut front)?;
    if count < 18 {
        return Err(FileError::Short { len: count });
    }
    let (magic, name) = front.split_at(MAGIC_LENGTH);
    let mut session = Session([0; SESSION_LENGTH]);
    session.0.copy_from_slice(name);
    if magic == first_magic().as_slice() {
        return Ok(open_head(session, FileVersion::One));
    }
    if magic == third_magic().as_slice() {
        return Ok(open_head(session, FileVersion::Three));
    }
    if magic != second_magic().as_slice() {
        return Err(FileError::BadMagic);
    }
    read_numbers(piece, source, session)
}

// Takes the next `len` bytes as one more message of the list. Returns false if the source ends first.
fn take_message<S: Source>(
    list: &mut MessageList,
    piece: &mut Piece,
    source: &mut S,
    len: usize,
) -> Result<bool, ReadFault>
    ensures taken { IfOk result (λ whole. OnTrue whole (TakesMessage len
        (prepend_known piece.old (S.left source.old)) (prepend_known piece.new (S.left source.new))
        list.old.messages list.new.messages)) }
    ensures cut { IfOk result (λ whole. OnFalse whole
        (IfSome (prepend_known piece.old (S.left source.old)) (λ bytes. length bytes < len))) }
    ensures work { IfOk result (λ _.
        work_left (S.bound source.new) piece.new ≤ work_left (S.bound source.old) piece.old) }
    ensures failures { CountsRead (S.failed source.old) (S.failed source.new) result }
{
    list.push(&[])?;
    let mut missing = len;
    while missing > 0 {
        if !has_more(piece, source)? {
            return Ok(false);
        }
        let count = piece.rest().len().min(missing);
        list.extend_last(&piece.rest()[..count])?;
        piece.skip(count);
        missing -= count;
    }
    Ok(true)
}

/// Takes the next block as one more message of the list. `count` blocks were taken before it. Returns false if
/// the source is at its end.
pub fn next_block<S: Source>(
    list: &mut MessageList,
    piece: &mut Piece,
    source: &mut S,
    most: u16,
    count: u64,
) -> Result<bool, FileError>
    requires { count < MAX_NUMBER }
    ensures taken { IfOk result (λ more. OnTrue more (TakesBlock most
        (prepend_known piece.old (S.left source.old)) (prepend_known piece.new (S.left source.new))
        list.old.messages list.new.messages)) }
    ensures few { IfOk result (λ more. OnTrue more (count < MAX_MESSAGES)) }
    ensures end { IfOk result (λ more. OnFalse more (IsAtEnd (prepend_known piece.old (S.left source.old)))) }
    ensures spent { IfOk result (λ more. OnFalse more (IsAtEnd (prepend_known piece.new (S.left source.new)))) }
    ensures same { IfOk result (λ more. OnFalse more (list.new ≡ list.old)) }
    ensures refused { IfErr result (λ error. Refuses (BlockFault most count)
        (prepend_known piece.old (S.left source.old)) error) }
    ensures work { IfOk result (λ more. OnTrue more
        (work_left (S.bound source.new) piece.new < work_left (S.bound source.old) piece.old)) }
    ensures failures { CountsLoad (S.failed source.old) (S.failed source.new) result }
{
    let Some(high) = next_byte(piece, source)? else {
        return Ok(false);
    };
    if count == MAX_MESSAGES {
        return Err(FileError::Full);
    }
    let number = count + 1;
    let Some(low) = next_byte(piece, source)? else {
        return Err(FileError::BlockCut { number });
    };
    let len = BigEndian::read_u16(&[high, low]);
    if len > most {
        return Err(FileError::TooLong {
            len: usize::from(len),
        });
    }
    if !take_message(list, piece, source, usize::from(len))? {
        return Err(FileError::BlockCut { number });
    }
    Ok(true)
}

// Takes all blocks up to the end of the file.
fn read_blocks<S: Source>(
    alloc: Global,
    most: u16,
    piece: &mut Piece,
    source: &mut S,
) -> Result<MessageList, FileError>
    ensures listed { IfOk result (λ list. AreMessages most list.messages) }
    ensures whole { IfOk result (λ list. IfSome (prepend_known piece.old (S.left source.old))
        (λ behind. behind ≡ blocks list.messages)) }
    ensures spent { IfOk result (λ _. IsAtEnd (S.left source.new)) }
    ensures refused { IfErr result (λ error. Refuses (BlocksFault most)
        (prepend_known piece.old (S.left source.old)) error) }
    ensures failures { CountsLoad (S.failed source.old) (S.failed source.new) result }
{
    let mut list = MessageList::new(alloc);
    'messages: loop {
        let count = list.len() as u64;
        if !next_block(&mut list, piece, source, most, count)? {
            return Ok(list);
        }
    }
}

/// Refuses a file that states another number of messages than were found.
pub fn check_count(version: FileVersion, found: u64) -> Result<(), FileError>
    ensures same { OnOk result (stated_count version found ≡ found) }
    ensures refused { IfErr result (CountFault version found) }
{
    let count = version.stated_count(found);
    if count != found {
        return Err(FileError::CountDiffers { count, found });
    }
    Ok(())
}

/// Reads the file of a journal, of any version, whose messages have at most `most` bytes. The head that it returns
/// states whether the session is closed.
pub fn load_file<S: Source>(
    alloc: Global,
    most: u16,
    source: &mut S,
) -> Result<(FileHead, MessageList), FileError>
    ensures listed { IfOk result (λ loaded. AreMessages most loaded.1.messages) }
    ensures whole { IfOk result (λ loaded. IfSome (S.left source.old)
        (λ bytes. SpellsFile loaded.0 loaded.1.messages loaded.0.version bytes)) }
    ensures spent { IfOk result (λ _. IsAtEnd (S.left source.new)) }
    ensures refused { IfErr result (λ error. Refuses (JournalFault most) (S.left source.old) error) }
    ensures failures { CountsLoad (S.failed source.old) (S.failed source.new) result }
{
    let mut piece = Piece::new();
    let mut head = read_head(&mut piece, source)?;
    if head.version.has_records() {
        let (records, closed) = read_records(alloc, most, &mut piece, source)?;
        head.closed = closed;
        return Ok((head, records));
    }
    let list = read_blocks(alloc, most, &mut piece, source)?;
    check_count(head.version, list.len() as u64)?;
    Ok((head, list))
}
