//! `mold check`: reads and checks the entries of a folder.

ghost use Rattle.std.specs.Prelude.{◌≡◌, ◌++◌, ◌∷◌, [], false, IfErr, IfOk, OnOk};
ghost use Rattle.std.specs.Fs.{dir_entry_name};
ghost use Rattle.std.specs.IoError.{error_kind};
ghost use Rattle.mold_check.specs.Entries.{names_datagram};
ghost use Rattle.mold_check.specs.declared.entry.Entry.{Entry};
ghost use Rattle.mold_commands.specs.Folder.{CountsFolder, IsReadAs, PrintsEntries, PrintsReport, read_fault};

use mold_capture_commands::Watch;
use mold_check::{Entry, check_entries, names_datagram};
use mold_devices::{CommandFault, Sink};
use std::alloc::Global;
use std::fs::{self, DirEntry, Files};
use std::io::{self, ErrorKind};

// Reads the bytes of an entry if it is a datagram. The contract does not specify them: `fs::read` has no contract.
fn read_bytes<R: Files + AllocGlobal>(rt: &R, found: &DirEntry<R, Global>) -> io::Result<Vec<u8>>
    ensures { IfOk result (λ bytes. names_datagram (dir_entry_name found.now) ≡ false → bytes.items ≡ []) }
{
    if names_datagram(found.file_name()) {
        fs::read(rt, found.path())
    } else {
        Ok(Vec::new(rt.alloc()))
    }
}

// Reads an entry. If it is not a datagram, only its name is read.
fn read_entry<R: Files + AllocGlobal>(rt: &R, found: &DirEntry<R, Global>) -> io::Result<Entry>
    ensures { IfOk result (IsReadAs (dir_entry_name found.now)) }
{
    let name = String::from_str(rt.alloc(), found.file_name())?;
    let bytes = read_bytes(rt, found)?;
    Ok(Entry { name, bytes })
}

// Reads an entry, and appends it to the entries.
fn add_entry<R: Files + AllocGlobal>(
    rt: &R,
    found: &DirEntry<R, Global>,
    entries: &mut Vec<Entry>,
) -> io::Result<()>
    ensures { OnOk result ((entry : Entry) × (IsReadAs (dir_entry_name found.now) entry
        × (entries.new.items ≡ entries.old.items ++ entry ∷ []))) }
{
    entries.push(read_entry(rt, found)?)?;
    Ok(())
}

// Returns the number of bytes of the last entry.
fn last_length(entries: &[Entry]) -> u64 {
    match entries.last() {
        Some(entry) => entry.bytes.len() as u64,
        None => 0,
    }
}

// Reads the entries of the folder, in the order in which the system lists them. It fails if a name is not UTF-8 or a
// datagram can't be read. A folder with the name of a datagram can't be read. No contract states which entries the
// system lists.
fn read_entries<R: Files + AllocGlobal + Clone + Drop, W: Watch>(
    rt: &R,
    folder: &str,
    watch: &mut W,
) -> io::Result<Vec<Entry>> {
    let mut entries = Vec::new(rt.alloc());
    let mut bytes: u64 = 0;
    let mut datagrams: u64 = 0;
    for found in fs::read_dir(rt, folder)? {
        let found = found?;
        add_entry(rt, &found, &mut entries)?;
        bytes = bytes.saturating_add(last_length(entries.as_slice()));
        datagrams = datagrams.saturating_add(u64::from(names_datagram(found.file_name())));
        watch.watch(bytes, datagrams);
    }
    Ok(entries)
}

// Returns the fault of a folder that can't be read.
fn fault_of(error: &io::Error) -> CommandFault
    ensures { result ≡ read_fault (error_kind error.now) }
{
    match error.kind() {
        ErrorKind::OutOfMemory => CommandFault::Memory,
        _ => CommandFault::Read,
    }
}

// Writes the report of exactly the entries that were read, and returns its status. If they can't be read, it returns
// the fault and writes nothing.
fn check_read<K: Sink>(
    alloc: Global,
    read: io::Result<Vec<Entry>>,
    sink: &mut K,
) -> Result<u8, CommandFault>
    ensures told { IfOk read (λ entries. IfOk result (PrintsReport entries.items (K.held sink.old) (K.held sink.new))) }
    ensures unread { IfErr read (λ error. (result ≡ Err (read_fault (error_kind error))) × (sink.new ≡ sink.old)) }
    ensures fault { IfErr result (λ fault. fault ≡ CommandFault.Read → sink.new ≡ sink.old) }
    ensures failures { CountsFolder (K.failed sink.old) (K.failed sink.new) result }
{
    match read {
        Ok(entries) => check_entries(alloc, entries.as_slice(), sink),
        Err(error) => Err(fault_of(&error)),
    }
}

/// Reads the entries of the folder. Of those that are not datagrams, only the names are read. The contract does not
/// specify which entries the folder has: the system lists them. `watch` is called after each entry.
///
/// `Read` is returned if the folder or a datagram in it can't be read, or if the name of any entry is not UTF-8.
pub fn read_folder<R: Files + AllocGlobal + Clone + Drop, W: Watch>(
    rt: &R,
    folder: &str,
    watch: &mut W,
) -> Result<Vec<Entry>, CommandFault>
    ensures { IfErr result (λ fault. fault ≡ CommandFault.Write → ⊥) }
{
    match read_entries(rt, folder, watch) {
        Ok(entries) => Ok(entries),
        Err(error) => Err(fault_of(&error)),
    }
}

/// Reads the folder, writes the report of `check_entries` to the sink, and returns the status of that function.
///
/// `Read` is returned if the folder or a datagram in it can't be read, or if the name of any entry is not UTF-8.
/// Nothing is written then. The contract does not specify which entries the folder has: the system lists them. `watch` is
/// called after each entry.
pub fn check_folder<R: Files + AllocGlobal + Clone + Drop, K: Sink, W: Watch>(
    rt: &R,
    folder: &str,
    watch: &mut W,
    sink: &mut K,
) -> Result<u8, CommandFault>
    ensures told { IfOk result (PrintsEntries (K.held sink.old) (K.held sink.new)) }
    ensures unread { IfErr result (λ fault. fault ≡ CommandFault.Read → sink.new ≡ sink.old) }
    ensures failures { CountsFolder (K.failed sink.old) (K.failed sink.new) result }
{
    check_read(rt.alloc(), read_entries(rt, folder, watch), sink)
}
