//! Two writers of a file. `tests/durable` and `tests/program-checks` have all else that is done with files.

use crate::comparisons::holds;
use crate::journals::SESSION;
use mold_durable::{JournalFileError, ReplacedFile, create_file, open_file};
use std::fs;
use std::io::Write;
use std::test::Fail;

const PATH: &str = "test_durable.moldjnl";

fn is_not_created(rt: &HostRuntime) -> bool {
    matches!(create_file(rt, PATH, SESSION, 42), Ok(None))
}

fn is_locked(rt: &HostRuntime) -> bool {
    matches!(open_file(rt, PATH), Err(JournalFileError::Locked))
}

// Whether a second writer is refused, and so is opening or creating the file again.
fn is_refused(rt: &HostRuntime, second: &mut ReplacedFile<'_>) -> bool {
    second.write(b"new").is_err() && is_locked(rt) && is_not_created(rt)
}

// The same after the file was created.
fn is_kept(rt: &HostRuntime, second: &mut ReplacedFile<'_>) -> Result<bool, Fail> {
    let journal = create_file(rt, PATH, SESSION, 42)?;
    let is_kept = is_refused(rt, second);
    drop(journal);
    Ok(is_kept)
}

#[test]
fn a_file_that_another_writer_creates_is_not_replaced(rt: HostRuntime) -> Result<(), Fail> {
    let _ = fs::remove_file(&rt, PATH);
    let mut second = ReplacedFile::open(&rt, PATH)?;
    holds(&rt, is_kept(&rt, &mut second)? && second.is_locked());
    let content = fs::read(&rt, PATH)?;
    holds(
        &rt,
        content.as_slice() == b"MOLDJNL3SESSION001\0".as_slice(),
    );
    fs::remove_file(&rt, PATH)?;
    Ok(())
}
