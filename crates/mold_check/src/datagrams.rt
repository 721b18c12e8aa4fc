//! Finds the datagrams among the entries of a folder, and puts them in order.

ghost use Rattle.std.specs.Prelude.{◌≡◌, map, string_bytes, IfOk};
ghost use Rattle.std.specs.Cmp.Lexicographic.{slice_cmp};
ghost use Rattle.std.specs.List.{filter};
ghost use Rattle.std.specs.Ordering.{nat_cmp};
ghost use Rattle.mold_check.specs.Entries.{IsOrder, bytes_of, is_datagram, name_of, names_datagram};

use crate::entry::Entry;
use std::alloc::{AllocError, Global};
use std::cmp::Ordering;

// The ending of a datagram's name.
const ENDING: &[u8] = b".pkt";

/// Returns whether an entry with this name is a datagram: the bytes of the name end in those of `.pkt`.
pub fn names_datagram(name: &str) -> bool
    ensures { result ≡ names_datagram name.now }
{
    name.as_bytes().ends_with(ENDING)
}

fn is_datagram(entry: &Entry) -> bool
    ensures { result ≡ is_datagram entry.now }
{
    names_datagram(entry.name.as_str())
}

fn by_name(one: &Entry, other: &Entry) -> Ordering
    ensures { result ≡ slice_cmp nat_cmp (name_of one.now) (name_of other.now) }
{
    one.name
        .as_str()
        .as_bytes()
        .cmp(other.name.as_str().as_bytes())
}

// The datagrams, in the order of the entries.
fn find_datagrams<'a>(alloc: Global, entries: &'a [Entry]) -> Result<Vec<&'a Entry>, AllocError>
    ensures { IfOk result (λ found. map (λ e. e.now) found.items ≡ filter is_datagram entries.now) }
{
    entries
        .iter()
        .filter(|entry| is_datagram(entry))
        .collect(alloc)
}

/// Returns the datagrams in ascending order of the bytes of their names. They are borrowed, not copied. It
/// returns an error if an allocation fails.
pub(crate) fn sorted_datagrams<'a>(
    alloc: Global,
    entries: &'a [Entry],
) -> Result<Vec<&'a Entry>, AllocError>
    ensures { IfOk result (λ order. IsOrder entries.now (map (λ e. e.now) order.items)) }
{
    let mut order = find_datagrams(alloc, entries)?;
    order.sort_unstable_by(|one, other| by_name(one, other));
    Ok(order)
}

/// Returns the bytes of the entries, borrowed. It returns an error if an allocation fails.
pub(crate) fn lend_bytes<'a>(
    alloc: Global,
    order: &[&'a Entry],
) -> Result<Vec<&'a [u8]>, AllocError>
    ensures { IfOk result (λ list. map (λ b. b.now) list.items ≡ map (λ e. bytes_of e.now) order.now) }
{
    order
        .iter()
        .map(|entry| entry.bytes.as_slice())
        .collect(alloc)
}
