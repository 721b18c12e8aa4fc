//! The system's number of a socket.

use itoa::Buffer;
use std::os::fd::RawFd;

/// The folder with a link for each descriptor of this process.
const FOLDER: &[u8] = b"/proc/self/fd/";

/// The bytes of a path or a link's text: these parts and a number of up to 20 digits.
const TEXT: usize = 40;

/// Returns the system's number of the socket, which is the same for each of its descriptors, or `None` if the system
/// does not report it or the descriptor is not an open socket.
pub(crate) fn socket_number(descriptor: RawFd) -> Option<u64> {
    let mut buffer = Buffer::new();
    let digits = buffer.format(descriptor).as_bytes();
    let end = FOLDER.len() + digits.len();
    let mut path = [0u8; TEXT];
    path[..FOLDER.len()].copy_from_slice(FOLDER);
    path[FOLDER.len()..end].copy_from_slice(digits);
    let mut link = [0u8; TEXT];
    let count = os::readlink(&path[..end], &mut link);
    number_in(link.get(..usize::try_from(count).ok()?)?)
}

// Returns the number in the text of a link to a socket.
fn number_in(link: &[u8]) -> Option<u64> {
    let digits = link.strip_prefix(b"socket:[")?.strip_suffix(b"]")?;
    str::from_utf8(digits).ok()?.parse().ok()
}
