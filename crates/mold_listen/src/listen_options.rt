//! The options of a listener.

use mold_input::MessageFormat;

/// The options of a listener.
#[derive(Clone, Copy)]
pub struct ListenOptions<P: Copy> {
    /// The address of the re-request server.
    pub server: P,
    /// The most responses that are received for one request.
    pub burst: u16,
    /// The most turns that are made.
    pub turns: u64,
    /// Whether reports of both lines are printed before the last line.
    pub reporting: bool,
    /// The format in which messages are printed.
    pub format: MessageFormat,
}
