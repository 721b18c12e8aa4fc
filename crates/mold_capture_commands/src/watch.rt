//! Watches the reading of captures and folders.

/// What is called while a capture or a folder is read, so that a program can report the progress. It has no effect on
/// the outcome.
pub trait Watch {
    /// Is called after each frame of a capture or entry of a folder. `bytes` is the number of bytes of this capture or
    /// folder so far, `datagrams` the number of datagrams so far that passed the filters. Both stay at `u64::MAX` once
    /// they are there.
    fn watch(&mut self, bytes: u64, datagrams: u64);
}
