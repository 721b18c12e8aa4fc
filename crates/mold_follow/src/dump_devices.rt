//! The devices of a dump that follows a file.

/// The clock and the outputs of a dump that follows a file.
#[derive(Drop)]
pub struct DumpDevices<P, K, E> {
    /// The clock, which waits between two looks at the file. It needs no port.
    pub clock: P,
    /// The output. A live sink has the text of each look when the next one begins.
    pub sink: K,
    /// The output for refusals if the messages are printed as blocks.
    pub errors: E,
}
