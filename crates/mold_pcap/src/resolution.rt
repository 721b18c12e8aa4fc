//! The resolution of a classic capture.

/// The unit of the fractions of a second in a classic capture.
#[derive(Clone, Copy)]
pub enum Resolution {
    /// A fraction counts microseconds.
    Microseconds,
    /// A fraction counts nanoseconds.
    Nanoseconds,
}
