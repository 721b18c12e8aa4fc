//! Fast reading and writing of hexadecimal digits and decimal numbers. The results are those of the crate
//! `hex` and of the standard library.
#![tactic(auto)]

mod decoding;
mod digits;
mod encoding;
mod lanes;
mod number;
mod table;
mod writing;

pub use decoding::decode;
pub use digits::are_digits;
pub use number::read_number;
pub use writing::{
    MAX_DIGITS, MAX_LONG_DIGITS, write_bytes, write_long_number, write_number, write_text,
};
