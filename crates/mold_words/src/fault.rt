//! The reasons why command-line arguments give no order.
ghost use Rattle.std.specs.Prelude.{◌≡◌};
ghost use Rattle.mold_words.specs.Faults.{fault_if_made, value_fault};
ghost use Rattle.mold_words.specs.declared.fault.UsageFault.TheVariants.{Memory};

use clap::error::ErrorKind;
use std::alloc::{AllocError, Global};
use thiserror::Error;

/// Why command-line arguments give no order.
#[derive(Debug, Drop, Error)]
pub enum UsageFault {
    /// Help is requested. The text is for standard output, with status 0.
    #[error("{text}")]
    Help { text: String },
    /// The version is requested. The text is one line for standard output, with status 0.
    #[error("{text}")]
    Version { text: String },
    /// The arguments are not a valid command. The text gives the reason, in whole lines.
    #[error("{text}")]
    Usage { text: String },
    /// The value of an option is not an address. The text names the option, in whole lines.
    #[error("{text}")]
    Address { text: String },
    /// An allocation failed.
    #[error("out of memory")]
    Memory,
}

impl From<AllocError> for UsageFault {
    ghost from_gives = { λ _ fault. fault ≡ Memory };

    /// Returns `Memory`, the fault for a failed allocation.
    fn from(_error: AllocError) -> UsageFault {
        UsageFault::Memory
    }
}

/// Returns the fault that reports an error of this kind. `text` is the error's text, if memory for it was available.
pub(crate) fn fault_for(kind: ErrorKind, text: Result<String, AllocError>) -> UsageFault
    ensures { result ≡ fault_if_made kind text }
{
    let Ok(text) = text else {
        return UsageFault::Memory;
    };
    match kind {
        ErrorKind::DisplayHelp => UsageFault::Help { text },
        ErrorKind::DisplayVersion => UsageFault::Version { text },
        ErrorKind::OutOfMemory => UsageFault::Memory,
        _ => UsageFault::Usage { text },
    }
}

/// Returns the fault that reports an invalid value of an option. `text` is the report, if memory for it was available.
pub(crate) fn value_fault(is_address: bool, text: Result<String, AllocError>) -> UsageFault
    ensures { result ≡ value_fault is_address text }
{
    match text {
        Ok(text) if is_address => UsageFault::Address { text },
        Ok(text) => UsageFault::Usage { text },
        Err(_) => UsageFault::Memory,
    }
}
