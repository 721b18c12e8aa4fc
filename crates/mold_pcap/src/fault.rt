//! The faults of a capture, and the errors of its reader.

ghost use Rattle.std.specs.Prelude.{◌≡◌};

use mold_devices::DeviceFault;
use thiserror::Error;

/// Why the bytes are not a whole capture. `at` is the offset of the byte at which the part at fault begins: a record, a
/// block, or the head of the file. It stays at `u64::MAX` once it is there.
#[derive(Clone, Copy, Debug, PartialEq, Eq, Error)]
pub enum CaptureFault {
    /// The capture ends within this part. An empty file ends within its head, so it is `Cut` at 0.
    #[error("the capture ends within the part at byte {at}")]
    Cut { at: u64 },
    /// The record has more than `MAX_CAPTURED` captured bytes, or the section header, interface description or packet
    /// block has a total length above `MAX_BLOCK`.
    #[error("the part at byte {at} is too long")]
    TooLong { at: u64 },
    /// The block's total length is not a multiple of 4, is too short for its kind, or differs from the length at its
    /// end. Otherwise its packet does not fit into it, or its byte-order magic is not one.
    #[error("the block at byte {at} is malformed")]
    BadBlock { at: u64 },
    /// The packet's interface was not described in its section, or is not among the first `MAX_INTERFACES`.
    #[error("the packet at byte {at} is of an unknown interface")]
    NoInterface { at: u64 },
    /// The file begins neither as classic pcap of version 2 nor as pcapng.
    #[error("the file is not a capture")]
    NoCapture,
}

/// Why the next frame of a capture was not read.
#[derive(Clone, Copy, Debug, PartialEq, Eq, Error)]
pub enum CaptureError {
    /// The source failed.
    #[error("a read failed")]
    Read,
    /// The bytes of the capture have this fault.
    #[error("{0}")]
    Fault(CaptureFault),
}

impl From<DeviceFault> for CaptureError {
    ghost use Rattle.std.specs.Prelude.{◌≡◌};
    ghost use Rattle.mold_pcap.specs.declared.fault.CaptureError.TheVariants.{Read};

    ghost from_gives = { λ _ error. error ≡ Read };

    /// Returns `Read`, the error for a source that failed.
    fn from(_fault: DeviceFault) -> CaptureError {
        CaptureError::Read
    }
}
