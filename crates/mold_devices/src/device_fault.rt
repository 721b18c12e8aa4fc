//! The fault of a device.

use thiserror::Error;

/// A call of a device failed. The device's count of failures states how often.
#[derive(Clone, Copy, Debug, PartialEq, Eq, Error)]
#[error("a device failed")]
pub struct DeviceFault;
