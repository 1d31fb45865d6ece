//! Why a device didn't do what it was asked.
ghost use Rattle.std.specs.Prelude.{◌≡◌};
ghost use Rattle.cq_disk.specs.declared.fault.DeviceFault.TheVariants.{NoMemory};

use std::alloc::{AllocError, AllocFailed};
use thiserror::Error;

#[derive(Clone, Copy, Debug, PartialEq, Eq, Error)]
pub enum DeviceFault {
    /// There was no memory. The device is as it was.
    #[error("out of memory")]
    NoMemory,
    /// A call of the device failed. What it left is one of the outcomes of a crash in that call.
    #[error("the device failed")]
    Failed,
}

impl From<AllocError> for DeviceFault {
    ghost from_gives = { λ _ fault. fault ≡ NoMemory };

    fn from(_error: AllocError) -> DeviceFault {
        DeviceFault::NoMemory
    }
}

impl<T: Drop> From<AllocFailed<T>> for DeviceFault {
    ghost from_gives = { λ _ fault. fault ≡ NoMemory };

    fn from(_error: AllocFailed<T>) -> DeviceFault {
        DeviceFault::NoMemory
    }
}
