//! Why a log didn't do what it was asked.
ghost use Rattle.std.specs.Prelude.{◌≡◌};
ghost use Rattle.cq_disk.specs.declared.fault.DeviceFault.TheVariants as device;
ghost use Rattle.cq_records.specs.declared.fault.LogFault.TheVariants as log;
ghost use Rattle.cq_records.specs.declared.fault.ReadFault.TheVariants as read;
ghost use Rattle.cq_records.specs.Faults.{log_fault_of, read_fault_of};

use cq_disk::DeviceFault;
use std::alloc::{AllocError, AllocFailed};
use thiserror::Error;

/// Why records weren't written.
#[derive(Clone, Copy, Debug, PartialEq, Eq, Error)]
pub enum LogFault {
    /// They are longer than what is left of the device. Nothing was written.
    #[error("the log is full")]
    Full,
    #[error("out of memory")]
    NoMemory,
    #[error("the device failed")]
    Failed,
}

impl From<DeviceFault> for LogFault {
    ghost from_gives = { λ fault it. it ≡ log_fault_of fault };

    fn from(fault: DeviceFault) -> LogFault {
        match fault {
            DeviceFault::NoMemory => LogFault::NoMemory,
            DeviceFault::Failed => LogFault::Failed,
        }
    }
}

impl From<AllocError> for LogFault {
    ghost from_gives = { λ _ it. it ≡ log.NoMemory };

    fn from(_error: AllocError) -> LogFault {
        LogFault::NoMemory
    }
}

impl<T: Drop> From<AllocFailed<T>> for LogFault {
    ghost from_gives = { λ _ it. it ≡ log.NoMemory };

    fn from(_error: AllocFailed<T>) -> LogFault {
        LogFault::NoMemory
    }
}

/// Why a record wasn't read.
#[derive(Clone, Copy, Debug, PartialEq, Eq, Error)]
pub enum ReadFault {
    /// A whole frame has a text that its checksum isn't of: bytes changed behind the log's back.
    #[error("a record is damaged")]
    Damaged,
    #[error("out of memory")]
    NoMemory,
    #[error("the device failed")]
    Failed,
}

impl From<DeviceFault> for ReadFault {
    ghost from_gives = { λ fault it. it ≡ read_fault_of fault };

    fn from(fault: DeviceFault) -> ReadFault {
        match fault {
            DeviceFault::NoMemory => ReadFault::NoMemory,
            DeviceFault::Failed => ReadFault::Failed,
        }
    }
}

impl From<AllocError> for ReadFault {
    ghost from_gives = { λ _ it. it ≡ read.NoMemory };

    fn from(_error: AllocError) -> ReadFault {
        ReadFault::NoMemory
    }
}

impl<T: Drop> From<AllocFailed<T>> for ReadFault {
    ghost from_gives = { λ _ it. it ≡ read.NoMemory };

    fn from(_error: AllocFailed<T>) -> ReadFault {
        ReadFault::NoMemory
    }
}
