//! Why a journal wasn't opened.
ghost use Rattle.std.specs.Prelude.{◌≡◌};
ghost use Rattle.cq_journal.specs.declared.fault.OpenFault.TheVariants as faults;
ghost use Rattle.cq_journal.specs.Faults.{open_fault_of_device, open_fault_of_log, open_fault_of_read};

use cq_disk::DeviceFault;
use cq_records::{LogFault, ReadFault};
use std::alloc::{AllocError, AllocFailed};
use thiserror::Error;

/// Why a journal wasn't opened, not made ready for records, or not copied.
#[derive(Clone, Copy, Debug, PartialEq, Eq, Error)]
pub enum OpenFault {
    /// There is no root: the device is no journal, or it is blank.
    #[error("there is no journal")]
    NoJournal,
    /// Bytes changed behind the journal's back, in its root or in the records of the region that grows.
    #[error("the journal is damaged")]
    Damaged,
    /// There is no free region. Nothing was changed.
    #[error("there is no free region")]
    Full,
    #[error("out of memory")]
    NoMemory,
    #[error("the device failed")]
    Failed,
}

impl From<LogFault> for OpenFault {
    ghost from_gives = { λ fault it. it ≡ open_fault_of_log fault };

    fn from(fault: LogFault) -> OpenFault {
        match fault {
            LogFault::Full => OpenFault::Full,
            LogFault::NoMemory => OpenFault::NoMemory,
            LogFault::Failed => OpenFault::Failed,
        }
    }
}

impl From<ReadFault> for OpenFault {
    ghost from_gives = { λ fault it. it ≡ open_fault_of_read fault };

    fn from(fault: ReadFault) -> OpenFault {
        match fault {
            ReadFault::Damaged => OpenFault::Damaged,
            ReadFault::NoMemory => OpenFault::NoMemory,
            ReadFault::Failed => OpenFault::Failed,
        }
    }
}

impl From<DeviceFault> for OpenFault {
    ghost from_gives = { λ fault it. it ≡ open_fault_of_device fault };

    fn from(fault: DeviceFault) -> OpenFault {
        match fault {
            DeviceFault::NoMemory => OpenFault::NoMemory,
            DeviceFault::Failed => OpenFault::Failed,
        }
    }
}

impl From<AllocError> for OpenFault {
    ghost from_gives = { λ _ it. it ≡ faults.NoMemory };

    fn from(_error: AllocError) -> OpenFault {
        OpenFault::NoMemory
    }
}

impl<T: Drop> From<AllocFailed<T>> for OpenFault {
    ghost from_gives = { λ _ it. it ≡ faults.NoMemory };

    fn from(_error: AllocFailed<T>) -> OpenFault {
        OpenFault::NoMemory
    }
}

/// Why a region wasn't read.
#[derive(Clone, Copy, Debug, PartialEq, Eq, Error)]
pub enum RegionFault {
    /// Bytes changed behind the journal's back: the frame at this place of the device has a text that its checksum isn't of.
    #[error("the record at byte {0} is damaged")]
    Damaged(usize),
    #[error("out of memory")]
    NoMemory,
    #[error("the device failed")]
    Failed,
}
