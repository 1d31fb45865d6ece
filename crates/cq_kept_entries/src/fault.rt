//! Why a journal of entries wasn't begun.
ghost use Rattle.std.specs.Prelude.{◌≡◌};
ghost use Rattle.cq_kept_entries.specs.Faults.{start_fault_of_read};
ghost use Rattle.cq_kept_entries.specs.declared.fault.StartFault.TheVariants as faults;

use cq_base::NoMemory;
use cq_journal::{OpenFault, RegionFault};
use cq_records::LogFault;
use cq_wire::ReadFault;
use std::alloc::{AllocError, AllocFailed};
use thiserror::Error;

/// Why a journal of entries wasn't begun.
#[derive(Clone, Copy, Debug, PartialEq, Eq, Error)]
pub enum StartFault {
    /// The journal wasn't opened.
    #[error("{0}")]
    Open(OpenFault),
    /// What it has wasn't read.
    #[error("{0}")]
    Read(RegionFault),
    /// What it has are no entries.
    #[error("the journal has no entries")]
    NoEntries,
    /// There was no memory for the store.
    #[error("out of memory")]
    NoMemory,
    /// The journal wasn't made, or the first piece of it wasn't kept.
    #[error("{0}")]
    Write(LogFault),
}

impl From<OpenFault> for StartFault {
    ghost from_gives = { λ fault it. it ≡ faults.Open fault };

    fn from(fault: OpenFault) -> StartFault {
        StartFault::Open(fault)
    }
}

impl From<RegionFault> for StartFault {
    ghost from_gives = { λ fault it. it ≡ faults.Read fault };

    fn from(fault: RegionFault) -> StartFault {
        StartFault::Read(fault)
    }
}

impl From<LogFault> for StartFault {
    ghost from_gives = { λ fault it. it ≡ faults.Write fault };

    fn from(fault: LogFault) -> StartFault {
        StartFault::Write(fault)
    }
}

impl From<ReadFault> for StartFault {
    ghost from_gives = { λ fault it. it ≡ start_fault_of_read fault };

    fn from(fault: ReadFault) -> StartFault {
        match fault {
            ReadFault::NoMemory => StartFault::NoMemory,
            ReadFault::Bad(_) => StartFault::NoEntries,
        }
    }
}

impl From<NoMemory> for StartFault {
    ghost from_gives = { λ _ it. it ≡ faults.NoMemory };

    fn from(_fault: NoMemory) -> StartFault {
        StartFault::NoMemory
    }
}

impl From<AllocError> for StartFault {
    ghost from_gives = { λ _ it. it ≡ faults.NoMemory };

    fn from(_error: AllocError) -> StartFault {
        StartFault::NoMemory
    }
}

impl<T: Drop> From<AllocFailed<T>> for StartFault {
    ghost from_gives = { λ _ it. it ≡ faults.NoMemory };

    fn from(_error: AllocFailed<T>) -> StartFault {
        StartFault::NoMemory
    }
}
