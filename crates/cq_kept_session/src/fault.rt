//! Why a kept session ends, or takes nothing.
ghost use Rattle.std.specs.Prelude.{◌≡◌};
ghost use Rattle.cq_records.specs.declared.fault.LogFault.TheVariants as log;
ghost use Rattle.cq_kept_session.specs.declared.fault.TakeFault.TheVariants as take;

use cq_base::NoMemory;
use cq_journal::{OpenFault, RegionFault};
use cq_records::LogFault;
use cq_script::ScriptFault;
use cq_wire::ReadFault;
use std::alloc::{AllocError, AllocFailed};
use thiserror::Error;

/// Why a session wasn't begun.
#[derive(Clone, Copy, Debug, PartialEq, Eq, Error)]
pub enum StartFault {
    /// The journal wasn't opened.
    #[error("{0}")]
    Open(OpenFault),
    /// It is of a session on another number of servers.
    #[error("the journal is of a session on another number of servers")]
    OtherSize,
    /// Its lines weren't read.
    #[error("{0}")]
    Read(RegionFault),
    /// They weren't run.
    #[error("{0}")]
    Run(ScriptFault),
    /// The journal wasn't made, or the end of a line that was cut off wasn't kept.
    #[error("{0}")]
    Write(LogFault),
}

impl From<OpenFault> for StartFault {
    fn from(fault: OpenFault) -> StartFault {
        StartFault::Open(fault)
    }
}

impl From<RegionFault> for StartFault {
    fn from(fault: RegionFault) -> StartFault {
        StartFault::Read(fault)
    }
}

impl From<ScriptFault> for StartFault {
    fn from(fault: ScriptFault) -> StartFault {
        StartFault::Run(fault)
    }
}

impl From<LogFault> for StartFault {
    fn from(fault: LogFault) -> StartFault {
        StartFault::Write(fault)
    }
}

impl From<ReadFault> for StartFault {
    fn from(fault: ReadFault) -> StartFault {
        match fault {
            ReadFault::NoMemory => StartFault::Run(ScriptFault::NoMemory),
            ReadFault::Bad(_) => StartFault::Open(OpenFault::Damaged),
        }
    }
}

impl From<NoMemory> for StartFault {
    fn from(_fault: NoMemory) -> StartFault {
        StartFault::Run(ScriptFault::NoMemory)
    }
}

/// Why a chunk wasn't answered.
#[derive(Clone, Copy, Debug, PartialEq, Eq, Error)]
pub enum TakeFault {
    /// It wasn't kept. Nothing of it was run, and nothing was written. After `Full` the session goes on.
    #[error("{0}")]
    NotKept(LogFault),
    /// It is kept, and the session ends: it wasn't run to its end, or not all that comes of it was written.
    #[error("{0}")]
    NotTold(ScriptFault),
}

impl From<LogFault> for TakeFault {
    ghost from_gives = { λ fault it. it ≡ take.NotKept fault };

    fn from(fault: LogFault) -> TakeFault {
        TakeFault::NotKept(fault)
    }
}

impl From<AllocError> for TakeFault {
    ghost from_gives = { λ _ it. it ≡ take.NotKept log.NoMemory };

    fn from(_error: AllocError) -> TakeFault {
        TakeFault::NotKept(LogFault::NoMemory)
    }
}

impl<T: Drop> From<AllocFailed<T>> for TakeFault {
    ghost from_gives = { λ _ it. it ≡ take.NotKept log.NoMemory };

    fn from(_error: AllocFailed<T>) -> TakeFault {
        TakeFault::NotKept(LogFault::NoMemory)
    }
}

impl From<NoMemory> for TakeFault {
    ghost from_gives = { λ _ it. it ≡ take.NotKept log.NoMemory };

    fn from(_fault: NoMemory) -> TakeFault {
        TakeFault::NotKept(LogFault::NoMemory)
    }
}

impl From<ScriptFault> for TakeFault {
    ghost from_gives = { λ fault it. it ≡ take.NotTold fault };

    fn from(fault: ScriptFault) -> TakeFault {
        TakeFault::NotTold(fault)
    }
}

/// Why a session ended before its reader did.
#[derive(Clone, Copy, Debug, PartialEq, Eq, Error)]
pub enum ServeFault {
    /// The reader failed, or gave more than can be counted. All that came before is answered.
    #[error("{0}")]
    Read(ScriptFault),
    /// Lines weren't taken.
    #[error("{0}")]
    Take(TakeFault),
    /// A base wasn't written. All that came before is answered.
    #[error("{0}")]
    Rewrite(LogFault),
}

impl From<TakeFault> for ServeFault {
    fn from(fault: TakeFault) -> ServeFault {
        ServeFault::Take(fault)
    }
}

impl From<LogFault> for ServeFault {
    fn from(fault: LogFault) -> ServeFault {
        ServeFault::Rewrite(fault)
    }
}
