//! The faults of a live run.
ghost use Rattle.std.specs.Prelude.{◌≡◌, false};
ghost use Rattle.cq_live.specs.Faults.{code_of, name_of, is_of_steps, hides_memory, of_threads, of_audit};
ghost use Rattle.cq_live.specs.declared.fault.LiveFault.TheVariants as faults;

use cq_base::NoMemory as OutOfMemory;
use cq_link::LinkFault;
use cq_threads::ThreadFault;
use cq_trace::AuditFault;
use std::alloc::{AllocError, AllocFailed};
use std::fmt;

/// Why a live run gives no report. Steps are counted from 1.
#[derive(Debug, Drop)]
pub enum LiveFault {
    /// A client ended before all its asks were answered, or a gate answered false.
    TurnLimit,
    /// The audit found no order of what the nodes did.
    AuditRefused(AuditFault),
    /// A thread could not be started.
    SpawnFailed,
    /// The step of that number can't be done.
    BadScript(u64),
    NoMemory,
}

impl LiveFault {
    /// The number that stands for the fault in what the program reports.
    pub fn code(&self) -> u16
        ensures { result ≡ code_of self.now }
    {
        match self {
            LiveFault::TurnLimit => 71,
            LiveFault::AuditRefused(_) => 72,
            LiveFault::SpawnFailed => 73,
            LiveFault::BadScript(_) => 74,
            LiveFault::NoMemory => 20,
        }
    }

    /// The fault's name.
    pub fn name(&self) -> &'static str
        ensures { result.now ≡ name_of self.now }
    {
        match self {
            LiveFault::TurnLimit => "TurnLimit",
            LiveFault::AuditRefused(_) => "AuditRefused",
            LiveFault::SpawnFailed => "SpawnFailed",
            LiveFault::BadScript(_) => "BadScript",
            LiveFault::NoMemory => "NoMemory",
        }
    }
}

impl fmt::Display for LiveFault {
    ghost use Rattle.std.specs.Prelude.{Some};

    ghost output = { λ fault. Some (name_of fault) };

    fn fmt<W: fmt::Write>(&self, f: &mut fmt::Formatter<W>) -> fmt::Result {
        f.write_str(self.name())
    }
}

impl From<OutOfMemory> for LiveFault {
    ghost from_gives = { λ _ fault. fault ≡ faults.NoMemory };

    fn from(_fault: OutOfMemory) -> LiveFault {
        LiveFault::NoMemory
    }
}

impl From<AllocError> for LiveFault {
    ghost from_gives = { λ _ fault. fault ≡ faults.NoMemory };

    fn from(_fault: AllocError) -> LiveFault {
        LiveFault::NoMemory
    }
}

impl<T: Drop> From<AllocFailed<T>> for LiveFault {
    ghost from_gives = { λ _ fault. fault ≡ faults.NoMemory };

    fn from(_fault: AllocFailed<T>) -> LiveFault {
        LiveFault::NoMemory
    }
}

impl From<LinkFault> for LiveFault {
    ghost from_gives = { λ _ fault. fault ≡ faults.NoMemory };

    /// All links of a run have a capacity that is good.
    fn from(_fault: LinkFault) -> LiveFault {
        LiveFault::NoMemory
    }
}

impl From<ThreadFault> for LiveFault {
    ghost from_gives = { λ fault it. (it ≡ of_threads fault) × (is_of_steps it ≡ false) × (hides_memory it ≡ false) };

    fn from(fault: ThreadFault) -> LiveFault {
        match fault {
            ThreadFault::SpawnFailed => LiveFault::SpawnFailed,
            ThreadFault::NoMemory => LiveFault::NoMemory,
        }
    }
}

impl From<AuditFault> for LiveFault {
    ghost from_gives = { λ fault it. (it ≡ of_audit fault) × (is_of_steps it ≡ false) × (hides_memory it ≡ false) };

    /// An audit that found no memory is told as that.
    fn from(fault: AuditFault) -> LiveFault {
        match fault {
            AuditFault::NoMemory => LiveFault::NoMemory,
            AuditFault::NoNextEvent(parties) => {
                LiveFault::AuditRefused(AuditFault::NoNextEvent(parties))
            }
            AuditFault::BadTrace(number) => {
                LiveFault::AuditRefused(AuditFault::BadTrace(number))
            }
        }
    }
}
