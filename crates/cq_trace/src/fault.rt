//! Why traces have no order.
ghost use Rattle.std.specs.Prelude.{◌≡◌, Some};
ghost use Rattle.cq_trace.specs.Faults.{code_of, name_of};
ghost use Rattle.cq_trace.specs.declared.fault.AuditFault.TheVariants as faults;

use cq_base::{NoMemory as OutOfMemory, Party};
use std::alloc::{AllocError, AllocFailed};
use std::fmt;

/// Why an audit gives no order.
#[derive(Debug, Drop)]
pub enum AuditFault {
    /// These parties have events left, and the next event of none of them is enabled. Each is named once, in the order of
    /// the traces.
    NoNextEvent(Vec<Party>),
    /// The trace of that number, from 1, is the first that has an event of another party, or the party of an earlier
    /// trace.
    BadTrace(u64),
    /// No memory was left.
    NoMemory,
}

impl AuditFault {
    /// The number that stands for the fault in what the program prints.
    pub fn code(&self) -> u16
        ensures { result ≡ code_of self.now }
    {
        match self {
            AuditFault::NoNextEvent(_) => 51,
            AuditFault::BadTrace(_) => 52,
            AuditFault::NoMemory => 20,
        }
    }

    /// The fault's name.
    pub fn name(&self) -> &'static str
        ensures { result.now ≡ name_of self.now }
    {
        match self {
            AuditFault::NoNextEvent(_) => "NoNextEvent",
            AuditFault::BadTrace(_) => "BadTrace",
            AuditFault::NoMemory => "NoMemory",
        }
    }
}

impl fmt::Display for AuditFault {
    ghost output = { λ fault. Some (name_of fault) };

    fn fmt<W: fmt::Write>(&self, f: &mut fmt::Formatter<W>) -> fmt::Result {
        f.write_str(self.name())
    }
}

impl From<OutOfMemory> for AuditFault {
    ghost from_gives = { λ _ fault. fault ≡ faults.NoMemory };

    fn from(_error: OutOfMemory) -> AuditFault {
        AuditFault::NoMemory
    }
}
