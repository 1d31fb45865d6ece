//! Why a value of these types can't be had.
ghost use Rattle.std.specs.Prelude.{◌≡◌, Some, codes};
ghost use Rattle.cq_base.specs.declared.fault.BaseFault.TheVariants as faults;
ghost use Rattle.cq_base.specs.Fault.{code_of, name_of};

use std::alloc::{AllocError, AllocFailed};
use std::fmt;

/// A growth was refused: the allocator had no memory.
#[derive(Clone, Copy, Debug, PartialEq, Eq)]
pub struct NoMemory;

impl From<AllocError> for NoMemory {
    fn from(_error: AllocError) -> NoMemory {
        NoMemory
    }
}

impl<T: Drop> From<AllocFailed<T>> for NoMemory {
    fn from(_error: AllocFailed<T>) -> NoMemory {
        NoMemory
    }
}

impl fmt::Display for NoMemory {
    ghost output = { λ _. Some (codes "NoMemory") };

    fn fmt<W: fmt::Write>(&self, f: &mut fmt::Formatter<W>) -> fmt::Result {
        f.write_str("NoMemory")
    }
}

/// Why a value could not be made.
#[derive(Clone, Copy, Debug, PartialEq, Eq)]
pub enum BaseFault {
    /// The text is no queue name.
    BadQueueName,
    /// The text is no message group id.
    BadGroup,
    /// The text is no message deduplication id.
    BadDedup,
    /// The body has a character that a message may not have.
    InvalidMessageContents,
    /// The body is empty, or has more than 262,144 bytes.
    BodyLength,
    /// There was no memory for it.
    NoMemory,
}

impl BaseFault {
    /// The number under which the fault is told.
    pub fn code(&self) -> u16
        ensures { result ≡ code_of self.now }
    {
        match self {
            BaseFault::BadQueueName => 11,
            BaseFault::BadGroup => 12,
            BaseFault::BadDedup => 13,
            BaseFault::InvalidMessageContents => 14,
            BaseFault::BodyLength => 15,
            BaseFault::NoMemory => 20,
        }
    }

    /// The name under which the fault is told.
    pub fn name(&self) -> &'static str
        ensures { result.now ≡ name_of self.now }
    {
        match self {
            BaseFault::BadQueueName => "BadQueueName",
            BaseFault::BadGroup => "BadGroup",
            BaseFault::BadDedup => "BadDedup",
            BaseFault::InvalidMessageContents => "InvalidMessageContents",
            BaseFault::BodyLength => "BodyLength",
            BaseFault::NoMemory => "NoMemory",
        }
    }
}

impl From<AllocError> for BaseFault {
    ghost from_gives = { λ _ fault. fault ≡ faults.NoMemory };

    fn from(_error: AllocError) -> BaseFault {
        BaseFault::NoMemory
    }
}

impl fmt::Display for BaseFault {
    ghost output = { λ fault. Some (name_of fault) };

    fn fmt<W: fmt::Write>(&self, f: &mut fmt::Formatter<W>) -> fmt::Result {
        f.write_str(self.name())
    }
}
