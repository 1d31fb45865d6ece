//! Why bytes weren't read.
ghost use Rattle.std.specs.Prelude.{◌≡◌};
ghost use Rattle.cq_wire.specs.Faults.{code_of, name_of, wire_code, wire_name};
ghost use Rattle.cq_wire.specs.declared.fault.ReadFault.TheVariants as faults;

use std::alloc::{AllocError, AllocFailed};
use thiserror::Error;

/// What is wrong with bytes: the first thing from left to right.
#[derive(Clone, Copy, Debug, PartialEq, Eq, Error)]
pub enum WireFault {
    #[error("the bytes end inside a value")]
    Truncated,
    /// It names no kind of value that may stand there, or is a flag and neither 0 nor 1.
    #[error("a byte is no tag")]
    BadTag,
    /// It isn't UTF-8, or no name, id or body where one has to stand.
    #[error("a text breaks the rules of its place")]
    BadText,
    /// It is no moment, timeout, size, part of a receipt or number of a refusal where one has to stand, or isn't in its order.
    #[error("a number breaks the rules of its place")]
    BadNumber,
    #[error("bytes are left over behind the value")]
    BytesLeft,
    #[error("the bytes are of another version")]
    OtherVersion,
}

impl WireFault {
    /// The number under which the fault is told.
    pub fn code(&self) -> u16
        ensures { result ≡ wire_code self.now }
    {
        match self {
            WireFault::Truncated => 91,
            WireFault::BadTag => 92,
            WireFault::BadText => 93,
            WireFault::BadNumber => 94,
            WireFault::BytesLeft => 95,
            WireFault::OtherVersion => 96,
        }
    }

    /// The name under which the fault is told.
    pub fn name(&self) -> &'static str
        ensures { result.now ≡ wire_name self.now }
    {
        match self {
            WireFault::Truncated => "Truncated",
            WireFault::BadTag => "BadTag",
            WireFault::BadText => "BadText",
            WireFault::BadNumber => "BadNumber",
            WireFault::BytesLeft => "BytesLeft",
            WireFault::OtherVersion => "OtherVersion",
        }
    }
}

/// Why bytes weren't read.
#[derive(Clone, Copy, Debug, PartialEq, Eq, Error)]
pub enum ReadFault {
    /// There was no memory for the value. The bytes may be good or bad.
    #[error("out of memory")]
    NoMemory,
    #[error("{0}")]
    Bad(WireFault),
}

impl ReadFault {
    /// The number under which the fault is told.
    pub fn code(&self) -> u16
        ensures { result ≡ code_of self.now }
    {
        match self {
            ReadFault::NoMemory => 20,
            ReadFault::Bad(fault) => fault.code(),
        }
    }

    /// The name under which the fault is told.
    pub fn name(&self) -> &'static str
        ensures { result.now ≡ name_of self.now }
    {
        match self {
            ReadFault::NoMemory => "NoMemory",
            ReadFault::Bad(fault) => fault.name(),
        }
    }
}

impl From<AllocError> for ReadFault {
    ghost from_gives = { λ _ fault. fault ≡ faults.NoMemory };

    fn from(_error: AllocError) -> ReadFault {
        ReadFault::NoMemory
    }
}

impl<T: Drop> From<AllocFailed<T>> for ReadFault {
    ghost from_gives = { λ _ fault. fault ≡ faults.NoMemory };

    fn from(_error: AllocFailed<T>) -> ReadFault {
        ReadFault::NoMemory
    }
}
