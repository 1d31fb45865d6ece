//! Why no link and no inbox can be made.
ghost use Rattle.std.specs.Prelude.{◌≡◌, Some};
ghost use Rattle.cq_link.specs.Faults.{code_of, name_of};
ghost use Rattle.cq_link.specs.declared.fault.LinkFault.TheVariants as faults;

use std::alloc::AllocError;
use std::fmt;

/// Why a link or an inbox isn't made.
#[derive(Clone, Copy, Debug, PartialEq, Eq)]
pub enum LinkFault {
    /// The capacity is 0 or above 65,536.
    BadCapacity,
    /// No memory was left.
    NoMemory,
}

impl LinkFault {
    /// The number that stands for the fault in what the program prints.
    pub fn code(&self) -> u16
        ensures { result ≡ code_of self.now }
    {
        match self {
            LinkFault::BadCapacity => 81,
            LinkFault::NoMemory => 20,
        }
    }

    /// The fault's name.
    pub fn name(&self) -> &'static str
        ensures { result.now ≡ name_of self.now }
    {
        match self {
            LinkFault::BadCapacity => "BadCapacity",
            LinkFault::NoMemory => "NoMemory",
        }
    }
}

impl fmt::Display for LinkFault {
    ghost output = { λ fault. Some (name_of fault) };

    fn fmt<W: fmt::Write>(&self, f: &mut fmt::Formatter<W>) -> fmt::Result {
        f.write_str(self.name())
    }
}

impl From<AllocError> for LinkFault {
    ghost from_gives = { λ _ fault. fault ≡ faults.NoMemory };

    fn from(_error: AllocError) -> LinkFault {
        LinkFault::NoMemory
    }
}
