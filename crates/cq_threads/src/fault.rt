//! What can keep nodes from running.
ghost use Rattle.std.specs.Prelude.{◌≡◌};
ghost use Rattle.cq_threads.specs.declared.fault.ThreadFault.TheVariants as faults;

use std::alloc::{AllocError, AllocFailed};
use thiserror::Error;

/// Why nodes didn't run on threads.
#[derive(Clone, Copy, Debug, PartialEq, Eq, Error)]
pub enum ThreadFault {
    /// A thread couldn't be started.
    #[error("a thread could not be started")]
    SpawnFailed,
    /// There was no memory.
    #[error("no memory")]
    NoMemory,
}

impl From<AllocError> for ThreadFault {
    ghost from_gives = { λ _ fault. fault ≡ faults.NoMemory };

    fn from(_fault: AllocError) -> ThreadFault {
        ThreadFault::NoMemory
    }
}

impl<T: Drop> From<AllocFailed<T>> for ThreadFault {
    ghost from_gives = { λ _ fault. fault ≡ faults.NoMemory };

    fn from(_fault: AllocFailed<T>) -> ThreadFault {
        ThreadFault::NoMemory
    }
}
