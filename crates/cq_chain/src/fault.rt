//! Why servers, the master, the world and clients refuse.
ghost use Rattle.std.specs.Prelude.{◌≡◌};
ghost use Rattle.cq_chain.specs.Faults.{code_of, name_of, client_code_of, client_name_of};
ghost use Rattle.cq_chain.specs.declared.fault.ClientFault.TheVariants as client_faults;
ghost use Rattle.cq_chain.specs.declared.fault.WorldFault.TheVariants as faults;

use cq_base::NoMemory as OutOfMemory;
use std::alloc::AllocError;
use thiserror::Error;

/// Why a server, the master or the world refuses what it is to do.
#[derive(Clone, Copy, Debug, PartialEq, Eq, Error)]
pub enum WorldFault {
    #[error("there is no such server")]
    NoSuchServer,
    #[error("the server is down")]
    ServerDown,
    #[error("nothing stands in the link")]
    LinkEmpty,
    #[error("nothing waits in the outbox")]
    OutboxEmpty,
    #[error("no other server is full and lives")]
    LastFull,
    #[error("the last member of the chain isn't ready")]
    JoinPending,
    #[error("the number was used before")]
    IdUsed,
    #[error("the chain has as many members as it may have")]
    ChainFull,
    #[error("the server isn't down")]
    NotDown,
    #[error("the server isn't the head")]
    NotHead,
    #[error("the history has as many entries as it may have")]
    HistoryFull,
    #[error("the server doesn't act as tail")]
    NotTail,
    #[error("out of memory")]
    NoMemory,
}

impl WorldFault {
    /// The number that stands for the fault in what the program prints.
    pub fn code(&self) -> u16
        ensures { result ≡ code_of self.now }
    {
        match self {
            WorldFault::NoSuchServer => 31,
            WorldFault::ServerDown => 32,
            WorldFault::LinkEmpty => 33,
            WorldFault::OutboxEmpty => 34,
            WorldFault::LastFull => 35,
            WorldFault::JoinPending => 36,
            WorldFault::IdUsed => 37,
            WorldFault::ChainFull => 38,
            WorldFault::NotDown => 39,
            WorldFault::NotHead => 40,
            WorldFault::HistoryFull => 41,
            WorldFault::NotTail => 42,
            WorldFault::NoMemory => 20,
        }
    }

    /// The fault's name.
    pub fn name(&self) -> &'static str
        ensures { result.now ≡ name_of self.now }
    {
        match self {
            WorldFault::NoSuchServer => "NoSuchServer",
            WorldFault::ServerDown => "ServerDown",
            WorldFault::LinkEmpty => "LinkEmpty",
            WorldFault::OutboxEmpty => "OutboxEmpty",
            WorldFault::LastFull => "LastFull",
            WorldFault::JoinPending => "JoinPending",
            WorldFault::IdUsed => "IdUsed",
            WorldFault::ChainFull => "ChainFull",
            WorldFault::NotDown => "NotDown",
            WorldFault::NotHead => "NotHead",
            WorldFault::HistoryFull => "HistoryFull",
            WorldFault::NotTail => "NotTail",
            WorldFault::NoMemory => "NoMemory",
        }
    }
}

impl From<AllocError> for WorldFault {
    ghost from_gives = { λ _ fault. fault ≡ faults.NoMemory };

    fn from(_error: AllocError) -> WorldFault {
        WorldFault::NoMemory
    }
}

impl From<OutOfMemory> for WorldFault {
    ghost from_gives = { λ _ fault. fault ≡ faults.NoMemory };

    fn from(_error: OutOfMemory) -> WorldFault {
        WorldFault::NoMemory
    }
}

/// Why a client refuses to ask.
#[derive(Clone, Copy, Debug, PartialEq, Eq, Error)]
pub enum ClientFault {
    #[error("a request is open")]
    Busy,
    #[error("all numbers were used")]
    NumbersSpent,
    #[error("out of memory")]
    NoMemory,
}

impl ClientFault {
    /// The number that stands for the fault in what the program prints.
    pub fn code(&self) -> u16
        ensures { result ≡ client_code_of self.now }
    {
        match self {
            ClientFault::Busy => 43,
            ClientFault::NumbersSpent => 44,
            ClientFault::NoMemory => 20,
        }
    }

    /// The fault's name.
    pub fn name(&self) -> &'static str
        ensures { result.now ≡ client_name_of self.now }
    {
        match self {
            ClientFault::Busy => "Busy",
            ClientFault::NumbersSpent => "NumbersSpent",
            ClientFault::NoMemory => "NoMemory",
        }
    }
}

impl From<AllocError> for ClientFault {
    ghost from_gives = { λ _ fault. fault ≡ client_faults.NoMemory };

    fn from(_error: AllocError) -> ClientFault {
        ClientFault::NoMemory
    }
}

impl From<OutOfMemory> for ClientFault {
    ghost from_gives = { λ _ fault. fault ≡ client_faults.NoMemory };

    fn from(_error: OutOfMemory) -> ClientFault {
        ClientFault::NoMemory
    }
}
