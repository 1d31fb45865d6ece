//! What a process that keeps the master has: its core, and what it knows of the links to and from servers.
ghost use Rattle.std.specs.Prelude.{◌≡◌, ◌<◌, true, IfOk};
ghost use Rattle.cq_master_process.specs.Answering.{IsNew};
ghost use Rattle.cq_master_process.specs.Links.{taken_of};
ghost use Rattle.cq_master_process.specs.Steps.{is_in_turn};
ghost use Rattle.cq_process.specs.declared.outgoing.TheConstants.{LINK_LIMIT};

mod answer;
mod put;
mod step;
mod turns;

use crate::links::Links;
pub use answer::ANSWER_ROOM;
use cq_base::{ChainSize, NoMemory, ServerId};
use cq_chain::Master;
use cq_frames::PieceNumber;
use std::alloc::Global;

/// A message can't be told at all, and the process has to end. No message of a master is so long, or a snapshot, though the types
/// of messages don't say so.
#[derive(Clone, Copy, Debug, PartialEq, Eq)]
pub struct Unanswered;

/// The master of a chain, and for each server that was named the number of the last message that was taken from it and of the last
/// one that was put for it, and whether it is gone.
#[derive(Drop)]
pub struct MasterProcess {
    alloc: Global,
    core: Master,
    links: Links,
}

impl MasterProcess {
    /// The process of the master of a first chain, of so many servers: nothing came, nothing was put, and nobody is gone. It keeps
    /// the allocator.
    pub fn new(alloc: Global, size: ChainSize) -> Result<MasterProcess, NoMemory>
        ensures { IfOk result (λ process. IsNew process size) }
    {
        match Master::new(alloc, size) {
            Ok(core) => Ok(MasterProcess {
                alloc,
                core,
                links: Links::new(alloc),
            }),
            Err(_) => Err(NoMemory),
        }
    }

    /// Whether that piece is the next one of that server, and a message's first: O(1).
    fn is_in_turn(&self, from: ServerId, number: PieceNumber) -> bool
        ensures is { result ≡ is_in_turn self.now from number }
        ensures room { result ≡ true → taken_of self.now.links from < LINK_LIMIT }
    {
        if self.links.is_gone(from) {
            return false;
        }
        self.links.is_next(from, number)
    }
}
