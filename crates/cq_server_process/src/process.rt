//! A process that keeps one server of a chain.
ghost use Rattle.std.specs.Prelude.{◌≡◌, ◌≤◌, List, Ok, Some, option_map, vec_capacity, vec_len, IfOk, OnErr, OnOk};
ghost use Rattle.cq_base.specs.declared.ask.Entry as rust_entry;
ghost use Rattle.cq_base.specs.Relations.{IsPrefix};
ghost use Rattle.cq_chain.specs.Servers.{alone, first_member, joining};
ghost use Rattle.cq_frames.specs.Reading.{command_at};
ghost use Rattle.cq_server_process.specs.Answers.{IsNewProcess, TellsAnswer};
ghost use Rattle.cq_server_process.specs.Processes.{process_of};
ghost use Rattle.cq_store.specs.Stands as stores;
ghost use Rattle.cq_wire.specs.Reading.{whole_at};

use crate::answer::{answer, answer_read};
use crate::streams::Streams;
use cq_base::{ChainSize, NoMemory, ServerId};
use cq_chain::Server;
use cq_frames::Command;
use cq_process::Links;
use cq_process_frames::TooLong;
use cq_store::Store;
use std::alloc::Global;

/// A server of a chain, with its links to all others, and the streams of arrivals that have ended. It is told commands, and tells what
/// comes of them, as frames.
#[derive(Drop)]
pub struct ServerProcess {
    alloc: Global,
    links: Links,
    core: Server,
    streams: Streams,
}

impl ServerProcess {
    /// The server of that number in a first chain of so many. It keeps the allocator.
    pub fn first(alloc: Global, id: ServerId, size: ChainSize) -> Result<ServerProcess, NoMemory>
        requires { id ≤ size }
        ensures { IfOk result (λ process. IsNewProcess (first_member size id) (process_of process)) }
    {
        let core = Server::first(alloc, id, size)?;
        Ok(ServerProcess {
            alloc,
            links: Links::new(alloc),
            core,
            streams: Streams::new(),
        })
    }

    /// The server of that number, which joins a chain later. It keeps the allocator.
    pub fn joining(alloc: Global, id: ServerId) -> Result<ServerProcess, NoMemory>
        ensures { IfOk result (λ process. IsNewProcess joining (process_of process)) }
    {
        let core = Server::joining(alloc, id)?;
        Ok(ServerProcess {
            alloc,
            links: Links::new(alloc),
            core,
            streams: Streams::new(),
        })
    }

    /// The server of a chain of one, at rest, whose store that is. It keeps the allocator. O(1).
    pub fn alone(alloc: Global, store: Store) -> ServerProcess
        ensures { (entries : List rust_entry.Entry) → stores.StandsFor store entries → IsNewProcess (alone entries) (process_of result) }
    {
        ServerProcess {
            alloc,
            links: Links::new(alloc),
            core: Server::alone(alloc, store),
            streams: Streams::new(),
        }
    }

    /// Its server: O(1).
    pub fn core(&self) -> &Server
        ensures { result.now ≡ self.now.core }
    {
        &self.core
    }

    /// Answers the bytes of a frame, or a frame that was too long. What it tells is what comes behind `out`, and then `end`, which is
    /// to be empty and to have room for 64 bytes: so what has happened is told without memory. What it takes is what the command
    /// takes, and writing what it puts.
    ///
    /// `TooLong` comes where a piece is too long for a frame: what comes behind `out` then tells nothing, and the process has to end.
    pub fn answer_frame(
        &mut self,
        frame: Option<&[u8]>,
        out: &mut Vec<u8>,
        end: &mut Vec<u8>,
    ) -> Result<(), TooLong>
        requires empty { vec_len end.old ≡ 0 }
        requires room { 64 ≤ vec_capacity end.old }
        ensures tells { OnOk result (TellsAnswer (option_map (λ bytes. bytes.now) frame.entry) (process_of self.old) (process_of self.new) out.old.items out.new.items end.new.items) }
        ensures err { OnErr result (IsPrefix out.old.items out.new.items) }
        ensures capacity { vec_capacity end.old ≤ vec_capacity end.new }
    {
        answer(
            self.alloc,
            &mut self.links,
            &mut self.core,
            &mut self.streams,
            frame,
            out,
            end,
        )
    }

    /// Answers a command that was read of these bytes, as `answer_frame` answers the bytes.
    pub fn answer_command(
        &mut self,
        bytes: &[u8],
        command: &Command,
        out: &mut Vec<u8>,
        end: &mut Vec<u8>,
    ) -> Result<(), TooLong>
        requires read { whole_at command_at bytes.now ≡ Ok command.now }
        requires empty { vec_len end.old ≡ 0 }
        requires room { 64 ≤ vec_capacity end.old }
        ensures tells { OnOk result (TellsAnswer (Some bytes.now) (process_of self.old) (process_of self.new) out.old.items out.new.items end.new.items) }
        ensures front { OnOk result (IsPrefix out.old.items out.new.items) }
        ensures err { OnErr result (IsPrefix out.old.items out.new.items) }
        ensures capacity { vec_capacity end.old ≤ vec_capacity end.new }
    {
        answer_read(
            &mut self.links,
            &mut self.core,
            &mut self.streams,
            bytes,
            command,
            out,
            end,
        )
    }
}
