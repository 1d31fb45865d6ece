//! A process that keeps a server, and tells copies of its store.
ghost use Rattle.std.specs.Prelude.{◌≡◌, ◌≤◌, ◌++◌, List, ℕ, [], None, Ok, Some, true, false, option_map, vec_capacity, vec_len, IfOk, OnErr, OnOk};
ghost use Rattle.cq_base.specs.Relations.{IsPrefix};
ghost use Rattle.cq_frames.specs.Reading.{command_at};
ghost use Rattle.cq_server_copies.specs.Saving.{Begins, SavesChunk, TellsAnswer, TellsSave};
ghost use Rattle.cq_wire.specs.Reading.{whole_at};

use crate::copy::StoreCopy;
use crate::tell::{Unsaved, tell_saved};
use cq_base::NoMemory;
use cq_chain::Server;
use cq_frames::{Command, NO_MEMORY, is_save};
use cq_process::standing;
use cq_process_frames::{TooLong, tell_done, tell_refused};
use cq_server_process::ServerProcess;
use std::alloc::Global;

/// A process that keeps a server, and the copy of its store of which some is told, if there is one.
#[derive(Drop)]
pub struct SavingProcess {
    alloc: Global,
    process: ServerProcess,
    copy: Option<StoreCopy>,
}

/// Tells the next chunk of the copy, which is gone behind the empty one, or where there is no memory.
fn tell_next(
    alloc: Global,
    copy: StoreCopy,
    out: &mut Vec<u8>,
) -> Result<Option<StoreCopy>, Unsaved>
    ensures ok { IfOk result (λ left. SavesChunk copy left out.old.items out.new.items) }
    ensures err { OnErr result (out.new.items ≡ out.old.items) }
{
    let mut copy = copy;
    let count = copy.count();
    let chunk = match copy.next_chunk(alloc) {
        Ok(chunk) => chunk,
        Err(_) => return Err(Unsaved::NoMemory),
    };
    let is_last = chunk.is_empty();
    match tell_saved(alloc, out, count, chunk) {
        Ok(()) => { if is_last { Ok(None) } else { Ok(Some(copy)) } }
        Err(fault) => Err(fault),
    }
}

impl SavingProcess {
    /// That process, of whose store no copy was made. It keeps the allocator.
    pub fn new(alloc: Global, process: ServerProcess) -> SavingProcess
        ensures process { result.process ≡ process }
        ensures copy { result.copy ≡ None }
    {
        SavingProcess {
            alloc,
            process,
            copy: None,
        }
    }

    /// Its server: O(1).
    pub fn core(&self) -> &Server
        ensures { result.now ≡ self.now.process.core }
    {
        self.process.core()
    }

    /// The copy of which something is to be told: the one that is there, or a new one. None is there behind it.
    fn take_copy(&mut self) -> Result<StoreCopy, NoMemory>
        ensures begins { IfOk result (λ copy. Begins self.old.process.core self.old.copy copy) }
        ensures process { self.new.process ≡ self.old.process }
        ensures copy { self.new.copy ≡ None }
    {
        match self.copy.take() {
            Some(copy) => Ok(copy),
            None => StoreCopy::of(self.alloc, self.process.core()),
        }
    }

    /// Tells the next chunk of a copy, and where the server stands; or that there was no memory, and then the copy is gone.
    fn save(&mut self, out: &mut Vec<u8>, end: &mut Vec<u8>) -> Result<(), TooLong>
        requires empty { vec_len end.old ≡ 0 }
        requires room { 64 ≤ vec_capacity end.old }
        ensures tells { OnOk result (TellsSave self.old self.new out.old.items out.new.items end.new.items) }
        ensures front { OnOk result (IsPrefix out.old.items out.new.items) }
        ensures err { OnErr result (IsPrefix out.old.items out.new.items) }
        ensures capacity { vec_capacity end.old ≤ vec_capacity end.new }
    {
        let copy = match self.take_copy() {
            Ok(copy) => copy,
            Err(_) => {
                tell_refused(end, NO_MEMORY);
                return Ok(());
            }
        };
        match tell_next(self.alloc, copy, out) {
            Ok(left) => {
                self.copy = left;
                tell_done(end, &standing(self.process.core()));
                Ok(())
            }
            Err(Unsaved::NoMemory) => {
                tell_refused(end, NO_MEMORY);
                Ok(())
            }
            Err(Unsaved::TooLong) => Err(TooLong),
        }
    }

    /// Answers the bytes of a frame.
    fn answer_bytes(
        &mut self,
        bytes: &[u8],
        out: &mut Vec<u8>,
        end: &mut Vec<u8>,
    ) -> Result<(), TooLong>
        requires empty { vec_len end.old ≡ 0 }
        requires room { 64 ≤ vec_capacity end.old }
        ensures tells { OnOk result (TellsAnswer (Some bytes.now) self.old self.new out.old.items out.new.items end.new.items) }
        ensures err { OnErr result (IsPrefix out.old.items out.new.items) }
        ensures capacity { vec_capacity end.old ≤ vec_capacity end.new }
    {
        if is_save(bytes) {
            return self.save(out, end);
        }
        self.process.answer_frame(Some(bytes), out, end)
    }

    /// Answers the bytes of a frame, or a frame that was too long: as `ServerProcess::answer_frame` does, but for the command to tell a
    /// chunk of a copy. Its answer is a chunk, and where the server stands. A copy is made for its first chunk, of what the server
    /// stands for then. It goes on as it was, and ends with an empty chunk. Where there is no memory that is told (20), and the copy is
    /// gone: the next chunk is the first one of another.
    pub fn answer_frame(
        &mut self,
        frame: Option<&[u8]>,
        out: &mut Vec<u8>,
        end: &mut Vec<u8>,
    ) -> Result<(), TooLong>
        requires empty { vec_len end.old ≡ 0 }
        requires room { 64 ≤ vec_capacity end.old }
        ensures tells { OnOk result (TellsAnswer (option_map (λ bytes. bytes.now) frame.entry) self.old self.new out.old.items out.new.items end.new.items) }
        ensures err { OnErr result (IsPrefix out.old.items out.new.items) }
        ensures capacity { vec_capacity end.old ≤ vec_capacity end.new }
    {
        match frame {
            Some(bytes) => self.answer_bytes(bytes, out, end),
            None => self.process.answer_frame(None, out, end),
        }
    }

    /// Answers a command that was read of these bytes, as `answer_frame` answers the bytes.
    pub fn answer_command(
        &mut self,
        bytes: &[u8],
        command: &Command,
        out: &mut Vec<u8>,
        end: &mut Vec<u8>,
    ) -> Result<(), TooLong>
        requires read { whole_at command_at bytes.now ≡ Ok command.now }
        requires empty { vec_len end.old ≡ 0 }
        requires room { 64 ≤ vec_capacity end.old }
        ensures tells { OnOk result (TellsAnswer (Some bytes.now) self.old self.new out.old.items out.new.items end.new.items) }
        ensures front { OnOk result (IsPrefix out.old.items out.new.items) }
        ensures err { OnErr result (IsPrefix out.old.items out.new.items) }
        ensures capacity { vec_capacity end.old ≤ vec_capacity end.new }
    {
        if is_save(bytes) {
            return self.save(out, end);
        }
        self.process.answer_command(bytes, command, out, end)
    }
}
