//! A process that begins with a store, which it is told a chunk at a time.
ghost use Rattle.std.specs.Prelude.{◌≡◌, ◌≤◌, Some, None, true, false, option_map, vec_capacity, vec_len, IfSome, OnErr, OnOk};
ghost use Rattle.cq_base.specs.Relations.{IsPrefix};
ghost use Rattle.cq_server_copies.specs.Loading.{Breaks, IsLoaded, LoadsBytes, LoadsChunk, LoadsCommand, LoadsFrame, TellsAnswer, TellsLoading, is_serving};
ghost use Rattle.cq_server_copies.specs.declared.loading.Stage.TheVariants as stages;
ghost use Rattle.cq_store_wire.specs.declared.build.State.TheVariants as store_states;

use crate::saving::SavingProcess;
use cq_frames::{Command, NOT_HERE, read_command};
use cq_process::standing;
use cq_process_frames::{TooLong, tell_done, tell_heard, tell_refused, tell_unread};
use cq_server_process::ServerProcess;
use cq_store_wire::StoreReader;
use cq_wire::{ReadFault, WireFault};
use std::alloc::Global;
use std::mem;

/// How far a process is that begins with a store.
#[derive(Drop)]
pub enum Stage {
    /// The store is being read.
    Loading(StoreReader),
    /// It was read, and a server stands on it.
    Serving(SavingProcess),
    /// What came is no store, or there was no memory to read it: the process has to end.
    Failed,
}

/// A process that begins with a store, as that server of a chain of one which has it.
#[derive(Drop)]
pub struct LoadingProcess {
    alloc: Global,
    stage: Stage,
}

/// The store was read, if it is whole, and a server stands on it.
fn begin(alloc: Global, reader: StoreReader, end: &mut Vec<u8>) -> Option<Stage>
    requires empty { vec_len end.old ≡ 0 }
    requires room { 64 ≤ vec_capacity end.old }
    ensures loads { IfSome result (λ stage. IsLoaded reader stage end.new.items) }
    ensures capacity { vec_capacity end.old ≤ vec_capacity end.new }
{
    match reader.store() {
        Ok(store) => {
            let process = SavingProcess::new(alloc, ServerProcess::alone(alloc, store));
            tell_done(end, &standing(process.core()));
            Some(Stage::Serving(process))
        }
        Err(_) => None,
    }
}

/// A chunk of the store comes, or an empty one, which ends it.
fn load_chunk(alloc: Global, reader: StoreReader, chunk: &[u8], end: &mut Vec<u8>) -> Option<Stage>
    requires empty { vec_len end.old ≡ 0 }
    requires room { 64 ≤ vec_capacity end.old }
    ensures loads { IfSome result (λ stage. LoadsChunk chunk.now reader stage end.new.items) }
    ensures capacity { vec_capacity end.old ≤ vec_capacity end.new }
{
    if chunk.is_empty() {
        return begin(alloc, reader, end);
    }
    match reader.feed(chunk) {
        Ok(reader) => {
            tell_heard(end);
            Some(Stage::Loading(reader))
        }
        Err(_) => None,
    }
}

/// A command comes while the store is read; all but a chunk are refused.
fn load_command(
    alloc: Global,
    reader: StoreReader,
    command: &Command,
    end: &mut Vec<u8>,
) -> Option<Stage>
    requires empty { vec_len end.old ≡ 0 }
    requires room { 64 ≤ vec_capacity end.old }
    ensures loads { IfSome result (λ stage. LoadsCommand command.now reader stage end.new.items) }
    ensures capacity { vec_capacity end.old ≤ vec_capacity end.new }
{
    match command {
        Command::Load { chunk } => load_chunk(alloc, reader, chunk.as_bytes(), end),
        _ => {
            tell_refused(end, NOT_HERE);
            Some(Stage::Loading(reader))
        }
    }
}

/// The bytes of a frame come while the store is read.
fn load_bytes(alloc: Global, reader: StoreReader, bytes: &[u8], end: &mut Vec<u8>) -> Option<Stage>
    requires empty { vec_len end.old ≡ 0 }
    requires room { 64 ≤ vec_capacity end.old }
    ensures loads { IfSome result (λ stage. LoadsBytes bytes.now reader stage end.new.items) }
    ensures capacity { vec_capacity end.old ≤ vec_capacity end.new }
{
    match read_command(alloc, bytes) {
        Ok(command) => load_command(alloc, reader, &command, end),
        Err(ReadFault::NoMemory) => None,
        Err(ReadFault::Bad(fault)) => {
            tell_unread(end, u32::from(fault.code()));
            Some(Stage::Loading(reader))
        }
    }
}

/// A frame comes while the store is read.
fn load_frame(
    alloc: Global,
    reader: StoreReader,
    frame: Option<&[u8]>,
    end: &mut Vec<u8>,
) -> Option<Stage>
    requires empty { vec_len end.old ≡ 0 }
    requires room { 64 ≤ vec_capacity end.old }
    ensures loads { IfSome result (λ stage. LoadsFrame (option_map (λ bytes. bytes.now) frame.entry) reader stage end.new.items) }
    ensures capacity { vec_capacity end.old ≤ vec_capacity end.new }
{
    match frame {
        Some(bytes) => load_bytes(alloc, reader, bytes, end),
        None => {
            tell_unread(end, u32::from(WireFault::BadNumber.code()));
            Some(Stage::Loading(reader))
        }
    }
}

impl LoadingProcess {
    /// Nothing of the store was read. It keeps the allocator.
    pub fn new(alloc: Global) -> LoadingProcess
        ensures { result.stage ≡ stages.Loading store_states.Empty }
    {
        LoadingProcess {
            alloc,
            stage: Stage::Loading(StoreReader::new(alloc)),
        }
    }

    /// Whether a server stands on the store: O(1).
    fn is_serving(&self) -> bool
        ensures { result ≡ is_serving self.now.stage }
    {
        match &self.stage {
            Stage::Serving(_) => true,
            _ => false,
        }
    }

    /// Whether what came is no store, or there was no memory to read it: O(1).
    pub fn has_failed(&self) -> bool
        ensures yes { result ≡ true → self.now.stage ≡ stages.Failed }
        ensures no { result ≡ false → self.now.stage ≡ stages.Failed → ⊥ }
    {
        match &self.stage {
            Stage::Failed => true,
            _ => false,
        }
    }

    /// A frame comes while the store is read.
    fn load(&mut self, frame: Option<&[u8]>, end: &mut Vec<u8>) -> Result<(), TooLong>
        requires empty { vec_len end.old ≡ 0 }
        requires room { 64 ≤ vec_capacity end.old }
        requires loading { is_serving self.old.stage ≡ false }
        ensures tells { OnOk result (TellsLoading (option_map (λ bytes. bytes.now) frame.entry) self.old self.new end.new.items) }
        ensures failed { OnErr result (self.new.stage ≡ stages.Failed) }
        ensures capacity { vec_capacity end.old ≤ vec_capacity end.new }
    {
        match mem::replace(&mut self.stage, Stage::Failed) {
            Stage::Loading(reader) => match load_frame(self.alloc, reader, frame, end) {
                Some(stage) => {
                    self.stage = stage;
                    Ok(())
                }
                None => Err(TooLong),
            },
            _ => Err(TooLong),
        }
    }

    /// A frame comes for the server that stands on the store.
    fn serve(
        &mut self,
        frame: Option<&[u8]>,
        out: &mut Vec<u8>,
        end: &mut Vec<u8>,
    ) -> Result<(), TooLong>
        requires empty { vec_len end.old ≡ 0 }
        requires room { 64 ≤ vec_capacity end.old }
        requires serving { is_serving self.old.stage ≡ true }
        ensures tells { OnOk result (TellsAnswer (option_map (λ bytes. bytes.now) frame.entry) self.old self.new out.old.items out.new.items end.new.items) }
        ensures err { OnErr result (IsPrefix out.old.items out.new.items) }
        ensures serves { is_serving self.new.stage ≡ true }
        ensures capacity { vec_capacity end.old ≤ vec_capacity end.new }
    {
        match &mut self.stage {
            Stage::Serving(process) => process.answer_frame(frame, out, end),
            _ => unreachable!(),
        }
    }

    /// Answers the bytes of a frame, or a frame that was too long. While the store is read, each chunk is heard, and an empty one ends
    /// it: then a server stands on it, and it is told where. All other commands are refused (47). Behind that it goes on as
    /// `SavingProcess::answer_frame` says.
    ///
    /// An error comes where a chunk isn't the next one of a store, where the store isn't whole at its end, or where there is no memory
    /// to read it; the process has to end then. Later it comes where `SavingProcess` has one.
    pub fn answer_frame(
        &mut self,
        frame: Option<&[u8]>,
        out: &mut Vec<u8>,
        end: &mut Vec<u8>,
    ) -> Result<(), TooLong>
        requires empty { vec_len end.old ≡ 0 }
        requires room { 64 ≤ vec_capacity end.old }
        ensures tells { OnOk result (TellsAnswer (option_map (λ bytes. bytes.now) frame.entry) self.old self.new out.old.items out.new.items end.new.items) }
        ensures err { OnErr result (IsPrefix out.old.items out.new.items) }
        ensures breaks { OnErr result (Breaks self.old (option_map (λ bytes. bytes.now) frame.entry) self.new) }
        ensures capacity { vec_capacity end.old ≤ vec_capacity end.new }
    {
        if self.is_serving() {
            return self.serve(frame, out, end);
        }
        self.load(frame, end)
    }
}
