//! Keeping one server of a chain, or its master.
ghost use Rattle.std.specs.Prelude.{◌≡◌, ◌≤◌, ℕ, List, Err, IfOk, true, false};
ghost use Rattle.std.specs.Io.KnownBytes.{Appends, Consumes};
ghost use Rattle.cq_chain.specs.Servers as states;
ghost use Rattle.cq_chain.specs.Servers.{first_member, joining};
ghost use Rattle.cq_frame_loop.specs.Loops.{LeavesReader, LeavesWriter};
ghost use Rattle.cq_frame_loop.specs.declared.fault.LoopFault.TheVariants.{Unanswered};
ghost use Rattle.cq_processes.specs.declared.keep.LoadEnd.TheVariants as ends;
ghost use Rattle.cq_processes.specs.Keeping.{AnswersLoading, KeepsMaster, KeepsServer, LeavesLoader, LeavesLoading, loop_of};
ghost use Rattle.cq_server_process.specs.Answers.{IsNewProcess};
ghost use Rattle.cq_server_process.specs.Processes.{process_of};

use cq_base::{ChainSize, NoMemory, ServerId};
use cq_frame_loop::{LoopFault, answer_frames};
use cq_lines::{Sink, Source};
use cq_master_process::MasterProcess;
use cq_server_copies::{LoadingProcess, SavingProcess};
use cq_server_process::ServerProcess;
use std::alloc::Global;

/// Why a process that begins with a store ended before its input did.
#[derive(Clone, Copy, Debug, PartialEq, Eq)]
pub enum LoadEnd {
    /// What came first is no store, or there was no memory to read it.
    NotLoaded,
    /// The loop over its frames ended so.
    Loop(LoopFault),
}

/// The process answers the frames of the reader, if there was memory for it.
fn keep_server<R: Source, W: Sink>(
    alloc: Global,
    process: Result<ServerProcess, NoMemory>,
    reader: &mut R,
    writer: &mut W,
) -> Result<(), LoopFault>
    ensures keeps { (s : states.Server) → IfOk process (λ p. IsNewProcess s (process_of p)) → (input : List ℕ) × (output : List ℕ)
        × Consumes (R.remaining reader.old) (R.remaining reader.new) input
        × Appends (W.contents writer.old) (W.contents writer.new) output
        × KeepsServer s result input (R.remaining reader.new) output
        × LeavesWriter result input (W.has_failed writer.new) (W.has_flushed writer.new) }
    ensures reader { LeavesReader result (R.has_failed reader.new) }
{
    match process {
        Ok(process) => {
            let mut process = SavingProcess::new(alloc, process);
            answer_frames(alloc, &mut process, reader, writer)
        }
        Err(_) => Err(LoopFault::NoMemory),
    }
}

/// Keeps the server of that number in a first chain of so many: it answers the frames that the reader gives, until the reader ends.
/// What comes with one read is answered, written and flushed before more is read. An unfinished frame at the end is dropped.
/// `NoMemory` comes only before the first read; later each want of memory is told by an answer.
pub fn keep_first<R: Source, W: Sink>(
    alloc: Global,
    id: ServerId,
    size: ChainSize,
    reader: &mut R,
    writer: &mut W,
) -> Result<(), LoopFault>
    requires { id ≤ size }
    ensures keeps { (input : List ℕ) × (output : List ℕ)
        × Consumes (R.remaining reader.old) (R.remaining reader.new) input
        × Appends (W.contents writer.old) (W.contents writer.new) output
        × KeepsServer (first_member size id) result input (R.remaining reader.new) output
        × LeavesWriter result input (W.has_failed writer.new) (W.has_flushed writer.new) }
    ensures reader { LeavesReader result (R.has_failed reader.new) }
{
    keep_server(alloc, ServerProcess::first(alloc, id, size), reader, writer)
}

/// Keeps the server of that number, which joins a chain later, as `keep_first` does.
pub fn keep_joining<R: Source, W: Sink>(
    alloc: Global,
    id: ServerId,
    reader: &mut R,
    writer: &mut W,
) -> Result<(), LoopFault>
    ensures keeps { (input : List ℕ) × (output : List ℕ)
        × Consumes (R.remaining reader.old) (R.remaining reader.new) input
        × Appends (W.contents writer.old) (W.contents writer.new) output
        × KeepsServer joining result input (R.remaining reader.new) output
        × LeavesWriter result input (W.has_failed writer.new) (W.has_flushed writer.new) }
    ensures reader { LeavesReader result (R.has_failed reader.new) }
{
    keep_server(alloc, ServerProcess::joining(alloc, id), reader, writer)
}

/// Keeps the master of a first chain of so many servers, as `keep_first` keeps a server.
pub fn keep_master<R: Source, W: Sink>(
    alloc: Global,
    size: ChainSize,
    reader: &mut R,
    writer: &mut W,
) -> Result<(), LoopFault>
    ensures keeps { (input : List ℕ) × (output : List ℕ)
        × Consumes (R.remaining reader.old) (R.remaining reader.new) input
        × Appends (W.contents writer.old) (W.contents writer.new) output
        × KeepsMaster size result input (R.remaining reader.new) output
        × LeavesWriter result input (W.has_failed writer.new) (W.has_flushed writer.new) }
    ensures reader { LeavesReader result (R.has_failed reader.new) }
{
    match MasterProcess::new(alloc, size) {
        Ok(mut process) => answer_frames(alloc, &mut process, reader, writer),
        Err(_) => Err(LoopFault::NoMemory),
    }
}

/// Why a process that begins with a store ended, by the fault of its loop.
fn end_of(fault: LoopFault, has_failed: bool) -> LoadEnd
    ensures fault { loop_of (Err result) ≡ Err fault }
    ensures not_loaded { result ≡ ends.NotLoaded → has_failed ≡ true }
    ensures unanswered { result ≡ ends.Loop Unanswered → has_failed ≡ false }
{
    match fault {
        LoopFault::Unanswered => {
            if has_failed {
                LoadEnd::NotLoaded
            } else {
                LoadEnd::Loop(LoopFault::Unanswered)
            }
        }
        LoopFault::NoMemory => LoadEnd::Loop(LoopFault::NoMemory),
        LoopFault::ReadFailed => LoadEnd::Loop(LoopFault::ReadFailed),
        LoopFault::WriteFailed => LoadEnd::Loop(LoopFault::WriteFailed),
        LoopFault::Interrupted => LoadEnd::Loop(LoopFault::Interrupted),
        LoopFault::TooManyBytes => LoadEnd::Loop(LoopFault::TooManyBytes),
    }
}

/// Keeps the server of a chain of one that begins with a store, which it is told first (`cq_server_copies`). What comes first has to be
/// that store, whole: else the process ends with `NotLoaded`, so that no empty server answers in its place. Behind that it does as
/// `keep_first` says.
pub fn keep_loaded<R: Source, W: Sink>(
    alloc: Global,
    reader: &mut R,
    writer: &mut W,
) -> Result<(), LoadEnd>
    ensures keeps { (input : List ℕ) × (output : List ℕ)
        × Consumes (R.remaining reader.old) (R.remaining reader.new) input
        × Appends (W.contents writer.old) (W.contents writer.new) output
        × AnswersLoading result input (R.remaining reader.new) output
        × LeavesLoading result input (W.has_failed writer.new) (W.has_flushed writer.new) }
    ensures reader { LeavesLoader result (R.has_failed reader.new) }
{
    let mut process = LoadingProcess::new(alloc);
    match answer_frames(alloc, &mut process, reader, writer) {
        Ok(()) => Ok(()),
        Err(fault) => Err(end_of(fault, process.has_failed())),
    }
}
