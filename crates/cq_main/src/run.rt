//! All that the program decides, over its arguments, a reader and two writers.
ghost use Rattle.std.specs.Prelude.{◌≡◌, ◌≢◌, ◌⊎◌, ℕ, List, ◌++◌, ◌∷◌, [], map, true, false, codes, string_bytes, Some};
ghost use Rattle.std.specs.Io.KnownBytes.{Appends};
ghost use Rattle.std.specs.IoError.{error_kind};
ghost use Rattle.clap.specs.Words.{fault_of, kind_of};
ghost use Rattle.cq_lines.specs.Checks.{inner_of, is_failed, is_flushed};
ghost use Rattle.cq_args.specs.CommandLine.{asked_invocation, program_app};
ghost use Rattle.cq_main.specs.Invocations.{IsSound, Runs};
ghost use Rattle.cq_main.specs.Outcomes.{Ends, EndsAt, Helps, Refuses, RunsBy, TellsVersion, unread_text};
ghost use Rattle.cq_main.specs.WatchOutcomes.{RunsWatch};
ghost use Rattle.cq_script.specs.Replays.{Headlines, Replays};
ghost use Rattle.cq_script.specs.Sessions.{SessionHeadlines, Sessions};
ghost use Rattle.cq_args.specs.ArgFaults.{all_are, is_help, is_usage, is_version};
ghost use Rattle.cq_args.specs.declared.invocation.Invocation.{Invocation};
ghost use Rattle.cq_lines.specs.declared.fault.ScriptFault.TheVariants.{NoMemory};
ghost use Rattle.std.specs.declared.io.ErrorKind.TheVariants.{OutOfMemory as NoRoom};

use crate::explain::run_explain;
use crate::guide::GUIDE;
use crate::kept::{KeptSessions, run_copy, run_dump, run_journal, run_server, run_verify};
use crate::live::run_live;
use crate::process::{run_first, run_joining, run_loaded, run_master};
use crate::report::report;
use clap::Error;
use clap::error::ErrorKind;
use cq_args::{Invocation, VERSION, invocation_of};
use cq_base::ChainSize;
use cq_script::{Checked, ScriptFault, Sink, replay, session};
use cq_watching::watch;
use std::alloc::Global;
use std::io;
use std::io::{Read, Write};
use std::sync::Wait;
use std::thread::Threads;

/// The status after a command line that is not understood.
const USAGE: u8 = 2;

/// Does what the arguments ask for. It replays the script of the reader, runs a session with it, which a journal may keep or which may be watched, runs it live,
/// keeps a process of a chain, or writes help or the version, on `output`; a fault, or what is wrong with the arguments, goes to `errors`. Gives the status with which the
/// program ends. A live run waits for its threads.
pub fn run<H: Threads + Wait + Sync + KeptSessions, R: Read, W: Write, E: Write>(
    rt: &H,
    alloc: Global,
    args: &[String],
    reader: &mut Checked<R>,
    output: &mut Checked<W>,
    errors: &mut Checked<E>,
) -> u8
    requires reader { is_failed reader.old ≡ false }
    requires output { is_failed output.old ≡ false }
    ensures good { (invocation : Invocation) → asked_invocation (map string_bytes args.now) ≡ Some invocation
        → Runs invocation result (R.remaining (inner_of reader.old)) (R.remaining (inner_of reader.new))
        (is_failed reader.new) (W.contents (inner_of output.old)) (W.contents (inner_of output.new))
        (is_failed output.new) (is_flushed output.new) (is_failed errors.new) (E.contents (inner_of errors.old))
        (E.contents (inner_of errors.new))
        ⊎ (reader.new ≡ reader.old) × (output.new ≡ output.old)
        × EndsAt NoMemory result (is_failed errors.new) (E.contents (inner_of errors.old))
        (E.contents (inner_of errors.new)) }
    ensures help { all_are is_help (fault_of program_app (map string_bytes args.now)) ≡ true
        → Helps GUIDE.now result (is_failed output.new) (W.contents (inner_of output.old))
        (W.contents (inner_of output.new)) (is_failed errors.new) (E.contents (inner_of errors.old))
        (E.contents (inner_of errors.new))
        ⊎ (output.new ≡ output.old) × EndsAt NoMemory result (is_failed errors.new) (E.contents (inner_of errors.old))
        (E.contents (inner_of errors.new)) }
    ensures version { all_are is_version (fault_of program_app (map string_bytes args.now)) ≡ true
        → TellsVersion VERSION.now result (is_failed output.new) (W.contents (inner_of output.old))
        (W.contents (inner_of output.new)) (is_failed errors.new) (E.contents (inner_of errors.old))
        (E.contents (inner_of errors.new))
        ⊎ (output.new ≡ output.old) × EndsAt NoMemory result (is_failed errors.new) (E.contents (inner_of errors.old))
        (E.contents (inner_of errors.new)) }
    ensures usage { all_are is_usage (fault_of program_app (map string_bytes args.now)) ≡ true
        → Refuses result (is_failed errors.new) (E.contents (inner_of errors.old)) (E.contents (inner_of errors.new))
        ⊎ EndsAt NoMemory result (is_failed errors.new) (E.contents (inner_of errors.old))
        (E.contents (inner_of errors.new)) }
    ensures untouched { fault_of program_app (map string_bytes args.now) ≢ []
        → reader.new ≡ reader.old }
    ensures silent { all_are is_usage (fault_of program_app (map string_bytes args.now)) ≡ true
        → output.new ≡ output.old }
{
    match invocation_of(alloc, args) {
        Ok(invocation) => carry_out(rt, alloc, &invocation, reader, output, errors),
        Err(error) => tell_error(alloc, &error, output, errors),
    }
}

/// Runs what was asked for, and tells its fault.
fn carry_out<H: Threads + Wait + Sync + KeptSessions, R: Read, W: Write, E: Write>(
    rt: &H,
    alloc: Global,
    invocation: &Invocation<'_>,
    reader: &mut Checked<R>,
    output: &mut Checked<W>,
    errors: &mut Checked<E>,
) -> u8
    requires sound { IsSound invocation.now }
    requires reader { is_failed reader.old ≡ false }
    requires output { is_failed output.old ≡ false }
    ensures { Runs invocation.now result (R.remaining (inner_of reader.old)) (R.remaining (inner_of reader.new))
        (is_failed reader.new) (W.contents (inner_of output.old)) (W.contents (inner_of output.new))
        (is_failed output.new) (is_flushed output.new) (is_failed errors.new) (E.contents (inner_of errors.old))
        (E.contents (inner_of errors.new)) }
{
    match invocation {
        Invocation::Replay { size } => run_script(alloc, *size, reader, output, errors),
        Invocation::Session { size } => run_session(alloc, *size, reader, output, errors),
        Invocation::Kept { size, journal } => {
            run_journal(rt, *size, journal, reader, output, errors)
        }
        Invocation::Live { size, turns } => run_live(
            rt, alloc, *size, *turns, reader, output, errors,
        ),
        Invocation::Verify { path } => run_verify(rt, path, output, errors),
        Invocation::Copy { path, to } => run_copy(rt, path, to, errors),
        Invocation::Dump { path } => run_dump(rt, path, output, errors),
        Invocation::First { id, size } => run_first(alloc, *id, *size, reader, output, errors),
        Invocation::Joining { id } => run_joining(alloc, *id, reader, output, errors),
        Invocation::Loaded => run_loaded(alloc, reader, output, errors),
        Invocation::KeptServer {
            path,
            mebibytes,
            no_create,
        } => run_server(rt, path, *mebibytes, *no_create, reader, output, errors),
        Invocation::Master { size } => run_master(alloc, *size, reader, output, errors),
        Invocation::Explain { size, is_live } => {
            run_explain(alloc, *size, *is_live, reader, output, errors)
        }
        Invocation::Watch { size } => run_watch(alloc, *size, reader, output, errors),
    }
}

/// Replays the script of the reader on so many servers, and tells its fault.
fn run_script<R: Read, W: Write, E: Write>(
    alloc: Global,
    size: ChainSize,
    reader: &mut Checked<R>,
    output: &mut Checked<W>,
    errors: &mut Checked<E>,
) -> u8
    requires reader { is_failed reader.old ≡ false }
    requires output { is_failed output.old ≡ false }
    ensures { RunsBy (Replays size) (Headlines size) result (R.remaining (inner_of reader.old))
        (R.remaining (inner_of reader.new)) (is_failed reader.new) (W.contents (inner_of output.old))
        (W.contents (inner_of output.new)) (is_failed output.new) (is_flushed output.new) (is_failed errors.new)
        (E.contents (inner_of errors.old)) (E.contents (inner_of errors.new)) }
{
    // Its contract says that there is one at least.
    let _servers = size.get();
    end(&replay(alloc, size, reader, output), errors)
}

/// Runs the lines of the reader as a session on so many servers, and tells its fault.
fn run_session<R: Read, W: Write, E: Write>(
    alloc: Global,
    size: ChainSize,
    reader: &mut Checked<R>,
    output: &mut Checked<W>,
    errors: &mut Checked<E>,
) -> u8
    requires reader { is_failed reader.old ≡ false }
    requires output { is_failed output.old ≡ false }
    ensures { RunsBy (Sessions size) (SessionHeadlines size) result (R.remaining (inner_of reader.old))
        (R.remaining (inner_of reader.new)) (is_failed reader.new) (W.contents (inner_of output.old))
        (W.contents (inner_of output.new)) (is_failed output.new) (is_flushed output.new) (is_failed errors.new)
        (E.contents (inner_of errors.old)) (E.contents (inner_of errors.new)) }
{
    // Its contract says that there is one at least.
    let _servers = size.get();
    end(&session(alloc, size, reader, output), errors)
}

/// Runs the lines of the reader as a session on so many servers, tells what the chain holds where they ask, and tells its fault.
fn run_watch<R: Read, W: Write, E: Write>(
    alloc: Global,
    size: ChainSize,
    reader: &mut Checked<R>,
    output: &mut Checked<W>,
    errors: &mut Checked<E>,
) -> u8
    ensures { RunsWatch size result (R.remaining (inner_of reader.old)) (R.remaining (inner_of reader.new))
        (W.contents (inner_of output.old)) (W.contents (inner_of output.new)) (is_failed errors.new)
        (E.contents (inner_of errors.old)) (E.contents (inner_of errors.new)) }
{
    end(&watch(alloc, size, reader, output), errors)
}

/// Tells the fault of a script, if there is one.
fn end<E: Write>(answer: &Result<(), ScriptFault>, errors: &mut Checked<E>) -> u8
    ensures { Ends answer.now result (is_failed errors.new) (E.contents (inner_of errors.old))
        (E.contents (inner_of errors.new)) }
{
    match answer {
        Ok(()) => 0,
        Err(fault) => report(fault, errors),
    }
}

/// Tells what the arguments could not be taken for: help, the version, a fault of the arguments, or want of memory.
fn tell_error<W: Write, E: Write>(
    alloc: Global,
    error: &Error,
    output: &mut Checked<W>,
    errors: &mut Checked<E>,
) -> u8
    requires { is_failed output.old ≡ false }
    ensures memory { kind_of error.now ≡ ErrorKind.OutOfMemory
        → EndsAt NoMemory result (is_failed errors.new) (E.contents (inner_of errors.old))
        (E.contents (inner_of errors.new)) }
    ensures help { is_help (kind_of error.now) ≡ true
        → Helps GUIDE.now result (is_failed output.new) (W.contents (inner_of output.old))
        (W.contents (inner_of output.new)) (is_failed errors.new) (E.contents (inner_of errors.old))
        (E.contents (inner_of errors.new))
        ⊎ (output.new ≡ output.old) × EndsAt NoMemory result (is_failed errors.new) (E.contents (inner_of errors.old))
        (E.contents (inner_of errors.new)) }
    ensures version { is_version (kind_of error.now) ≡ true
        → TellsVersion VERSION.now result (is_failed output.new) (W.contents (inner_of output.old))
        (W.contents (inner_of output.new)) (is_failed errors.new) (E.contents (inner_of errors.old))
        (E.contents (inner_of errors.new)) }
    ensures usage { is_usage (kind_of error.now) ≡ true
        → Refuses result (is_failed errors.new) (E.contents (inner_of errors.old)) (E.contents (inner_of errors.new))
        ⊎ EndsAt NoMemory result (is_failed errors.new) (E.contents (inner_of errors.old))
        (E.contents (inner_of errors.new)) }
    ensures silent { is_usage (kind_of error.now) ≡ true → output.new ≡ output.old }
    ensures silent_for_memory { kind_of error.now ≡ ErrorKind.OutOfMemory → output.new ≡ output.old }
{
    match error.kind() {
        ErrorKind::OutOfMemory => report(&ScriptFault::NoMemory, errors),
        ErrorKind::DisplayHelp => help(alloc, error, output, errors),
        ErrorKind::DisplayVersion => tell_version(output, errors),
        _ => refuse(alloc, error, errors),
    }
}

/// Writes help. Where it can't be written, that is a fault of the writer.
fn help<W: Write, E: Write>(
    alloc: Global,
    error: &Error,
    output: &mut Checked<W>,
    errors: &mut Checked<E>,
) -> u8
    requires { is_failed output.old ≡ false }
    ensures { Helps GUIDE.now result (is_failed output.new) (W.contents (inner_of output.old))
        (W.contents (inner_of output.new)) (is_failed errors.new) (E.contents (inner_of errors.old))
        (E.contents (inner_of errors.new))
        ⊎ (output.new ≡ output.old) × EndsAt NoMemory result (is_failed errors.new) (E.contents (inner_of errors.old))
        (E.contents (inner_of errors.new)) }
{
    let Ok(text) = error.to_string(alloc) else {
        return report(&ScriptFault::NoMemory, errors);
    };
    output.print(format_args!("{text}\n{GUIDE}\n"));
    if output.flush().is_err() || output.failed() {
        return report(&ScriptFault::WriteFailed, errors);
    }
    0
}

/// Writes the program's name and the number of this version. Where that can't be written, it is a fault of the writer.
fn tell_version<W: Write, E: Write>(output: &mut Checked<W>, errors: &mut Checked<E>) -> u8
    requires { is_failed output.old ≡ false }
    ensures { TellsVersion VERSION.now result (is_failed output.new) (W.contents (inner_of output.old))
        (W.contents (inner_of output.new)) (is_failed errors.new) (E.contents (inner_of errors.old))
        (E.contents (inner_of errors.new)) }
{
    output.print(format_args!("cq {VERSION}\n"));
    if output.flush().is_err() || output.failed() {
        return report(&ScriptFault::WriteFailed, errors);
    }
    0
}

/// Tells what is wrong with the arguments.
fn refuse<E: Write>(alloc: Global, error: &Error, errors: &mut Checked<E>) -> u8
    ensures { Refuses result (is_failed errors.new) (E.contents (inner_of errors.old)) (E.contents (inner_of errors.new))
        ⊎ EndsAt NoMemory result (is_failed errors.new) (E.contents (inner_of errors.old))
        (E.contents (inner_of errors.new)) }
{
    let Ok(text) = error.to_string(alloc) else {
        return report(&ScriptFault::NoMemory, errors);
    };
    errors.print(text.as_str());
    USAGE
}

/// Tells why the arguments of the command line could not be had, and gives the status.
pub fn tell_unread<E: Write>(error: &io::Error, errors: &mut Checked<E>) -> u8
    ensures memory { error_kind error.now ≡ NoRoom
        → EndsAt NoMemory result (is_failed errors.new) (E.contents (inner_of errors.old))
        (E.contents (inner_of errors.new)) }
    ensures usage { error_kind error.now ≢ NoRoom → (result ≡ 2)
        × (is_failed errors.new ≡ false → Appends (E.contents (inner_of errors.old)) (E.contents (inner_of errors.new))
        unread_text) }
{
    if error.kind() == io::ErrorKind::OutOfMemory {
        return report(&ScriptFault::NoMemory, errors);
    }
    errors.print("error: a word of the command line is not UTF-8\n");
    USAGE
}
