//! Processes of a chain, and how their faults are told.
ghost use Rattle.std.specs.Prelude.{◌≤◌};
ghost use Rattle.cq_chain.specs.Servers.{first_member, joining};
ghost use Rattle.cq_lines.specs.Checks.{inner_of, is_failed, is_flushed};
ghost use Rattle.cq_main.specs.ProcessOutcomes.{RunsLoaded, RunsProcess};
ghost use Rattle.cq_processes.specs.Keeping.{KeepsMaster, KeepsServer};

use crate::process_fault::{end_loaded, end_process};
use cq_base::{ChainSize, ServerId};
use cq_processes::{keep_first, keep_joining, keep_loaded, keep_master};
use cq_script::Checked;
use std::alloc::Global;
use std::io::{Read, Write};

/// Keeps the server of that number in a first chain of so many, and tells its fault.
pub fn run_first<R: Read, W: Write, E: Write>(
    alloc: Global,
    id: ServerId,
    size: ChainSize,
    reader: &mut Checked<R>,
    output: &mut Checked<W>,
    errors: &mut Checked<E>,
) -> u8
    requires { id ≤ size }
    ensures { RunsProcess (KeepsServer (first_member size id)) result (R.remaining (inner_of reader.old)) (R.remaining (inner_of reader.new))
        (is_failed reader.new) (W.contents (inner_of output.old)) (W.contents (inner_of output.new))
        (is_failed output.new) (is_flushed output.new) (is_failed errors.new) (E.contents (inner_of errors.old))
        (E.contents (inner_of errors.new)) }
{
    end_process(&keep_first(alloc, id, size, reader, output), errors)
}

/// Keeps the server of that number, which joins a chain later, and tells its fault.
pub fn run_joining<R: Read, W: Write, E: Write>(
    alloc: Global,
    id: ServerId,
    reader: &mut Checked<R>,
    output: &mut Checked<W>,
    errors: &mut Checked<E>,
) -> u8
    ensures { RunsProcess (KeepsServer joining) result (R.remaining (inner_of reader.old)) (R.remaining (inner_of reader.new))
        (is_failed reader.new) (W.contents (inner_of output.old)) (W.contents (inner_of output.new))
        (is_failed output.new) (is_flushed output.new) (is_failed errors.new) (E.contents (inner_of errors.old))
        (E.contents (inner_of errors.new)) }
{
    end_process(&keep_joining(alloc, id, reader, output), errors)
}

/// Keeps the master of a first chain of so many servers, and tells its fault.
pub fn run_master<R: Read, W: Write, E: Write>(
    alloc: Global,
    size: ChainSize,
    reader: &mut Checked<R>,
    output: &mut Checked<W>,
    errors: &mut Checked<E>,
) -> u8
    ensures { RunsProcess (KeepsMaster size) result (R.remaining (inner_of reader.old)) (R.remaining (inner_of reader.new))
        (is_failed reader.new) (W.contents (inner_of output.old)) (W.contents (inner_of output.new))
        (is_failed output.new) (is_flushed output.new) (is_failed errors.new) (E.contents (inner_of errors.old))
        (E.contents (inner_of errors.new)) }
{
    end_process(&keep_master(alloc, size, reader, output), errors)
}

/// Keeps the only server of a first chain, which begins with a store that it is told, and tells its fault.
pub fn run_loaded<R: Read, W: Write, E: Write>(
    alloc: Global,
    reader: &mut Checked<R>,
    output: &mut Checked<W>,
    errors: &mut Checked<E>,
) -> u8
    ensures { RunsLoaded result (R.remaining (inner_of reader.old)) (R.remaining (inner_of reader.new))
        (is_failed reader.new) (W.contents (inner_of output.old)) (W.contents (inner_of output.new))
        (is_failed output.new) (is_flushed output.new) (is_failed errors.new) (E.contents (inner_of errors.old))
        (E.contents (inner_of errors.new)) }
{
    end_loaded(&keep_loaded(alloc, reader, output), errors)
}
