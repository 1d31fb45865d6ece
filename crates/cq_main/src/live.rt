//! Live runs: a live script is read and run, and what it did is told.
ghost use Rattle.std.specs.Prelude.{◌≡◌, ℕ, List, false, true, IfErr, OnOk, OnErr};
ghost use Rattle.std.specs.Io.KnownBytes.{Appends, Consumes};
ghost use Rattle.cq_lines.specs.Checks.{inner_of, is_failed, is_flushed};
ghost use Rattle.cq_lines.specs.declared.fault.ScriptFault.TheVariants.{WriteFailed};
ghost use Rattle.cq_main.specs.LiveOutcomes.{IsReadFaithfully, Lived, RunsLive, TellsLive, report_text};

use crate::live_fault::{LiveEnd, report_end};
use crate::report::report;
use cq_base::ChainSize;
use cq_live::{LiveReport, live};
use cq_live_script::read_live;
use cq_nodes::Always;
use cq_script::{Checked, ScriptFault, Sink};
use std::alloc::Global;
use std::io::{Read, Write};
use std::sync::Wait;
use std::thread::Threads;

/// Reads the live script and runs it.
fn report_of<H: Threads + Wait + Sync, R: Read>(
    rt: &H,
    alloc: Global,
    size: ChainSize,
    turns: u64,
    reader: &mut Checked<R>,
) -> Result<LiveReport, LiveEnd>
    requires { is_failed reader.old ≡ false }
    ensures lived { (input : List ℕ) × Consumes (R.remaining (inner_of reader.old)) (R.remaining (inner_of reader.new)) input
        × Lived size result input (R.remaining (inner_of reader.new)) }
    ensures faithful { IsReadFaithfully result (is_failed reader.new) }
{
    match read_live(alloc, reader) {
        Ok(steps) => match live(rt, alloc, size, &steps, turns, &Always) {
            Ok(report) => Ok(report),
            Err(fault) => Err(LiveEnd::Live(fault)),
        },
        Err(fault) => Err(LiveEnd::Script(fault)),
    }
}

/// Tells how many sends were accepted, and that the audit found an order of what was done, and flushes that.
fn tell_accepted<W: Write>(accepted: u64, output: &mut Checked<W>) -> Result<(), ScriptFault>
    requires { is_failed output.old ≡ false }
    ensures ok { OnOk result (is_failed output.new ≡ false) }
    ensures flushed { OnOk result (is_flushed output.new ≡ true) }
    ensures told { OnOk result (Appends (W.contents (inner_of output.old)) (W.contents (inner_of output.new)) (report_text accepted)) }
    ensures fault { IfErr result (λ fault. fault ≡ WriteFailed) }
    ensures failed { OnErr result (is_failed output.new ≡ true) }
{
    output.print(format_args!("accepted {accepted}\naudit ok\n"));
    if output.flush().is_err() || output.failed() {
        return Err(ScriptFault::WriteFailed);
    }
    Ok(())
}

/// Tells the report of a live run, or its fault, and gives the status with which the program ends.
fn tell_report<W: Write, E: Write>(
    answer: &Result<LiveReport, LiveEnd>,
    output: &mut Checked<W>,
    errors: &mut Checked<E>,
) -> u8
    requires { is_failed output.old ≡ false }
    ensures { TellsLive answer.now result (W.contents (inner_of output.old)) (W.contents (inner_of output.new))
        (is_failed output.new) (is_flushed output.new) (is_failed errors.new) (E.contents (inner_of errors.old))
        (E.contents (inner_of errors.new)) }
{
    match answer {
        Ok(told) => match tell_accepted(told.accepted, output) {
            Ok(()) => 0,
            Err(fault) => report(&fault, errors),
        },
        Err(end) => report_end(end, errors),
    }
}

/// Runs the live script of the reader on so many servers, each node for so many turns at most, and tells what it did.
/// Gives the status with which the program ends.
pub fn run_live<H: Threads + Wait + Sync, R: Read, W: Write, E: Write>(
    rt: &H,
    alloc: Global,
    size: ChainSize,
    turns: u64,
    reader: &mut Checked<R>,
    output: &mut Checked<W>,
    errors: &mut Checked<E>,
) -> u8
    requires reader { is_failed reader.old ≡ false }
    requires output { is_failed output.old ≡ false }
    ensures { RunsLive size result (R.remaining (inner_of reader.old)) (R.remaining (inner_of reader.new))
        (is_failed reader.new) (W.contents (inner_of output.old)) (W.contents (inner_of output.new))
        (is_failed output.new) (is_flushed output.new) (is_failed errors.new) (E.contents (inner_of errors.old))
        (E.contents (inner_of errors.new)) }
{
    let answer = report_of(rt, alloc, size, turns, reader);
    tell_report(&answer, output, errors)
}
