//! Sessions and servers with a journal, and what is told or copied of one: how they are run, how their faults are told, and the status that
//! the program ends with.
ghost use Rattle.std.specs.Prelude.{◌≡◌, false};
ghost use Rattle.cq_lines.specs.Checks.{inner_of, is_failed};
ghost use Rattle.cq_main.specs.KeptOutcomes.{EndsAtJournal, RunsKept, RunsKeptServer};
ghost use Rattle.cq_main.specs.KeptStatuses.{fault_place};

use crate::process_fault::report_process;
use crate::report::report;
use cq_args::JournalOptions;
use cq_base::ChainSize;
use cq_disk::Unknown;
use cq_kept_run::{
    JournalFault, KeptFault, ServerFault, copy, dump, open_server_file, run_kept, run_kept_server,
    verify,
};
use cq_script::Checked;
use std::io::{Read, Write};

/// The status with which a fault of the journal ends the program.
const JOURNAL: u8 = 4;

/// What runs sessions whose lines a file keeps, and reads such files.
pub trait KeptSessions {
    /// Runs the lines of the reader on so many servers, and keeps them as the options say.
    fn run<R: Read, W: Write>(
        &self,
        size: ChainSize,
        journal: &JournalOptions<'_>,
        reader: &mut Checked<R>,
        output: &mut Checked<W>,
    ) -> Result<(), KeptFault>
        requires { is_failed output.old ≡ false };

    /// Keeps the only server of a chain, and its entries in a file, of so many mebibytes where it is made. With `no_create` it isn't.
    fn serve<R: Read, W: Write>(
        &self,
        path: &str,
        mebibytes: u64,
        no_create: bool,
        reader: &mut Checked<R>,
        output: &mut Checked<W>,
    ) -> Result<(), ServerFault>
        requires { is_failed output.old ≡ false };

    /// Tells what the journal in a file has.
    fn verify<W: Write>(&self, path: &str, output: &mut Checked<W>) -> Result<(), KeptFault>
        requires { is_failed output.old ≡ false };

    /// Makes another file with what the journal in a file has.
    fn copy(&self, path: &str, to: &str) -> Result<(), KeptFault>;

    /// Writes the lines of the journal in a file.
    fn dump<W: Write>(&self, path: &str, output: &mut Checked<W>) -> Result<(), KeptFault>
        requires { is_failed output.old ≡ false };
}

impl KeptSessions for HostRuntime {
    fn run<R: Read, W: Write>(
        &self,
        size: ChainSize,
        journal: &JournalOptions<'_>,
        reader: &mut Checked<R>,
        output: &mut Checked<W>,
    ) -> Result<(), KeptFault> {
        run_kept(
            self,
            size,
            journal.path,
            journal.mebibytes,
            journal.two_syncs,
            journal.tell_store,
            reader,
            output,
        )
    }

    fn serve<R: Read, W: Write>(
        &self,
        path: &str,
        mebibytes: u64,
        no_create: bool,
        reader: &mut Checked<R>,
        output: &mut Checked<W>,
    ) -> Result<(), ServerFault> {
        let device = open_server_file(self, path, mebibytes, no_create, Unknown)?;
        run_kept_server(self.alloc(), device, no_create, reader, output)
    }

    fn verify<W: Write>(&self, path: &str, output: &mut Checked<W>) -> Result<(), KeptFault> {
        verify(self, path, output)
    }

    fn copy(&self, path: &str, to: &str) -> Result<(), KeptFault> {
        copy(self, path, to)
    }

    fn dump<W: Write>(&self, path: &str, output: &mut Checked<W>) -> Result<(), KeptFault> {
        dump(self, path, output)
    }
}

/// The byte of the journal's file at which it is damaged, if that is the fault and the byte is known.
fn place_of(fault: &JournalFault) -> Option<usize>
    ensures { result ≡ fault_place fault.now }
{
    match fault {
        JournalFault::Damaged(place) => *place,
        JournalFault::Failed
        | JournalFault::Busy
        | JournalFault::NotAJournal
        | JournalFault::OtherJournal => None,
    }
}

/// Writes the line of a fault of the journal, such as `cq: 67 JournalDamaged byte 4096`, and gives the status with which the
/// program ends.
fn report_journal<E: Write>(fault: &JournalFault, errors: &mut Checked<E>) -> u8
    ensures { EndsAtJournal fault.now result (is_failed errors.new) (E.contents (inner_of errors.old))
        (E.contents (inner_of errors.new)) }
{
    let code = fault.code();
    let name = fault.name();
    match place_of(fault) {
        Some(place) => errors.print(format_args!("cq: {code} {name} byte {place}\n")),
        None => errors.print(format_args!("cq: {code} {name}\n")),
    }
    JOURNAL
}

/// Runs the lines of the reader as a session whose lines are kept, tells its fault, and gives the status with which the program ends.
pub fn run_journal<H: KeptSessions, R: Read, W: Write, E: Write>(
    rt: &H,
    size: ChainSize,
    journal: &JournalOptions<'_>,
    reader: &mut Checked<R>,
    output: &mut Checked<W>,
    errors: &mut Checked<E>,
) -> u8
    requires { is_failed output.old ≡ false }
    ensures { RunsKept result (is_failed errors.new) (E.contents (inner_of errors.old)) (E.contents (inner_of errors.new)) }
{
    end_kept(&rt.run(size, journal, reader, output), errors)
}

/// Keeps the only server of a chain, whose entries a file keeps, tells its fault, and gives the status with which the program ends.
pub fn run_server<H: KeptSessions, R: Read, W: Write, E: Write>(
    rt: &H,
    path: &str,
    mebibytes: u64,
    no_create: bool,
    reader: &mut Checked<R>,
    output: &mut Checked<W>,
    errors: &mut Checked<E>,
) -> u8
    requires { is_failed output.old ≡ false }
    ensures { RunsKeptServer result (is_failed errors.new) (E.contents (inner_of errors.old)) (E.contents (inner_of errors.new)) }
{
    end_server(
        &rt.serve(path, mebibytes, no_create, reader, output),
        errors,
    )
}

/// Tells what the journal in a file has, or its fault, and gives the status with which the program ends.
pub fn run_verify<H: KeptSessions, W: Write, E: Write>(
    rt: &H,
    path: &str,
    output: &mut Checked<W>,
    errors: &mut Checked<E>,
) -> u8
    requires { is_failed output.old ≡ false }
    ensures { RunsKept result (is_failed errors.new) (E.contents (inner_of errors.old)) (E.contents (inner_of errors.new)) }
{
    end_kept(&rt.verify(path, output), errors)
}

/// Copies the journal in a file, or tells its fault, and gives the status with which the program ends.
pub fn run_copy<H: KeptSessions, E: Write>(
    rt: &H,
    path: &str,
    to: &str,
    errors: &mut Checked<E>,
) -> u8
    ensures { RunsKept result (is_failed errors.new) (E.contents (inner_of errors.old)) (E.contents (inner_of errors.new)) }
{
    end_kept(&rt.copy(path, to), errors)
}

/// Writes the lines of the journal in a file, or tells its fault, and gives the status with which the program ends.
pub fn run_dump<H: KeptSessions, W: Write, E: Write>(
    rt: &H,
    path: &str,
    output: &mut Checked<W>,
    errors: &mut Checked<E>,
) -> u8
    requires { is_failed output.old ≡ false }
    ensures { RunsKept result (is_failed errors.new) (E.contents (inner_of errors.old)) (E.contents (inner_of errors.new)) }
{
    end_kept(&rt.dump(path, output), errors)
}

/// Tells the fault of a session with a journal, or of one that was read, if there is one.
fn end_kept<E: Write>(answer: &Result<(), KeptFault>, errors: &mut Checked<E>) -> u8
    ensures { RunsKept result (is_failed errors.new) (E.contents (inner_of errors.old)) (E.contents (inner_of errors.new)) }
{
    match answer {
        Ok(()) => 0,
        Err(KeptFault::Script(fault)) => report(fault, errors),
        Err(KeptFault::Journal(fault)) => report_journal(fault, errors),
    }
}

/// Tells the fault of a server with a journal, if there is one.
fn end_server<E: Write>(answer: &Result<(), ServerFault>, errors: &mut Checked<E>) -> u8
    ensures { RunsKeptServer result (is_failed errors.new) (E.contents (inner_of errors.old)) (E.contents (inner_of errors.new)) }
{
    match answer {
        Ok(()) => 0,
        Err(ServerFault::Loop(fault)) => report_process(fault, errors),
        Err(ServerFault::Journal(fault)) => report_journal(fault, errors),
    }
}
