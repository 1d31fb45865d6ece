//! How the faults of a process are told.
ghost use Rattle.std.specs.Prelude.{◌≡◌};
ghost use Rattle.cq_lines.specs.Checks.{inner_of, is_failed};
ghost use Rattle.cq_main.specs.ProcessOutcomes.{EndsAtProcess, EndsLoaded, EndsProcess};
ghost use Rattle.cq_main.specs.ProcessStatuses.{process_code_of, process_name_of};

use cq_processes::{LoadEnd, LoopFault};
use cq_script::{Checked, Sink};
use std::io::Write;

/// The status with which a fault of a process ends the program.
const FAILED: u8 = 3;

/// The status where what came first is no store.
const NOT_LOADED: u8 = 5;

/// The number that stands for the fault.
fn code_of(fault: &LoopFault) -> u16
    ensures { result ≡ process_code_of fault.now }
{
    match fault {
        LoopFault::NoMemory => 20,
        LoopFault::ReadFailed => 64,
        LoopFault::WriteFailed => 65,
        LoopFault::Unanswered => 75,
        LoopFault::Interrupted => 76,
        LoopFault::TooManyBytes => 77,
    }
}

/// Its name.
fn name_of(fault: &LoopFault) -> &'static str
    ensures { result.now ≡ process_name_of fault.now }
{
    match fault {
        LoopFault::NoMemory => "NoMemory",
        LoopFault::ReadFailed => "ReadFailed",
        LoopFault::WriteFailed => "WriteFailed",
        LoopFault::Unanswered => "Unanswered",
        LoopFault::Interrupted => "Interrupted",
        LoopFault::TooManyBytes => "TooManyBytes",
    }
}

/// Writes the line of a fault, such as `cq: 65 WriteFailed`, and gives the status with which the program ends.
pub fn report_process<E: Write>(fault: &LoopFault, errors: &mut Checked<E>) -> u8
    ensures { EndsAtProcess fault.now result (is_failed errors.new) (E.contents (inner_of errors.old))
        (E.contents (inner_of errors.new)) }
{
    let code = code_of(fault);
    let name = name_of(fault);
    errors.print(format_args!("cq: {code} {name}\n"));
    FAILED
}

/// Writes the line of a fault, if there is one, and gives the status with which the program ends.
pub fn end_process<E: Write>(answer: &Result<(), LoopFault>, errors: &mut Checked<E>) -> u8
    ensures { EndsProcess answer.now result (is_failed errors.new) (E.contents (inner_of errors.old))
        (E.contents (inner_of errors.new)) }
{
    match answer {
        Ok(()) => 0,
        Err(fault) => report_process(fault, errors),
    }
}

/// The same of a process that begins with a store. Where what came first is none, that has a status of its own.
pub fn end_loaded<E: Write>(answer: &Result<(), LoadEnd>, errors: &mut Checked<E>) -> u8
    ensures { EndsLoaded answer.now result (is_failed errors.new) (E.contents (inner_of errors.old))
        (E.contents (inner_of errors.new)) }
{
    match answer {
        Ok(()) => 0,
        Err(LoadEnd::Loop(fault)) => report_process(fault, errors),
        Err(LoadEnd::NotLoaded) => {
            errors.print("cq: 78 NotLoaded\n");
            NOT_LOADED
        }
    }
}
