//! How faults are told, and the status that the program ends with.
ghost use Rattle.std.specs.Prelude.{◌≡◌};
ghost use Rattle.cq_lines.specs.Checks.{inner_of, is_failed};
ghost use Rattle.cq_main.specs.Outcomes.{EndsAt};
ghost use Rattle.cq_main.specs.Statuses.{fault_line, status_of};

use cq_script::{Checked, ScriptFault};
use std::io::Write;

/// The line of the script at which the fault is, if it is at one.
fn line_of(fault: &ScriptFault) -> Option<u64>
    ensures { result ≡ fault_line fault.now }
{
    match fault {
        ScriptFault::BadLine(line) | ScriptFault::LineTooLong(line) => Some(*line),
        ScriptFault::TooManyLines
        | ScriptFault::ReadFailed
        | ScriptFault::WriteFailed
        | ScriptFault::NoMemory => None,
    }
}

/// Writes the line of a fault, such as `cq: 61 BadLine line 3`, and gives the status with which the program
/// ends: 2 where the script is at fault, and else 3. That the line can't be written changes nothing.
pub fn report<E: Write>(fault: &ScriptFault, errors: &mut Checked<E>) -> u8
    ensures { EndsAt fault.now result (is_failed errors.new) (E.contents (inner_of errors.old))
        (E.contents (inner_of errors.new)) }
{
    let code = fault.code();
    let name = fault.name();
    match line_of(fault) {
        Some(line) => errors.print(format_args!("cq: {code} {name} line {line}\n")),
        None => errors.print(format_args!("cq: {code} {name}\n")),
    }
    status_of(fault)
}

/// The status with which a fault ends the program.
fn status_of(fault: &ScriptFault) -> u8
    ensures { result ≡ status_of fault.now }
{
    match fault {
        ScriptFault::BadLine(_) | ScriptFault::LineTooLong(_) | ScriptFault::TooManyLines => 2,
        ScriptFault::ReadFailed | ScriptFault::WriteFailed | ScriptFault::NoMemory => 3,
    }
}
