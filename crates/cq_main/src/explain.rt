//! What is wrong with the lines of a script is told.
ghost use Rattle.std.specs.Prelude.{◌≡◌, false};
ghost use Rattle.cq_lines.specs.Checks.{inner_of, is_failed};
ghost use Rattle.cq_main.specs.ExplainOutcomes.{RunsExplain};

use crate::report::report;
use cq_base::ChainSize;
use cq_explain::{explain_live, explain_script};
use cq_script::{Checked, ScriptFault};
use std::alloc::Global;
use std::io::{Read, Write};

/// The status where something was told.
const TOLD: u8 = 2;

/// Tells what is wrong with the lines of the reader, of a script on so many servers or of a live script, and gives the status with which
/// the program ends.
pub fn run_explain<R: Read, W: Write, E: Write>(
    alloc: Global,
    size: ChainSize,
    is_live: bool,
    reader: &mut Checked<R>,
    output: &mut Checked<W>,
    errors: &mut Checked<E>,
) -> u8
    requires reader { is_failed reader.old ≡ false }
    requires output { is_failed output.old ≡ false }
    ensures { RunsExplain result (is_failed errors.new) (E.contents (inner_of errors.old)) (E.contents (inner_of errors.new)) }
{
    if is_live {
        return end_explained(&explain_live(alloc, reader, output), errors);
    }
    end_explained(&explain_script(alloc, size, reader, output), errors)
}

/// Tells the fault, if there is one.
fn end_explained<E: Write>(answer: &Result<bool, ScriptFault>, errors: &mut Checked<E>) -> u8
    ensures { RunsExplain result (is_failed errors.new) (E.contents (inner_of errors.old)) (E.contents (inner_of errors.new)) }
{
    match answer {
        Ok(true) => TOLD,
        Ok(false) => 0,
        Err(fault) => report(fault, errors),
    }
}
