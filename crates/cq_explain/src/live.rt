//! Live scripts: each line that is bad or too long is told, and the next one is looked at.
ghost use Rattle.std.specs.Prelude.{◌≡◌, is_none, false, IfOk};
ghost use Rattle.cq_explain.specs.Findings.{is_bad};
ghost use Rattle.cq_lines.specs.Checks.{is_failed};
ghost use Rattle.cq_live_script.specs.Line.{step_line};

use crate::bad::explain_bad;
use crate::finding::Finding;
use crate::keys::STEPS;
use crate::telling::{Looker, tell_lines};
use cq_base::NoMemory;
use cq_lines::{Checked, LineFault, ScriptFault};
use cq_live_script::step_of;
use std::alloc::Global;
use std::io::{Read, Write};

/// What is wrong with the line with these bytes of a live script, its line feed left out. Whether the step can be done isn't looked at.
/// O(bytes).
pub fn explain_step(alloc: Global, bytes: &[u8]) -> Result<Finding, NoMemory>
    // It is told as bad if and only if it is no line of a live script.
    ensures bad { IfOk result (λ finding. is_bad finding ≡ is_none (step_line bytes.now)) }
{
    match step_of(alloc, bytes) {
        Ok(_) => Ok(Finding::Nothing),
        Err(LineFault::Bad) => {
            let why = explain_bad(alloc, bytes, STEPS)?;
            Ok(Finding::Bad(why))
        }
        Err(LineFault::NoMemory) => Err(NoMemory),
    }
}

/// Looks at the lines of a live script.
#[derive(Drop)]
struct LiveLooker {
    alloc: Global,
}

impl Looker for LiveLooker {
    fn look(&mut self, bytes: &[u8]) -> Result<Finding, NoMemory> {
        explain_step(self.alloc, bytes)
    }
}

/// Tells what is wrong with the lines of a live script, a line for each of them that is bad or too long, as it is read. None ends it.
/// The answer says whether something was told. O(bytes).
pub fn explain_live<R: Read, W: Write>(
    alloc: Global,
    reader: &mut Checked<R>,
    output: &mut Checked<W>,
) -> Result<bool, ScriptFault>
    requires reader { is_failed reader.old ≡ false }
    requires output { is_failed output.old ≡ false }
{
    tell_lines(alloc, LiveLooker { alloc }, reader, output)
}
