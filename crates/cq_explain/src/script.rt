//! Scripts: each line that is bad, too long or refused is told, and the next one is looked at.
ghost use Rattle.std.specs.Prelude.{◌≡◌, is_none, false, IfOk};
ghost use Rattle.cq_explain.specs.Findings.{is_bad};
ghost use Rattle.cq_lines.specs.Checks.{is_failed};
ghost use Rattle.cq_script.specs.Line.{line_of};

use crate::bad::{explain_bad, explain_refused};
use crate::event::explain_event;
use crate::finding::Finding;
use crate::keys::OPERATIONS;
use crate::telling::{Looker, tell_lines};
use cq_base::{ChainSize, NoMemory};
use cq_lines::{Checked, LineFault, ScriptFault};
use cq_script::{Line, event_of};
use cq_world::Sim;
use std::alloc::Global;
use std::io::{Read, Write};

/// What is wrong with the line with these bytes, its line feed left out, behind the events before it; a good event happens.
/// O(bytes), and what the servers take for the event.
pub fn explain_line(alloc: Global, sim: &mut Sim, bytes: &[u8]) -> Result<Finding, NoMemory>
    // It is told as bad if and only if it is no line of a script.
    ensures bad { IfOk result (λ finding. is_bad finding ≡ is_none (line_of bytes.now)) }
{
    match event_of(alloc, bytes) {
        Ok(Line::Blank) => Ok(Finding::Nothing),
        Ok(Line::Event(event)) => explain_event(alloc, sim, &event),
        Ok(Line::Refused(fault)) => {
            let why = explain_refused(alloc, bytes, &fault)?;
            Ok(Finding::Refused(why))
        }
        Err(LineFault::Bad) => {
            let why = explain_bad(alloc, bytes, OPERATIONS)?;
            Ok(Finding::Bad(why))
        }
        Err(LineFault::NoMemory) => Err(NoMemory),
    }
}

/// Looks at the lines of a script.
#[derive(Drop)]
struct ScriptLooker {
    alloc: Global,
    sim: Sim,
}

impl Looker for ScriptLooker {
    fn look(&mut self, bytes: &[u8]) -> Result<Finding, NoMemory> {
        explain_line(self.alloc, &mut self.sim, bytes)
    }
}

/// Tells what is wrong with the lines of a script on so many servers, a line for each of them that is bad, too long, or refused, as it
/// is read. None ends it. The answer says whether something was told. O(bytes), and what the servers take.
pub fn explain_script<R: Read, W: Write>(
    alloc: Global,
    size: ChainSize,
    reader: &mut Checked<R>,
    output: &mut Checked<W>,
) -> Result<bool, ScriptFault>
    requires reader { is_failed reader.old ≡ false }
    requires output { is_failed output.old ≡ false }
{
    let sim = Sim::new(alloc, size)?;
    tell_lines(alloc, ScriptLooker { alloc, sim }, reader, output)
}
