//! A line of a live run, and the step that it says.
ghost use Rattle.std.specs.Prelude.{◌≡◌, Ok, None, true};
ghost use Rattle.std.specs.List.{list_all};
ghost use Rattle.cq_json.specs.Readers.{Gives, same};
ghost use Rattle.cq_lines.specs.Lines.{is_blank_byte};
ghost use Rattle.cq_lines.specs.Grammars.{IsParsedAs};
ghost use Rattle.cq_live_script.specs.Line.{step_from, step_line};

use crate::step::read_step;
use cq_json::{ReadFault, parse};
use cq_lines::{LineFault, is_blank};
use cq_live_plan::LiveStep;
use std::alloc::Global;

fn read_object(alloc: Global, bytes: &[u8]) -> Result<LiveStep, ReadFault>
    ensures { Gives same result (step_from bytes.now) }
{
    let value = parse(alloc, bytes)?;
    read_step(alloc, &value)
}

/// The step that the line with these bytes, its line feed left out, says, if it isn't blank. A line that says nothing
/// that a live run can have is Bad, and so is one in which a text breaks its rule. A blank line takes no memory.
/// O(bytes).
#[tactic(auto, unfolding(crate::specs::Line::step_line))]
pub fn step_of(alloc: Global, bytes: &[u8]) -> Result<Option<LiveStep>, LineFault>
    ensures says { IsParsedAs result (step_line bytes.now) }
    ensures blank { list_all is_blank_byte bytes.now ≡ true → result ≡ Ok None }
{
    if is_blank(bytes) {
        return Ok(None);
    }
    match read_object(alloc, bytes) {
        Ok(step) => Ok(Some(step)),
        Err(ReadFault::Bad | ReadFault::Text(_)) => Err(LineFault::Bad),
        Err(ReadFault::Memory) => Err(LineFault::NoMemory),
    }
}
