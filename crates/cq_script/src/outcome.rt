//! What comes of the lines of a script.
ghost use Rattle.std.specs.Prelude.{◌≡◌, ◌++◌, Err, OnOk, OnErr, true};
ghost use Rattle.cq_script.specs.Runs.{Takes};
ghost use Rattle.cq_lines.specs.declared.fault.ScriptFault.TheVariants.{ReadFailed, WriteFailed};
ghost use Rattle.cq_script.specs.within.Played.{after_lines};
ghost use Rattle.cq_script.specs.Output.{after_line, event_text, output, text_from};
ghost use Rattle.cq_events.specs.Events.{after, refusal_of};
ghost use Rattle.cq_world.specs.Stands.{Shows, StandsFor};

use crate::script_line::ScriptLine;
use crate::writing::{finish_writing, write_text};
use cq_answers::{write_answer, write_refused};
use cq_base::NoMemory;
use cq_chain::WorldFault;
use cq_lines::{ScriptFault, Sink};
use cq_world::{Event, Sim};
use std::alloc::Global;

/// After how many bytes of text the writer is given them.
const TEXT_SIZE: usize = 65_536;

/// Has the event happen, which the line with that number says, and adds what is written of it to the text: the answer
/// that it gives, or why it is refused. That is nothing where the event does neither, and after `NoMemory`.
fn run_event(number: u64, sim: &mut Sim, event: &Event, text: &mut Vec<u8>) -> Result<(), NoMemory>
    ensures ok { Shows sim.old (λ w. OnOk result ((text.new.items ≡ text.old.items ++ event_text number w event.now (refusal_of w event.now))
        × StandsFor sim.new (after w event.now))) }
    ensures err { OnErr result (text.new.items ≡ text.old.items) }
{
    match sim.step(event) {
        Ok(Some(answer)) => write_answer(text, number, &answer),
        Ok(None) => Ok(()),
        Err(fault) => match fault {
            WorldFault::NoMemory => Err(NoMemory),
            _ => write_refused(text, number, fault.code(), fault.name()),
        },
    }
}

/// Runs the line, and adds what comes of it to the text: O(what the servers do for its event, and the bytes of
/// what is added). After `NoMemory` the text is as before.
fn run_line(sim: &mut Sim, line: &ScriptLine, text: &mut Vec<u8>) -> Result<(), NoMemory>
    ensures ok { Shows sim.old (λ w. OnOk result ((text.new.items ≡ text.old.items ++ output w line.now)
        × StandsFor sim.new (after_line w line.now.event))) }
    ensures err { OnErr result (text.new.items ≡ text.old.items) }
{
    match &line.event {
        Ok(event) => run_event(line.number, sim, event, text),
        Err(refusal) => write_refused(text, line.number, refusal.code(), refusal.name()),
    }
}

/// Runs the lines one after another, writes what comes of each, and flushes it. The text of many is written at once, so
/// that beside the servers no more is held than the text of one, and `TEXT_SIZE` bytes.
pub(crate) fn run_batch<W: Sink>(
    alloc: Global,
    sim: &mut Sim,
    lines: &[ScriptLine],
    writer: &mut W,
) -> Result<(), ScriptFault>
    ensures takes { Shows sim.old (λ w. Takes result (text_from w lines.now) (W.contents writer.old) (W.contents writer.new)) }
    ensures runs { Shows sim.old (λ w. OnOk result (StandsFor sim.new (after_lines w lines.now))) }
    ensures not_read { ¬ (result ≡ Err ReadFailed) }
    ensures flushed { OnOk result (W.has_flushed writer.new ≡ true) }
    ensures failed { result ≡ Err WriteFailed → W.has_failed writer.new ≡ true }
{
    let mut text = Vec::new(alloc);
    for line in lines {
        if run_line(sim, line, &mut text).is_err() {
            write_text(writer, text.as_slice())?;
            return Err(ScriptFault::NoMemory);
        }
        if text.len() >= TEXT_SIZE {
            write_text(writer, text.as_slice())?;
            text.clear();
        }
    }
    write_text(writer, text.as_slice())?;
    finish_writing(writer)
}
