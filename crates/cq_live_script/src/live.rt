//! Reading a live script.
ghost use Rattle.std.specs.Prelude.{◌≡◌, ℕ, List, false, true, Err, OnOk};
ghost use Rattle.std.specs.Io.KnownBytes.{Consumes};
ghost use Rattle.cq_lines.specs.declared.fault.ScriptFault.TheVariants.{ReadFailed};
ghost use Rattle.cq_live_script.specs.Lines.{ReadsLive};

use crate::step_line::step_of;
use cq_lines::{
    LINE_LIMIT, LINES_LIMIT, Limits, LineFault, LineParser, ScriptFault, Source, read_lines,
};
use cq_live_plan::LiveStep;
use std::alloc::Global;

/// Parses each line to its step.
#[derive(Drop)]
struct StepParser {
    alloc: Global,
}

impl LineParser<LiveStep> for StepParser {
    ghost use Rattle.cq_live_script.specs.Lines.{step_grammar};

    ghost grammar = { step_grammar };

    fn parse(&mut self, _number: u64, bytes: &[u8]) -> Result<Option<LiveStep>, LineFault> {
        step_of(self.alloc, bytes)
    }

    fn parse_overlong(&mut self, _number: u64) -> Result<Option<LiveStep>, LineFault> {
        Err(LineFault::Bad)
    }
}

/// Reads a live script, to its end or to its first fault: the steps that its lines say, in order. ReadFailed is told only
/// where no fault stood before it, NoMemory at any place, and WriteFailed never. Beside the steps it holds one chunk of
/// what it reads, and the partial line. O(bytes).
pub fn read_live<R: Source>(alloc: Global, reader: &mut R) -> Result<Vec<LiveStep>, ScriptFault>
    requires { R.has_failed reader.old ≡ false }
    ensures reads { (input : List ℕ)
        × Consumes (R.remaining reader.old) (R.remaining reader.new) input
        × ReadsLive result input (R.remaining reader.new) }
    ensures sound { OnOk result (R.has_failed reader.new ≡ false) }
    ensures read_failed { result ≡ Err ReadFailed → R.has_failed reader.new ≡ true }
{
    let limits = Limits {
        line_len: LINE_LIMIT,
        line_count: LINES_LIMIT,
    };
    read_lines(alloc, &mut StepParser { alloc }, limits, reader)
}
