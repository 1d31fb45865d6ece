//! Running a script as it is read: from a reader of its bytes to a writer of what comes of its lines.
ghost use Rattle.std.specs.Prelude.{◌≡◌, ◌≤◌, ℕ, List, true, false, Err, OnOk};
ghost use Rattle.std.specs.Io.KnownBytes.{Consumes, Appends};
ghost use Rattle.cq_lines.specs.declared.fault.ScriptFault.TheVariants.{ReadFailed, WriteFailed};
ghost use Rattle.cq_script.specs.Replays.{Headlines, IsEndedPrefix, Replays};
ghost use Rattle.cq_script.specs.Runs.{OnWritten};

use crate::running::run_lines;
use crate::script_line::ScriptParser;
use cq_base::ChainSize;
use cq_lines::{LINE_LIMIT, LINES_LIMIT, Limits, ScriptFault, Sink, Source};
use std::alloc::Global;

/// Reads a script, to its end or to its first fault, runs its events on so many servers, and writes what comes of each
/// line, in order of the lines. What one read brings is run and written, and passed on, before more is read: at a
/// terminal, or behind a pipe, a line is answered when it has ended. A fault of the writing, or want of memory, is
/// answered in place of one of the script. Where memory runs out, what came of the events before is written, but of
/// those that the same read brought only if it ran out in the run. Where a read has failed, nothing is told of a line
/// that had begun. What was written is flushed, unless the writing was cut short. O(bytes of the script), and what the
/// servers take for its events. Beside the servers it holds what one read brings, the partial line, and the memory that
/// lines of up to 65,536 bytes took for texts with escapes.
pub fn replay<R: Source, W: Sink>(
    alloc: Global,
    size: ChainSize,
    reader: &mut R,
    writer: &mut W,
) -> Result<(), ScriptFault>
    requires reader { R.has_failed reader.old ≡ false }
    requires writer { W.has_failed writer.old ≡ false }
    ensures replays { (input : List ℕ) × (output : List ℕ)
        × Consumes (R.remaining reader.old) (R.remaining reader.new) input
        × Appends (W.contents writer.old) (W.contents writer.new) output
        × Replays size result input (R.remaining reader.new) output
        × (R.has_failed reader.new ≡ true → IsEndedPrefix size input output) }
    ensures headline { 1 ≤ size → (input : List ℕ) × (output : List ℕ)
        × Consumes (R.remaining reader.old) (R.remaining reader.new) input
        × Appends (W.contents writer.old) (W.contents writer.new) output
        × Headlines size input (R.remaining reader.new) output }
    ensures reader_sound { OnOk result (R.has_failed reader.new ≡ false) }
    ensures writer_sound { OnWritten result (W.has_failed writer.new ≡ false) }
    ensures flushed { OnWritten result (W.has_flushed writer.new ≡ true) }
    ensures read_failed { result ≡ Err ReadFailed → R.has_failed reader.new ≡ true }
    ensures write_failed { result ≡ Err WriteFailed → W.has_failed writer.new ≡ true }
{
    let limits = Limits {
        line_len: LINE_LIMIT,
        line_count: LINES_LIMIT,
    };
    let mut parser = ScriptParser::new(alloc);
    run_lines(alloc, &mut parser, limits, size, reader, writer)
}
