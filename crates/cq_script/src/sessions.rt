//! Running a session: lines as in a script, of which none ends it.
ghost use Rattle.std.specs.Prelude.{◌≡◌, ◌≤◌, ℕ, List, true, false, Err, OnOk};
ghost use Rattle.std.specs.Io.KnownBytes.{Consumes, Appends};
ghost use Rattle.cq_lines.specs.declared.fault.ScriptFault.TheVariants.{ReadFailed, WriteFailed};
ghost use Rattle.cq_script.specs.Runs.{OnWritten};
ghost use Rattle.cq_script.specs.Sessions.{IsSessionEndedPrefix, SessionHeadlines, Sessions};

use crate::running::run_lines;
use crate::script_line::SessionParser;
use cq_base::ChainSize;
use cq_lines::{BYTES_LIMIT, LINE_LIMIT, Limits, ScriptFault, Sink, Source};
use std::alloc::Global;

/// Runs lines on so many servers as they come, for a program at the other end of a pipe or a person at a terminal. What
/// one read brings is run, and what comes of it is written and passed on, before more is read. A bad line (61) and one
/// that is too long (62) are told by a line of output like that of a refused event, and the session goes on; of a line
/// that is too long nothing is kept. It ends where the reader ends or fails (64), where the writer fails (65), where
/// memory runs out (20), and with TooManyLines (63) where reads or lines can't be counted in 64 bits any more. O(bytes that
/// come), and what the servers take for the events. Beside the servers it holds what one read brings, the line that has
/// begun, and the memory that lines of up to 65,536 bytes took for texts with escapes.
pub fn session<R: Source, W: Sink>(
    alloc: Global,
    size: ChainSize,
    reader: &mut R,
    writer: &mut W,
) -> Result<(), ScriptFault>
    requires reader { R.has_failed reader.old ≡ false }
    requires writer { W.has_failed writer.old ≡ false }
    ensures sessions { (input : List ℕ) × (output : List ℕ)
        × Consumes (R.remaining reader.old) (R.remaining reader.new) input
        × Appends (W.contents writer.old) (W.contents writer.new) output
        × Sessions size result input (R.remaining reader.new) output
        × (R.has_failed reader.new ≡ true → IsSessionEndedPrefix size input output) }
    ensures headline { 1 ≤ size → (input : List ℕ) × (output : List ℕ)
        × Consumes (R.remaining reader.old) (R.remaining reader.new) input
        × Appends (W.contents writer.old) (W.contents writer.new) output
        × SessionHeadlines size input (R.remaining reader.new) output }
    ensures reader_sound { OnOk result (R.has_failed reader.new ≡ false) }
    ensures writer_sound { OnWritten result (W.has_failed writer.new ≡ false) }
    ensures flushed { OnWritten result (W.has_flushed writer.new ≡ true) }
    ensures read_failed { result ≡ Err ReadFailed → R.has_failed reader.new ≡ true }
    ensures write_failed { result ≡ Err WriteFailed → W.has_failed writer.new ≡ true }
{
    let limits = Limits {
        line_len: LINE_LIMIT,
        line_count: BYTES_LIMIT,
    };
    let mut parser = SessionParser::new(alloc);
    run_lines(alloc, &mut parser, limits, size, reader, writer)
}
