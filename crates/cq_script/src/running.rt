//! Running lines as they are read, by the grammar of a script or of a session.
ghost use Rattle.std.specs.Prelude.{◌≡◌, ◌++◌, ℕ, List, Option, true, false, Err, OnOk};
ghost use Rattle.std.specs.Io.KnownBytes.{Consumes, Appends, IsAtEnd};
ghost use Rattle.cq_lines.specs.Faults.{ends_by_memory};
ghost use Rattle.cq_lines.specs.declared.limits.Limits.{Limits};
ghost use Rattle.cq_lines.specs.declared.fault.ScriptFault.TheVariants.{ReadFailed, WriteFailed};
ghost use Rattle.cq_script.specs.Runs.{OnWritten, is_cut_short};
ghost use Rattle.cq_script.specs.within.Played.{IsPrefixOfEnded, IsPrefixOfText, IsPlayed, Plays, RunsText};

use crate::outcome::run_batch;
use crate::script_line::ScriptLine;
use crate::writing::finish_writing;
use cq_base::ChainSize;
use cq_lines::{
    BYTES_LIMIT, CHUNK_SIZE, Limits, LineParser, LineReader, ScriptFault, Sink, Source, read_fault,
};
use cq_world::Sim;
use std::alloc::Global;

/// Runs the lines that the reader gives on so many servers, up to its end or to the first fault, and writes what comes
/// of each. It writes what comes of one chunk, and flushes it, before it reads the next. What was written is flushed
/// at the end too, unless the writing was cut short.
pub(crate) fn run_lines<P: LineParser<ScriptLine>, R: Source, W: Sink>(
    alloc: Global,
    parser: &mut P,
    limits: Limits,
    size: ChainSize,
    reader: &mut R,
    writer: &mut W,
) -> Result<(), ScriptFault>
    requires reader { R.has_failed reader.old ≡ false }
    requires writer { W.has_failed writer.old ≡ false }
    ensures runs { (input : List ℕ) × (output : List ℕ)
        × Consumes (R.remaining reader.old) (R.remaining reader.new) input
        × Appends (W.contents writer.old) (W.contents writer.new) output
        × RunsText P.grammar limits size result input (R.remaining reader.new) output
        × IsPrefixOfText P.grammar limits size input (R.remaining reader.new) output
        × (R.has_failed reader.new ≡ true → IsPrefixOfEnded P.grammar limits size input output) }
    ensures reader_sound { OnOk result (R.has_failed reader.new ≡ false) }
    ensures writer_sound { OnWritten result (W.has_failed writer.new ≡ false) }
    ensures flushed { OnWritten result (W.has_flushed writer.new ≡ true) }
    ensures read_failed { result ≡ Err ReadFailed → R.has_failed reader.new ≡ true }
    ensures write_failed { result ≡ Err WriteFailed → W.has_failed writer.new ≡ true }
{
    let mut sim = Sim::new(alloc, size)?;
    let mut lines = LineReader::new(alloc, limits);
    run_on(alloc, parser, &mut lines, &mut sim, reader, writer)
}

/// Runs what the reader gives behind what has been run, as `run_lines` does.
pub(crate) fn run_on<P: LineParser<ScriptLine>, R: Source, W: Sink>(
    alloc: Global,
    parser: &mut P,
    lines: &mut LineReader<ScriptLine>,
    sim: &mut Sim,
    reader: &mut R,
    writer: &mut W,
) -> Result<(), ScriptFault>
    requires reader { R.has_failed reader.old ≡ false }
    requires writer { W.has_failed writer.old ≡ false }
    ensures runs { (limits : Limits) (size : ℕ) (before written : List ℕ) → IsPlayed P.grammar limits size before lines.old sim.old written
        → (input : List ℕ) × (output : List ℕ)
        × Consumes (R.remaining reader.old) (R.remaining reader.new) input
        × Appends (W.contents writer.old) (W.contents writer.new) output
        × RunsText P.grammar limits size result (before ++ input) (R.remaining reader.new) (written ++ output)
        × IsPrefixOfText P.grammar limits size (before ++ input) (R.remaining reader.new) (written ++ output)
        × (R.has_failed reader.new ≡ true → IsPrefixOfEnded P.grammar limits size (before ++ input) (written ++ output)) }
    ensures reader_sound { OnOk result (R.has_failed reader.new ≡ false) }
    ensures writer_sound { OnWritten result (W.has_failed writer.new ≡ false) }
    ensures flushed { OnWritten result (W.has_flushed writer.new ≡ true) }
    ensures read_failed { result ≡ Err ReadFailed → R.has_failed reader.new ≡ true }
    ensures write_failed { result ≡ Err WriteFailed → W.has_failed writer.new ≡ true }
{
    let ended = run_chunks(alloc, parser, lines, sim, reader, writer);
    if was_cut_short(&ended) {
        return ended;
    }
    finish_writing(writer)?;
    ended
}

/// Whether the writing was cut short.
fn was_cut_short(answer: &Result<(), ScriptFault>) -> bool
    ensures { result ≡ is_cut_short answer.now }
{
    matches!(
        answer,
        Err(ScriptFault::WriteFailed | ScriptFault::NoMemory)
    )
}

/// Whether memory ran out.
fn ran_out(answer: &Result<(), ScriptFault>) -> bool
    ensures { result ≡ ends_by_memory answer.now }
{
    matches!(answer, Err(ScriptFault::NoMemory))
}

/// Runs each chunk as it comes, and then the end.
fn run_chunks<P: LineParser<ScriptLine>, R: Source, W: Sink>(
    alloc: Global,
    parser: &mut P,
    lines: &mut LineReader<ScriptLine>,
    sim: &mut Sim,
    reader: &mut R,
    writer: &mut W,
) -> Result<(), ScriptFault>
    ensures runs { (limits : Limits) (size : ℕ) (before written : List ℕ) → IsPlayed P.grammar limits size before lines.old sim.old written
        → (input : List ℕ) × (output : List ℕ)
        × Consumes (R.remaining reader.old) (R.remaining reader.new) input
        × Appends (W.contents writer.old) (W.contents writer.new) output
        × RunsText P.grammar limits size result (before ++ input) (R.remaining reader.new) (written ++ output)
        × IsPrefixOfText P.grammar limits size (before ++ input) (R.remaining reader.new) (written ++ output)
        × (R.has_failed reader.new ≡ true → IsPrefixOfEnded P.grammar limits size (before ++ input) (written ++ output)) }
    ensures sound { OnOk result (R.has_failed reader.new ≡ false) }
    ensures read_failed { result ≡ Err ReadFailed → R.has_failed reader.new ≡ true }
    ensures write_failed { result ≡ Err WriteFailed → W.has_failed writer.new ≡ true }
{
    let mut chunk = [0; CHUNK_SIZE];
    for _ in 0..BYTES_LIMIT {
        match reader.read(&mut chunk) {
            Ok(0) => {
                if reader.failed() {
                    return Err(ScriptFault::ReadFailed);
                }
                return run_end(alloc, parser, lines, sim, writer);
            }
            Ok(count) => run_chunk(alloc, parser, lines, sim, &chunk[..count], writer)?,
            Err(_) => return Err(read_fault(reader)),
        }
    }
    Err(ScriptFault::TooManyLines)
}

/// Runs the lines that end in this chunk, and writes what comes of them.
pub(crate) fn run_chunk<P: LineParser<ScriptLine>, W: Sink>(
    alloc: Global,
    parser: &mut P,
    lines: &mut LineReader<ScriptLine>,
    sim: &mut Sim,
    chunk: &[u8],
    writer: &mut W,
) -> Result<(), ScriptFault>
    ensures plays { (limits : Limits) (size : ℕ) (input written : List ℕ) → IsPlayed P.grammar limits size input lines.old sim.old written
        → (output : List ℕ) × Appends (W.contents writer.old) (W.contents writer.new) output
        × Plays P.grammar limits size result (input ++ chunk.now) lines.new sim.new (written ++ output) }
    ensures not_read { ¬ (result ≡ Err ReadFailed) }
    ensures flushed { OnOk result (W.has_flushed writer.new ≡ true) }
    ensures failed { result ≡ Err WriteFailed → W.has_failed writer.new ≡ true }
{
    let read = lines.feed(parser, chunk);
    if ran_out(&read) {
        return read;
    }
    run_batch(alloc, sim, lines.values(), writer)?;
    lines.clear_values();
    read
}

/// Runs the partial line, which is the last one, if there is one, and writes what comes of it.
fn run_end<P: LineParser<ScriptLine>, W: Sink>(
    alloc: Global,
    parser: &mut P,
    lines: &mut LineReader<ScriptLine>,
    sim: &mut Sim,
    writer: &mut W,
) -> Result<(), ScriptFault>
    ensures runs { (limits : Limits) (size : ℕ) (input written : List ℕ) (left : Option (List ℕ)) → IsAtEnd left
        → IsPlayed P.grammar limits size input lines.old sim.old written
        → (output : List ℕ) × Appends (W.contents writer.old) (W.contents writer.new) output
        × RunsText P.grammar limits size result input left (written ++ output)
        × IsPrefixOfText P.grammar limits size input left (written ++ output) }
    ensures not_read { ¬ (result ≡ Err ReadFailed) }
    ensures flushed { OnOk result (W.has_flushed writer.new ≡ true) }
    ensures failed { result ≡ Err WriteFailed → W.has_failed writer.new ≡ true }
{
    let read = lines.finish(parser);
    if ran_out(&read) {
        return read;
    }
    run_batch(alloc, sim, lines.values(), writer)?;
    read
}
