//! A session that was cut short, and goes on behind what was kept of its lines.
ghost use Rattle.std.specs.Prelude.{◌≡◌, ◌≤◌, ◌++◌, [], ℕ, List, true, false, option_map, Err, IfOk, IfSome, OnOk};
ghost use Rattle.std.specs.Io.KnownBytes.{Consumes, Appends};
ghost use Rattle.cq_lines.specs.declared.fault.ScriptFault.TheVariants.{ReadFailed, WriteFailed};
ghost use Rattle.cq_lines.specs.declared.text.TheConstants.{BYTES_LIMIT};
ghost use Rattle.cq_script.specs.Resumed.{HasRun, GoesOn, GoesOnByOneObject, IsBaseOf, lines_ended, world_behind};
ghost use Rattle.cq_script.specs.Runs.{OnWritten};
ghost use Rattle.cq_script.specs.Sessions.{IsSessionEndedPrefix, session_text};
ghost use Rattle.cq_script.specs.within.Played.{session_limits};
ghost use Rattle.cq_lines.specs.Lines.{ended_part};
ghost use Rattle.cq_world.specs.Stands.{StandsFor};

use crate::running::{run_chunk, run_on};
use crate::script_line::{ScriptLine, SessionParser};
use cq_base::{ChainSize, NoMemory};
use cq_lines::{BYTES_LIMIT, Checked, LINE_LIMIT, Limits, LineReader, ScriptFault, Sink, Source};
use cq_store::Store;
use cq_world::Sim;
use std::alloc::Global;
use std::io;

/// A session of which some bytes have been run already, from its first one on.
#[derive(Drop)]
pub struct ResumedSession {
    alloc: Global,
    parser: SessionParser,
    lines: LineReader<ScriptLine>,
    sim: Sim,
}

/// Whether a reader keeps the limits of a session: all do that are begun here.
fn has_session_limits(lines: &LineReader<ScriptLine>) -> bool
    ensures { result ≡ true → lines.now.limits ≡ session_limits }
{
    let limits = lines.limits();
    limits.line_len == LINE_LIMIT && limits.line_count == BYTES_LIMIT
}

/// Whether all that a reader of a session knows is how many lines have ended: none has begun, and no value is left.
fn is_between_lines(lines: &LineReader<ScriptLine>) -> bool
    ensures limits { result ≡ true → lines.now.limits ≡ session_limits }
    ensures values { result ≡ true → lines.now.values ≡ [] }
    ensures partial { result ≡ true → lines.now.partial ≡ [] }
{
    if lines.is_in_line() || !lines.values().is_empty() {
        return false;
    }
    has_session_limits(lines)
}

impl ResumedSession {
    /// The begin of a session on so many servers.
    pub fn new(alloc: Global, size: ChainSize) -> Result<ResumedSession, NoMemory>
        ensures { IfOk result (HasRun size []) }
    {
        let sim = Sim::new(alloc, size)?;
        let limits = Limits {
            line_len: LINE_LIMIT,
            line_count: BYTES_LIMIT,
        };
        let lines = LineReader::new(alloc, limits);
        Ok(ResumedSession {
            alloc,
            parser: SessionParser::new(alloc),
            lines,
            sim,
        })
    }

    /// A session that goes on behind so many lines, which left that store: `store_at_rest` gave it. O(1).
    pub fn behind(alloc: Global, store: Store, lines: u64) -> Result<ResumedSession, NoMemory>
        requires { lines ≤ BYTES_LIMIT }
        ensures { (size : ℕ) (bytes : List ℕ) → IsBaseOf size store lines bytes → IfOk result (HasRun size bytes) }
    {
        let sim = Sim::alone(alloc, store)?;
        let limits = Limits {
            line_len: LINE_LIMIT,
            line_count: BYTES_LIMIT,
        };
        let lines = LineReader::behind(alloc, limits, lines);
        Ok(ResumedSession {
            alloc,
            parser: SessionParser::new(alloc),
            lines,
            sim,
        })
    }

    /// How many lines have ended: O(1).
    pub fn line_count(&self) -> u64
        ensures { result ≡ lines_ended self.now }
    {
        self.lines.line_count()
    }

    /// Its world: O(1).
    pub fn sim(&self) -> &Sim
        ensures { (size : ℕ) (bytes : List ℕ) → HasRun size bytes self.now → StandsFor result.now (world_behind size bytes) }
    {
        &self.sim
    }

    /// The store by which it can be begun again, with the number of its lines: none while a line has begun, while a message or an
    /// answer is on its way, or where there ever was another server than one. O(links).
    pub fn store_at_rest(&self) -> Option<&Store>
        ensures base { (size : ℕ) (bytes : List ℕ) → HasRun size bytes self.now
            → IfSome (option_map (λ s. s.now) result) (λ store. IsBaseOf size store (lines_ended self.now) bytes) }

        // The session has run all bytes for which these stand, whichever it did run.
        ensures again { (size : ℕ) (bytes : List ℕ) → IfSome (option_map (λ s. s.now) result) (λ store. IsBaseOf size store (lines_ended self.now) bytes → HasRun size bytes self.now) }
    {
        if !is_between_lines(&self.lines) {
            return None;
        }
        self.sim.store_alone()
    }

    /// Runs the lines that end in these bytes, and writes nothing of them. After a fault the session is to be begun anew:
    /// it has no memory (20), or more bytes than can be counted (63).
    pub fn restore(&mut self, bytes: &[u8]) -> Result<(), ScriptFault>
        ensures { (size : ℕ) (before : List ℕ) → HasRun size before self.old → OnOk result (HasRun size (before ++ bytes.now) self.new) }
    {
        let mut nowhere = Checked::new(io::sink());
        run_chunk(
            self.alloc,
            &mut self.parser,
            &mut self.lines,
            &mut self.sim,
            bytes,
            &mut nowhere,
        )
    }

    /// Runs the lines that end in a chunk behind what was run before, writes what comes of them, and flushes it. After a
    /// fault the session is at its end.
    pub fn feed<W: Sink>(&mut self, chunk: &[u8], writer: &mut W) -> Result<(), ScriptFault>
        ensures runs { (size : ℕ) (before : List ℕ) → HasRun size before self.old → OnOk result (HasRun size (before ++ chunk.now) self.new) }
        ensures writes { (size : ℕ) (before : List ℕ) → HasRun size before self.old → (output : List ℕ)
            × Appends (W.contents writer.old) (W.contents writer.new) output
            × IsSessionEndedPrefix size (before ++ chunk.now) (session_text size (ended_part before) ++ output)
            × OnOk result (session_text size (ended_part (before ++ chunk.now)) ≡ session_text size (ended_part before) ++ output) }
        ensures flushed { OnOk result (W.has_flushed writer.new ≡ true) }
        ensures not_read { ¬ (result ≡ Err ReadFailed) }
        ensures write_failed { result ≡ Err WriteFailed → W.has_failed writer.new ≡ true }
    {
        run_chunk(
            self.alloc,
            &mut self.parser,
            &mut self.lines,
            &mut self.sim,
            chunk,
            writer,
        )
    }

    /// Goes on with lines as they come, up to the end of the reader or to a fault, as `session` does: with what was run
    /// before, they write what one session writes on both.
    pub fn go_on<R: Source, W: Sink>(
        &mut self,
        reader: &mut R,
        writer: &mut W,
    ) -> Result<(), ScriptFault>
        requires reader { R.has_failed reader.old ≡ false }
        requires writer { W.has_failed writer.old ≡ false }
        ensures goes_on { (size : ℕ) (before : List ℕ) → HasRun size before self.old → (input : List ℕ) × (output : List ℕ)
            × Consumes (R.remaining reader.old) (R.remaining reader.new) input
            × Appends (W.contents writer.old) (W.contents writer.new) output
            × GoesOn size result before input (R.remaining reader.new) output }
        ensures headline { (size : ℕ) (before : List ℕ) → HasRun size before self.old → 1 ≤ size → (input : List ℕ) × (output : List ℕ)
            × Consumes (R.remaining reader.old) (R.remaining reader.new) input
            × Appends (W.contents writer.old) (W.contents writer.new) output
            × GoesOnByOneObject size before input (R.remaining reader.new) output }
        ensures reader_sound { OnOk result (R.has_failed reader.new ≡ false) }
        ensures writer_sound { OnWritten result (W.has_failed writer.new ≡ false) }
        ensures flushed { OnWritten result (W.has_flushed writer.new ≡ true) }
        ensures read_failed { result ≡ Err ReadFailed → R.has_failed reader.new ≡ true }
        ensures write_failed { result ≡ Err WriteFailed → W.has_failed writer.new ≡ true }
    {
        run_on(
            self.alloc,
            &mut self.parser,
            &mut self.lines,
            &mut self.sim,
            reader,
            writer,
        )
    }
}
