//! A session whose lines may ask what its world holds.
ghost use Rattle.std.specs.Prelude.{◌≡◌, ◌++◌, ◌∷◌, [], ℕ, List, false, IfOk, OnOk};
ghost use Rattle.cq_lines.specs.Lines.{has_line_feed};
ghost use Rattle.cq_script.specs.Resumed.{HasRun, world_behind};
ghost use Rattle.cq_show.specs.Worlds.{world_text};
ghost use Rattle.cq_watching.specs.Coming.{Come, after_bytes, after_end, asks, nothing_yet};
ghost use Rattle.cq_watching.specs.Watching.{Adds, Keeps, answered_text, line_text, watched_behind};

use cq_base::{ChainSize, NoMemory};
use cq_lines::{ScriptFault, Sink, cut_line};
use cq_script::{ResumedSession, finish_writing, write_text};
use cq_show::world_line;
use std::alloc::Global;

/// The line that asks.
const SHOW: &[u8] = b"{\"op\":\"show\"}";

/// A session, and the line that has begun.
#[derive(Drop)]
pub(crate) struct Watcher {
    alloc: Global,
    session: ResumedSession,
    line: Vec<u8>,
}

/// Whether the line asks what the world holds.
fn is_show(line: &[u8]) -> bool
    ensures { result ≡ asks line.now }
{
    line == SHOW
}

/// Writes the line that tells what the world holds, and flushes it.
fn tell<W: Sink>(alloc: Global, session: &ResumedSession, writer: &mut W) -> Result<(), ScriptFault>
    ensures { (size : ℕ) (bytes : List ℕ) → HasRun size bytes session.now
        → Adds result (world_text (world_behind size bytes)) (W.contents writer.old) (W.contents writer.new) }
{
    let line = world_line(alloc, session.sim())?;
    write_text(writer, line.as_slice())?;
    finish_writing(writer)
}

/// Runs these bytes, and writes what comes of the lines that end in them.
fn run<W: Sink>(
    session: &mut ResumedSession,
    bytes: &[u8],
    writer: &mut W,
) -> Result<(), ScriptFault>
    ensures adds { (size : ℕ) (before : List ℕ) → HasRun size before session.old
        → Adds result (answered_text size before bytes.now) (W.contents writer.old) (W.contents writer.new) }
    ensures runs { (size : ℕ) (before : List ℕ) → HasRun size before session.old
        → OnOk result (HasRun size (before ++ bytes.now) session.new) }
{
    session.feed(bytes, writer)
}

/// Runs a blank line, and writes what the world holds then.
fn answer<W: Sink>(
    alloc: Global,
    session: &mut ResumedSession,
    writer: &mut W,
) -> Result<(), ScriptFault>
    ensures adds { (size : ℕ) (before : List ℕ) → HasRun size before session.old
        → Adds result (answered_text size before (10 ∷ []) ++ world_text (world_behind size (before ++ 10 ∷ [])))
        (W.contents writer.old) (W.contents writer.new) }
    ensures runs { (size : ℕ) (before : List ℕ) → HasRun size before session.old
        → OnOk result (HasRun size (before ++ 10 ∷ []) session.new) }
{
    run(session, b"\n", writer)?;
    tell(alloc, session, writer)
}

impl Watcher {
    /// Before the first line, on so many servers.
    pub(crate) fn new(alloc: Global, size: ChainSize) -> Result<Watcher, NoMemory>
        ensures { IfOk result (Keeps size nothing_yet) }
    {
        let session = ResumedSession::new(alloc, size)?;
        Ok(Watcher {
            alloc,
            session,
            line: Vec::new(alloc),
        })
    }

    /// Keeps a part of a line.
    fn keep(&mut self, part: &[u8]) -> Result<(), NoMemory>
        requires { has_line_feed part.now ≡ false }
        ensures { (size : ℕ) (come : Come) → Keeps size come self.old → OnOk result (Keeps size (after_bytes come part.now) self.new) }
    {
        self.line.extend_from_slice(part)?;
        Ok(())
    }

    /// Ends the line that has begun, and writes what comes of it.
    pub(crate) fn end_line<W: Sink>(&mut self, writer: &mut W) -> Result<(), ScriptFault>
        ensures adds { (size : ℕ) (come : Come) → Keeps size come self.old
            → Adds result (line_text size come) (W.contents writer.old) (W.contents writer.new) }
        ensures keeps { (size : ℕ) (come : Come) → Keeps size come self.old → OnOk result (Keeps size (after_end come) self.new) }
    {
        if is_show(self.line.as_slice()) {
            self.line.clear();
            return answer(self.alloc, &mut self.session, writer);
        }
        self.line.push(b'\n')?;
        run(&mut self.session, self.line.as_slice(), writer)?;
        self.line.clear();
        Ok(())
    }

    /// Runs the rest of a line, and its end.
    fn run_line<W: Sink>(&mut self, rest: &[u8], writer: &mut W) -> Result<(), ScriptFault>
        requires { has_line_feed rest.now ≡ false }
        ensures adds { (size : ℕ) (come : Come) → Keeps size come self.old
            → Adds result (watched_behind size come (rest.now ++ 10 ∷ [])) (W.contents writer.old) (W.contents writer.new) }
        ensures keeps { (size : ℕ) (come : Come) → Keeps size come self.old
            → OnOk result (Keeps size (after_bytes come (rest.now ++ 10 ∷ [])) self.new) }
    {
        self.keep(rest)?;
        self.end_line(writer)
    }

    /// Runs the lines that end in a chunk behind what came before, and writes what comes of each.
    pub(crate) fn run_chunk<W: Sink>(
        &mut self,
        chunk: &[u8],
        writer: &mut W,
    ) -> Result<(), ScriptFault>
        ensures adds { (size : ℕ) (come : Come) → Keeps size come self.old
            → Adds result (watched_behind size come chunk.now) (W.contents writer.old) (W.contents writer.new) }
        ensures keeps { (size : ℕ) (come : Come) → Keeps size come self.old
            → OnOk result (Keeps size (after_bytes come chunk.now) self.new) }
    {
        let mut rest = chunk;
        while let Some((line, later)) = cut_line(rest) {
            self.run_line(line, writer)?;
            rest = later;
        }
        self.keep(rest)?;
        Ok(())
    }
}
