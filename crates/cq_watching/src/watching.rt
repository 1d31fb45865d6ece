//! Lines that are run as those of a session, and may ask what the world holds.
ghost use Rattle.std.specs.Prelude.{◌≡◌, ℕ, List};
ghost use Rattle.std.specs.Io.KnownBytes.{Consumes, Appends};
ghost use Rattle.cq_watching.specs.Coming.{nothing_yet};
ghost use Rattle.cq_watching.specs.Watching.{Keeps, Watches};

use crate::watcher::Watcher;
use cq_base::ChainSize;
use cq_lines::{BYTES_LIMIT, CHUNK_SIZE, ScriptFault, Sink, Source, read_fault};
use std::alloc::Global;

/// Runs each chunk as it comes, and then the end.
fn run_chunks<R: Source, W: Sink>(
    watcher: &mut Watcher,
    reader: &mut R,
    writer: &mut W,
) -> Result<(), ScriptFault>
    ensures { (size : ℕ) → Keeps size nothing_yet watcher.old → (input : List ℕ) × (output : List ℕ)
        × Consumes (R.remaining reader.old) (R.remaining reader.new) input
        × Appends (W.contents writer.old) (W.contents writer.new) output
        × Watches size result input (R.remaining reader.new) output }
{
    let mut chunk = [0; CHUNK_SIZE];
    for _ in 0..BYTES_LIMIT {
        match reader.read(&mut chunk) {
            Ok(0) => {
                if reader.failed() {
                    return Err(ScriptFault::ReadFailed);
                }
                return watcher.end_line(writer);
            }
            Ok(count) => watcher.run_chunk(&chunk[..count], writer)?,
            Err(_) => return Err(read_fault(reader)),
        }
    }
    Err(ScriptFault::TooManyLines)
}

/// Runs lines on so many servers as they come, as a session does, but for the line `{"op":"show"}`: it is answered by a line that
/// tells what the world holds then, and counts as a blank one. What comes of each line is written and passed on before more is
/// read. At the end of the input a line ends, though it may have no byte. It ends as a session does; O(bytes), what the servers
/// take, and for each line that asks what `world_line` takes. It holds the line that has begun.
pub fn watch<R: Source, W: Sink>(
    alloc: Global,
    size: ChainSize,
    reader: &mut R,
    writer: &mut W,
) -> Result<(), ScriptFault>
    ensures { (input : List ℕ) × (output : List ℕ)
        × Consumes (R.remaining reader.old) (R.remaining reader.new) input
        × Appends (W.contents writer.old) (W.contents writer.new) output
        × Watches size result input (R.remaining reader.new) output }
{
    let mut watcher = Watcher::new(alloc, size)?;
    run_chunks(&mut watcher, reader, writer)
}
