//! Reading a whole text.
ghost use Rattle.std.specs.Prelude.{◌≡◌, ◌+◌, ◌*◌, ◌<◌, ℕ, List, false, true, None, Err, OnOk};
ghost use Rattle.std.specs.Io.KnownBytes.{Consumes};
ghost use Rattle.cq_lines.specs.Texts.{ReadsText};
ghost use Rattle.cq_lines.specs.declared.fault.ScriptFault.TheVariants.{ReadFailed};
ghost use Rattle.cq_lines.specs.declared.text.TheConstants.{BYTES_LIMIT};

use crate::fault::ScriptFault;
use crate::limits::Limits;
use crate::parser::LineParser;
use crate::reader::LineReader;
use crate::source::{Source, read_fault};
use std::alloc::Global;

/// How many bytes are asked of the reader at a time.
pub const CHUNK_SIZE: usize = 65_536;

/// The most bytes that 64 bits can count.
pub const BYTES_LIMIT: u64 = u64::MAX;

/// Reads a text, to its end or to its first fault: the values of its lines, in order. An overlong line has to be a fault
/// of the grammar, and the bytes that the limits allow must be fewer than `BYTES_LIMIT`. `ReadFailed` is answered only
/// where the lines that have ended have no fault, `NoMemory` at any place, and `WriteFailed` never. Beside the values
/// it holds one chunk, and the partial line. O(bytes), and what the parser takes for each line.
pub fn read_lines<T: Drop, P: LineParser<T>, R: Source>(
    alloc: Global,
    parser: &mut P,
    limits: Limits,
    reader: &mut R,
) -> Result<Vec<T>, ScriptFault>
    requires unread { R.has_failed reader.old ≡ false }
    requires strict { (n : ℕ) → P.grammar.overlong_value n ≡ None }
    requires countable { (limits.line_len + 1) * limits.line_count < BYTES_LIMIT }
    ensures reads { (input : List ℕ)
        × Consumes (R.remaining reader.old) (R.remaining reader.new) input
        × ReadsText P.grammar limits result input (R.remaining reader.new) }
    ensures sound { OnOk result (R.has_failed reader.new ≡ false) }
    ensures read_failed { result ≡ Err ReadFailed → R.has_failed reader.new ≡ true }
{
    let mut lines = LineReader::new(alloc, limits);
    let mut chunk = [0; CHUNK_SIZE];
    for _ in 0..BYTES_LIMIT {
        match reader.read(&mut chunk) {
            Ok(0) => {
                if reader.failed() {
                    return Err(ScriptFault::ReadFailed);
                }
                lines.finish(parser)?;
                return Ok(lines.into_values());
            }
            Ok(count) => lines.feed(parser, &chunk[..count])?,
            Err(_) => return Err(read_fault(reader)),
        }
    }
    Err(ScriptFault::TooManyLines)
}
