//! Writing text, all of it or a prefix of it.
ghost use Rattle.std.specs.Prelude.{◌≡◌, true, if◌then◌else◌, Err, OnOk};
ghost use Rattle.std.specs.Io.KnownBytes.{Keeps};
ghost use Rattle.cq_lines.specs.declared.fault.ScriptFault.TheVariants.{WriteFailed, NoMemory};
ghost use Rattle.cq_script.specs.Runs.{Takes, EndsWriting};

use cq_lines::{ScriptFault, Sink};

/// Flushes all that was written, and asks whether all of its calls went well.
pub fn finish_writing<W: Sink>(writer: &mut W) -> Result<(), ScriptFault>
    ensures kept { Keeps (W.contents writer.old) (W.contents writer.new) }
    ensures answer { EndsWriting result (W.has_failed writer.new) }
    ensures flushed { OnOk result (W.has_flushed writer.new ≡ true) }
{
    if writer.flush_written().is_err() {
        return Err(write_fault(writer));
    }
    if writer.failed() {
        return Err(ScriptFault::WriteFailed);
    }
    Ok(())
}

/// Writes all of `text`, or a prefix of it where a write fails.
pub fn write_text<W: Sink>(writer: &mut W, text: &[u8]) -> Result<(), ScriptFault>
    ensures takes { Takes result text.now (W.contents writer.old) (W.contents writer.new) }
    ensures failed { result ≡ Err WriteFailed → W.has_failed writer.new ≡ true }
{
    let mut rest = text;
    while !rest.is_empty() {
        match writer.write(rest) {
            Ok(0) | Err(_) => return Err(write_fault(writer)),
            Ok(count) => {
                let (_, later) = rest.split_at(count);
                rest = later;
            }
        }
    }
    Ok(())
}

/// What to answer after a write gave an error or took nothing. A writer that says that it has not
/// failed ran out of memory.
fn write_fault<W: Sink>(writer: &W) -> ScriptFault
    ensures { result ≡ (if W.has_failed writer.now then WriteFailed else NoMemory) }
{
    if writer.failed() {
        ScriptFault::WriteFailed
    } else {
        ScriptFault::NoMemory
    }
}
