//! Writing what is told, all of it or a prefix of it.
ghost use Rattle.std.specs.Prelude.{◌≡◌, ◌++◌, [], true, false, vec_capacity, IfErr, OnOk};
ghost use Rattle.std.specs.Io.KnownBytes.{Keeps};
ghost use Rattle.cq_frame_loop.specs.Writes.{IsWriteFault, IsWriting, LeavesAt, Takes};

use crate::fault::LoopFault;
use cq_lines::Sink;

/// How many bytes of answers are written at once, though more frames are there.
pub(crate) const OUT_LIMIT: usize = 4_194_304;

/// What to answer after a write gave an error or took nothing.
fn write_fault<W: Sink>(writer: &W) -> LoopFault
    ensures kind { IsWriteFault result }
    ensures leaves { LeavesAt result (W.has_failed writer.now) (W.has_flushed writer.now) }
{
    if writer.failed() {
        LoopFault::WriteFailed
    } else {
        LoopFault::Interrupted
    }
}

/// Flushes all that was written, and asks whether all calls of the writer went well.
pub(crate) fn flush_all<W: Sink>(writer: &mut W) -> Result<(), LoopFault>
    ensures kept { Keeps (W.contents writer.old) (W.contents writer.new) }
    ensures kind { IsWriting result }
    ensures leaves { IfErr result (λ fault. LeavesAt fault (W.has_failed writer.new) (W.has_flushed writer.new)) }
    ensures sound { OnOk result (W.has_failed writer.new ≡ false) }
    ensures flushed { OnOk result (W.has_flushed writer.new ≡ true) }
{
    if writer.flush_written().is_err() {
        return Err(write_fault(writer));
    }
    if writer.failed() {
        return Err(LoopFault::WriteFailed);
    }
    Ok(())
}

/// Writes all of the text, or a prefix of it where a write fails.
fn write_all<W: Sink>(writer: &mut W, text: &[u8]) -> Result<(), LoopFault>
    ensures takes { Takes result text.now [] (W.contents writer.old) (W.contents writer.new) }
    ensures leaves { IfErr result (λ fault. LeavesAt fault (W.has_failed writer.new) (W.has_flushed writer.new)) }
{
    let mut rest = text;
    while !rest.is_empty() {
        match writer.write(rest) {
            Ok(0) | Err(_) => return Err(write_fault(writer)),
            Ok(count) => {
                let (_, later) = rest.split_at(count);
                rest = later;
            }
        }
    }
    Ok(())
}

/// Writes what was told, and clears it.
pub(crate) fn write_out<W: Sink>(out: &mut Vec<u8>, writer: &mut W) -> Result<(), LoopFault>
    ensures takes { Takes result out.old.items [] (W.contents writer.old) (W.contents writer.new) }
    ensures leaves { IfErr result (λ fault. LeavesAt fault (W.has_failed writer.new) (W.has_flushed writer.new)) }
    ensures empty { OnOk result (out.new.items ≡ []) }
    ensures capacity { vec_capacity out.new ≡ vec_capacity out.old }
{
    match write_all(writer, out.as_slice()) {
        Ok(()) => {
            out.clear();
            Ok(())
        }
        Err(fault) => Err(fault),
    }
}

/// Writes what was told, and then the last part of an answer, and clears both.
fn write_both<W: Sink>(
    out: &mut Vec<u8>,
    end: &mut Vec<u8>,
    writer: &mut W,
) -> Result<(), LoopFault>
    ensures takes { Takes result (out.old.items ++ end.old.items) out.new.items (W.contents writer.old) (W.contents writer.new) }
    ensures leaves { IfErr result (λ fault. LeavesAt fault (W.has_failed writer.new) (W.has_flushed writer.new)) }
    ensures empty { OnOk result (end.new.items ≡ []) }
    ensures capacity { vec_capacity end.new ≡ vec_capacity end.old }
{
    match write_out(out, writer) {
        Ok(()) => write_out(end, writer),
        Err(fault) => Err(fault),
    }
}

/// Writes what was told, where that is much.
fn write_much<W: Sink>(out: &mut Vec<u8>, writer: &mut W) -> Result<(), LoopFault>
    ensures takes { Takes result out.old.items out.new.items (W.contents writer.old) (W.contents writer.new) }
    ensures leaves { IfErr result (λ fault. LeavesAt fault (W.has_failed writer.new) (W.has_flushed writer.new)) }
{
    if OUT_LIMIT < out.len() {
        return write_out(out, writer);
    }
    Ok(())
}

/// Puts the last part of an answer behind what was told. Where there is no memory for that, both are written. What is told is written,
/// too, where it gets much.
pub(crate) fn take_end<W: Sink>(
    out: &mut Vec<u8>,
    end: &mut Vec<u8>,
    writer: &mut W,
) -> Result<(), LoopFault>
    ensures takes { Takes result (out.old.items ++ end.old.items) out.new.items (W.contents writer.old) (W.contents writer.new) }
    ensures leaves { IfErr result (λ fault. LeavesAt fault (W.has_failed writer.new) (W.has_flushed writer.new)) }
    ensures empty { OnOk result (end.new.items ≡ []) }
    ensures capacity { vec_capacity end.new ≡ vec_capacity end.old }
{
    match out.extend_from_slice(end.as_slice()) {
        Ok(()) => {
            end.clear();
            write_much(out, writer)
        }
        Err(_) => write_both(out, end, writer),
    }
}

/// Writes all that was told of what came with one read, and flushes it, with what was written before.
pub(crate) fn write_told<W: Sink>(out: &mut Vec<u8>, writer: &mut W) -> Result<(), LoopFault>
    ensures takes { Takes result out.old.items [] (W.contents writer.old) (W.contents writer.new) }
    ensures leaves { IfErr result (λ fault. LeavesAt fault (W.has_failed writer.new) (W.has_flushed writer.new)) }
    ensures empty { OnOk result (out.new.items ≡ []) }
    ensures flushed { OnOk result (W.has_flushed writer.new ≡ true) }
{
    match write_out(out, writer) {
        Ok(()) => flush_all(writer),
        Err(fault) => Err(fault),
    }
}
