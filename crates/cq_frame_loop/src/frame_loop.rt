//! The loop of a process over the frames of its input.
ghost use Rattle.std.specs.Prelude.{◌≡◌, ◌≤◌, ℕ, List, [], length, vec_capacity};
ghost use Rattle.std.specs.Io.KnownBytes.{Appends, Consumes};
ghost use Rattle.cq_frame_loop.specs.Loops.{AnswersInput, LeavesReader, LeavesWriter};

use crate::answering::answer_buffer;
use crate::buffer::{read_behind, read_fault};
use crate::fault::LoopFault;
use crate::handler::{ANSWER_ROOM, FrameHandler};
use crate::writing::flush_all;
use cq_frames::FRAME_LIMIT;
use cq_lines::{BYTES_LIMIT, Sink, Source};
use std::alloc::Global;

/// How many bytes of the input are held: a frame with its length, and what one read may bring behind it.
pub const BUFFER_SIZE: usize = FRAME_LIMIT + 65_540;

/// Answers the frames that the reader gives, with buffers that are empty.
fn answer_with<H: FrameHandler, R: Source, W: Sink>(
    handler: &mut H,
    reader: &mut R,
    writer: &mut W,
    buffer: &mut [u8],
    out: &mut Vec<u8>,
    end: &mut Vec<u8>,
) -> Result<(), LoopFault>
    requires size { length buffer.old ≡ BUFFER_SIZE }
    requires nothing { out.old.items ≡ [] }
    requires empty { end.old.items ≡ [] }
    requires room { ANSWER_ROOM ≤ vec_capacity end.old }
    ensures answers { (input : List ℕ) × (output : List ℕ)
        × Consumes (R.remaining reader.old) (R.remaining reader.new) input
        × Appends (W.contents writer.old) (W.contents writer.new) output
        × AnswersInput H.answers H.breaks result handler.old handler.new input (R.remaining reader.new) output
        × LeavesWriter result input (W.has_failed writer.new) (W.has_flushed writer.new) }
    ensures reader { LeavesReader result (R.has_failed reader.new) }
{
    let mut len = 0;
    let mut passed = 0;
    for _ in 0..BYTES_LIMIT {
        match read_behind(reader, buffer, len) {
            Ok(0) => {
                if reader.failed() {
                    return Err(LoopFault::ReadFailed);
                }
                return flush_all(writer);
            }
            Ok(count) => {
                let left = answer_buffer(handler, buffer, len + count, passed, out, end, writer)?;
                len = left.0;
                passed = left.1;
            }
            Err(_) => return Err(read_fault(reader)),
        }
    }
    Err(LoopFault::TooManyBytes)
}

/// Reads frames, has the handler answer each, and writes the answers. What one read brings is answered, written and flushed before more
/// is read. Of a frame that is too long the handler is told once, when its length is known, and its bytes are passed over. The input may
/// end anywhere: an unfinished frame at its end is dropped. Memory is taken before the first read, for a frame and for the last part of
/// an answer; after that only the answers may want more, and where there is none for the last part of one, all that was told is
/// written. No frame is copied but a part that has to wait for its rest: O(bytes), and what the handler takes for the frames.
pub fn answer_frames<H: FrameHandler, R: Source, W: Sink>(
    alloc: Global,
    handler: &mut H,
    reader: &mut R,
    writer: &mut W,
) -> Result<(), LoopFault>
    ensures answers { (input : List ℕ) × (output : List ℕ)
        × Consumes (R.remaining reader.old) (R.remaining reader.new) input
        × Appends (W.contents writer.old) (W.contents writer.new) output
        × AnswersInput H.answers H.breaks result handler.old handler.new input (R.remaining reader.new) output
        × LeavesWriter result input (W.has_failed writer.new) (W.has_flushed writer.new) }
    ensures reader { LeavesReader result (R.has_failed reader.new) }
{
    let Ok(mut end) = Vec::with_capacity(alloc, ANSWER_ROOM) else {
        return Err(LoopFault::NoMemory);
    };
    let Ok(mut buffer) = vec![in alloc; 0u8; BUFFER_SIZE] else {
        return Err(LoopFault::NoMemory);
    };
    let mut out = Vec::new(alloc);
    answer_with(
        handler,
        reader,
        writer,
        buffer.as_mut_slice(),
        &mut out,
        &mut end,
    )
}
