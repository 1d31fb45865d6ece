//! Answering the frames that came with one read.
ghost use Rattle.std.specs.Prelude.{◌≡◌, ◌+◌, ◌≤◌, ◌<◌, ◌++◌, ℕ, List, [], length, take, true, option_map, vec_capacity, OnOk, IfOk, IfErr};
ghost use Rattle.std.specs.Io.KnownBytes.{Appends};
ghost use Rattle.cq_frames.specs.declared.frame.TheConstants.{FRAME_LIMIT};
ghost use Rattle.cq_frame_loop.specs.Cutting.{frames_behind};
ghost use Rattle.cq_frame_loop.specs.within.Advances.{Advances, AdvancesTo, FailsAt, FailsIn};
ghost use Rattle.cq_frame_loop.specs.Writes.{BreaksOffAt, LeavesAt};

use crate::buffer::keep_last;
use crate::fault::LoopFault;
use crate::front::{front_of, pass};
use crate::handler::{ANSWER_ROOM, FrameHandler};
use crate::writing::{take_end, write_told};
use cq_lines::Sink;

/// Writes the first `len` bytes of what was told, where the frame behind it can't be answered.
fn break_off<W: Sink>(out: &mut Vec<u8>, len: usize, writer: &mut W) -> LoopFault
    ensures writes { (output : List ℕ) × Appends (W.contents writer.old) (W.contents writer.new) output
        × BreaksOffAt result (take len out.old.items) output }
    ensures leaves { LeavesAt result (W.has_failed writer.new) (W.has_flushed writer.new) }
{
    out.truncate(len);
    match write_told(out, writer) {
        Ok(()) => LoopFault::Unanswered,
        Err(fault) => fault,
    }
}

/// Answers a frame. What is told of it stands behind what was told before, or is written.
fn answer_frame<H: FrameHandler, W: Sink>(
    handler: &mut H,
    frame: Option<&[u8]>,
    out: &mut Vec<u8>,
    end: &mut Vec<u8>,
    writer: &mut W,
) -> Result<(), LoopFault>
    requires empty { end.old.items ≡ [] }
    requires room { ANSWER_ROOM ≤ vec_capacity end.old }
    ensures answers { OnOk result ((text : List ℕ) × (output : List ℕ) × H.answers handler.old (option_map (λ bytes. bytes.now) frame.entry) text handler.new
        × Appends (W.contents writer.old) (W.contents writer.new) output × (out.old.items ++ text ≡ output ++ out.new.items)) }
    ensures fails { IfErr result (λ fault. (output : List ℕ) × Appends (W.contents writer.old) (W.contents writer.new) output
        × FailsAt H.answers H.breaks fault handler.old (option_map (λ bytes. bytes.now) frame.entry) out.old.items output handler.new) }
    ensures leaves { IfErr result (λ fault. LeavesAt fault (W.has_failed writer.new) (W.has_flushed writer.new)) }
    ensures empty { OnOk result (end.new.items ≡ []) }
    ensures room { ANSWER_ROOM ≤ vec_capacity end.new }
{
    let len = out.len();
    match handler.answer(frame, out, end) {
        Ok(()) => take_end(out, end, writer),
        Err(_) => Err(break_off(out, len, writer)),
    }
}

/// Answers each whole frame of these bytes, of which the first so many are passed over: how many of them are left, which is an
/// unfinished frame, and how many of those that come are to be passed over.
fn answer_each<H: FrameHandler, W: Sink>(
    handler: &mut H,
    bytes: &[u8],
    count: usize,
    out: &mut Vec<u8>,
    end: &mut Vec<u8>,
    writer: &mut W,
) -> Result<(usize, usize), LoopFault>
    requires nothing { out.old.items ≡ [] }
    requires empty { end.old.items ≡ [] }
    requires room { ANSWER_ROOM ≤ vec_capacity end.old }
    ensures answers { IfOk result (λ left. (output : List ℕ) × Appends (W.contents writer.old) (W.contents writer.new) output
        × AdvancesTo H.answers handler.old count bytes.now (output ++ out.new.items) handler.new left.1 left.0) }
    ensures fails { IfErr result (λ fault. (output : List ℕ) × Appends (W.contents writer.old) (W.contents writer.new) output
        × FailsIn H.answers H.breaks fault handler.old (frames_behind count bytes.now) output handler.new) }
    ensures leaves { IfErr result (λ fault. LeavesAt fault (W.has_failed writer.new) (W.has_flushed writer.new)) }
    ensures empty { OnOk result (end.new.items ≡ []) }
    ensures room { ANSWER_ROOM ≤ vec_capacity end.new }
{
    let (mut rest, mut passed) = pass(bytes, count);
    while let Some((frame, size)) = front_of(rest) {
        answer_frame(handler, frame, out, end, writer)?;
        let (later, more) = pass(rest, size);
        rest = later;
        passed = more;
    }
    Ok((rest.len(), passed))
}

/// Answers each whole frame of these bytes, as `answer_each` does, and writes all that was told.
fn answer_all<H: FrameHandler, W: Sink>(
    handler: &mut H,
    bytes: &[u8],
    count: usize,
    out: &mut Vec<u8>,
    end: &mut Vec<u8>,
    writer: &mut W,
) -> Result<(usize, usize), LoopFault>
    requires nothing { out.old.items ≡ [] }
    requires empty { end.old.items ≡ [] }
    requires room { ANSWER_ROOM ≤ vec_capacity end.old }
    ensures answers { IfOk result (λ left. (output : List ℕ) × Appends (W.contents writer.old) (W.contents writer.new) output
        × AdvancesTo H.answers handler.old count bytes.now output handler.new left.1 left.0) }
    ensures fails { IfErr result (λ fault. (output : List ℕ) × Appends (W.contents writer.old) (W.contents writer.new) output
        × FailsIn H.answers H.breaks fault handler.old (frames_behind count bytes.now) output handler.new) }
    ensures flushed { OnOk result (W.has_flushed writer.new ≡ true) }
    ensures leaves { IfErr result (λ fault. LeavesAt fault (W.has_failed writer.new) (W.has_flushed writer.new)) }
    ensures nothing { OnOk result (out.new.items ≡ []) }
    ensures empty { OnOk result (end.new.items ≡ []) }
    ensures room { ANSWER_ROOM ≤ vec_capacity end.new }
{
    match answer_each(handler, bytes, count, out, end, writer) {
        Ok(left) => match write_told(out, writer) {
            Ok(()) => Ok(left),
            Err(fault) => Err(fault),
        },
        Err(fault) => Err(fault),
    }
}

/// Answers each whole frame of the first `len` bytes of the buffer, of which the first so many are passed over, and moves what is left
/// of them to the front: how many bytes that are, and how many of those that come are to be passed over.
pub(crate) fn answer_buffer<H: FrameHandler, W: Sink>(
    handler: &mut H,
    buffer: &mut [u8],
    len: usize,
    count: usize,
    out: &mut Vec<u8>,
    end: &mut Vec<u8>,
    writer: &mut W,
) -> Result<(usize, usize), LoopFault>
    requires within { len ≤ length buffer.old }
    requires nothing { out.old.items ≡ [] }
    requires empty { end.old.items ≡ [] }
    requires room { ANSWER_ROOM ≤ vec_capacity end.old }
    ensures answers { IfOk result (λ left. (output : List ℕ) × Appends (W.contents writer.old) (W.contents writer.new) output
        × Advances H.answers handler.old count (take len buffer.old) output handler.new left.1 (take left.0 buffer.new)
        × (frames_behind left.1 (take left.0 buffer.new) ≡ [])) }
    ensures short { IfOk result (λ left. left.0 < FRAME_LIMIT + 4) }
    ensures fails { IfErr result (λ fault. (output : List ℕ) × Appends (W.contents writer.old) (W.contents writer.new) output
        × FailsIn H.answers H.breaks fault handler.old (frames_behind count (take len buffer.old)) output handler.new) }
    ensures flushed { OnOk result (W.has_flushed writer.new ≡ true) }
    ensures leaves { IfErr result (λ fault. LeavesAt fault (W.has_failed writer.new) (W.has_flushed writer.new)) }
    ensures nothing { OnOk result (out.new.items ≡ []) }
    ensures empty { OnOk result (end.new.items ≡ []) }
    ensures room { ANSWER_ROOM ≤ vec_capacity end.new }
{
    let (bytes, _) = buffer.split_at(len);
    let left = answer_all(handler, bytes, count, out, end, writer)?;
    keep_last(buffer, len, left.0);
    Ok(left)
}
