//! The loop of a process over the frames of its input, where answers are settled before they are told.
ghost use Rattle.std.specs.Prelude.{◌≡◌, ◌+◌, ◌≤◌, ◌<◌, ◌++◌, ℕ, List, [], length, take, true, vec_capacity, OnOk, IfOk, IfErr};
ghost use Rattle.std.specs.Io.KnownBytes.{Appends, Consumes};
ghost use Rattle.cq_frames.specs.declared.frame.TheConstants.{FRAME_LIMIT};
ghost use Rattle.cq_frame_loop.specs.Cutting.{frames_behind};
ghost use Rattle.cq_frame_loop.specs.Settling.{LeavesSettledReader, LeavesSettledWriter, SettlesInput, StopsFront};
ghost use Rattle.cq_frame_loop.specs.within.Advances.{Advances, AdvancesTo};
ghost use Rattle.cq_frame_loop.specs.within.Settled.{IsStop};

use crate::buffer::{keep_last, read_behind, read_fault};
use crate::fault::LoopFault;
use crate::frame_loop::BUFFER_SIZE;
use crate::front::{front_of, pass};
use crate::handler::ANSWER_ROOM;
use crate::settled_writing::answer_settled;
use crate::settling::{SettledFault, SettlingHandler};
use crate::telling::SettledSink;
use cq_lines::{BYTES_LIMIT, Source};
use std::alloc::Global;

/// Answers each whole frame of these bytes, of which the first so many are passed over, and settles and writes what was told: how many of
/// the bytes are left, which is an unfinished frame, and how many of those that come are to be passed over.
fn answer_each<H: SettlingHandler, W: SettledSink<H>>(
    handler: &mut H,
    bytes: &[u8],
    count: usize,
    out: &mut Vec<u8>,
    end: &mut Vec<u8>,
    writer: &mut W,
) -> Result<(usize, usize), SettledFault>
    requires ready { H.is_ready handler.old }
    requires settled { H.is_settled handler.old }
    requires nothing { out.old.items ≡ [] }
    requires empty { end.old.items ≡ [] }
    requires room { ANSWER_ROOM ≤ vec_capacity end.old }
    ensures ready { OnOk result (H.is_ready handler.new) }
    ensures settled { OnOk result (H.is_settled handler.new) }
    ensures answers { IfOk result (λ left. (output : List ℕ) × Appends (W.taken writer.old) (W.taken writer.new) output
        × AdvancesTo H.answers handler.old count bytes.now output handler.new left.1 left.0) }
    ensures stops { IfErr result (λ fault. (output : List ℕ) × Appends (W.taken writer.old) (W.taken writer.new) output
        × StopsFront H.answers H.stops H.is_settled handler.old (frames_behind count bytes.now) output handler.new × IsStop fault (W.is_broken writer.new)) }
    ensures nothing { OnOk result (out.new.items ≡ []) }
    ensures empty { OnOk result (end.new.items ≡ []) }
    ensures room { ANSWER_ROOM ≤ vec_capacity end.new }
{
    let (mut rest, mut passed) = pass(bytes, count);
    while let Some((frame, size)) = front_of(rest) {
        let (later, more) = pass(rest, size);
        let is_last = front_of(later).is_none();
        answer_settled(handler, frame, is_last, out, end, writer)?;
        rest = later;
        passed = more;
    }
    Ok((rest.len(), passed))
}

/// Answers, settles and writes so, and flushes what was written.
fn answer_all<H: SettlingHandler, W: SettledSink<H>>(
    handler: &mut H,
    bytes: &[u8],
    count: usize,
    out: &mut Vec<u8>,
    end: &mut Vec<u8>,
    writer: &mut W,
) -> Result<(usize, usize), SettledFault>
    requires ready { H.is_ready handler.old }
    requires settled { H.is_settled handler.old }
    requires nothing { out.old.items ≡ [] }
    requires empty { end.old.items ≡ [] }
    requires room { ANSWER_ROOM ≤ vec_capacity end.old }
    ensures ready { OnOk result (H.is_ready handler.new) }
    ensures settled { OnOk result (H.is_settled handler.new) }
    ensures answers { IfOk result (λ left. (output : List ℕ) × Appends (W.taken writer.old) (W.taken writer.new) output
        × AdvancesTo H.answers handler.old count bytes.now output handler.new left.1 left.0) }
    ensures stops { IfErr result (λ fault. (output : List ℕ) × Appends (W.taken writer.old) (W.taken writer.new) output
        × StopsFront H.answers H.stops H.is_settled handler.old (frames_behind count bytes.now) output handler.new × IsStop fault (W.is_broken writer.new)) }
    ensures flushed { OnOk result (W.is_passed_on writer.new ≡ true) }
    ensures nothing { OnOk result (out.new.items ≡ []) }
    ensures empty { OnOk result (end.new.items ≡ []) }
    ensures room { ANSWER_ROOM ≤ vec_capacity end.new }
{
    match answer_each(handler, bytes, count, out, end, writer) {
        Ok(left) => match writer.pass_on() {
            Ok(()) => Ok(left),
            Err(fault) => Err(SettledFault::Loop(fault)),
        },
        Err(fault) => Err(fault),
    }
}

/// Answers each whole frame of the first `len` bytes of the buffer so, of which the first so many are passed over, and moves what is left
/// of them to the front: how many bytes that are, and how many of those that come are to be passed over.
fn answer_buffer<H: SettlingHandler, W: SettledSink<H>>(
    handler: &mut H,
    buffer: &mut [u8],
    len: usize,
    count: usize,
    out: &mut Vec<u8>,
    end: &mut Vec<u8>,
    writer: &mut W,
) -> Result<(usize, usize), SettledFault>
    requires ready { H.is_ready handler.old }
    requires settled { H.is_settled handler.old }
    requires within { len ≤ length buffer.old }
    requires nothing { out.old.items ≡ [] }
    requires empty { end.old.items ≡ [] }
    requires room { ANSWER_ROOM ≤ vec_capacity end.old }
    ensures ready { OnOk result (H.is_ready handler.new) }
    ensures settled { OnOk result (H.is_settled handler.new) }
    ensures answers { IfOk result (λ left. (output : List ℕ) × Appends (W.taken writer.old) (W.taken writer.new) output
        × Advances H.answers handler.old count (take len buffer.old) output handler.new left.1 (take left.0 buffer.new)
        × (frames_behind left.1 (take left.0 buffer.new) ≡ [])) }
    ensures short { IfOk result (λ left. left.0 < FRAME_LIMIT + 4) }
    ensures stops { IfErr result (λ fault. (output : List ℕ) × Appends (W.taken writer.old) (W.taken writer.new) output
        × StopsFront H.answers H.stops H.is_settled handler.old (frames_behind count (take len buffer.old)) output handler.new × IsStop fault (W.is_broken writer.new)) }
    ensures flushed { OnOk result (W.is_passed_on writer.new ≡ true) }
    ensures nothing { OnOk result (out.new.items ≡ []) }
    ensures empty { OnOk result (end.new.items ≡ []) }
    ensures room { ANSWER_ROOM ≤ vec_capacity end.new }
{
    let (bytes, _) = buffer.split_at(len);
    let left = answer_all(handler, bytes, count, out, end, writer)?;
    keep_last(buffer, len, left.0);
    Ok(left)
}

/// Answers the frames that the reader gives, with buffers that are empty.
fn answer_with<H: SettlingHandler, R: Source, W: SettledSink<H>>(
    handler: &mut H,
    reader: &mut R,
    writer: &mut W,
    buffer: &mut [u8],
    out: &mut Vec<u8>,
    end: &mut Vec<u8>,
) -> Result<(), SettledFault>
    requires ready { H.is_ready handler.old }
    requires settled { H.is_settled handler.old }
    requires size { length buffer.old ≡ BUFFER_SIZE }
    requires nothing { out.old.items ≡ [] }
    requires empty { end.old.items ≡ [] }
    requires room { ANSWER_ROOM ≤ vec_capacity end.old }
    ensures answers { (input : List ℕ) × (output : List ℕ)
        × Consumes (R.remaining reader.old) (R.remaining reader.new) input
        × Appends (W.taken writer.old) (W.taken writer.new) output
        × SettlesInput H.answers H.stops H.is_settled result handler.old handler.new input (R.remaining reader.new) output
        × LeavesSettledWriter result input (W.is_broken writer.new) (W.is_passed_on writer.new) }
    ensures reader { LeavesSettledReader result (R.has_failed reader.new) }
{
    let mut len = 0;
    let mut passed = 0;
    for _ in 0..BYTES_LIMIT {
        match read_behind(reader, buffer, len) {
            Ok(0) => {
                if reader.failed() {
                    return Err(SettledFault::Loop(LoopFault::ReadFailed));
                }
                return match writer.pass_on() {
                    Ok(()) => Ok(()),
                    Err(fault) => Err(SettledFault::Loop(fault)),
                };
            }
            Ok(count) => {
                let left = answer_buffer(handler, buffer, len + count, passed, out, end, writer)?;
                len = left.0;
                passed = left.1;
            }
            Err(_) => return Err(SettledFault::Loop(read_fault(reader))),
        }
    }
    Err(SettledFault::Loop(LoopFault::TooManyBytes))
}

/// Reads frames, has the handler answer each, and writes the answers, as `answer_frames` does. But what one read brings is answered, then
/// all of it is settled at once, and then it is written and flushed, before more is read: so what comes meanwhile is settled together.
/// Nothing is written that isn't settled, whatever fault ends it. What is told before gets much, or wants memory, is settled and written earlier.
pub fn answer_settled_frames<H: SettlingHandler, R: Source, W: SettledSink<H>>(
    alloc: Global,
    handler: &mut H,
    reader: &mut R,
    writer: &mut W,
) -> Result<(), SettledFault>
    requires ready { H.is_ready handler.old }
    requires settled { H.is_settled handler.old }
    ensures answers { (input : List ℕ) × (output : List ℕ)
        × Consumes (R.remaining reader.old) (R.remaining reader.new) input
        × Appends (W.taken writer.old) (W.taken writer.new) output
        × SettlesInput H.answers H.stops H.is_settled result handler.old handler.new input (R.remaining reader.new) output
        × LeavesSettledWriter result input (W.is_broken writer.new) (W.is_passed_on writer.new) }
    ensures reader { LeavesSettledReader result (R.has_failed reader.new) }
{
    let Ok(mut end) = Vec::with_capacity(alloc, ANSWER_ROOM) else {
        return Err(SettledFault::Loop(LoopFault::NoMemory));
    };
    let Ok(mut buffer) = vec![in alloc; 0u8; BUFFER_SIZE] else {
        return Err(SettledFault::Loop(LoopFault::NoMemory));
    };
    let mut out = Vec::new(alloc);
    answer_with(
        handler,
        reader,
        writer,
        buffer.as_mut_slice(),
        &mut out,
        &mut end,
    )
}
