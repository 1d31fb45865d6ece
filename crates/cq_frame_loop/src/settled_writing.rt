//! Writing what is told, once all that it rests on is settled.
ghost use Rattle.std.specs.Prelude.{◌≡◌, ◌++◌, ◌≤◌, ℕ, List, [], ◌∷◌, true, option_map, vec_capacity, OnOk, IfErr};
ghost use Rattle.std.specs.Io.KnownBytes.{Appends};
ghost use Rattle.cq_frame_loop.specs.within.Settled.{IsStop, Rested, StopsBehind, StopsWriting, Waits, WaitsOrSettles};
ghost use Rattle.cq_frame_loop.specs.Writes.{IsWriteFault, LeavesAt, Takes};

use crate::fault::LoopFault;
use crate::handler::ANSWER_ROOM;
use crate::settling::{SettledFault, SettlingHandler};
use crate::telling::SettledSink;
use crate::writing::OUT_LIMIT;

/// Writes what was told, and then the last part of an answer, and clears both. It asks that all is settled: nobody is told before.
fn write_settled<H: SettlingHandler, W: SettledSink<H>>(
    handler: &H,
    out: &mut Vec<u8>,
    end: &mut Vec<u8>,
    writer: &mut W,
) -> Result<(), LoopFault>
    requires settled { H.is_settled handler.now }
    requires waits { Waits H.answers (out.old.items ++ end.old.items) handler.now }
    ensures takes { Takes result (out.old.items ++ end.old.items) [] (W.taken writer.old) (W.taken writer.new) }
    ensures leaves { IfErr result (λ fault. LeavesAt fault (W.is_broken writer.new) (W.is_passed_on writer.new)) }
    ensures nothing { OnOk result (out.new.items ≡ []) }
    ensures empty { OnOk result (end.new.items ≡ []) }
    ensures capacity { vec_capacity end.new ≡ vec_capacity end.old }
{
    match writer.tell(handler, out) {
        Ok(()) => writer.tell(handler, end),
        Err(fault) => Err(fault),
    }
}

/// Settles all that was answered, and then writes what was told of it.
fn settle_and_write<H: SettlingHandler, W: SettledSink<H>>(
    handler: &mut H,
    out: &mut Vec<u8>,
    end: &mut Vec<u8>,
    writer: &mut W,
) -> Result<(), SettledFault>
    requires ready { H.is_ready handler.old }
    requires waits { Waits H.answers (out.old.items ++ end.old.items) handler.old }
    ensures ready { OnOk result (H.is_ready handler.new) }
    ensures settled { OnOk result (H.is_settled handler.new) }
    ensures rests { OnOk result (H.rests handler.old handler.new) }
    ensures writes { OnOk result (Appends (W.taken writer.old) (W.taken writer.new) (out.old.items ++ end.old.items)) }
    ensures stops { IfErr result (λ fault. (output : List ℕ) × Appends (W.taken writer.old) (W.taken writer.new) output
        × StopsWriting H.rests H.stops H.is_settled handler.old (out.old.items ++ end.old.items) output handler.new × IsStop fault (W.is_broken writer.new)) }
    ensures nothing { OnOk result (out.new.items ≡ []) }
    ensures empty { OnOk result (end.new.items ≡ []) }
    ensures capacity { vec_capacity end.new ≡ vec_capacity end.old }
{
    match handler.settle() {
        Ok(()) => match write_settled(handler, out, end, writer) {
            Ok(()) => Ok(()),
            Err(fault) => Err(SettledFault::Loop(fault)),
        },
        Err(_) => Err(SettledFault::Unsettled),
    }
}

/// Puts the last part of an answer behind what was told. `false`: there is no memory for that, and both are as they were.
fn append_end(out: &mut Vec<u8>, end: &mut Vec<u8>) -> bool
    ensures same { out.new.items ++ end.new.items ≡ out.old.items ++ end.old.items }
    ensures empty { result ≡ true → end.new.items ≡ [] }
    ensures capacity { vec_capacity end.new ≡ vec_capacity end.old }
{
    match out.extend_from_slice(end.as_slice()) {
        Ok(()) => {
            end.clear();
            true
        }
        Err(_) => false,
    }
}

/// Puts the last part of an answer behind what was told. All is settled and written behind the last answer, where what is told gets
/// much, and where there is no memory for more.
fn take_settled<H: SettlingHandler, W: SettledSink<H>>(
    handler: &mut H,
    is_last: bool,
    out: &mut Vec<u8>,
    end: &mut Vec<u8>,
    writer: &mut W,
) -> Result<(), SettledFault>
    requires ready { H.is_ready handler.old }
    requires waits { Waits H.answers (out.old.items ++ end.old.items) handler.old }
    ensures ready { OnOk result (H.is_ready handler.new) }
    ensures settled { OnOk result (is_last ≡ true → H.is_settled handler.new × (out.new.items ≡ [])) }
    ensures rested { OnOk result (Rested H.rests handler.old handler.new) }
    ensures writes { OnOk result (WaitsOrSettles (W.taken writer.old) (W.taken writer.new) (out.old.items ++ end.old.items) out.new.items (H.is_settled handler.new)) }
    ensures stops { IfErr result (λ fault. (output : List ℕ) × Appends (W.taken writer.old) (W.taken writer.new) output
        × StopsWriting H.rests H.stops H.is_settled handler.old (out.old.items ++ end.old.items) output handler.new × IsStop fault (W.is_broken writer.new)) }
    ensures empty { OnOk result (end.new.items ≡ []) }
    ensures capacity { vec_capacity end.new ≡ vec_capacity end.old }
{
    let is_kept = append_end(out, end);
    if is_kept && !is_last && out.len() <= OUT_LIMIT {
        return Ok(());
    }
    settle_and_write(handler, out, end, writer)
}

/// Answers a frame. What is told of it stands behind what was told before, or all is settled and written, as it is behind the last frame.
pub(crate) fn answer_settled<H: SettlingHandler, W: SettledSink<H>>(
    handler: &mut H,
    frame: Option<&[u8]>,
    is_last: bool,
    out: &mut Vec<u8>,
    end: &mut Vec<u8>,
    writer: &mut W,
) -> Result<(), SettledFault>
    requires ready { H.is_ready handler.old }
    requires waits { Waits H.answers out.old.items handler.old }
    requires empty { end.old.items ≡ [] }
    requires room { ANSWER_ROOM ≤ vec_capacity end.old }
    ensures ready { OnOk result (H.is_ready handler.new) }
    ensures settled { OnOk result (is_last ≡ true → H.is_settled handler.new × (out.new.items ≡ [])) }
    ensures answers { OnOk result ((text : List ℕ) × H.answers handler.old (option_map (λ bytes. bytes.now) frame.entry) text handler.new
        × WaitsOrSettles (W.taken writer.old) (W.taken writer.new) (out.old.items ++ text) out.new.items (H.is_settled handler.new)) }
    ensures stops { IfErr result (λ fault. (output : List ℕ) × Appends (W.taken writer.old) (W.taken writer.new) output
        × StopsBehind H.answers H.stops H.is_settled handler.old (option_map (λ bytes. bytes.now) frame.entry ∷ []) out.old.items output handler.new × IsStop fault (W.is_broken writer.new)) }
    ensures empty { OnOk result (end.new.items ≡ []) }
    ensures room { ANSWER_ROOM ≤ vec_capacity end.new }
{
    match handler.answer(frame, out, end) {
        Ok(()) => take_settled(handler, is_last, out, end, writer),
        Err(_) => Err(SettledFault::Loop(LoopFault::Unanswered)),
    }
}
